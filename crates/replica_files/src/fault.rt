//! Why key files are not made.

ghost use Rattle.std.specs.Prelude.{◌≡◌};

use crate::files::KeyFile;
use std::alloc::AllocError;

/// Why a key's files were not all made, or its line was not printed.
#[derive(Clone, Copy, Debug, PartialEq, Eq)]
pub enum KeyFault {
    /// Memory was refused.
    Memory,
    /// This file is there already, can't be looked for, or could not be made.
    File(KeyFile),
    /// The line could not be written, or not all of it.
    Output,
}

impl From<AllocError> for KeyFault {
    ghost use Rattle.replica_files.specs.declared.fault.KeyFault.TheVariants.{Memory};

    ghost from_gives = { λ _ fault. fault ≡ Memory };

    fn from(_error: AllocError) -> Self {
        KeyFault::Memory
    }
}
