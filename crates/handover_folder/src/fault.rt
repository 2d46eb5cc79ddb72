//! Why a folder of chains is refused.

ghost use Rattle.std.specs.IoError.{error_kind};
ghost use Rattle.std.specs.Prelude.{◌≡◌, ◌≢◌};

use blocks::Id;
use std::alloc::AllocError;
use std::io;
use std::io::ErrorKind;

/// Why a folder of chains is refused.
#[derive(Clone, Copy, Debug, PartialEq, Eq)]
pub enum LineageFault {
    /// Memory was refused.
    Memory,
    /// What lies in the folder of the chain of this id is not what the words say: something is missing, or can't be read, or is of
    /// another committee.
    Chain(Id),
    /// A disk failed where words were read: read once more they may seem whole, and not be on it.
    Device,
    /// More committees follow one another than are gone through.
    Endless,
}

impl LineageFault {
    /// What a failed call on something in the folder of a chain is.
    pub(crate) fn of(error: &io::Error, chain: &Id) -> LineageFault
        ensures memory { error_kind error.now ≡ ErrorKind.OutOfMemory
            → result ≡ LineageFault.Memory }
        ensures other { error_kind error.now ≢ ErrorKind.OutOfMemory
            → result ≡ LineageFault.Chain chain.now }
    {
        match error.kind() {
            ErrorKind::OutOfMemory => LineageFault::Memory,
            _ => LineageFault::Chain(*chain),
        }
    }
}

impl From<AllocError> for LineageFault {
    ghost use Rattle.handover_folder.specs.declared.fault.LineageFault.TheVariants.{Memory};

    ghost from_gives = { λ _ fault. fault ≡ Memory };

    fn from(_error: AllocError) -> LineageFault {
        LineageFault::Memory
    }
}
