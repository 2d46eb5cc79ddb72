//! Why there are no bytes.

ghost use Rattle.std.specs.IoError.{error_kind};
ghost use Rattle.std.specs.Prelude.{◌≡◌, ◌≢◌};

use std::io::{Error, ErrorKind};

/// Why a file or a stream gave no bytes.
#[derive(Clone, Copy, Debug, PartialEq, Eq)]
pub enum InputFault {
    /// Memory was refused.
    Memory,
    /// It can't be opened or read.
    Unreadable,
}

impl InputFault {
    /// What a failed call of the system is.
    pub fn of(error: &Error) -> InputFault
        ensures memory { error_kind error.now ≡ ErrorKind.OutOfMemory → result ≡ InputFault.Memory }
        ensures other { error_kind error.now ≢ ErrorKind.OutOfMemory
            → result ≡ InputFault.Unreadable }
    {
        match error.kind() {
            ErrorKind::OutOfMemory => InputFault::Memory,
            _ => InputFault::Unreadable,
        }
    }
}
