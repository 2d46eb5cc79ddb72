//! Why a run ends early.

use std::alloc::{AllocError, AllocFailed, Global};
use std::fmt::Debug;
use std::io;

/// Why a run ends early.
#[derive(Drop)]
pub(crate) enum Failure {
    /// Something is not as the model says.
    Mismatch {
        what: &'static str,
        want: String,
        got: String,
    },
    /// What is to be so is not.
    Refused(&'static str),
    /// Memory was refused, or a write failed.
    Io(io::Error),
}

impl From<io::Error> for Failure {
    fn from(error: io::Error) -> Failure {
        Failure::Io(error)
    }
}

impl From<AllocError> for Failure {
    fn from(error: AllocError) -> Failure {
        Failure::Io(io::Error::from(error))
    }
}

impl<T: Drop> From<AllocFailed<T>> for Failure {
    fn from(error: AllocFailed<T>) -> Failure {
        Failure::from(AllocError::from(error))
    }
}

/// A mismatch, unless what came is what was wanted.
pub(crate) fn same<T: Debug + PartialEq>(
    alloc: Global,
    what: &'static str,
    want: &T,
    got: &T,
) -> Result<(), Failure> {
    if want == got {
        return Ok(());
    }
    Err(Failure::Mismatch {
        what,
        want: format!(in alloc; "{want:?}")?,
        got: format!(in alloc; "{got:?}")?,
    })
}
