//! Why a log is not sent out.

ghost use Rattle.std.specs.Prelude.{◌≡◌};
ghost use Rattle.vote_log.specs.LogExport.{export_error_number};
ghost use Rattle.vote_log.specs.declared.export_error.ExportError.TheVariants.{Memory, Sink};

use base_streams::Fault;
use std::alloc::{AllocError, AllocFailed};

/// Why a log is not sent out. The numbers are fixed.
#[derive(Clone, Copy, Debug, PartialEq, Eq)]
pub enum ExportError {
    /// 1: memory for a frame was refused.
    Memory,
    /// 2: the disk failed in this call.
    Device,
    /// 3: the sink failed in this call.
    Sink,
    /// 4: the disk failed in an earlier `append`: take it out and recover it.
    Stopped,
}

impl ExportError {
    /// The number of the refusal, which never changes.
    pub fn number(self) -> u8
        ensures { result ≡ export_error_number self }
    {
        match self {
            ExportError::Memory => 1,
            ExportError::Device => 2,
            ExportError::Sink => 3,
            ExportError::Stopped => 4,
        }
    }
}

impl From<AllocError> for ExportError {
    ghost from_gives = { λ _ e. e ≡ Memory };

    fn from(_refused: AllocError) -> ExportError {
        ExportError::Memory
    }
}

impl From<Fault> for ExportError {
    ghost from_gives = { λ _ e. e ≡ Sink };

    fn from(_fault: Fault) -> ExportError {
        ExportError::Sink
    }
}
