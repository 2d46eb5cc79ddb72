//! Why a desk refuses.

ghost use Rattle.std.specs.Prelude.{◌≡◌};
ghost use Rattle.vote_desk.specs.DeskRefusals.{desk_error_number, from_indices, from_log};
ghost use Rattle.vote_desk.specs.declared.desk_error.DeskError.TheVariants.{Memory};

use key_index_store::IndexError;
use replica_core::CoreRefusal;
use std::alloc::{AllocError, AllocFailed};
use vote_log::LogError;

/// Why a desk refuses. The numbers are fixed.
#[derive(Clone, Copy, Debug, PartialEq, Eq)]
pub enum DeskError {
    /// 1: a growth was refused.
    Memory,
    /// 2: the core refuses the block. It is not for want of memory: that is `Memory`.
    Core(CoreRefusal),
    /// 3: all 1,024 indices of each key are given or skipped.
    KeySpent,
    /// 4: there are 4,096 entries in the log.
    LogFull,
    /// 5: a disk failed in this call. The desk is stopped: close it, and recover log and index store.
    Device,
    /// 6: a disk failed in an earlier call: close the desk, and recover log and index store.
    Stopped,
    /// 7: `close`: the receipts are not those of the votes that the desk stored. A session is missing.
    ReceiptMismatch,
}

impl DeskError {
    /// The number of the refusal, which never changes.
    pub fn number(self) -> u8
        ensures { result ≡ desk_error_number self }
    {
        match self {
            DeskError::Memory => 1,
            DeskError::Core(_) => 2,
            DeskError::KeySpent => 3,
            DeskError::LogFull => 4,
            DeskError::Device => 5,
            DeskError::Stopped => 6,
            DeskError::ReceiptMismatch => 7,
        }
    }
}

// Of an `append` to a log that runs and has room, only `Memory` and `Device` come.
impl From<LogError> for DeskError {
    ghost from_gives = { λ refusal e. e ≡ from_log refusal };

    fn from(refusal: LogError) -> DeskError {
        match refusal {
            LogError::Memory => DeskError::Memory,
            LogError::Full => DeskError::LogFull,
            LogError::Stopped => DeskError::Stopped,
            LogError::Device
            | LogError::NotAJournal
            | LogError::Damaged
            | LogError::NoSuchEntry
            | LogError::BadEntry(_)
            | LogError::IllegalLog(_) => DeskError::Device,
        }
    }
}

// Of a `next` of a store that runs and has an index left, only `Memory` and `Device` come.
impl From<IndexError> for DeskError {
    ghost from_gives = { λ refusal e. e ≡ from_indices refusal };

    fn from(refusal: IndexError) -> DeskError {
        match refusal {
            IndexError::Memory => DeskError::Memory,
            IndexError::Spent => DeskError::KeySpent,
            IndexError::Stopped => DeskError::Stopped,
            IndexError::Device | IndexError::BadEntry => DeskError::Device,
        }
    }
}

impl From<AllocError> for DeskError {
    ghost from_gives = { λ _ e. e ≡ Memory };

    fn from(_refused: AllocError) -> DeskError {
        DeskError::Memory
    }
}

impl<T: Drop> From<AllocFailed<T>> for DeskError {
    ghost from_gives = { λ _ e. e ≡ Memory };

    fn from(_refused: AllocFailed<T>) -> DeskError {
        DeskError::Memory
    }
}
