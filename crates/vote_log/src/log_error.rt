//! Why a log refuses.

ghost use Rattle.std.specs.Prelude.{◌≡◌};
ghost use Rattle.vote_log.specs.LogRefusals.{log_error, log_error_number};
ghost use Rattle.vote_log.specs.declared.log_error.LogError.TheVariants.{Memory};

use stable_log::JournalError;
use std::alloc::{AllocError, AllocFailed};

/// Why a log refuses. The numbers are fixed; 6 does not come.
#[derive(Clone, Copy, Debug, PartialEq, Eq)]
pub enum LogError {
    /// 1: a growth was refused.
    Memory,
    /// 2: the disk failed in this call.
    Device,
    /// 3: `create`, `migrate`: the disk is not empty. `recover`: the first 8 bytes are not HSJ1 and four zero bytes.
    NotAJournal,
    /// 4: an open gate without a whole entry behind it, no gate, or more than 4,096 entries.
    Damaged,
    /// 5: there are 4,096 entries.
    Full,
    /// 7: the disk failed in an earlier `append`: take it out and recover it.
    Stopped,
    /// 8: there is no entry of this number.
    NoSuchEntry,
    /// 9: this entry, counted from 0, can not be read, by `migrate` in the old form, and all before it are readable and
    /// legal.
    BadEntry(usize),
    /// 10: this entry, counted from 0, is not legal after those before it, which are readable and legal.
    IllegalLog(usize),
}

impl LogError {
    /// The number of the refusal, which never changes.
    pub fn number(self) -> u8
        ensures { result ≡ log_error_number self }
    {
        match self {
            LogError::Memory => 1,
            LogError::Device => 2,
            LogError::NotAJournal => 3,
            LogError::Damaged => 4,
            LogError::Full => 5,
            LogError::Stopped => 7,
            LogError::NoSuchEntry => 8,
            LogError::BadEntry(_) => 9,
            LogError::IllegalLog(_) => 10,
        }
    }
}

// An entry has at most `LONGEST_ENTRY` bytes, so that `TooLong` does not come.
impl From<JournalError> for LogError {
    ghost from_gives = { λ refusal e. e ≡ log_error refusal };

    fn from(refusal: JournalError) -> LogError {
        match refusal {
            JournalError::Memory => LogError::Memory,
            JournalError::Device => LogError::Device,
            JournalError::NotAJournal => LogError::NotAJournal,
            JournalError::Damaged => LogError::Damaged,
            JournalError::Full | JournalError::TooLong => LogError::Full,
            JournalError::Stopped => LogError::Stopped,
            JournalError::NoSuchEntry => LogError::NoSuchEntry,
        }
    }
}

impl From<AllocError> for LogError {
    ghost from_gives = { λ _ e. e ≡ Memory };

    fn from(_refused: AllocError) -> LogError {
        LogError::Memory
    }
}

impl<T: Drop> From<AllocFailed<T>> for LogError {
    ghost from_gives = { λ _ e. e ≡ Memory };

    fn from(_refused: AllocFailed<T>) -> LogError {
        LogError::Memory
    }
}
