//! Why an index store refuses.
ghost use Rattle.std.specs.Prelude.{◌≡◌};
ghost use Rattle.key_index_store.specs.Refusals.{index_error, index_error_number};

use stable_log::JournalError;

/// Why an index store refuses. The numbers are fixed.
#[derive(Clone, Copy, Debug, PartialEq, Eq)]
pub enum IndexError {
    /// A growth was refused.
    Memory = 1,
    /// The disk failed in this call.
    Device = 2,
    /// All indices of the keys are given or skipped.
    Spent = 3,
    /// The disk failed in an earlier `next`: take it out and recover it.
    Stopped = 4,
    /// `create`: the disk is not empty. `recover`: it holds no journal of reservations.
    BadEntry = 5,
}

impl IndexError {
    /// The number of the refusal, which never changes.
    pub fn number(self) -> u8
        ensures { result ≡ index_error_number self }
    {
        self as u8
    }
}

impl From<JournalError> for IndexError {
    ghost from_gives = { λ refusal e. e ≡ index_error refusal };

    fn from(refusal: JournalError) -> Self {
        match refusal {
            JournalError::Memory => IndexError::Memory,
            JournalError::Device => IndexError::Device,
            JournalError::Full => IndexError::Spent,
            JournalError::Stopped => IndexError::Stopped,
            JournalError::NotAJournal
            | JournalError::Damaged
            | JournalError::TooLong
            | JournalError::NoSuchEntry => IndexError::BadEntry,
        }
    }
}
