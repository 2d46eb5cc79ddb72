//! Why a journal refuses.
ghost use Rattle.std.specs.Prelude.{◌≡◌};
ghost use Rattle.stable_log.specs.Refusals.{journal_error_number};
ghost use Rattle.stable_log.specs.declared.error.JournalError.TheVariants.{Memory, Device};

use crate::Fault;
use std::alloc::AllocError;

/// Why a journal refuses. The numbers are fixed.
#[derive(Clone, Copy, Debug, PartialEq, Eq)]
pub enum JournalError {
    /// A growth was refused.
    Memory = 1,
    /// The disk failed in this call.
    Device = 2,
    /// `create`: the disk is not empty. `recover`: the first 8 bytes are not HSJ1 and four zero bytes.
    NotAJournal = 3,
    /// An open gate without a whole payload of 1 to 65,536 bytes behind it, no gate, or more than 4,096 entries.
    Damaged = 4,
    /// There are 4,096 entries.
    Full = 5,
    /// The payload has more than 65,536 bytes.
    TooLong = 6,
    /// The disk failed in an earlier `append`: take it out and recover it.
    Stopped = 7,
    /// There is no entry of this number.
    NoSuchEntry = 8,
}

impl JournalError {
    /// The number of the refusal, which never changes.
    pub fn number(self) -> u8
        ensures { result ≡ journal_error_number self }
    {
        self as u8
    }
}

impl From<AllocError> for JournalError {
    ghost from_gives = { λ _ e. e ≡ Memory };

    fn from(_: AllocError) -> Self {
        JournalError::Memory
    }
}

impl From<Fault> for JournalError {
    ghost from_gives = { λ _ e. e ≡ Device };

    fn from(_: Fault) -> Self {
        JournalError::Device
    }
}
