//! Why a word store refuses.

ghost use Rattle.std.specs.Prelude.{◌≡◌};
ghost use Rattle.handover_folder.specs.Refusals.{word_error, word_error_number};
ghost use Rattle.handover_folder.specs.declared.error.WordError.TheVariants.{Memory};

use stable_log::JournalError;
use std::alloc::AllocError;

/// Why a word store refuses. The numbers are fixed.
#[derive(Clone, Copy, Debug, PartialEq, Eq)]
pub enum WordError {
    /// A growth was refused.
    Memory = 1,
    /// The disk failed in this call.
    Device = 2,
    /// `create`: the disk is not empty. `recover`: the first 8 bytes are not HSJ1 and four zero bytes.
    NotAJournal = 3,
    /// An open gate without a whole entry behind it, no gate, or more than 4,096 entries.
    Damaged = 4,
    /// The first entry that can not be taken begins with another byte than 5 and 6.
    UnknownKind = 5,
    /// `recover`: the first entry that can not be taken begins with 5 and has not 65 bytes, or with 6 and has not one byte more
    /// than an endorsement. `endorse`: the bytes have no length of an endorsement.
    WrongLength = 6,
    /// The first entry that can not be taken is a word after one of its kind, or an endorsement after the word that the signer
    /// has gone over.
    SecondWord = 7,
    /// The disk failed in an earlier `endorse` or `go_over`: take it out and recover it.
    Stopped = 8,
    /// `endorse`: another endorsement is there. `go_over`: another word that the signer has gone over is there.
    Other = 9,
    /// `endorse`: there is none, and the signer has gone over.
    Gone = 10,
}

impl WordError {
    /// The number of the refusal, which never changes.
    pub fn number(self) -> u8
        ensures { result ≡ word_error_number self }
    {
        self as u8
    }
}

// A store has two entries at most, of 1,717 bytes at most, and asks for none that is not there: so the last three do not come.
impl From<JournalError> for WordError {
    ghost from_gives = { λ refusal e. e ≡ word_error refusal };

    fn from(refusal: JournalError) -> WordError {
        match refusal {
            JournalError::Memory => WordError::Memory,
            JournalError::Device => WordError::Device,
            JournalError::NotAJournal => WordError::NotAJournal,
            JournalError::Stopped => WordError::Stopped,
            JournalError::Damaged
            | JournalError::Full
            | JournalError::TooLong
            | JournalError::NoSuchEntry => WordError::Damaged,
        }
    }
}

impl From<AllocError> for WordError {
    ghost from_gives = { λ _ e. e ≡ Memory };

    fn from(_: AllocError) -> WordError {
        WordError::Memory
    }
}
