//! What a signer has said of its chain, in memory.

ghost use Rattle.std.specs.Prelude.{◌≡◌, IfErr, OnErr, OnOk};
ghost use Rattle.handover_folder.specs.declared.word.TheConstants.{ENDORSED, GONE_OVER};
ghost use Rattle.handover_folder.specs.State.{said_in};
ghost use Rattle.handover_folder.specs.Words.{IsNextEntry, kind_in, nothing};
ghost use Rattle.handover_folder.specs.Refusals.{IsTakeRefusal};

use crate::WordError;
use crate::word::{ENDORSED, GONE_OVER, GoneOver, is_endorsement, read_word};
use std::alloc::Global;

// The words that were said, at most one of each kind.
#[derive(Drop)]
pub(crate) struct SaidWords {
    // The bytes of the endorsement.
    pub(crate) endorsed: Option<Vec<u8>>,
    pub(crate) gone: Option<GoneOver>,
}

impl SaidWords {
    pub(crate) fn none() -> SaidWords
        ensures { said_in result ≡ nothing }
    {
        SaidWords {
            endorsed: None,
            gone: None,
        }
    }

    // Takes the word of a journal's next entry. A refusal leaves the words as they were. In this order: `UnknownKind`,
    // `WrongLength`, `SecondWord`, `Memory`.
    pub(crate) fn take(&mut self, alloc: Global, entry: &[u8]) -> Result<(), WordError>
        ensures ok { OnOk result (IsNextEntry (said_in self.old) entry.now (said_in self.new)) }
        ensures first_refusal { IfErr result (IsTakeRefusal (said_in self.old) entry.now) }
        ensures err { OnErr result (self.new ≡ self.old) }
    {
        match entry.first() {
            Some(&ENDORSED) => self.take_endorsement(alloc, entry),
            Some(&GONE_OVER) => self.take_gone_over(entry),
            _ => Err(WordError::UnknownKind),
        }
    }

    fn take_endorsement(&mut self, alloc: Global, entry: &[u8]) -> Result<(), WordError>
        requires { kind_in entry.now ≡ ENDORSED }
        ensures ok { OnOk result (IsNextEntry (said_in self.old) entry.now (said_in self.new)) }
        ensures first_refusal { IfErr result (IsTakeRefusal (said_in self.old) entry.now) }
        ensures err { OnErr result (self.new ≡ self.old) }
    {
        let bytes = &entry[1..];
        if !is_endorsement(bytes) {
            return Err(WordError::WrongLength);
        }
        if self.endorsed.is_some() || self.gone.is_some() {
            return Err(WordError::SecondWord);
        }
        self.endorsed = Some(bytes.to_vec(alloc)?);
        Ok(())
    }

    fn take_gone_over(&mut self, entry: &[u8]) -> Result<(), WordError>
        requires { kind_in entry.now ≡ GONE_OVER }
        ensures ok { OnOk result (IsNextEntry (said_in self.old) entry.now (said_in self.new)) }
        ensures first_refusal { IfErr result (IsTakeRefusal (said_in self.old) entry.now) }
        ensures err { OnErr result (self.new ≡ self.old) }
    {
        let word = read_word(entry)?;
        if self.gone.is_some() {
            return Err(WordError::SecondWord);
        }
        self.gone = Some(word);
        Ok(())
    }
}
