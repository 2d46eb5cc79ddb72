//! The words of a signer on a disk.

ghost use Rattle.std.specs.Prelude.{◌≡◌, ◌≢◌, ◌↔◌, [], ℕ, List, length, Option, Some, None, IfSome, IsSome, option_map, IfErr, IfOk, IsErrOf, IsOk, OnErr, OnOk, true, false};
ghost use Rattle.base_streams.specs.Counting.{HasFailed};
ghost use Rattle.stable_log.specs.Crash.{Follows, Only, Torn};
ghost use Rattle.stable_log.specs.Devices.{AtAnyMoment, Untouched};
ghost use Rattle.stable_log.specs.Image.{empty_journal};
ghost use Rattle.handover_folder.specs.Words.{Endorsed, Over, Has, IsBeforeOrAfterWord, IsSaid, Leaves, LeavesWord, Said, Says, nothing, with_word, words_of};
ghost use Rattle.handover_folder.specs.State.{MaySay, said_in};
ghost use Rattle.handover_folder.specs.Refusals.{IsEndorseRefusal, IsGoOverRefusal, IsWordCreateRefusal, IsWordRecoverRefusal, IsWordsRefusal};

use crate::said::SaidWords;
use crate::word::{is_endorsement, write_endorsement, write_word};
use crate::{GoneOver, WordError};
use stable_log::{Disk, Journal};
use std::alloc::Global;
use std::marker::Model;

/// What a signer has said of its chain, on a disk: that it endorsed its next keys, and that it has gone over to another
/// committee. Each is said once, an endorsement only before the signer has gone over: from then on the store takes no other
/// word of that kind, and no crash takes it away.
///
/// The disk holds a journal of at most two entries: the endorsement's, and after it the 65 bytes of the word that the signer
/// has gone over.
///
/// Contracts see the disk, what was said, and whether the store is stopped. They speak of images where the disk tells its
/// bytes.
#[derive(Drop)]
pub struct WordStore<D: Disk> {
    alloc: Global,
    journal: Journal<D>,
    said: SaidWords,
}

impl<D: Disk> Model for WordStore<D> {
    ghost use Rattle.handover_folder.specs.State.{IsStore, WordState, said_in};

    ghost Value = { WordState D };

    ghost view = { λ s. record {
      disk = s.journal.disk;
      said = said_in s.said;
      stopped = s.journal.stopped;
    } };

    ghost invariant = { λ s. IsStore (D.bytes s.journal.disk)
        (D.images s.journal.disk) s.journal.payloads (said_in s.said) s.journal.stopped };
}

// The words of a journal, where it has them in their order and nothing else.
fn read_words<D: Disk>(alloc: Global, journal: &mut Journal<D>) -> Result<SaidWords, WordError>
    requires { journal.old.stopped ≡ false }
    ensures ok { IfOk result (λ words. IfSome (D.bytes journal.old.disk) (λ _.
        journal.old.payloads ≡ words_of (said_in words))) }
    ensures counted { IfOk result (λ words.
        length journal.old.payloads ≡ length (words_of (said_in words))) }
    ensures whole { IfOk result (λ words. IsSaid (said_in words)) }
    ensures same { (journal.new.payloads ≡ journal.old.payloads) × (journal.new.stopped ≡ false)
        × Untouched D.Disk journal.old.disk journal.new.disk }
    ensures no_failure { OnOk result (D.failed journal.new.disk ≡ D.failed journal.old.disk) }
    ensures first_refusal { IfErr result
        (IsWordsRefusal (D.bytes journal.old.disk) journal.old.payloads) }
    ensures cause { IsErrOf result WordError.Device →
        HasFailed (D.failed journal.old.disk) (D.failed journal.new.disk) }
    ensures kept { IfErr result (λ e. e ≢ WordError.Device →
        D.failed journal.new.disk ≡ D.failed journal.old.disk) }
{
    let mut words = SaidWords::none();
    let mut entry = Vec::new(alloc);
    for k in 0..journal.count() {
        journal.entry(k, &mut entry)?;
        words.take(alloc, &entry)?;
    }
    Ok(words)
}

impl<D: Disk> WordStore<D> {
    /// Makes an empty disk a store with no word, synced. A refusal hands the disk back; one that was not empty is not
    /// written to, and after `Device` an empty one may hold any part of the 9 bytes of an empty journal. In this order:
    /// `Device`, `NotAJournal`.
    pub fn create(alloc: Global, disk: D) -> Result<WordStore<D>, (WordError, D)>
        ensures ok { IfOk result (λ s. (s.said ≡ nothing) × (s.stopped ≡ false)) }
        ensures exact { OnOk result (IfSome (D.bytes disk) (λ bytes. bytes ≡ [])) }
        ensures told { IfOk result (λ s.
            D.bytes s.disk ≡ option_map (λ _. empty_journal) (D.bytes disk)) }
        ensures durable { IfOk result (λ s.
            IfSome (D.bytes disk) (λ _. Leaves (D.images s.disk) nothing)) }
        ensures no_failure { IfOk result (λ s. D.failed s.disk ≡ D.failed disk) }

        ensures first_refusal { IfErr result (λ e. IsWordCreateRefusal (D.bytes disk) e.0) }
        ensures err { IfErr result (λ e. IfSome (D.bytes disk) (λ bytes. bytes ≢ [] →
            Untouched D.Disk disk e.1)) }
        ensures tells { IfErr result (λ e. IsSome (D.bytes e.1) ↔ IsSome (D.bytes disk)) }
        ensures torn { IfErr result (λ e. Follows (Torn 0 9) (D.images disk) (D.images e.1)) }
        ensures cause { IfErr result (λ e. e.0 ≡ WordError.Device →
            HasFailed (D.failed disk) (D.failed e.1)) }
        ensures kept { IfErr result (λ e. e.0 ≢ WordError.Device → D.failed e.1 ≡ D.failed disk) }
    {
        match Journal::create(alloc, disk) {
            Ok(journal) => Ok(WordStore {
                alloc,
                journal,
                said: SaidWords::none(),
            }),
            Err((refusal, disk)) => Err((WordError::from(refusal), disk)),
        }
    }

    /// Reads a store that a crash or a failed call may have left. It begins with a sync and writes nothing. A refusal
    /// hands the disk back. In this order: `Memory`, `Device`, `NotAJournal`, `Damaged`, and then `UnknownKind`,
    /// `WrongLength` or `SecondWord`, by the first entry that can not be taken.
    pub fn recover(alloc: Global, disk: D) -> Result<WordStore<D>, (WordError, D)>
        ensures ok { IfOk result (λ s. IfSome (D.bytes disk) (λ bytes. Says bytes s.said)) }
        ensures only { IfOk result (λ s. IfSome (D.bytes disk) (λ bytes. (said : Said)
            → Says bytes said → said ≡ s.said)) }
        ensures running { IfOk result (λ s. s.stopped ≡ false) }
        ensures durable { IfOk result (λ s.
            IfSome (D.bytes disk) (λ bytes. Only bytes (D.images s.disk))) }
        ensures same { IfOk result (λ s. Untouched D.Disk disk s.disk) }
        ensures no_failure { IfOk result (λ s. D.failed s.disk ≡ D.failed disk) }

        ensures first_refusal { IfErr result (λ e. IsWordRecoverRefusal (D.bytes disk) e.0) }
        ensures err { IfErr result (λ e. Untouched D.Disk disk e.1) }
        ensures cause { IfErr result (λ e. e.0 ≡ WordError.Device →
            HasFailed (D.failed disk) (D.failed e.1)) }
        ensures kept { IfErr result (λ e. e.0 ≢ WordError.Device → D.failed e.1 ≡ D.failed disk) }
    {
        let mut journal = match Journal::recover(alloc, disk) {
            Ok(journal) => journal,
            Err((refusal, disk)) => return Err((WordError::from(refusal), disk)),
        };
        match read_words(alloc, &mut journal) {
            Ok(said) => Ok(WordStore {
                alloc,
                journal,
                said,
            }),
            Err(e) => Err((e, journal.into_disk())),
        }
    }

    /// Says that the signer has endorsed its next keys, by these bytes, of which no more is looked at than their length. At `Ok` they
    /// are durable: from then on each crash leaves them. Where the same bytes are there already the answer is `Ok` again, and
    /// nothing is written. After `Device` the store is stopped, without them: take the disk out and recover it, and it has them or
    /// no endorsement. Any other refusal changes nothing. In this order: `Stopped`, `Other`, `Gone`, `WrongLength`, `Memory`,
    /// `Device`.
    pub fn endorse(&mut self, endorsement: &[u8]) -> Result<(), WordError>
        ensures ok { OnOk result ((self.new.stopped ≡ false)
            × (self.new.said ≡ with_word self.old.said (Endorsed endorsement.now))) }
        ensures exact { OnOk result (MaySay self.old (Endorsed endorsement.now)) }
        ensures again { self.old.stopped ≡ false → Has self.old.said (Endorsed endorsement.now)
            → IsOk result × (self.new ≡ self.old) }
        ensures durable { OnOk result (IfSome (D.bytes self.old.disk) (λ _.
            Leaves (D.images self.new.disk) self.new.said)) }
        ensures no_failure { OnOk result (D.failed self.new.disk ≡ D.failed self.old.disk) }
        ensures tells { IsSome (D.bytes self.new.disk) ↔ IsSome (D.bytes self.old.disk) }

        // A crash at any moment of the call leaves what was there, or the endorsement too where there was no word.
        ensures any_moment { self.old.stopped ≡ false → IfSome (D.bytes self.old.disk) (λ _.
            AtAnyMoment D.Disk self.old.disk self.new.disk
            (IsBeforeOrAfterWord self.old.said (Endorsed endorsement.now))) }

        ensures first_refusal { IfErr result (IsEndorseRefusal self.old endorsement.now) }
        ensures device { IsErrOf result WordError.Device → (self.new.said ≡ nothing)
            × (self.new.stopped ≡ true) }
        ensures err { IfErr result (λ e. e ≢ WordError.Device → self.new ≡ self.old) }
        ensures cause { IsErrOf result WordError.Device →
            HasFailed (D.failed self.old.disk) (D.failed self.new.disk) }
    {
        if self.journal.stopped() {
            return Err(WordError::Stopped);
        }
        if let Some(there) = &self.said.endorsed {
            return if there.as_slice() == endorsement {
                Ok(())
            } else {
                Err(WordError::Other)
            };
        }
        if self.said.gone.is_some() {
            return Err(WordError::Gone);
        }
        if !is_endorsement(endorsement) {
            return Err(WordError::WrongLength);
        }
        let kept = endorsement.to_vec(self.alloc)?;
        let entry = write_endorsement(self.alloc, endorsement)?;
        // It is on the disk before it is told.
        self.journal.append(&entry)?;
        self.said.endorsed = Some(kept);
        Ok(())
    }

    /// Says that the signer has gone over. At `Ok` the word is durable: from then on each crash leaves it. Where the same
    /// word is there already the answer is `Ok` again, and nothing is written. After `Device` the store is stopped,
    /// without the word: take the disk out and recover it, and it has the word or not. Any other refusal changes nothing. The
    /// endorsement stays as it is. In this order: `Stopped`, `Other`, `Memory`, `Device`.
    pub fn go_over(&mut self, word: GoneOver) -> Result<(), WordError>
        ensures ok { OnOk result ((self.new.stopped ≡ false)
            × (self.new.said ≡ with_word self.old.said (Over word))) }
        ensures exact { OnOk result (MaySay self.old (Over word)) }
        ensures again { Has self.old.said (Over word) → IsOk result × (self.new ≡ self.old) }
        ensures durable { OnOk result (IfSome (D.bytes self.old.disk) (λ _.
            Leaves (D.images self.new.disk) self.new.said)) }
        ensures no_failure { OnOk result (D.failed self.new.disk ≡ D.failed self.old.disk) }
        ensures tells { IsSome (D.bytes self.new.disk) ↔ IsSome (D.bytes self.old.disk) }

        // A crash at any moment of the call leaves what was there, or the whole word too where there was none.
        ensures any_moment { self.old.stopped ≡ false → IfSome (D.bytes self.old.disk) (λ _.
            AtAnyMoment D.Disk self.old.disk self.new.disk
            (IsBeforeOrAfterWord self.old.said (Over word))) }

        ensures first_refusal { IfErr result (IsGoOverRefusal self.old word) }
        ensures device { IsErrOf result WordError.Device → (self.new.said ≡ self.old.said)
            × (self.new.stopped ≡ true) }
        ensures err { IfErr result (λ e. e ≢ WordError.Device → self.new ≡ self.old) }
        ensures cause { IsErrOf result WordError.Device →
            HasFailed (D.failed self.old.disk) (D.failed self.new.disk) }
    {
        if self.journal.stopped() {
            return Err(WordError::Stopped);
        }
        if let Some(there) = self.said.gone {
            return if there == word {
                Ok(())
            } else {
                Err(WordError::Other)
            };
        }
        // The word is on the disk before it is told.
        self.journal.append(&write_word(&word))?;
        self.said.gone = Some(word);
        Ok(())
    }

    /// The endorsement that was said, if one was. Whatever a crash leaves has it, and, unless the store is stopped, has none
    /// where there is none.
    pub fn endorsed(&self) -> Option<&[u8]>
        ensures value { option_map (λ bytes. bytes.now) result ≡ self.now.said.endorsed }
        ensures durable { self.now.stopped ≡ false → IfSome (D.bytes self.now.disk) (λ _.
            Leaves (D.images self.now.disk) self.now.said) }
        ensures kept { IfSome self.now.said.endorsed (λ bytes. IfSome (D.bytes self.now.disk) (λ _.
            LeavesWord (D.images self.now.disk) (Endorsed bytes))) }
    {
        match &self.said.endorsed {
            Some(bytes) => Some(bytes.as_slice()),
            None => None,
        }
    }

    /// The word that the signer has gone over, if it was said. Whatever a crash leaves has it, and has none where there
    /// is none, unless the store is stopped.
    pub fn gone(&self) -> Option<GoneOver>
        ensures value { result ≡ self.now.said.gone }
        ensures durable { self.now.stopped ≡ false → IfSome (D.bytes self.now.disk) (λ _.
            Leaves (D.images self.now.disk) self.now.said) }
    {
        self.said.gone
    }

    /// Whether the disk failed in an `endorse` or a `go_over`. A stopped store has not gone over, and may have an endorsement
    /// from before; a crash may leave the word that failed too.
    pub fn stopped(&self) -> bool
        ensures value { result ≡ self.now.stopped }
        ensures unsaid { self.now.stopped ≡ true → self.now.said.gone ≡ None }
    {
        self.journal.stopped()
    }

    /// The disk, as it is.
    pub fn into_disk(self) -> D
        ensures { result ≡ self.disk }
    {
        let WordStore {
            alloc: _,
            journal,
            said: _,
        } = self;
        journal.into_disk()
    }
}
