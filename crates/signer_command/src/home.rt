//! What a signer asks of its operator, and writes down in its folder.

ghost use Rattle.std.specs.Prelude.{◌≡◌, IfOk, OnOk};
ghost use Rattle.blocks.specs.Genesis.{chain_id_of};
ghost use Rattle.signer_command.specs.Approved.{IsApprovable, first_payload};

use crate::fitness::Unfit;
use crate::lineage::Next;
use crate::making::{Maker, WordFault};
use crate::marks::put_down;
use crate::over::{fault_of_words, first_payload, payload_of, ready_for};
use crate::pool::Start;
use crate::successor::Successor;
use base_streams::Sink;
use blocks::{CommitteeView, Header, Id};
use certificates::Certificate;
use handover_folder::{GoneOver, LineageFolder, Standing, has_keys_of};
use handover_light::LightProof;
use replica_files::{PUT_BACK, put_back_text};
use sha2::{Digest, Sha256};
use signer_service::{Approver, Keeper, NextFault, OverFault, Progress};
use std::fs::{File, Files};
use std::io;
use std::sync::atomic::{AtomicBool, Ordering};
use std::sync::{Mutex, Wait};
use std::thread::Threads;

/// The file of the committee that may come next, the replica's folder, and what is ready there for the next chain.
#[derive(Drop)]
pub(crate) struct Home<'a, T: Wait, S: Sink> {
    pub successor: Successor<'a, T, S>,
    pub folder: &'a str,
    pub replica: u16,
    /// The committee that it stands in.
    pub standing: &'a Standing,
    /// The stay that ends once it was said that it goes over.
    pub start: &'a Start,
    /// Whether it goes over by itself.
    pub renews: bool,
    /// The keys that come next.
    pub maker: Maker<'a, T, S>,
    pub next: Mutex<Option<Next>>,
    /// The word may be stored or not, since a disk failed: nobody is told that it goes over, or asks again.
    pub is_unsure: AtomicBool,
}

impl<T: Wait + Files<File = File>, S: Sink> Home<'_, T, S> {
    // Writes down that the log was put back, and syncs it. What is there already stays.
    fn put_down(&self, header: &Header, certificate: &Certificate, entries: u32) -> io::Result<()> {
        let (files, alloc, folder) = (self.successor.rt, self.successor.alloc, self.folder);
        let path = format!(in alloc; "{folder}/{PUT_BACK}")?;
        let text = put_back_text(alloc, entries, header, certificate)?;
        put_down(files, &path, &text)
    }

    /// The folder of the chains.
    pub fn lineage(&self) -> LineageFolder<'_, T> {
        LineageFolder {
            files: self.successor.rt,
            alloc: self.successor.alloc,
            path: self.folder,
        }
    }

    /// What is ready where it was said that it goes over.
    pub fn taken_over(&self) -> Option<Next> {
        let mut next = self.next.lock(self.successor.rt);
        let next = &mut *next;
        let is_said = match &*next {
            Some(ready) => ready.handover.is_some(),
            None => false,
        };
        if is_said { next.take() } else { None }
    }

    // Stores the light proof that this block is committed, if the log of the chain that is left has all of it. It goes over without one, too.
    fn store_proof(&self, handover: &Id) -> Result<(), OverFault> {
        let (lineage, before) = (self.lineage(), self.successor.committee);
        let Some(proof) = lineage.light_proof(before, handover) else {
            return Ok(());
        };
        match lineage.store_light_proof(before, &proof) {
            Ok(()) => Ok(()),
            Err(fault) => Err(fault_of_words(fault)),
        }
    }

    // Stores the word that it goes over by this block to the committee of this file.
    fn store_word(&self, handover: &Id, file: &[u8]) -> Result<(), OverFault> {
        let word = GoneOver {
            file: Sha256::digest(file).into(),
            handover: *handover,
        };
        match self.maker.go_over(word) {
            Ok(()) => Ok(()),
            Err(WordFault::Memory) => Err(OverFault::Memory),
            Err(WordFault::Unsure) => {
                self.is_unsure.store(true, Ordering::SeqCst);
                self.successor.notes.put_down_failure();
                self.successor.notes.tell(b"stopped over\n");
                Err(OverFault::Stopped)
            }
            Err(_) => Err(OverFault::Stopped),
        }
    }
}

impl<T: Threads + Wait + Files<File = File>, S: Sink> Approver for Home<'_, T, S> {
    ghost use Rattle.signer_command.specs.Approved.{IsApprovable, first_payload};
    ghost use Rattle.handover_keys.specs.Endorsements.{IsGoodEndorsement};
    ghost use Rattle.handover_steps.specs.Successors.{files_of};

    ghost tells = { λ h. record {
      approves = IsApprovable (files_of h.successor.earlier.now) h.successor.committee.now h.successor.path;
      begins = first_payload h.standing.now.handover;
      spares = h.renews;
      has_keys = λ _. Unit {0};
      endorsed = IsGoodEndorsement h.maker.committee.now;
      over = λ _ _. Unit {0};
    } };

    fn approved(&self) -> Option<[u8; 32]> {
        self.successor.approved()
    }

    fn begins(&self) -> Option<[u8; 32]> {
        first_payload(&self.standing.handover)
    }

    fn spares(&self) -> bool {
        self.renews
    }

    fn has_keys_in(&self, after: &CommitteeView) -> Result<bool, NextFault> {
        let (before, replica) = (self.successor.committee, self.replica);
        let has = has_keys_of(before, after, replica) || self.maker.signed_for(after)?;
        if !has {
            self.successor.tell_unfit(Unfit::NotMine);
        }
        Ok(has)
    }

    fn endorsed(&self) -> Result<Option<Vec<u8>>, NextFault> {
        self.maker.endorsed()
    }

    fn statement(&self) -> Result<Vec<u8>, NextFault> {
        self.maker.statement()
    }

    fn endorse(&self, endorsement: &[u8]) -> Result<Vec<u8>, NextFault> {
        self.maker.endorse(endorsement)
    }

    fn progress(&self) -> Progress {
        let earlier = u32::try_from(self.standing.earlier.len()).unwrap_or(u32::MAX);
        Progress {
            next: self.maker.progress(),
            committees: earlier.saturating_add(1),
            kept: self.standing.alike,
        }
    }

    fn prepare(&self, renewal: &[u8], file: &[u8]) -> Result<Id, OverFault> {
        let after = match CommitteeView::parse(file) {
            Ok(after) => after,
            Err(refusal) => return Err(OverFault::Committee(refusal)),
        };
        let chain = after.chain();
        let mut next = self.next.lock(self.successor.rt);
        let next = &mut *next;
        if self.is_unsure.load(Ordering::SeqCst) {
            return Err(OverFault::Stopped);
        }
        match &*next {
            Some(ready) if ready.chain == chain => return Ok(chain),
            Some(ready) if ready.handover.is_some() => return Err(OverFault::Stopped),
            _ => {}
        }
        *next = Some(ready_for(self, &after, renewal, file)?);
        Ok(chain)
    }

    fn keep_proof(&self, committee: &CommitteeView, proof: &LightProof) -> Result<(), OverFault> {
        let mut next = self.next.lock(self.successor.rt);
        let next = &mut *next;
        // Another call may have said meanwhile that it goes over: then nothing is noted of this one.
        if let Some(ready) = next
            && ready.handover.is_some()
        {
            return Ok(());
        }
        match self.lineage().keep_proof(committee, proof) {
            Ok(()) => Ok(()),
            Err(fault) => Err(fault_of_words(fault)),
        }
    }

    fn say(&self, handover: &Id, file: &[u8]) -> Result<(), OverFault> {
        let mut next = self.next.lock(self.successor.rt);
        let Some(ready) = &mut *next else {
            return Err(OverFault::Stopped);
        };
        if ready.file.as_slice() != file || self.is_unsure.load(Ordering::SeqCst) {
            return Err(OverFault::Stopped);
        }
        match &ready.handover {
            None => {
                self.store_proof(handover)?;
                self.store_word(handover, file)?;
                ready.handover = Some(*handover);
            }
            Some(said) if *said != *handover => return Err(OverFault::Stopped),
            Some(_) => {}
        }
        self.start.end();
        Ok(())
    }

    fn left_for(&self, chain: &Id) -> Result<Option<[u8; 32]>, OverFault> {
        match self.lineage().said_of(chain) {
            Ok(Some(word)) => Ok(Some(payload_of(&word.file))),
            Ok(None) => Ok(None),
            Err(fault) => Err(fault_of_words(fault)),
        }
    }
}

impl<T: Wait + Files<File = File>, S: Sink> Keeper for Home<'_, T, S> {
    // Of files nothing is said: that it was called is what `signer_answers` holds on to.
    ghost kept = { λ _ _ _ _. Unit {0} };

    fn keep(&self, header: &Header, certificate: &Certificate, entries: usize) {
        let entries = u32::try_from(entries).unwrap_or(u32::MAX);
        if self.put_down(header, certificate, entries).is_err() {
            // The signer stops all the same; a later start would not.
            self.successor.notes.tell_unwritten(self.folder);
        }
    }
}
