//! A part of a log, made of its frames.

ghost use Rattle.std.specs.Prelude.{◌≡◌, ◌<◌, ◌≤◌, ◌+◌, ◌++◌, [], ◌∷◌, ℕ, List, IfErr, IfOk, IsTrue, OnOk};
ghost use Rattle.audit_evidence.specs.Evidence.{IsEvidenceRefusal};
ghost use Rattle.base_wire.specs.declared.limits.TheConstants.{MOST_ENTRIES};
ghost use Rattle.watch_collector.specs.Parts.{IsInFrames, IsMadeOf, IsPartOn, part_log};

use crate::part::Part;
use audit_evidence::{Anew, EvidenceRefusal, Gathered, SourceReport};
use blocks::CommitteeView;
use lms_tree::SIGNATURE_LEN;
use log_format::Status;
use std::alloc::{AllocError, Global};
use std::marker::Model;

/// How many frames a part has at most.
pub const MOST_OF_A_PART: usize = 256;

/// With how many votes a part ends.
pub const MOST_VOTES_OF_A_PART: usize = 1_024;

/// Gathers what the frames of a part of a replica's log name. Contracts see what was gathered.
#[derive(Drop)]
pub struct PartMaker<'a> {
    replica: u16,
    gathered: Gathered<'a>,
    frames: usize,
    entries: usize,
    // How many bytes the frames have.
    bytes: usize,
}

impl<'a> Model for PartMaker<'a> {
    ghost use Rattle.std.specs.Prelude.{◌≤◌};
    ghost use Rattle.watch_collector.specs.Parts.{Making};

    ghost Value = { Making };

    ghost view = { λ m. record {
      replica = m.replica;
      gathered = m.gathered;
      frames = m.frames;
      entries = m.entries;
    } };

    ghost invariant = { λ m. m.entries ≤ m.frames };
}

impl<'a> PartMaker<'a> {
    /// No frame yet of this replica's log.
    pub fn new(
        alloc: Global,
        committee: &CommitteeView<'a>,
        replica: u16,
    ) -> Result<PartMaker<'a>, AllocError>
        ensures made { IfOk result (IsMadeOf committee.now []) }
        ensures replica { IfOk result (λ m. m.replica ≡ replica) }
    {
        Ok(PartMaker {
            replica,
            gathered: Gathered::new(alloc, committee)?,
            frames: 0,
            entries: 0,
            bytes: 0,
        })
    }

    /// Adds the next frame, which need not be an entry: its headers and its votes, which are not checked. After a refusal a
    /// part of it may have been added.
    pub fn add(&mut self, alloc: Global, frame: &[u8]) -> Result<(), EvidenceRefusal>
        requires few { self.old.frames < MOST_ENTRIES }
        ensures ok { OnOk result ((committee : List ℕ) (frames : List (List ℕ))
            → IsMadeOf committee frames self.old
            → IsMadeOf committee (frames ++ frame.now ∷ []) self.new) }
        ensures replica { OnOk result (self.new.replica ≡ self.old.replica) }
        ensures count { OnOk result (self.new.frames ≡ self.old.frames + 1) }
        ensures refused { IfErr result (λ e. (committee : List ℕ) (frames : List (List ℕ))
            → IsMadeOf committee frames self.old
            → IsEvidenceRefusal (IsInFrames committee (frames ++ frame.now ∷ [])) e) }
    {
        let is_entry = self
            .gathered
            .add_frame(alloc, &Anew { alloc }, self.replica, frame)?;
        if is_entry {
            self.entries += 1;
        }
        self.frames += 1;
        self.bytes = self.bytes.saturating_add(frame.len());
        Ok(())
    }

    /// How many frames were added.
    pub fn frames(&self) -> usize
        ensures { result ≡ self.now.frames }
    {
        self.frames
    }

    /// Whether the part is to end: it has 256 frames, or may have 1,024 votes.
    pub fn is_full(&self) -> bool
        ensures { MOST_OF_A_PART ≤ self.now.frames → IsTrue result }
    {
        self.frames >= MOST_OF_A_PART || self.bytes >= MOST_VOTES_OF_A_PART * SIGNATURE_LEN
    }

    /// The part, of a log that ended so.
    pub fn finish(self, alloc: Global, status: Status) -> Result<Part<'a>, AllocError>
        ensures { IfOk result (λ part. (committee : List ℕ) (frames : List (List ℕ))
            → IsMadeOf committee frames self.entry
            → IsPartOn committee (part_log self.entry.replica frames status) part) }
    {
        let PartMaker {
            replica,
            gathered,
            frames,
            entries,
            bytes: _,
        } = self;
        Ok(Part {
            listing: gathered.in_order(alloc)?,
            report: SourceReport {
                replica,
                status,
                frames,
                entries,
            },
        })
    }
}
