//! A desk, its log's disk and its index disk, as docs/DEFINITIONS.md and docs/FORMATS.md describe them.

use crate::model::{Act, Kept, Model, committed_by};
use crate::tree::BlockTree;
use key_index_store::{INDICES, INDICES_PER_RESERVATION};
use replica_core::{CoreRefusal, Stored};
use std::alloc::{AllocError, Global};
use vote_desk::DeskError;
use vote_log::MOST_ENTRIES;

/// How many calls of a disk an append to a journal makes.
const CALLS_PER_APPEND: u32 = 4;

/// What a desk answers to a block.
#[derive(Clone, Copy, Debug, PartialEq, Eq)]
pub(crate) enum Outcome {
    /// A vote in this entry, under this index of the key of this number.
    Voted { entry: usize, key: u8, index: u32 },
    Raised,
    Held,
    Refused(DeskError),
}

/// The same, with the number of the block that is committed.
#[derive(Clone, Copy, Debug, PartialEq, Eq)]
pub(crate) struct Expected {
    pub outcome: Outcome,
    pub committed: Option<usize>,
}

/// How many calls each disk still answers, where one is to fail.
#[derive(Clone, Copy)]
pub(crate) struct Fuses {
    pub index: Option<u32>,
    pub log: Option<u32>,
}

impl Fuses {
    pub const NONE: Fuses = Fuses {
        index: None,
        log: None,
    };
}

// What a failed disk may have stored or not.
#[derive(Clone, Copy)]
enum Unsettled {
    Nothing,
    Reservation,
    Entry(Act, usize),
}

/// What is known of a desk and its disks.
#[derive(Drop)]
pub(crate) struct DeskModel {
    pub replica: Model,
    // how many keys the replica has
    keys: u8,
    // the index that the next vote is signed under, counted over all keys
    next: u32,
    // all indices below it are taken on the disk
    boundary: u32,
    /// How the disks fail from here on.
    pub fuses: Fuses,
    pub stopped: bool,
    unsettled: Unsettled,
}

// Whether a call of an append fails, where the disk has this fuse.
fn append_fails(fuse: &mut Option<u32>) -> bool {
    let Some(calls) = *fuse else {
        return false;
    };
    *fuse = calls.checked_sub(CALLS_PER_APPEND);
    fuse.is_none()
}

// Whether this is the entry of a block, and of a vote or a raised lock.
fn is_entry(tree: &BlockTree, step: &Stored, kept: &Kept) -> bool {
    let parent = tree.parent(kept.block).unwrap_or(0);
    step.voted == kept.voted
        && step.block == tree.block(kept.block).header
        && step.parent == tree.block(parent).header
}

/// The number of the key that an index is of, and the index's number among those of its key. Each key has 1,024 of them.
pub(crate) fn place_of(index: u32) -> (u8, u32) {
    (
        u8::try_from(index / INDICES).unwrap_or(u8::MAX),
        index % INDICES,
    )
}

impl DeskModel {
    /// A new replica, all indices of whose keys below this one are taken.
    pub fn new(alloc: Global, keys: u8, taken: u32) -> Result<DeskModel, AllocError> {
        Ok(DeskModel {
            replica: Model::new(alloc)?,
            keys,
            next: taken,
            boundary: taken,
            fuses: Fuses::NONE,
            stopped: false,
            unsettled: Unsettled::Nothing,
        })
    }

    // How many indices all keys have.
    fn indices(&self) -> u32 {
        INDICES.saturating_mul(u32::from(self.keys))
    }

    /// How many indices are left when a desk is opened.
    pub fn left(&self) -> u32 {
        self.indices().saturating_sub(self.boundary)
    }

    // The refusals that change nothing, in their order, and else what is to be done.
    fn plan(&self, tree: &BlockTree, block: usize) -> Result<Act, DeskError> {
        if self.stopped {
            return Err(DeskError::Stopped);
        }
        if !self.replica.holds(tree.parent(block).unwrap_or(0)) {
            return Err(DeskError::Core(CoreRefusal::UnknownParent));
        }
        if !tree.names_parent_view(block) {
            return Err(DeskError::Core(CoreRefusal::ParentView));
        }
        let act = self.replica.act(tree, block);
        match act {
            Act::Pass => Ok(act),
            _ if self.replica.stored.len() >= MOST_ENTRIES => Err(DeskError::LogFull),
            Act::Vote if self.next >= self.indices() => Err(DeskError::KeySpent),
            _ => Ok(act),
        }
    }

    fn stop(&mut self, unsettled: Unsettled) -> DeskError {
        self.stopped = true;
        self.unsettled = unsettled;
        DeskError::Device
    }

    // Draws an index: 16 more are reserved first where all reserved ones are given.
    fn draw(&mut self) -> Result<u32, DeskError> {
        if self.next >= self.boundary {
            if append_fails(&mut self.fuses.index) {
                return Err(self.stop(Unsettled::Reservation));
            }
            self.boundary = self.boundary.saturating_add(INDICES_PER_RESERVATION);
        }
        let index = self.next;
        self.next = index.saturating_add(1);
        Ok(index)
    }

    // Stores the entry of a vote or of a raised lock.
    fn store(&mut self, act: Act, block: usize) -> Result<usize, DeskError> {
        if append_fails(&mut self.fuses.log) {
            return Err(self.stop(Unsettled::Entry(act, block)));
        }
        Ok(self.replica.stored.len())
    }

    // What the desk answers and stores. The replica does it afterwards.
    fn answer(&mut self, act: Act, block: usize) -> Result<Outcome, DeskError> {
        match act {
            Act::Vote => {
                let (key, index) = place_of(self.draw()?);
                let entry = self.store(act, block)?;
                Ok(Outcome::Voted { entry, key, index })
            }
            Act::Raise => {
                self.store(act, block)?;
                Ok(Outcome::Raised)
            }
            Act::Pass => Ok(Outcome::Held),
        }
    }

    // What is done with a block, and what is answered.
    fn judge(&mut self, tree: &BlockTree, block: usize) -> Result<(Act, Outcome), DeskError> {
        let act = self.plan(tree, block)?;
        Ok((act, self.answer(act, block)?))
    }

    /// What the desk must answer to a block. The model does the same.
    pub fn deliver(&mut self, tree: &BlockTree, block: usize) -> Result<Expected, AllocError> {
        let (outcome, committed) = match self.judge(tree, block) {
            Ok((act, outcome)) => {
                self.replica.take(tree, act, block)?;
                (outcome, committed_by(tree, block))
            }
            Err(refusal) => (Outcome::Refused(refusal), None),
        };
        Ok(Expected { outcome, committed })
    }

    /// Gives up on all views up to this one, unless the desk is stopped.
    pub fn time_out(&mut self, view: u64) -> Result<(), DeskError> {
        if self.stopped {
            return Err(DeskError::Stopped);
        }
        self.replica.vote_view = self.replica.vote_view.max(view);
        Ok(())
    }

    // Takes what was found where a disk had failed: what it was to store may be there.
    fn settle(&mut self, tree: &BlockTree, entries: usize, left: u32) -> Result<bool, AllocError> {
        match self.unsettled {
            Unsettled::Nothing => Ok(false),
            Unsettled::Reservation => {
                let is_there = left < self.left();
                if is_there {
                    self.boundary = self.boundary.saturating_add(INDICES_PER_RESERVATION);
                }
                Ok(is_there)
            }
            Unsettled::Entry(act, block) => {
                let is_there = entries > self.replica.stored.len();
                if is_there {
                    self.replica.take(tree, act, block)?;
                }
                Ok(is_there)
            }
        }
    }

    /// The replica restarts on these entries, with so many indices left. Answers whether something was found whose
    /// delivery had failed.
    pub fn restart(
        &mut self,
        alloc: Global,
        tree: &BlockTree,
        entries: usize,
        left: u32,
    ) -> Result<bool, AllocError> {
        let found = self.settle(tree, entries, left)?;
        self.unsettled = Unsettled::Nothing;
        self.stopped = false;
        self.fuses = Fuses::NONE;
        self.next = self.boundary;
        self.replica.restart(alloc, tree)?;
        Ok(found)
    }

    /// Whether a log has the entries of the stored list, and nothing else.
    pub fn has_stored(&self, tree: &BlockTree, steps: &[Stored]) -> bool {
        for (step, kept) in steps.iter().zip(&self.replica.stored) {
            if !is_entry(tree, step, kept) {
                return false;
            }
        }
        steps.len() == self.replica.stored.len()
    }
}
