//! The keys of a replica, from its first block to the checks at their end.

use crate::counts::Counts;
use crate::desk_model::{DeskModel, place_of};
use crate::failure::Failure;
use crate::random::Random;
use crate::tree::BlockTree;
use blocks::CommitteeView;
use std::alloc::{AllocError, Global};
use vote_desk::Receipt;

/// How often spent keys are to be answered before their round ends.
const ENOUGH_SPENT: u32 = 2;

/// How many votes under a later key than the first are to be released before a round ends: one more than a reservation has.
const ENOUGH_BEYOND: u32 = 17;

/// A run, over all of its rounds.
#[derive(Drop)]
pub(crate) struct Run {
    pub random: Random,
    pub counts: Counts,
    /// How many operations are still to be done.
    pub left: u64,
}

/// A round.
#[derive(Drop)]
pub(crate) struct Round {
    pub tree: BlockTree,
    pub desk: DeskModel,
    pub released: Vec<Receipt>,
    /// How often the keys were found to be spent.
    pub spent: u32,
    /// The number of the key that the round begins under.
    first_key: u8,
    /// How many votes were released under a later key.
    pub beyond: u32,
}

impl Round {
    /// The round of so many keys all of whose indices below this one are taken.
    pub fn new(
        alloc: Global,
        committee: &CommitteeView,
        keys: u8,
        taken: u32,
    ) -> Result<Round, AllocError> {
        let (first_key, _) = place_of(taken);
        Ok(Round {
            tree: BlockTree::of(alloc, committee),
            desk: DeskModel::new(alloc, keys, taken)?,
            released: Vec::new(alloc),
            spent: 0,
            first_key,
            beyond: 0,
        })
    }

    /// Keeps a receipt.
    pub fn release(&mut self, receipt: Receipt) -> Result<(), Failure> {
        if receipt.vote.key > self.first_key {
            self.beyond = self.beyond.saturating_add(1);
        }
        self.released.push(receipt)?;
        Ok(())
    }

    pub fn is_over(&self, run: &Run) -> bool {
        run.left == 0 || self.spent >= ENOUGH_SPENT || self.beyond >= ENOUGH_BEYOND
    }
}
