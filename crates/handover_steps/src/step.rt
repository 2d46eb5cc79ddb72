//! What is told of a good step.

ghost use Rattle.std.specs.Prelude.{◌≡◌};

use blocks::{Header, Id};
use handover_renewals::SlotKind;
use std::marker::Model;

/// What is told of a good step. Made by `check_step` alone.
#[derive(Drop)]
pub struct Step {
    pub(crate) chain: Id,
    pub(crate) block: Header,
    pub(crate) new_weight: Option<u64>,
    pub(crate) total: u64,
    pub(crate) kinds: Vec<SlotKind>,
}

impl Model for Step {
    ghost use Rattle.handover_steps.specs.Steps.{Step as StepValue};

    ghost Value = { StepValue };

    ghost view = { λ t. record {
      chain = t.chain;
      block = t.block;
      new_weight = t.new_weight;
      total = t.total;
      kinds = t.kinds.items;
    } };
}

impl Step {
    /// The id of the chain of the committee that follows.
    pub fn chain(&self) -> &Id
        ensures { result.now ≡ self.now.chain }
    {
        &self.chain
    }

    /// The block by which the old committee handed over, in the old chain.
    pub fn block(&self) -> &Header
        ensures { result.now ≡ self.now.block }
    {
        &self.block
    }

    /// How much the new slots weigh together, where there is a renewal.
    pub fn new_weight(&self) -> Option<u64>
        ensures { result ≡ self.now.new_weight }
    {
        self.new_weight
    }

    /// How much all slots of the old committee weigh together.
    pub fn total(&self) -> u64
        ensures { result ≡ self.now.total }
    {
        self.total
    }

    /// What each slot of the committee that follows is.
    pub fn kinds(&self) -> &[SlotKind]
        ensures { result.now ≡ self.now.kinds }
    {
        &self.kinds
    }
}
