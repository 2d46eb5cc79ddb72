//! Who says which committee may come next, and has the signer go over to it.

ghost use Rattle.std.specs.Prelude.{◌≡◌, ◌≢◌, ℕ, List, IfOk, IfSome, IsTrue, None, OnOk};
ghost use Rattle.blocks.specs.Genesis.{chain_id_of};
ghost use Rattle.handover_light.specs.Proving.{ProvesHandover};
ghost use Rattle.signer_answers.specs.Approvals.{Telling};

use blocks::{CommitteeRefusal, CommitteeView, Id};
use handover_light::LightProof;
use std::alloc::AllocError;

/// Why a signer does not go over to the committee of a file.
#[derive(Clone, Copy, Debug, PartialEq, Eq)]
pub enum OverFault {
    /// Memory was refused.
    Memory,
    /// It is no committee's file.
    Committee(CommitteeRefusal),
    /// The replica has neither its present keys there, nor the keys that were made to come behind them.
    NotMine,
    /// What the replica would go on with, or its word, can't be read or stored.
    Stopped,
}

/// Why a replica's next keys can't be told.
#[derive(Clone, Copy, Debug, PartialEq, Eq)]
pub enum NextFault {
    /// Memory was refused.
    Memory,
    /// They are still made.
    Making,
    /// There are none: they can't be made or read, or are not the ones that it endorsed, or its endorsement can't be read or stored.
    Stopped,
}

impl From<AllocError> for NextFault {
    ghost use Rattle.std.specs.Prelude.{◌≡◌};
    ghost use Rattle.signer_answers.specs.declared.approver.NextFault.TheVariants.{Memory};

    ghost from_gives = { λ _ fault. fault ≡ Memory };

    fn from(_error: AllocError) -> NextFault {
        NextFault::Memory
    }
}

/// How far a replica's next keys are.
#[derive(Clone, Copy, Debug, PartialEq, Eq)]
pub enum NextKeys {
    /// None are made.
    None,
    /// They are made now.
    Making,
    /// They are there.
    Made,
    /// The replica endorsed them.
    Endorsed,
    /// They can't be made or read, or are not the ones that it endorsed.
    Stopped,
}

/// How far a signer is that goes over from committee to committee.
#[derive(Clone, Copy, Debug, PartialEq, Eq)]
pub struct Progress {
    /// How far its next keys are.
    pub next: NextKeys,
    /// How many committees it was in, this one among them.
    pub committees: u32,
    /// In how many of them, up to the one before this, it had the keys that it has.
    pub kept: u32,
}

/// Who says which committee the ledger may be handed over to, and has the signer go over to it.
pub trait Approver {
    /// What may be told.
    ghost tells: { Self → Telling };

    /// The payload of the block that hands over to the committee that is approved now; none where none is.
    fn approved(&self) -> Option<[u8; 32]>
        ensures { (tells self.now).approves result };

    /// The payload of the one block on genesis that may get a vote, in a chain that was gone over to; none where any may.
    fn begins(&self) -> Option<[u8; 32]>
        ensures { result ≡ (tells self.now).begins };

    /// Whether indices and room in the log are spared for the blocks by which the ledger goes over, and for endorsements.
    fn spares(&self) -> bool
        ensures { result ≡ (tells self.now).spares };

    /// Whether the replica has its present keys in this committee, or the next ones that it endorsed.
    fn has_keys_in(&self, after: &CommitteeView) -> Result<bool, NextFault>
        ensures { IfOk result (λ has. IsTrue has → (tells self.now).has_keys after.now) };

    /// The endorsement of its next keys that it said before, if it did.
    fn endorsed(&self) -> Result<Option<Vec<u8>>, NextFault>
        ensures { IfOk result (λ said. IfSome said (λ bytes. (tells self.now).endorsed bytes.items)) };

    /// The statement of its next keys.
    fn statement(&self) -> Result<Vec<u8>, NextFault>;

    /// Says this endorsement for good, unless it said another one before. Answers the one that is said.
    fn endorse(&self, endorsement: &[u8]) -> Result<Vec<u8>, NextFault>
        ensures { IfOk result (λ said. (tells self.now).endorsed said.items) };

    /// Makes ready what the signer goes on with in the chain of the committee of this file, and answers that chain's id. The renewal by
    /// which it follows is kept with it, where it is one; without any bytes there is none. A fault leaves it as it is.
    fn prepare(&self, renewal: &[u8], file: &[u8]) -> Result<Id, OverFault>
        ensures { IfOk result (λ chain. chain ≡ chain_id_of file.now) };

    /// Keeps the light proof by which alone it goes over from this committee, before it says so. What follows may be a second lineage: what
    /// the signer may need to stay in the first one stays until the newest chain's id was compared.
    fn keep_proof(&self, committee: &CommitteeView, proof: &LightProof) -> Result<(), OverFault>
        requires { ProvesHandover committee.now proof.now };

    /// Says for good that it goes over by the handover block of this id to the committee of this file, for which it made all ready.
    fn say(&self, handover: &Id, file: &[u8]) -> Result<(), OverFault>
        ensures { OnOk result ((tells self.now).over handover.now file.now) };

    /// The digest of the file of the committee that it went over to from this chain, if it did.
    fn left_for(&self, chain: &Id) -> Result<Option<[u8; 32]>, OverFault>;

    /// How far it is.
    fn progress(&self) -> Progress;
}

/// No committee is approved or gone over to, no keys come next, and nothing is put down.
#[derive(Clone, Copy, Debug, Default)]
pub struct NoSuccessor;

impl Approver for NoSuccessor {
    ghost use Rattle.std.specs.Prelude.{◌≡◌, None, false};

    ghost tells = { λ _. record {
      approves = λ told. told ≡ None;
      begins = None;
      spares = false;
      has_keys = λ _. Unit {0};
      endorsed = λ _. Unit {0};
      over = λ _ _. Unit {0};
    } };

    fn approved(&self) -> Option<[u8; 32]> {
        None
    }

    fn begins(&self) -> Option<[u8; 32]> {
        None
    }

    fn spares(&self) -> bool {
        false
    }

    fn has_keys_in(&self, _after: &CommitteeView) -> Result<bool, NextFault> {
        Ok(false)
    }

    fn endorsed(&self) -> Result<Option<Vec<u8>>, NextFault> {
        Ok(None)
    }

    fn statement(&self) -> Result<Vec<u8>, NextFault> {
        Err(NextFault::Stopped)
    }

    fn endorse(&self, _endorsement: &[u8]) -> Result<Vec<u8>, NextFault> {
        Err(NextFault::Stopped)
    }

    fn prepare(&self, _renewal: &[u8], _file: &[u8]) -> Result<Id, OverFault> {
        Err(OverFault::NotMine)
    }

    fn keep_proof(&self, _committee: &CommitteeView, _proof: &LightProof) -> Result<(), OverFault> {
        Err(OverFault::Stopped)
    }

    fn say(&self, _handover: &Id, _file: &[u8]) -> Result<(), OverFault> {
        Err(OverFault::Stopped)
    }

    fn left_for(&self, _chain: &Id) -> Result<Option<[u8; 32]>, OverFault> {
        Ok(None)
    }

    fn progress(&self) -> Progress {
        Progress {
            next: NextKeys::None,
            committees: 1,
            kept: 0,
        }
    }
}
