//! Why a step is refused.

ghost use Rattle.std.specs.Prelude.{◌≡◌};
ghost use Rattle.handover_steps.specs.StepRefusals.{step_refusal_name, step_refusal_number};
ghost use Rattle.handover_steps.specs.declared.refusal.StepRefusal.TheVariants.{Memory};

use blocks::CommitteeRefusal;
use handover_light::{LightProofFormRefusal, LightProofRefusal};
use handover_renewals::{RenewalFormRefusal, RenewalRefusal};
use std::alloc::{AllocError, AllocFailed};

/// Why a step is refused, in the order of the tests.
#[derive(Clone, Copy, Debug, PartialEq, Eq)]
pub enum StepRefusal {
    /// 1: memory was refused.
    Memory,
    /// 2: the file is no committee's.
    Committee(CommitteeRefusal),
    /// 3: the key of this number is a key of the old committee too, its slot may not keep it, and it is the least such number.
    OldKey(u16),
    /// 4: the bytes of the light proof are none.
    ProofForm(LightProofFormRefusal),
    /// 5: the light proof proves no handover of the old committee.
    Proof(LightProofRefusal),
    /// 6: it proves one that does not name the file.
    OtherFile,
    /// 7: the bytes of the renewal are none.
    RenewalForm(RenewalFormRefusal),
    /// 8: by the renewal the committee does not renew the old one.
    Renewal(RenewalRefusal),
}

impl StepRefusal {
    /// The number of the refusal, which never changes.
    pub fn number(self) -> u8
        ensures { result ≡ step_refusal_number self }
    {
        match self {
            StepRefusal::Memory => 1,
            StepRefusal::Committee(_) => 2,
            StepRefusal::OldKey(_) => 3,
            StepRefusal::ProofForm(_) => 4,
            StepRefusal::Proof(_) => 5,
            StepRefusal::OtherFile => 6,
            StepRefusal::RenewalForm(_) => 7,
            StepRefusal::Renewal(_) => 8,
        }
    }

    /// Its name, as it is printed.
    pub fn name(self) -> &'static str
        ensures { result.now ≡ step_refusal_name self }
    {
        match self {
            StepRefusal::Memory => "Memory",
            StepRefusal::Committee(_) => "Committee",
            StepRefusal::OldKey(_) => "OldKey",
            StepRefusal::ProofForm(_) => "ProofForm",
            StepRefusal::Proof(_) => "Proof",
            StepRefusal::OtherFile => "OtherFile",
            StepRefusal::RenewalForm(_) => "RenewalForm",
            StepRefusal::Renewal(_) => "Renewal",
        }
    }
}

impl From<AllocError> for StepRefusal {
    ghost from_gives = { λ _ refusal. refusal ≡ Memory };

    fn from(_refused: AllocError) -> StepRefusal {
        StepRefusal::Memory
    }
}

impl<T: Drop> From<AllocFailed<T>> for StepRefusal {
    ghost from_gives = { λ _ refusal. refusal ≡ Memory };

    fn from(_refused: AllocFailed<T>) -> StepRefusal {
        StepRefusal::Memory
    }
}
