//! Why there is no evidence.

ghost use Rattle.std.specs.Prelude.{◌≡◌};
ghost use Rattle.audit_evidence.specs.Evidence.{evidence_refusal_number};
ghost use Rattle.audit_evidence.specs.declared.refusal.EvidenceRefusal.TheVariants.{Memory};

use blocks::Header;
use std::alloc::AllocError;

/// Why there is no evidence.
#[derive(Clone, Copy, Debug, PartialEq, Eq)]
pub enum EvidenceRefusal {
    /// 1: memory was refused.
    Memory,
    /// 2: these two different headers of the evidence have one id.
    Collision(Header, Header),
}

impl EvidenceRefusal {
    /// The number of the refusal, which never changes.
    pub fn number(self) -> u8
        ensures { result ≡ evidence_refusal_number self }
    {
        match self {
            EvidenceRefusal::Memory => 1,
            EvidenceRefusal::Collision(_, _) => 2,
        }
    }
}

impl From<AllocError> for EvidenceRefusal {
    ghost from_gives = { λ _ refusal. refusal ≡ Memory };

    fn from(_refused: AllocError) -> EvidenceRefusal {
        EvidenceRefusal::Memory
    }
}
