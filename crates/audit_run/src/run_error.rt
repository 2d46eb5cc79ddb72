//! Why a run of the audit gave no report.

ghost use Rattle.std.specs.Prelude.{◌≡◌};
ghost use Rattle.audit_run.specs.RunErrors.{run_error_number, of_evidence, of_report};
ghost use Rattle.audit_run.specs.declared.run_error.RunError.TheVariants.{Memory, Committee};

use audit_evidence::EvidenceRefusal;
use blocks::{CommitteeRefusal, Header};
use culprit_search::ReportError;
use std::alloc::AllocError;

/// Why a run of the audit gave no report.
#[derive(Clone, Copy, Debug, PartialEq, Eq)]
pub enum RunError {
    /// 1: memory was refused, and nothing was written.
    Memory,
    /// 2: the bytes are no committee, and nothing was written.
    Committee(CommitteeRefusal),
    /// 3: these two different headers of the evidence have one id, and nothing was written.
    Collision(Header, Header),
    /// 4: a write failed, behind a first part of the text.
    Sink,
}

impl RunError {
    /// The number of the error, which never changes.
    pub fn number(self) -> u8
        ensures { result ≡ run_error_number self }
    {
        match self {
            RunError::Memory => 1,
            RunError::Committee(_) => 2,
            RunError::Collision(_, _) => 3,
            RunError::Sink => 4,
        }
    }
}

impl From<AllocError> for RunError {
    ghost from_gives = { λ _ e. e ≡ Memory };

    fn from(_refused: AllocError) -> RunError {
        RunError::Memory
    }
}

impl From<CommitteeRefusal> for RunError {
    ghost from_gives = { λ refusal e. e ≡ Committee refusal };

    fn from(refusal: CommitteeRefusal) -> RunError {
        RunError::Committee(refusal)
    }
}

impl From<EvidenceRefusal> for RunError {
    ghost from_gives = { λ refusal e. e ≡ of_evidence refusal };

    fn from(refusal: EvidenceRefusal) -> RunError {
        match refusal {
            EvidenceRefusal::Memory => RunError::Memory,
            EvidenceRefusal::Collision(h, k) => RunError::Collision(h, k),
        }
    }
}

impl From<ReportError> for RunError {
    ghost from_gives = { λ error e. e ≡ of_report error };

    fn from(error: ReportError) -> RunError {
        match error {
            ReportError::Memory => RunError::Memory,
            ReportError::Sink => RunError::Sink,
        }
    }
}
