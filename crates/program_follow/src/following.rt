//! What evidence says of the committee that comes next.

ghost use Rattle.std.specs.Prelude.{◌≡◌, ◌≢◌, IfOk, IsTrue, ◌↔◌};
ghost use Rattle.handover_blocks.specs.Handovers.{handover_payload};
ghost use Rattle.culprit_search.specs.Reports.{IsAudit};
ghost use Rattle.program_follow.specs.Followings.{IsFollowing, status_of};

use audit_evidence::Evidence;
use blocks::NamedHeader;
use culprit_search::Report;
use handover_blocks::handover_payload;
use handover_search::handover_of;
use std::alloc::{AllocError, Global};

/// What the evidence on a committee says of the one that is to come next.
#[derive(Clone, Copy, Debug)]
pub enum Following {
    /// Commits conflict, so it says nothing.
    Conflict,
    /// The ledger was handed over to that committee, by this block.
    New(NamedHeader),
    /// The ledger was handed over to another committee, by this block.
    Another(NamedHeader),
    /// No handover is proved.
    Nobody,
}

impl Following {
    /// The exit status that tells it.
    pub fn status(&self) -> u8
        ensures { result ≡ status_of self.now }
    {
        match self {
            Following::New(_) => 0,
            Following::Another(_) | Following::Nobody => 1,
            Following::Conflict => 3,
        }
    }
}

// Whether the block hands over to the committee of this file.
fn is_to(block: &NamedHeader, file: &[u8]) -> bool
    ensures { IsTrue result ↔ (block.now.payload ≡ handover_payload file.now) }
{
    block.header().payload == handover_payload(file)
}

/// What the evidence, with the report of its audit, says of the committee of this file. AllocError comes where memory is
/// refused.
pub fn follow(
    alloc: Global,
    evidence: &Evidence,
    report: &Report,
    file: &[u8],
) -> Result<Following, AllocError>
    requires { IsAudit evidence.now report.now }
    ensures { IfOk result (IsFollowing evidence.now file.now) }
{
    if report.conflict().is_some() {
        return Ok(Following::Conflict);
    }
    match handover_of(alloc, evidence)? {
        Some(block) if is_to(&block, file) => Ok(Following::New(block)),
        Some(block) => Ok(Following::Another(block)),
        None => Ok(Following::Nobody),
    }
}
