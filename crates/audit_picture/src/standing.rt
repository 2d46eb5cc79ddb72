//! What the evidence proves of each block.

ghost use Rattle.std.specs.Prelude.{◌↔◌, IsTrue};
ghost use Rattle.blocks.specs.Weights.{committee_of};
ghost use Rattle.audit_commits.specs.Commits.{IsCertified};
ghost use Rattle.audit_picture.specs.Standings.{IsCommitted, IsInConflict, IsStanding, IsSupport};

use crate::scene::{Standing, Support};
use audit_evidence::Evidence;
use blocks::{Id, NamedHeader};
use culprit_search::{Commit, Conflict, Report};

/// Whether the block is one of the first two that conflict.
pub(crate) fn is_in_conflict(conflict: Option<Conflict>, id: &Id) -> bool
    ensures { IsTrue result ↔ IsInConflict conflict id.now }
{
    match conflict {
        Some(conflict) => conflict.first == *id || conflict.second == *id,
        None => false,
    }
}

/// Whether the block is one of these commits.
pub(crate) fn is_committed(commits: &[Commit], id: &Id) -> bool
    ensures { IsTrue result ↔ IsCommitted commits.now id.now }
{
    commits.iter().any(|commit| commit.id == *id)
}

#[tactic(auto, unfolding(audit_commits::specs::Commits::IsCertified))]
fn is_certified(evidence: &Evidence, block: &NamedHeader, support: Support) -> bool
    requires { IsSupport evidence.now block.now support }
    ensures { IsTrue result
        ↔ IsCertified (committee_of evidence.now.committee) evidence.now block.now }
{
    evidence.committee().quorum() <= support.weight
}

/// What the evidence and its report prove of the block, for which these voted.
pub(crate) fn standing_of(
    evidence: &Evidence,
    report: &Report,
    block: &NamedHeader,
    support: Support,
) -> Standing
    requires { IsSupport evidence.now block.now support }
    ensures { IsStanding evidence.now report.now block.now result }
{
    let id = block.id();
    if *id == evidence.committee().chain() {
        return Standing::Genesis;
    }
    if is_in_conflict(report.conflict(), id) {
        return Standing::Conflicting;
    }
    if is_committed(report.commits(), id) {
        return Standing::Committed;
    }
    if is_certified(evidence, block, support) {
        return Standing::Certified;
    }
    Standing::Uncertified
}
