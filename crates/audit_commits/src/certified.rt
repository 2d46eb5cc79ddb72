//! Certified blocks.

ghost use Rattle.std.specs.Prelude.{◌≡◌, ◌≤◌, ◌↔◌, List, IfOk, IsTrue};
ghost use Rattle.blocks.specs.Headers.{header_id};
ghost use Rattle.blocks.specs.Committees.{n_of, weight_at};
ghost use Rattle.blocks.specs.Weights.{committee_of, weight_of};
ghost use Rattle.certificates.specs.declared.vote.SignedVote.{SignedVote as SignedVoteValue};
ghost use Rattle.audit_commits.specs.Casts.{AreCasts, has_cast};
ghost use Rattle.audit_commits.specs.Chosen.{AreThose};
ghost use Rattle.audit_commits.specs.Commits.{IsCertified, has_vote};

use crate::by_ballot::{ByBallot, Cast};
use audit_evidence::Evidence;
use blocks::{CommitteeView, NamedHeader};
use std::alloc::{AllocError, Global};

// Whether one of these is by the replica.
fn has_cast(casts: &[Cast], replica: u16) -> bool
    ensures { result ≡ has_cast casts.now replica }
{
    casts.iter().any(|cast| cast.replica == replica)
}

// The weight of the committee's replicas that voted for this block.
fn voters_weight(committee: &CommitteeView, casts: &ByBallot, b: &NamedHeader) -> u64
    ensures { (votes : List SignedVoteValue) → AreCasts votes casts.now
        → result ≡ weight_of (weight_at committee.now)
        (has_vote votes b.now.view (header_id b.now)) (n_of committee.now) }
{
    let on = casts.on(b);
    committee.weight_of(
        |replica| -> bool
            ensures { result ≡ has_cast on.entry.now replica }
        { has_cast(on, replica) },
    )
}

// Whether the replicas that voted for the block are a quorum, where these are all casts of the evidence.
#[tactic(auto, unfolding(crate::specs::Commits::IsCertified))]
fn is_certified(evidence: &Evidence, casts: &ByBallot, b: &NamedHeader) -> bool
    requires { AreCasts evidence.now.votes casts.now }
    ensures { IsTrue result ↔ IsCertified (committee_of evidence.now.committee) evidence.now b.now }
{
    let committee = evidence.committee();
    committee.quorum() <= voters_weight(&committee, casts, b)
}

/// The certified headers of the evidence by rising id. Memory is refused where they could not be copied.
pub fn certified_headers(alloc: Global, evidence: &Evidence) -> Result<Vec<NamedHeader>, AllocError>
    ensures { IfOk result (λ chosen.
        AreThose (IsCertified (committee_of evidence.now.committee) evidence.now)
        evidence.now.headers chosen.items) }
{
    let casts = ByBallot::of(alloc, evidence.votes())?;
    let mut chosen = Vec::new(alloc);
    for header in evidence.headers() {
        if is_certified(evidence, &casts, header) {
            chosen.push(*header)?;
        }
    }
    Ok(chosen)
}
