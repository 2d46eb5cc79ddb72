//! Who voted for a block.

ghost use Rattle.std.specs.Prelude.{◌≡◌};
ghost use Rattle.std.specs.List.{AllPairs};
ghost use Rattle.blocks.specs.Committees.{n_of, weight_at};
ghost use Rattle.blocks.specs.Headers.{header_id};
ghost use Rattle.blocks.specs.Weights.{weight_of};
ghost use Rattle.certificates.specs.VoteOrder.{IsLowerVote};
ghost use Rattle.audit_commits.specs.Commits.{has_vote};
ghost use Rattle.audit_picture.specs.Standings.{IsSupport, once};

use crate::scene::Support;
use audit_evidence::Evidence;
use base_shared::Shared;
use blocks::{CommitteeView, NamedHeader};
use certificates::SignedVote;

// Whether the replica has a vote on this block. Votes rise, so a binary search finds one.
fn has_vote(votes: &[Shared<SignedVote>], b: &NamedHeader, replica: u16) -> bool
    requires { AllPairs IsLowerVote votes.now }
    ensures { result ≡ has_vote votes.entry.now b.entry.now.view (header_id b.entry.now) replica }
{
    votes
        .binary_search_by_key(&(replica, b.header().view, *b.id()), |vote| {
            let vote = vote.get();
            (vote.replica, vote.view, vote.id)
        })
        .is_ok()
}

// How many of the first n replicas have a vote on this block.
fn voters(votes: &[Shared<SignedVote>], b: &NamedHeader, n: u16) -> u16
    requires { AllPairs IsLowerVote votes.now }
    ensures { result ≡ weight_of once (has_vote votes.now b.now.view (header_id b.now)) n }
{
    let mut count: u16 = 0;
    for replica in 0..n {
        if has_vote(votes, b, replica) {
            count += 1;
        }
    }
    count
}

// The weight of the committee's replicas that have a vote on this block.
fn voters_weight(committee: &CommitteeView, votes: &[Shared<SignedVote>], b: &NamedHeader) -> u64
    requires { AllPairs IsLowerVote votes.now }
    ensures { result ≡ weight_of (weight_at committee.now)
        (has_vote votes.now b.now.view (header_id b.now)) (n_of committee.now) }
{
    committee.weight_of(
        |replica| -> bool
            requires { AllPairs IsLowerVote votes.now }
            ensures { result ≡ has_vote votes.entry.now b.entry.now.view (header_id b.entry.now) replica }
        { has_vote(votes, b, replica) },
    )
}

/// Who voted for the block.
pub(crate) fn support_of(evidence: &Evidence, block: &NamedHeader) -> Support
    ensures { IsSupport evidence.now block.now result }
{
    let committee = evidence.committee();
    let votes = evidence.votes();
    Support {
        votes: voters(votes, block, committee.n()),
        weight: voters_weight(&committee, votes, block),
    }
}
