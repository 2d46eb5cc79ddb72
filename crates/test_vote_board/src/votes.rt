//! What the tests share, over bytes of an independent program.

use base_shared::Shared;
use blocks::CommitteeView;
use certificates::{Certificate, SignedVote};
use std::alloc::Global;
use std::process::Abort;
use test_fixtures::{certificates as texts, verdicts};

/// The stored committee.
pub(crate) fn committee<R: Abort>(rt: &R) -> CommitteeView<'static> {
    let committee = CommitteeView::parse(verdicts::committee()).ok();
    committee.expect(rt, "a committee")
}

// The first vote of the certificate of A1, that of replica 0.
fn stored_vote(alloc: Global) -> Option<SignedVote> {
    let certificate = Certificate::read(alloc, texts::of_a1()).ok()?;
    if certificate.count() == 0 {
        return None;
    }
    Some(certificate.vote(0))
}

// The vote in memory that is shared.
fn shared<R: Abort + AllocGlobal>(rt: &R, vote: SignedVote) -> Shared<SignedVote> {
    Shared::new(rt.alloc(), vote).ok().expect(rt, "memory")
}

/// A good vote.
pub(crate) fn good_vote<R: Abort + AllocGlobal>(rt: &R) -> Shared<SignedVote> {
    shared(rt, stored_vote(rt.alloc()).expect(rt, "a vote"))
}

/// The same vote, with one bit of the last byte of its signature changed: it is not good.
pub(crate) fn bad_vote<R: Abort + AllocGlobal>(rt: &R) -> Shared<SignedVote> {
    let mut vote = *good_vote(rt).get();
    vote.signature[1451] ^= 1;
    shared(rt, vote)
}
