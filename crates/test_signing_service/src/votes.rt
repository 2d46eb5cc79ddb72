//! Which votes of a certificate are remembered, and so not checked again.

use blocks::CommitteeView;
use certificates::{Certificate, SignedVote};
use signer_votes::{Checker, Claim, GoodVotes, SideBySide};
use std::alloc::Global;
use std::process::Abort;
use std::sync::Wait;
use std::thread::Threads;
use test_fixtures::{certificates as texts, verdicts};

// The certificate of A1, with the last byte of its last vote's signature changed by this much.
fn certificate<R: Abort>(rt: &R, alloc: Global, by: u8) -> Certificate {
    let mut text = texts::of_a1().to_vec(alloc).ok().expect(rt, "memory");
    if let Some(last) = text.last_mut() {
        *last = last.wrapping_add(by);
    }
    let certificate = Certificate::read(alloc, &text).ok();
    certificate.expect(rt, "a certificate")
}

fn is_remembered<R: Wait>(
    rt: &R,
    good: &GoodVotes,
    committee: &CommitteeView,
    vote: &SignedVote,
) -> bool {
    match Claim::of(committee, vote) {
        Some(claim) => good.remembers(rt, &claim),
        None => false,
    }
}

// How many of the certificate's votes are not remembered.
fn unknown<R: Wait>(
    rt: &R,
    good: &GoodVotes,
    committee: &CommitteeView,
    certificate: &Certificate,
) -> usize {
    let mut unknown = 0;
    for k in 0..certificate.count() {
        if !is_remembered(rt, good, committee, &certificate.vote(k)) {
            unknown = usize::saturating_add(unknown, 1);
        }
    }
    unknown
}

// How many of its votes are not remembered before it is checked, and behind that.
fn unknown_twice<R: Threads + Wait>(
    rt: &R,
    alloc: Global,
    committee: &CommitteeView,
    certificate: &Certificate,
) -> (usize, usize) {
    let good = GoodVotes::new(alloc);
    let checker = SideBySide::new(rt, &good);
    let before = unknown(rt, &good, committee, certificate);
    let _known = checker.check_ahead(alloc, committee, certificate);
    let behind = unknown(rt, &good, committee, certificate);
    (before, behind)
}

#[test]
fn good_votes_alone_are_remembered(rt: HostRuntime) {
    let alloc = rt.alloc();
    let committee = CommitteeView::parse(verdicts::committee())
        .ok()
        .expect(&rt, "a committee");
    for (by, want) in [(0, (3, 0)), (1, (3, 1))] {
        let certificate = certificate(&rt, alloc, by);
        let found = unknown_twice(&rt, alloc, &committee, &certificate);
        assert!(rt; found == want);
    }
}
