//! A good and a bad vote, that differ in their signatures alone, asked for again and again.

ghost use Rattle.std.specs.Prelude.{◌≡◌};

use crate::votes::{bad_vote, committee, good_vote};
use base_shared::Shared;
use blocks::CommitteeView;
use certificates::{LmsVerifier, SignedVote, Verifier};
use lms_tree::PublicKey;
use parallel_verify::{Board, BoardNaming};
use std::alloc::Global;
use std::cell::Cell;
use std::marker::Brand;
use std::process::Abort;
use std::sync::Wait;

// Checks signatures, and counts how often it is asked.
#[derive(Drop)]
struct Counting {
    asked: Cell<u32>,
}

impl Verifier for Counting {
    fn verify(&self, key: &PublicKey, message: &[u8], signature: &[u8]) -> bool {
        self.asked.set(self.asked.get().wrapping_add(1));
        LmsVerifier.verify(key, message, signature)
    }
}

// Asserts what is answered of a vote, and how many signatures were checked by then.
fn is_answered<N: BoardNaming, R: Wait + Abort>(
    rt: &R,
    board: &Board<N>,
    verifier: &Counting,
    vote: &Shared<SignedVote>,
    want: (bool, u32),
) {
    let answer = board.check_by(rt, verifier, vote).ok();
    assert!(rt; answer == Some(want.0));
    assert!(rt; verifier.asked.get() == want.1);
}

// Asks for both votes, and then for both once more.
fn ask_again<N: BoardNaming, R: Wait + Abort>(
    rt: &R,
    alloc: Global,
    committee: &CommitteeView,
    good: &Shared<SignedVote>,
    bad: &Shared<SignedVote>,
)
    requires { committee.now ≡ N.committee }
{
    let board = Board::<N>::new(alloc, committee.again());
    let verifier = Counting {
        asked: Cell::new(0),
    };
    is_answered(rt, &board, &verifier, good, (true, 1));
    is_answered(rt, &board, &verifier, bad, (false, 2));
    is_answered(rt, &board, &verifier, good, (true, 2));
    is_answered(rt, &board, &verifier, bad, (false, 2));
    let answer = board.check(rt, bad.get()).ok();
    assert!(rt; answer == Some(false));
}

fn asked_again<R: Wait + Abort + AllocGlobal>(rt: &R) {
    let committee = committee(rt);
    let good = good_vote(rt);
    let bad = bad_vote(rt);
    ask_again::<Brand, R>(rt, rt.alloc(), &committee, &good, &bad);
}

#[test]
fn each_vote_is_checked_once(rt: HostRuntime) {
    asked_again(&rt);
}
