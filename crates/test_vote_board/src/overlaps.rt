//! Two threads that ask for one vote: the check of the first is held until the second is answered, so no lock is held while
//! a vote is checked.

ghost use Rattle.std.specs.Prelude.{◌≡◌};

use crate::votes::{bad_vote, committee, good_vote};
use base_shared::Shared;
use blocks::CommitteeView;
use certificates::{LmsVerifier, SignedVote, Verifier};
use lms_tree::{PublicKey, verify};
use parallel_verify::{Board, BoardNaming};
use std::alloc::Global;
use std::marker::Brand;
use std::process::Abort;
use std::sync::Wait;
use std::sync::atomic::{AtomicBool, Ordering};
use std::thread;
use std::thread::Threads;

// Waits for a flag, and gives up after ten million turns.
fn is_set(flag: &AtomicBool) -> bool {
    for _ in 0..10_000_000u32 {
        if flag.load(Ordering::SeqCst) {
            return true;
        }
        thread::yield_now();
    }
    false
}

// Checks signatures once it is opened, or has given up.
#[derive(Drop)]
struct Gate {
    entered: AtomicBool,
    open: AtomicBool,
    gave_up: AtomicBool,
}

impl Gate {
    fn new() -> Gate {
        Gate {
            entered: AtomicBool::new(false),
            open: AtomicBool::new(false),
            gave_up: AtomicBool::new(false),
        }
    }
}

impl Verifier for Gate {
    fn verify(&self, key: &PublicKey, message: &[u8], signature: &[u8]) -> bool {
        self.entered.store(true, Ordering::SeqCst);
        if !is_set(&self.open) {
            self.gave_up.store(true, Ordering::SeqCst);
        }
        verify(key, message, signature).is_ok()
    }
}

// Asks for the vote once the other call checks it, and then lets that go on.
fn overtake<N: BoardNaming, R: Wait>(
    rt: &R,
    gate: &Gate,
    board: &Board<N>,
    vote: &Shared<SignedVote>,
) -> Option<bool> {
    if !is_set(&gate.entered) {
        gate.gave_up.store(true, Ordering::SeqCst);
    }
    let answer = board.check_by(rt, &LmsVerifier, vote).ok();
    gate.open.store(true, Ordering::SeqCst);
    answer
}

// What the two calls were answered, and whether one gave up waiting for the other.
#[derive(Clone, Copy)]
struct Answers {
    first: Option<bool>,
    second: Option<bool>,
    gave_up: bool,
}

// Asks for the vote in two threads.
fn ask_both<N: BoardNaming + Send + Sync, R: Threads + Wait + Sync>(
    rt: &R,
    alloc: Global,
    committee: &CommitteeView,
    vote: &Shared<SignedVote>,
) -> Answers
    requires { committee.now ≡ N.committee }
{
    let board = Board::<N>::new(alloc, committee.again());
    let gate = Gate::new();
    let (first, second) = thread::join(
        rt,
        || board.check_by(rt, &gate, vote).ok(),
        || overtake(rt, &gate, &board, vote),
    );
    Answers {
        first,
        second,
        gave_up: gate.gave_up.load(Ordering::SeqCst),
    }
}

// Asserts what both threads are answered of a vote.
fn overlapped<R: Threads + Wait + Abort + AllocGlobal + Sync>(
    rt: &R,
    vote: &Shared<SignedVote>,
    want: bool,
) {
    let committee = committee(rt);
    let answers = ask_both::<Brand, R>(rt, rt.alloc(), &committee, vote);
    assert!(rt; answers.first == Some(want));
    assert!(rt; answers.second == Some(want));
    assert!(rt; !answers.gave_up);
}

#[test]
fn a_good_vote_is_asked_for_at_once(rt: HostRuntime) {
    let vote = good_vote(&rt);
    overlapped(&rt, &vote, true);
}

#[test]
fn a_bad_vote_is_asked_for_at_once(rt: HostRuntime) {
    let vote = bad_vote(&rt);
    overlapped(&rt, &vote, false);
}
