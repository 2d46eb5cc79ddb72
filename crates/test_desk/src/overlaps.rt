//! Two deliveries that overlap: the first is held in the check of its certificate until the second is answered. The logs
//! that they leave are compared, by digest, with those of an independent program.

ghost use Rattle.std.specs.Prelude.{◌≡◌};

use crate::replicas::{Block, checked_by, committee, new_parts, restarted};
use blocks::CommitteeView;
use certificates::{LmsVerifier, Verifier};
use lms_tree::{PublicKey, verify};
use stable_log::MemoryDisk;
use std::marker::Brand;
use std::process::Abort;
use std::sync::Wait;
use std::sync::atomic::{AtomicBool, Ordering};
use std::sync::ledger::Blank;
use std::thread;
use std::thread::Threads;
use vote_desk::{Answer, Desk, DeskNaming, Parts, Receipt, Reply, Session};

const LOG_OF_X8_AND_X9: &[u8; 32] =
    b"\x4a\xc9\xe3\x02\x5a\x0a\x65\x83\x1b\x48\x7e\x70\xb0\x1b\x63\x34\x2f\xe5\xd7\xb9\x66\x29\x2b\x59\xfe\xa4\xb8\x12\x91\x38\x40\x97";

const LOG_OF_X9: &[u8; 32] =
    b"\x69\xe6\xc5\x57\xb6\x39\x6e\x37\xdc\x78\xf4\x23\xe4\x1d\x24\x4d\xbb\xd3\x7a\xcc\x04\xa0\x25\x33\x48\xea\x60\x47\x8d\xf7\xa0\x7d";

// Waits for a flag, and gives up after ten million turns.
fn is_set(flag: &AtomicBool) -> bool {
    for _ in 0..10_000_000u32 {
        if flag.load(Ordering::SeqCst) {
            return true;
        }
        thread::yield_now();
    }
    false
}

// Checks signatures once it is opened, or has given up.
#[derive(Drop)]
struct Gate {
    entered: AtomicBool,
    open: AtomicBool,
    gave_up: AtomicBool,
}

impl Gate {
    fn new() -> Gate {
        Gate {
            entered: AtomicBool::new(false),
            open: AtomicBool::new(false),
            gave_up: AtomicBool::new(false),
        }
    }
}

impl Verifier for Gate {
    fn verify(&self, key: &PublicKey, message: &[u8], signature: &[u8]) -> bool {
        self.entered.store(true, Ordering::SeqCst);
        if !is_set(&self.open) {
            self.gave_up.store(true, Ordering::SeqCst);
        }
        verify(key, message, signature).is_ok()
    }
}

// A session, and what it was answered.
type Answered<N> = (Session<N>, Option<Reply>);

// Delivers a block that this verifier checks.
fn deliver<N: DeskNaming, R: Wait + AllocGlobal, V: Verifier>(
    rt: &R,
    verifier: &V,
    desk: &Desk<N, MemoryDisk>,
    session: Session<N>,
    committee: &CommitteeView,
    block: Block,
) -> Answered<N>
    requires { committee.now ≡ N.committee }
{
    let mut session = session;
    let Some(block) = checked_by(rt.alloc(), verifier, committee, block) else {
        return (session, None);
    };
    let reply = desk.deliver(rt, &mut session, block).ok();
    (session, reply)
}

// Delivers a block once the other call is being checked, and then lets that go on.
fn overtake<N: DeskNaming, R: Wait + AllocGlobal>(
    rt: &R,
    gate: &Gate,
    desk: &Desk<N, MemoryDisk>,
    session: Session<N>,
    committee: &CommitteeView,
    block: Block,
) -> Answered<N>
    requires { committee.now ≡ N.committee }
{
    if !is_set(&gate.entered) {
        gate.gave_up.store(true, Ordering::SeqCst);
    }
    let answered = deliver(rt, &LmsVerifier, desk, session, committee, block);
    gate.open.store(true, Ordering::SeqCst);
    answered
}

// Delivers the two blocks in two threads: the first is delivered once the second is answered.
fn deliver_both<N: DeskNaming + Send + Sync, R: Threads + Wait + AllocGlobal + Sync>(
    rt: &R,
    gate: &Gate,
    desk: &Desk<N, MemoryDisk>,
    sessions: (Session<N>, Session<N>),
    committee: &CommitteeView,
    blocks: (Block, Block),
) -> (Answered<N>, Answered<N>)
    requires { committee.now ≡ N.committee }
{
    let (a, b) = sessions;
    let (first, second) = blocks;
    thread::join(
        rt,
        move || deliver(rt, gate, desk, a, committee, first),
        move || overtake(rt, gate, desk, b, committee, second),
    )
}

// What the two calls were answered, and whether one gave up waiting for the other.
#[derive(Clone, Copy)]
struct Replies {
    first: Option<Reply>,
    second: Option<Reply>,
    gave_up: bool,
}

// A1, and then the two blocks. Gives the sessions back.
fn deliver_all<N: DeskNaming + Send + Sync, R: Threads + Wait + AllocGlobal + Sync>(
    rt: &R,
    desk: &Desk<N, MemoryDisk>,
    sessions: Vec<Session<N>>,
    committee: &CommitteeView,
    blocks: (Block, Block),
) -> Option<(Vec<Session<N>>, Replies)>
    requires { committee.now ≡ N.committee }
{
    let mut sessions = sessions;
    let b = sessions.pop()?;
    let a = sessions.pop()?;
    let (a, _) = deliver(rt, &LmsVerifier, desk, a, committee, Block::A1);
    let gate = Gate::new();
    let ((a, first), (b, second)) = deliver_both(rt, &gate, desk, (a, b), committee, blocks);
    sessions.push(a).ok()?;
    sessions.push(b).ok()?;
    let replies = Replies {
        first,
        second,
        gave_up: gate.gave_up.load(Ordering::SeqCst),
    };
    Some((sessions, replies))
}

// What the two calls were answered, and what is left.
#[derive(Drop)]
struct Outcomes {
    replies: Replies,
    receipts: Vec<Receipt>,
    parts: Parts<MemoryDisk>,
}

// A desk that is opened, overlapped, and closed.
fn overlaps<N: DeskNaming + Send + Sync, R: Threads + Wait + AllocGlobal + Sync>(
    rt: &R,
    blank: Blank,
    committee: &CommitteeView,
    parts: Parts<MemoryDisk>,
    blocks: (Block, Block),
) -> Option<Outcomes>
    requires name { blank.name ≡ N.name }
    requires ledger { (blank.parts ≡ N.parts) × (N.parts ≡ 2) }
    requires committee { committee.now ≡ N.committee }
    requires replica { 0 ≡ N.replica }
    requires opening { parts.log.steps ≡ N.opening }
{
    let started = Desk::<N, MemoryDisk>::start(rt.alloc(), blank, committee, 0, parts, 2);
    let (desk, sessions) = started.ok()?;
    let (sessions, replies) = deliver_all(rt, &desk, sessions, committee, blocks)?;
    let closed = desk.close(rt.alloc(), sessions).ok()?;
    Some(Outcomes {
        replies,
        receipts: closed.receipts,
        parts: closed.parts,
    })
}

fn overlapped<R: Threads + Wait + Abort + AllocGlobal + Sync>(
    rt: &R,
    blocks: (Block, Block),
) -> Outcomes {
    let committee = committee(rt);
    let parts = new_parts(rt);
    let done = overlaps::<Brand, R>(rt, Blank::new(2), &committee, parts, blocks);
    done.expect(rt, "a desk that is opened and closed")
}

// Whether this is a vote in the entry of this number.
fn is_vote(reply: &Option<Reply>, number: u32) -> bool {
    match reply {
        Some(reply) => match reply.act {
            Answer::Voted(receipt) => receipt.number == number,
            _ => false,
        },
        None => false,
    }
}

fn is_held(reply: &Option<Reply>) -> bool {
    match reply {
        Some(reply) => reply.act == Answer::Held,
        None => false,
    }
}

// Whether both blocks were voted for, the second before the first.
fn are_votes(replies: &Replies) -> bool {
    !replies.gave_up && is_vote(&replies.first, 2) && is_vote(&replies.second, 1)
}

// Whether the second block was voted for, and the first one held.
fn is_overtaken(replies: &Replies) -> bool {
    !replies.gave_up && is_held(&replies.first) && is_vote(&replies.second, 1)
}

// There are so many receipts, and the log's disk holds the bytes of this digest.
fn has_stored<R: Abort + AllocGlobal>(rt: &R, done: Outcomes, count: usize, digest: &[u8; 32]) {
    assert!(rt; done.receipts.len() == count);
    restarted(rt, done.parts, digest);
}

// The call of the higher view is answered last: both are voted for.
#[test]
fn parallel_calls_overlap(rt: HostRuntime) {
    let done = overlapped(&rt, (Block::X9, Block::X8));
    assert!(rt; are_votes(&done.replies));
    has_stored(&rt, done, 3, LOG_OF_X8_AND_X9);
}

// The call of the higher view is answered first: the other block is held.
#[test]
fn later_call_overtakes(rt: HostRuntime) {
    let done = overlapped(&rt, (Block::X8, Block::X9));
    assert!(rt; is_overtaken(&done.replies));
    has_stored(&rt, done, 2, LOG_OF_X9);
}
