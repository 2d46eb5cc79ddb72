//! A worked run over a desk: a replica votes for A1, A2 and A3, which locks it on A1, holds W4 on genesis, gives up on the
//! views up to 9, holds X5 on W4, and raises its lock to W4 at X6 on X5; it is started again, and still holds W4.

ghost use Rattle.std.specs.Prelude.{◌≡◌};

use crate::outcome::Outcome;
use crate::replica::{
    Block, are_numbered, are_of_the_run, checked, committee, has_digest, new_parts, recovered_log,
    restarted,
};
use crate::stage::announce;
use base_streams::Sink;
use blocks::CommitteeView;
use stable_log::MemoryDisk;
use std::marker::Brand;
use std::sync::Wait;
use std::sync::ledger::Blank;
use std::thread::Threads;
use vote_desk::{Answer, Closed, Desk, DeskError, DeskNaming, Parts, Reply, Session, StartError};

/// The log's bytes after the run, by their digest: an independent program made them.
const LOG: &[u8; 32] =
    b"\x3a\x05\xcc\xe8\x10\x2f\x89\xff\x37\x91\x88\x95\xc1\x9b\x5b\xad\x57\x71\xd4\x67\x59\x4f\xb6\xf4\xb8\x89\x03\x74\x03\xf7\x4a\x93";

/// How many indices are left after the run's three votes.
const INDICES_LEFT: u32 = 1_021;

/// What is done where a call answered that memory was refused.
#[derive(Clone, Copy)]
pub(crate) enum After {
    /// The same call is made again, since memory is there again, and the run goes on.
    Again,
    /// The desk is closed at once, since memory stays short.
    Leave,
}

// What happens to the replica, and what it does.
#[derive(Clone, Copy)]
enum Step {
    // It votes for the block, in the entry of this number.
    Votes(Block, u32),
    Raises(Block),
    Holds(Block),
    // It gives up on the views up to this one.
    TimesOut(u64),
}

// What a replica has stored and knows: how many entries its log has, how many receipts this stay gave, the vote view, and
// the view of the lock.
#[derive(Clone, Copy)]
struct State(usize, usize, u64, u64);

// Each step of the first stay, and the state before it.
const FIRST_STAY: [(State, Step); 7] = [
    (State(0, 0, 0, 0), Step::Votes(Block::A1, 0)),
    (State(1, 1, 1, 0), Step::Votes(Block::A2, 1)),
    (State(2, 2, 2, 0), Step::Votes(Block::A3, 2)),
    (State(3, 3, 3, 1), Step::Holds(Block::W4)),
    (State(3, 3, 3, 1), Step::TimesOut(9)),
    (State(3, 3, 9, 1), Step::Holds(Block::X5)),
    (State(3, 3, 9, 1), Step::Raises(Block::X6)),
];

const AFTER_FIRST_STAY: State = State(4, 3, 9, 4);

// A restart forgets the timeout, and not the lock.
const SECOND_STAY: [(State, Step); 1] = [(State(4, 0, 3, 4), Step::Holds(Block::W4))];

const AFTER_SECOND_STAY: State = State(4, 0, 3, 4);

fn is_wanted(act: &Answer, step: Step) -> bool {
    match (act, step) {
        (Answer::Voted(receipt), Step::Votes(_, number)) => receipt.number == number,
        (Answer::Raised, Step::Raises(_)) | (Answer::Held, Step::Holds(_)) => true,
        _ => false,
    }
}

// No block of the run commits another.
fn judged(reply: &Result<Reply, DeskError>, step: Step) -> Outcome {
    match reply {
        Ok(reply) => Outcome::ample_if(reply.committed.is_none() && is_wanted(&reply.act, step)),
        Err(DeskError::Memory) => Outcome::Memory,
        Err(DeskError::Device) => Outcome::Device,
        Err(_) => Outcome::Wrong,
    }
}

fn take<N: DeskNaming, R: Wait + AllocGlobal>(
    rt: &R,
    desk: &Desk<N, MemoryDisk>,
    session: &mut Session<N>,
    committee: &CommitteeView,
    step: Step,
) -> Outcome
    requires { committee.now ≡ N.committee }
{
    let block = match step {
        Step::Votes(block, _) | Step::Raises(block) | Step::Holds(block) => block,
        Step::TimesOut(view) => return Outcome::ample_if(desk.timeout(rt, view).is_ok()),
    };
    match checked(rt.alloc(), committee, block) {
        Ok(block) => judged(&desk.deliver(rt, session, block), step),
        Err(outcome) => outcome,
    }
}

// Takes a step, and again where memory was refused: then that has to come to what it says.
fn take_twice<N: DeskNaming, R: Wait + AllocGlobal>(
    rt: &R,
    desk: &Desk<N, MemoryDisk>,
    session: &mut Session<N>,
    committee: &CommitteeView,
    step: Step,
    after: After,
) -> Outcome
    requires { committee.now ≡ N.committee }
{
    match (take(rt, desk, session, committee, step), after) {
        (Outcome::Memory, After::Again) => {
            Outcome::Memory.if_so(take(rt, desk, session, committee, step) == Outcome::Ample)
        }
        (outcome, _) => outcome,
    }
}

// How many steps were taken, and what came of them and of one more.
#[derive(Clone, Copy)]
struct Taken {
    steps: usize,
    outcome: Outcome,
}

fn take_all<N: DeskNaming, R: Wait + AllocGlobal>(
    rt: &R,
    desk: &Desk<N, MemoryDisk>,
    session: &mut Session<N>,
    committee: &CommitteeView,
    steps: &[(State, Step)],
    after: After,
) -> Taken
    requires { committee.now ≡ N.committee }
{
    let mut outcome = Outcome::Ample;
    for (k, (_, step)) in steps.iter().enumerate() {
        let next = take_twice(rt, desk, session, committee, *step, after);
        outcome = outcome.and(next);
        match (next, after) {
            (Outcome::Ample, _) | (Outcome::Memory, After::Again) => {}
            _ => return Taken { steps: k, outcome },
        }
    }
    Taken {
        steps: steps.len(),
        outcome,
    }
}

// What a stay at a desk leaves.
#[derive(Drop)]
struct Left {
    closed: Closed<MemoryDisk>,
    taken: Taken,
    // Whether the desk was stopped when it was closed.
    stopped: bool,
}

// Why there was no stay.
#[derive(Drop)]
enum NoStay {
    // The desk could not be opened, as memory was refused.
    NotOpened(Parts<MemoryDisk>),
    Ended(Outcome),
}

// A desk is opened with one session, takes the steps, and is closed, for which one session asks for no memory.
fn stays<N: DeskNaming, R: Wait + AllocGlobal>(
    rt: &R,
    blank: Blank,
    committee: &CommitteeView,
    parts: Parts<MemoryDisk>,
    steps: &[(State, Step)],
    after: After,
) -> Result<Left, NoStay>
    requires name { blank.name ≡ N.name }
    requires ledger { (blank.parts ≡ N.parts) × (N.parts ≡ 1) }
    requires committee { committee.now ≡ N.committee }
    requires replica { 0 ≡ N.replica }
    requires opening { parts.log.steps ≡ N.opening }
{
    let alloc = rt.alloc();
    let (desk, mut sessions) = match Desk::<N, MemoryDisk>::start(
        alloc, blank, committee, 0, parts, 1,
    ) {
        Ok(started) => started,
        Err((StartError::Memory, parts)) => return Err(NoStay::NotOpened(parts)),
        Err(_) => return Err(NoStay::Ended(Outcome::Wrong)),
    };
    let taken = take_all(rt, &desk, &mut sessions[0], committee, steps, after);
    let stopped = desk.timeout(rt, 0).is_err();
    match desk.close(alloc, sessions) {
        Ok(closed) => Ok(Left {
            closed,
            taken,
            stopped,
        }),
        Err(_) => Err(NoStay::Ended(Outcome::Wrong)),
    }
}

// One stay of the replica at a desk of its own.
fn stay<R: Wait + AllocGlobal>(
    rt: &R,
    parts: Parts<MemoryDisk>,
    steps: &[(State, Step)],
    after: After,
) -> Result<Left, NoStay> {
    let Some(committee) = committee() else {
        return Err(NoStay::Ended(Outcome::Wrong));
    };
    stays::<Brand, R>(rt, Blank::new(1), &committee, parts, steps, after)
}

// One stay, for which the desk is opened again where memory was refused.
fn stay_once<R: Wait + AllocGlobal>(
    rt: &R,
    parts: Parts<MemoryDisk>,
    steps: &[(State, Step)],
    after: After,
) -> Result<Left, Outcome> {
    let parts = match stay(rt, parts, steps, after) {
        Ok(left) => return Ok(left),
        Err(NoStay::Ended(outcome)) => return Err(outcome),
        Err(NoStay::NotOpened(parts)) => parts,
    };
    if matches!(after, After::Leave) {
        return Err(Outcome::Memory.if_so(parts.log.count() == 0));
    }
    match stay(rt, parts, steps, after) {
        Ok(mut left) => {
            left.taken.outcome = Outcome::Memory.if_so(left.taken.outcome == Outcome::Ample);
            Ok(left)
        }
        Err(_) => Err(Outcome::Wrong),
    }
}

// Whether core, log and receipts are as in this state.
fn is_left(closed: &Closed<MemoryDisk>, state: State) -> bool {
    let State(entries, receipts, vote_view, lock_view) = state;
    are_numbered(&closed.receipts)
        && closed.parts.log.count() == entries
        && closed.receipts.len() == receipts
        && closed.core.vote_view() == vote_view
        && closed.core.lock().view == lock_view
}

// Whether the log was left with so many entries of the run, or one more.
fn is_found<R: AllocGlobal>(rt: &R, parts: Parts<MemoryDisk>, entries: usize) -> bool {
    match (
        committee(),
        recovered_log(rt.alloc(), parts.log.into_disk()),
    ) {
        (Some(committee), Some((log, Outcome::Ample))) => {
            matches!(log.count().checked_sub(entries), Some(0 | 1))
                && are_of_the_run(&committee, log.steps())
        }
        _ => false,
    }
}

// What came of a stay that was not to its end: it leaves the state before the step that was not taken.
fn cut_short<R: AllocGlobal>(rt: &R, left: Left, steps: &[(State, Step)], after: After) -> Outcome {
    let Left {
        closed,
        taken,
        stopped,
    } = left;
    let Some((before, _)) = steps.get(taken.steps) else {
        return Outcome::Wrong;
    };
    let is_device = taken.outcome == Outcome::Device;
    let holds = is_left(&closed, *before) && stopped == is_device;
    let is_found = match after {
        After::Again if is_device => is_found(rt, closed.parts, before.0),
        _ => true,
    };
    taken.outcome.if_so(holds && is_found)
}

// One stay to its end, which leaves this state: the parts, and what came of it.
fn whole_stay<R: Wait + AllocGlobal>(
    rt: &R,
    parts: Parts<MemoryDisk>,
    steps: &[(State, Step)],
    then: State,
    after: After,
) -> Result<(Parts<MemoryDisk>, Outcome), Outcome> {
    let left = stay_once(rt, parts, steps, after)?;
    if left.taken.steps < steps.len() {
        return Err(cut_short(rt, left, steps, after));
    }
    let Left {
        closed,
        taken,
        stopped,
    } = left;
    let holds = is_left(&closed, then) && !stopped;
    let Closed { parts, .. } = closed;
    Ok((parts, taken.outcome.if_so(holds)))
}

// What came of both stays, and what they left. A delivery that is refused memory may use up an index: then the votes behind it
// have other signatures.
fn are_stored(parts: Parts<MemoryDisk>, indices: u32, first: Outcome) -> bool {
    let Some(committee) = committee() else {
        return false;
    };
    are_of_the_run(&committee, parts.log.steps())
        && match INDICES_LEFT.checked_sub(indices) {
            Some(0) => has_digest(parts.log.into_disk().bytes(), LOG),
            Some(1) => first == Outcome::Memory,
            _ => false,
        }
}

// The second stay, behind a restart, after a first one that came to this.
fn second_stay<R: Wait + AllocGlobal>(
    rt: &R,
    parts: Parts<MemoryDisk>,
    first: Outcome,
) -> Result<Outcome, Outcome> {
    let indices = parts.index.left();
    let Some((parts, found)) = restarted(rt.alloc(), parts) else {
        return Err(Outcome::Wrong);
    };
    let (parts, second) = whole_stay(rt, parts, &SECOND_STAY, AFTER_SECOND_STAY, After::Again)?;
    Ok(
        first
            .and(found)
            .and(second)
            .if_so(are_stored(parts, indices, first)),
    )
}

fn both_stays<R: Wait + AllocGlobal>(rt: &R, parts: Parts<MemoryDisk>) -> Outcome {
    match whole_stay(rt, parts, &FIRST_STAY, AFTER_FIRST_STAY, After::Again) {
        Ok((parts, first)) => match second_stay(rt, parts, first) {
            Ok(outcome) | Err(outcome) => outcome,
        },
        Err(outcome) => outcome,
    }
}

// The first stay alone, which is left at the first call that is refused memory.
fn one_stay<R: Wait + AllocGlobal>(rt: &R, parts: Parts<MemoryDisk>) -> Outcome {
    match whole_stay(rt, parts, &FIRST_STAY, AFTER_FIRST_STAY, After::Leave) {
        Ok((_, outcome)) | Err(outcome) => outcome,
    }
}

/// The worked run. Where each call that is refused memory is made again, a desk whose disk fails is closed, and its log
/// recovered; else it is the first stay alone.
pub(crate) fn run_stays<R: Wait + Threads + Sync + AllocGlobal, W: Sink>(
    rt: &R,
    after: After,
    stage: &mut W,
) -> Outcome {
    let Some(parts) = new_parts(rt) else {
        return Outcome::NotSetUp;
    };
    announce(stage);
    match after {
        After::Again => both_stays(rt, parts),
        After::Leave => one_stay(rt, parts),
    }
}
