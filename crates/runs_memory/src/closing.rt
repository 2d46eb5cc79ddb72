//! Closing a desk of three sessions, each of which holds receipts, and the same where one session is kept back.

ghost use Rattle.std.specs.Prelude.{◌≡◌};

use crate::outcome::Outcome;
use crate::replica::{Block, are_numbered, checked, committee, new_parts};
use crate::stage::announce;
use base_streams::Sink;
use blocks::CommitteeView;
use stable_log::MemoryDisk;
use std::marker::Brand;
use std::sync::Wait;
use std::sync::ledger::Blank;
use std::thread::Threads;
use vote_desk::{Answer, Closed, Desk, DeskError, DeskNaming, Parts, Session};

const SESSIONS: u8 = 3;

/// How many votes each session gets, so many that their list grows where all are gathered in one.
const VOTES: u8 = 6;

const ALL_VOTES: usize = 18;

/// How many indices of the key are left after them.
const INDICES_LEFT: u32 = 1_006;

/// Which sessions are handed in.
#[derive(Clone, Copy)]
pub(crate) enum HandedIn {
    All,
    AllButOne,
}

// What a call of `close` answers.
type Answered = Result<Closed<MemoryDisk>, (DeskError, Parts<MemoryDisk>)>;

// Whether the block of this view on genesis is voted for.
fn votes<N: DeskNaming, R: Wait + AllocGlobal>(
    rt: &R,
    desk: &Desk<N, MemoryDisk>,
    session: &mut Session<N>,
    committee: &CommitteeView,
    view: u64,
) -> bool
    requires { committee.now ≡ N.committee }
{
    let Ok(block) = checked(rt.alloc(), committee, Block::OnGenesis(view)) else {
        return false;
    };
    match desk.deliver(rt, session, block) {
        Ok(reply) => matches!(reply.act, Answer::Voted(_)),
        Err(_) => false,
    }
}

// Whether the sessions get all votes, in turn.
fn all_vote<N: DeskNaming, R: Wait + AllocGlobal>(
    rt: &R,
    desk: &Desk<N, MemoryDisk>,
    sessions: &mut [Session<N>],
    committee: &CommitteeView,
) -> bool
    requires { committee.now ≡ N.committee }
{
    let mut view = 0_u64;
    for _ in 0..VOTES {
        for session in sessions.iter_mut() {
            view = view.saturating_add(1);
            if !votes(rt, desk, session, committee, view) {
                return false;
            }
        }
    }
    true
}

// A desk whose sessions get all votes is closed. None where that could not be set up.
fn closes<N: DeskNaming, R: Wait + AllocGlobal, W: Sink>(
    rt: &R,
    blank: Blank,
    committee: &CommitteeView,
    parts: Parts<MemoryDisk>,
    handed_in: HandedIn,
    stage: &mut W,
) -> Option<Answered>
    requires name { blank.name ≡ N.name }
    requires ledger { (blank.parts ≡ N.parts) × (N.parts ≡ 3) }
    requires committee { committee.now ≡ N.committee }
    requires replica { 0 ≡ N.replica }
    requires opening { parts.log.steps ≡ N.opening }
{
    let alloc = rt.alloc();
    let started = Desk::<N, MemoryDisk>::start(alloc, blank, committee, 0, parts, SESSIONS);
    let (desk, mut sessions) = started.ok()?;
    if !all_vote(rt, &desk, &mut sessions, committee) {
        return None;
    }
    let _kept = match handed_in {
        HandedIn::All => None,
        HandedIn::AllButOne => sessions.pop(),
    };
    announce(stage);
    Some(desk.close(alloc, sessions))
}

fn has_all_votes(parts: &Parts<MemoryDisk>) -> bool {
    parts.log.count() == ALL_VOTES && parts.index.left() == INDICES_LEFT
}

fn has_all_receipts(closed: &Closed<MemoryDisk>) -> bool {
    closed.receipts.len() == ALL_VOTES
        && has_all_votes(&closed.parts)
        && are_numbered(&closed.receipts)
}

fn judged(answer: &Answered, handed_in: HandedIn) -> Outcome {
    match (answer, handed_in) {
        (Ok(closed), HandedIn::All) => Outcome::ample_if(has_all_receipts(closed)),
        (Err((DeskError::Memory, parts)), _) => Outcome::Memory.if_so(has_all_votes(parts)),
        (Err((DeskError::ReceiptMismatch, parts)), HandedIn::AllButOne) => {
            Outcome::ample_if(has_all_votes(parts))
        }
        _ => Outcome::Wrong,
    }
}

/// `close` of a desk with receipts in three sessions. Where it is refused, the parts that it hands back have all votes.
pub(crate) fn close_desk<R: Wait + Threads + Sync + AllocGlobal, W: Sink>(
    rt: &R,
    handed_in: HandedIn,
    stage: &mut W,
) -> Outcome {
    let (Some(committee), Some(parts)) = (committee(), new_parts(rt)) else {
        return Outcome::NotSetUp;
    };
    let blank = Blank::new(u64::from(SESSIONS));
    let Some(answer) = closes::<Brand, R, W>(rt, blank, &committee, parts, handed_in, stage) else {
        return Outcome::NotSetUp;
    };
    judged(&answer, handed_in)
}
