//! What a desk tells and does for a replica that answers at once: status, votes and frames are read while it is open, and
//! blocks are delivered unvoted.

ghost use Rattle.std.specs.Prelude.{◌≡◌};

use crate::limits::parts_with_votes;
use crate::replicas::{Block, Step, checked_by, id_of_a1, new_keys, new_parts, stay};
use blocks::{CommitteeView, Id};
use certificates::LmsVerifier;
use stable_log::MemoryDisk;
use std::alloc::Global;
use std::process::Abort;
use std::sync::Wait;
use vote_desk::{Answer, Desk, DeskNaming, DeskStatus, Left, Receipt, Session};
use vote_log::{Frames, MemorySink, Status};

/// Whether a block that is delivered unvoted is held, and commits nothing.
pub(crate) fn holds_unvoted<N: DeskNaming, R: Wait + AllocGlobal>(
    rt: &R,
    desk: &Desk<N, MemoryDisk>,
    session: &mut Session<N>,
    committee: &CommitteeView,
    block: Block,
) -> bool
    requires { committee.now ≡ N.committee }
{
    let Some(block) = checked_by(rt.alloc(), &LmsVerifier, committee, block) else {
        return false;
    };
    match desk.deliver_unvoted(rt, session, block) {
        Ok(reply) => reply.act == Answer::Held && reply.committed.is_none(),
        Err(_) => false,
    }
}

/// Whether a block that is held only is held, and commits this block.
pub(crate) fn only_holds<N: DeskNaming, R: Wait + AllocGlobal>(
    rt: &R,
    desk: &Desk<N, MemoryDisk>,
    committee: &CommitteeView,
    block: Block,
    committed: Option<Id>,
) -> bool
    requires { committee.now ≡ N.committee }
{
    let Some(block) = checked_by(rt.alloc(), &LmsVerifier, committee, block) else {
        return false;
    };
    match desk.hold(rt, block) {
        Ok(reply) => reply.act == Answer::Held && reply.committed == committed,
        Err(_) => false,
    }
}

/// Whether a desk is at the view 2 and locked on A1.
pub(crate) fn is_locked_on_a1(status: &DeskStatus) -> bool {
    status.vote_view == 2 && status.lock.view == 1 && Some(status.lock.id) == id_of_a1()
}

// Whether a desk is at the view 2 that voted in view 1 and is locked on genesis, and holds two blocks.
fn is_at_view_2(status: &DeskStatus, genesis: &Id) -> bool {
    status.vote_view == 2
        && status.stored_vote_view == 1
        && status.lock.view == 0
        && status.lock.id == *genesis
        && status.headers == 3
        && status.entries == 1
        && status.left == NEXT_LEFT
        && !status.stopped
}

// What is left behind one vote.
const NEXT_LEFT: Left = Left {
    indices: 1023,
    entries: 4095,
};

// Whether the log has the vote of the one receipt in view 1, and none in view 2.
fn has_vote<N: DeskNaming, R: Wait>(
    rt: &R,
    desk: &Desk<N, MemoryDisk>,
    receipts: &[Receipt],
) -> bool {
    match receipts {
        [receipt] => desk.vote_in(rt, 1) == Ok(Some(*receipt)) && desk.vote_in(rt, 2) == Ok(None),
        _ => false,
    }
}

// Whether A1 is held, and no block of another id.
fn holds_a1<N: DeskNaming, R: Wait>(rt: &R, desk: &Desk<N, MemoryDisk>) -> bool {
    match id_of_a1() {
        Some(a1) => desk.holds(rt, &a1) && !desk.holds(rt, &[0; 32]),
        None => false,
    }
}

/// Whether a desk tells of one vote, for A1 in view 1, and of the view 2 that it gave up.
pub(crate) fn tells_of_a1<N: DeskNaming, R: Wait>(
    rt: &R,
    desk: &Desk<N, MemoryDisk>,
    session: &Session<N>,
    committee: &CommitteeView,
) -> bool {
    is_at_view_2(&desk.status(rt), &committee.genesis().id())
        && has_vote(rt, desk, session.receipts())
        && holds_a1(rt, desk)
}

// A1 is voted for, A2 is held unvoted, and so it is not voted for when it comes again.
const UNVOTED: [Step; 4] = [
    Step::Votes(Block::A1, 0),
    Step::HoldsUnvoted(Block::A2),
    Step::Holds(Block::A2),
    Step::TellsOfA1,
];

#[test]
fn an_unvoted_block_is_only_held(rt: HostRuntime) {
    stay(&rt, new_parts(&rt), &UNVOTED);
}

// Whether a stream reads back as so many frames.
fn has_frames(alloc: Global, stream: &[u8], count: u32) -> bool {
    match Frames::of(alloc, stream) {
        Ok(read) => read.status() == Status::Whole && read.frames().len() == count as usize,
        Err(_) => false,
    }
}

/// Whether an export from this entry on has so many frames.
pub(crate) fn exports<N: DeskNaming, R: Wait + AllocGlobal>(
    rt: &R,
    desk: &Desk<N, MemoryDisk>,
    first: u32,
    count: u32,
) -> bool {
    let mut copy = MemorySink::new(rt.alloc());
    desk.export(rt, first, u32::MAX, &mut copy) == Ok(count)
        && has_frames(rt.alloc(), copy.bytes(), count)
}

// One export has at most 64 frames; the next one goes on behind them.
#[test]
fn an_export_has_64_frames_at_the_most(rt: HostRuntime) {
    let mut trees = new_keys(&rt);
    for (votes, first, rest) in [(63, 63, 0), (64, 64, 0), (65, 64, 1)] {
        let parts = parts_with_votes(&rt, trees, votes);
        let steps = [Step::Exports(0, first), Step::Exports(64, rest)];
        trees = stay(&rt, parts, &steps).parts.trees;
    }
}
