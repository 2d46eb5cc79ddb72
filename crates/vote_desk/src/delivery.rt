//! One delivery, and one timeout.

ghost use Rattle.std.specs.Prelude.{ℕ, ◌≡◌, ◌≢◌, IfErr, IfOk, IfSome, MatchResult, OnErr, OnOk};
ghost use Rattle.blocks.specs.Replica.{Takes, Timeout};
ghost use Rattle.vote_desk.specs.Deliveries.{BoundsIndices, IsDelivered, IsGoodReply, IsLeftAfter, IsLike, IsTold, RunsOn, SurvivesCrash, act_of};
ghost use Rattle.vote_desk.specs.DeskRefusals.{IsDeskRefusal, IsRunning, IsStopped, MayDo};
ghost use Rattle.vote_desk.specs.Desks.{timed_out_at};
ghost use Rattle.vote_desk.specs.Receipts.{StandsIn};
ghost use Rattle.vote_desk.specs.SomeDesk.{RefusesUnvoted};

use crate::desk_error::DeskError;
use crate::naming::DeskNaming;
use crate::reply::{Answer, Reply};
use crate::session::Session;
use crate::state::DeskState;
use certificates::CheckedBlock;
use replica_core::Act;
use stable_log::Disk;

/// Delivers a block to a replica that stands behind no lock, and says all of what that does: one event of the voting rule.
/// The replica votes where it may, else raises its lock where it may, else holds the block. A vote and a raised lock are
/// stored, and durable, before they are answered. The block must have been checked with the committee that the desk was
/// opened with.
///
/// After `Device` the desk is stopped, and a crash may leave the entry or not: close it, and recover log and index store.
/// Any other refusal leaves core, log and receipts as they are; `Memory` may use up one index. In this order: `Memory`,
/// `Stopped`, `Core`, `LogFull`, `KeySpent`, `Device`.
pub fn deliver_on<N: DeskNaming, D: Disk>(
    state: &mut DeskState<N, D>,
    session: &mut Session<N>,
    block: CheckedBlock,
) -> Result<Reply, DeskError>
    requires { block.committee ≡ N.committee }

    // One event of the run, on the block's chain in the core, as the core plans it.
    ensures ok { IfOk result (IsDelivered D.bytes N.committee N.replica state.old state.new
        block.entry) }
    ensures exact { IfOk result (λ reply. MayDo state.old block.entry.header (act_of reply.act)) }
    ensures reply { IfOk result (IsGoodReply N.committee N.replica block.entry.header) }
    ensures durable { OnOk result (RunsOn D.Disk state.old state.new) }

    // Just the answer's receipt is added to the session, and its share of the book moves with it.
    ensures session { MatchResult result (λ reply.
        IsTold session.old.receipts.items session.new.receipts.items session.old.share.amount
        session.new.share.amount reply.act) (λ _. IsTold session.old.receipts.items
        session.new.receipts.items session.old.share.amount session.new.share.amount Answer.Held) }

    // That receipt is of the list, which only grows.
    ensures stands { IfOk result (λ reply. StandsIn state.new.log.steps reply.act) }

    // A crash at any moment of the call leaves the list from before it, or that with the entry of the planned event.
    ensures any_moment { IfSome (D.bytes state.old.log.disk) (λ _.
        SurvivesCrash D.Disk N.committee N.replica N.opening state.old state.new block.entry) }
    ensures like { IsLike D.bytes state.old state.new }

    // After a refusal core, list and count are as before; `Device` comes exactly where a disk failed, and stops the desk.
    ensures first_refusal { IfErr result (IsDeskRefusal state.old block.entry.header) }
    ensures err { IfErr result (IsLeftAfter D.failed state.old state.new) }

    // An index is used up by a vote and, where memory is refused or a disk fails, by what would have been one.
    ensures undrawn { IfErr result (λ e. e ≢ DeskError.Memory → e ≢ DeskError.Device →
        state.new.indices ≡ state.old.indices) }
    ensures not_again { IfSome (D.bytes state.old.indices.disk) (λ _.
        BoundsIndices D.Disk state.old.indices state.new.indices) }
{
    // For the proof: each image that a crash leaves is found after the stay, and bounds the indices.
    state.crash_is_found(&block);
    state.indices_are_bounded();
    let planned = state.plan(block)?;
    let committed = planned.plan.committed;
    match planned.plan.act {
        Act::Vote => {
            let receipt = state.vote(session, planned)?;
            return Ok(Reply {
                act: Answer::Voted(receipt),
                committed,
            });
        }
        Act::Raise => {
            state.raise(planned)?;
            return Ok(Reply {
                act: Answer::Raised,
                committed,
            });
        }
        Act::Pass => {
            state.pass(planned.plan);
            return Ok(Reply {
                act: Answer::Held,
                committed,
            });
        }
    }
}

/// Gives up on all views up to this one at a replica that stands behind no lock: the vote view rises to it where it is
/// lower. Nothing is stored, and a restart forgets it. Refused only by `Stopped`, which changes nothing.
pub fn timeout_on<N: DeskNaming, D: Disk>(
    state: &mut DeskState<N, D>,
    view: u64,
) -> Result<(), DeskError>
    ensures ok { OnOk result (Takes state.old.core.genesis state.old.core.state
        (Timeout view) state.new.core.state) }
    ensures same { OnOk result (state.new ≡ timed_out_at state.old view) }
    ensures exact { OnOk result (IsRunning state.old) }
    ensures err { IfErr result (λ e. (e ≡ DeskError.Stopped) × IsStopped state.old
        × (state.new ≡ state.old)) }
{
    if state.stopped() {
        return Err(DeskError::Stopped);
    }
    state.time_out(view);
    Ok(())
}

/// Gives up on all views up to the block's and delivers the block, at a replica that stands behind no lock: so it is raised
/// or held, and never voted for. Refused as `deliver_on` refuses, and left so, but that the timeout is taken; `Stopped`
/// changes nothing.
pub fn deliver_unvoted_on<N: DeskNaming, D: Disk>(
    state: &mut DeskState<N, D>,
    session: &mut Session<N>,
    block: CheckedBlock,
) -> Result<Reply, DeskError>
    requires { block.committee ≡ N.committee }

    // The event of a delivery to the desk as the timeout leaves it.
    ensures ok { let later = timed_out_at state.old block.entry.header.view in
        IfOk result (IsDelivered D.bytes N.committee N.replica later state.new block.entry) }
    ensures exact { let later = timed_out_at state.old block.entry.header.view in
        IfOk result (λ reply. MayDo later block.entry.header (act_of reply.act)) }
    ensures unvoted { IfOk result (λ reply. act_of reply.act ≢ Act.Vote) }
    ensures reply { IfOk result (IsGoodReply N.committee N.replica block.entry.header) }
    ensures durable { OnOk result
        (RunsOn D.Disk (timed_out_at state.old block.entry.header.view) state.new) }
    ensures session { IsTold session.old.receipts.items session.new.receipts.items
        session.old.share.amount session.new.share.amount Answer.Held }

    // A crash at any moment of the call leaves the list from before it, or that with the entry of the planned event.
    ensures any_moment { let later = timed_out_at state.old block.entry.header.view in
        IsRunning state.old → IfSome (D.bytes state.old.log.disk) (λ _.
        SurvivesCrash D.Disk N.committee N.replica N.opening later state.new block.entry) }
    ensures like { IsLike D.bytes (timed_out_at state.old block.entry.header.view) state.new }
    ensures refused { IfErr result (λ e.
        RefusesUnvoted D.Disk block.entry.header e state.old state.new) }
    ensures undrawn { IfErr result (λ e. e ≢ DeskError.Memory → e ≢ DeskError.Device →
        state.new.indices ≡ state.old.indices) }
    ensures not_again { IfSome (D.bytes state.old.indices.disk) (λ _.
        BoundsIndices D.Disk state.old.indices state.new.indices) }
{
    // For the proof: as long as no index is drawn none can come twice.
    state.indices_are_bounded();
    timeout_on(state, block.header().view)?;
    deliver_on(state, session, block)
}
