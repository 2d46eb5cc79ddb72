//! Holding a block, and no more.

ghost use Rattle.std.specs.Prelude.{◌≡◌, IfErr, IfOk, IfSome, OnErr, OnOk};
ghost use Rattle.vote_desk.specs.Deliveries.{BoundsIndices, IsGoodReply, RunsOn};
ghost use Rattle.vote_desk.specs.Holding.{IsHeldOnly, IsHoldRefusal, IsUnmoved, MayHold, LeavesListOnly};

use crate::desk_error::DeskError;
use crate::naming::DeskNaming;
use crate::reply::{Answer, Reply};
use crate::state::DeskState;
use certificates::CheckedBlock;
use stable_log::Disk;

/// Holds a block at a replica that stands behind no lock, and does no more, whatever the replica might do: it neither votes nor
/// raises its lock, and passing a block by is always allowed. So a replica whose log is full, which cannot store a raised lock,
/// still follows the chain and tells what a block commits. Nothing is stored, no index is drawn, and the answer is `Held`. The
/// block must have been checked with the committee that the desk was opened with.
///
/// A refusal leaves the desk as it is. In this order: `Stopped`, `Core`, `Memory`.
pub fn hold_on<N: DeskNaming, D: Disk>(
    state: &mut DeskState<N, D>,
    block: CheckedBlock,
) -> Result<Reply, DeskError>
    requires { block.committee ≡ N.committee }

    // One event of the run, which passes the block by, on its chain in the core; all else is as before.
    ensures ok { IfOk result (λ reply. IsHeldOnly block.entry.header reply state.old state.new) }
    ensures exact { OnOk result (MayHold state.old block.entry.header) }
    ensures reply { IfOk result (IsGoodReply N.committee N.replica block.entry.header) }
    ensures durable { OnOk result (RunsOn D.Disk state.old state.new) }

    // A crash at any moment of the call leaves the list.
    ensures any_moment { IfSome (D.bytes state.old.log.disk) (λ _.
        LeavesListOnly D.Disk N.committee N.opening state.old state.new) }
    ensures first_refusal { IfErr result (IsHoldRefusal state.old block.entry.header) }
    ensures err { OnErr result (IsUnmoved state.old state.new) }
    ensures not_again { IfSome (D.bytes state.old.indices.disk) (λ _.
        BoundsIndices D.Disk state.old.indices state.new.indices) }
{
    // For the proof: each image that a crash leaves is found after the stay, and bounds the indices.
    state.list_is_found();
    state.indices_are_bounded();
    let planned = state.admit(block)?;
    let committed = planned.plan.committed;
    state.hold(&planned.plan);
    Ok(Reply {
        act: Answer::Held,
        committed,
    })
}
