//! Signing a statement of next keys.

ghost use Rattle.std.specs.Prelude.{◌≡◌, IfErr, IfOk, IfSome, OnOk};
ghost use Rattle.vote_desk.specs.Deliveries.{BoundsIndices, RunsOn};
ghost use Rattle.vote_desk.specs.Endorsing.{IsEndorseRefusal, IsEndorsed, IsLeftUnsigned, IsNoVote, MayEndorse};
ghost use Rattle.vote_desk.specs.Holding.{LeavesListOnly};

use crate::desk_error::DeskError;
use crate::naming::DeskNaming;
use crate::seal::Seal;
use crate::state::DeskState;
use handover_keys::{NextKeysView, no_statement_is_a_vote};
use stable_log::Disk;

/// Signs a statement of next keys with a key of the replica, at a replica that stands behind no lock: under the next index, which
/// no other call gives again. This releases no vote, and core and log stay as they are. Which chain, replica and keys the statement
/// names is not looked at. `handover_keys::write_endorsement` puts statement and seal together.
///
/// No refusal uses up an index, and any but `Device` leaves the desk as it is. After `Device` the desk is stopped: close it, and
/// recover log and index store. In this order: `Stopped`, `KeySpent`, `Memory`, `Device`.
pub fn endorse_on<N: DeskNaming, D: Disk>(
    state: &mut DeskState<N, D>,
    statement: &NextKeysView,
) -> Result<Seal, DeskError>
    // It verifies under the replica's key of the one index that is drawn; all else is as before.
    ensures ok { IfOk result (λ seal.
        IsEndorsed N.committee N.replica statement.now seal state.old state.new) }
    ensures exact { OnOk result (MayEndorse state.old) }

    // What is signed is nothing that a vote signs, whatever its chain, view and id.
    ensures no_vote { IsNoVote statement.now }
    ensures durable { OnOk result (RunsOn D.Disk state.old state.new) }

    // A crash at any moment of the call leaves the list, and no index is given twice.
    ensures any_moment { IfSome (D.bytes state.old.log.disk) (λ _.
        LeavesListOnly D.Disk N.committee N.opening state.old state.new) }
    ensures not_again { IfSome (D.bytes state.old.indices.disk) (λ _.
        BoundsIndices D.Disk state.old.indices state.new.indices) }
    ensures first_refusal { IfErr result (IsEndorseRefusal state.old) }
    ensures err { IfErr result (IsLeftUnsigned D.failed state.old state.new) }
{
    // For the proof: no statement is a vote; what the desk keeps; and a crash leaves the list.
    no_statement_is_a_vote();
    let _core = state.core();
    state.list_is_found();
    state.endorse(statement.bytes())
}
