//! Storing what a plan asks for.

ghost use Rattle.stable_log.specs.Devices.{AtAnyMoment};
ghost use Rattle.std.specs.Prelude.{◌≡◌, ◌≢◌, ◌<◌, ◌++◌, ◌∷◌, [], List, ℕ, Some, true, false, length, IfErr, IfSome, IsErrOf, IsSome, ◌↔◌, OnErr, OnOk};
ghost use Rattle.std.specs.Option.{ForSome};
ghost use Rattle.blocks.specs.Headers.{header_id};
ghost use Rattle.blocks.specs.Replay.{IsLegal};
ghost use Rattle.certificates.specs.Assembling.{IsVoteFor};
ghost use Rattle.replica_core.specs.Plans.{HoldsAlso, IsPlan, TakesEvent};
ghost use Rattle.stable_log.specs.Crash.{LeavesOnly};
ghost use Rattle.base_streams.specs.Counting.{HasFailed};
ghost use Rattle.base_wire.specs.declared.limits.TheConstants.{MOST_ENTRIES};
ghost use Rattle.log_format.specs.EntryText.{IsEntry, own_of, stored_in};
ghost use Rattle.vote_log.specs.Logs.{AddsEntry, IsLogBeforeOrAfter, LeavesEntries};
ghost use Rattle.vote_desk.specs.DeskRefusals.{HasRoomTo, IsRoomRefusal, IsStorageRefusal};
ghost use Rattle.vote_desk.specs.Deliveries.{entry_of};

use crate::desk_error::DeskError;
use crate::planned_block::PlannedBlock;
use certificates::SignedVote;
use key_index_store::IndexStore;
use replica_core::{Act, Core};
use stable_log::Disk;
use vote_log::{Entry, MOST_ENTRIES, VoteLog};

/// Checks that there is what an act needs: room in the log for what is stored, and an index for a vote. In this order:
/// `LogFull`, `KeySpent`.
pub(crate) fn check_room<D: Disk>(
    log: &VoteLog<D>,
    indices: &IndexStore<D>,
    act: Act,
) -> Result<(), DeskError>
    requires { indices.now.stopped ≡ false }
    ensures ok { OnOk result (HasRoomTo log.now indices.now act) }
    ensures first_refusal { IfErr result (IsRoomRefusal log.now indices.now act) }
{
    if act == Act::Pass {
        return Ok(());
    }
    if log.count() >= MOST_ENTRIES {
        return Err(DeskError::LogFull);
    }
    if act == Act::Raise {
        return Ok(());
    }
    if indices.left() == 0 {
        return Err(DeskError::KeySpent);
    }
    Ok(())
}

/// Stores the entry of a planned block, with the replica's own vote if there is one, and only then does what was planned.
/// After `Device` the log is stopped and the core as it was.
pub(crate) fn store<D: Disk>(
    core: &mut Core,
    log: &mut VoteLog<D>,
    planned: PlannedBlock,
    vote: Option<SignedVote>,
) -> Result<(), DeskError>
    requires plan { IsPlan core.old planned.plan }
    requires on_block { ForSome vote
        (IsVoteFor planned.block.header.view (header_id planned.block.header)) }
    requires running { log.old.stopped ≡ false }
    requires room { length log.old.steps < MOST_ENTRIES }
    requires legal { IsLegal log.old.genesis
        (log.old.steps ++ stored_in (entry_of planned (own_of vote)) ∷ []) }

    ensures adds { OnOk result
        (AddsEntry D.bytes log.old log.new (entry_of planned.entry (own_of vote))) }
    ensures is_entry { IsEntry (entry_of planned.entry (own_of vote)) }
    ensures running { OnOk result (log.new.stopped ≡ false) }
    ensures genesis { log.new.genesis ≡ log.old.genesis }
    ensures durable { OnOk result (IfSome (D.bytes log.old.disk) (λ _.
        LeavesEntries (D.images log.new.disk) (log.old.entries
        ++ entry_of planned.entry (own_of vote) ∷ []))) }
    ensures tells { IsSome (D.bytes log.new.disk) ↔ IsSome (D.bytes log.old.disk) }
    ensures no_failure { OnOk result (D.failed log.new.disk ≡ D.failed log.old.disk) }
    ensures headers { OnOk result
        (HoldsAlso core.old.headers core.new.headers planned.entry.plan.block) }
    ensures same_genesis { core.new.genesis ≡ core.old.genesis }
    ensures state { OnOk result (TakesEvent core.old planned.entry.plan core.new.state) }

    ensures any_moment { IfSome (D.bytes log.old.disk) (λ _.
        AtAnyMoment D.Disk log.old.disk log.new.disk
        (IsLogBeforeOrAfter log.old.entries (entry_of planned.entry (own_of vote)))) }

    ensures first_refusal { IfErr result IsStorageRefusal }
    ensures core { OnErr result (core.new ≡ core.old) }
    ensures device { IsErrOf result DeskError.Device → (log.new.entries ≡ log.old.entries)
        × (log.new.steps ≡ log.old.steps) × (log.new.stopped ≡ true) }
    ensures err { IfErr result (λ e. e ≢ DeskError.Device → log.new ≡ log.old) }
    ensures cause { IsErrOf result DeskError.Device →
        HasFailed (D.failed log.old.disk) (D.failed log.new.disk) }
{
    let PlannedBlock { block, plan } = planned;
    let entry = Entry::of(block, plan.parent, vote);
    log.append(&entry)?;
    core.apply(plan);
    Ok(())
}
