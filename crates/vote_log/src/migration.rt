//! Carries a log from before votes named their keys over to the form of today. The old log is only read.

ghost use Rattle.std.specs.Prelude.{◌≡◌, ◌≢◌, ◌<◌, ◌⊎◌, ◌↔◌, ℕ, List, [], Some, false, length, IfErr, IfOk, IfSome, IsErrOf, IsSome, MatchResult, OnErr, OnOk};
ghost use Rattle.blocks.specs.Headers.{IsGenesis};
ghost use Rattle.blocks.specs.Replay.{IsLegal, IsLegalEntry, replay_entry};
ghost use Rattle.base_streams.specs.Counting.{HasFailed};
ghost use Rattle.stable_log.specs.Devices.{Untouched};
ghost use Rattle.log_format.specs.EntryText.{Entry as EntryValue, stored_in};
ghost use Rattle.vote_log.specs.Logs.{LeavesEntries, steps_of};
ghost use Rattle.vote_log.specs.Migrations.{AreCarriedOver, BlamesADisk, GivesOther, IsMigrateRefusal, IsOnlyRead, IsRunningLog, IsOldReadRefusal, IsOldStepsRefusal};
ghost use Rattle.vote_log.specs.OldEntries.{AreOldTexts, IsOldEntryAt, IsOldLog};

use crate::old_entry::read_old;
use crate::{Entry, LogError, VoteLog};
use blocks::{Header, NamedHeader};
use replica_core::Durable;
use stable_log::{Disk, Journal};
use std::alloc::Global;

// Entry k of a journal in the old form, which has to be legal where replay has left this; replay goes on by it.
fn next_entry<D: Disk>(
    alloc: Global,
    old: &mut Journal<D>,
    k: usize,
    durable: &mut Durable,
) -> Result<Entry, LogError>
    requires { (old.old.stopped ≡ false) × (k < length old.old.payloads) }
    ensures ok { IfOk result (λ e.
        IfSome (D.bytes old.old.disk) (λ _. IsOldEntryAt old.old.payloads k e)) }
    ensures legal { IfOk result (λ e. IsLegalEntry durable.old (stored_in e).voted e.block e.parent
        × (durable.new ≡ replay_entry durable.old (stored_in e).voted e.block e.parent)) }
    ensures same { (old.new.payloads ≡ old.old.payloads) × (old.new.stopped ≡ false)
        × Untouched D.Disk old.old.disk old.new.disk }
    ensures no_failure { OnOk result (D.failed old.new.disk ≡ D.failed old.old.disk) }
    ensures first_refusal { IfErr result
        (IsOldReadRefusal durable.old (D.bytes old.old.disk) old.old.payloads k) }
    ensures cause { IsErrOf result LogError.Device →
        HasFailed (D.failed old.old.disk) (D.failed old.new.disk) }
    ensures kept { IfErr result (λ e. e ≢ LogError.Device →
        D.failed old.new.disk ≡ D.failed old.old.disk) }
{
    let mut text = Vec::new(alloc);
    old.entry(k, &mut text)?;
    let Some(entry) = read_old(alloc, &text)? else {
        return Err(LogError::BadEntry(k));
    };
    let stored = entry.stored();
    if !durable.allows(&stored) {
        return Err(LogError::IllegalLog(k));
    }
    durable.take(&stored);
    Ok(entry)
}

// Whether each entry can be read in the old form and is legal after the ones before it.
fn judge<D: Disk>(alloc: Global, old: &mut Journal<D>, genesis: &Header) -> Result<(), LogError>
    requires { old.old.stopped ≡ false }
    ensures told { OnOk result ((bs : List ℕ) → D.bytes old.old.disk ≡ Some bs →
        (entries : List EntryValue) × IsOldLog genesis.now old.old.payloads entries) }
    ensures same { (old.new.payloads ≡ old.old.payloads) × (old.new.stopped ≡ false)
        × Untouched D.Disk old.old.disk old.new.disk }
    ensures no_failure { OnOk result (D.failed old.new.disk ≡ D.failed old.old.disk) }
    ensures first_refusal { IfErr result
        (IsOldStepsRefusal genesis.now (D.bytes old.old.disk) old.old.payloads) }
    ensures cause { IsErrOf result LogError.Device →
        HasFailed (D.failed old.old.disk) (D.failed old.new.disk) }
    ensures kept { IfErr result (λ e. e ≢ LogError.Device →
        D.failed old.new.disk ≡ D.failed old.old.disk) }
{
    let mut durable = Durable::first(&NamedHeader::of(*genesis));
    for k in 0..old.count() {
        next_entry(alloc, old, k, &mut durable)?;
    }
    Ok(())
}

fn check_empty<D: Disk>(disk: &mut D) -> Result<(), LogError>
    ensures ok { OnOk result (IfSome (D.bytes disk.old) (λ bytes. bytes ≡ [])) }
    ensures same { Untouched D.Disk disk.old disk.new }
    ensures no_failure { OnOk result (D.failed disk.new ≡ D.failed disk.old) }
    ensures refused { IfErr result (λ e. (e ≡ LogError.Device)
        ⊎ ((e ≡ LogError.NotAJournal) × IfSome (D.bytes disk.old) (λ bytes. bytes ≢ []))) }
    ensures cause { IsErrOf result LogError.Device →
        HasFailed (D.failed disk.old) (D.failed disk.new) }
    ensures kept { IfErr result (λ e. e ≢ LogError.Device → D.failed disk.new ≡ D.failed disk.old) }
{
    match disk.len() {
        Ok(0) => Ok(()),
        Ok(_) => Err(LogError::NotAJournal),
        Err(_) => Err(LogError::Device),
    }
}

// Writes each entry of a journal in the old form, which was judged, to an empty log.
fn copy<D: Disk>(alloc: Global, old: &mut Journal<D>, log: &mut VoteLog<D>) -> Result<(), LogError>
    requires running { (old.old.stopped ≡ false) × (log.old.stopped ≡ false) }
    requires empty { (log.old.entries ≡ []) × (log.old.steps ≡ []) }
    requires durable { IfSome (D.bytes log.old.disk) (λ _.
        LeavesEntries (D.images log.old.disk) []) }
    requires judged { (bs : List ℕ) → D.bytes old.old.disk ≡ Some bs →
        (entries : List EntryValue) × IsOldLog log.old.genesis old.old.payloads entries }
    ensures ok { OnOk result (IfSome (D.bytes old.old.disk) (λ _. (entries : List EntryValue)
        × AreOldTexts old.old.payloads entries × (log.new.steps ≡ steps_of entries))) }
    ensures listed { OnOk result (IfSome (D.bytes old.old.disk) (λ _.
        IfSome (D.bytes log.old.disk) (λ _. AreOldTexts old.old.payloads log.new.entries))) }
    ensures counted { OnOk result (length log.new.steps ≡ length old.old.payloads) }
    ensures running { OnOk result (log.new.stopped ≡ false) }
    ensures genesis { log.new.genesis ≡ log.old.genesis }
    ensures durable { OnOk result (IfSome (D.bytes log.old.disk) (λ _.
        LeavesEntries (D.images log.new.disk) log.new.entries)) }
    ensures tells { IsSome (D.bytes log.new.disk) ↔ IsSome (D.bytes log.old.disk) }
    ensures same { (old.new.payloads ≡ old.old.payloads) × (old.new.stopped ≡ false)
        × Untouched D.Disk old.old.disk old.new.disk }
    ensures no_failure { OnOk result ((D.failed old.new.disk ≡ D.failed old.old.disk)
        × (D.failed log.new.disk ≡ D.failed log.old.disk)) }
    ensures refused { IfErr result (λ e. e ≢ LogError.Memory → e ≢ LogError.Device →
        GivesOther (D.bytes old.old.disk) e) }
    ensures cause { IsErrOf result LogError.Device →
        HasFailed (D.failed old.old.disk) (D.failed old.new.disk)
        ⊎ HasFailed (D.failed log.old.disk) (D.failed log.new.disk) }
    ensures kept { IfErr result (λ e. e ≢ LogError.Device →
        (D.failed old.new.disk ≡ D.failed old.old.disk)
        × (D.failed log.new.disk ≡ D.failed log.old.disk)) }
{
    let count = old.count();
    let mut durable = Durable::first(&NamedHeader::of(*log.genesis()));
    for k in 0..count {
        let entry = next_entry(alloc, old, k, &mut durable)?;
        log.append(&entry)?;
    }
    Ok(())
}

/// Carries a log from before votes named their keys over to an empty disk, and hands the old journal back as it was.
/// Genesis has to have the view 0. Entry k of the new log is what payload k of the old one spells in the old form, with
/// the number 0 for the key of its own vote and of each vote of its certificate. At `Ok` it is durable: from then on
/// each crash leaves all of it, and `VoteLog::recover` reads it.
///
/// An entry in the old form is the kind (1 byte at 0, 1 with the replica's own vote and 2 without), the block's header
/// (84 at 1), its parent's (84 at 85), with kind 1 the own vote (from 169 on: the view, 8, the id, 32 at 177, and the
/// signature, from 209 on), and the parent's certificate (behind the vote, with kind 2 at 169): 42 bytes, and for each
/// of its votes the number of the replica, 2, and the signature.
///
/// A refusal hands back the old journal, as it was, and the disk. In this order: `Memory`, `Stopped`, where the old
/// journal is stopped, `Device`, where one of the two disks failed, `NotAJournal`, where the disk is not empty, and
/// then `BadEntry` or `IllegalLog` with the least entry that is not readable in the old form or not legal, `BadEntry`
/// where that one can not be read. All of the old log is read and judged before anything is written, and then read
/// again, an entry at a time. So `Stopped`, `NotAJournal`, `BadEntry` and `IllegalLog` leave the disk as it was; only
/// an old disk that gives other bytes when it is read again can give the last two later. After `Memory` and `Device`,
/// and after a crash, the disk is to be given up: it may hold no journal, or one of the first entries only, which
/// `VoteLog::recover` would take for the log. Start again with an empty disk.
pub fn migrate<D: Disk>(
    alloc: Global,
    old: Journal<D>,
    disk: D,
    genesis: Header,
) -> Result<(VoteLog<D>, Journal<D>), (LogError, Journal<D>, D)>
    requires { IsGenesis genesis }

    // Entry by entry, the new log is what the old one spells.
    ensures ok { IfOk result (λ r. IfSome (D.bytes old.disk) (λ _. IfSome (D.bytes disk) (λ _.
        AreCarriedOver old.payloads r.0.entries))) }
    ensures steps { IfOk result (λ r. IfSome (D.bytes old.disk) (λ _. (entries : List EntryValue)
        × AreOldTexts old.payloads entries × (r.0.steps ≡ steps_of entries))) }
    ensures running { IfOk result (λ r. IsRunningLog genesis (length old.payloads) r.0) }
    ensures durable { IfOk result (λ r. IfSome (D.bytes disk) (λ _.
        LeavesEntries (D.images r.0.disk) r.0.entries)) }
    ensures exact { OnOk result ((old.stopped ≡ false)
        × IfSome (D.bytes disk) (λ bytes. bytes ≡ [])) }

    // Nothing is written to the old log, and a crash at any moment leaves it.
    ensures same { MatchResult result (λ r. IsOnlyRead D.Disk old r.1)
        (λ e. IsOnlyRead D.Disk old e.1) }
    ensures tells { MatchResult result (λ r. IsSome (D.bytes r.0.disk) ↔ IsSome (D.bytes disk))
        (λ e. IsSome (D.bytes e.2) ↔ IsSome (D.bytes disk)) }

    ensures first_refusal { IfErr result (λ e.
        IsMigrateRefusal genesis (D.bytes old.disk) old (D.bytes disk) e.0) }
    ensures stopped { IfErr result (λ e. e.0 ≡ LogError.Stopped → e.2 ≡ disk) }
    ensures unwritten { IfErr result (λ e. e.0 ≢ LogError.Memory → e.0 ≢ LogError.Device →
        IfSome (D.bytes old.disk) (λ _. IfSome (D.bytes disk) (λ _. Untouched D.Disk disk e.2))) }
    ensures cause { MatchResult result (λ r.
        BlamesADisk ⊥ (D.failed old.disk) (D.failed r.1.disk) (D.failed disk) (D.failed r.0.disk))
        (λ e. BlamesADisk (e.0 ≡ LogError.Device) (D.failed old.disk) (D.failed e.1.disk)
        (D.failed disk) (D.failed e.2)) }
{
    let mut old = old;
    let mut disk = disk;
    if old.stopped() {
        return Err((LogError::Stopped, old, disk));
    }
    if let Err(e) = check_empty(&mut disk) {
        return Err((e, old, disk));
    }
    if let Err(e) = judge(alloc, &mut old, &genesis) {
        return Err((e, old, disk));
    }
    let mut log = match VoteLog::create(alloc, disk, genesis) {
        Ok(log) => log,
        Err((e, disk)) => return Err((e, old, disk)),
    };
    match copy(alloc, &mut old, &mut log) {
        Ok(()) => Ok((log, old)),
        Err(e) => Err((e, old, log.into_disk())),
    }
}
