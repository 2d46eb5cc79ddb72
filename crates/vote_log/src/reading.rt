//! Reading the entries of a journal. Nothing here writes.

ghost use Rattle.std.specs.Prelude.{◌≡◌, ◌≢◌, ℕ, List, false, length, Some, IfErr, IfOk, IfSome, IsErrOf, OnOk};
ghost use Rattle.blocks.specs.Replay.{IsLegal, replay};
ghost use Rattle.stable_log.specs.Devices.{Untouched};
ghost use Rattle.base_streams.specs.Counting.{HasFailed};
ghost use Rattle.stable_log.specs.Refusals.{MayRead};
ghost use Rattle.vote_log.specs.LogRefusals.{IsEntryReadRefusal, IsStepsRefusal};
ghost use Rattle.vote_log.specs.Logs.{AreTexts, IsEntryAt};

use crate::{Entry, EntryRefusal, LogError};
use blocks::{Header, NamedHeader};
use replica_core::{Durable, Stored};
use stable_log::{Disk, Journal};
use std::alloc::Global;

// Entry k.
pub(crate) fn read_entry<D: Disk>(
    alloc: Global,
    journal: &mut Journal<D>,
    k: usize,
) -> Result<Entry, LogError>
    ensures ok { IfOk result (λ e. IfSome (D.bytes journal.old.disk) (λ _.
        IsEntryAt journal.old.payloads k e)) }
    ensures exact { OnOk result (MayRead journal.old k) }
    ensures same { (journal.new.payloads ≡ journal.old.payloads)
        × (journal.new.stopped ≡ journal.old.stopped)
        × Untouched D.Disk journal.old.disk journal.new.disk }
    ensures no_failure { OnOk result (D.failed journal.new.disk ≡ D.failed journal.old.disk) }
    ensures first_refusal { IfErr result
        (IsEntryReadRefusal (D.bytes journal.old.disk) journal.old k) }
    ensures cause { IsErrOf result LogError.Device →
        HasFailed (D.failed journal.old.disk) (D.failed journal.new.disk) }
    ensures kept { IfErr result (λ e. e ≢ LogError.Device →
        D.failed journal.new.disk ≡ D.failed journal.old.disk) }
{
    let mut text = Vec::new(alloc);
    journal.entry(k, &mut text)?;
    match Entry::read(alloc, &text) {
        Ok(entry) => Ok(entry),
        Err(EntryRefusal::Memory) => Err(LogError::Memory),
        Err(_) => Err(LogError::BadEntry(k)),
    }
}

// What replay sees of all entries, where each can be read and is legal after the ones before it.
pub(crate) fn read_steps<D: Disk>(
    alloc: Global,
    genesis: &Header,
    journal: &mut Journal<D>,
) -> Result<Vec<Stored>, LogError>
    requires { journal.old.stopped ≡ false }
    ensures legal { IfOk result (λ steps. IsLegal genesis.now steps.items) }
    ensures counted { IfOk result (λ steps. length journal.old.payloads ≡ length steps.items) }
    ensures told { IfOk result (λ steps. (bs : List ℕ) → D.bytes journal.old.disk ≡ Some bs →
        AreTexts journal.old.payloads steps.items) }
    ensures same { (journal.new.payloads ≡ journal.old.payloads) × (journal.new.stopped ≡ false)
        × Untouched D.Disk journal.old.disk journal.new.disk }
    ensures no_failure { OnOk result (D.failed journal.new.disk ≡ D.failed journal.old.disk) }
    ensures first_refusal { IfErr result (IsStepsRefusal genesis.now (D.bytes journal.old.disk)
        journal.old.payloads) }
    ensures cause { IsErrOf result LogError.Device →
        HasFailed (D.failed journal.old.disk) (D.failed journal.new.disk) }
    ensures kept { IfErr result (λ e. e ≢ LogError.Device →
        D.failed journal.new.disk ≡ D.failed journal.old.disk) }
{
    let mut steps = Vec::new(alloc);
    let mut durable = Durable::first(&NamedHeader::of(*genesis));
    for k in 0..journal.count() {
        let stored = read_entry(alloc, journal, k)?.stored();
        if !durable.allows(&stored) {
            return Err(LogError::IllegalLog(k));
        }
        durable.take(&stored);
        steps.push(stored)?;
    }
    Ok(steps)
}
