//! A replica's log on a disk.

ghost use Rattle.std.specs.Prelude.{◌≡◌, ◌≢◌, ◌<◌, ◌≤◌, ◌++◌, ◌∷◌, [], ℕ, List, Some, IfSome, IsSome, ◌↔◌, true, false, length, map, option_map, slice_get, IfErr, IfOk, IsErrOf, IsTrue, OnErr, OnOk};
ghost use Rattle.std.specs.List.{All};
ghost use Rattle.blocks.specs.Headers.{IsGenesis};
ghost use Rattle.blocks.specs.Replay.{IsLegal, replay};
ghost use Rattle.stable_log.specs.Crash.{Follows, Only, Torn};
ghost use Rattle.stable_log.specs.Devices.{AtAnyMoment, Untouched};
ghost use Rattle.base_streams.specs.Counting.{BlamesDevice, HasFailed};
ghost use Rattle.base_wire.specs.declared.limits.TheConstants.{MOST_ENTRIES};
ghost use Rattle.stable_log.specs.Image.{empty_journal};
ghost use Rattle.base_streams.specs.Streams.{Wrote, WrotePart};
ghost use Rattle.log_format.specs.EntryText.{Entry as EntryValue, IsEntry, stored_in};
ghost use Rattle.vote_log.specs.LogExport.{Blames, IsExportRefusal, export_of, frame_count};
ghost use Rattle.vote_log.specs.LogRefusals.{IsLogAppendRefusal, IsLogCreateRefusal, IsLogEntryRefusal, IsLogRecoverRefusal, LogMayAppend, LogMayRead};
ghost use Rattle.vote_log.specs.Logs.{AddsEntry, AreListed, IsLikeLog, IsLogBeforeOrAfter, IsLog, LeavesEntries, StandsForEntries, steps_of};

use crate::export::{LONGEST_FRAME, buffer_of, send_export};
use crate::reading::{read_entry, read_steps};
use crate::{Entry, ExportError, LogError};
use base_streams::Sink;
use base_wire::MOST_ENTRIES;
use blocks::{Header, NamedHeader};
use replica_core::{Durable, Stored, replay};
use stable_log::{Disk, Journal};
use std::alloc::Global;
use std::marker::Model;

/// The entries of a replica, in the order in which it stored them, on a disk. Each is legal after the ones before
/// it: a vote is above the last one, and on the lock or on a parent younger than it; a lock that is raised without a
/// vote rises.
///
/// The disk holds a journal whose payloads are the texts of the entries.
///
/// Contracts see the disk, genesis, the entries, what replay sees of them (the steps), and whether the log is stopped.
/// They speak of entries and images where the disk tells its bytes, and of steps in any case.
#[derive(Drop)]
pub struct VoteLog<D: Disk> {
    alloc: Global,
    genesis: Header,
    journal: Journal<D>,
    // one for each entry, in order
    steps: Vec<Stored>,
}

impl<D: Disk> Model for VoteLog<D> {
    ghost use Rattle.std.specs.Prelude.{map};
    ghost use Rattle.log_format.specs.EntryReading.{entry_in};
    ghost use Rattle.vote_log.specs.Logs.{LogState, KeepsLog};

    ghost Value = { LogState D };

    ghost view = { λ l. record {
      disk = l.journal.disk;
      genesis = l.genesis;
      entries = map entry_in l.journal.payloads;
      steps = l.steps.items;
      stopped = l.journal.stopped;
    } };

    ghost invariant = { λ l. KeepsLog (D.bytes l.journal.disk)
        (D.images l.journal.disk) l.journal.payloads l.journal.stopped l.genesis l.steps.items };
}

impl<D: Disk> VoteLog<D> {
    /// Makes an empty disk a log with no entry, synced. Genesis has to have the view 0. A refusal hands the disk
    /// back; one that was not empty is not written to. After `Device` an empty one may hold any part of the 9 bytes
    /// that this writes. In this order: `Device`, `NotAJournal`.
    pub fn create(alloc: Global, disk: D, genesis: Header) -> Result<VoteLog<D>, (LogError, D)>
        requires { IsGenesis genesis }

        ensures ok { IfOk result (λ l. (l.entries ≡ []) × (l.steps ≡ []) × (l.stopped ≡ false)
            × (l.genesis ≡ genesis)) }
        ensures exact { OnOk result (IfSome (D.bytes disk) (λ bytes. bytes ≡ [])) }
        ensures told { IfOk result (λ l.
            D.bytes l.disk ≡ option_map (λ _. empty_journal) (D.bytes disk)) }
        ensures durable { IfOk result (λ l.
            IfSome (D.bytes disk) (λ _. LeavesEntries (D.images l.disk) [])) }
        ensures no_failure { IfOk result (λ l. D.failed l.disk ≡ D.failed disk) }

        ensures first_refusal { IfErr result (λ e. IsLogCreateRefusal (D.bytes disk) e.0) }
        ensures err { IfErr result (λ e. IfSome (D.bytes disk) (λ bytes. bytes ≢ [] →
            Untouched D.Disk disk e.1)) }
        ensures tells { IfErr result (λ e. IsSome (D.bytes e.1) ↔ IsSome (D.bytes disk)) }
        ensures torn { IfErr result (λ e. Follows (Torn 0 9) (D.images disk) (D.images e.1)) }
        ensures cause { IfErr result (λ e. e.0 ≡ LogError.Device →
            HasFailed (D.failed disk) (D.failed e.1)) }
        ensures kept { IfErr result (λ e. e.0 ≢ LogError.Device → D.failed e.1 ≡ D.failed disk) }
    {
        match Journal::create(alloc, disk) {
            Ok(journal) => Ok(VoteLog {
                alloc,
                genesis,
                journal,
                steps: Vec::new(alloc),
            }),
            Err((refusal, disk)) => Err((LogError::from(refusal), disk)),
        }
    }

    /// Reads a log that a crash or a failed call may have left. Genesis has to have the view 0. It begins with a sync
    /// and writes nothing; formats and legality are judged, signatures are not. A refusal hands the disk back. In this
    /// order: `Memory`, `Device`, `NotAJournal`, `Damaged`, and then `BadEntry` or `IllegalLog` with the least entry
    /// that is not readable or not legal, `BadEntry` where that one can not be read.
    pub fn recover(alloc: Global, disk: D, genesis: Header) -> Result<VoteLog<D>, (LogError, D)>
        requires { IsGenesis genesis }

        ensures ok { IfOk result (λ l.
            IfSome (D.bytes disk) (λ bytes. StandsForEntries bytes l.entries)) }
        ensures listed { IfOk result (λ l.
            IfSome (D.bytes disk) (λ _. AreListed l.entries l.steps)) }
        ensures legal { IfOk result (λ l. IsLegal genesis l.steps) }
        ensures only { IfOk result (λ l. IfSome (D.bytes disk) (λ bytes. (entries : List EntryValue)
            → All IsEntry entries → StandsForEntries bytes entries → entries ≡ l.entries)) }
        ensures running { IfOk result (λ l. (l.stopped ≡ false) × (l.genesis ≡ genesis)) }
        ensures durable { IfOk result (λ l.
            IfSome (D.bytes disk) (λ bytes. Only bytes (D.images l.disk))) }
        ensures same { IfOk result (λ l. Untouched D.Disk disk l.disk) }
        ensures no_failure { IfOk result (λ l. D.failed l.disk ≡ D.failed disk) }

        ensures first_refusal { IfErr result (λ e. IsLogRecoverRefusal genesis (D.bytes disk) e.0) }
        ensures err { IfErr result (λ e. Untouched D.Disk disk e.1) }
        ensures cause { IfErr result (λ e.
            BlamesDevice (e.0 ≡ LogError.Device) (D.failed disk) (D.failed e.1)) }
    {
        let mut journal = match Journal::recover(alloc, disk) {
            Ok(journal) => journal,
            Err((refusal, disk)) => return Err((LogError::from(refusal), disk)),
        };
        match read_steps(alloc, &genesis, &mut journal) {
            Ok(steps) => Ok(VoteLog {
                alloc,
                genesis,
                journal,
                steps,
            }),
            Err(e) => Err((e, journal.into_disk())),
        }
    }

    /// Adds an entry, which has to be legal after the others. At `Ok` it is durable: from then on each crash leaves
    /// it. After `Device` the log is stopped, its list as before: take the disk out and recover it. Any other refusal
    /// changes nothing. In this order: `Memory`, `Stopped`, `Full`, `Device`.
    pub fn append(&mut self, entry: &Entry) -> Result<(), LogError>
        requires { IsLegal self.old.genesis (self.old.steps ++ stored_in entry.now ∷ []) }

        ensures ok { OnOk result (AddsEntry D.bytes self.old self.new entry.now) }
        ensures exact { OnOk result (LogMayAppend self.old) }
        ensures running { OnOk result (self.new.stopped ≡ false) }
        ensures durable { OnOk result (IfSome (D.bytes self.old.disk) (λ _.
            LeavesEntries (D.images self.new.disk) (self.old.entries ++ entry.now ∷ []))) }
        ensures no_failure { OnOk result (D.failed self.new.disk ≡ D.failed self.old.disk) }
        ensures like { IsLikeLog D.bytes self.old self.new }

        // A crash at any moment of the call leaves the list from before it, with the entry or without.
        ensures any_moment { self.old.stopped ≡ false → IfSome (D.bytes self.old.disk) (λ _.
            AtAnyMoment D.Disk self.old.disk self.new.disk
            (IsLogBeforeOrAfter self.old.entries entry.now)) }

        ensures first_refusal { IfErr result (IsLogAppendRefusal self.old) }
        ensures device { IsErrOf result LogError.Device → (self.new.entries ≡ self.old.entries)
            × (self.new.steps ≡ self.old.steps) × (self.new.stopped ≡ true) }
        ensures err { IfErr result (λ e. e ≢ LogError.Device → self.new ≡ self.old) }
        ensures cause { IsErrOf result LogError.Device →
            HasFailed (D.failed self.old.disk) (D.failed self.new.disk) }
    {
        if self.journal.stopped() {
            return Err(LogError::Stopped);
        }
        if self.journal.count() >= MOST_ENTRIES {
            return Err(LogError::Full);
        }
        // All that memory can refuse comes before the disk is touched.
        let text = entry.write(self.alloc)?;
        self.steps.reserve(1)?;
        self.journal.append(&text)?;
        self.steps.push_reserved(entry.stored());
        Ok(())
    }

    /// Entry `k`, counted from 0. The log stays as it is, and runs on after `Device`. In this order: `Memory`,
    /// `Stopped`, `NoSuchEntry`, `Device`, and `BadEntry`, with k, where the disk gives other bytes than were written.
    pub fn entry(&mut self, k: usize) -> Result<Entry, LogError>
        ensures ok { IfOk result (λ e. IfSome (D.bytes self.old.disk) (λ _.
            slice_get self.old.entries k ≡ Some e)) }
        ensures exact { OnOk result (LogMayRead self.old k) }
        ensures same { (self.new.entries ≡ self.old.entries) × (self.new.steps ≡ self.old.steps)
            × (self.new.stopped ≡ self.old.stopped) × (self.new.genesis ≡ self.old.genesis)
            × Untouched D.Disk self.old.disk self.new.disk }
        ensures no_failure { OnOk result (D.failed self.new.disk ≡ D.failed self.old.disk) }
        ensures first_refusal { IfErr result
            (IsLogEntryRefusal (D.bytes self.old.disk) self.old k) }
        ensures cause { IsErrOf result LogError.Device →
            HasFailed (D.failed self.old.disk) (D.failed self.new.disk) }
        ensures kept { IfErr result (λ e. e ≢ LogError.Device →
            D.failed self.new.disk ≡ D.failed self.old.disk) }
    {
        read_entry(self.alloc, &mut self.journal, k)
    }

    /// Writes the stream of the entries from `first` on, counted from 0, at most `most` of them, to the sink, and
    /// answers how many frames it has. The stream is `HSL1`, then for each entry the length of its text (4 bytes,
    /// big-endian) and the text, then a length of 0 and the number of frames (4 bytes): 12 bytes where there are no
    /// frames. The log stays as it is; no refusal stops it. In this order: `Memory`, `Stopped`, `Device`, `Sink`; the
    /// first two write nothing, and after the others a first part of the stream was written.
    pub fn export<W: Sink>(
        &mut self,
        first: u32,
        most: u32,
        sink: &mut W,
    ) -> Result<u32, ExportError>
        ensures ok { OnOk result (IfSome (D.bytes self.old.disk) (λ _.
            Wrote (W.text sink.old) (W.text sink.new) (export_of self.old.entries first most))) }
        ensures count { IfOk result (λ n. n ≡ frame_count (length self.old.steps) first most) }
        ensures exact { OnOk result (self.old.stopped ≡ false) }
        ensures same { (self.new.entries ≡ self.old.entries) × (self.new.steps ≡ self.old.steps)
            × (self.new.stopped ≡ self.old.stopped) × (self.new.genesis ≡ self.old.genesis)
            × Untouched D.Disk self.old.disk self.new.disk }
        ensures first_refusal { IfErr result (IsExportRefusal self.old first most) }
        ensures part { OnErr result (IfSome (D.bytes self.old.disk) (λ _.
            WrotePart (W.text sink.old) (W.text sink.new)
            (export_of self.old.entries first most))) }
        ensures unwritten { IfErr result (λ e. e ≢ ExportError.Device → e ≢ ExportError.Sink →
            sink.new ≡ sink.old) }
        ensures cause { Blames (D.failed self.old.disk) (D.failed self.new.disk)
            (W.failed sink.old) (W.failed sink.new) result }
    {
        if self.stopped() {
            return Err(ExportError::Stopped);
        }
        // All that memory can refuse comes before the first write.
        let mut frame = buffer_of(self.alloc, LONGEST_FRAME)?;
        send_export(&mut self.journal, first, most, &mut frame, sink)
    }

    /// How many entries there are, at most 4,096.
    pub fn count(&self) -> usize
        ensures value { result ≡ length self.now.steps }
        ensures few { result ≤ MOST_ENTRIES }
    {
        self.journal.count()
    }

    /// Whether the disk failed in an `append`.
    pub fn stopped(&self) -> bool
        ensures { result ≡ self.now.stopped }
    {
        self.journal.stopped()
    }

    /// What replay sees of the entries, in order. They are legal.
    pub fn steps(&self) -> &[Stored]
        ensures value { result.now ≡ self.now.steps }
        ensures legal { IsLegal self.now.genesis self.now.steps }
        ensures listed { IfSome (D.bytes self.now.disk) (λ _.
            AreListed self.now.entries self.now.steps) }
        ensures durable { self.now.stopped ≡ false → IfSome (D.bytes self.now.disk) (λ _.
            LeavesEntries (D.images self.now.disk) self.now.entries) }
    {
        &self.steps
    }

    /// What replay leaves: the view of the last vote, and the lock.
    pub fn replayed(&self) -> Durable
        ensures value { result ≡ replay self.now.genesis self.now.steps }
        ensures legal { IsLegal self.now.genesis self.now.steps }
    {
        replay(&NamedHeader::of(self.genesis), &self.steps)
    }

    /// Whether an entry is legal after the others, as `append` asks.
    pub fn allows(&self, entry: &Entry) -> bool
        ensures { IsTrue result ↔ IsLegal self.now.genesis (self.now.steps ++ stored_in entry.now
            ∷ []) }
    {
        self.replayed().allows(&entry.stored())
    }

    /// The header of genesis.
    pub fn genesis(&self) -> &Header
        ensures value { result.now ≡ self.now.genesis }
        ensures is_genesis { IsGenesis self.now.genesis }
    {
        &self.genesis
    }

    /// The disk, as it is.
    pub fn into_disk(self) -> D
        ensures { result ≡ self.disk }
    {
        let VoteLog {
            alloc: _,
            genesis: _,
            journal,
            steps: _,
        } = self;
        journal.into_disk()
    }
}
