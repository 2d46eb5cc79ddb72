//! The indices of a replica's keys.
ghost use Rattle.std.specs.Prelude.{◌≡◌, ◌≢◌, ◌<◌, ◌≤◌, ◌+◌, ◌-◌, ◌*◌, ◌%◌, ◌^◌, [], ℕ, List, IsTrue, true, false, if◌then◌else◌, IfSome, IsSome, ◌↔◌, option_map, length, IfOk, IfErr, OnErr, OnOk, IsErrOf};
ghost use Rattle.base_streams.specs.Counting.{HasFailed};
ghost use Rattle.stable_log.specs.Crash.{Torn, Follows};
ghost use Rattle.stable_log.specs.Devices.{AtAnyMoment, Untouched};
ghost use Rattle.stable_log.specs.Image.{empty_journal};
ghost use Rattle.key_index_store.specs.Boundary.{reservation, reservations, IsBoundary, IsBoundedBy, IsKeyCount, LeavesBoundary, taken_by};
ghost use Rattle.base_wire.specs.declared.limits.TheConstants.{MOST_ENTRIES, MOST_KEYS};
ghost use Rattle.key_index_store.specs.declared.store.TheConstants.{INDICES, INDICES_PER_RESERVATION};
ghost use Rattle.key_index_store.specs.Indices.{limit_of};
ghost use Rattle.key_index_store.specs.State.{IsGiven};
ghost use Rattle.key_index_store.specs.Refusals.{IsIndexCreateRefusal, IsIndexRecoverRefusal, MayGive, IsNextRefusal, IsReserveRefusal, IsReservationsRefusal};

use crate::IndexError;
use stable_log::{Disk, Journal};
use std::alloc::Global;
use std::marker::Model;

/// How many indices a key has.
pub const INDICES: u32 = 1024;

/// How many indices are taken at a time.
pub const INDICES_PER_RESERVATION: u32 = 16;

/// All are as docs/FORMATS.md says, "Index journal": the contract is the law, and nothing is computed.
pub fn indices_are_those_of_the_format()
    ensures indices { INDICES ≡ 1024 }
    ensures reservation { INDICES_PER_RESERVATION ≡ 16 }
{}

// How many indices so many keys have.
fn indices_of(keys: u8) -> u32
    ensures { result ≡ limit_of keys }
{
    INDICES * u32::from(keys)
}

/// The indices of one to four keys, on a disk: each key has 1,024, so that index i is the one-time key i mod 1,024 of
/// key i / 1,024 (`q_of` and `key_of`). An index is given once: before it is, a reservation of 16 indices that covers
/// it is durable, and recovery skips what was reserved.
///
/// The disk holds a journal of at most 64 entries a key, whose entry k is the big-endian u32 16(k+1): all indices
/// below it are taken. It doesn't say how many keys there are: a store may be recovered with more keys than before.
///
/// Contracts see the disk, how many keys the store has, the mark below which lies every index given or skipped, and
/// whether the store is stopped.
#[derive(Drop)]
pub struct IndexStore<D: Disk> {
    journal: Journal<D>,
    keys: u8,
    // the least index that was not given
    next: u32,
    // how many reservations are stored
    count: u32,
}

impl<D: Disk> Model for IndexStore<D> {
    ghost use Rattle.key_index_store.specs.State.{IndexState};
    ghost use Rattle.key_index_store.specs.Boundary.{IsStore};

    ghost Value = { IndexState D };

    ghost view = { λ s. record {
      disk = s.journal.disk;
      keys = s.keys;
      mark = s.next;
      stopped = s.journal.stopped;
    } };

    ghost invariant = { λ s. IsStore (D.bytes s.journal.disk)
        (D.images s.journal.disk) s.journal.payloads s.keys s.next s.count };
}

// What entry k of the journal holds.
fn reservation_text(k: u32) -> [u8; 4]
    requires { k < MOST_ENTRIES }
    ensures { result ≡ reservation k }
{
    (INDICES_PER_RESERVATION * (k + 1)).to_be_bytes()
}

fn is_reservation(entry: &[u8], k: u32) -> bool
    requires { k < MOST_ENTRIES }
    ensures { IsTrue result ↔ (entry.now ≡ reservation k) }
{
    entry == reservation_text(k).as_slice()
}

// Stores that the indices of one reservation more are taken, which are of these keys.
fn reserve<D: Disk>(journal: &mut Journal<D>, count: u32, keys: u8) -> Result<(), IndexError>
    requires running { journal.old.stopped ≡ false }
    requires room { taken_by (count + 1) ≤ limit_of keys }
    requires most { keys ≤ MOST_KEYS }
    requires counted { length journal.old.payloads ≡ count }
    requires listed { IfSome (D.bytes journal.old.disk) (λ _.
        journal.old.payloads ≡ reservations count) }
    ensures listed { OnOk result (IfSome (D.bytes journal.old.disk) (λ _.
        journal.new.payloads ≡ reservations (count + 1))) }
    ensures counted { OnOk result (length journal.new.payloads ≡ count + 1) }
    ensures running { OnOk result (journal.new.stopped ≡ false) }
    ensures durable { OnOk result (IfSome (D.bytes journal.old.disk) (λ _.
        LeavesBoundary (D.images journal.new.disk) (limit_of keys) (taken_by (count + 1)))) }
    ensures no_failure { OnOk result (D.failed journal.new.disk ≡ D.failed journal.old.disk) }
    ensures tells { IsSome (D.bytes journal.new.disk) ↔ IsSome (D.bytes journal.old.disk) }
    ensures bounded { IfSome (D.bytes journal.old.disk) (λ _.
        LeavesBoundary (D.images journal.new.disk) (limit_of keys) (taken_by count)) }
    ensures any_moment { IfSome (D.bytes journal.old.disk) (λ _.
        AtAnyMoment D.Disk journal.old.disk journal.new.disk
        (IsBoundedBy (limit_of keys) (taken_by count))) }
    ensures first_refusal { IfErr result IsReserveRefusal }
    ensures device { IsErrOf result IndexError.Device
        → (journal.new.payloads ≡ journal.old.payloads) × (journal.new.stopped ≡ true) }
    ensures err { IfErr result (λ e. e ≢ IndexError.Device → journal.new ≡ journal.old) }
    ensures cause { IsErrOf result IndexError.Device →
        HasFailed (D.failed journal.old.disk) (D.failed journal.new.disk) }
{
    prove!(INDICES_PER_RESERVATION * (count + 1) <= INDICES * u32::from(keys));
    journal.append(&reservation_text(count))?;
    Ok(())
}

// How many reservations a journal has, where it has nothing else and they are of these keys.
fn read_reservations<D: Disk>(
    alloc: Global,
    journal: &mut Journal<D>,
    keys: u8,
) -> Result<u32, IndexError>
    requires running { journal.old.stopped ≡ false }
    requires most { keys ≤ MOST_KEYS }
    ensures ok { IfOk result (λ n. IfSome (D.bytes journal.old.disk) (λ _.
        journal.old.payloads ≡ reservations n)) }
    ensures counted { IfOk result (λ n. (length journal.old.payloads ≡ n)
        × (taken_by n ≤ limit_of keys)) }
    ensures same { (journal.new.payloads ≡ journal.old.payloads) × (journal.new.stopped ≡ false)
        × Untouched D.Disk journal.old.disk journal.new.disk }
    ensures no_failure { OnOk result (D.failed journal.new.disk ≡ D.failed journal.old.disk) }
    ensures first_refusal { IfErr result
        (IsReservationsRefusal (limit_of keys) (D.bytes journal.old.disk) journal.old.payloads) }
    ensures cause { IsErrOf result IndexError.Device →
        HasFailed (D.failed journal.old.disk) (D.failed journal.new.disk) }
    ensures kept { IfErr result (λ e. e ≢ IndexError.Device →
        D.failed journal.new.disk ≡ D.failed journal.old.disk) }
{
    if journal.count() > (indices_of(keys) / INDICES_PER_RESERVATION) as usize {
        return Err(IndexError::BadEntry);
    }
    let count = journal.count() as u32;
    let mut entry = Vec::new(alloc);
    for k in 0..count {
        journal.entry(k as usize, &mut entry)?;
        if !is_reservation(&entry, k) {
            return Err(IndexError::BadEntry);
        }
    }
    Ok(count)
}

impl<D: Disk> IndexStore<D> {
    /// Makes an empty disk a store of so many keys, 1 to 4, that has given nothing. A refusal hands the disk back; one
    /// that was not empty is not written to, and after `Device` an empty one may hold any part of the 9 bytes of an
    /// empty journal. In this order: `Device`, `BadEntry`.
    pub fn create(alloc: Global, disk: D, keys: u8) -> Result<IndexStore<D>, (IndexError, D)>
        requires { IsKeyCount keys }
        ensures ok { IfOk result (λ s. (s.keys ≡ keys) × (s.mark ≡ 0) × (s.stopped ≡ false)) }
        ensures exact { OnOk result (IfSome (D.bytes disk) (λ bytes. bytes ≡ [])) }
        ensures told { IfOk result (λ s.
            D.bytes s.disk ≡ option_map (λ _. empty_journal) (D.bytes disk)) }
        ensures bounded { IfOk result (λ s. IfSome (D.bytes disk) (λ _.
            LeavesBoundary (D.images s.disk) (limit_of keys) s.mark)) }
        ensures no_failure { IfOk result (λ s. D.failed s.disk ≡ D.failed disk) }

        ensures first_refusal { IfErr result (λ e. IsIndexCreateRefusal (D.bytes disk) e.0) }
        ensures err { IfErr result (λ e. IfSome (D.bytes disk) (λ bytes. bytes ≢ [] →
            Untouched D.Disk disk e.1)) }
        ensures tells { IfErr result (λ e. IsSome (D.bytes e.1) ↔ IsSome (D.bytes disk)) }
        ensures torn { IfErr result (λ e. Follows (Torn 0 9) (D.images disk) (D.images e.1)) }
        ensures cause { IfErr result (λ e. e.0 ≡ IndexError.Device →
            HasFailed (D.failed disk) (D.failed e.1)) }
        ensures kept { IfErr result (λ e. e.0 ≢ IndexError.Device → D.failed e.1 ≡ D.failed disk) }
    {
        match Journal::create(alloc, disk) {
            Ok(journal) => Ok(IndexStore {
                journal,
                keys,
                next: 0,
                count: 0,
            }),
            Err((refusal, disk)) => Err((IndexError::from(refusal), disk)),
        }
    }

    /// Reads a store that a crash or a failed call may have left, with so many keys from now on, 1 to 4, and goes on at
    /// the stored boundary, 0 where nothing is stored. It writes nothing. A refusal hands the disk back; a boundary beyond
    /// these keys is a `BadEntry`. In this order: `Memory`, `Device`, `BadEntry`.
    pub fn recover(alloc: Global, disk: D, keys: u8) -> Result<IndexStore<D>, (IndexError, D)>
        requires { IsKeyCount keys }
        ensures ok { IfOk result (λ s.
            IfSome (D.bytes disk) (λ bytes. IsBoundary (limit_of keys) s.mark bytes)) }
        ensures keys { IfOk result (λ s. s.keys ≡ keys) }

        // No index is given again, however many keys there were: each mark that the image bounds is at most the new one.
        ensures not_again { IfOk result (λ s. IfSome (D.bytes disk) (λ bytes. (limit mark : ℕ) →
            IsBoundedBy limit mark bytes → mark ≤ s.mark)) }

        ensures running { IfOk result (λ s. s.stopped ≡ false) }
        ensures bounded { IfOk result (λ s. IfSome (D.bytes disk) (λ _.
            LeavesBoundary (D.images s.disk) (limit_of keys) s.mark)) }
        ensures same { IfOk result (λ s. Untouched D.Disk disk s.disk) }
        ensures no_failure { IfOk result (λ s. D.failed s.disk ≡ D.failed disk) }

        ensures first_refusal { IfErr result (λ e.
            IsIndexRecoverRefusal (limit_of keys) (D.bytes disk) e.0) }
        ensures err { IfErr result (λ e. Untouched D.Disk disk e.1) }
        ensures cause { IfErr result (λ e. e.0 ≡ IndexError.Device →
            HasFailed (D.failed disk) (D.failed e.1)) }
        ensures kept { IfErr result (λ e. e.0 ≢ IndexError.Device → D.failed e.1 ≡ D.failed disk) }
    {
        let mut journal = match Journal::recover(alloc, disk) {
            Ok(journal) => journal,
            Err((refusal, disk)) => return Err((IndexError::from(refusal), disk)),
        };
        match read_reservations(alloc, &mut journal, keys) {
            Ok(count) => Ok(IndexStore {
                journal,
                keys,
                next: INDICES_PER_RESERVATION * count,
                count,
            }),
            Err(e) => Err((e, journal.into_disk())),
        }
    }

    /// Gives the least index that was neither given nor skipped, and first reserves 16 more where all reserved ones
    /// are given. After `Device` the store is stopped: take the disk out and recover it. No refusal uses up an index,
    /// and any but `Device` changes nothing. In this order: `Memory`, `Stopped`, `Spent`, `Device`.
    pub fn next(&mut self) -> Result<u32, IndexError>
        ensures ok { IfOk result (IsGiven self.old self.new) }
        ensures exact { OnOk result (MayGive self.old) }
        ensures keys { self.new.keys ≡ self.old.keys }
        ensures bounded { IfSome (D.bytes self.old.disk) (λ _.
            LeavesBoundary (D.images self.new.disk) (limit_of self.old.keys) self.new.mark) }
        ensures no_failure { OnOk result (D.failed self.new.disk ≡ D.failed self.old.disk) }
        ensures tells { IsSome (D.bytes self.new.disk) ↔ IsSome (D.bytes self.old.disk) }
        ensures same { self.old.mark % INDICES_PER_RESERVATION ≢ 0 → self.new.disk ≡ self.old.disk }

        // A crash at any moment of the call leaves a boundary that is at least the mark from before it.
        ensures any_moment { IfSome (D.bytes self.old.disk) (λ _.
            AtAnyMoment D.Disk self.old.disk self.new.disk
            (IsBoundedBy (limit_of self.old.keys) self.old.mark)) }

        ensures first_refusal { IfErr result (IsNextRefusal self.old) }
        ensures device { IsErrOf result IndexError.Device → (self.new.mark ≡ self.old.mark)
            × (self.new.stopped ≡ true) }
        ensures err { IfErr result (λ e. e ≢ IndexError.Device → self.new ≡ self.old) }
        ensures cause { IsErrOf result IndexError.Device →
            HasFailed (D.failed self.old.disk) (D.failed self.new.disk) }
    {
        if self.journal.stopped() {
            return Err(IndexError::Stopped);
        }
        if self.next >= indices_of(self.keys) {
            return Err(IndexError::Spent);
        }
        if self.next >= INDICES_PER_RESERVATION * self.count {
            // The boundary is on the disk before an index below it is given.
            reserve(&mut self.journal, self.count, self.keys)?;
            self.count += 1;
        }
        self.next += 1;
        Ok(self.next - 1)
    }

    /// How many keys the store has, as `create` or `recover` was told.
    pub fn keys(&self) -> u8
        ensures exact { result ≡ self.now.keys }
        ensures some { 1 ≤ result }
        ensures most { result ≤ MOST_KEYS }
    {
        self.keys
    }

    /// How many indices `next` can still give, 0 where the store is stopped.
    pub fn left(&self) -> u32
        ensures { result ≡ (if self.now.stopped then 0 else limit_of self.now.keys -
            self.now.mark) }
    {
        if self.journal.stopped() {
            0
        } else {
            indices_of(self.keys) - self.next
        }
    }

    /// Whether the disk failed in a `next`. Whatever a crash leaves of the disk now, stopped or not, has a boundary that is
    /// at least the mark.
    pub fn stopped(&self) -> bool
        ensures value { result ≡ self.now.stopped }
        ensures bounded { IfSome (D.bytes self.now.disk) (λ _.
            LeavesBoundary (D.images self.now.disk) (limit_of self.now.keys) self.now.mark) }
    {
        self.journal.stopped()
    }

    /// The disk, as it is.
    pub fn into_disk(self) -> D
        ensures { result ≡ self.disk }
    {
        let IndexStore {
            journal,
            keys: _,
            next: _,
            count: _,
        } = self;
        journal.into_disk()
    }
}
