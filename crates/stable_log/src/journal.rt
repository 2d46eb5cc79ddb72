//! A list of payloads on a disk.
ghost use Rattle.std.specs.Prelude.{◌≡◌, ◌≢◌, ◌<◌, ◌≤◌, ◌+◌, ◌++◌, ◌∷◌, [], ℕ, List, true, false, Some, IfSome, IsSome, ◌↔◌, option_map, length, slice_get, take, IfOk, IfErr, OnErr, OnOk, IsErrOf};
ghost use Rattle.base_streams.specs.Counting.{HasFailed};
ghost use Rattle.base_wire.specs.declared.limits.TheConstants.{LONGEST_PAYLOAD, MOST_ENTRIES};
ghost use Rattle.stable_log.specs.Crash.{Only, Torn, Follows};
ghost use Rattle.stable_log.specs.Devices.{AtAnyMoment, Untouched};
ghost use Rattle.stable_log.specs.Image.{empty_journal, staged_text, StandsFor, IsBeforeOrAfter, LeavesList};
ghost use Rattle.stable_log.specs.State.{HasOneMore};
ghost use Rattle.stable_log.specs.Refusals.{IsJournalCreateRefusal, IsJournalRecoverRefusal, MayAppend, IsJournalAppendRefusal, MayRead, IsJournalEntryRefusal, IsJournalEntryIntoRefusal};

use crate::calls::{fill, fill_front, write_payload, write_synced};
use crate::reading::{PayloadPlace, read_journal};
use crate::{Disk, JournalError};
use base_wire::{LONGEST_PAYLOAD, MOST_ENTRIES};
use byteorder::{BigEndian, ByteOrder};
use std::alloc::{AllocError, Global};
use std::marker::Model;

/// An append-only list of payloads of 1 to 65,536 bytes each, at most 4,096 of them, on a disk.
///
/// The file is the 8 bytes HSJ1 and four zero bytes, then a gate of one byte. Behind an open gate (01) stand the
/// length of a payload as a big-endian u32, the payload, and the next gate. Behind the first gate that is not open
/// nothing counts.
///
/// Contracts see the disk, the payloads in order, and whether the journal is stopped. They speak of payloads and
/// images where the disk tells its bytes.
#[derive(Drop)]
pub struct Journal<D: Disk> {
    alloc: Global,
    disk: D,
    places: Vec<PayloadPlace>,
    // the offset of the gate behind the last payload
    gate_at: u64,
    stopped: bool,
}

impl<D: Disk> Model for Journal<D> {
    ghost use Rattle.stable_log.specs.State.{JournalState};
    ghost use Rattle.stable_log.specs.Places.{payloads_at, IsJournal};

    ghost Value = { JournalState D };

    ghost view = { λ j. record {
      disk = j.disk;
      payloads = payloads_at (D.bytes j.disk) j.places.items;
      stopped = j.stopped;
    } };

    ghost invariant = { λ j. IsJournal (D.bytes j.disk)
        (D.images j.disk) j.places.items j.gate_at j.stopped };
}

// The length, the payload and a closed gate.
fn staged(alloc: Global, payload: &[u8]) -> Result<Vec<u8>, AllocError>
    requires { length payload.now ≤ LONGEST_PAYLOAD }
    ensures { IfOk result (λ v. v.items ≡ staged_text payload.now) }
{
    let mut size = [0u8; 4];
    BigEndian::write_u32(&mut size, payload.len() as u32);
    let mut text = size.to_vec(alloc)?;
    text.extend_from_slice(payload)?;
    text.push(0)?;
    Ok(text)
}

impl<D: Disk> Journal<D> {
    /// Makes an empty disk a journal with no payload, synced. A refusal hands the disk back; one that was not empty
    /// is not written to. After `Device` an empty one may hold any part of the 9 bytes that this writes. In this
    /// order: `Device`, `NotAJournal`.
    pub fn create(alloc: Global, disk: D) -> Result<Journal<D>, (JournalError, D)>
        ensures ok { IfOk result (λ j. (j.payloads ≡ []) × (j.stopped ≡ false)) }
        ensures exact { OnOk result (IfSome (D.bytes disk) (λ bytes. bytes ≡ [])) }
        ensures told { IfOk result (λ j.
            D.bytes j.disk ≡ option_map (λ _. empty_journal) (D.bytes disk)) }
        ensures durable { IfOk result (λ j.
            IfSome (D.bytes disk) (λ _. LeavesList (D.images j.disk) [])) }
        ensures no_failure { IfOk result (λ j. D.failed j.disk ≡ D.failed disk) }

        ensures first_refusal { IfErr result (λ e. IsJournalCreateRefusal (D.bytes disk) e.0) }
        ensures err { IfErr result (λ e. IfSome (D.bytes disk) (λ bytes. bytes ≢ [] →
            Untouched D.Disk disk e.1)) }
        ensures tells { IfErr result (λ e. IsSome (D.bytes e.1) ↔ IsSome (D.bytes disk)) }
        ensures torn { IfErr result (λ e. Follows (Torn 0 9) (D.images disk) (D.images e.1)) }
        ensures cause { IfErr result (λ e. e.0 ≡ JournalError.Device →
            HasFailed (D.failed disk) (D.failed e.1)) }
        ensures kept { IfErr result (λ e. e.0 ≢ JournalError.Device
            → D.failed e.1 ≡ D.failed disk) }
    {
        let mut disk = disk;
        match disk.len() {
            Ok(0) => {}
            Ok(_) => return Err((JournalError::NotAJournal, disk)),
            Err(_) => return Err((JournalError::Device, disk)),
        }
        // the magic and a closed gate
        match write_synced(&mut disk, 0, b"HSJ1\0\0\0\0\0") {
            Ok(()) => {}
            Err(_) => return Err((JournalError::Device, disk)),
        }
        Ok(Journal {
            alloc,
            disk,
            places: Vec::new(alloc),
            gate_at: 8,
            stopped: false,
        })
    }

    /// Reads a journal that a crash or a failed call may have left. It begins with a sync and writes nothing. A
    /// refusal hands the disk back. In this order: `Memory`, `Device`, `NotAJournal`, `Damaged`.
    pub fn recover(alloc: Global, disk: D) -> Result<Journal<D>, (JournalError, D)>
        ensures ok { IfOk result (λ j.
            IfSome (D.bytes disk) (λ bytes. StandsFor bytes j.payloads)) }
        ensures only { IfOk result (λ j. IfSome (D.bytes disk) (λ bytes. (payloads : List (List ℕ))
            → StandsFor bytes payloads → payloads ≡ j.payloads)) }
        ensures running { IfOk result (λ j. j.stopped ≡ false) }
        ensures durable { IfOk result (λ j. IfSome (D.bytes disk) (λ bytes.
            Only bytes (D.images j.disk))) }
        ensures same { IfOk result (λ j. Untouched D.Disk disk j.disk) }
        ensures no_failure { IfOk result (λ j. D.failed j.disk ≡ D.failed disk) }

        ensures first_refusal { IfErr result (λ e. IsJournalRecoverRefusal (D.bytes disk) e.0) }
        ensures err { IfErr result (λ e. Untouched D.Disk disk e.1) }
        ensures cause { IfErr result (λ e. e.0 ≡ JournalError.Device →
            HasFailed (D.failed disk) (D.failed e.1)) }
        ensures kept { IfErr result (λ e. e.0 ≢ JournalError.Device
            → D.failed e.1 ≡ D.failed disk) }
    {
        let mut disk = disk;
        match read_journal(alloc, &mut disk) {
            Ok((places, gate_at)) => Ok(Journal {
                alloc,
                disk,
                places,
                gate_at,
                stopped: false,
            }),
            Err(e) => Err((e, disk)),
        }
    }

    /// Adds a payload, which must not be empty. At `Ok` it is durable: from then on each crash leaves it. After
    /// `Device` the journal is stopped, its list as before: take the disk out and recover it. Any other refusal
    /// changes nothing. In this order: `Memory`, `Stopped`, `Full`, `TooLong`, `Device`.
    pub fn append(&mut self, payload: &[u8]) -> Result<(), JournalError>
        requires { 0 < length payload.now }

        ensures ok { OnOk result (IfSome (D.bytes self.old.disk) (λ _.
            self.new.payloads ≡ self.old.payloads ++ payload.now ∷ [])) }
        ensures grows { OnOk result (HasOneMore self.old self.new) }
        ensures exact { OnOk result (MayAppend self.old payload.now) }
        ensures durable { OnOk result (IfSome (D.bytes self.old.disk) (λ _.
            LeavesList (D.images self.new.disk) self.new.payloads)) }
        ensures no_failure { OnOk result (D.failed self.new.disk ≡ D.failed self.old.disk) }
        ensures tells { IsSome (D.bytes self.new.disk) ↔ IsSome (D.bytes self.old.disk) }

        // A crash at any moment of the call leaves the list from before it, with the payload or without.
        ensures any_moment { self.old.stopped ≡ false → IfSome (D.bytes self.old.disk) (λ _.
            AtAnyMoment D.Disk self.old.disk self.new.disk
            (IsBeforeOrAfter self.old.payloads payload.now)) }

        ensures first_refusal { IfErr result (IsJournalAppendRefusal self.old payload.now) }
        ensures device { IsErrOf result JournalError.Device
            → (self.new.payloads ≡ self.old.payloads) × (self.new.stopped ≡ true) }
        ensures err { IfErr result (λ e. e ≢ JournalError.Device → self.new ≡ self.old) }
        ensures cause { IsErrOf result JournalError.Device →
            HasFailed (D.failed self.old.disk) (D.failed self.new.disk) }
    {
        if self.stopped {
            return Err(JournalError::Stopped);
        }
        if self.places.len() >= MOST_ENTRIES {
            return Err(JournalError::Full);
        }
        if payload.len() > LONGEST_PAYLOAD {
            return Err(JournalError::TooLong);
        }
        // All that memory can refuse comes before the disk is touched.
        let text = staged(self.alloc, payload)?;
        self.places.reserve(1)?;
        let gate_at = self.gate_at;
        if write_payload(&mut self.disk, gate_at, &text).is_err() {
            self.stopped = true;
            return Err(JournalError::Device);
        }
        let len = payload.len() as u64;
        self.places.push_reserved(PayloadPlace {
            at: gate_at + 5,
            len,
        });
        self.gate_at = gate_at + 5 + len;
        Ok(())
    }

    /// Puts the payload of entry `k`, counted from 0, into `out`. A refusal leaves `out` as it was, but `Device`
    /// empties it. The journal stays as it is, and runs on after `Device`. In this order: `Memory`, `Stopped`,
    /// `NoSuchEntry`, `Device`.
    pub fn entry(&mut self, k: usize, out: &mut Vec<u8>) -> Result<(), JournalError>
        ensures ok { OnOk result (IfSome (D.bytes self.old.disk) (λ _.
            slice_get self.old.payloads k ≡ Some out.new.items)) }
        ensures exact { OnOk result (MayRead self.old k) }
        ensures same { (self.new.payloads ≡ self.old.payloads)
            × (self.new.stopped ≡ self.old.stopped) × Untouched D.Disk self.old.disk self.new.disk }
        ensures no_failure { OnOk result (D.failed self.new.disk ≡ D.failed self.old.disk) }

        ensures first_refusal { IfErr result (IsJournalEntryRefusal self.old k) }
        ensures device { IsErrOf result JournalError.Device → out.new.items ≡ [] }
        ensures err { IfErr result (λ e. e ≢ JournalError.Device → (self.new ≡ self.old)
            × (out.new.items ≡ out.old.items)) }
        ensures cause { IsErrOf result JournalError.Device →
            HasFailed (D.failed self.old.disk) (D.failed self.new.disk) }
    {
        if self.stopped {
            return Err(JournalError::Stopped);
        }
        if k >= self.places.len() {
            return Err(JournalError::NoSuchEntry);
        }
        let place = self.places[k];
        let mut payload = vec![in self.alloc; 0u8; place.len as usize]?;
        if fill(&mut self.disk, place.at, &mut payload).is_err() {
            out.clear();
            return Err(JournalError::Device);
        }
        *out = payload;
        Ok(())
    }

    /// Puts the payload of entry `k`, counted from 0, at the front of `buffer`, which must have 65,536 bytes or more,
    /// and answers the payload's length in bytes. It takes no memory. A refusal leaves the buffer as it was, but after
    /// `Device` it holds any bytes. The journal stays as it is, and runs on after `Device`. In this order: `Stopped`,
    /// `NoSuchEntry`, `Device`.
    pub fn entry_into(&mut self, k: usize, buffer: &mut [u8]) -> Result<usize, JournalError>
        requires { LONGEST_PAYLOAD ≤ length buffer.old }

        ensures ok { IfOk result (λ n. IfSome (D.bytes self.old.disk) (λ _.
            slice_get self.old.payloads k ≡ Some (take n buffer.new))) }
        ensures size { IfOk result (λ n. n ≤ LONGEST_PAYLOAD) }
        ensures room { length buffer.new ≡ length buffer.old }
        ensures exact { OnOk result (MayRead self.old k) }
        ensures same { (self.new.payloads ≡ self.old.payloads)
            × (self.new.stopped ≡ self.old.stopped) × Untouched D.Disk self.old.disk self.new.disk }
        ensures no_failure { OnOk result (D.failed self.new.disk ≡ D.failed self.old.disk) }

        ensures first_refusal { IfErr result (IsJournalEntryIntoRefusal self.old k) }
        ensures err { IfErr result (λ e. e ≢ JournalError.Device → (self.new ≡ self.old)
            × (buffer.new ≡ buffer.old)) }
        ensures cause { IsErrOf result JournalError.Device →
            HasFailed (D.failed self.old.disk) (D.failed self.new.disk) }
    {
        if self.stopped {
            return Err(JournalError::Stopped);
        }
        if k >= self.places.len() {
            return Err(JournalError::NoSuchEntry);
        }
        let PayloadPlace { at, len } = self.places[k];
        let len = len as usize;
        if fill_front(&mut self.disk, at, len, buffer).is_err() {
            return Err(JournalError::Device);
        }
        Ok(len)
    }

    /// How many entries there are, at most 4,096.
    pub fn count(&self) -> usize
        ensures value { result ≡ length self.now.payloads }
        ensures few { length self.now.payloads ≤ MOST_ENTRIES }
    {
        self.places.len()
    }

    /// Whether the disk failed in an `append`.
    pub fn stopped(&self) -> bool
        ensures { result ≡ self.now.stopped }
    {
        self.stopped
    }

    /// The disk, as it is.
    pub fn into_disk(self) -> D
        ensures { result ≡ self.disk }
    {
        let Journal {
            alloc: _,
            disk,
            places: _,
            gate_at: _,
            stopped: _,
        } = self;
        disk
    }
}
