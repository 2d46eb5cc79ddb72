//! Reads what a file stands for. Nothing here writes.
ghost use Rattle.std.specs.Prelude.{◌≡◌, ◌≢◌, ◌<◌, ◌≤◌, ◌+◌, ℕ, List, IsTrue, ◌↔◌, MatchOption, take, drop, Some, IfSome, length, IfOk, IfErr, OnOk, IsErrOf};
ghost use Rattle.byteorder.specs.Endian.{big_bytes};
ghost use Rattle.base_streams.specs.Counting.{HasFailed};
ghost use Rattle.base_wire.specs.declared.limits.TheConstants.{LONGEST_PAYLOAD, MOST_ENTRIES};
ghost use Rattle.stable_log.specs.Crash.{Only};
ghost use Rattle.stable_log.specs.Devices.{Untouched};
ghost use Rattle.stable_log.specs.Image.{magic};
ghost use Rattle.stable_log.specs.Places.{IsClosedAt, IsPayloadAt, IsRead, ArePlaces, IsPayloadRefusal, IsPayloadsRefusal};
ghost use Rattle.stable_log.specs.Refusals.{IsJournalRecoverRefusal};

use crate::calls::{read, settle};
use crate::{Disk, JournalError};
use base_wire::{LONGEST_PAYLOAD, MOST_ENTRIES};
use std::alloc::Global;

// Where a payload stands in the file, and how long it is, in bytes.
#[derive(Clone, Copy)]
pub(crate) struct PayloadPlace {
    pub(crate) at: u64,
    pub(crate) len: u64,
}

// The number that four big-endian bytes spell.
fn number(text: &[u8; 4]) -> u32
    ensures { big_bytes 4 result ≡ text.now }
{
    u32::from_be_bytes(*text)
}

// What stands at a gate: nothing, or a payload at the place.
fn read_payload<D: Disk>(
    disk: &mut D,
    size: u64,
    gate_at: u64,
) -> Result<Option<PayloadPlace>, JournalError>
    ensures told { IfOk result (λ o. (bs : List ℕ) → D.bytes disk.old ≡ Some bs → size ≡ length bs →
        MatchOption o (IsClosedAt bs gate_at) (λ p. IsPayloadAt bs gate_at p)) }
    ensures place { IfOk result (λ o. IfSome o (λ p. (p.at ≡ gate_at + 5)
        × (p.len ≤ LONGEST_PAYLOAD) × (p.at + p.len ≤ size))) }
    ensures unwritten { Untouched D.Disk disk.old disk.new }
    ensures no_failure { OnOk result (D.failed disk.new ≡ D.failed disk.old) }
    ensures first_refusal { IfErr result (IsPayloadRefusal (D.bytes disk.old) size gate_at) }
    ensures cause { IsErrOf result JournalError.Device →
        HasFailed (D.failed disk.old) (D.failed disk.new) }
    ensures kept { IfErr result (λ e. e ≢ JournalError.Device
        → D.failed disk.new ≡ D.failed disk.old) }
{
    if gate_at >= size {
        return Err(JournalError::Damaged);
    }
    let mut gate = [0u8; 1];
    read(disk, gate_at, &mut gate)?;
    if gate[0] != 1 {
        return Ok(None);
    }
    if size - gate_at < 5 {
        return Err(JournalError::Damaged);
    }
    let mut text = [0u8; 4];
    read(disk, gate_at + 1, &mut text)?;
    let len = u64::from(number(&text));
    if len == 0 || len > LONGEST_PAYLOAD as u64 || len > size - gate_at - 5 {
        return Err(JournalError::Damaged);
    }
    Ok(Some(PayloadPlace {
        at: gate_at + 5,
        len,
    }))
}

// The places of all payloads, and the offset of the gate that is not open.
fn read_payloads<D: Disk>(
    alloc: Global,
    disk: &mut D,
    size: u64,
) -> Result<(Vec<PayloadPlace>, u64), JournalError>
    requires { (bs : List ℕ) → D.bytes disk.old ≡ Some bs → (size ≡ length bs) × (take 8 bs ≡ magic)
        × (8 ≤ size) }
    ensures told { IfOk result (λ r. (bs : List ℕ) → D.bytes disk.old ≡ Some bs →
        IsRead bs r.0.items r.1 × IsClosedAt bs r.1) }
    ensures placed { IfOk result (λ r. ArePlaces r.0.items r.1) }
    ensures unwritten { Untouched D.Disk disk.old disk.new }
    ensures no_failure { OnOk result (D.failed disk.new ≡ D.failed disk.old) }
    ensures first_refusal { IfErr result (IsPayloadsRefusal (D.bytes disk.old)) }
    ensures cause { IsErrOf result JournalError.Device →
        HasFailed (D.failed disk.old) (D.failed disk.new) }
    ensures kept { IfErr result (λ e. e ≢ JournalError.Device
        → D.failed disk.new ≡ D.failed disk.old) }
{
    let mut places = Vec::new(alloc);
    let mut gate_at = 8;
    for _ in 0..MOST_ENTRIES + 1 {
        match read_payload(disk, size, gate_at)? {
            None => return Ok((places, gate_at)),
            Some(place) => {
                places.reserve(1)?;
                places.push_reserved(place);
                gate_at = place.at + place.len;
            }
        }
    }
    Err(JournalError::Damaged)
}

fn is_magic(head: &[u8; 8]) -> bool
    ensures { IsTrue result ↔ head.now ≡ magic }
{
    head.as_slice() == b"HSJ1\0\0\0\0".as_slice()
}

// What `recover` reads: the places of all payloads, and the offset of the gate that is not open.
pub(crate) fn read_journal<D: Disk>(
    alloc: Global,
    disk: &mut D,
) -> Result<(Vec<PayloadPlace>, u64), JournalError>
    ensures told { IfOk result (λ r. (bs : List ℕ) → D.bytes disk.old ≡ Some bs →
        IsRead bs r.0.items r.1 × IsClosedAt bs r.1 × Only bs (D.images disk.new)) }
    ensures placed { IfOk result (λ r. ArePlaces r.0.items r.1) }
    ensures unwritten { Untouched D.Disk disk.old disk.new }
    ensures no_failure { OnOk result (D.failed disk.new ≡ D.failed disk.old) }
    ensures first_refusal { IfErr result (IsJournalRecoverRefusal (D.bytes disk.old)) }
    ensures cause { IsErrOf result JournalError.Device →
        HasFailed (D.failed disk.old) (D.failed disk.new) }
    ensures kept { IfErr result (λ e. e ≢ JournalError.Device
        → D.failed disk.new ≡ D.failed disk.old) }
{
    let size = settle(disk)?;
    if size < 8 {
        return Err(JournalError::NotAJournal);
    }
    let mut head = [0u8; 8];
    read(disk, 0, &mut head)?;
    if !is_magic(&head) {
        return Err(JournalError::NotAJournal);
    }
    read_payloads(alloc, disk, size)
}
