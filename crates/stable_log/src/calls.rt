//! Runs of calls of a disk.
ghost use Rattle.std.specs.Prelude.{◌≡◌, ◌<◌, ◌≤◌, ◌+◌, ◌^◌, ℕ, List, take, drop, Some, IfSome, IsSome, ◌↔◌, option_map, length, IfOk, OnOk};
ghost use Rattle.stable_log.specs.Disk.{written};
ghost use Rattle.base_streams.specs.Counting.{Counts};
ghost use Rattle.stable_log.specs.Crash.{Torn, Follows, Stepped, Only};
ghost use Rattle.stable_log.specs.Devices.{AtAnyMoment, Untouched};
ghost use Rattle.stable_log.specs.Places.{with_text, IsPayloadStep};

use crate::Disk;
use base_streams::Fault;

// Writes a piece and syncs.
pub(crate) fn write_synced<D: Disk>(disk: &mut D, at: u64, piece: &[u8]) -> Result<(), Fault>
    requires { IfSome (D.bytes disk.old) (λ bs. at ≤ length bs) }
    ensures told { OnOk result (D.bytes disk.new ≡ option_map (λ bs.
        written bs at piece.now) (D.bytes disk.old)) }
    ensures tells { IsSome (D.bytes disk.new) ↔ IsSome (D.bytes disk.old) }
    ensures durable { OnOk result (IfSome (D.bytes disk.new) (λ bs. Only bs (D.images disk.new))) }
    ensures crash { Follows (Torn at (length piece.now)) (D.images disk.old) (D.images disk.new) }
    ensures any_moment { AtAnyMoment D.Disk disk.old disk.new (Stepped (Torn at
        (length piece.now)) (D.images disk.old)) }
    ensures cause { Counts (D.failed disk.old) (D.failed disk.new) result }
{
    disk.write_at(at, piece)?;
    disk.sync()
}

// Writes a payload's length, the payload and the next gate behind its gate, and then opens the gate.
pub(crate) fn write_payload<D: Disk>(disk: &mut D, gate_at: u64, text: &[u8]) -> Result<(), Fault>
    requires fits { gate_at < 2 ^ 63 }
    requires inside { IfSome (D.bytes disk.old) (λ bs. gate_at < length bs) }
    ensures told { OnOk result (D.bytes disk.new ≡ option_map (λ bs.
        with_text bs gate_at text.now) (D.bytes disk.old)) }
    ensures tells { IsSome (D.bytes disk.new) ↔ IsSome (D.bytes disk.old) }
    ensures durable { OnOk result (IfSome (D.bytes disk.new) (λ bs. Only bs (D.images disk.new))) }
    ensures any_moment { (bs : List ℕ) → D.bytes disk.old ≡ Some bs → Only bs (D.images disk.old) →
        AtAnyMoment D.Disk disk.old disk.new (IsPayloadStep bs gate_at text.now) }
    ensures cause { Counts (D.failed disk.old) (D.failed disk.new) result }
{
    write_synced(disk, gate_at + 1, text)?;
    // The text has to be on the disk before its gate opens: behind an open gate, what was there would count.
    write_synced(disk, gate_at, &[1])
}

// Fills a buffer and leaves no trace on the disk.
pub(crate) fn read<D: Disk>(disk: &mut D, at: u64, out: &mut [u8]) -> Result<(), Fault>
    ensures told { OnOk result ((bs : List ℕ) → D.bytes disk.old ≡ Some bs →
        (at + length out.old ≤ length bs) × (out.new ≡ take (length out.old) (drop at bs))) }
    ensures unwritten { Untouched D.Disk disk.old disk.new }
    ensures cause { Counts (D.failed disk.old) (D.failed disk.new) result }
{
    disk.read_at(at, out)
}

// The same for a vector.
pub(crate) fn fill<D: Disk>(disk: &mut D, at: u64, out: &mut Vec<u8>) -> Result<(), Fault>
    ensures told { OnOk result ((bs : List ℕ) → D.bytes disk.old ≡ Some bs →
        out.new.items ≡ take (length out.old.items) (drop at bs)) }
    ensures unwritten { Untouched D.Disk disk.old disk.new }
    ensures cause { Counts (D.failed disk.old) (D.failed disk.new) result }
{
    read(disk, at, out.as_mut_slice())
}

// The same for the front of a buffer.
pub(crate) fn fill_front<D: Disk>(
    disk: &mut D,
    at: u64,
    len: usize,
    out: &mut [u8],
) -> Result<(), Fault>
    requires { len ≤ length out.old }
    ensures told { OnOk result ((bs : List ℕ) → D.bytes disk.old ≡ Some bs →
        take len out.new ≡ take len (drop at bs)) }
    ensures room { length out.new ≡ length out.old }
    ensures unwritten { Untouched D.Disk disk.old disk.new }
    ensures cause { Counts (D.failed disk.old) (D.failed disk.new) result }
{
    read(disk, at, &mut out[..len])
}

// Syncs, so that what is read from here on is what a crash leaves, and asks for the length.
pub(crate) fn settle<D: Disk>(disk: &mut D) -> Result<u64, Fault>
    ensures told { IfOk result (λ n. (bs : List ℕ) → D.bytes disk.old ≡ Some bs → (n ≡ length bs)
        × Only bs (D.images disk.new)) }
    ensures unwritten { Untouched D.Disk disk.old disk.new }
    ensures cause { Counts (D.failed disk.old) (D.failed disk.new) result }
{
    disk.sync()?;
    disk.len()
}
