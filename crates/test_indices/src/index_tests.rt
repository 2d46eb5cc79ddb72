//! Index stores on a disk in memory. Their bytes are spelled by hand, from docs/FORMATS.md.

ghost use Rattle.std.specs.Prelude.{◌≤◌};
ghost use Rattle.base_wire.specs.declared.limits.TheConstants.{MOST_KEYS};

use key_index_store::{IndexError, IndexStore, key_of, q_of};
use stable_log::{Choice, Disk, Journal, MemoryDisk};
use std::alloc::{AllocError, Global};
use std::process::Abort;

// No reservation.
const EMPTY: &[u8] = b"HSJ1\0\0\0\0\0";

// One reservation.
const ONE: &[u8] = b"HSJ1\0\0\0\0\x01\0\0\0\x04\0\0\0\x10\0";

// A disk of these bytes.
fn disk_of<R: Abort + AllocGlobal>(rt: &R, bytes: &[u8]) -> MemoryDisk {
    let bytes = bytes.to_vec(rt.alloc()).expect(rt, "memory");
    MemoryDisk::new(rt.alloc(), bytes).expect(rt, "memory")
}

// A store on an empty disk.
fn created<R: Abort + AllocGlobal>(rt: &R) -> IndexStore<MemoryDisk> {
    let created = IndexStore::create(rt.alloc(), disk_of(rt, b""), 1);
    created.ok().expect(rt, "create")
}

// The store of so many keys that a disk holds.
fn recovered_with<R: Abort + AllocGlobal, D: Disk>(rt: &R, disk: D, keys: u8) -> IndexStore<D>
    requires some { 1 ≤ keys }
    requires most { keys ≤ MOST_KEYS }
{
    let recovered = IndexStore::recover(rt.alloc(), disk, keys);
    recovered.ok().expect(rt, "recover")
}

// The store of one key that a disk holds.
fn recovered<R: Abort + AllocGlobal, D: Disk>(rt: &R, disk: D) -> IndexStore<D> {
    recovered_with(rt, disk, 1)
}

// How many entries the journal of a disk has, if it is one.
fn entries_on<D: Disk>(alloc: Global, disk: D) -> Option<usize> {
    match Journal::recover(alloc, disk) {
        Ok(journal) => Some(journal.count()),
        Err(_) => None,
    }
}

// How many indices the store of so many keys has left that a disk holds, or how it is refused.
fn left_on<D: Disk>(alloc: Global, disk: D, keys: u8) -> Result<u32, IndexError>
    requires some { 1 ≤ keys }
    requires most { keys ≤ MOST_KEYS }
{
    match IndexStore::recover(alloc, disk, keys) {
        Ok(store) => Ok(store.left()),
        Err((e, _)) => Err(e),
    }
}

// A journal of as many reservations.
fn reserved(alloc: Global, count: u32) -> Result<Vec<u8>, AllocError> {
    let mut file = b"HSJ1\0\0\0\0".to_vec(alloc)?;
    for k in 0..count {
        let boundary = k.saturating_add(1).saturating_mul(16);
        file.extend_from_slice(b"\x01\0\0\0\x04")?;
        file.extend_from_slice(&boundary.to_be_bytes())?;
    }
    file.push(0)?;
    Ok(file)
}

// Whether the store gives each index from one up to another.
fn gives<D: Disk>(store: &mut IndexStore<D>, from: u32, until: u32) -> bool {
    for index in from..until {
        if store.next() != Ok(index) {
            return false;
        }
    }
    true
}

// Whether all indices are given.
fn is_spent<D: Disk>(store: &mut IndexStore<D>) -> bool {
    store.left() == 0 && store.next() == Err(IndexError::Spent)
}

// Asserts that a store gives all indices from 16 on, and then no more.
fn assert_gives_the_rest<R: Abort + AllocGlobal, D: Disk>(rt: &R, disk: D) {
    let mut store = recovered(rt, disk);
    assert!(rt; gives(&mut store, 16, 1_024) && is_spent(&mut store) && is_spent(&mut store));
    assert!(rt; is_spent(&mut recovered(rt, store.into_disk())));
}

#[test]
fn indices_skip_after_crash(rt: HostRuntime) {
    let mut store = created(&rt);
    assert!(rt; gives(&mut store, 0, 3) && store.left() == 1_021);
    let disk = store.into_disk();
    assert!(rt; disk.bytes() == ONE);
    assert_gives_the_rest(&rt, disk.crash(Choice::Old).expect(&rt, "memory"));
}

// Whether the disk fails in a `next`, and the store gives nothing from then on.
fn fails_and_stops<D: Disk>(store: &mut IndexStore<D>) -> bool {
    store.next() == Err(IndexError::Device)
        && store.stopped()
        && store.left() == 0
        && store.next() == Err(IndexError::Stopped)
}

// How many calls the disk answered, as a fuse counts them.
fn calls_of(store: IndexStore<MemoryDisk>) -> u32 {
    u32::try_from(store.into_disk().calls()).unwrap_or(u32::MAX)
}

// How many calls a recovery of these bytes makes.
fn recovery_calls<R: Abort + AllocGlobal>(rt: &R, bytes: &[u8]) -> u32 {
    calls_of(recovered(rt, disk_of(rt, bytes)))
}

// How many calls a recovery of no reservation makes with a `next` behind it.
fn next_calls<R: Abort + AllocGlobal>(rt: &R) -> u32 {
    let mut store = recovered(rt, disk_of(rt, EMPTY));
    assert!(rt; store.next() == Ok(0));
    calls_of(store)
}

// The disk that a failed `next` leaves, where the call behind `pass` of a recovery and the `next` fails.
fn failed_disk<R: Abort + AllocGlobal>(rt: &R, pass: u32, forever: bool) -> MemoryDisk {
    let mut disk = disk_of(rt, EMPTY);
    disk.fuse(pass, forever);
    let mut store = recovered(rt, disk);
    assert!(rt; fails_and_stops(&mut store), "after {pass} calls");
    store.into_disk()
}

// Whether the disk failed just once, and the store that it holds gives this index next.
fn goes_on_with<R: Abort + AllocGlobal>(rt: &R, disk: MemoryDisk, index: u32) -> bool {
    let mut disk = disk;
    disk.fuse(u32::MAX, false);
    disk.failures() == 1 && recovered(rt, disk).next() == Ok(index)
}

// A boundary is found from its last call on, which makes it durable.
#[test]
fn next_with_each_call_failing(rt: HostRuntime) {
    let last = next_calls(&rt).saturating_sub(1);
    for pass in recovery_calls(&rt, EMPTY)..=last {
        for forever in [false, true] {
            let index = if pass == last { 16 } else { 0 };
            let disk = failed_disk(&rt, pass, forever);
            assert!(rt; goes_on_with(&rt, disk, index), "after {pass} calls");
        }
    }
}

// Whether a recovery of one reservation that fails behind `pass` calls answers `Device`, and one of the disk that it
// hands back, once mended, finds the boundary.
fn fails_and_is_found<R: Abort + AllocGlobal>(rt: &R, pass: u32, forever: bool) -> bool {
    let mut disk = disk_of(rt, ONE);
    disk.fuse(pass, forever);
    match IndexStore::recover(rt.alloc(), disk, 1) {
        Err((IndexError::Device, disk)) => goes_on_with(rt, disk, 16),
        _ => false,
    }
}

#[test]
fn recover_with_each_call_failing(rt: HostRuntime) {
    for pass in 0..recovery_calls(&rt, ONE) {
        for forever in [false, true] {
            assert!(rt; fails_and_is_found(&rt, pass, forever), "{pass} {forever}");
        }
    }
}

const BAD: Result<u32, IndexError> = Err(IndexError::BadEntry);

// Files, how many entries each has as a journal, and how many indices it has left as a store.
const FILES: [(&[u8], Option<usize>, Result<u32, IndexError>); 7] = [
    (b"", None, BAD),
    (b"HSJ1\0\0\0\0\x01", None, BAD),
    (EMPTY, Some(0), Ok(1_024)),
    (
        b"HSJ1\0\0\0\0\x01\0\0\0\x04\0\0\0\x10\x01\0\0\0\x04\0\0\0\x20\0",
        Some(2),
        Ok(992),
    ),
    // a boundary too high
    (b"HSJ1\0\0\0\0\x01\0\0\0\x04\0\0\0\x20\0", Some(1), BAD),
    // one boundary twice
    (
        b"HSJ1\0\0\0\0\x01\0\0\0\x04\0\0\0\x10\x01\0\0\0\x04\0\0\0\x10\0",
        Some(2),
        BAD,
    ),
    // a long entry
    (b"HSJ1\0\0\0\0\x01\0\0\0\x05\0\0\0\x10\0\0", Some(1), BAD),
];

#[test]
fn index_refusals(rt: HostRuntime) {
    for (bytes, entries, left) in &FILES {
        assert!(rt;
            entries_on(rt.alloc(), disk_of(&rt, bytes)) == *entries,
            "{bytes:?}"
        );
        assert!(rt;
            left_on(rt.alloc(), disk_of(&rt, bytes), 1) == *left,
            "{bytes:?}"
        );
    }
}

// Asserts what a store of so many keys says of a journal of as many reservations.
fn assert_left<R: Abort + AllocGlobal>(
    rt: &R,
    keys: u8,
    cases: &[(u32, Result<u32, IndexError>); 3],
)
    requires some { 1 ≤ keys }
    requires most { keys ≤ MOST_KEYS }
{
    for (count, left) in cases {
        let file = reserved(rt.alloc(), *count).expect(rt, "memory");
        assert!(rt;
            left_on(rt.alloc(), disk_of(rt, &file), keys) == *left,
            "{keys} {count}"
        );
    }
}

#[test]
fn most_reservations(rt: HostRuntime) {
    assert_left(&rt, 1, &[(63, Ok(16)), (64, Ok(0)), (65, BAD)]);
    assert_left(&rt, 2, &[(64, Ok(1_024)), (128, Ok(0)), (129, BAD)]);
    assert_left(&rt, 4, &[(64, Ok(3_072)), (256, Ok(0)), (257, BAD)]);
}

// Whether the disk of a store holds just so many reservations.
fn has_reserved<R: Abort + AllocGlobal>(rt: &R, disk: &MemoryDisk, count: u32) -> bool {
    disk.bytes() == reserved(rt.alloc(), count).expect(rt, "memory").as_slice()
}

#[test]
fn the_second_key_follows_the_first(rt: HostRuntime) {
    let created = IndexStore::create(rt.alloc(), disk_of(&rt, b""), 2);
    let mut store = created.ok().expect(&rt, "create");
    assert!(rt; store.keys() == 2 && gives(&mut store, 0, 2_048));
    assert!(rt; is_spent(&mut store) && is_spent(&mut store));
    assert!(rt; has_reserved(&rt, &store.into_disk(), 128));
}

// The first key's indices were given while it was the only one.
#[test]
fn a_store_goes_on_with_a_second_key(rt: HostRuntime) {
    let first = reserved(rt.alloc(), 64).expect(&rt, "memory");
    let mut store = recovered_with(&rt, disk_of(&rt, &first), 2);
    assert!(rt; store.next() == Ok(1_024));
    assert!(rt; has_reserved(&rt, &store.into_disk(), 65));
}

#[test]
fn an_index_is_of_a_key_at_a_place(rt: HostRuntime) {
    assert!(rt; key_of(1_023) == 0 && q_of(1_023) == 1_023);
    assert!(rt; key_of(1_024) == 1 && q_of(1_024) == 0);
    assert!(rt; key_of(4_095) == 3 && q_of(4_095) == 1_023);
}

#[test]
fn create_wants_an_empty_disk(rt: HostRuntime) {
    let refused = IndexStore::create(rt.alloc(), disk_of(&rt, b"x"), 1);
    assert!(rt; matches!(refused, Err((IndexError::BadEntry, _))));
}
