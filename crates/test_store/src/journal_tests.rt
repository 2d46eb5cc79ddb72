//! Journals on a disk in memory and in a file. Their bytes are spelled by hand, from docs/FORMATS.md.

use crate::disk_tests::{CHOICES, crashed, disk_of};
use stable_log::{Choice, Disk, Fault, FileDisk, Journal, JournalError, MemoryDisk};
use std::alloc::{AllocError, Global};
use std::fs;
use std::fs::{File, OpenOptions};
use std::process::Abort;
use std::test::Fail;

/// What `create` writes.
pub(crate) const EMPTY: &[u8] = b"HSJ1\0\0\0\0\0";

// A journal of one entry, "abc".
const ABC: &[u8] = b"HSJ1\0\0\0\0\x01\0\0\0\x03abc\0";

/// A journal on an empty disk.
pub(crate) fn created<R: Abort + AllocGlobal, D: Disk>(rt: &R, disk: D) -> Journal<D> {
    Journal::create(rt.alloc(), disk).ok().expect(rt, "create")
}

/// The journal that a disk holds.
pub(crate) fn recovered<R: Abort + AllocGlobal, D: Disk>(rt: &R, disk: D) -> Journal<D> {
    Journal::recover(rt.alloc(), disk)
        .ok()
        .expect(rt, "recover")
}

// How many calls the disk answered, as a fuse counts them.
fn calls_of(journal: Journal<MemoryDisk>) -> u32 {
    u32::try_from(journal.into_disk().calls()).unwrap_or(u32::MAX)
}

// How many calls a recovery of these bytes makes.
fn recovery_calls<R: Abort + AllocGlobal>(rt: &R, bytes: &[u8]) -> u32 {
    calls_of(recovered(rt, disk_of(rt, bytes)))
}

// How many calls a recovery of no entry makes with an append behind it.
fn append_calls<R: Abort + AllocGlobal>(rt: &R) -> u32 {
    let mut journal = recovered(rt, disk_of(rt, EMPTY));
    assert!(rt; journal.append(b"abc") == Ok(()));
    calls_of(journal)
}

// How `recover` refuses a disk.
fn refusal<D: Disk>(alloc: Global, disk: D) -> Option<JournalError> {
    match Journal::recover(alloc, disk) {
        Ok(_) => None,
        Err((e, _)) => Some(e),
    }
}

/// How `create` refuses a disk.
pub(crate) fn create_refusal<D: Disk>(alloc: Global, disk: D) -> Option<JournalError> {
    match Journal::create(alloc, disk) {
        Ok(_) => None,
        Err((e, _)) => Some(e),
    }
}

// A journal file of as many entries of one byte.
fn entries(alloc: Global, count: u32) -> Result<Vec<u8>, AllocError> {
    let mut bytes = b"HSJ1\0\0\0\0".to_vec(alloc)?;
    for _ in 0..count {
        bytes.extend_from_slice(b"\x01\0\0\0\x01x")?;
    }
    bytes.push(0)?;
    Ok(bytes)
}

// A journal file of one entry of as many bytes.
fn long_entry(alloc: Global, len: u32) -> Result<Vec<u8>, AllocError> {
    let mut bytes = b"HSJ1\0\0\0\0\x01".to_vec(alloc)?;
    bytes.extend_from_slice(&len.to_be_bytes())?;
    bytes.extend_from_slice(&vec![in alloc; b'x'; len as usize]?)?;
    bytes.push(0)?;
    Ok(bytes)
}

// Whether entry `k` is read as this payload.
fn reads<D: Disk>(alloc: Global, journal: &mut Journal<D>, k: usize, payload: &[u8]) -> bool {
    let mut out = Vec::new(alloc);
    journal.entry(k, &mut out) == Ok(()) && out.as_slice() == payload
}

// Whether "abc" is the one entry.
fn has_abc_alone<D: Disk>(alloc: Global, journal: &mut Journal<D>) -> bool {
    journal.count() == 1 && reads(alloc, journal, 0, b"abc")
}

// Whether an entry is refused so, and these bytes are left in a buffer of "old".
fn refuses<D: Disk>(
    alloc: Global,
    journal: &mut Journal<D>,
    k: usize,
    why: JournalError,
    left: &[u8],
) -> bool {
    match b"old".to_vec(alloc) {
        Ok(mut out) => journal.entry(k, &mut out) == Err(why) && out.as_slice() == left,
        Err(_) => false,
    }
}

// Whether the disk fails in an append.
fn fails<D: Disk>(journal: &mut Journal<D>) -> bool {
    journal.append(b"abc") == Err(JournalError::Device)
}

// Whether the journal is stopped, and has no entry.
fn is_stopped_and_empty<D: Disk>(alloc: Global, journal: &mut Journal<D>) -> bool {
    journal.stopped()
        && journal.append(b"abc") == Err(JournalError::Stopped)
        && journal.entry(0, &mut Vec::new(alloc)) == Err(JournalError::Stopped)
        && journal.count() == 0
}

#[test]
fn an_append_is_found_again(rt: HostRuntime) {
    let mut journal = created(&rt, disk_of(&rt, b""));
    assert!(rt; journal.append(b"abc") == Ok(()));
    let disk = journal.into_disk();
    assert!(rt; disk.bytes() == ABC);
    assert!(rt; has_abc_alone(rt.alloc(), &mut recovered(&rt, disk)));
}

// The disk that a failed append leaves, where the call behind `pass` of a recovery of no entry and the append fails.
fn disk_after_append<R: Abort + AllocGlobal>(rt: &R, pass: u32, forever: bool) -> MemoryDisk {
    let mut disk = disk_of(rt, EMPTY);
    disk.fuse(pass, forever);
    let mut journal = recovered(rt, disk);
    assert!(rt; fails(&mut journal) && is_stopped_and_empty(rt.alloc(), &mut journal));
    journal.into_disk()
}

// Whether there is no entry, or "abc" is the one.
fn is_empty_or_has_abc<D: Disk>(alloc: Global, journal: &mut Journal<D>) -> bool {
    journal.count() == 0 || has_abc_alone(alloc, journal)
}

// Asserts what each crash leaves of an append whose call behind `pass` failed.
fn assert_crashes_leave_it<R: Abort + AllocGlobal>(rt: &R, pass: u32, forever: bool) {
    let disk = disk_after_append(rt, pass, forever);
    for choice in &CHOICES {
        let mut again = recovered(rt, crashed(rt, &disk, *choice));
        assert!(rt;
            is_empty_or_has_abc(rt.alloc(), &mut again),
            "{pass} {forever} {choice:?}"
        );
    }
}

#[test]
fn append_with_each_call_failing(rt: HostRuntime) {
    for pass in recovery_calls(&rt, EMPTY)..append_calls(&rt) {
        assert_crashes_leave_it(&rt, pass, false);
        assert_crashes_leave_it(&rt, pass, true);
    }
}

#[test]
fn an_append_outlasts_each_crash(rt: HostRuntime) {
    let mut journal = created(&rt, disk_of(&rt, b""));
    assert!(rt; journal.append(b"abc") == Ok(()));
    let disk = journal.into_disk();
    for choice in &CHOICES {
        let mut again = recovered(&rt, crashed(&rt, &disk, *choice));
        assert!(rt; has_abc_alone(rt.alloc(), &mut again), "{choice:?}");
    }
}

// The disk that an append leaves whose last call fails, once.
fn disk_without_last_call<R: Abort + AllocGlobal>(rt: &R) -> MemoryDisk {
    disk_after_append(rt, append_calls(rt).saturating_sub(1), false)
}

// The gate is written before the last call, and not before the one before it.
#[test]
fn a_failed_append_may_be_found(rt: HostRuntime) {
    let last = append_calls(&rt).saturating_sub(1);
    for pass in recovery_calls(&rt, EMPTY)..=last {
        let count = recovered(&rt, disk_after_append(&rt, pass, false)).count();
        assert!(rt; count == usize::from(pass == last), "after {pass} calls");
    }
}

// Whether a recovery that fails behind `pass` calls answers `Device`, and one of the disk that it hands back, once
// mended, finds "abc".
fn fails_and_is_found<R: Abort + AllocGlobal>(rt: &R, pass: u32, forever: bool) -> bool {
    let mut disk = disk_of(rt, ABC);
    disk.fuse(pass, forever);
    let Err((JournalError::Device, mut disk)) = Journal::recover(rt.alloc(), disk) else {
        return false;
    };
    disk.fuse(u32::MAX, false);
    disk.failures() == 1 && has_abc_alone(rt.alloc(), &mut recovered(rt, disk))
}

#[test]
fn recover_with_each_call_failing(rt: HostRuntime) {
    for pass in 0..recovery_calls(&rt, ABC) {
        for forever in [false, true] {
            assert!(rt; fails_and_is_found(&rt, pass, forever), "{pass} {forever}");
        }
    }
}

// Whether the journal is empty, and takes an entry.
fn takes_one<D: Disk>(journal: &mut Journal<D>) -> bool {
    journal.count() == 0 && journal.append(b"d") == Ok(()) && journal.count() == 1
}

#[test]
fn torn_gate_is_closed(rt: HostRuntime) {
    let disk = crashed(&rt, &disk_without_last_call(&rt), Choice::Fill(0x37));
    assert!(rt; disk.bytes() == b"HSJ1\0\0\0\0\x37\0\0\0\x03abc\0".as_slice());
    assert!(rt; takes_one(&mut recovered(&rt, disk)));
}

const REFUSALS: [(&[u8], JournalError, &str); 7] = [
    (b"", JournalError::NotAJournal, "nothing"),
    (b"HSJ1\0\0\0", JournalError::NotAJournal, "a cut head"),
    (
        b"HSJ1\0\0\0\x01\0",
        JournalError::NotAJournal,
        "another head",
    ),
    (b"HSJ1\0\0\0\0", JournalError::Damaged, "no gate"),
    (b"HSJ1\0\0\0\0\x01", JournalError::Damaged, "no entry"),
    (
        b"HSJ1\0\0\0\0\x01\0\0\0\x03ab",
        JournalError::Damaged,
        "a cut payload",
    ),
    (
        b"HSJ1\0\0\0\0\x01\0\0\0\x03abc",
        JournalError::Damaged,
        "no next gate",
    ),
];

#[test]
fn journal_refusals(rt: HostRuntime) {
    for (bytes, why, what) in &REFUSALS {
        assert!(rt;
            refusal(rt.alloc(), disk_of(&rt, bytes)) == Some(*why),
            "{what}"
        );
    }
}

#[test]
fn shortest_and_longest_payloads(rt: HostRuntime) {
    let damaged = Some(JournalError::Damaged);
    for (len, want) in [(0, damaged), (65_536, None), (65_537, damaged)] {
        let bytes = long_entry(rt.alloc(), len).expect(&rt, "memory");
        assert!(rt;
            refusal(rt.alloc(), disk_of(&rt, &bytes)) == want,
            "{len} bytes"
        );
    }
}

// A journal of as many entries of one byte.
fn disk_of_entries<R: Abort + AllocGlobal>(rt: &R, count: u32) -> MemoryDisk {
    disk_of(rt, &entries(rt.alloc(), count).expect(rt, "memory"))
}

#[test]
fn most_entries(rt: HostRuntime) {
    let too_many = disk_of_entries(&rt, 4_097);
    assert!(rt; refusal(rt.alloc(), too_many) == Some(JournalError::Damaged));
    let mut full = recovered(&rt, disk_of_entries(&rt, 4_096));
    assert!(rt; full.append(b"x") == Err(JournalError::Full));
}

#[test]
fn create_wants_an_empty_disk(rt: HostRuntime) {
    let refused = create_refusal(rt.alloc(), disk_of(&rt, EMPTY));
    assert!(rt; refused == Some(JournalError::NotAJournal));
}

// Fills a journal that has room for two entries more, with a payload of the greatest length first.
fn fills<D: Disk>(journal: &mut Journal<D>, long: &[u8]) -> bool {
    long.len() == 65_537
        && journal.append(long) == Err(JournalError::TooLong)
        && journal.append(&long[1..]) == Ok(())
        && journal.append(b"x") == Ok(())
        && journal.append(b"x") == Err(JournalError::Full)
        && journal.append(long) == Err(JournalError::Full)
}

#[test]
fn call_refusals(rt: HostRuntime) {
    let mut journal = recovered(&rt, disk_of_entries(&rt, 4_094));
    assert!(rt;
        refuses(
            rt.alloc(),
            &mut journal,
            4_094,
            JournalError::NoSuchEntry,
            b"old"
        )
    );
    let long = long_entry(rt.alloc(), 65_523).expect(&rt, "memory");
    assert!(rt; fills(&mut journal, &long));
    let stored = long.get(1..).expect(&rt, "a byte");
    assert!(rt; reads(rt.alloc(), &mut journal, 4_094, stored));
}

#[test]
fn a_failed_read_stops_nothing(rt: HostRuntime) {
    let alloc = rt.alloc();
    let mut disk = disk_of(&rt, ABC);
    disk.fuse(recovery_calls(&rt, ABC), false);
    let mut journal = recovered(&rt, disk);
    assert!(rt; refuses(alloc, &mut journal, 0, JournalError::Device, b""));
    assert!(rt; !journal.stopped() && reads(alloc, &mut journal, 0, b"abc"));
    assert!(rt; journal.into_disk().failures() == 1);
}

#[test]
fn an_empty_journal_has_no_entry(rt: HostRuntime) {
    let mut journal = recovered(&rt, disk_of(&rt, EMPTY));
    assert!(rt; journal.count() == 0);
    assert!(rt;
        refuses(
            rt.alloc(),
            &mut journal,
            0,
            JournalError::NoSuchEntry,
            b"old"
        )
    );
}

// Whether the file holds 17 bytes, so that a read across their end fails.
fn ends_at_17<D: Disk>(disk: &mut D) -> bool {
    disk.len() == Ok(17) && disk.read_at(16, &mut [0u8; 2]) == Err(Fault) && disk.failures() == 1
}

// Makes a journal of "abc" in an empty file.
fn write_abc<R: Abort + AllocGlobal>(rt: &R, file: File) {
    let mut journal = created(rt, FileDisk::new(file));
    assert!(rt; journal.append(b"abc") == Ok(()));
}

// Finds it again.
fn read_abc<R: Abort + AllocGlobal>(rt: &R, file: File) {
    let mut journal = recovered(rt, FileDisk::new(file));
    assert!(rt; has_abc_alone(rt.alloc(), &mut journal));
    assert!(rt; ends_at_17(&mut journal.into_disk()));
}

#[test]
fn a_file_is_read_back(rt: HostRuntime) -> Result<(), Fail> {
    let path = "stable_log_test.hsj";
    let mut options = OpenOptions::new();
    options.read(true).write(true).create(true).truncate(true);
    write_abc(&rt, options.open(&rt, path)?);
    assert!(rt; fs::read(&rt, path)?.as_slice() == ABC);
    options.create(false).truncate(false);
    read_abc(&rt, options.open(&rt, path)?);
    fs::remove_file(&rt, path)?;
    Ok(())
}
