//! Logs on a disk in memory, of entries that an independent program made.

ghost use Rattle.blocks.specs.Headers.{IsGenesis};

use crate::entry_tests::{is_written, read};
use blocks::{CommitteeView, Header};
use stable_log::{Disk, MemoryDisk};
use std::alloc::{AllocError, Global};
use std::process::Abort;
use test_fixtures::{log_entries as texts, verdicts};
use vote_log::{LogError, VoteLog};

/// A disk of these bytes.
pub(crate) fn disk_of<R: Abort + AllocGlobal>(rt: &R, bytes: &[u8]) -> MemoryDisk {
    let bytes = bytes.to_vec(rt.alloc()).expect(rt, "memory");
    MemoryDisk::new(rt.alloc(), bytes).expect(rt, "memory")
}

/// The genesis of the committee.
pub(crate) fn genesis<R: Abort>(rt: &R) -> Header
    ensures { IsGenesis result }
{
    let committee = CommitteeView::parse(verdicts::committee());
    committee.ok().expect(rt, "a committee").genesis()
}

// A log of the committee's chain on a disk that holds nothing.
fn created<R: Abort + AllocGlobal, D: Disk>(rt: &R, disk: D) -> VoteLog<D> {
    let log = VoteLog::create(rt.alloc(), disk, genesis(rt));
    log.ok().expect(rt, "create")
}

/// A log of the committee's chain, with no entry.
pub(crate) fn new_log<R: Abort + AllocGlobal>(rt: &R) -> VoteLog<MemoryDisk> {
    created(rt, disk_of(rt, b""))
}

// How many calls the disk answered, as a fuse counts them.
fn calls_of(log: VoteLog<MemoryDisk>) -> u32 {
    u32::try_from(log.into_disk().calls()).unwrap_or(u32::MAX)
}

// How many calls `create` makes.
fn create_calls<R: Abort + AllocGlobal>(rt: &R) -> u32 {
    calls_of(new_log(rt))
}

/// How many calls an append makes behind it.
pub(crate) fn append_calls<R: Abort + AllocGlobal>(rt: &R) -> u32 {
    let mut log = new_log(rt);
    add(rt, &mut log, texts::a1_voted());
    calls_of(log).saturating_sub(create_calls(rt))
}

/// The same log, on a disk that lets `pass` calls through after `create` and fails the next.
pub(crate) fn failing_after<R: Abort + AllocGlobal>(rt: &R, pass: u32) -> VoteLog<MemoryDisk> {
    let mut disk = disk_of(rt, b"");
    disk.fuse(pass.saturating_add(create_calls(rt)), false);
    created(rt, disk)
}

/// The log that a disk holds.
pub(crate) fn recovered<R: Abort + AllocGlobal, D: Disk>(rt: &R, disk: D) -> VoteLog<D> {
    let log = VoteLog::recover(rt.alloc(), disk, genesis(rt));
    log.ok().expect(rt, "recover")
}

// How recovery refuses a disk.
fn refusal<R: Abort + AllocGlobal, D: Disk>(rt: &R, disk: D) -> Option<LogError> {
    match VoteLog::recover(rt.alloc(), disk, genesis(rt)) {
        Ok(_) => None,
        Err((e, _)) => Some(e),
    }
}

/// What `append` answers to the entry of this text, which has to be legal.
pub(crate) fn append<R: Abort + AllocGlobal, D: Disk>(
    rt: &R,
    log: &mut VoteLog<D>,
    text: &[u8],
) -> Result<(), LogError> {
    let entry = read(rt, text);
    assert!(rt; log.allows(&entry));
    log.append(&entry)
}

/// Adds the entry of this text.
pub(crate) fn add<R: Abort + AllocGlobal, D: Disk>(rt: &R, log: &mut VoteLog<D>, text: &[u8]) {
    assert!(rt; append(rt, log, text) == Ok(()));
}

// Whether entry `k` is written as this text.
fn is_entry<D: Disk>(alloc: Global, log: &mut VoteLog<D>, k: usize, text: &[u8]) -> bool {
    match log.entry(k) {
        Ok(entry) => is_written(alloc, &entry, text),
        Err(_) => false,
    }
}

// How an entry is refused.
fn entry_refusal<D: Disk>(log: &mut VoteLog<D>, k: usize) -> Option<LogError> {
    match log.entry(k) {
        Ok(_) => None,
        Err(e) => Some(e),
    }
}

/// An open gate, and the length of an entry of 1,704 bytes, as A1's.
pub(crate) const SHORT: &[u8] = b"\x01\0\0\x06\xa8";

/// The same for the 6,069 bytes of A2's.
pub(crate) const LONG: &[u8] = b"\x01\0\0\x17\xb5";

/// The journal file of these pieces.
pub(crate) fn file_of(alloc: Global, pieces: &[&[u8]]) -> Result<Vec<u8>, AllocError> {
    let mut file = b"HSJ1\0\0\0\0".to_vec(alloc)?;
    for piece in pieces {
        file.extend_from_slice(piece)?;
    }
    file.push(0)?;
    Ok(file)
}

// Whether the bytes are the journal file of A1 and A2.
fn are_both(alloc: Global, bytes: &[u8]) -> bool {
    let pieces = [SHORT, texts::a1_voted(), LONG, texts::a2_voted()];
    match file_of(alloc, &pieces) {
        Ok(file) => bytes == file.as_slice(),
        Err(_) => false,
    }
}

// Whether the log has two entries, of which A2 is the last.
fn ends_with_a2<D: Disk>(alloc: Global, log: &mut VoteLog<D>) -> bool {
    log.count() == 2
        && log.replayed().stored_vote_view() == 2
        && is_entry(alloc, log, 1, texts::a2_voted())
        && entry_refusal(log, 2) == Some(LogError::NoSuchEntry)
}

#[test]
fn entries_outlast_recovery(rt: HostRuntime) {
    let mut log = new_log(&rt);
    add(&rt, &mut log, texts::a1_voted());
    add(&rt, &mut log, texts::a2_voted());
    assert!(rt; log.count() == 2 && log.steps().len() == 2);
    let disk = log.into_disk();
    assert!(rt; are_both(rt.alloc(), disk.bytes()));
    assert!(rt; ends_with_a2(rt.alloc(), &mut recovered(&rt, disk)));
}

// The disk of a log of A1 and A2.
fn disk_of_both<R: Abort + AllocGlobal>(rt: &R) -> MemoryDisk {
    let pieces = [SHORT, texts::a1_voted(), LONG, texts::a2_voted()];
    disk_of(rt, &file_of(rt.alloc(), &pieces).expect(rt, "memory"))
}

// Whether the disk failed just once, and both entries are found on it once it is mended.
fn has_both<R: Abort + AllocGlobal>(rt: &R, disk: MemoryDisk) -> bool {
    let mut disk = disk;
    disk.fuse(u32::MAX, false);
    disk.failures() == 1 && ends_with_a2(rt.alloc(), &mut recovered(rt, disk))
}

// Whether a recovery that fails behind `pass` calls answers `Device`, and one of the disk that it hands back finds both.
fn fails_and_is_found<R: Abort + AllocGlobal>(rt: &R, pass: u32, forever: bool) -> bool {
    let mut disk = disk_of_both(rt);
    disk.fuse(pass, forever);
    match VoteLog::recover(rt.alloc(), disk, genesis(rt)) {
        Err((LogError::Device, disk)) => has_both(rt, disk),
        _ => false,
    }
}

#[test]
fn recover_with_each_call_failing(rt: HostRuntime) {
    for pass in 0..calls_of(recovered(&rt, disk_of_both(&rt))) {
        for forever in [false, true] {
            assert!(rt; fails_and_is_found(&rt, pass, forever), "{pass} {forever}");
        }
    }
}

// How recovery refuses a journal of these pieces.
fn refusal_of<R: Abort + AllocGlobal>(rt: &R, pieces: &[&[u8]]) -> Option<LogError> {
    let file = file_of(rt.alloc(), pieces).expect(rt, "memory");
    refusal(rt, disk_of(rt, &file))
}

// An entry of the byte 3 alone.
const BAD: &[u8] = b"\x01\0\0\0\x01\x03";

#[test]
fn bad_log_entries(rt: HostRuntime) {
    let third = texts::third_view_on_genesis();
    let second = texts::second_view_on_genesis();
    let illegal = Some(LogError::IllegalLog(1));
    let cases: [(&[&[u8]], Option<LogError>); 5] = [
        (&[SHORT, third, SHORT, second], illegal),
        (&[BAD], Some(LogError::BadEntry(0))),
        (&[SHORT, second, SHORT, third], None),
        // The least bad entry counts, whichever it is.
        (&[SHORT, third, SHORT, second, BAD], illegal),
        (
            &[SHORT, third, BAD, SHORT, second],
            Some(LogError::BadEntry(1)),
        ),
    ];
    for (pieces, refusal) in &cases {
        assert!(rt; refusal_of(&rt, pieces) == *refusal, "{refusal:?}");
    }
}

// Whether the lock is at view 4, and the last vote at view 3.
fn is_locked_above_the_vote<D: Disk>(log: &VoteLog<D>) -> bool {
    let replayed = log.replayed();
    replayed.stored_vote_view() == 3 && replayed.lock().view == 4
}

// Whether the entry of this text would be legal.
fn allows<R: Abort + AllocGlobal, D: Disk>(rt: &R, log: &VoteLog<D>, text: &[u8]) -> bool {
    log.allows(&read(rt, text))
}

#[test]
fn a_lock_that_is_raised_without_a_vote_is_stored(rt: HostRuntime) {
    let mut log = new_log(&rt);
    add(&rt, &mut log, texts::third_view_on_genesis());
    add(&rt, &mut log, texts::x6_raised());
    assert!(rt; is_locked_above_the_vote(&log));
    // Once more it would raise nothing.
    assert!(rt; !allows(&rt, &log, texts::x6_raised()));
}

// Whether the log is stopped, has no entry, and gives none.
fn is_stopped_and_empty<D: Disk>(log: &mut VoteLog<D>) -> bool {
    log.stopped() && log.count() == 0 && entry_refusal(log, 0) == Some(LogError::Stopped)
}

#[test]
fn a_failing_disk_stops_the_log(rt: HostRuntime) {
    let mut log = failing_after(&rt, 1);
    assert!(rt; append(&rt, &mut log, texts::a1_voted()) == Err(LogError::Device));
    assert!(rt; is_stopped_and_empty(&mut log));
    assert!(rt; append(&rt, &mut log, texts::a1_voted()) == Err(LogError::Stopped));
    let mut log = recovered(&rt, log.into_disk());
    assert!(rt; !log.stopped() && log.count() == 0);
    add(&rt, &mut log, texts::a1_voted());
}
