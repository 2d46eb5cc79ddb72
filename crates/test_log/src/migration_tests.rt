//! Logs in the form from before votes named their keys, carried over. Both forms are an independent program's.

use crate::log_tests::{LONG, SHORT, disk_of, file_of, genesis, recovered};
use crate::old_logs;
use stable_log::{Choice, Journal, MemoryDisk};
use std::process::Abort;
use test_fixtures::{fork_logs, log_entries};
use vote_log::{Frames, LogError, VoteLog, migrate};

// An open gate, and the length of an entry on genesis in the old form, and of one with three votes.
const OLD_SHORT: &[u8] = b"\x01\0\0\x06\xa7";

const OLD_LONG: &[u8] = b"\x01\0\0\x17\xb1";

// The journal on a disk.
fn journal<R: Abort + AllocGlobal>(rt: &R, disk: MemoryDisk) -> Journal<MemoryDisk> {
    let journal = Journal::recover(rt.alloc(), disk);
    journal.ok().expect(rt, "a journal")
}

// The disk of the old log.
fn old_disk<R: Abort + AllocGlobal>(rt: &R) -> MemoryDisk {
    disk_of(rt, old_logs::log_0())
}

// The file of the same log in the form of today.
fn new_file<R: Abort + AllocGlobal>(rt: &R) -> Vec<u8> {
    let frames = Frames::of(rt.alloc(), fork_logs::log_0()).expect(rt, "memory");
    let [a, b, c, d] = frames.frames() else {
        panic!(rt; "not four entries");
    };
    let file = file_of(rt.alloc(), &[SHORT, a, LONG, b, LONG, c, LONG, d]);
    file.expect(rt, "memory")
}

/// What a crash may make of the writes that were not synced.
const CHOICES: [Choice; 7] = [
    Choice::Old,
    Choice::New,
    Choice::Half,
    Choice::Fill(0x00),
    Choice::Fill(0x01),
    Choice::Fill(0x37),
    Choice::Fill(0xff),
];

// Whether the disk holds the old log, and a crash leaves all of it.
fn is_old<R: Abort + AllocGlobal>(rt: &R, disk: &MemoryDisk) -> bool {
    let mut same = disk.bytes() == old_logs::log_0();
    for choice in CHOICES {
        let left = disk.crash(choice).expect(rt, "memory");
        same = same && left.bytes() == old_logs::log_0();
    }
    same
}

// The new log's disk, and the old one's.
fn migrated<R: Abort + AllocGlobal>(
    rt: &R,
    old: MemoryDisk,
    disk: MemoryDisk,
) -> (MemoryDisk, MemoryDisk) {
    match migrate(rt.alloc(), journal(rt, old), disk, genesis(rt)) {
        Ok((log, old)) => {
            assert!(rt; log.count() == 4 && !log.stopped());
            (log.into_disk(), old.into_disk())
        }
        Err(_) => panic!(rt; "refused"),
    }
}

#[test]
fn an_old_log_is_carried_over(rt: HostRuntime) {
    let (new, old) = migrated(&rt, old_disk(&rt), disk_of(&rt, b""));
    assert!(rt; new.bytes().len() == 19_940);
    assert!(rt; new.bytes() == new_file(&rt).as_slice());
    assert!(rt; is_old(&rt, &old));
    for choice in CHOICES {
        let left = new.crash(choice).expect(&rt, "memory");
        assert!(rt; recovered(&rt, left).count() == 4);
    }
}

// How often this disk was called.
fn calls_of(disk: &MemoryDisk) -> u32 {
    u32::try_from(disk.calls()).unwrap_or(u32::MAX)
}

// Whether what a crash leaves of this disk can be carried over to an empty disk.
fn goes_anew<R: Abort + AllocGlobal>(rt: &R, disk: &MemoryDisk) -> bool {
    let left = disk.crash(Choice::Old).expect(rt, "memory");
    let (new, _) = migrated(rt, left, disk_of(rt, b""));
    new.bytes() == new_file(rt).as_slice()
}

// Whether a migration whose disks let so many calls through, and fail the next, answers `Device` and leaves the old log,
// which is then carried over to another disk.
fn fails_and_stays<R: Abort + AllocGlobal>(
    rt: &R,
    (old_pass, new_pass): (u32, u32),
    forever: bool,
) -> bool {
    let mut old = old_disk(rt);
    old.fuse(old_pass, forever);
    let mut disk = disk_of(rt, b"");
    disk.fuse(new_pass, forever);
    match migrate(rt.alloc(), journal(rt, old), disk, genesis(rt)) {
        Err((LogError::Device, old, _)) => {
            let count = old.count();
            let disk = old.into_disk();
            count == 4 && is_old(rt, &disk) && goes_anew(rt, &disk)
        }
        _ => false,
    }
}

#[test]
fn migrate_with_each_call_failing(rt: HostRuntime) {
    let opened = calls_of(&journal(&rt, old_disk(&rt)).into_disk());
    let (new, old) = migrated(&rt, old_disk(&rt), disk_of(&rt, b""));
    for forever in [false, true] {
        for pass in opened..calls_of(&old) {
            assert!(rt;
                fails_and_stays(&rt, (pass, u32::MAX), forever),
                "old {pass}"
            );
        }
        for pass in 0..calls_of(&new) {
            assert!(rt;
                fails_and_stays(&rt, (u32::MAX, pass), forever),
                "new {pass}"
            );
        }
    }
}

// How a migration of this file to a disk of these bytes is refused, where it leaves both as they were.
fn refusal_of<R: Abort + AllocGlobal>(rt: &R, pieces: &[&[u8]], bytes: &[u8]) -> Option<LogError> {
    let file = file_of(rt.alloc(), pieces).expect(rt, "memory");
    let old = journal(rt, disk_of(rt, &file));
    match migrate(rt.alloc(), old, disk_of(rt, bytes), genesis(rt)) {
        Ok(_) => None,
        Err((e, old, disk)) => {
            assert!(rt; disk.bytes() == bytes && old.into_disk().bytes() == file.as_slice());
            Some(e)
        }
    }
}

// The first payload of the old log, the entry of A1, and the second, that of A2.
fn old_a1<R: Abort>(rt: &R) -> &'static [u8] {
    old_logs::log_0().get(13..1716).expect(rt, "a payload")
}

fn old_a2<R: Abort>(rt: &R) -> &'static [u8] {
    old_logs::log_0().get(1721..7786).expect(rt, "a payload")
}

#[test]
fn bad_old_entries(rt: HostRuntime) {
    let (a1, a2, new) = (old_a1(&rt), old_a2(&rt), log_entries::a1_voted());
    let illegal = Some(LogError::IllegalLog(1));
    let cases: [(&[&[u8]], Option<LogError>); 4] = [
        (&[OLD_LONG, a2, OLD_SHORT, a1], illegal),
        // The least bad entry counts, whichever it is; entries in the form of today are no old ones.
        (&[OLD_SHORT, a1, OLD_SHORT, a1, SHORT, new], illegal),
        (&[SHORT, new], Some(LogError::BadEntry(0))),
        (&[OLD_SHORT, a1, SHORT, new], Some(LogError::BadEntry(1))),
    ];
    for (pieces, refusal) in &cases {
        assert!(rt; refusal_of(&rt, pieces, b"") == *refusal, "{refusal:?}");
    }
}

#[test]
fn a_disk_that_is_not_empty_is_refused_first(rt: HostRuntime) {
    let other = Some(LogError::NotAJournal);
    assert!(rt; refusal_of(&rt, &[OLD_SHORT, old_a1(&rt)], b"\0") == other);
    assert!(rt; refusal_of(&rt, &[SHORT, log_entries::a1_voted()], b"HSJ1") == other);
}

#[test]
fn a_stopped_journal_is_not_carried_over(rt: HostRuntime) {
    let opened = calls_of(&journal(&rt, old_disk(&rt)).into_disk());
    let mut disk = old_disk(&rt);
    disk.fuse(opened, false);
    let mut old = journal(&rt, disk);
    assert!(rt; old.append(b"x").is_err() && old.stopped());
    match migrate(rt.alloc(), old, disk_of(&rt, b""), genesis(&rt)) {
        Err((e, old, disk)) => {
            assert!(rt; e == LogError::Stopped && old.stopped() && disk.calls() == 0);
        }
        Ok(_) => panic!(rt; "carried over"),
    }
}
