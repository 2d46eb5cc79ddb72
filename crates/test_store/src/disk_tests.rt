//! Disks: what a crash leaves in memory, and when a call fails. The bytes are worked out by hand.

use crate::journal_tests::create_refusal;
use stable_log::{Choice, Disk, Fault, FileDisk, JournalError, MemoryDisk};
use std::fs;
use std::fs::OpenOptions;
use std::process::Abort;
use std::test::Fail;

/// What a crash may choose.
pub(crate) const CHOICES: [Choice; 6] = [
    Choice::Old,
    Choice::New,
    Choice::Half,
    Choice::Fill(0),
    Choice::Fill(1),
    Choice::Fill(0x37),
];

/// A disk of these bytes.
pub(crate) fn disk_of<R: Abort + AllocGlobal>(rt: &R, bytes: &[u8]) -> MemoryDisk {
    let bytes = bytes.to_vec(rt.alloc()).expect(rt, "memory");
    MemoryDisk::new(rt.alloc(), bytes).expect(rt, "memory")
}

/// What a crash leaves of a disk.
pub(crate) fn crashed<R: Abort>(rt: &R, disk: &MemoryDisk, choice: Choice) -> MemoryDisk {
    disk.crash(choice).expect(rt, "memory")
}

// Whether a crash leaves these bytes.
fn leaves(disk: &MemoryDisk, choice: Choice, bytes: &[u8]) -> bool {
    match disk.crash(choice) {
        Ok(left) => left.bytes() == bytes,
        Err(_) => false,
    }
}

// A write of six bytes over the four of "abcd".
const SIX_OVER_FOUR: [(Choice, &[u8]); 5] = [
    (Choice::Old, b"abcd"),
    (Choice::New, b"UVWXYZ"),
    (Choice::Fill(b'7'), b"777777"),
    (Choice::Fill(0), b"\0\0\0\0\0\0"),
    (Choice::Half, b"UVWd\0\0"),
];

#[test]
fn each_choice_of_a_crash(rt: HostRuntime) {
    let mut disk = disk_of(&rt, b"abcd");
    assert!(rt; disk.write_at(0, b"UVWXYZ") == Ok(()) && disk.bytes() == b"UVWXYZ".as_slice());
    for (choice, bytes) in &SIX_OVER_FOUR {
        assert!(rt; leaves(&disk, *choice, bytes), "{choice:?}");
    }
    assert!(rt; disk.sync() == Ok(()));
    for choice in &CHOICES {
        assert!(rt; leaves(&disk, *choice, b"UVWXYZ"), "{choice:?}");
    }
}

// Writes of one byte at 0 and of five at 2, over "abcdefgh".
const ONE_AND_FIVE: [(Choice, &[u8]); 3] = [
    (Choice::Half, b"ab12efgh"),
    (Choice::Fill(b'7'), b"7b77777h"),
    (Choice::Old, b"abcdefgh"),
];

#[test]
fn half_of_a_range_is_rounded_down(rt: HostRuntime) {
    let mut disk = disk_of(&rt, b"abcdefgh");
    assert!(rt; disk.write_at(0, b"X") == Ok(()) && disk.bytes().len() == 8);
    assert!(rt; disk.write_at(2, b"12345") == Ok(()));
    for (choice, bytes) in &ONE_AND_FIVE {
        assert!(rt; leaves(&disk, *choice, bytes), "{choice:?}");
    }
}

// Whether the fuse lets one call pass, fails the next, which writes nothing, and no more.
fn burns_once(disk: &mut MemoryDisk) -> bool {
    disk.fuse(1, false);
    disk.len() == Ok(4)
        && disk.write_at(0, b"x") == Err(Fault)
        && disk.bytes() == b"abcd".as_slice()
        && disk.sync() == Ok(())
}

// Whether three calls in a row fail.
fn burns_forever(disk: &mut MemoryDisk) -> bool {
    disk.fuse(0, true);
    disk.len() == Err(Fault) && disk.len() == Err(Fault) && disk.len() == Err(Fault)
}

// Whether the last two bytes are read, and a range past the end is not.
fn ends_with_cd<D: Disk>(disk: &mut D) -> bool {
    let mut out = [0u8; 2];
    disk.read_at(2, &mut out) == Ok(())
        && out == *b"cd"
        && disk.read_at(3, &mut out) == Err(Fault)
        && disk.failures() == 1
}

#[test]
fn a_fuse_burns_once_or_forever(rt: HostRuntime) {
    let mut disk = disk_of(&rt, b"abcd");
    assert!(rt; burns_once(&mut disk) && burns_forever(&mut disk) && disk.failures() == 4);
    assert!(rt; disk.calls() == 6);
    assert!(rt; ends_with_cd(&mut crashed(&rt, &disk, Choice::New)));
}

// Whether a call of each kind is counted, and one that fails.
fn counts_each(disk: &mut MemoryDisk) -> bool {
    disk.calls() == 0
        && disk.write_at(0, b"x") == Ok(())
        && disk.sync() == Ok(())
        && disk.len() == Ok(1)
        && disk.read_at(0, &mut [0u8; 1]) == Ok(())
        && disk.read_at(0, &mut [0u8; 2]) == Err(Fault)
        && disk.calls() == 5
}

#[test]
fn each_call_is_counted(rt: HostRuntime) {
    let mut disk = disk_of(&rt, b"");
    assert!(rt; counts_each(&mut disk));
    assert!(rt; crashed(&rt, &disk, Choice::New).calls() == 0);
}

#[test]
fn a_sync_that_fails_is_counted(rt: HostRuntime) -> Result<(), Fail> {
    let file = OpenOptions::new()
        .read(true)
        .write(true)
        .open(&rt, "/dev/null")?;
    let mut disk = FileDisk::new(file);
    assert!(rt; disk.sync() == Err(Fault) && disk.failures() == 1);
    Ok(())
}

#[test]
fn a_directory_is_no_disk(rt: HostRuntime) -> Result<(), Fail> {
    let mut disk = FileDisk::new(fs::open(&rt, ".")?);
    assert!(rt; disk.read_at(0, &mut [0u8; 1]) == Err(Fault));
    assert!(rt; disk.write_at(0, b"x") == Err(Fault) && disk.failures() == 2);
    let refused = create_refusal(rt.alloc(), disk);
    assert!(rt;
        matches!(
            refused,
            Some(JournalError::NotAJournal | JournalError::Device)
        )
    );
    Ok(())
}
