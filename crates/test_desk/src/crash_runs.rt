//! One delivery that votes and reserves key indices, with a disk failing at each of its calls, a crash behind it, and a
//! recovery whose disk fails at each of its calls.

use crate::replicas::{
    Block, Step, committee, found_on, new_disk, new_keys, new_parts, parts_on, stay,
};
use key_index_store::{IndexError, IndexStore};
use lms_tree::SigningTree;
use stable_log::{Choice, MemoryDisk};
use std::process::Abort;
use std::sync::Wait;
use vote_desk::{DeskError, Parts, Receipt};
use vote_log::{LogError, VoteLog};

const CHOICES: [Choice; 6] = [
    Choice::Old,
    Choice::New,
    Choice::Half,
    Choice::Fill(0x00),
    Choice::Fill(0x01),
    Choice::Fill(0x37),
];

// Which disk fails.
#[derive(Clone, Copy, PartialEq, Eq)]
enum Failing {
    Index,
    Log,
}

// Where it fails: behind so many calls, once or from then on.
#[derive(Clone, Copy)]
struct Failure {
    of: Failing,
    pass: u32,
    forever: bool,
}

// What is left of a replica on its disks.
#[derive(Drop)]
struct Disks {
    index: MemoryDisk,
    log: MemoryDisk,
}

// The key and the disks.
fn taken_out(parts: Parts<MemoryDisk>) -> (Vec<SigningTree>, Disks) {
    let Parts { trees, index, log } = parts;
    let index = index.into_disk();
    let log = log.into_disk();
    (trees, Disks { index, log })
}

impl Disks {
    fn disk(&self, which: Failing) -> &MemoryDisk {
        match which {
            Failing::Index => &self.index,
            Failing::Log => &self.log,
        }
    }
}

// A disk that holds nothing. It fails so, if it is this one.
fn disk_with<R: Abort + AllocGlobal>(
    rt: &R,
    which: Failing,
    failure: Option<Failure>,
) -> MemoryDisk {
    let mut disk = new_disk(rt);
    if let Some(failure) = failure {
        if failure.of == which {
            disk.fuse(failure.pass, failure.forever);
        }
    }
    disk
}

// What a new replica leaves that takes these steps and meets this failure, if any.
fn left_by<R: Wait + Abort + AllocGlobal>(
    rt: &R,
    trees: Vec<SigningTree>,
    failure: Option<Failure>,
    steps: &[Step],
) -> (Vec<SigningTree>, Disks) {
    let index = disk_with(rt, Failing::Index, failure);
    let log = disk_with(rt, Failing::Log, failure);
    let closed = stay(rt, parts_on(rt, trees, index, log), steps);
    taken_out(closed.parts)
}

// How many calls a disk of a new replica that takes these steps answers, as a fuse counts them.
fn calls_in<R: Wait + Abort + AllocGlobal>(
    rt: &R,
    trees: Vec<SigningTree>,
    which: Failing,
    steps: &[Step],
) -> (Vec<SigningTree>, u32) {
    let (trees, disks) = left_by(rt, trees, None, steps);
    let calls = disks.disk(which).calls();
    (trees, u32::try_from(calls).unwrap_or(u32::MAX))
}

// The delivery whose failures are met.
const VOTE: [Step; 1] = [Step::Votes(Block::OnGenesis(1), 0)];

// The same where a disk fails in it, and a delivery behind it.
const FAILED_VOTE: [Step; 3] = [
    Step::Refuses(Block::OnGenesis(1), DeskError::Device),
    Step::Refuses(Block::OnGenesis(2), DeskError::Stopped),
    Step::IsStopped,
];

// What a crash leaves of both disks.
fn crashed<R: Abort>(rt: &R, disks: &Disks, choice: Choice) -> Disks {
    let index = disks.index.crash(choice).expect(rt, "memory");
    let log = disks.log.crash(choice).expect(rt, "memory");
    Disks { index, log }
}

// How many entries a log has that is recovered from a disk; the disk where that failed.
fn entries_on<R: Abort + AllocGlobal>(rt: &R, disk: MemoryDisk) -> Result<u32, MemoryDisk> {
    match VoteLog::recover(rt.alloc(), disk, committee(rt).genesis()) {
        Ok(log) => Ok(log.count() as u32),
        Err((refusal, disk)) => {
            assert!(rt; refusal == LogError::Device);
            Err(disk)
        }
    }
}

// How many indices are left in a store that is recovered from a disk; the disk where that failed.
fn indices_on<R: Abort + AllocGlobal>(rt: &R, disk: MemoryDisk) -> Result<u32, MemoryDisk> {
    match IndexStore::recover(rt.alloc(), disk, 1) {
        Ok(store) => Ok(store.left()),
        Err((refusal, disk)) => {
            assert!(rt; refusal == IndexError::Device);
            Err(disk)
        }
    }
}

fn found<R: Abort + AllocGlobal>(
    rt: &R,
    which: Failing,
    disk: MemoryDisk,
) -> Result<u32, MemoryDisk> {
    match which {
        Failing::Index => indices_on(rt, disk),
        Failing::Log => entries_on(rt, disk),
    }
}

// What is found on the disk that a crash leaves of this one, by a second recovery if the first fails behind so many
// calls; and whether it failed.
fn found_behind<R: Abort + AllocGlobal>(
    rt: &R,
    which: Failing,
    disk: &MemoryDisk,
    choice: Choice,
    pass: u32,
) -> (u32, bool) {
    let mut left = disk.crash(choice).expect(rt, "memory");
    left.fuse(pass, false);
    match found(rt, which, left) {
        Ok(count) => (count, false),
        Err(left) => {
            let again = found(rt, which, left).ok();
            (again.expect(rt, "a second recovery"), true)
        }
    }
}

// What is found there, the same whichever call of the first recovery fails.
fn found_after<R: Abort + AllocGlobal>(
    rt: &R,
    which: Failing,
    disk: &MemoryDisk,
    choice: Choice,
) -> u32 {
    let (count, _) = found_behind(rt, which, disk, choice, u32::MAX);
    for pass in 0..u32::MAX {
        let (again, failed) = found_behind(rt, which, disk, choice, pass);
        assert!(rt; again == count, "{choice:?}, recovery fails behind {pass}");
        if !failed {
            break;
        }
    }
    count
}

// The key index of the last receipt.
fn last_index(receipts: &[Receipt]) -> Option<u32> {
    let [a, b, c, d, ..] = receipts.last()?.vote.signature;
    Some(u32::from_be_bytes([a, b, c, d]))
}

// A crash, a recovery, and a delivery that is voted for. Answers the key, and the index of the vote.
fn goes_on<R: Wait + Abort + AllocGlobal>(
    rt: &R,
    trees: Vec<SigningTree>,
    disks: &Disks,
    choice: Choice,
) -> (Vec<SigningTree>, u32) {
    let entries = found_after(rt, Failing::Log, &disks.log, choice);
    assert!(rt; entries <= 1);
    let left = found_after(rt, Failing::Index, &disks.index, choice);
    let Disks { index, log } = crashed(rt, disks, choice);
    let parts = found_on(rt, trees, index, log);
    let closed = stay(rt, parts, &[Step::Votes(Block::OnGenesis(9), entries)]);
    let index = last_index(&closed.receipts).expect(rt, "a receipt");
    assert!(rt; index.checked_add(left) == Some(1024));
    (closed.parts.trees, index)
}

// No index comes twice: none was given where the index disk failed, and 16 are skipped where the log's did.
fn survives<R: Wait + Abort + AllocGlobal>(
    rt: &R,
    trees: Vec<SigningTree>,
    failure: Failure,
    least: u32,
) -> Vec<SigningTree> {
    let (mut trees, disks) = left_by(rt, trees, Some(failure), &FAILED_VOTE);
    for choice in CHOICES {
        let (again, index) = goes_on(rt, trees, &disks, choice);
        assert!(rt;
            index >= least && index % 16 == 0,
            "call {}, {choice:?}",
            failure.pass
        );
        trees = again;
    }
    trees
}

// A failure at each call that the delivery makes of this disk, once and from then on.
fn survives_each<R: Wait + Abort + AllocGlobal>(rt: &R, of: Failing, least: u32) {
    let (trees, before) = calls_in(rt, new_keys(rt), of, &[]);
    let (mut trees, behind) = calls_in(rt, trees, of, &VOTE);
    for pass in before..behind {
        for forever in [false, true] {
            trees = survives(rt, trees, Failure { of, pass, forever }, least);
        }
    }
}

#[test]
fn a_delivery_survives_a_failing_index_disk(rt: HostRuntime) {
    survives_each(&rt, Failing::Index, 0);
}

#[test]
fn a_delivery_survives_a_failing_log_disk(rt: HostRuntime) {
    survives_each(&rt, Failing::Log, 16);
}

// A vote that was released stands in the log whatever a crash leaves.
#[test]
fn a_released_vote_outlasts_each_crash(rt: HostRuntime) {
    let mut parts = new_parts(&rt);
    for (k, choice) in CHOICES.iter().enumerate() {
        let votes = Step::Votes(Block::OnGenesis(k as u64 + 1), k as u32);
        let (trees, disks) = taken_out(stay(&rt, parts, &[votes]).parts);
        let Disks { index, log } = crashed(&rt, &disks, *choice);
        parts = found_on(&rt, trees, index, log);
        assert!(rt; parts.log.count() == k + 1);
    }
}
