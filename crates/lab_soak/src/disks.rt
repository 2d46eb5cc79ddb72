//! The two disks of a replica: crashes, and recoveries that may fail.

ghost use Rattle.key_index_store.specs.Boundary.{IsKeyCount};

use crate::counts::one_more;
use crate::desk_model::Fuses;
use crate::failure::{Failure, same};
use crate::random::Random;
use crate::round::{Round, Run};
use blocks::CommitteeView;
use key_index_store::{IndexError, IndexStore};
use lms_tree::SigningTree;
use stable_log::{Choice, MemoryDisk};
use std::alloc::{AllocError, Global};
use vote_desk::Parts;
use vote_log::{LogError, VoteLog};

/// How many calls of the log's disk succeed at the most before one fails: those of six entries.
const MOST_LOG_CALLS: u32 = 24;

/// The same of the index disk: those of two reservations.
const MOST_INDEX_CALLS: u32 = 8;

/// How many calls of a recovery succeed at the most before one fails.
const MOST_READS: u32 = 8;

/// The two disks.
#[derive(Drop)]
pub(crate) struct Disks {
    index: MemoryDisk,
    log: MemoryDisk,
}

/// What is left of a replica.
#[derive(Drop)]
pub(crate) struct Remains {
    pub trees: Vec<SigningTree>,
    pub disks: Disks,
}

/// Why a disk could not be read.
#[derive(Clone, Copy)]
enum Unread {
    Device,
    Damaged,
}

// How many keys replica 0 has.
fn keys_in(committee: &CommitteeView) -> u8
    ensures { IsKeyCount result }
{
    // For the proof: there is a replica 0.
    let _count = committee.n();
    committee.keys(0)
}

// What is kept on a disk.
trait Store: Sized + Drop {
    // Finds it there, or hands the disk back.
    fn find(
        alloc: Global,
        committee: &CommitteeView,
        disk: MemoryDisk,
    ) -> Result<Self, (Unread, MemoryDisk)>;

    fn leave(self) -> MemoryDisk;
}

impl Store for VoteLog<MemoryDisk> {
    fn find(
        alloc: Global,
        committee: &CommitteeView,
        disk: MemoryDisk,
    ) -> Result<VoteLog<MemoryDisk>, (Unread, MemoryDisk)> {
        match VoteLog::recover(alloc, disk, committee.genesis()) {
            Ok(log) => Ok(log),
            Err((LogError::Device, disk)) => Err((Unread::Device, disk)),
            Err((_, disk)) => Err((Unread::Damaged, disk)),
        }
    }

    fn leave(self) -> MemoryDisk {
        self.into_disk()
    }
}

impl Store for IndexStore<MemoryDisk> {
    fn find(
        alloc: Global,
        committee: &CommitteeView,
        disk: MemoryDisk,
    ) -> Result<IndexStore<MemoryDisk>, (Unread, MemoryDisk)> {
        match IndexStore::recover(alloc, disk, keys_in(committee)) {
            Ok(store) => Ok(store),
            Err((IndexError::Device, disk)) => Err((Unread::Device, disk)),
            Err((_, disk)) => Err((Unread::Damaged, disk)),
        }
    }

    fn leave(self) -> MemoryDisk {
        self.into_disk()
    }
}

// The store on a disk whose calls do not fail.
fn found<S: Store>(
    alloc: Global,
    committee: &CommitteeView,
    disk: MemoryDisk,
) -> Result<S, Failure> {
    let mut disk = disk;
    disk.fuse(u32::MAX, false);
    match S::find(alloc, committee, disk) {
        Ok(store) => Ok(store),
        Err(_) => Err(Failure::Refused("a store is found again")),
    }
}

// The disk after a recovery a call of which may fail.
fn tried<S: Store>(
    alloc: Global,
    committee: &CommitteeView,
    disk: MemoryDisk,
    run: &mut Run,
) -> Result<MemoryDisk, Failure> {
    let mut disk = disk;
    disk.fuse(run.random.below_u32(MOST_READS), run.random.percent(50));
    match S::find(alloc, committee, disk) {
        Ok(store) => Ok(store.leave()),
        Err((Unread::Device, disk)) => {
            one_more(&mut run.counts.failed_recoveries);
            Ok(disk)
        }
        Err((Unread::Damaged, _)) => Err(Failure::Refused("a disk is sound")),
    }
}

// The store on a disk a call of which fails behind its recovery and so many more.
fn found_with_fuse<S: Store>(
    alloc: Global,
    committee: &CommitteeView,
    disk: MemoryDisk,
    pass: u32,
    forever: bool,
) -> Result<S, Failure> {
    let before = disk.calls();
    let mut disk = found::<S>(alloc, committee, disk)?.leave();
    let calls = disk.calls().saturating_sub(before);
    let calls = u32::try_from(calls).unwrap_or(u32::MAX);
    disk.fuse(calls.saturating_add(pass), forever);
    match S::find(alloc, committee, disk) {
        Ok(store) => Ok(store),
        Err(_) => Err(Failure::Refused("a store is found once more")),
    }
}

// The store on a disk, by a second recovery if the first fails.
fn come_up<S: Store>(
    alloc: Global,
    committee: &CommitteeView,
    disk: MemoryDisk,
    fuse: Option<u32>,
    run: &mut Run,
) -> Result<S, Failure> {
    let mut disk = disk;
    if run.random.percent(25) {
        disk = tried::<S>(alloc, committee, disk, run)?;
    }
    match fuse {
        Some(pass) => { found_with_fuse(alloc, committee, disk, pass, run.random.percent(50)) }
        None => found(alloc, committee, disk),
    }
}

fn fuse(random: &mut Random, percent: u64, most: u32) -> Option<u32> {
    let calls = random.below_u32(most);
    random.percent(percent).then_some(calls)
}

// How the disks fail in the next stay.
fn fuses(random: &mut Random) -> Fuses {
    Fuses {
        index: fuse(random, 20, MOST_INDEX_CALLS),
        log: fuse(random, 40, MOST_LOG_CALLS),
    }
}

// The stores of a replica.
type Stores = (IndexStore<MemoryDisk>, VoteLog<MemoryDisk>);

// The stores on the disks, which fail so from then on.
fn stores_on(
    alloc: Global,
    committee: &CommitteeView,
    disks: Disks,
    fuses: Fuses,
    run: &mut Run,
) -> Result<Stores, Failure> {
    let Disks { index, log } = disks;
    let index = come_up::<IndexStore<MemoryDisk>>(alloc, committee, index, fuses.index, run)?;
    let log = come_up::<VoteLog<MemoryDisk>>(alloc, committee, log, fuses.log, run)?;
    Ok((index, log))
}

// The model restarts on the stores, which have what it says.
fn restart(
    alloc: Global,
    log: &VoteLog<MemoryDisk>,
    index: &IndexStore<MemoryDisk>,
    round: &mut Round,
    run: &mut Run,
) -> Result<(), Failure> {
    let Round { tree, desk, .. } = round;
    if desk.restart(alloc, tree, log.count(), index.left())? {
        one_more(&mut run.counts.found);
    }
    judge(alloc, round, log, index)
}

/// The replica comes up on its disks, and finds there what the model says. A round that is over meets no failure any more.
pub(crate) fn recovered(
    alloc: Global,
    committee: &CommitteeView,
    remains: Remains,
    round: &mut Round,
    run: &mut Run,
) -> Result<Parts<MemoryDisk>, Failure> {
    let fuses = if round.is_over(run) {
        Fuses::NONE
    } else {
        fuses(&mut run.random)
    };
    let Remains { trees, disks } = remains;
    let (index, log) = stores_on(alloc, committee, disks, fuses, run)?;
    restart(alloc, &log, &index, round, run)?;
    round.desk.fuses = fuses;
    Ok(Parts { trees, index, log })
}

// What was found is what the model has.
fn judge(
    alloc: Global,
    round: &Round,
    log: &VoteLog<MemoryDisk>,
    index: &IndexStore<MemoryDisk>,
) -> Result<(), Failure> {
    let stored = round.desk.replica.stored.len();
    same(alloc, "entries found", &stored, &log.count())?;
    same(alloc, "indices left", &round.desk.left(), &index.left())?;
    if !round.desk.has_stored(&round.tree, log.steps()) {
        return Err(Failure::Refused("the entries found are those stored"));
    }
    Ok(())
}

fn choice(random: &mut Random) -> Choice {
    match random.below(6) {
        0 => Choice::Old,
        1 => Choice::New,
        2 => Choice::Half,
        3 => Choice::Fill(0),
        4 => Choice::Fill(1),
        _ => Choice::Fill((random.below(256) & 0xff) as u8),
    }
}

// What a crash or a restart leaves of the disks.
fn after_all(disks: Disks, run: &mut Run) -> Result<Disks, AllocError> {
    if run.random.percent(40) {
        one_more(&mut run.counts.restarts);
        return Ok(disks);
    }
    one_more(&mut run.counts.crashes);
    let index = disks.index.crash(choice(&mut run.random))?;
    let log = disks.log.crash(choice(&mut run.random))?;
    Ok(Disks { index, log })
}

/// The keys, and what a crash or a restart leaves of the disks.
pub(crate) fn left(parts: Parts<MemoryDisk>, run: &mut Run) -> Result<Remains, AllocError> {
    let Parts { trees, index, log } = parts;
    let disks = Disks {
        index: index.into_disk(),
        log: log.into_disk(),
    };
    let disks = after_all(disks, run)?;
    Ok(Remains { trees, disks })
}

// The index disk of a new replica all of whose indices below this one were given.
fn taken_index(
    alloc: Global,
    committee: &CommitteeView,
    taken: u32,
) -> Result<MemoryDisk, Failure> {
    let disk = MemoryDisk::new(alloc, Vec::new(alloc))?;
    let Ok(mut store) = IndexStore::create(alloc, disk, keys_in(committee)) else {
        return Err(Failure::Refused("an index store is made"));
    };
    for _ in 0..taken {
        if store.next().is_err() {
            return Err(Failure::Refused("an index is given"));
        }
    }
    Ok(store.into_disk())
}

/// The disks of a new replica, all of whose indices below this one are taken.
pub(crate) fn new_disks(
    alloc: Global,
    committee: &CommitteeView,
    taken: u32,
) -> Result<Disks, Failure> {
    let disk = MemoryDisk::new(alloc, Vec::new(alloc))?;
    let Ok(log) = VoteLog::create(alloc, disk, committee.genesis()) else {
        return Err(Failure::Refused("a log is made"));
    };
    Ok(Disks {
        index: taken_index(alloc, committee, taken)?,
        log: log.into_disk(),
    })
}
