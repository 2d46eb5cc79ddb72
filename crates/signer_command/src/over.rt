//! What is made ready before a signer says that it goes over.

ghost use Rattle.std.specs.Prelude.{◌≡◌, ◌++◌, option_map, take};
ghost use Rattle.handover_blocks.specs.Handovers.{handover_mark};
ghost use Rattle.signer_command.specs.Approved.{first_payload, first_text};

use crate::home::Home;
use crate::lineage::{Goods, Next};
use base_streams::Sink;
use base_wire::put;
use blocks::{CommitteeView, Id};
use handover_blocks::HANDOVER_MARK;
use handover_folder::{KeySet, LineageFault, has_keys_of};
use handover_renewals::{Renewal, RenewalFormRefusal, renews};
use lmots::PrivateSeed;
use lms_tree::SigningTree;
use program_parts::is_nothing_at;
use replica_command::{ReplicaFault, ReplicaFile, ReplicaFolder, Stores};
use replica_files::KeyFile;
use signer_service::OverFault;
use std::alloc::Global;
use std::fs::{File, Files};
use std::sync::Wait;
use std::thread;
use std::thread::{JoinHandle, Threads};
use vote_desk::Parts;

/// With what the payload begins of the first block of a chain that was handed over to.
const FIRST_MARK: &[u8; 4] = b"HSO1";

/// How much of an id or a digest stands behind a mark, in bytes.
const MARKED_LEN: usize = 28;

/// The payload of the first block of a chain that was handed over to by this block.
pub(crate) fn first_payload(handover: &Option<Id>) -> Option<[u8; 32]>
    ensures { result ≡ first_payload handover.now }
{
    match handover {
        Some(id) => Some(marked(FIRST_MARK, id)),
        None => None,
    }
}

/// The payload of the block that hands over to the committee of a file with this digest.
pub(crate) fn payload_of(digest: &[u8; 32]) -> [u8; 32]
    ensures { result ≡ handover_mark ++ take 28 digest.now }
{
    marked(HANDOVER_MARK, digest)
}

fn marked(mark: &[u8; 4], bytes: &[u8; 32]) -> [u8; 32]
    ensures { result ≡ mark.now ++ take 28 bytes.now }
{
    let mut payload = [0; 32];
    put(&mut payload, 0, mark);
    put(&mut payload, mark.len(), &bytes[..MARKED_LEN]);
    payload
}

/// Why a signer does not go over, where what its folder says can't be read.
pub(crate) fn fault_of_words(fault: LineageFault) -> OverFault {
    match fault {
        LineageFault::Memory => OverFault::Memory,
        _ => OverFault::Stopped,
    }
}

// Why it does not go over, where keys can't be opened: those that lack a seed are not the ones of the file.
fn fault_of_keys(fault: ReplicaFault) -> OverFault {
    match fault {
        ReplicaFault::Memory => OverFault::Memory,
        ReplicaFault::File(ReplicaFile::Key(KeyFile::Seed(_))) => OverFault::NotMine,
        _ => OverFault::Stopped,
    }
}

/// Makes all ready in the chain of this committee's file: the folder of the chain, the keys, which are computed, and the file.
pub(crate) fn ready_for<T: Threads + Wait + Files<File = File>, S: Sink>(
    home: &Home<'_, T, S>,
    after: &CommitteeView<'_>,
    renewal: &[u8],
    file: &[u8],
) -> Result<Next, OverFault> {
    let chain = after.chain();
    if is_passed(home, &chain) {
        return Err(OverFault::Stopped);
    }
    let lineage = home.lineage();
    if let Err(fault) = lineage.make_chain(&chain) {
        return Err(fault_of_words(fault));
    }
    let goods = goods_in(home, after)?;
    let before = home.successor.committee;
    if let Err(fault) = lineage.store_next(&before.chain(), file) {
        return Err(fault_of_words(fault));
    }
    if is_renewal(home.successor.alloc, before, after, renewal)?
        && let Err(fault) = lineage.store_renewal(&before.chain(), renewal)
    {
        return Err(fault_of_words(fault));
    }
    let Ok(file) = file.to_vec(home.successor.alloc) else {
        return Err(OverFault::Memory);
    };
    Ok(Next {
        chain,
        file,
        goods,
        handover: None,
    })
}

// Whether this is the chain that the signer is in, or one that it left: no way leads back.
fn is_passed<T: Threads + Wait + Files<File = File>, S: Sink>(
    home: &Home<'_, T, S>,
    chain: &Id,
) -> bool {
    if home.successor.committee.chain() == *chain {
        return true;
    }
    home.standing.earlier.iter().any(|file| {
        match CommitteeView::parse(file) {
            Ok(committee) => committee.chain() == *chain,
            Err(_) => false,
        }
    })
}

// Whether the committee that follows renews the one before by the renewal of these bytes.
fn is_renewal(
    alloc: Global,
    before: &CommitteeView<'_>,
    after: &CommitteeView<'_>,
    renewal: &[u8],
) -> Result<bool, OverFault> {
    match Renewal::read(alloc, renewal) {
        Ok(renewal) => Ok(renews(before, after, &renewal).is_ok()),
        Err(RenewalFormRefusal::Memory) => Err(OverFault::Memory),
        Err(_) => Ok(false),
    }
}

// What it goes on with in this committee: the keys that it has, or those that were made behind its own.
fn goods_in<T: Threads + Wait + Files<File = File>, S: Sink>(
    home: &Home<'_, T, S>,
    after: &CommitteeView<'_>,
) -> Result<Goods, OverFault> {
    if home.replica >= after.n() {
        return Err(OverFault::NotMine);
    }
    let lineage = home.lineage();
    let Ok(place) = lineage.chain_folder(&after.chain()) else {
        return Err(OverFault::Memory);
    };
    if !has_keys_of(home.successor.committee, after, home.replica) {
        return new_goods(home, after, &place);
    }
    let logs = ReplicaFolder {
        files: home.successor.rt,
        alloc: home.successor.alloc,
        path: &place,
    };
    match logs.recover_log(after.genesis()) {
        Ok(log) if log.count() == 0 => Ok(Goods::Kept(log)),
        Ok(_) => Err(OverFault::Stopped),
        Err(fault) => Err(fault_of_keys(fault)),
    }
}

fn new_goods<T: Threads + Wait + Files<File = File>, S: Sink>(
    home: &Home<'_, T, S>,
    after: &CommitteeView<'_>,
    logs: &str,
) -> Result<Goods, OverFault> {
    let (rt, alloc) = (home.successor.rt, home.successor.alloc);
    let behind = KeySet::Behind(home.successor.committee.chain());
    let Ok(place) = home.lineage().keys_at(behind) else {
        return Err(OverFault::Memory);
    };
    match is_nothing_at(rt, &place) {
        Ok(false) => {}
        Ok(true) if home.maker.lacks(after) => return Err(OverFault::Stopped),
        Ok(true) => return Err(OverFault::NotMine),
        Err(_) => return Err(OverFault::Stopped),
    }
    let keys = ReplicaFolder {
        files: rt,
        alloc,
        path: &place,
    };
    let lock = match keys.lock() {
        Ok(lock) => lock,
        Err(fault) => return Err(fault_of_keys(fault)),
    };
    let stores = match keys.open_stores(after, home.replica, logs) {
        Ok(stores) => stores,
        Err(fault) => return Err(fault_of_keys(fault)),
    };
    let Stores { seeds, index, log } = stores;
    if log.count() > 0 {
        return Err(OverFault::Stopped);
    }
    let trees = trees_of(home, after, seeds)?;
    if !are_keys(after, home.replica, &trees) {
        return Err(OverFault::NotMine);
    }
    Ok(Goods::New(Parts { trees, index, log }, lock))
}

// The keys of these seeds: as they were computed beside the votes, or else they are computed now.
fn trees_of<T: Threads + Wait + Files<File = File>, S: Sink>(
    home: &Home<'_, T, S>,
    after: &CommitteeView<'_>,
    seeds: Vec<PrivateSeed>,
) -> Result<Vec<SigningTree>, OverFault> {
    match home.maker.take_trees() {
        Some(trees) if are_keys(after, home.replica, &trees) => Ok(trees),
        _ => grown(home.successor.rt, home.successor.alloc, seeds),
    }
}

// A key that is computed in a thread, or was where none could be made.
#[derive(Drop)]
enum Run {
    Thread(JoinHandle<Option<SigningTree>>),
    Done(Option<SigningTree>),
}

impl Run {
    fn join<T: Threads>(self, rt: &T) -> Option<SigningTree> {
        match self {
            Run::Thread(handle) => handle.join(rt),
            Run::Done(tree) => tree,
        }
    }
}

fn start<T: Threads>(rt: &T, alloc: Global, seed: PrivateSeed) -> Run {
    match thread::spawn(rt, move || SigningTree::generate(alloc, seed).ok()) {
        Ok(handle) => Run::Thread(handle),
        Err(refused) => Run::Done((refused.value)()),
    }
}

// The keys of these seeds, each computed in a thread of its own. Each thread is joined.
fn grown<T: Threads>(
    rt: &T,
    alloc: Global,
    seeds: Vec<PrivateSeed>,
) -> Result<Vec<SigningTree>, OverFault> {
    let mut runs = Vec::new(alloc);
    let mut are_all = true;
    for seed in seeds {
        if let Err(refused) = runs.push(start(rt, alloc, seed)) {
            let _ = refused.value.join(rt);
            are_all = false;
        }
    }
    let mut trees = Vec::new(alloc);
    for run in runs {
        are_all = match run.join(rt) {
            Some(tree) => trees.push(tree).is_ok() && are_all,
            None => false,
        };
    }
    if are_all {
        Ok(trees)
    } else {
        Err(OverFault::Memory)
    }
}

// Whether the trees are those of the replica's keys, in order.
fn are_keys(committee: &CommitteeView<'_>, replica: u16, trees: &[SigningTree]) -> bool {
    if replica >= committee.n() {
        return false;
    }
    for k in 0..committee.keys(replica) {
        let Some(tree) = trees.get(usize::from(k)) else {
            return false;
        };
        if tree.public_key() != committee.key(replica, k) {
            return false;
        }
    }
    true
}
