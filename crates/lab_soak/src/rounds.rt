//! A run, round by round.

use crate::checks::check_log;
use crate::counts::{Counts, one_more};
use crate::disks::{Remains, left, new_disks, recovered};
use crate::failure::Failure;
use crate::keys::{MOST_KEYS, Signers, own_keys};
use crate::random::Random;
use crate::round::{Round, Run};
use crate::stay::{Site, stay};
use blocks::CommitteeView;
use key_index_store::{INDICES, INDICES_PER_RESERVATION};
use lms_tree::SigningTree;
use std::alloc::Global;
use std::sync::Wait;
use std::thread::Threads;

/// How many reservations of a key are taken at the most when a round begins under it.
const MOST_TAKEN: u32 = 60;

// The keys of replica 0, how many they are, and how many of their indices are taken when a round begins.
#[derive(Drop)]
struct OwnKeys {
    trees: Vec<SigningTree>,
    keys: u8,
    taken: u32,
}

// How many keys the replica has in a round, and how many of their indices are taken when it begins: all of the keys below
// one of them, and some of that.
fn beginning(random: &mut Random) -> (u8, u32) {
    let keys = random.below_u32(u32::from(MOST_KEYS)).saturating_add(1);
    let below = random.below_u32(keys).saturating_mul(INDICES);
    let of_one = random
        .below_u32(MOST_TAKEN)
        .saturating_mul(INDICES_PER_RESERVATION);
    let keys = u8::try_from(keys).unwrap_or(1);
    (keys, below.saturating_add(of_one))
}

// The stays of a replica, one after the other, up to the checks at the round's end.
fn live<R: Threads + Wait + Sync>(
    rt: &R,
    site: Site,
    remains: Remains,
    round: &mut Round,
    run: &mut Run,
) -> Result<(), Failure> {
    let mut remains = remains;
    for _ in 0..u64::MAX {
        let mut parts = recovered(site.alloc, site.committee, remains, round, run)?;
        if round.is_over(run) {
            let log = &mut parts.log;
            return check_log(site.alloc, site.committee, log, round, &mut run.counts);
        }
        remains = left(stay(rt, site, parts, round, run)?, run)?;
    }
    Ok(())
}

// A round under the committee of these bytes, whose replica 0 has these keys, so many of whose indices are taken.
fn finish_under<R: Threads + Wait + Sync>(
    rt: &R,
    alloc: Global,
    signers: &Signers,
    bytes: &[u8],
    own: OwnKeys,
    run: &mut Run,
) -> Result<(), Failure> {
    let Ok(committee) = CommitteeView::parse(bytes) else {
        return Err(Failure::Refused("a committee is read"));
    };
    let OwnKeys { trees, keys, taken } = own;
    let disks = new_disks(alloc, &committee, taken)?;
    let mut round = Round::new(alloc, &committee, keys, taken)?;
    let site = Site {
        alloc,
        committee: &committee,
        signers,
    };
    live(rt, site, Remains { trees, disks }, &mut round, run)
}

// From new keys to the checks at their end.
fn finish_round<R: Threads + Wait + Sync>(
    rt: &R,
    alloc: Global,
    signers: &Signers,
    run: &mut Run,
) -> Result<(), Failure> {
    let (keys, taken) = beginning(&mut run.random);
    run.counts.keys = run.counts.keys.saturating_add(u64::from(keys));
    let trees = own_keys(rt, alloc, run.counts.rounds, keys)?;
    let bytes = signers.committee(alloc, &trees)?;
    finish_under(
        rt,
        alloc,
        signers,
        &bytes,
        OwnKeys { trees, keys, taken },
        run,
    )
}

/// A run of so many operations, whose random numbers come from this seed.
pub(crate) fn begin(seed: u64, operations: u64) -> Run {
    Run {
        random: Random::of(seed),
        counts: Counts::NONE,
        left: operations,
    }
}

/// Does all operations of a run.
pub(crate) fn finish<R: Threads + Wait + Sync>(
    rt: &R,
    alloc: Global,
    run: &mut Run,
) -> Result<(), Failure> {
    let signers = Signers::generate(rt, alloc)?;
    for _ in 0..u64::MAX {
        if run.left == 0 {
            break;
        }
        finish_round(rt, alloc, &signers, run)?;
        one_more(&mut run.counts.rounds);
    }
    Ok(())
}
