//! Measures audits of ledgers that it makes from fixed seeds: `lab_bench LEDGER REPLICAS BLOCKS ..`, three words for each, as
//! docs/PERFORMANCE.md says. With no words it makes a small ledger of each kind, and prints what the audit finds, and no time.
#![tactic(auto)]

mod chain;
mod export;
mod keys;
mod ledger;
mod lent;
mod measuring;
mod phases;
mod plan;
mod row;

use keys::Keys;
use ledger::Site;
use measuring::{Measured, measure};
use plan::{FEWEST, Kind, Plan};
use row::{HEAD, print_counts, print_row};
use std::alloc::Global;
use std::sync::Wait;
use std::thread::Threads;
use std::time::Clock;
use std::{env, io};

/// How many words name a ledger.
const WORDS: usize = 3;

/// The ledgers that are made where no words are given.
const SMALL: [Plan; 4] = [
    Plan {
        kind: Kind::Honest,
        replicas: FEWEST,
        blocks: 5,
    },
    Plan {
        kind: Kind::Forked,
        replicas: FEWEST,
        blocks: 2,
    },
    Plan {
        kind: Kind::Flat,
        replicas: FEWEST,
        blocks: 6,
    },
    Plan {
        kind: Kind::Copied,
        replicas: FEWEST,
        blocks: 7,
    },
];

// What an audit of the planned ledger takes and finds.
fn run<R: Threads + Wait + Clock + Sync>(
    rt: &R,
    alloc: Global,
    keys: &Keys,
    plan: Plan,
) -> io::Result<Measured> {
    let site = Site::of(rt, alloc, keys)?;
    let ledger = site.ledger(plan)?;
    measure(rt, alloc, &site.committee, &ledger)
}

// Makes these ledgers and audits them, and prints what is found in each, or how long that takes. Those of as many replicas in
// a row have one committee.
fn run_all<R: Threads + Wait + Clock + Print + Sync>(
    rt: &R,
    alloc: Global,
    plans: &[Plan],
    is_timed: bool,
) -> io::Result<()> {
    let mut keys = Keys::generate(rt, alloc, 0)?;
    for plan in plans {
        if keys.trees.len() != usize::from(plan.replicas) {
            keys = Keys::generate(rt, alloc, plan.replicas)?;
        }
        let measured = run(rt, alloc, &keys, *plan)?;
        if is_timed {
            print_row(rt, *plan, &measured)?;
        } else {
            print_counts(rt, *plan, &measured.found)?;
        }
    }
    Ok(())
}

fn main(rt: HostRuntime) -> io::Result<()> {
    let alloc = rt.alloc();
    let words = env::args(&rt)?.skip(1).collect::<Vec<String>>(alloc)?;
    if words.is_empty() {
        return run_all(&rt, alloc, &SMALL, false);
    }
    let mut plans = Vec::new(alloc);
    for ledger in words.chunks(WORDS) {
        let Some(plan) = Plan::read(ledger) else {
            eprintln!(rt; "usage: lab_bench [honest|forked|flat|copied REPLICAS BLOCKS]..")?;
            return Err(io::Error::from(io::ErrorKind::InvalidInput));
        };
        plans.push(plan)?;
    }
    println!(rt; "{HEAD}")?;
    run_all(&rt, alloc, &plans, true)
}
