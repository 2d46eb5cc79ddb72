//! Random operations on a replica's desk against a plain model: deliveries, timeouts, calls of its disks that fail,
//! crashes and restarts, of a replica with one to four keys. `lab_soak SEED OPERATIONS`; with no words a short run. At the end
//! of each round the stored votes are audited.
#![tactic(auto)]

mod checks;
mod choosing;
mod counts;
mod desk_model;
mod disks;
mod failure;
mod keys;
mod model;
mod random;
mod round;
mod rounds;
mod stay;
mod tree;

use failure::Failure;
use rounds::{begin, finish};
use std::alloc::Global;
use std::process::ExitCode;
use std::sync::Wait;
use std::thread::Threads;
use std::{env, io};

/// The exit status where something was not as the model says.
const MISMATCH: u8 = 1;

/// The exit status where the words are not understood, or memory or an output failed.
const FAULT: u8 = 2;

/// A run that is asked for.
#[derive(Clone, Copy)]
struct Plan {
    seed: u64,
    operations: u64,
}

/// The run where there are no words.
const SHORT: Plan = Plan {
    seed: 1,
    operations: 1_000,
};

fn number(word: &str) -> Option<u64> {
    word.parse::<u64>().ok()
}

impl Plan {
    fn read(words: &[String]) -> Option<Plan> {
        match words {
            [] => Some(SHORT),
            [seed, operations] => {
                let seed = number(seed)?;
                let operations = number(operations)?;
                Some(Plan { seed, operations })
            }
            _ => None,
        }
    }
}

// Prints why a run ended at an operation, and answers the exit status.
fn tell<R: Print>(rt: &R, plan: Plan, operation: u64, failure: Failure) -> io::Result<u8> {
    let seed = plan.seed;
    match failure {
        Failure::Mismatch { what, want, got } => {
            println!(rt;
                "mismatch: seed {seed} operation {operation}: {what}: wanted {want}, got {got}"
            )?;
            Ok(MISMATCH)
        }
        Failure::Refused(what) => {
            println!(rt;
                "mismatch: seed {seed} operation {operation}: wanted that {what}, which is not so"
            )?;
            Ok(MISMATCH)
        }
        Failure::Io(error) => Err(error),
    }
}

// Does the run, prints what came, and answers the exit status.
fn soak<R: Threads + Wait + Print + Sync>(rt: &R, alloc: Global, plan: Plan) -> io::Result<u8> {
    let Plan { seed, operations } = plan;
    println!(rt; "seed {seed} operations {operations}")?;
    let mut run = begin(seed, operations);
    if let Err(failure) = finish(rt, alloc, &mut run) {
        return tell(rt, plan, operations.saturating_sub(run.left), failure);
    }
    run.counts.print(rt)?;
    println!(rt; "nothing is lost, no index comes twice, nobody honest is accused")?;
    Ok(0)
}

fn main(rt: HostRuntime) -> ExitCode {
    let words = match env::args(&rt) {
        Ok(words) => words.skip(1).collect::<Vec<String>>(rt.alloc()),
        Err(_) => return ExitCode::from(FAULT),
    };
    let plan = match words {
        Ok(words) => Plan::read(&words),
        Err(_) => None,
    };
    let Some(plan) = plan else {
        let _ = eprintln!(rt; "usage: lab_soak [SEED OPERATIONS]");
        return ExitCode::from(FAULT);
    };
    match soak(&rt, rt.alloc(), plan) {
        Ok(status) => ExitCode::from(status),
        Err(error) => {
            let _ = eprintln!(rt; "lab_soak: {error}");
            ExitCode::from(FAULT)
        }
    }
}
