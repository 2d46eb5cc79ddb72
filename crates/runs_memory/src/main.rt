//! Runs that are refused memory: `runs_memory SCENARIO` sets a scenario up, says so by the line `set up`, and prints what
//! came of it. `trials/refused_memory` refuses each request for memory behind that line in turn. With no words it runs each
//! scenario once.
#![tactic(auto)]

mod closing;
mod delivering;
mod fetching;
mod outcome;
mod replica;
mod scenario;
mod stage;

use base_streams::{Sink, StdSink, write_all};
use outcome::Outcome;
use scenario::{SCENARIOS, Scenario, run};
use std::env;
use std::process::ExitCode;
use std::sync::Wait;
use std::thread::Threads;

/// The exit status where words name no scenario.
const USAGE: u8 = 2;

// Runs a scenario, prints what came of it, and answers whether it may come.
fn print<R: Threads + Wait + Sync + AllocGlobal, W: Sink>(
    rt: &R,
    scenario: Scenario,
    out: &mut W,
) -> bool {
    let outcome = run(rt, scenario, out);
    let _ = write_all(out, scenario.name().as_bytes());
    let _ = write_all(out, b" ");
    let _ = write_all(out, outcome.line());
    outcome != Outcome::Wrong
}

fn main(rt: HostRuntime) -> ExitCode {
    let mut out = StdSink::new(rt.stdout());
    let words = match env::args(&rt) {
        Ok(words) => words.skip(1).collect::<Vec<String>>(rt.alloc()),
        Err(_) => return ExitCode::from(USAGE),
    };
    let Ok(words) = words else {
        return ExitCode::from(USAGE);
    };
    let mut are_right = true;
    if words.is_empty() {
        for scenario in SCENARIOS {
            are_right &= print(&rt, scenario, &mut out);
        }
    }
    for word in &words {
        let Some(scenario) = Scenario::named(word) else {
            return ExitCode::from(USAGE);
        };
        are_right &= print(&rt, scenario, &mut out);
    }
    ExitCode::from(u8::from(!are_right))
}
