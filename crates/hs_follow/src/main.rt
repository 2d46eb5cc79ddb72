//! One step from a committee to the next: `hs_follow OLD NEW SOURCE.. [--renewal FILE] [--proof OUT] [--light OUT]`; and all steps from one
//! committee on: `hs_follow C0 --lineage DIR [--fetch SOURCE..]`. docs/hs_follow.md is its manual page.
#![tactic(auto)]

use base_streams::StdSink;
use program_follow::{asks_for_lineage, run_follow, run_lineage};
use program_help::{FOLLOW, asked_in, run_help};
use program_parts::run_main;
use std::io::{Stderr, Stdout};
use std::process::ExitCode;

fn main(rt: HostRuntime) -> ExitCode {
    run_main(
        &rt,
        rt.stdout(),
        rt.stderr(),
        &|words: &[String], out: &mut StdSink<Stdout>, faults: &mut StdSink<Stderr>| {
            match asked_in(words) {
                Some(asked) => run_help(rt.alloc(), &FOLLOW, asked, out, faults),
                None if asks_for_lineage(words) => {
                    run_lineage(&rt, &rt, rt.alloc(), words, out, faults)
                }
                None => {
                    let mut notes = StdSink::new(rt.stderr());
                    run_follow(&rt, &rt, rt.alloc(), words, out, faults, &mut notes)
                }
            }
        },
    )
}
