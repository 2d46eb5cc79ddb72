//! Judges one verdict under one committee: `hs_check COMMITTEE VERDICT`, or with no words two lines of
//! hex digits on standard input. docs/hs_check.md is its manual page.
#![tactic(auto)]

use base_streams::StdSink;
use program_check::run_program;
use program_parts::run_main;
use std::io::{Stderr, Stdout};
use std::process::ExitCode;

fn main(rt: HostRuntime) -> ExitCode {
    run_main(
        &rt,
        rt.stdout(),
        rt.stderr(),
        &|words: &[String], out: &mut StdSink<Stdout>, faults: &mut StdSink<Stderr>| {
            run_program(&rt, rt.alloc(), words, rt.stdin(), out, faults)
        },
    )
}
