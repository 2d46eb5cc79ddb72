//! Draws what logs show and whom they accuse: `hs_draw COMMITTEE R=file:PATH.. > fork.svg`. docs/hs_draw.md is its
//! manual page.
#![tactic(auto)]

use base_streams::StdSink;
use program_draw::run_draw;
use program_help::{DRAW, asked_in, run_help};
use program_parts::run_main;
use std::io::{Stderr, Stdout};
use std::process::ExitCode;

fn main(rt: HostRuntime) -> ExitCode {
    run_main(
        &rt,
        rt.stdout(),
        rt.stderr(),
        &|words: &[String], out: &mut StdSink<Stdout>, faults: &mut StdSink<Stderr>| {
            match asked_in(words) {
                Some(asked) => run_help(rt.alloc(), &DRAW, asked, out, faults),
                None => run_draw(&rt, &rt, rt.alloc(), words, out, faults),
            }
        },
    )
}
