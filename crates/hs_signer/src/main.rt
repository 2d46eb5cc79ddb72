//! A replica that answers calls: `hs_signer COMMITTEE R DIR ..`. docs/hs_signer.md is its manual page.
#![tactic(auto)]

use base_streams::{StdFeed, StdSink};
use program_help::{SIGNER, asked_in, run_help};
use program_parts::run_main;
use signer_command::{SignerHost, run_signer};
use std::io::{Stderr, Stdout};
use std::process::ExitCode;

fn main(rt: HostRuntime) -> ExitCode {
    run_main(
        &rt,
        rt.stdout(),
        rt.stderr(),
        &|words: &[String], out: &mut StdSink<Stdout>, faults: &mut StdSink<Stderr>| {
            if let Some(asked) = asked_in(words) {
                return run_help(rt.alloc(), &SIGNER, asked, out, faults);
            }
            let mut input = StdFeed::new(rt.stdin());
            let host = SignerHost {
                rt: &rt,
                alloc: rt.alloc(),
            };
            run_signer(
                &host,
                words,
                &mut input,
                out,
                faults,
                StdSink::new(rt.stderr()),
            )
        },
    )
}
