//! The operator's tool: `hs_tool COMMAND ..`. docs/hs_tool.md is its manual page.
#![tactic(auto)]

use base_streams::{StdFeed, StdSink};
use program_parts::run_main;
use program_tool::{Extras, SystemFiles, ToolHost, run_tool};
use replica_files::SystemSeeds;
use std::io::{IsTerminal, Stderr, Stdout};
use std::process::ExitCode;

fn main(rt: HostRuntime) -> ExitCode {
    run_main(
        &rt,
        rt.stdout(),
        rt.stderr(),
        &|words: &[String], out: &mut StdSink<Stdout>, faults: &mut StdSink<Stderr>| {
            let console = rt.stderr();
            let input = rt.stdin();
            let is_typed = input.is_terminal();
            let host = ToolHost {
                files: &rt,
                rt: &rt,
                alloc: rt.alloc(),
                console: console.is_terminal().then_some(console),
                is_typed,
            };
            run_tool(
                &host,
                &SystemSeeds::new(&rt),
                words,
                &mut StdFeed::new(input),
                out,
                faults,
                &mut Extras {
                    whys: StdSink::new(rt.stderr()),
                    files: SystemFiles::of(&rt, rt.alloc()),
                },
            )
        },
    )
}
