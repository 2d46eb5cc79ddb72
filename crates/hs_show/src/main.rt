//! Says what files are and what stands in them: `hs_show FILE.. [--committee C]`; a verdict as a sheet to read, and what a printed
//! line means. docs/hs_show.md is its manual page.
#![tactic(auto)]

use base_streams::StdSink;
use program_about::{asks_about, asks_for_lineage_sheet, run_about, run_lineage_sheet};
use program_parts::run_main;
use program_show::run_show;
use std::io::{Stderr, Stdout};
use std::process::ExitCode;

fn main(rt: HostRuntime) -> ExitCode {
    run_main(
        &rt,
        rt.stdout(),
        rt.stderr(),
        &|words: &[String], out: &mut StdSink<Stdout>, faults: &mut StdSink<Stderr>| {
            if asks_for_lineage_sheet(words) {
                run_lineage_sheet(&rt, rt.alloc(), words, out, faults)
            } else if asks_about(words) {
                run_about(&rt, rt.alloc(), words, out, faults)
            } else {
                run_show(&rt, rt.alloc(), words, out, faults)
            }
        },
    )
}
