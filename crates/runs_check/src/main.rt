//! Runs scenarios of the checker: the script on standard input, over the files of `data`.
#![tactic(auto)]

use base_streams::MemorySink;
use program_check::run_program;
use runs_script::{FailingFiles, Failure, run_script};
use std::fs::{File, Files};
use std::io;

// The checker, also where memory is refused.
fn run_named<R: Files<File = File> + AllocGlobal>(
    rt: &R,
    name: &str,
    words: &[String],
    input: &[u8],
    out: &mut MemorySink,
    faults: &mut MemorySink,
) -> Option<u8> {
    let alloc = rt.alloc();
    match name {
        "hs_check" => Some(run_program(rt, alloc, words, input, out, faults)),
        "hs_check_without_memory" => {
            let files = FailingFiles {
                rt,
                failure: Failure::Memory,
            };
            Some(run_program(&files, alloc, words, input, out, faults))
        }
        _ => None,
    }
}

fn main(rt: HostRuntime) -> io::Result<()> {
    run_script(
        &rt,
        &|name: &str, words: &[String], input: &[u8], out: &mut MemorySink, faults: &mut MemorySink| {
            run_named(&rt, name, words, input, out, faults)
        },
    )
}
