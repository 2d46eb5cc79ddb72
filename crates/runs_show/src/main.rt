//! Runs scenarios of the program that shows files: the script on standard input, over the files of `data`.
#![tactic(auto)]

use base_streams::MemorySink;
use program_about::{asks_about, asks_for_lineage_sheet, run_about, run_lineage_sheet};
use program_show::run_show;
use runs_script::run_script;
use std::fs::{File, Files};
use std::io;

// The program that shows files alone.
fn run_named<R: Files<File = File> + AllocGlobal>(
    rt: &R,
    name: &str,
    words: &[String],
    _input: &[u8],
    out: &mut MemorySink,
    faults: &mut MemorySink,
) -> Option<u8> {
    let alloc = rt.alloc();
    match name {
        "hs_show" if asks_for_lineage_sheet(words) => {
            Some(run_lineage_sheet(rt, alloc, words, out, faults))
        }
        "hs_show" if asks_about(words) => Some(run_about(rt, alloc, words, out, faults)),
        "hs_show" => Some(run_show(rt, alloc, words, out, faults)),
        _ => None,
    }
}

fn main(rt: HostRuntime) -> io::Result<()> {
    run_script(
        &rt,
        &|name: &str, words: &[String], input: &[u8], out: &mut MemorySink, faults: &mut MemorySink| {
            run_named(&rt, name, words, input, out, faults)
        },
    )
}
