//! Runs scenarios of the program that draws pictures: the script on standard input, over the files of `data`.
#![tactic(auto)]

use base_streams::MemorySink;
use program_draw::run_draw;
use runs_script::run_script;
use std::fs::{File, Files};
use std::io;
use std::sync::Wait;
use std::thread::Threads;

// The program that draws pictures alone.
fn run_named<R: Files<File = File> + Threads + Wait + Sync + AllocGlobal>(
    rt: &R,
    name: &str,
    words: &[String],
    _input: &[u8],
    out: &mut MemorySink,
    faults: &mut MemorySink,
) -> Option<u8>
where
    R::Dir: Send,
{
    let alloc = rt.alloc();
    match name {
        "hs_draw" => Some(run_draw(rt, rt, alloc, words, out, faults)),
        _ => None,
    }
}

fn main(rt: HostRuntime) -> io::Result<()> {
    run_script(
        &rt,
        &|name: &str, words: &[String], input: &[u8], out: &mut MemorySink, faults: &mut MemorySink| {
            run_named(&rt, name, words, input, out, faults)
        },
    )
}
