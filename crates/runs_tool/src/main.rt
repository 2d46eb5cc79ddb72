//! Runs scenarios of the operator's tool: the script on standard input, over the files of `data`.
#![tactic(auto)]

mod frames;

use base_streams::{MemoryFeed, MemorySink, write_all};
use frames::make_frames;
use program_check::run_program;
use program_tool::{Extras, FAULT, SystemFiles, ToolHost, run_tool};
use replica_files::KnownSeed;
use runs_script::{FailingFiles, Failure, run_script};
use std::alloc::Global;
use std::fs::{File, Files};
use std::io;
use std::net::{Net, TcpListener, TcpStream};
use std::sync::Wait;
use std::thread::Threads;
use std::time::Clock;

// What the random source gives: the seed of replica 2 of the trial committee.
const DRAWN: [u8; 48] = [
    2, 2, 2, 2, 2, 2, 2, 2, 2, 2, 2, 2, 2, 2, 2, 2, 18, 18, 18, 18, 18, 18, 18, 18, 18, 18, 18, 18,
    18, 18, 18, 18, 18, 18, 18, 18, 18, 18, 18, 18, 18, 18, 18, 18, 18, 18, 18, 18,
];

// The operator's tool, also where memory is refused or the disk is full, the checker, and a maker of long exports.
fn run_named<
    R: Files<File = File>
        + Threads
        + Wait
        + Clock
        + Net<Listener = TcpListener, Stream = TcpStream>
        + Sync
        + AllocGlobal,
>(
    rt: &R,
    name: &str,
    words: &[String],
    input: &[u8],
    out: &mut MemorySink,
    faults: &mut MemorySink,
) -> Option<u8>
where
    R::Dir: Send,
{
    let alloc = rt.alloc();
    match name {
        "hs_tool" => Some(tool(rt, rt, alloc, words, input, out, faults)),
        "hs_tool_without_memory" => {
            let files = FailingFiles {
                rt,
                failure: Failure::Memory,
            };
            Some(tool(&files, rt, alloc, words, input, out, faults))
        }
        "hs_tool_on_a_full_disk" => {
            let files = FailingFiles {
                rt,
                failure: Failure::FullDisk,
            };
            Some(tool(&files, rt, alloc, words, input, out, faults))
        }
        "hs_check" => Some(run_program(rt, alloc, words, input, out, faults)),
        "frames" => Some(make_frames(rt, words)),
        _ => None,
    }
}

fn tool<
    F: Files<File = File> + Sync,
    T: Threads + Wait + Clock + Net<Listener = TcpListener, Stream = TcpStream> + Sync,
>(
    files: &F,
    rt: &T,
    alloc: Global,
    words: &[String],
    input: &[u8],
    out: &mut MemorySink,
    faults: &mut MemorySink,
) -> u8
where
    F::Dir: Send,
{
    let host = ToolHost {
        files,
        rt,
        alloc,
        console: None,
        is_typed: false,
    };
    let Ok(input) = input.to_vec(alloc) else {
        return FAULT;
    };
    let mut lines = MemoryFeed::new(input);
    let mut extras = Extras {
        whys: MemorySink::new(alloc),
        files: SystemFiles::of(files, alloc),
    };
    let seeds = KnownSeed::of(DRAWN);
    let status = run_tool(&host, &seeds, words, &mut lines, out, faults, &mut extras);
    // Both go to standard error.
    match write_all(faults, extras.whys.bytes()) {
        Ok(()) => status,
        Err(_) => FAULT,
    }
}

fn main(rt: HostRuntime) -> io::Result<()> {
    run_script(
        &rt,
        &|name: &str, words: &[String], input: &[u8], out: &mut MemorySink, faults: &mut MemorySink| {
            run_named(&rt, name, words, input, out, faults)
        },
    )
}
