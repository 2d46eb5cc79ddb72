//! Runs scenarios of the program that follows a handover: the script on standard input, over the files of `data`.
#![tactic(auto)]

use base_streams::{MemorySink, write_all};
use program_follow::{asks_for_lineage, run_follow, run_lineage};
use program_parts::FAULT;
use runs_script::run_script;
use std::fs::{File, Files};
use std::io;
use std::net::{Net, TcpListener, TcpStream};
use std::sync::Wait;
use std::thread::Threads;
use std::time::Clock;

// The program that follows a handover alone.
fn run_named<
    R: Files<File = File>
        + Threads
        + Wait
        + Clock
        + Net<Listener = TcpListener, Stream = TcpStream>
        + Sync
        + AllocGlobal,
>(rt: &R, name: &str, words: &[String], out: &mut MemorySink, faults: &mut MemorySink) -> Option<u8>
where
    R::Dir: Send,
{
    match name {
        "hs_follow" if asks_for_lineage(words) => {
            Some(run_lineage(rt, rt, rt.alloc(), words, out, faults))
        }
        "hs_follow" => Some(run_noted(rt, words, out, faults)),
        _ => None,
    }
}

// What is noted goes to standard error too.
fn run_noted<
    R: Files<File = File>
        + Threads
        + Wait
        + Clock
        + Net<Listener = TcpListener, Stream = TcpStream>
        + Sync
        + AllocGlobal,
>(rt: &R, words: &[String], out: &mut MemorySink, faults: &mut MemorySink) -> u8
where
    R::Dir: Send,
{
    let mut notes = MemorySink::new(rt.alloc());
    let status = run_follow(rt, rt, rt.alloc(), words, out, faults, &mut notes);
    match write_all(faults, notes.bytes()) {
        Ok(()) => status,
        Err(_) => FAULT,
    }
}

fn main(rt: HostRuntime) -> io::Result<()> {
    run_script(
        &rt,
        &|name: &str, words: &[String], _input: &[u8], out: &mut MemorySink, faults: &mut MemorySink| {
            run_named(&rt, name, words, out, faults)
        },
    )
}
