//! Logs from before votes named their keys, migrated, handed out, and judged.

use crate::folder::make_migrated_folder;
use crate::job::{Job, check};
use crate::run_all;
use std::alloc::Global;
use std::fs::{File, Files};
use std::net::{Net, TcpListener, TcpStream};
use std::sync::Wait;
use std::thread::Threads;
use std::time::Clock;
use std::{fs, io};

/// The replicas, which are given no lines.
const REPLICAS: [(u16, &str); 2] = [(0, "no_lines.stdin"), (3, "no_lines.stdin")];

/// The verdicts that an independent program made of the same logs.
const VERDICTS: [&str; 2] = ["verdict-1.hsx", "verdict-2.hsx"];

/// Migrates both logs, hands them out, and audits them over TCP; then judges each verdict, and compares it with the stored one.
pub(crate) fn run_migrated<
    R: Files<File = File>
        + Threads
        + Wait
        + Clock
        + Net<Listener = TcpListener, Stream = TcpStream>
        + Sync
        + AllocGlobal
        + Print,
>(rt: &R) -> io::Result<()>
where
    R::Dir: Send,
{
    for (number, _) in REPLICAS {
        make_migrated_folder(rt, number)?;
        println!(rt; "{}", Job::Migration { number }.run(rt)?.text())?;
    }
    run_all(rt, "migrated", &REPLICAS, "migrated_verdicts")?;
    for name in VERDICTS {
        let made = format!(in rt.alloc(); "migrated_verdicts/{name}")?;
        println!(rt; "{}", check(rt, &made)?.text())?;
        let is_same = fs::read(rt, &made)?.as_slice() == fs::read(rt, name)?.as_slice();
        println!(rt; "{name} as stored: {is_same}")?;
    }
    Ok(())
}
