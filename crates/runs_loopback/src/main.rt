//! Replicas that hand out their logs over the loopback, and audits of them, all at the same time. Prints what each said.
//! First four replicas: 0, 1 and 2 vote for one chain and replica 3 for the other, each by the rule; the two that broke it
//! in between are found by the votes that the second chain's certificates have of them. Then the logs of 0 and 3 as they
//! were before votes named their keys, migrated and handed out. At last replica 3 is started with an address that is none.
#![tactic(auto)]

mod folder;
mod job;
mod migrated;

use folder::make_folder;
use job::{Job, Served, Transcript};
use migrated::run_migrated;
use std::alloc::Global;
use std::fs::{File, Files};
use std::net::{Net, TcpListener, TcpStream};
use std::sync::Wait;
use std::thread::Threads;
use std::time::Clock;
use std::{io, thread};

/// The replicas, and the lines that each is run over.
const REPLICAS: [(u16, &str); 4] = [
    (0, "chain_a.stdin"),
    (1, "chain_a.stdin"),
    (2, "chain_a.stdin"),
    (3, "chain_b.stdin"),
];

// So many addresses at which no one listens, as far as can be known.
fn free_addresses<R: Net<Listener = TcpListener, Stream = TcpStream>>(
    rt: &R,
    alloc: Global,
    count: usize,
) -> io::Result<Vec<String>> {
    let mut listeners = Vec::new(alloc);
    let mut addresses = Vec::new(alloc);
    for _ in 0..count {
        let listener = TcpListener::bind(rt, "127.0.0.1:0")?;
        let address = listener.local_addr()?;
        addresses.push(format!(in alloc; "{address}")?)?;
        listeners.push(listener)?;
    }
    Ok(addresses)
}

/// Runs replicas with these folders over these lines, and an audit that writes its verdicts to `out_dir`, all at the same
/// time, and prints what each said.
fn run_all<
    R: Files<File = File>
        + Threads
        + Wait
        + Clock
        + Net<Listener = TcpListener, Stream = TcpStream>
        + Sync
        + AllocGlobal
        + Print,
>(rt: &R, prefix: &str, replicas: &[(u16, &str)], out_dir: &str) -> io::Result<()>
where
    R::Dir: Send,
{
    let alloc = rt.alloc();
    let addresses = free_addresses(rt, alloc, replicas.len())?;
    let mut served = Vec::new(alloc);
    let mut jobs = Vec::new(alloc);
    for ((number, lines), address) in replicas.iter().zip(&addresses) {
        served.push(Served {
            number: *number,
            address,
        })?;
        jobs.push(Job::Replica {
            number: *number,
            prefix,
            lines,
            address,
        })?;
    }
    jobs.push(Job::Audit {
        served: &served,
        out_dir,
    })?;
    print_all(rt, thread::map_vec(rt, jobs, &|job: Job| job.run(rt))?)
}

fn print_all<R: Print>(rt: &R, transcripts: Vec<io::Result<Transcript>>) -> io::Result<()> {
    for transcript in transcripts {
        println!(rt; "{}", transcript?.text())?;
    }
    Ok(())
}

fn main(rt: HostRuntime) -> io::Result<()> {
    for (number, _) in REPLICAS {
        make_folder(&rt, number)?;
    }
    run_all(&rt, "replica", &REPLICAS, "verdicts")?;
    run_migrated(&rt)?;
    let last = Job::Replica {
        number: 3,
        prefix: "replica",
        lines: "no_lines.stdin",
        address: "nowhere",
    };
    println!(rt; "{}", last.run(&rt)?.text())
}
