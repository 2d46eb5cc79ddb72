//! Runs of the tool, and of the checker.

use base_streams::{MemoryFeed, MemorySink};
use program_check::run_program;
use program_tool::{Extras, SystemFiles, ToolHost, run_tool};
use replica_files::KnownSeed;
use std::alloc::Global;
use std::fs::{File, Files};
use std::net::{Net, TcpListener, TcpStream};
use std::sync::Wait;
use std::thread::Threads;
use std::time::{Clock, Duration};
use std::{fs, io, thread};

/// How often a connection is tried until a replica listens.
const MOST_KNOCKS: u32 = 600;

/// How long is waited between two of these, in milliseconds.
const KNOCK_MILLISECONDS: u64 = 100;

/// How many hex digits a vote has.
const VOTE_DIGITS: usize = 2_990;

/// A replica that hands out its log.
#[derive(Clone, Copy)]
pub(crate) struct Served<'a> {
    pub number: u16,
    pub address: &'a str,
}

/// A run of the tool.
#[derive(Clone, Copy)]
pub(crate) enum Job<'a> {
    /// A replica on the folder of its number over the lines of a file, which then hands out its log twice.
    Replica {
        number: u16,
        prefix: &'a str,
        lines: &'a str,
        address: &'a str,
    },
    /// An audit of these replicas, once each was knocked at: a connection that asks for nothing.
    Audit {
        served: &'a [Served<'a>],
        out_dir: &'a str,
    },
    /// The log from before votes named their keys, to the folder of its replica.
    Migration {
        number: u16,
    },
}

/// What a run said.
#[derive(Drop)]
pub(crate) struct Transcript {
    text: String,
}

impl Transcript {
    pub fn text(&self) -> &str {
        &self.text
    }
}

impl Job<'_> {
    // The words of the command line, and what stands on standard input. An audit waits until all servers listen.
    fn call<R: Files<File = File> + Clock + Net<Stream = TcpStream> + AllocGlobal>(
        self,
        rt: &R,
    ) -> io::Result<(String, Vec<u8>)> {
        let alloc = rt.alloc();
        match self {
            Job::Replica {
                number,
                prefix,
                lines,
                address,
            } => Ok((
                format!(in alloc;
                    "replica committee.hsc {number} {prefix}_{number} --serve {address} --requests 2"
                )?,
                fs::read(rt, lines)?,
            )),
            Job::Audit { served, out_dir } => {
                fs::create_dir(rt, out_dir)?;
                Ok((audit_words(rt, alloc, served, out_dir)?, Vec::new(alloc)))
            }
            Job::Migration { number } => Ok((
                format!(in alloc;
                    "migrate old_{number}.hsj migrated_{number}/log.hsj committee.hsc"
                )?,
                Vec::new(alloc),
            )),
        }
    }

    pub fn run<
        R: Files<File = File>
            + Threads
            + Wait
            + Clock
            + Net<Listener = TcpListener, Stream = TcpStream>
            + Sync
            + AllocGlobal,
    >(self, rt: &R) -> io::Result<Transcript>
    where
        R::Dir: Send,
    {
        let alloc = rt.alloc();
        let (words, input) = self.call(rt)?;
        let words = strings(alloc, &words)?;
        let host = ToolHost {
            files: rt,
            rt,
            alloc,
            console: None,
            is_typed: false,
        };
        let mut out = MemorySink::new(alloc);
        let mut faults = MemorySink::new(alloc);
        let status = run_tool(
            &host,
            &KnownSeed::none(),
            &words,
            &mut MemoryFeed::new(input),
            &mut out,
            &mut faults,
            &mut Extras {
                whys: MemorySink::new(alloc),
                files: SystemFiles::of(rt, alloc),
            },
        );
        let text = told(alloc, out.bytes(), faults.bytes(), status)?;
        Ok(Transcript { text })
    }
}

/// What the checker says of the verdict in a file.
pub(crate) fn check<R: Files<File = File> + AllocGlobal>(
    rt: &R,
    verdict: &str,
) -> io::Result<Transcript> {
    let alloc = rt.alloc();
    let words = strings(alloc, &format!(in alloc; "committee.hsc {verdict}")?)?;
    let mut out = MemorySink::new(alloc);
    let mut faults = MemorySink::new(alloc);
    let input: &[u8] = b"";
    let status = run_program(rt, alloc, &words, input, &mut out, &mut faults);
    let text = told(alloc, out.bytes(), faults.bytes(), status)?;
    Ok(Transcript { text })
}

fn audit_words<R: Net<Stream = TcpStream> + Clock>(
    rt: &R,
    alloc: Global,
    served: &[Served<'_>],
    out_dir: &str,
) -> io::Result<String> {
    let mut words = format!(in alloc; "audit committee.hsc {out_dir}")?;
    for replica in served {
        knock(rt, replica.address)?;
        words.push_str(&format!(in alloc; " {}=tcp:{}", replica.number, replica.address)?)?;
    }
    Ok(words)
}

// Waits until someone listens at the address.
fn knock<R: Net<Stream = TcpStream> + Clock>(rt: &R, address: &str) -> io::Result<()> {
    for _ in 0..MOST_KNOCKS {
        match TcpStream::connect(rt, address) {
            Ok(_) => return Ok(()),
            Err(_) => thread::sleep(rt, Duration::from_millis(KNOCK_MILLISECONDS)),
        }
    }
    Err(io::Error::from(io::ErrorKind::TimedOut))
}

fn strings(alloc: Global, words: &str) -> io::Result<Vec<String>> {
    let mut all = Vec::new(alloc);
    for word in words.split(' ') {
        all.push(word.to_string(alloc)?)?;
    }
    Ok(all)
}

// The lines of output and of faults, and the status. A vote is not spelled out.
fn told(alloc: Global, out: &[u8], faults: &[u8], status: u8) -> io::Result<String> {
    let mut text = String::new(alloc);
    for line in String::from_utf8_lossy(alloc, out)?.lines() {
        for (i, word) in line.split(' ').enumerate() {
            text.push_str(if i == 0 { "" } else { " " })?;
            text.push_str(if word.len() == VOTE_DIGITS {
                "VOTE"
            } else {
                word
            })?;
        }
        text.push_str("\n")?;
    }
    for line in String::from_utf8_lossy(alloc, faults)?.lines() {
        text.push_str(&format!(in alloc; "! {line}\n")?)?;
    }
    text.push_str(&format!(in alloc; "status {status}")?)?;
    Ok(text)
}
