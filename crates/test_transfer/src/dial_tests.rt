//! A server over streams in memory, which tell what was written to them.

ghost use Rattle.std.specs.Prelude.{Some, false, true};

use crate::sources::gives;
use log_format::{FrameRequest, Status};
use log_request::{Asked, ChainDialer, ChainServer, Heard, NO_LOG, asked_in};
use log_transfer::{Connector, Dial, ServerConnector};
use std::alloc::Global;
use std::io;
use std::io::{Read, Write};
use std::process::Abort;
use std::time::Clock;
use test_fixtures::exports::nine_entries;

// Gives the stored export, and keeps what is written to it.
#[derive(Drop)]
struct Wire {
    left: &'static [u8],
    written: Vec<u8>,
}

impl Read for Wire {
    fn read(&mut self, buffer: &mut [u8]) -> io::Result<usize> {
        self.left.read(buffer)
    }
}

impl Write for Wire {
    ghost contents = { λ w. Some w.written.items };

    fn write(&mut self, bytes: &[u8]) -> io::Result<usize> {
        self.written.write(bytes)
    }

    fn flush(&mut self) -> io::Result<()> {
        Ok(())
    }
}

// Opens such streams.
#[derive(Drop)]
struct Wires {
    alloc: Global,
}

impl Dial for Wires {
    type Stream = Wire;

    ghost tells = { true };

    fn dial(&self) -> io::Result<Wire> {
        Ok(Wire {
            left: nine_entries(),
            written: Vec::new(self.alloc),
        })
    }
}

#[test]
fn streams_that_tell_are_read(rt: HostRuntime) {
    let mut source = ServerConnector::over(&rt, Wires { alloc: rt.alloc() });
    assert!(rt; gives(rt.alloc(), &mut source, 3, 9, Status::Whole));
    assert!(rt; source.failures() == 0);
}

// Which requests a server knows.
#[derive(Clone, Copy)]
enum Known {
    // Those that name no chain, as earlier versions do.
    Unnamed,
    // Both kinds. It has the log of this chain.
    Both([u8; 32]),
}

impl Known {
    // What it answers before it closes.
    fn answer_to(self, request: &[u8]) -> &'static [u8] {
        let asked = match self {
            Known::Unnamed => FrameRequest::from_bytes(request).map(|r| Asked::Frames(r)),
            Known::Both(chain) => asked_in(&chain, request),
        };
        match asked {
            Some(Asked::Frames(_)) => nine_entries(),
            Some(Asked::OtherChain) => &NO_LOG,
            None => b"",
        }
    }
}

// Answers what was written to it before the first read.
#[derive(Drop)]
struct Answering {
    known: Known,
    written: Vec<u8>,
    left: Option<&'static [u8]>,
}

impl Read for Answering {
    fn read(&mut self, buffer: &mut [u8]) -> io::Result<usize> {
        let mut left = match self.left {
            Some(left) => left,
            None => self.known.answer_to(&self.written),
        };
        let n = left.read(buffer)?;
        self.left = Some(left);
        Ok(n)
    }
}

impl Write for Answering {
    fn write(&mut self, bytes: &[u8]) -> io::Result<usize> {
        self.written.write(bytes)
    }

    fn flush(&mut self) -> io::Result<()> {
        Ok(())
    }
}

// Opens such streams.
#[derive(Drop)]
struct Servers {
    alloc: Global,
    known: Known,
}

impl Dial for Servers {
    type Stream = Answering;

    ghost tells = { false };

    fn dial(&self) -> io::Result<Answering> {
        Ok(Answering {
            known: self.known,
            written: Vec::new(self.alloc),
            left: None,
        })
    }
}

const CHAIN: [u8; 32] = [7; 32];

// Whether such a server, asked for the log of the chain, gives so many frames and ends so, and what is heard of it.
fn heard_of<R: AllocGlobal + Clock>(
    rt: &R,
    known: Known,
    frames: usize,
    status: Status,
) -> Option<Heard> {
    let servers = Servers {
        alloc: rt.alloc(),
        known,
    };
    let server = ChainServer::new(servers, CHAIN);
    let is_so = {
        let mut source = ServerConnector::over(rt, ChainDialer::of(&server));
        gives(rt.alloc(), &mut source, 3, frames, status) && source.failures() == 0
    };
    is_so.then_some(server.heard())
}

#[test]
fn chain_is_named_at_servers_that_know_it(rt: HostRuntime) {
    let known = Known::Both(CHAIN);
    assert!(rt; heard_of(&rt, known, 9, Status::Whole) == Some(Heard::Named));
}

#[test]
fn earlier_servers_are_asked_again_without_the_chain(rt: HostRuntime) {
    let heard = heard_of(&rt, Known::Unnamed, 9, Status::Whole);
    assert!(rt; heard == Some(Heard::Unnamed));
}

#[test]
fn servers_of_another_chain_are_not_asked_again(rt: HostRuntime) {
    let heard = heard_of(&rt, Known::Both([8; 32]), 0, Status::Broken);
    assert!(rt; heard == Some(Heard::NoLog));
}
