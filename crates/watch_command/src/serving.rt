//! The threads that tell over HTTP what the watch knows.

ghost use Rattle.std.specs.Prelude.{◌≡◌};

use crate::shop::WatchShared;
use base_shared::Shared;
use base_sockets::{
    Answerer, Bounds, CallTalk, Rules, ShortFirst, bind, connections_at, most_open_files,
    talk_to_all,
};
use base_wire::append;
use http_server::{Config, Connection};
use http1::Limits;
use std::alloc::Global;
use std::fs::{File, Files};
use std::hash::RandomState;
use std::io;
use std::io::{Read, Write};
use std::net::{Net, Shutdown, TcpListener, TcpStream};
use std::os::fd::OwnedFd;
use std::random::RandomSource;
use std::sync::{Mutex, Wait};
use std::time::Clock;
use watch_report::Snapshot;
use watch_web::{Watcher, serve_watcher};

/// How many threads answer, each many readers at once.
pub(crate) const ANSWERERS: usize = 2;

/// How long a reader may take, in milliseconds: to send its request, while it takes nothing of the answer, and in all.
const BOUNDS: Bounds = Bounds {
    asking: 5_000,
    answering: 10_000,
    whole: 15_000,
};

/// From how many bytes on that were made and not taken, over the readers of one thread, no further answer is made but short ones. One
/// answer has at most some 300 KB, the picture. 512 short ones have at most 55 MB, of 64 sources with words of 80 bytes each. So the two
/// threads hold at most 145 MB, and with four sources 40 MB.
const FULL: usize = 16 * 1024 * 1024;

/// How the requests of probes and scrapes begin, and those for verdicts: of metrics each source has eight lines, of at most some 130 bytes
/// beside its word.
const SHORT: &[&[u8]] = &[b"GET /metrics", b"GET /health", b"GET /verdict-"];

/// How many bytes of a request are kept at most: a head of 16,384. No request has a body.
const MOST_OF_A_REQUEST: usize = 32_768;

/// Where the watch tells what it knows, and what it knows.
#[derive(Drop)]
pub(crate) struct Server {
    listener: TcpListener,
    keys: RandomState,
    /// When the watch began.
    pub started: u64,
    /// The name of the watch.
    pub name: String,
    // What the watch knew after its last round.
    seen: Mutex<Shared<Snapshot>>,
}

impl Server {
    /// Listens at an address of this machine.
    pub fn listen<T: Net<Listener = TcpListener, Stream = TcpStream> + RandomSource>(
        rt: &T,
        alloc: Global,
        address: &str,
        seen: Snapshot,
    ) -> io::Result<Server> {
        Ok(Server {
            listener: bind(rt, address)?,
            keys: RandomState::new(rt)?,
            started: seen.started,
            name: String::from_str(alloc, &seen.name)?,
            seen: Mutex::new(Shared::new(alloc, seen)?),
        })
    }

    /// From now on this is what the watch knows.
    pub fn publish<T: Wait>(&self, rt: &T, seen: Shared<Snapshot>) {
        *self.seen.lock(rt) = seen;
    }

    /// The line that says where: `listening ADDRESS`, with the address that it got.
    pub fn line(&self, alloc: Global) -> io::Result<Vec<u8>> {
        let got = self.listener.local_addr()?;
        let name = format!(in alloc; "{got}")?;
        let mut line = Vec::new(alloc);
        append(&mut line, b"listening ")?;
        append(&mut line, name.as_bytes())?;
        append(&mut line, b"\n")?;
        Ok(line)
    }

    /// Takes no more connections: each `accept` that waits ends.
    pub fn close(&self) {
        if let Ok(socket) = self.listener.try_clone() {
            // A thread that it does not wake looks by itself.
            let _ = TcpStream::from(OwnedFd::from(socket)).shutdown(Shutdown::Both);
        }
    }
}

// Answers requests by what the watch knows.
#[derive(Drop)]
struct Teller<'a, T: Wait + Clock> {
    alloc: Global,
    keys: RandomState,
    watcher: Watcher<'a, T>,
}

impl<T: Wait + Clock> Answerer for Teller<'_, T> {
    fn answer<R: Read, W: Write>(&mut self, reader: &mut R, writer: &mut W) -> io::Result<()> {
        let mut connection = Connection::new(self.alloc, self.keys, config());
        serve_watcher(&mut self.watcher, &mut connection, reader, writer)
    }
}

/// Answers many readers at once, until the watch ends.
pub(crate) fn answer_all<
    'x,
    T: Files<File = File> + Wait + Clock + Net<Listener = TcpListener, Stream = TcpStream>,
>(shop: &'x WatchShared<'_, '_, '_, T>, server: &'x Server) {
    let hosts: &[String] = &shop.words.hosts;
    let rules = Rules {
        bounds: BOUNDS,
        most: connections(shop),
        full: FULL,
    };
    let mut talk = ShortFirst {
        calls: CallTalk {
            alloc: shop.alloc,
            answerer: Teller {
                alloc: shop.alloc,
                keys: server.keys,
                watcher: Watcher::new(shop.rt, shop.alloc, hosts, &server.seen),
            },
            most: MOST_OF_A_REQUEST,
        },
        short: SHORT,
    };
    talk_to_all(
        shop.rt,
        shop.alloc,
        &server.listener,
        &rules,
        &shop.ending,
        &mut talk,
    );
}

// How many connections one thread keeps. Each source may have a stream and a file.
fn connections<T: Files<File = File>>(shop: &WatchShared<'_, '_, '_, T>) -> usize {
    let files = most_open_files(shop.rt, shop.alloc);
    let taken = u64::try_from(shop.targets.len()).unwrap_or(u64::MAX);
    let all = connections_at(files, taken.saturating_mul(2), 1);
    usize::try_from(all / 2).unwrap_or(0).max(1)
}

// What a connection is held to. No request has a body.
fn config() -> Config {
    Config {
        limits: Limits::default(),
        max_body_len: 0,
        max_pending: 65_536,
        read_size: 4_096,
    }
}
