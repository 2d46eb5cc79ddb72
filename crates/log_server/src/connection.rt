//! A connection that lasts only so long, while others arrive.

ghost use Rattle.std.specs.Prelude.{◌≡◌, ◌≤◌, length};
ghost use Rattle.std.specs.Io.{WritesAtMost};
ghost use Rattle.base_sockets.specs.Awaiting.{awaited};
ghost use Rattle.log_request.specs.Gathering.{request_len};

use base_sockets::{Came, FirstBytes, Lobby, LobbyRules};
use log_format::REQUEST_LEN;
use log_request::CHAIN_REQUEST_LEN;
use mio::net::TcpStream;
use std::io;
use std::io::{ErrorKind, Read, Write};
use std::net::Net;
use std::time::{Clock, Instant};

/// How many seconds a client has for its request, from the moment when it was accepted.
pub const REQUEST_SECONDS: u64 = 10;

/// How many seconds a connection waits for a client that takes nothing, over all writes together.
pub const WAIT_SECONDS: u64 = 30;

/// How many seconds one connection may last. It bounds a client that sends or takes a few bytes at a time; an auditor that
/// checks each frame before it takes the next needs minutes.
pub const CONNECTION_SECONDS: u64 = 3600;

// While others wait, a client has to take so many bytes in so many seconds.
const LEAST_TAKEN: u64 = 65_536;

const LEAST_SECONDS: u64 = 5;

/// What connections are held to until their requests are whole. 512 are kept: fewer than the files that a process may have open.
pub(crate) const RULES: LobbyRules = LobbyRules {
    first: FirstBytes {
        usual: REQUEST_LEN,
        magic: *b"HSL2",
        of_magic: CHAIN_REQUEST_LEN,
    },
    asking: 10_000,
    most: 512,
};

// What is awaited of a connection is its request.
fn a_request_is_awaited(come: &[u8])
    ensures { awaited RULES.first come.now ≡ request_len come.now }
{}

// As the request's seconds say.
const _: () = prove!(REQUEST_SECONDS == 10);

/// The bytes of a client, which have come. They end where the client ended, or in an error where no more came in time.
#[derive(Drop)]
pub(crate) struct ClientBytes {
    pub bytes: Vec<u8>,
    pub given: usize,
    pub came: Came,
}

impl Read for ClientBytes {
    fn read(&mut self, buffer: &mut [u8]) -> io::Result<usize> {
        let count = copy_from(&self.bytes, self.given, buffer);
        self.given = self.given.saturating_add(count);
        if count == 0 && self.came == Came::Failed {
            return Err(io::Error::from(ErrorKind::TimedOut));
        }
        Ok(count)
    }
}

// Copies the bytes from a place on, as many as there is room for. Answers how many.
fn copy_from(bytes: &[u8], from: usize, buffer: &mut [u8]) -> usize
    ensures { result ≤ length buffer.new }
{
    let Some(rest) = bytes.get(from..) else {
        return 0;
    };
    let count = rest.len().min(buffer.len());
    buffer[..count].copy_from_slice(&rest[..count]);
    count
}

/// The bytes to a client. A write fails where 30 seconds have passed since the system took a byte of this reply, in a connection that
/// is over an hour old, and where fewer than 65,536 bytes were taken in 5 seconds while others waited whose requests have come. What
/// becomes of what it writes is not told, since no contract speaks of a socket.
#[derive(Drop)]
pub(crate) struct Telling<'l, 'a, R> {
    pub clock: &'a R,
    pub lobby: &'l mut Lobby<'a, R>,
    pub stream: Option<TcpStream>,
    /// When it was accepted.
    pub made: Instant,
    /// When the last bytes were taken, or the first write began.
    pub taken: Option<Instant>,
    /// Since when it is counted how many are taken while others wait, and how many were.
    pub counted: Option<Instant>,
    pub count: u64,
}

impl<R: Clock + Net> Telling<'_, '_, R> {
    // An error where the connection is too old, or nothing was taken for too long, or too little.
    fn look(&mut self) -> io::Result<()> {
        let now = Instant::now(self.clock)?;
        let taken = self.taken.unwrap_or(now);
        self.taken = Some(taken);
        let is_old = now.saturating_duration_since(self.made).as_secs() >= CONNECTION_SECONDS;
        let is_stuck = now.saturating_duration_since(taken).as_secs() >= WAIT_SECONDS;
        if is_old || is_stuck || self.is_slow(now) {
            return Err(io::Error::from(ErrorKind::TimedOut));
        }
        Ok(())
    }

    // Whether others wait, and it took too little in the last seconds.
    fn is_slow(&mut self, now: Instant) -> bool {
        let since = self.counted.unwrap_or(now);
        if !self.lobby.has_arrived() {
            self.counted = Some(now);
            self.count = 0;
            return false;
        }
        self.counted = Some(since);
        if now.saturating_duration_since(since).as_secs() < LEAST_SECONDS {
            return false;
        }
        let is_slow = self.count < LEAST_TAKEN;
        self.counted = Some(now);
        self.count = 0;
        is_slow
    }

    // So many bytes were taken.
    fn took(&mut self, count: usize) -> io::Result<()> {
        self.taken = Some(Instant::now(self.clock)?);
        self.count = self.count.saturating_add(u64::try_from(count).unwrap_or(0));
        Ok(())
    }

    fn write_once(&mut self, bytes: &[u8]) -> io::Result<usize>
        ensures { WritesAtMost result bytes.now }
    {
        match &mut self.stream {
            Some(stream) => stream.write(bytes),
            None => Err(io::Error::from(ErrorKind::NotConnected)),
        }
    }
}

impl<R: Clock + Net> Write for Telling<'_, '_, R> {
    fn write(&mut self, bytes: &[u8]) -> io::Result<usize> {
        for _ in 0..u64::MAX {
            self.look()?;
            match self.write_once(bytes) {
                Ok(count) => {
                    self.took(count)?;
                    return Ok(count);
                }
                Err(error) if may_go_on(error.kind()) => self.lobby.wait()?,
                Err(error) => return Err(error),
            }
        }
        Err(io::Error::from(ErrorKind::TimedOut))
    }

    fn flush(&mut self) -> io::Result<()> {
        Ok(())
    }
}

// Whether a write that ended so is tried again: a signal came between, or nothing was taken.
fn may_go_on(kind: ErrorKind) -> bool {
    matches!(kind, ErrorKind::Interrupted | ErrorKind::WouldBlock)
}
