//! A caller's stream, which is given up where the caller takes too long or the signer ends.

use crate::pace::Pace;
use base_sockets::{CallsRead, Hold, read_held, write_held};
use std::cell::Cell;
use std::io;
use std::io::{ErrorKind, Read, Write};
use std::net::TcpStream;
use std::sync::atomic::{AtomicBool, Ordering};
use std::time::Clock;

/// How many ticks one call of a link waits at most, so that a clock that stands still does not keep it for ever.
const MOST_TICKS: u32 = 400;

/// How an answer begins that refuses a host or an origin, in each version of HTTP.
const FORBIDDEN: [&[u8]; 2] = [b"HTTP/1.1 403 ", b"HTTP/1.0 403 "];

/// A caller's stream and what it is held to. Both of its sides share it.
#[derive(Drop)]
pub(crate) struct Link<'a, C: Clock> {
    pub stream: &'a TcpStream,
    pub clock: &'a C,
    pub pace: Cell<Pace>,
    /// Whether a call was refused for its host or origin: nothing more is read then. A page in a browser could else hold connections
    /// with one such call a minute.
    pub is_refused: Cell<bool>,
    pub ending: &'a AtomicBool,
}

impl<C: Clock> Link<'_, C> {
    // Fails where the caller has taken too long.
    fn see_pace(&self) -> io::Result<()> {
        if self.pace.get().is_over(self.clock)? {
            return Err(io::Error::from(ErrorKind::TimedOut));
        }
        Ok(())
    }
}

// While a call is awaited: until the caller has taken too long, or the signer ends.
#[derive(Drop)]
struct UntilCalled<'a, 'b, C: Clock>(&'a Link<'b, C>);

impl<C: Clock> Hold for UntilCalled<'_, '_, C> {
    fn look(&self) -> io::Result<()> {
        if self.0.ending.load(Ordering::SeqCst) {
            return Err(io::Error::from(ErrorKind::TimedOut));
        }
        self.0.see_pace()
    }
}

// While an answer is taken: a signer that ends still tells what it did.
#[derive(Drop)]
struct UntilTaken<'a, 'b, C: Clock>(&'a Link<'b, C>);

impl<C: Clock> Hold for UntilTaken<'_, '_, C> {
    fn look(&self) -> io::Result<()> {
        self.0.see_pace()
    }
}

/// What a caller sends.
#[derive(Drop)]
pub(crate) struct CallerBytes<'a, C: Clock> {
    pub link: &'a Link<'a, C>,
    pub calls: CallsRead,
}

impl<C: Clock> CallerBytes<'_, C> {
    // Notes what came.
    fn follow(&mut self, bytes: &[u8]) -> io::Result<()> {
        let has_ended = self.calls.follow(bytes)?;
        let mut pace = self.link.pace.get();
        pace.took(has_ended, self.calls.is_amid(), self.link.clock)?;
        self.link.pace.set(pace);
        Ok(())
    }
}

impl<C: Clock> Read for CallerBytes<'_, C> {
    fn read(&mut self, buffer: &mut [u8]) -> io::Result<usize> {
        if self.link.is_refused.get() {
            return Ok(0);
        }
        let mut pace = self.link.pace.get();
        pace.begin_to_read(self.link.clock)?;
        self.link.pace.set(pace);
        let count = read_held(
            self.link.stream,
            &UntilCalled(self.link),
            MOST_TICKS,
            buffer,
        )?;
        self.follow(buffer.get(..count).unwrap_or(&[]))?;
        Ok(count)
    }
}

/// What a caller is sent.
#[derive(Drop)]
pub(crate) struct Answering<'a, C: Clock> {
    pub link: &'a Link<'a, C>,
}

impl<C: Clock> Write for Answering<'_, C> {
    fn write(&mut self, bytes: &[u8]) -> io::Result<usize> {
        let mut pace = self.link.pace.get();
        pace.begin_to_write(self.link.clock)?;
        self.link.pace.set(pace);
        if FORBIDDEN.iter().any(|front| bytes.starts_with(*front)) {
            self.link.is_refused.set(true);
        }
        write_held(self.link.stream, &UntilTaken(self.link), MOST_TICKS, bytes)
    }

    fn flush(&mut self) -> io::Result<()> {
        Ok(())
    }
}
