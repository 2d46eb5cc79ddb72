//! One connection of a crowd.

ghost use Rattle.std.specs.Prelude.{◌≡◌, ◌⊎◌, ◌↔◌, IsTrue, false, true, vec_len};
ghost use Rattle.std.specs.Duration.{as_nanos};
ghost use Rattle.base_sockets.specs.Standings.{milliseconds, milliseconds_between};

use crate::Standing;
use crate::crowd::{Next, Talk};
use crate::waiting::may_go_on;
use mio::event::Event;
use mio::net::TcpStream;
use std::alloc::Global;
use std::io;
use std::io::{ErrorKind, Read, Write};
use std::net::{IpAddr, SocketAddr};
use std::time::{Duration, Instant};

/// What of an address counts connections: an IPv4 address, or the first half of an IPv6 address, which one host has whole.
pub(crate) fn side_of(address: &SocketAddr) -> u64 {
    match address.ip().to_canonical() {
        IpAddr::V4(ip) => u64::from(ip.to_bits()),
        IpAddr::V6(ip) => {
            let [a, b, c, d, e, f, g, h, ..] = ip.octets();
            u64::from_be_bytes([a, b, c, d, e, f, g, h])
        }
    }
}

/// A connection, what was said over it so far, and how it gets on.
#[derive(Drop)]
pub(crate) struct Line<L> {
    pub stream: TcpStream,
    pub side: u64,
    pub nth: u32,
    alloc: Global,
    so_far: L,
    made: Instant,
    moved: Instant,
    is_asking: bool,
    bytes: u32,
    // What goes out, and how much of it was taken.
    piece: Vec<u8>,
    taken: usize,
    // What the socket is known to be ready for, and whether its peer has ended.
    is_readable: bool,
    is_writable: bool,
    has_ended: bool,
    // Whether it may get on without the socket, and whether it waits for memory to be free.
    has_work: bool,
    waits_for_room: bool,
}

impl<L> Line<L> {
    /// A connection that was just made. It may have sent something by now.
    pub fn new(
        alloc: Global,
        stream: TcpStream,
        so_far: L,
        side: u64,
        nth: u32,
        now: Instant,
    ) -> Line<L> {
        Line {
            stream,
            side,
            nth,
            alloc,
            so_far,
            made: now,
            moved: now,
            is_asking: true,
            bytes: 0,
            piece: Vec::new(alloc),
            taken: 0,
            is_readable: true,
            is_writable: true,
            has_ended: false,
            has_work: true,
            waits_for_room: false,
        }
    }

    /// How it stands.
    pub fn standing(&self, now: Instant) -> Standing
        ensures { result ≡ record {
          age = milliseconds_between self.now.made now;
          idle = milliseconds_between self.now.moved now;
          is_asking = self.now.is_asking;
          bytes = self.now.bytes;
          nth = self.now.nth;
        } }
    {
        Standing {
            age: milliseconds(now.saturating_duration_since(self.made)),
            idle: milliseconds(now.saturating_duration_since(self.moved)),
            is_asking: self.is_asking,
            bytes: self.bytes,
            nth: self.nth,
        }
    }

    /// How many bytes of memory it holds for what goes out.
    pub fn held(&self) -> usize
        ensures { result ≡ vec_len self.now.piece }
    {
        self.piece.len()
    }

    /// Whether it may get on now.
    pub fn has_work(&self, is_full: bool) -> bool
        ensures { IsTrue result ↔ ((self.now.has_work ≡ true)
            ⊎ ((self.now.waits_for_room ≡ true) × (is_full ≡ false))) }
    {
        self.has_work || (self.waits_for_room && !is_full)
    }

    /// The socket is ready for something.
    pub fn note(&mut self, event: &Event) {
        self.is_readable |= event.is_readable() || event.is_read_closed() || event.is_error();
        self.is_writable |= event.is_writable() || event.is_write_closed() || event.is_error();
        self.has_work = true;
    }

    /// One step: a write, a read, or what comes next. Whether it goes on; an error ends it.
    pub fn go_on<T: Talk<Line = L>>(
        &mut self,
        talk: &mut T,
        buffer: &mut [u8],
        now: Instant,
        is_full: bool,
    ) -> io::Result<bool> {
        if self.taken < self.piece.len() {
            self.send(now)?;
            return Ok(true);
        }
        self.waits_for_room = false;
        match talk.next(&mut self.so_far, is_full)? {
            Next::Piece(piece) => {
                self.begin(piece, now);
                Ok(true)
            }
            Next::Asks => self.listen(talk, buffer, now),
            Next::Later => {
                self.waits_for_room = true;
                self.has_work = false;
                Ok(true)
            }
            Next::End => Ok(false),
        }
    }

    // What goes out now.
    fn begin(&mut self, piece: Vec<u8>, now: Instant) {
        self.piece = piece;
        self.taken = 0;
        self.has_work = true;
        if self.is_asking {
            self.is_asking = false;
            self.moved = now;
        }
    }

    // Writes once. What was taken whole is let go.
    fn send(&mut self, now: Instant) -> io::Result<()> {
        if !self.is_writable {
            self.has_work = false;
            return Ok(());
        }
        match write_from(&mut self.stream, &self.piece, self.taken) {
            Ok(0) => return Err(io::Error::from(ErrorKind::WriteZero)),
            Ok(count) => {
                self.taken = self.taken.saturating_add(count);
                self.count(count, now);
                if self.taken >= self.piece.len() {
                    self.piece = Vec::new(self.alloc);
                    self.taken = 0;
                }
            }
            Err(error) if error.kind() == ErrorKind::Interrupted => {}
            Err(error) if may_go_on(error.kind()) => self.is_writable = false,
            Err(error) => return Err(error),
        }
        Ok(())
    }

    // Reads once. Behind the peer's end it is over where nothing comes next.
    fn listen<T: Talk<Line = L>>(
        &mut self,
        talk: &mut T,
        buffer: &mut [u8],
        now: Instant,
    ) -> io::Result<bool> {
        self.is_asking = true;
        if self.has_ended {
            return Ok(false);
        }
        if !self.is_readable {
            self.has_work = false;
            return Ok(true);
        }
        match self.stream.read(buffer) {
            Ok(0) => {
                self.has_ended = true;
                talk.hear(&mut self.so_far, &[])?;
            }
            Ok(count) => {
                self.count(count, now);
                talk.hear(&mut self.so_far, buffer.get(..count).unwrap_or(&[]))?;
            }
            Err(error) if error.kind() == ErrorKind::Interrupted => {}
            Err(error) if may_go_on(error.kind()) => self.is_readable = false,
            Err(error) => return Err(error),
        }
        Ok(true)
    }

    // So many bytes were sent or taken.
    fn count(&mut self, count: usize, now: Instant) {
        self.bytes = self
            .bytes
            .saturating_add(u32::try_from(count).unwrap_or(u32::MAX));
        self.moved = now;
        self.has_work = true;
    }
}

// Writes once what stands from a place on.
fn write_from(stream: &mut TcpStream, bytes: &[u8], from: usize) -> io::Result<usize> {
    match bytes.get(from..) {
        Some(rest) => stream.write(rest),
        None => Ok(0),
    }
}

/// So long in whole milliseconds, at most so many as the type counts.
pub(crate) fn milliseconds(time: Duration) -> u32
    ensures { result ≡ milliseconds (as_nanos time) }
{
    u32::try_from(time.as_millis()).unwrap_or(u32::MAX)
}
