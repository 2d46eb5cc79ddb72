//! Connections whose first bytes are awaited all at once, in one thread, and which are then taken one after the other.

ghost use Rattle.std.specs.Prelude.{◌≡◌, ◌≤◌, ◌↔◌, ◌-◌, ◌^◌, IsTrue, min, true, vec_len};
ghost use Rattle.base_sockets.specs.Awaiting.{awaited};
ghost use Rattle.base_sockets.specs.Standings.{milliseconds_between};

use crate::first_bytes::FirstBytes;
use crate::giving_way::gives_way;
use crate::line::{milliseconds, side_of};
use crate::standing::Standing;
use crate::waiting::{may_go_on, tick};
use mio::net::{TcpListener, TcpStream};
use mio::{Events, Interest, Poll, Token};
use std::alloc::{AllocError, Global};
use std::collections::VecDeque;
use std::io::{ErrorKind, Read};
use std::net::Net;
use std::time::{Clock, Duration, Instant};
use std::{io, net};

/// How a connection arrived.
#[derive(Clone, Copy, Debug, PartialEq, Eq)]
pub enum Came {
    /// Its first bytes have come, all that were awaited.
    Whole,
    /// The peer ended before.
    Closed,
    /// They did not come in time, or a read failed, or it gave way to another.
    Failed,
}

/// A connection whose first bytes are not awaited any more.
#[derive(Drop)]
pub struct Arrival {
    /// None where it failed: it is closed.
    pub stream: Option<TcpStream>,
    /// When it was accepted.
    pub made: Instant,
    /// What came of its first bytes.
    pub bytes: Vec<u8>,
    pub came: Came,
}

/// What connections are held to until they have arrived.
#[derive(Clone, Copy, Debug, PartialEq, Eq)]
pub struct LobbyRules {
    /// Which first bytes are awaited of each.
    pub first: FirstBytes,
    /// How long they may take, in milliseconds.
    pub asking: u32,
    /// How many connections are kept, those that have arrived among them.
    pub most: usize,
}

/// The token of the socket itself; connections have their places.
const LISTENER: Token = Token(usize::MAX);

/// How many events one wait gives, and how many connections are taken in a turn.
const EVENTS: usize = 256;

const MOST_TAKEN: u32 = 64;

// A connection whose first bytes are awaited.
#[derive(Drop)]
struct Guest {
    stream: TcpStream,
    side: u64,
    nth: u32,
    made: Instant,
    bytes: Vec<u8>,
    is_readable: bool,
}

/// The connections of a socket that are awaited, or have arrived and were not taken.
#[derive(Drop)]
pub struct Lobby<'a, R> {
    rt: &'a R,
    alloc: Global,
    rules: LobbyRules,
    listener: TcpListener,
    poll: Poll,
    events: Events,
    guests: Vec<Option<Guest>>,
    standings: Vec<Standing>,
    arrived: VecDeque<Arrival>,
    // How many of them are open.
    open: usize,
    is_accepting: bool,
    has_failed: bool,
    now: Instant,
    swept: Instant,
}

impl<'a, R: Net + Clock> Lobby<'a, R> {
    /// Over a socket whose `accept` does not wait.
    pub fn new(
        rt: &'a R,
        alloc: Global,
        listener: net::TcpListener,
        rules: LobbyRules,
    ) -> io::Result<Lobby<'a, R>> {
        listener.set_nonblocking(true)?;
        let mut listener = TcpListener::from_std(listener);
        let poll = Poll::new(rt)?;
        poll.registry()
            .register(&mut listener, LISTENER, Interest::READABLE)?;
        let now = Instant::now(rt)?;
        Ok(Lobby {
            rt,
            alloc,
            rules,
            listener,
            poll,
            events: Events::with_capacity(alloc, EVENTS)?,
            guests: Vec::new(alloc),
            standings: Vec::new(alloc),
            arrived: VecDeque::new(alloc),
            open: 0,
            is_accepting: true,
            has_failed: false,
            now,
            swept: now,
        })
    }

    /// The next connection, in the order in which their first bytes were whole or failed, however long it takes. An error where a
    /// connection can't be had.
    pub fn next(&mut self) -> io::Result<Arrival> {
        for _ in 0..u64::MAX {
            if let Some(arrival) = self.arrived.pop_front() {
                if arrival.stream.is_some() {
                    self.open = self.open.saturating_sub(1);
                }
                return Ok(arrival);
            }
            self.wait()?;
            if self.has_failed {
                self.has_failed = false;
                return Err(io::Error::from(ErrorKind::Other));
            }
        }
        Err(io::Error::from(ErrorKind::TimedOut))
    }

    /// Whether others have arrived that were not taken.
    pub fn has_arrived(&self) -> bool {
        !self.arrived.is_empty()
    }

    /// Waits until something comes to some connection or may be written, for a quarter of a second at most, and takes what came.
    pub fn wait(&mut self) -> io::Result<()> {
        let wait = if self.is_accepting {
            Duration::ZERO
        } else {
            tick()
        };
        self.poll.poll(&mut self.events, Some(wait))?;
        self.now = Instant::now(self.rt)?;
        self.note_events();
        self.accept_some();
        self.read_all()?;
        if self.now.saturating_duration_since(self.swept) >= tick() {
            self.sweep()?;
        }
        Ok(())
    }

    fn note_events(&mut self) {
        let Lobby {
            events,
            guests,
            is_accepting,
            ..
        } = self;
        for event in events.iter() {
            let Token(place) = event.token();
            if let Some(Some(guest)) = guests.get_mut(place) {
                guest.is_readable = true;
            } else if place == usize::MAX {
                *is_accepting = true;
            }
        }
    }

    // Takes connections that wait, some at a time.
    fn accept_some(&mut self) {
        for _ in 0..MOST_TAKEN {
            if !self.is_accepting {
                return;
            }
            match self.listener.accept() {
                Ok((stream, address)) => {
                    self.has_failed |= self.take(stream, side_of(&address)).is_err();
                }
                Err(error) if error.kind() == ErrorKind::WouldBlock => self.is_accepting = false,
                Err(error) if may_go_on(error.kind()) => {}
                Err(_) => {
                    self.is_accepting = false;
                    self.has_failed = true;
                }
            }
        }
    }

    // Keeps a new connection. Where no more are kept it fails, or the one does that gives way to it.
    fn take(&mut self, stream: TcpStream, side: u64) -> io::Result<()> {
        let nth = self.count_of(side).saturating_add(1);
        let mut guest = Guest {
            stream,
            side,
            nth,
            made: self.now,
            bytes: Vec::new(self.alloc),
            is_readable: true,
        };
        let Some(place) = self.place_for(nth)? else {
            return self.arrive(guest, Came::Failed);
        };
        if let Some(old) = self.take_out(place) {
            self.arrive(old, Came::Failed)?;
        }
        self.poll.registry().register(
            &mut guest.stream,
            Token(place),
            Interest::READABLE | Interest::WRITABLE,
        )?;
        if let Some(at) = self.guests.get_mut(place) {
            *at = Some(guest);
        }
        Ok(())
    }

    // How many connections are awaited of this side.
    fn count_of(&self, side: u64) -> u32 {
        let mut count: u32 = 0;
        for guest in &self.guests {
            if let Some(guest) = guest
                && guest.side == side
            {
                count = count.saturating_add(1);
            }
        }
        count
    }

    // A place that is free, or that of the connection that gives way to the nth one of its side.
    fn place_for(&mut self, nth: u32) -> Result<Option<usize>, AllocError> {
        let count = self.guests.len();
        let kept = count.saturating_add(self.open);
        for (place, guest) in self.guests.iter().enumerate() {
            if guest.is_none() {
                return Ok(Some(place));
            }
        }
        if kept < self.rules.most {
            self.guests.push(None)?;
            return Ok(Some(count));
        }
        self.standings.clear();
        for guest in &self.guests {
            if let Some(guest) = guest {
                self.standings.push(guest.standing(self.now))?;
            }
        }
        Ok(gives_way(&self.standings, nth))
    }

    fn take_out(&mut self, place: usize) -> Option<Guest> {
        match self.guests.get_mut(place) {
            Some(guest) => guest.take(),
            None => None,
        }
    }

    // A connection is not awaited any more. One that failed is closed.
    fn arrive(&mut self, guest: Guest, came: Came) -> io::Result<()> {
        let Guest {
            stream,
            made,
            bytes,
            ..
        } = guest;
        let stream = if came == Came::Failed {
            None
        } else {
            self.open = self.open.saturating_add(1);
            Some(stream)
        };
        self.arrived.push_back(Arrival {
            stream,
            made,
            bytes,
            came,
        })?;
        Ok(())
    }

    // Reads from all that are ready.
    fn read_all(&mut self) -> io::Result<()> {
        let first = self.rules.first;
        for place in 0..self.guests.len() {
            let came = match self.guests.get_mut(place) {
                Some(Some(guest)) => guest.read(&first),
                _ => None,
            };
            if let Some(came) = came
                && let Some(guest) = self.take_out(place)
            {
                self.arrive(guest, came)?;
            }
        }
        Ok(())
    }

    // Fails those whose first bytes have not come in time.
    fn sweep(&mut self) -> io::Result<()> {
        self.swept = self.now;
        self.is_accepting = true;
        for place in 0..self.guests.len() {
            let is_late = match self.guests.get(place) {
                Some(Some(guest)) => guest.standing(self.now).age > self.rules.asking,
                _ => false,
            };
            if is_late && let Some(guest) = self.take_out(place) {
                self.arrive(guest, Came::Failed)?;
            }
        }
        Ok(())
    }
}

impl Guest {
    fn standing(&self, now: Instant) -> Standing
        ensures { result ≡ record {
          age = milliseconds_between self.now.made now;
          idle = milliseconds_between self.now.made now;
          is_asking = true;
          bytes = min (vec_len self.now.bytes) (2 ^ 32 - 1);
          nth = self.now.nth;
        } }
    {
        let age = milliseconds(now.saturating_duration_since(self.made));
        Standing {
            age,
            idle: age,
            is_asking: true,
            bytes: u32::try_from(self.bytes.len()).unwrap_or(u32::MAX),
            nth: self.nth,
        }
    }

    // Reads what there is of the first bytes, and nothing behind them. Answers what came of them, once it is known.
    fn read(&mut self, first: &FirstBytes) -> Option<Came> {
        if !self.is_readable {
            return None;
        }
        for _ in 0..first.usual.max(first.of_magic) {
            if self.has(first) {
                break;
            }
            let mut byte = [0];
            match self.stream.read(&mut byte) {
                Ok(0) => return Some(Came::Closed),
                Ok(_) => {
                    if self.bytes.extend_from_slice(&byte).is_err() {
                        return Some(Came::Failed);
                    }
                }
                Err(error) if error.kind() == ErrorKind::Interrupted => return None,
                Err(error) if may_go_on(error.kind()) => {
                    self.is_readable = false;
                    return None;
                }
                Err(_) => return Some(Came::Failed),
            }
        }
        if self.has(first) {
            return Some(Came::Whole);
        }
        None
    }

    // Whether all first bytes have come.
    fn has(&self, first: &FirstBytes) -> bool
        ensures { IsTrue result ↔ awaited first.now self.now.bytes.items ≤ vec_len self.now.bytes }
    {
        self.bytes.len() >= first.awaited(&self.bytes)
    }
}
