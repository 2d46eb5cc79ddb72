//! Many connections of one socket, in one thread that waits for all of them at once.

use crate::bounds::{Bounds, is_over};
use crate::giving_way::gives_way;
use crate::line::{Line, side_of};
use crate::standing::Standing;
use crate::waiting::tick;
use mio::net::{TcpListener, TcpStream};
use mio::{Events, Interest, Poll, Token};
use std::alloc::{AllocError, Global};
use std::io::ErrorKind;
use std::net::Net;
use std::sync::Wait;
use std::sync::atomic::{AtomicBool, Ordering};
use std::time::{Clock, Duration, Instant};
use std::{io, net, thread};

/// What comes next over a connection.
#[derive(Drop)]
pub enum Next {
    /// These bytes, of which there is at least one.
    Piece(Vec<u8>),
    /// Nothing, before more was read.
    Asks,
    /// Nothing, before what is held for all connections has become less.
    Later,
    /// Nothing any more: it is closed.
    End,
}

/// What is said over the connections of a socket.
pub trait Talk {
    /// What was said over one connection so far.
    type Line: Drop;

    /// A connection was made.
    fn begin(&mut self) -> io::Result<Self::Line>;

    /// Bytes came, or none: the end of what the peer sends. An error closes the connection.
    fn hear(&mut self, line: &mut Self::Line, bytes: &[u8]) -> io::Result<()>;

    /// What comes next, once all before was taken. `is_full`: so much is held for all connections that little, or nothing, is to be
    /// made now. An error closes the connection.
    fn next(&mut self, line: &mut Self::Line, is_full: bool) -> io::Result<Next>;
}

/// What the connections of a socket are held to.
#[derive(Clone, Copy, Debug, PartialEq, Eq)]
pub struct Rules {
    pub bounds: Bounds,
    /// How many connections are kept.
    pub most: usize,
    /// From how many bytes on, made and not taken over all connections, little or nothing more is made.
    pub full: usize,
}

/// The token of the socket itself; connections have their places.
const LISTENER: Token = Token(usize::MAX);

/// How many events one wait gives, how many connections are taken in a turn, and how many bytes one read takes.
const EVENTS: usize = 256;

const MOST_TAKEN: u32 = 64;

const READ_SIZE: usize = 65_536;

// The connections of a socket.
#[derive(Drop)]
struct Crowd<'a, L: Drop> {
    alloc: Global,
    rules: &'a Rules,
    listener: TcpListener,
    poll: Poll,
    events: Events,
    lines: Vec<Option<Line<L>>>,
    standings: Vec<Standing>,
    buffer: Vec<u8>,
    // How many bytes are held for what goes out.
    held: usize,
    // Whether connections may wait to be taken.
    is_accepting: bool,
    now: Instant,
    swept: Instant,
}

/// Talks over the connections of a socket until `ending` is set. The listener's `accept` does not wait; several threads may have
/// one each on the same socket. No read and no write waits: it waits for all at once, for a quarter of a second at most.
///
/// Where `rules.most` connections are there, one of them gives way to a new one, or the new one is closed: see `gives_way`. One that
/// has taken too long is closed: see `is_over`. Where the system gives no more descriptors, or memory is refused, it goes on with
/// the connections that there are.
pub fn talk_to_all<R: Net + Wait + Clock, T: Talk>(
    rt: &R,
    alloc: Global,
    listener: &net::TcpListener,
    rules: &Rules,
    ending: &AtomicBool,
    talk: &mut T,
) {
    for _ in rt.forever() {
        if ending.load(Ordering::SeqCst) {
            return;
        }
        if let Ok(mut crowd) = Crowd::<T::Line>::new(rt, alloc, listener, rules) {
            crowd.talk(rt, ending, talk);
        }
        // Where it broke off, the cause may last.
        thread::sleep(rt, tick());
    }
}

impl<'a, L: Drop> Crowd<'a, L> {
    fn new<R: Net + Clock>(
        rt: &R,
        alloc: Global,
        listener: &net::TcpListener,
        rules: &'a Rules,
    ) -> io::Result<Crowd<'a, L>> {
        let own = listener.try_clone()?;
        own.set_nonblocking(true)?;
        let mut listener = TcpListener::from_std(own);
        let poll = Poll::new(rt)?;
        poll.registry()
            .register(&mut listener, LISTENER, Interest::READABLE)?;
        let mut buffer = Vec::new(alloc);
        buffer.resize(READ_SIZE, 0)?;
        let now = Instant::now(rt)?;
        Ok(Crowd {
            alloc,
            rules,
            listener,
            poll,
            events: Events::with_capacity(alloc, EVENTS)?,
            lines: Vec::new(alloc),
            standings: Vec::new(alloc),
            buffer,
            held: 0,
            is_accepting: true,
            now,
            swept: now,
        })
    }

    // Until the end is called, or the clock or the wait fails.
    fn talk<R: Wait + Clock, T: Talk<Line = L>>(
        &mut self,
        rt: &R,
        ending: &AtomicBool,
        talk: &mut T,
    ) {
        for _ in rt.forever() {
            if ending.load(Ordering::SeqCst) || self.turn(rt, talk).is_err() {
                return;
            }
        }
    }

    fn turn<R: Clock, T: Talk<Line = L>>(&mut self, rt: &R, talk: &mut T) -> io::Result<()> {
        let wait = if self.has_work() {
            Duration::ZERO
        } else {
            tick()
        };
        self.poll.poll(&mut self.events, Some(wait))?;
        self.now = Instant::now(rt)?;
        self.note_events();
        self.accept_some(talk);
        self.work(talk);
        if self.now.saturating_duration_since(self.swept) >= tick() {
            self.sweep();
        }
        Ok(())
    }

    fn is_full(&self) -> bool {
        self.held >= self.rules.full
    }

    fn has_work(&self) -> bool {
        let is_full = self.is_full();
        self.is_accepting
            || self.lines.iter().any(|line| match line {
                Some(line) => line.has_work(is_full),
                None => false,
            })
    }

    fn note_events(&mut self) {
        let Crowd {
            events,
            lines,
            is_accepting,
            ..
        } = self;
        for event in events.iter() {
            let Token(place) = event.token();
            if let Some(Some(line)) = lines.get_mut(place) {
                line.note(event);
            } else if place == usize::MAX {
                *is_accepting = true;
            }
        }
    }

    // Takes connections that wait, some at a time. Where none does, or none can be taken, it is looked again at the next sweep.
    fn accept_some<T: Talk<Line = L>>(&mut self, talk: &mut T) {
        for _ in 0..MOST_TAKEN {
            if !self.is_accepting {
                return;
            }
            match self.listener.accept() {
                Ok((stream, address)) => {
                    // One that can't be kept is closed.
                    let _ = self.take(talk, stream, side_of(&address));
                }
                Err(error) => {
                    self.is_accepting = matches!(
                        error.kind(),
                        ErrorKind::Interrupted | ErrorKind::ConnectionAborted
                    );
                }
            }
        }
    }

    // Keeps a new connection, in a place that is free or in that of the one that gives way.
    fn take<T: Talk<Line = L>>(
        &mut self,
        talk: &mut T,
        stream: TcpStream,
        side: u64,
    ) -> io::Result<()> {
        let nth = self.count_of(side).saturating_add(1);
        let Some(place) = self.place_for(nth)? else {
            return Ok(());
        };
        self.put(place, None);
        let so_far = talk.begin()?;
        stream.set_nodelay(true)?;
        let mut line = Line::new(self.alloc, stream, so_far, side, nth, self.now);
        self.poll.registry().register(
            &mut line.stream,
            Token(place),
            Interest::READABLE | Interest::WRITABLE,
        )?;
        self.put(place, Some(line));
        Ok(())
    }

    // How many connections there are of this side.
    fn count_of(&self, side: u64) -> u32 {
        let mut count: u32 = 0;
        for line in &self.lines {
            if let Some(line) = line
                && line.side == side
            {
                count = count.saturating_add(1);
            }
        }
        count
    }

    // A place that is free, or that of the connection that gives way to the nth one of its side.
    fn place_for(&mut self, nth: u32) -> Result<Option<usize>, AllocError> {
        for (place, line) in self.lines.iter().enumerate() {
            if line.is_none() {
                return Ok(Some(place));
            }
        }
        let count = self.lines.len();
        if count < self.rules.most {
            self.lines.push(None)?;
            return Ok(Some(count));
        }
        self.standings.clear();
        for line in &self.lines {
            if let Some(line) = line {
                self.standings.push(line.standing(self.now))?;
            }
        }
        Ok(gives_way(&self.standings, nth))
    }

    // Puts a connection at a place, or nothing, and lets go what was there.
    fn put(&mut self, place: usize, line: Option<Line<L>>) {
        if let Some(at) = self.lines.get_mut(place) {
            if let Some(old) = at {
                self.held = self.held.saturating_sub(old.held());
            }
            *at = line;
        }
    }

    // A step of each connection that may get on.
    fn work<T: Talk<Line = L>>(&mut self, talk: &mut T) {
        for place in 0..self.lines.len() {
            if !self.go_on(talk, place) {
                self.put(place, None);
            }
        }
    }

    // A step of the connection at a place, if it may get on. Answers whether it goes on.
    fn go_on<T: Talk<Line = L>>(&mut self, talk: &mut T, place: usize) -> bool {
        let is_full = self.is_full();
        let now = self.now;
        let Crowd {
            lines,
            buffer,
            held,
            ..
        } = self;
        let Some(Some(line)) = lines.get_mut(place) else {
            return true;
        };
        if !line.has_work(is_full) {
            return true;
        }
        let before = line.held();
        let goes_on = line.go_on(talk, buffer, now, is_full).unwrap_or(false);
        *held = held.saturating_sub(before).saturating_add(line.held());
        goes_on
    }

    // Closes the connections that have taken too long.
    fn sweep(&mut self) {
        self.swept = self.now;
        self.is_accepting = true;
        for place in 0..self.lines.len() {
            if self.is_over(place) {
                self.put(place, None);
            }
        }
    }

    fn is_over(&self, place: usize) -> bool {
        match self.lines.get(place) {
            Some(Some(line)) => is_over(&self.rules.bounds, &line.standing(self.now)),
            _ => false,
        }
    }
}
