//! A server as a source.

ghost use Rattle.std.specs.Prelude.{◌≡◌, ◌≤◌, ℕ, IfOk, IsTrue, Some, length, refl, ⊤};
ghost use native.Mathlib.Nat.{le_refl};
ghost use Rattle.std.specs.Io.KnownBytes.{Appends};
ghost use Rattle.log_format.specs.Requests.{request_text};
ghost use Rattle.log_transfer.specs.Connections.{CountsBytes, ended, sent_of, taken_of};
ghost use Rattle.log_transfer.specs.declared.reader_state.TheConstants.{MOST_TRIES};

use crate::budget::Budget;
use crate::connector::Connector;
use crate::dial::Dial;
use crate::failure::Failure;
use crate::reader_state::MOST_TRIES;
use crate::tcp_connector::{CONNECT_SECONDS, WAIT_SECONDS};
use crate::tries::{counted, no_connection};
use base_streams::Fault;
use log_format::FrameRequest;
use std::io::{ErrorKind, Read, Write};
use std::time::{Clock, Duration, Instant};
use std::{io, thread};

/// How many seconds all reads of one connection may wait together. It bounds a server that sends a few bytes at a time;
/// what the reader does between its reads does not count.
pub const CONNECTION_SECONDS: u64 = 600;

// A connection, how long its reads have waited, and what it may still be read for.
#[derive(Drop)]
struct Open<S> {
    stream: S,
    waited: Duration,
    budget: Budget,
}

/// A server that answers the request for a part of a log by its export, over streams that a dialer opens. Each connection
/// sends one request of 12 bytes and reads what comes. Of what a server gives nothing is told; what it was sent is told
/// where the dialer's streams tell it.
///
/// A read in a connection whose reads have waited over 10 minutes is a fault, and so is one past the most bytes that a
/// connection is read for, `MOST_OF_A_STREAM`. `Pull` and `fetch` end a stream before it gets there.
#[derive(Drop)]
pub struct ServerConnector<'a, R, D: Dial> {
    clock: &'a R,
    dialer: D,
    open: Option<Open<D::Stream>>,
    failures: u64,
    // Of the last call.
    failure: Option<Failure>,
    // In seconds: how long it waits before the second connection, and three times as long before the third.
    pause: u64,
    connects: u8,
}

// Why a call failed, if it did. A connection is given up after so many seconds.
fn failure_of<T>(outcome: &io::Result<T>, whole: u64) -> Option<Failure> {
    match outcome {
        Ok(_) => None,
        Err(error) => Some(Failure::of_server(error, WAIT_SECONDS, whole)),
    }
}

impl<S: Read + Write + Drop> Open<S> {
    // Sends the request over a new stream.
    fn ask(stream: S, request: FrameRequest) -> io::Result<Open<S>>
        ensures fresh { IfOk result (λ o. o.budget ≡ 0) }
        ensures sent { IfOk result (λ o.
            Appends (S.contents stream) (S.contents o.stream) (request_text request)) }
    {
        let mut stream = stream;
        stream.write_all(&request.to_bytes())?;
        Ok(Open {
            stream,
            waited: Duration::from_secs(0),
            budget: Budget::new(),
        })
    }

    // Reads, unless its reads have waited too long or its budget is spent.
    fn read<R: Clock>(&mut self, clock: &R, buffer: &mut [u8]) -> io::Result<usize>
        ensures within { IfOk result (λ n. n ≤ length buffer.new) }
        ensures bytes { CountsBytes self.old.budget self.new.budget result }
    {
        if self.waited.as_secs() >= CONNECTION_SECONDS {
            return Err(io::Error::from(ErrorKind::TimedOut));
        }
        let since = Instant::now(clock)?;
        let n = self.budget.read(&mut self.stream, buffer)?;
        // What came is given, also where the clock fails behind it: then the next read is a fault.
        let waited = since
            .elapsed(clock)
            .unwrap_or(Duration::from_secs(CONNECTION_SECONDS));
        self.waited = self.waited.saturating_add(waited);
        Ok(n)
    }
}

impl<'a, R: Clock, D: Dial> ServerConnector<'a, R, D> {
    /// The server that a dialer reaches, not connected yet, with no failure so far.
    pub fn over(clock: &'a R, dialer: D) -> ServerConnector<'a, R, D>
        ensures dialer { result.dialer ≡ dialer }
        ensures failures { result.failures ≡ 0 }
    {
        ServerConnector {
            clock,
            dialer,
            open: None,
            failures: 0,
            failure: None,
            pause: 0,
            connects: 0,
        }
    }

    /// The same, which waits before its second connection so many seconds, and before its third three times as many: a
    /// server that just started, or that another client held, gets the time that it needs.
    pub fn with_pause(self, seconds: u64) -> ServerConnector<'a, R, D>
        ensures dialer { result.dialer ≡ self.entry.dialer }
        ensures failures { result.failures ≡ self.entry.failures }
        ensures pause { result.pause ≡ seconds }
    {
        ServerConnector {
            pause: seconds,
            ..self
        }
    }

    // Waits as long as is due before the next connection.
    fn wait(&mut self)
        ensures same { (self.new.dialer ≡ self.old.dialer) × (self.new.open ≡ self.old.open)
            × (self.new.failures ≡ self.old.failures) }
    {
        let times = match self.connects {
            0 => 0,
            1 => 1,
            _ => 3,
        };
        let pause = Duration::from_secs(self.pause.saturating_mul(times));
        if !pause.is_zero() {
            thread::sleep(self.clock, pause);
        }
        self.connects = self.connects.saturating_add(1);
    }

    // Connects, and sends the request.
    fn ask(&self, request: FrameRequest) -> io::Result<Open<D::Stream>>
        ensures fresh { IfOk result (λ o. o.budget ≡ 0) }
        ensures sent { IfOk result (λ o. IsTrue D.tells
            → D.Stream.Write.contents o.stream ≡ Some (request_text request)) }
    {
        let stream = self.dialer.dial()?;
        Open::ask(stream, request)
    }
}

impl<'a, R: Clock, D: Dial> Connector for ServerConnector<'a, R, D> {
    ghost gives = { λ s k first most c. ⊤ };

    ghost left = { λ s c. ⊤ };

    ghost asked = { λ s t first most. IsTrue D.tells
        → sent_of t.open (λ o. D.Stream.Write.contents o.stream)
        ≡ Some (request_text (record { first = first; most = most })) };

    ghost taken = { λ s. taken_of s.open (λ o. o.budget) };

    ghost failed = { λ s. s.failures };

    ghost reaches = { λ s t. (t.dialer ≡ s.dialer) × (s.failures ≤ t.failures) };

    ghost allowed = { λ s. MOST_TRIES };

    fn connect(&mut self, first: u32, most: u32) -> Result<(), Fault> {
        self.open = None;
        self.wait();
        let opened = self.ask(FrameRequest { first, most });
        self.failure = failure_of(&opened, CONNECT_SECONDS);
        self.open = Some(counted(&mut self.failures, opened)?);
        Ok(())
    }

    fn read(&mut self, buffer: &mut [u8]) -> Result<usize, Fault> {
        let Some(open) = &mut self.open else {
            return counted(&mut self.failures, Err(no_connection()));
        };
        let outcome = open.read(self.clock, buffer);
        self.failure = failure_of(&outcome, CONNECTION_SECONDS);
        counted(&mut self.failures, outcome)
    }

    fn most_tries(&self) -> u8 {
        MOST_TRIES
    }

    fn failures(&self) -> u64 {
        self.failures
    }

    fn failure(&self) -> Option<Failure> {
        self.failure
    }

    ghost some = { λ s. (ended, tt) };

    ghost stays = { λ s. (refl, le_refl s.failures) };
}
