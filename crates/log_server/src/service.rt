//! Requests that come over TCP, one after the other.

ghost use Rattle.std.specs.Prelude.{◌≡◌, IsErrOf, OnOk, Result as ResultValue, length};
ghost use Rattle.base_streams.specs.Counting.{Counts};
ghost use Rattle.stable_log.specs.Devices.{Untouched};
ghost use Rattle.base_streams.specs.Streams.{Wrote};
ghost use Rattle.log_server.specs.declared.error.ServeError.{ServeError as ServeErrorValue};
ghost use Rattle.log_server.specs.declared.reply.Reply.{Reply as ReplyValue};
ghost use Rattle.log_server.specs.Answers.{IsServed, MayAnswer};
ghost use Rattle.log_server.specs.Blame.{BlamesOutput};
ghost use Rattle.log_server.specs.ServedLines.{served_line};

use crate::ServeError;
use crate::answering::{answer, print_answer};
use crate::connection::{ClientBytes, RULES, Telling};
use crate::fault::ServiceFault;
use base_sockets::{Arrival, Lobby, bind};
use base_streams::{Fault, Sink, StdFeed, StdSink};
use stable_log::Disk;
use std::alloc::Global;
use std::net::{Net, TcpListener, TcpStream};
use std::time::{Clock, Duration};
use std::{io, thread};
use vote_log::VoteLog;

// How many seconds nothing is accepted behind a connection that could not be.
const PAUSE_SECONDS: u64 = 1;

/// Listens on an address, such as `127.0.0.1:7000` or `[::1]:7000`, and serves the log to so many connections, one after
/// the other, with one request each. Each prints `served FRAMES`, or `serve fault N`, N being the number of the
/// `ServeError`. The log stays as it is.
///
/// The requests of up to 512 connections are awaited at once, and answered in the order in which they were whole, or failed. A
/// connection ends 10 seconds after it was accepted with no whole request, 30 seconds after its client last took a byte, where it is
/// over an hour old, and where it takes fewer than 65,536 bytes in 5 seconds while others wait whose requests are whole. Of more than
/// 512, one that gives way, or the new one, ends (see `gives_way` of patient_sockets): `serve fault 4`. One that can't be accepted, or
/// waited for, counts as one whose request can't be read: `serve fault 4`; before the next one a second passes, since the cause may
/// last. How long it takes until the next client connects is not bounded. Once the call returns nothing listens any more.
pub fn serve_requests<R: Net<Listener = TcpListener, Stream = TcpStream> + Clock, D: Disk, W: Sink>(
    rt: &R,
    alloc: Global,
    address: &str,
    requests: u16,
    log: &mut VoteLog<D>,
    out: &mut W,
) -> Result<(), ServiceFault>
    ensures served { OnOk result (IsServed log.old.stopped (length log.old.steps) requests
        (W.text out.old) (W.text out.new)) }
    ensures same { (log.new.entries ≡ log.old.entries) × (log.new.steps ≡ log.old.steps)
        × (log.new.stopped ≡ log.old.stopped) × (log.new.genesis ≡ log.old.genesis)
        × Untouched D.Disk log.old.disk log.new.disk }
    ensures unheard { IsErrOf result ServiceFault.Listen → (out.new ≡ out.old)
        × (log.new ≡ log.old) }
    ensures blame { BlamesOutput result (W.failed out.old) (W.failed out.new) }
{
    let Ok(mut lobby) = lobby_at(rt, alloc, address) else {
        return Err(ServiceFault::Listen);
    };
    match answer_all(rt, &mut lobby, requests, log, out) {
        Ok(()) => Ok(()),
        Err(_) => Err(ServiceFault::Output),
    }
}

// Where connections to an address are awaited.
fn lobby_at<'a, R: Net + Clock>(
    rt: &'a R,
    alloc: Global,
    address: &str,
) -> io::Result<Lobby<'a, R>> {
    Lobby::new(rt, alloc, bind(rt, address)?, RULES)
}

// Answers so many requests.
fn answer_all<'a, R: Net + Clock, D: Disk, W: Sink>(
    clock: &'a R,
    lobby: &mut Lobby<'a, R>,
    requests: u16,
    log: &mut VoteLog<D>,
    out: &mut W,
) -> Result<(), Fault>
    ensures served { OnOk result (IsServed log.old.stopped (length log.old.steps) requests
        (W.text out.old) (W.text out.new)) }
    ensures same { (log.new.entries ≡ log.old.entries) × (log.new.steps ≡ log.old.steps)
        × (log.new.stopped ≡ log.old.stopped) × (log.new.genesis ≡ log.old.genesis)
        × Untouched D.Disk log.old.disk log.new.disk }
    ensures counted { Counts (W.failed out.old) (W.failed out.new) result }
{
    for _ in 0..requests {
        answer_next(clock, lobby, log, out)?;
    }
    Ok(())
}

// Answers the request of the next connection.
fn answer_next<'a, R: Net + Clock, D: Disk, W: Sink>(
    clock: &'a R,
    lobby: &mut Lobby<'a, R>,
    log: &mut VoteLog<D>,
    out: &mut W,
) -> Result<(), Fault>
    ensures served { OnOk result ((served : ResultValue ReplyValue ServeErrorValue)
        × MayAnswer log.old.stopped (length log.old.steps) served
        × Wrote (W.text out.old) (W.text out.new) (served_line served)) }
    ensures same { (log.new.entries ≡ log.old.entries) × (log.new.steps ≡ log.old.steps)
        × (log.new.stopped ≡ log.old.stopped) × (log.new.genesis ≡ log.old.genesis)
        × Untouched D.Disk log.old.disk log.new.disk }
    ensures counted { Counts (W.failed out.old) (W.failed out.new) result }
{
    match lobby.next() {
        Ok(arrival) => answer_arrival(clock, lobby, arrival, log, out),
        // as a request that can't be read
        Err(_) => {
            let printed = print_answer(Err(ServeError::Source), out);
            thread::sleep(clock, Duration::from_secs(PAUSE_SECONDS));
            printed
        }
    }
}

// Answers the request of a connection that has arrived.
fn answer_arrival<'a, R: Net + Clock, D: Disk, W: Sink>(
    clock: &'a R,
    lobby: &mut Lobby<'a, R>,
    arrival: Arrival,
    log: &mut VoteLog<D>,
    out: &mut W,
) -> Result<(), Fault>
    ensures served { OnOk result ((served : ResultValue ReplyValue ServeErrorValue)
        × MayAnswer log.old.stopped (length log.old.steps) served
        × Wrote (W.text out.old) (W.text out.new) (served_line served)) }
    ensures same { (log.new.entries ≡ log.old.entries) × (log.new.steps ≡ log.old.steps)
        × (log.new.stopped ≡ log.old.stopped) × (log.new.genesis ≡ log.old.genesis)
        × Untouched D.Disk log.old.disk log.new.disk }
    ensures counted { Counts (W.failed out.old) (W.failed out.new) result }
{
    let asking = ClientBytes {
        bytes: arrival.bytes,
        given: 0,
        came: arrival.came,
    };
    let telling = Telling {
        clock,
        lobby,
        stream: arrival.stream,
        made: arrival.made,
        taken: None,
        counted: None,
        count: 0,
    };
    answer(
        log,
        &mut StdFeed::new(asking),
        &mut StdSink::new(telling),
        out,
    )
}
