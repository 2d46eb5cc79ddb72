//! The stays of a signer, one after the other: in each it answers calls at a desk of its own, until it goes over or ends.

ghost use Rattle.std.specs.Prelude.{◌≡◌, IfErr, IfOk, IfSome};
ghost use Rattle.blocks.specs.Committees.{IsCommittee};
ghost use Rattle.signer_command.specs.Ends.{IsBacked, IsBackedAfter, IsLate};
ghost use Rattle.signer_command.specs.Ruled.{AreRuled};

use crate::fault::{Fault, SignerFault};
use crate::lineage::{Goods, Next, Stand, clear_behind};
use crate::notes::Notes;
use crate::pool::Start;
use crate::program::{SignerHost, sessions_of};
use crate::stay::{Left, Room, Sockets, stay_once};
use crate::words::Words;
use base_streams::Sink;
use base_text::id_digits;
use blocks::CommitteeView;
use handover_folder::Standing;
use stable_log::FileDisk;
use std::fs::{File, Files};
use std::net::{Net, TcpListener, TcpStream};
use std::random::RandomSource;
use std::sync::Wait;
use std::thread::Threads;
use std::time::Clock;
use vote_desk::{Closed, Parts};

/// What all stays of a signer have.
#[derive(Drop)]
pub(crate) struct Halls<'h, 'a, T: Wait, S: Sink> {
    pub host: &'h SignerHost<'h, T>,
    pub words: &'h Words<'a>,
    pub notes: &'h Notes<'h, T, S>,
    pub sockets: &'h Sockets,
    pub start: &'h Start,
    pub ghost ruled: { AreRuled words.now sockets.now },
}

/// What is left of a stay: what the next one stands on, or its desk as it was closed.
#[derive(Drop)]
enum After {
    Over(Stand),
    Closed(Closed<FileDisk>),
}

/// Stays in one chain after the other. Answers how the last desk was closed.
pub(crate) fn stay_on<
    'a,
    T: Threads
        + Wait
        + Clock
        + Files<File = File>
        + Net<Listener = TcpListener, Stream = TcpStream>
        + RandomSource
        + Sync,
    S: Sink + Send,
>(halls: &Halls<'_, 'a, T, S>, stand: Option<Stand>) -> Result<Closed<FileDisk>, Fault<'a>>
where
    T::Dir: Send,
    ensures backed { IfOk result IsBacked }
    ensures refused { IfErr result IsLate }
{
    let ended = stay_while_over(halls, stand);
    // Who still waits for its threads, or for calls, is told that there are none.
    halls.start.end_all();
    ended
}

fn stay_while_over<
    'a,
    T: Threads
        + Wait
        + Clock
        + Files<File = File>
        + Net<Listener = TcpListener, Stream = TcpStream>
        + RandomSource
        + Sync,
    S: Sink + Send,
>(halls: &Halls<'_, 'a, T, S>, stand: Option<Stand>) -> Result<Closed<FileDisk>, Fault<'a>>
where
    T::Dir: Send,
    ensures backed { IfOk result IsBacked }
    ensures refused { IfErr result IsLate }
{
    let mut at = stand;
    for _ in halls.host.rt.forever() {
        let Some(stand) = at else {
            break;
        };
        match stay_in(halls, stand) {
            Ok(After::Over(next)) => {
                clear_behind(halls.host, halls.words, halls.notes, &next.at);
                at = Some(next);
            }
            Ok(After::Closed(closed)) => return Ok(closed),
            Err(fault) => return Err(fault),
        }
    }
    Err(Fault::Own(SignerFault::Endless))
}

// One stay.
fn stay_in<
    'a,
    T: Threads
        + Wait
        + Clock
        + Files<File = File>
        + Net<Listener = TcpListener, Stream = TcpStream>
        + RandomSource
        + Sync,
    S: Sink + Send,
>(halls: &Halls<'_, 'a, T, S>, stand: Stand) -> Result<After, Fault<'a>>
where
    T::Dir: Send,
    ensures backed { IfOk result IsBackedAfter }
    ensures refused { IfErr result IsLate }
{
    let Stand { at, parts, lock } = stand;
    let left = match stay_at(halls, &at, parts) {
        Ok(left) => left,
        Err(fault) => return Err(fault),
    };
    let Left { closed, next } = left;
    match next {
        Some(next) if !halls.start.has_ended() => {
            let Closed { parts, .. } = closed;
            let over = go_on(halls, at, lock, parts, next);
            halls.start.again();
            over
        }
        _ => Ok(After::Closed(closed)),
    }
}

// The stay in this committee.
fn stay_at<
    'a,
    T: Threads
        + Wait
        + Clock
        + Files<File = File>
        + Net<Listener = TcpListener, Stream = TcpStream>
        + RandomSource
        + Sync,
    S: Sink + Send,
>(
    halls: &Halls<'_, 'a, T, S>,
    at: &Standing,
    parts: Parts<FileDisk>,
) -> Result<Left<FileDisk>, Fault<'a>>
where
    T::Dir: Send,
    ensures backed { IfOk result (λ left. IsBacked left.closed) }
    ensures refused { IfErr result IsLate }
{
    let committee = match CommitteeView::parse(&at.committee) {
        Ok(committee) => committee,
        Err(_) => return Err(Fault::Own(SignerFault::Endless)),
    };
    let room = Room {
        rt: halls.host.rt,
        alloc: halls.host.alloc,
        words: halls.words,
        committee: &committee,
        sessions: sessions_of(halls.words),
        sockets: halls.sockets,
        notes: halls.notes,
        standing: at,
        start: halls.start,
    };
    match stay_once(&room, parts) {
        Ok(left) => Ok(left),
        Err(fault) => Err(fault),
    }
}

// Where the signer stands behind its word.
fn go_on<'a, T: Wait, S: Sink>(
    halls: &Halls<'_, 'a, T, S>,
    at: Standing,
    lock: Option<File>,
    parts: Parts<FileDisk>,
    next: Next,
) -> Result<After, Fault<'a>>
    ensures backed { IfOk result IsBackedAfter }
    ensures refused { IfErr result IsLate }
{
    let Next {
        chain,
        file,
        goods,
        handover,
    } = next;
    let Some(handover) = handover else {
        return Err(Fault::Own(SignerFault::Lineage(chain)));
    };
    let at = match at.gone_over(file, &handover, halls.words.replica) {
        Ok(Some(at)) => at,
        Ok(None) => return Err(Fault::Own(SignerFault::Lineage(chain))),
        Err(_) => return Err(Fault::Memory),
    };
    halls.notes.tell(b"over ");
    halls.notes.tell(&id_digits(&chain));
    halls.notes.tell(b"\n");
    let (parts, lock) = match goods {
        Goods::New(parts, lock) => (parts, Some(lock)),
        Goods::Kept(log) => {
            let Parts { trees, index, .. } = parts;
            (Parts { trees, index, log }, lock)
        }
    };
    Ok(After::Over(Stand { at, parts, lock }))
}
