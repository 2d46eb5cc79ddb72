//! The thread of a source.

use crate::next_asking::{Given, ask_for_next};
use crate::patience::Dialer;
use crate::reader::{Reader, note_answer};
use crate::shop::{SourceOrigin, Target, WatchShared};
use audit_evidence::EvidenceRefusal;
use base_wire::MOST_ENTRIES;
use log_format::{Frames, Status};
use log_reading::{Answer, End, MOST_FRAMES_ASKED, ask};
use log_request::{ChainDialer, ChainServer};
use log_transfer::{FetchError, FileConnector, Pull, ServerConnector, Step};
use std::alloc::AllocError;
use std::fs::{File, Files};
use std::net::{Net, TcpStream};
use std::sync::Wait;
use std::sync::atomic::Ordering;
use std::time::Clock;

/// Reads what is kept of a source, and then the source until the watch ends, or it is set aside; a file once.
pub(crate) fn follow<'c, T: Files<File = File> + Wait + Clock + Net<Stream = TcpStream>>(
    shop: &WatchShared<'_, '_, 'c, T>,
    source: usize,
) -> Result<(), EvidenceRefusal> {
    let Some(target) = shop.targets.get(source) else {
        return Ok(());
    };
    let mut reader = Reader::new(shop.alloc, source, target)?;
    reader.restore(shop)?;
    if !shop.await_kept() {
        return Ok(());
    }
    reader.join_parts(shop)?;
    match &target.place {
        SourceOrigin::File(path) => read_file_once(shop, &mut reader, target, path),
        SourceOrigin::Server(name) => follow_server(shop, &mut reader, target, name),
    }
}

// Whether no more of a source is read.
fn is_over<T: Wait + Clock>(shop: &WatchShared<'_, '_, '_, T>, target: &Target) -> bool {
    shop.is_ending() || target.aside.load(Ordering::SeqCst)
}

fn follow_server<'c, T: Files<File = File> + Wait + Clock + Net<Stream = TcpStream>>(
    shop: &WatchShared<'_, '_, 'c, T>,
    reader: &mut Reader,
    target: &Target,
    name: &str,
) -> Result<(), EvidenceRefusal> {
    for _ in shop.rt.forever() {
        if is_over(shop, target) {
            break;
        }
        reader.begin_anew(shop)?;
        if !read_on(shop, reader, name)? {
            reader.store_again(shop)?;
            reader.end_round(shop);
            ask_next(shop, reader, name)?;
            rest(shop, target, reader.pauses());
        }
    }
    reader.let_others_read_anew(shop);
    Ok(())
}

// Where the committee handed its ledger over, and the watch goes over with it, asks the server for the committee that comes next. One
// that is given without a renewal is taken once it was given so twice: so another server has a round to give it.
fn ask_next<T: Wait + Clock + Net<Stream = TcpStream>>(
    shop: &WatchShared<'_, '_, '_, T>,
    reader: &mut Reader,
    name: &str,
) -> Result<(), AllocError> {
    let Some(payload) = shop.handover() else {
        return Ok(());
    };
    match ask_for_next(shop, name, &payload)? {
        Given::Next(next) => {
            if !next.is_by_hand() || reader.gave_by_hand() {
                shop.offer(next);
            }
        }
        Given::Wrong => reader.tell_wrong_next(shop),
        Given::Nothing => {}
    }
    Ok(())
}

// So many pauses, unless no more of the source is read.
fn rest<T: Wait + Clock>(shop: &WatchShared<'_, '_, '_, T>, target: &Target, pauses: u8) {
    for _ in 0..pauses {
        if is_over(shop, target) {
            return;
        }
        shop.pause();
    }
}

// Asks the server for the log of the committee's chain from this frame on. Its connection is closed then.
fn ask_server<'c, T: Files<File = File> + Wait + Clock + Net<Stream = TcpStream>>(
    shop: &WatchShared<'_, '_, 'c, T>,
    reader: &mut Reader,
    name: &str,
    first: u32,
) -> Result<Answer, AllocError> {
    let dialer = Dialer {
        net: shop.rt,
        alloc: shop.alloc,
        name,
        ending: &shop.ending,
    };
    let chain = shop.committee.chain();
    let server = if shop.words.lineage {
        ChainServer::named_only(dialer, chain)
    } else {
        ChainServer::new(dialer, chain)
    };
    let answer = {
        let mut connector = ServerConnector::over(shop.rt, ChainDialer::of(&server));
        ask(shop.alloc, &mut connector, first)?
    };
    reader.note_server(shop, server.heard());
    Ok(answer)
}

// Asks the server once, and hands over what is new. Answers whether something was read and more is there at once: a server that
// gives nothing that goes on is left alone for a while, however much it gives.
fn read_on<'c, T: Files<File = File> + Wait + Clock + Net<Stream = TcpStream>>(
    shop: &WatchShared<'_, '_, 'c, T>,
    reader: &mut Reader,
    name: &str,
) -> Result<bool, EvidenceRefusal> {
    let first = u32::try_from(reader.logs.read().saturating_sub(1)).unwrap_or(u32::MAX);
    let answer = ask_server(shop, reader, name, first)?;
    let frames = Frames::of(shop.alloc, &answer.text)?;
    let status = status_of(frames.status(), answer.end);
    if !answer.text.is_empty() {
        note_answer(shop, reader.source);
    }
    if !reader.goes_on(&frames) {
        // Of an answer that is longer than what is read of one the frame that counts came whole.
        let is_read = status == Status::Whole || answer.end == End::Stopped && frames.len() > 0;
        reader.part_ways(shop, status, is_read)?;
        return Ok(false);
    }
    let before = reader.logs.read();
    take(shop, reader, &frames, usize::from(before > 0), status)?;
    let has_more = answer.end == End::Stopped || frames.len() >= MOST_FRAMES_ASKED as usize;
    Ok(has_more && reader.logs.read() > before && !reader.is_closed)
}

// Hands over the frames from this one on.
fn take<'c, T: Files<File = File> + Wait + Clock>(
    shop: &WatchShared<'_, '_, 'c, T>,
    reader: &mut Reader,
    frames: &Frames,
    skip: usize,
    status: Status,
) -> Result<(), EvidenceRefusal> {
    let mut draft = reader.draft(shop)?;
    for k in skip..frames.len() {
        if !reader.take_frame(shop, &mut draft, frames.payload(k))? {
            break;
        }
    }
    reader.finish(shop, draft, status)
}

// How an answer ends: what says too little failed where the connection did.
fn status_of(status: Status, end: End) -> Status {
    match (status, end) {
        (Status::Cut, End::Failing) => Status::Failed,
        (status, _) => status,
    }
}

// Reads a file once, to its end or until it is set aside.
fn read_file_once<'c, T: Files<File = File> + Wait + Clock>(
    shop: &WatchShared<'_, '_, 'c, T>,
    reader: &mut Reader,
    target: &Target,
    path: &str,
) -> Result<(), EvidenceRefusal> {
    let mut pull = Pull::new(FileConnector::new(shop.rt, path), 1);
    let mut frame = Vec::new(shop.alloc);
    let mut draft = reader.draft(shop)?;
    let mut ended = Status::Whole;
    for _ in 0..=MOST_ENTRIES {
        if is_over(shop, target) {
            ended = Status::Cut;
            break;
        }
        match pull.next(&mut frame) {
            Ok(Step::Frame) => {
                if !reader.take_frame(shop, &mut draft, &frame)? {
                    ended = Status::Cut;
                    break;
                }
            }
            Ok(Step::End(status)) => {
                ended = status;
                break;
            }
            Err(FetchError::Memory) => return Err(EvidenceRefusal::Memory),
        }
    }
    if ended != Status::Failed {
        note_answer(shop, reader.source);
    }
    reader.finish(shop, draft, ended)?;
    reader.store_again(shop)?;
    reader.end_round(shop);
    Ok(())
}
