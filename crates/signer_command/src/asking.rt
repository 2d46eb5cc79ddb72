//! The threads that ask for the logs of others, each of one source.

use crate::dialing::{Addresses, Dialer};
use crate::heard::{Telling, Word};
use crate::pace::tick;
use crate::pool::PoolShared;
use base_streams::Sink;
use base_wire::MOST_ENTRIES;
use log_format::{Frames, Status};
use log_reading::{Answer, End, FrameDigest, MOST_FRAMES_ASKED, ask, digest_of};
use log_request::{ChainDialer, ChainServer, Heard};
use log_transfer::{MOST_OF_A_STREAM, ServerConnector};
use program_parts::{Origin, SourceWord};
use signer_answers::is_of_other_chain;
use signer_service::{Approver, Keeper, Witness, look_through};
use stable_log::Disk;
use std::alloc::{AllocError, Global};
use std::fs::{File, Files};
use std::io::Read;
use std::net::{Net, TcpListener, TcpStream};
use std::sync::Wait;
use std::thread;
use std::thread::Threads;
use std::time::{Clock, Duration};
use vote_desk::DeskNaming;
use vote_log::LogError;

/// How long a source is left alone, in ticks of a quarter of a second: a second while blocks wait for it, else a minute.
const SHORT_PAUSE: u32 = 4;

const LONG_PAUSE: u32 = 240;

/// How often a source is asked at once behind a going over, a tenth of a second apart, before it is left alone for longer.
const MOST_BRIEF: u32 = 100;

const BRIEF_MILLISECONDS: u64 = 100;

/// How many bytes one read of a file asks for.
const PIECE: usize = 65_536;

// How far the log that a source has now was read: how many frames, and what the last of them digests to.
#[derive(Clone, Copy)]
struct ReadSoFar {
    frames: usize,
    last: Option<FrameDigest>,
    // Whether it was told that its server was asked without the chain's name.
    is_told_unnamed: bool,
}

impl ReadSoFar {
    fn nothing() -> ReadSoFar {
        ReadSoFar {
            frames: 0,
            last: None,
            is_told_unnamed: false,
        }
    }

    // From here on all of it is read again.
    fn restart(&mut self) {
        self.frames = 0;
        self.last = None;
    }
}

// What a source gave in one look, with the place of its first frame in the log.
#[derive(Drop)]
struct Given {
    answer: Answer,
    first: usize,
    // Whether it is all that the source has: a server gives some frames at a time.
    is_all: bool,
    // What was heard of its server.
    heard: Heard,
}

// What came of one look at a source.
#[derive(Clone, Copy, PartialEq, Eq)]
enum Look {
    // More of it is there at once.
    More,
    // Nothing more is there now, or it could not be looked at, and it is told so.
    Ended(Word),
    // The replica's log was put back.
    PutBack,
}

impl<
    N: DeskNaming,
    T: Threads
        + Wait
        + Clock
        + Files<File = File>
        + Net<Listener = TcpListener, Stream = TcpStream>,
    S: Sink,
    D: Disk,
    K: Approver + Keeper,
    W: Witness,
> PoolShared<'_, '_, N, T, S, D, K, W> {
    /// Reads a source again and again until the signer ends, or its log is found to be put back.
    pub(crate) fn ask_on(&self, number: usize) {
        let Some(source) = self.room.words.sources.get(number) else {
            return;
        };
        let mut so_far = ReadSoFar::nothing();
        let mut telling = Telling::new();
        let mut brief = if self.room.standing.handover.is_some() {
            MOST_BRIEF
        } else {
            0
        };
        for _ in self.rt.forever() {
            if self.start.is_ending() || self.room.notes.has_told_put_back() {
                break;
            }
            let look = self.look_at(number, source, &mut so_far);
            match look.unwrap_or(Look::Ended(Word::Memory)) {
                Look::More => {}
                Look::PutBack => break,
                Look::Ended(word) => {
                    self.note(number, source.replica, word, &mut telling);
                    if brief > 0 && !self.gate.is_open() {
                        brief -= 1;
                        thread::sleep(self.rt, Duration::from_millis(BRIEF_MILLISECONDS));
                    } else {
                        self.pause(self.pause_behind(word));
                    }
                }
            }
        }
    }

    // How long a source is left alone that gave this.
    fn pause_behind(&self, word: Word) -> u32 {
        if word == Word::Read(Status::Whole) || self.gate.is_open() {
            LONG_PAUSE
        } else {
            SHORT_PAUSE
        }
    }

    // Notes what a source gave: where all of it was read it is heard, and while blocks wait for others it is told.
    fn note(&self, number: usize, replica: u16, word: Word, telling: &mut Telling) {
        let is_whole = word == Word::Read(Status::Whole);
        self.sources.set(number, is_whole);
        if is_whole {
            self.hear(replica);
        }
        if !self.gate.is_open() && telling.is_due(self.rt, word) {
            self.room.notes.tell_asking(number, word);
        }
    }

    // One look at a source. Where another frame stands in the place of the last that was read, all of it is read again at the next.
    fn look_at(
        &self,
        number: usize,
        source: &SourceWord<'_>,
        so_far: &mut ReadSoFar,
    ) -> Result<Look, AllocError> {
        let Some(given) = self.given_by(source, so_far)? else {
            return Ok(Look::Ended(Word::Unresolved));
        };
        self.tell_unnamed(number, given.heard, so_far);
        if given.heard == Heard::NoLog || self.is_of_any_chain(given.heard) {
            return Ok(Look::Ended(Word::OtherChain));
        }
        self.look_into(source, &given, so_far)
    }

    // Whether the log may be of another chain, where others are asked in each chain: its server was asked without the chain's name.
    fn is_of_any_chain(&self, heard: Heard) -> bool {
        self.room.words.renew && heard == Heard::Unnamed
    }

    // Looks into what a source gave.
    fn look_into(
        &self,
        source: &SourceWord<'_>,
        given: &Given,
        so_far: &mut ReadSoFar,
    ) -> Result<Look, AllocError> {
        let frames = Frames::of(self.alloc, &given.answer.text)?;
        let ended = status_of(frames.status(), given.answer.end);
        // The place of the first frame that was not read yet.
        let from = so_far.frames.saturating_sub(given.first);
        if from > 0 && !has_last(&frames, from, so_far) {
            // Of a file all is there, so what it lacks is gone.
            if given.is_all || frames.len() >= from || ended == Status::Whole {
                so_far.restart();
            }
            return Ok(Look::Ended(Word::Read(unless_whole(ended))));
        }
        match look_through(
            self.rt,
            self.alloc,
            &self.office,
            source.replica,
            &frames,
            from,
        ) {
            Ok(Some((ballot, _shown))) => {
                self.room.notes.tell_put_back(&ballot);
                return Ok(Look::PutBack);
            }
            Ok(None) => {}
            Err(LogError::Memory) => return Ok(Look::Ended(Word::Memory)),
            Err(_) => return Ok(Look::Ended(Word::OwnLog)),
        }
        if given.first == 0 && is_of_other_chain(self.alloc, self.room.committee, &frames)? {
            return Ok(Look::Ended(Word::OtherChain));
        }
        self.hearing
            .note_certified(self.rt, self.alloc, self.room.committee, &frames, from)?;
        Ok(read_on(&frames, from, given, ended, so_far))
    }

    // Tells once that a source was asked without the chain's name.
    fn tell_unnamed(&self, number: usize, heard: Heard, so_far: &mut ReadSoFar) {
        if heard == Heard::Unnamed && !so_far.is_told_unnamed {
            so_far.is_told_unnamed = true;
            self.room.notes.tell_asking(number, Word::Unnamed);
        }
    }

    // What a source gives: a file all of it, a server what stands behind the last frame that was read, which comes first then. None where
    // the name of a server has no address.
    fn given_by(
        &self,
        source: &SourceWord<'_>,
        so_far: &ReadSoFar,
    ) -> Result<Option<Given>, AllocError> {
        let name = match source.origin {
            Origin::File(path) => {
                let answer = read_file(self.rt, self.alloc, path)?;
                return Ok(Some(Given {
                    answer,
                    first: 0,
                    is_all: true,
                    heard: Heard::Nothing,
                }));
            }
            Origin::Tcp(name) => name,
        };
        let Ok(addresses) = Addresses::of(self.rt, name) else {
            return Ok(None);
        };
        let dialer = Dialer {
            net: self.rt,
            addresses,
            ending: &self.start.ending,
        };
        let server = ChainServer::new(dialer, self.room.committee.chain());
        let first = so_far.frames.saturating_sub(1);
        let asked = u32::try_from(first).unwrap_or(u32::MAX);
        let answer = {
            let mut connector = ServerConnector::over(self.rt, ChainDialer::of(&server));
            ask(self.alloc, &mut connector, asked)?
        };
        Ok(Some(Given {
            answer,
            first,
            is_all: false,
            heard: server.heard(),
        }))
    }

    // The log of this replica was read whole: where enough were, blocks are taken from here on.
    fn hear(&self, replica: u16) {
        if self.gate.is_open() {
            return;
        }
        let mut heard = self.hearing.heard.lock(self.rt);
        let heard = &mut *heard;
        if let Some(place) = heard.whole.get_mut(usize::from(replica)) {
            *place = true;
        }
        // Who held the lock before may have opened it: blocks are taken then, and no more views are given up.
        if self.gate.is_open() {
            return;
        }
        // Where the desk is stopped the gate stays shut.
        let _ = self.gate.hear(self.rt, self.alloc, &self.office, &*heard);
    }

    fn pause(&self, ticks: u32) {
        for _ in 0..ticks {
            if self.start.is_ending() {
                return;
            }
            thread::sleep(self.rt, tick());
        }
    }
}

// All bytes of a file, as far as a log may be long.
fn read_file<T: Files<File = File>>(
    files: &T,
    alloc: Global,
    path: &str,
) -> Result<Answer, AllocError> {
    let mut text = Vec::new(alloc);
    let Ok(mut file) = File::open(files, path) else {
        return Ok(Answer {
            text,
            end: End::Failing,
        });
    };
    let mut buffer = Vec::new(alloc);
    buffer.resize(PIECE, 0)?;
    // Each read gives a byte at least.
    for _ in 0..MOST_OF_A_STREAM {
        if text.len() >= MOST_OF_A_STREAM {
            break;
        }
        match file.read(buffer.as_mut_slice()) {
            Err(_) => {
                return Ok(Answer {
                    text,
                    end: End::Failing,
                });
            }
            Ok(0) => break,
            Ok(n) => text.extend_from_slice(buffer.get(..n).unwrap_or(&[]))?,
        }
    }
    Ok(Answer {
        text,
        end: End::Ended,
    })
}

// How what was given ended: what says too little failed where the connection did.
fn status_of(status: Status, end: End) -> Status {
    match (status, end) {
        (Status::Cut, End::Failing) => Status::Failed,
        (status, _) => status,
    }
}

// What is told of an answer that does not go on where the last ended: all of the log was not read.
fn unless_whole(status: Status) -> Status {
    match status {
        Status::Whole => Status::Cut,
        status => status,
    }
}

// Whether the frame before this place is the last that was read.
fn has_last(frames: &Frames, from: usize, so_far: &ReadSoFar) -> bool {
    let at = from.saturating_sub(1);
    at < frames.len() && so_far.last == Some(digest_of(frames.payload(at)))
}

// The frames from this place on were read. Answers what came of it.
fn read_on(
    frames: &Frames,
    from: usize,
    given: &Given,
    ended: Status,
    so_far: &mut ReadSoFar,
) -> Look {
    let new = frames.len().saturating_sub(from);
    if new > 0 {
        so_far.last = Some(digest_of(frames.payload(frames.len() - 1)));
        so_far.frames = so_far.frames.saturating_add(new);
    }
    let has_room = so_far.frames < MOST_ENTRIES;
    let is_part = ended == Status::Whole && frames.len() >= MOST_FRAMES_ASKED as usize;
    let goes_on = match given.answer.end {
        End::Stopped => true,
        End::Ended => is_part,
        End::Failing => false,
    };
    if goes_on && !given.is_all && new > 0 && has_room {
        return Look::More;
    }
    Look::Ended(Word::Read(ended))
}
