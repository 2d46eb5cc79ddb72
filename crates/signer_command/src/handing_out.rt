//! A log that is handed out to all who ask, while votes go on.

ghost use Rattle.std.specs.Prelude.{◌≡◌, ◌↔◌, IfSome, IsFalse, IsTrue, length};
ghost use Rattle.log_request.specs.Gathering.{request_len};
ghost use Rattle.log_request.specs.StepRequests.{begins_step};
ghost use Rattle.signer_command.specs.StepAnswers.{IsStepAnswer, IsStepOf};

use crate::past::PastLog;
use crate::step_file::StepFile;
use base_sockets::{Bounds, Next, Rules, Talk};
use blocks::Id;
use handover_folder::LineageFolder;
use log_format::FrameRequest;
use log_handout::Reply;
use log_request::{Asked, ChainRequest, RequestBytes, StepBytes, StepRequest, asked_in};
use stable_log::{Disk, FileDisk};
use std::alloc::Global;
use std::fs::{File, Files};
use std::io;
use std::io::ErrorKind;
use std::sync::Wait;
use vote_desk::{Desk, DeskNaming, MOST_FRAMES_AT_ONCE};

/// How long a connection may take, in milliseconds: until its request is whole, while it takes nothing of its answer, and in all.
const BOUNDS: Bounds = Bounds {
    asking: 10_000,
    answering: 30_000,
    whole: 3_600_000,
};

/// From how many bytes on that were copied and not taken, over the connections of one thread, a piece has one entry alone.
const FULL: usize = 16 * 1024 * 1024;

/// What one of the threads that hand out the log holds its connections to, of which it has so many.
pub(crate) fn rules(most: usize) -> Rules {
    Rules {
        bounds: BOUNDS,
        most,
        full: FULL,
    }
}

/// Answers one request of each connection, which may name a chain: by the entries that there are when it comes, in pieces that are
/// copied under the desk's lock and sent behind it, as one export; or by the word that there is no log of the chain that it names. Or it
/// asks for a piece of a step. What goes out next is copied once all before was taken.
#[derive(Drop)]
pub(crate) struct LogTalk<'a, N: DeskNaming, T, D: Disk> {
    pub rt: &'a T,
    pub alloc: Global,
    pub desk: &'a Desk<N, D>,
    /// The chain of its log.
    pub chain: Id,
    /// The logs of the chains that the signer went over from, where it goes over at all.
    pub past: Option<Past<'a, T>>,
}

/// Where the logs lie of the chains that a signer went over from, and which was the first.
#[derive(Clone, Copy)]
pub(crate) struct Past<'a, T> {
    pub folder: LineageFolder<'a, T>,
    pub first: Id,
}

/// What came of a request, and then what goes out.
#[derive(Drop)]
pub(crate) struct LogLine {
    request: RequestBytes,
    // The same bytes, which may ask for a piece of a step.
    step: StepBytes,
    reply: Option<Answering>,
}

// What answers a request: the desk, the log of an earlier chain, or a piece of the step by which one was left.
#[derive(Drop)]
enum Answering {
    Desk(Reply),
    Past(PastLog),
    Step(StepFile<FileDisk>),
}

impl LogLine {
    // Whether all of the request came: its first four bytes say of how many it is.
    fn is_whole(&self) -> bool
        ensures step { IsTrue (begins_step self.now.step)
            → (IsTrue result ↔ (length self.now.step ≡ 37)) }
        ensures log { IsFalse (begins_step self.now.step)
            → (IsTrue result ↔ (length self.now.request ≡ request_len self.now.request)) }
    {
        if self.step.begin_step() {
            self.step.is_whole()
        } else {
            self.request.is_whole()
        }
    }
}

impl<'a, N: DeskNaming, T: Wait + Files<File = File>, D: Disk> LogTalk<'a, N, T, D> {
    // What answers a request that is whole. One that names no chain asks for the log of the first chain.
    fn answer(&self, line: &LogLine) -> Option<Answering> {
        if line.step.begin_step() {
            return Some(self.answer_step(line.step.as_bytes()));
        }
        let bytes = line.request.as_bytes();
        if let Some(past) = &self.past {
            if let Some(log) = self.earlier(past, bytes) {
                return Some(Answering::Past(log));
            }
            if names_none(bytes) && past.first != self.chain {
                return None;
            }
        }
        let asked = asked_in(&self.chain, bytes)?;
        Some(Answering::Desk(Reply::begin(self.rt, self.desk, asked)))
    }

    // A piece of the step by which a chain was left, or that there is none.
    fn answer_step(&self, bytes: &[u8]) -> Answering
        ensures { IsStepAnswer self.now.chain bytes.now result }
    {
        match self.step_in(bytes) {
            Some(file) => Answering::Step(file),
            None => Answering::Desk(Reply::begin(self.rt, self.desk, Asked::OtherChain)),
        }
    }

    // The piece that these bytes ask for. The present chain was not left.
    fn step_in(&self, bytes: &[u8]) -> Option<StepFile<FileDisk>>
        ensures { IfSome result (IsStepOf self.now.chain bytes.now) }
    {
        let past = self.past.as_ref()?;
        let wanted = StepRequest::from_bytes(bytes)?;
        if wanted.chain == self.chain {
            return None;
        }
        StepFile::open(&past.folder, &wanted)
    }

    // The log of an earlier chain, if that is what is asked for.
    fn earlier(&self, past: &Past<'a, T>, bytes: &[u8]) -> Option<PastLog> {
        let wanted = wanted_in(&past.first, bytes)?;
        if wanted.chain == self.chain {
            return None;
        }
        PastLog::open(&past.folder, &wanted)
    }
}

// What a request asks for, where one that names no chain asks of the first one.
fn wanted_in(first: &Id, bytes: &[u8]) -> Option<ChainRequest> {
    if let Some(request) = FrameRequest::from_bytes(bytes) {
        let chain = *first;
        return Some(ChainRequest {
            chain,
            first: request.first,
            most: request.most,
        });
    }
    ChainRequest::from_bytes(bytes)
}

fn names_none(bytes: &[u8]) -> bool {
    FrameRequest::from_bytes(bytes).is_some()
}

impl<N: DeskNaming, T: Wait + Files<File = File>, D: Disk> Talk for LogTalk<'_, N, T, D> {
    type Line = LogLine;

    fn begin(&mut self) -> io::Result<LogLine> {
        Ok(LogLine {
            request: RequestBytes::new(),
            step: StepBytes::new(),
            reply: None,
        })
    }

    fn hear(&mut self, line: &mut LogLine, bytes: &[u8]) -> io::Result<()> {
        if line.reply.is_some() {
            return Ok(());
        }
        line.request.take(bytes);
        line.step.take(bytes);
        if !line.is_whole() {
            return Ok(());
        }
        let Some(answering) = self.answer(line) else {
            return Err(io::Error::from(ErrorKind::InvalidData));
        };
        line.reply = Some(answering);
        Ok(())
    }

    fn next(&mut self, line: &mut LogLine, is_full: bool) -> io::Result<Next> {
        let Some(reply) = &mut line.reply else {
            return Ok(Next::Asks);
        };
        let share = if is_full { 1 } else { MOST_FRAMES_AT_ONCE };
        let piece = match reply {
            Answering::Desk(reply) => {
                match reply.next_piece(self.rt, self.alloc, self.desk, share) {
                    Ok(piece) => piece,
                    Err(_) => return Err(io::Error::from(ErrorKind::Other)),
                }
            }
            Answering::Past(log) => log.next_piece(self.alloc, share)?,
            Answering::Step(file) => file.next_part(self.alloc)?,
        };
        match piece {
            Some(piece) => Ok(Next::Piece(piece)),
            None => Ok(Next::End),
        }
    }
}
