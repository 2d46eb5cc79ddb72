//! What is told on standard error while calls are answered.

ghost use Rattle.std.specs.Prelude.{◌≡◌, ◌↔◌, ◌++◌, IfOk, IsTrue, codes};
ghost use Rattle.base_text.specs.Printed.{printed};
ghost use Rattle.signer_command.specs.Notes.{IsCallLine, IsShortLine, asking_line, unwritten_line};

use crate::heard::Word;
use crate::marks::{DiskFailedPlaces, MarkAt};
use base_streams::{MemorySink, Sink, write_all};
use base_text::write_printed;
use blocks::Ballot;
use itoa::Buffer;
use signer_service::{Event, Seen, Witness, put_back_line};
use std::alloc::{AllocError, Global};
use std::fs::{File, Files};
use std::sync::atomic::{AtomicBool, Ordering};
use std::sync::{Mutex, Wait};

/// How long a body may be that is told itself.
const LONGEST_BODY: usize = 80;

/// What is told where it could be written down nowhere that a disk failed.
const NOT_WRITTEN: &[u8] = b"disk-failed not written\n";

/// What is not removed though no chain needs it any more.
#[derive(Clone, Copy, Debug, PartialEq, Eq)]
pub(crate) enum Leftover {
    /// Seeds that could not be removed.
    Seeds,
    /// Logs that could not be.
    Logs,
    /// Seeds and logs that stay since the lineage is still to be compared.
    Uncompared,
}

/// Tells of calls, of sources, and once that a disk stopped the desk, that the log was put back, or what is not removed. What the
/// sink does not take is lost.
#[derive(Drop)]
pub(crate) struct Notes<'a, T: Wait, S: Sink> {
    rt: &'a T,
    alloc: Global,
    sink: Mutex<S>,
    /// Whether each call gets a line.
    verbose: bool,
    places: DiskFailedPlaces<'a>,
    has_stopped: AtomicBool,
    was_put_back: AtomicBool,
    has_old_seeds: AtomicBool,
    has_old_logs: AtomicBool,
    is_uncompared: AtomicBool,
}

impl<'a, T: Wait, S: Sink> Notes<'a, T, S> {
    pub fn new(
        rt: &'a T,
        alloc: Global,
        sink: S,
        verbose: bool,
        places: DiskFailedPlaces<'a>,
    ) -> Notes<'a, T, S> {
        Notes {
            rt,
            alloc,
            sink: Mutex::new(sink),
            verbose,
            places,
            has_stopped: AtomicBool::new(false),
            was_put_back: AtomicBool::new(false),
            has_old_seeds: AtomicBool::new(false),
            has_old_logs: AtomicBool::new(false),
            is_uncompared: AtomicBool::new(false),
        }
    }

    /// Tells a line.
    pub fn tell(&self, line: &[u8]) {
        let mut sink = self.sink.lock(self.rt);
        write(&mut *sink, line);
    }

    // Tells a line that was made, if memory was there.
    fn tell_made(&self, line: Result<Vec<u8>, AllocError>) {
        if let Ok(line) = line {
            self.tell(&line);
        }
    }

    /// Tells once that the log was put back.
    pub fn tell_put_back(&self, ballot: &Ballot) {
        let mut sink = self.sink.lock(self.rt);
        if !self.was_put_back.swap(true, Ordering::SeqCst) {
            write(&mut *sink, &put_back_line(ballot));
        }
    }

    /// Whether it was told that the log was put back.
    pub fn has_told_put_back(&self) -> bool {
        self.was_put_back.load(Ordering::SeqCst)
    }

    /// Tells once what is not removed.
    pub fn tell_left(&self, leftover: Leftover) {
        let (was_told, line): (&AtomicBool, &[u8]) = match leftover {
            Leftover::Seeds => (&self.has_old_seeds, b"seeds not removed\n"),
            Leftover::Logs => (&self.has_old_logs, b"logs not removed\n"),
            Leftover::Uncompared => (&self.is_uncompared, b"seeds and logs kept until compared\n"),
        };
        if !was_told.swap(true, Ordering::SeqCst) {
            self.tell(line);
        }
    }

    /// Tells that `put-back` could not be written in this folder.
    pub fn tell_unwritten(&self, folder: &str) {
        self.tell_made(unwritten_line(self.alloc, folder));
    }

    /// Tells what the source of this number gave, while others are asked before blocks are taken: not once it was told that the log
    /// was put back.
    pub fn tell_asking(&self, number: usize, word: Word) {
        let Ok(line) = asking_line(self.alloc, number, word.name()) else {
            return;
        };
        let mut sink = self.sink.lock(self.rt);
        if !self.has_told_put_back() {
            write(&mut *sink, &line);
        }
    }
}

impl<T: Wait + Files<File = File>, S: Sink> Notes<'_, T, S> {
    /// Writes down that a disk failed, and answers where it stands. Tells where it could be written nowhere.
    pub fn put_down_failure(&self) -> Option<MarkAt> {
        let at = self.places.put_down(self.rt, self.alloc);
        if at.is_none() {
            self.tell(NOT_WRITTEN);
        }
        at
    }

    // Tells once that a disk stopped the desk. It is written down before that is told.
    fn tell_stopped(&self) {
        if self.has_stopped.swap(true, Ordering::SeqCst) {
            return;
        }
        let at = self.places.put_down(self.rt, self.alloc);
        self.tell(b"stopped desk 5\n");
        if at.is_none() {
            self.tell(NOT_WRITTEN);
        }
    }
}

// Writes a line. What the sink does not take is lost: nothing is left to tell it by.
fn write<S: Sink>(sink: &mut S, line: &[u8]) {
    let _ = write_all(sink, line);
}

impl<T: Wait + Files<File = File>, S: Sink> Witness for Notes<'_, T, S> {
    fn saw(&self, call: &Seen<'_>) {
        match &call.event {
            Event::Nothing => {}
            Event::DiskFailed => self.tell_stopped(),
            Event::PutBack(ballot) => self.tell_put_back(ballot),
        }
        if self.verbose {
            self.tell_made(line_of(self.alloc, call));
        }
    }
}

// "METHOD TARGET STATUS BODY", or behind the status how many bytes the body has, where it is no short line.
fn line_of(alloc: Global, call: &Seen<'_>) -> Result<Vec<u8>, AllocError>
    ensures { IfOk result (λ line. IsCallLine call.now line.items) }
{
    let mut line = call.method.to_vec(alloc)?;
    line.push(b' ')?;
    line.extend_from_slice(call.target)?;
    line.push(b' ')?;
    line.extend_from_slice(Buffer::new().format(call.status).as_bytes())?;
    line.push(b' ')?;
    let short = is_short(call);
    if short {
        line.extend_from_slice(call.body)?;
    } else {
        line.extend_from_slice(Buffer::new().format(call.length).as_bytes())?;
        line.extend_from_slice(b" bytes\n")?;
    }
    Ok(line)
}

// Whether the body is one short line. A longer one, or a list of octets, is not told.
fn is_short(call: &Seen<'_>) -> bool
    ensures { IsTrue result ↔ IsShortLine call.now }
{
    let Some(last) = call.body.last() else {
        return false;
    };
    call.length == call.body.len() && call.length <= LONGEST_BODY && *last == b'\n'
}

// "asking source I WORD"
fn asking_line(alloc: Global, number: usize, word: &str) -> Result<Vec<u8>, AllocError>
    ensures { IfOk result (λ line. line.items ≡ asking_line number word.now) }
{
    let mut line = Vec::new(alloc);
    line.extend_from_slice(b"asking source ")?;
    line.extend_from_slice(Buffer::new().format(number).as_bytes())?;
    line.extend_from_slice(b" ")?;
    line.extend_from_slice(word.as_bytes())?;
    line.extend_from_slice(b"\n")?;
    Ok(line)
}

// "put-back not written DIR/put-back", with DIR as the path of a fault is printed.
fn unwritten_line(alloc: Global, folder: &str) -> Result<Vec<u8>, AllocError>
    ensures { IfOk result (λ line. line.items ≡ unwritten_line folder.now) }
{
    let mut path = MemorySink::new(alloc);
    if write_printed(&mut path, folder.as_bytes()).is_err() {
        return Err(AllocError);
    }
    let mut line = Vec::new(alloc);
    line.extend_from_slice(b"put-back not written ")?;
    line.extend_from_slice(path.bytes())?;
    line.extend_from_slice(b"/put-back\n")?;
    Ok(line)
}
