//! Calls that are gathered until they are whole.

ghost use Rattle.std.specs.Prelude.{◌≡◌, ◌≢◌, ◌↔◌, [], IfOk, IsOk, IsTrue, Ok, OnOk, true};
ghost use Rattle.base_sockets.specs.declared.crowd.Next.TheVariants.{Asks, End, Later, Piece};
ghost use Rattle.base_sockets.specs.Gatherings.{Hears, IsAllAnswered, IsUnheard, MayHaveCalls};

use crate::calls_read::{CallsRead, Found};
use crate::{Next, Talk};
use bytes::{Buf, BytesMut};
use std::alloc::Global;
use std::io;
use std::io::{ErrorKind, Read, Write};

/// What answers calls.
pub trait Answerer {
    /// Answers the calls of a new connection, as http_server's `serve` does: until the connection is done, or a read or a write fails.
    fn answer<R: Read, W: Write>(&mut self, reader: &mut R, writer: &mut W) -> io::Result<()>;
}

/// Has the calls of many connections answered, each once it is whole, in its connection's order. A connection is closed behind the
/// answers to the calls that came; where another call has begun by then, behind the answer to that one. Where memory is full nothing
/// is answered.
#[derive(Drop)]
pub struct CallTalk<A> {
    pub alloc: Global,
    pub answerer: A,
    /// How many bytes of one call are kept at most. A longer one is answered by what came of it, if it is, and its connection closed.
    pub most: usize,
}

/// What came over a connection and was not answered.
#[derive(Drop)]
pub struct CallsSoFar {
    calls: CallsRead,
    bytes: BytesMut,
    has_answered: bool,
    is_over: bool,
}

// Bytes in memory, behind which more may come.
#[derive(Drop)]
struct SoFar<'a> {
    rest: &'a [u8],
}

impl Read for SoFar<'_> {
    fn read(&mut self, buffer: &mut [u8]) -> io::Result<usize> {
        if self.rest.is_empty() {
            return Err(io::Error::from(ErrorKind::WouldBlock));
        }
        let count = self.rest.len().min(buffer.len());
        let (now, later) = self.rest.split_at(count);
        buffer[..count].copy_from_slice(now);
        self.rest = later;
        Ok(count)
    }
}

// What came of calls in memory: what is sent, and whether the connection is done behind it.
#[derive(Drop)]
struct Answers {
    bytes: Vec<u8>,
    is_over: bool,
}

// What these bytes are answered, as a connection of their own.
fn answers_to<A: Answerer>(alloc: Global, answerer: &mut A, bytes: &[u8]) -> io::Result<Answers> {
    let mut reader = SoFar { rest: bytes };
    let mut writer = Vec::new(alloc);
    match answerer.answer(&mut reader, &mut writer) {
        Ok(()) => Ok(Answers {
            bytes: writer,
            is_over: true,
        }),
        Err(error) if error.kind() == ErrorKind::WouldBlock => Ok(Answers {
            bytes: writer,
            is_over: false,
        }),
        Err(error) => Err(error),
    }
}

impl CallsSoFar {
    // Looks for the next call that is whole, or what is none. Where neither is there, for a head that is new.
    fn find(&mut self, most: usize) -> Found {
        let mut found = Found::Nothing;
        for _ in 0..u64::MAX {
            match self.calls.find() {
                Found::Head => found = Found::Head,
                Found::Nothing => break,
                end => return end,
            }
        }
        if self.bytes.len() > most {
            return Found::NoCall;
        }
        found
    }

    // Whether all that came is answered.
    fn is_done(&self) -> bool
        ensures { IsTrue result ↔ IsAllAnswered self.now }
    {
        self.is_over || (self.has_answered && self.bytes.is_empty())
    }
}

// Bytes that are sent, where there are any.
fn piece_of(bytes: Vec<u8>) -> Next
    ensures none { bytes.items ≡ [] → result ≡ End }
    ensures some { bytes.items ≢ [] → result ≡ Piece bytes }
{
    if bytes.is_empty() {
        return Next::End;
    }
    Next::Piece(bytes)
}

impl<A: Answerer> CallTalk<A> {
    // What answers the first so many bytes of a connection, which are then let go.
    fn answer(&mut self, line: &mut CallsSoFar, count: usize) -> io::Result<Next> {
        let count = count.min(line.bytes.len());
        let came = line.bytes.as_slice().get(..count).unwrap_or(&[]);
        let answers = answers_to(self.alloc, &mut self.answerer, came)?;
        line.bytes.advance(count);
        line.has_answered = true;
        line.is_over |= answers.is_over;
        Ok(piece_of(answers.bytes))
    }

    // Whether a head alone is refused, as one of too long a body is. No other is answered before its call is whole.
    fn see_head(&mut self, line: &mut CallsSoFar) -> io::Result<Next> {
        let answers = answers_to(self.alloc, &mut self.answerer, line.bytes.as_slice())?;
        if !answers.is_over {
            return Ok(Next::Asks);
        }
        line.is_over = true;
        Ok(piece_of(answers.bytes))
    }
}

impl<A: Answerer> Talk for CallTalk<A> {
    type Line = CallsSoFar;

    fn begin(&mut self) -> io::Result<CallsSoFar>
        ensures made { IsOk result }
        ensures unheard { IfOk result IsUnheard }
    {
        Ok(CallsSoFar {
            calls: CallsRead::new(self.alloc),
            bytes: BytesMut::new(self.alloc),
            has_answered: false,
            is_over: false,
        })
    }

    fn hear(&mut self, line: &mut CallsSoFar, bytes: &[u8]) -> io::Result<()>
        ensures { OnOk result (Hears bytes.now line.old line.new) }
    {
        line.calls.put(bytes)?;
        line.bytes.extend_from_slice(bytes)?;
        Ok(())
    }

    fn next(&mut self, line: &mut CallsSoFar, is_full: bool) -> io::Result<Next>
        // Behind the answers to what came it is over.
        ensures over { IsAllAnswered line.old
            → (result ≡ Ok End) × (line.new ≡ line.old) × (self.new ≡ self.old) }

        // Where memory is full nothing is answered, and what came stays.
        ensures full { MayHaveCalls line.old → is_full ≡ true
            → (result ≡ Ok Later) × (line.new ≡ line.old) × (self.new ≡ self.old) }
    {
        if line.is_done() {
            return Ok(Next::End);
        }
        if line.bytes.is_empty() {
            return Ok(Next::Asks);
        }
        if is_full {
            return Ok(Next::Later);
        }
        match line.find(self.most) {
            Found::Call(count) => self.answer(line, count),
            Found::NoCall => {
                line.is_over = true;
                let all = line.bytes.len();
                self.answer(line, all)
            }
            Found::Head => self.see_head(line),
            Found::Nothing => Ok(Next::Asks),
        }
    }
}
