//! Frames of a stream that comes in pieces.

ghost use Rattle.std.specs.Prelude.{◌≡◌, ◌++◌, [], ℕ, List, OnErr, OnOk, false, None};
ghost use Rattle.log_format.specs.Readings.{IsReading};
ghost use Rattle.log_transfer.specs.Pulled.{IsPulledOf, status_of};

use crate::payload::Payload;
use crate::reading_on::read_on;
use log_format::Status;
use std::alloc::{AllocError, Global};
use std::marker::Model;

/// Takes a stream in pieces of any size, for a reader that holds so many frames of its source.
#[derive(Drop)]
pub struct Puller {
    alloc: Global,
    held: usize,
    begun: bool,
    frames: Vec<Payload>,
    rest: Vec<u8>,
    ended: Option<Status>,
}

impl Model for Puller {
    ghost use Rattle.log_transfer.specs.Pulled.{Pulled};

    ghost Value = { Pulled };

    ghost view = { λ p. record {
      held = p.held;
      begun = p.begun;
      frames = p.frames.items;
      rest = p.rest.items;
      ended = p.ended;
    } };
}

impl Puller {
    /// Nothing came yet.
    pub fn new(alloc: Global, held: usize) -> Puller
        ensures pulled { IsPulledOf [] result }
        ensures held { result.held ≡ held }
    {
        Puller {
            alloc,
            held,
            begun: false,
            frames: Vec::new(alloc),
            rest: Vec::new(alloc),
            ended: None,
        }
    }

    /// Takes a piece. Where memory is refused nothing changes. What comes behind the end is ignored.
    pub fn feed(&mut self, piece: &[u8]) -> Result<(), AllocError>
        ensures ok { OnOk result ((stream : List ℕ) → IsPulledOf stream self.old
            → IsPulledOf (stream ++ piece.now) self.new) }
        ensures held { self.new.held ≡ self.old.held }
        ensures err { OnErr result (self.new ≡ self.old) }
    {
        match self.ended {
            Some(_) => Ok(()),
            None => self.feed_on(piece),
        }
    }

    // The same, where nothing is decided.
    fn feed_on(&mut self, piece: &[u8]) -> Result<(), AllocError>
        requires { self.old.ended ≡ None }
        ensures ok { OnOk result ((stream : List ℕ) → IsPulledOf stream self.old
            → IsPulledOf (stream ++ piece.now) self.new) }
        ensures held { self.new.held ≡ self.old.held }
        ensures err { OnErr result (self.new ≡ self.old) }
    {
        let came = self.rest.len();
        let count = self.frames.len();
        self.rest.extend_from_slice(piece)?;
        match read_on(
            self.alloc,
            self.held,
            self.begun,
            &mut self.frames,
            &self.rest,
        ) {
            Ok(found) => {
                self.rest.drain(..found.used);
                self.begun = found.begun;
                self.ended = found.ended;
                Ok(())
            }
            Err(e) => {
                self.frames.truncate(count);
                self.rest.truncate(came);
                Err(e)
            }
        }
    }

    /// The payloads of its frames.
    pub fn frames(&self) -> &[Payload]
        ensures { result.now ≡ self.now.frames }
    {
        &self.frames
    }

    /// How the stream ends, if no more comes.
    pub fn status(&self) -> Status
        ensures value { result ≡ status_of self.now.ended }
        ensures reading { (stream : List ℕ) → IsPulledOf stream self.now
            → IsReading self.now.held stream false self.now.frames result }
    {
        match self.ended {
            Some(status) => status,
            None => Status::Cut,
        }
    }
}
