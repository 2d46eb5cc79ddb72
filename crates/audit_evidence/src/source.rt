//! What came of sources.

ghost use Rattle.std.specs.Prelude.{◌≡◌};

use log_format::{Frames, Status};
use std::marker::Model;

/// What came of a source: a replica's number in the committee, and the frames that came as its log.
#[derive(Drop)]
pub struct SourceLog<'a> {
    /// The replica whose log it is said to be.
    pub replica: u16,
    /// The whole frames, and how they end.
    pub frames: Frames<'a>,
}

impl<'a> Model for SourceLog<'a> {
    ghost use Rattle.audit_evidence.specs.Logs.{ReceivedLog};

    ghost Value = { ReceivedLog };

    ghost view = { λ l. record {
      replica = l.replica;
      frames = l.frames.frames;
      status = l.frames.status;
    } };
}

/// How a source did.
#[derive(Clone, Copy, Debug, PartialEq, Eq)]
pub struct SourceReport {
    /// The replica whose log it is said to be.
    pub replica: u16,
    /// How what came ends.
    pub status: Status,
    /// How many whole frames came, at most 4,096.
    pub frames: usize,
    /// How many of them are entries of a log.
    pub entries: usize,
}
