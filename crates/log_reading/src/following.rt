//! The logs that came of one source.

ghost use Rattle.std.specs.Prelude.{◌≡◌, ◌↔◌, ◌++◌, ◌∷◌, [], IfOk, IsTrue, MatchOption, OnOk, length};
ghost use Rattle.std.specs.List.{All};
ghost use Rattle.sha2.specs.Sha256.{sha256};
ghost use Rattle.log_reading.specs.Following.{BeginsWith, GoesOn, IsFirst, IsPlaced, read_then};

use crate::kept_log::KeptLog;
use sha2::{Digest as _, Sha256};
use std::alloc::{AllocError, Global};
use std::marker::Model;

/// SHA-256 of a frame.
pub type FrameDigest = [u8; 32];

/// How many logs of one source are kept apart.
pub const MOST_LOGS: usize = 4;

/// The digest of a frame.
pub fn digest_of(frame: &[u8]) -> FrameDigest
    ensures { result ≡ sha256 frame.now }
{
    let mut hasher = Sha256::new();
    hasher.update(frame);
    hasher.finalize()
}

/// Where a frame that comes next has its place.
#[derive(Clone, Copy, Debug, PartialEq, Eq)]
pub enum FramePlace {
    /// This log, the first that does, has it there already.
    Known(usize),
    /// No log has it there, and it is the next of this one, the first that ends there.
    Next(usize),
    /// It is the last of a new log of this number, which begins as what was read.
    Opens(usize),
    /// It would open one log too many, and is not kept.
    Beyond,
}

/// The logs that came of a source, at most four, and how far the one that it has now was read. Contracts see the digests of
/// their frames.
#[derive(Drop)]
pub struct SourceLogs {
    alloc: Global,
    present: Vec<FrameDigest>,
    before: Vec<FrameDigest>,
    logs: Vec<KeptLog>,
}

impl Model for SourceLogs {
    ghost use Rattle.log_reading.specs.Following.{Followed};

    ghost Value = { Followed };

    ghost view = { λ s. record {
      present = s.present.items;
      before = s.before.items;
      logs = s.logs.items;
    } };
}

// The first of the logs that begins with these frames and this next one.
fn first_beginning(logs: &[KeptLog], front: &[FrameDigest], next: &FrameDigest) -> Option<usize>
    ensures { MatchOption result
        (All (λ log. BeginsWith (front.now ++ next.now ∷ []) log → ⊥) logs.now)
        (IsFirst (BeginsWith (front.now ++ next.now ∷ [])) logs.now) }
{
    logs.iter().position(|log| log.begins_with(front, next))
}

// The first of the logs that is this one.
fn first_equal(logs: &[KeptLog], digests: &[FrameDigest]) -> Option<usize>
    ensures { MatchOption result (All (λ log. log ≡ digests.now → ⊥) logs.now)
        (IsFirst (λ log. log ≡ digests.now) logs.now) }
{
    logs.iter().position(|log| log.is(digests))
}

impl SourceLogs {
    /// One log, of which nothing was read.
    pub fn new(alloc: Global) -> Result<SourceLogs, AllocError>
        ensures { IfOk result (λ s. s ≡ record {
          present = [];
          before = [];
          logs = [] ∷ [];
        }) }
    {
        let mut logs = Vec::new(alloc);
        logs.push(KeptLog::new(alloc))?;
        Ok(SourceLogs {
            alloc,
            present: Vec::new(alloc),
            before: Vec::new(alloc),
            logs,
        })
    }

    /// How many frames were read of the log that the source has now.
    pub fn read(&self) -> usize
        ensures { result ≡ length self.now.present }
    {
        self.present.len()
    }

    /// The log that the source has now, as far as it was read.
    pub fn present(&self) -> &[FrameDigest]
        ensures { result.now ≡ self.now.present }
    {
        &self.present
    }

    /// How many logs came.
    pub fn logs(&self) -> usize
        ensures { result ≡ length self.now.logs }
    {
        self.logs.len()
    }

    /// Whether an answer whose first frame has this digest goes on where what was read ends.
    pub fn goes_on(&self, first: Option<FrameDigest>) -> bool
        ensures { IsTrue result ↔ GoesOn self.now first }
    {
        let Some(last) = self.present.last() else {
            return true;
        };
        match first {
            Some(first) => first == *last,
            None => false,
        }
    }

    /// From here on the log is read anew.
    pub fn restart(&mut self) -> Result<(), AllocError>
        ensures ok { OnOk result (self.new ≡ record {
          present = [];
          before = self.old.present;
          logs = self.old.logs;
        }) }
    {
        self.before = self.present.clone()?;
        self.present.clear();
        Ok(())
    }

    /// Whether what was read anew begins with all that was read before.
    pub fn keeps(&self) -> bool
        ensures { IsTrue result ↔ BeginsWith self.now.before self.now.present }
    {
        self.present.starts_with(&self.before)
    }

    // What was read and this next frame, as a log of its own: at most three times of a source.
    fn new_log(&self, digest: &FrameDigest) -> Result<KeptLog, AllocError>
        ensures { IfOk result (λ log. log ≡ read_then self.now digest.now) }
    {
        let mut log = KeptLog::of(self.alloc, &self.present)?;
        log.push(digest)?;
        Ok(log)
    }

    /// Reads the next frame, and says where it has its place. After a refusal of memory it is to be dropped.
    pub fn place(&mut self, digest: &FrameDigest) -> Result<FramePlace, AllocError>
        ensures { IfOk result (IsPlaced self.old self.new digest.now) }
    {
        if let Some(k) = first_beginning(&self.logs, &self.present, digest) {
            self.present.push(*digest)?;
            return Ok(FramePlace::Known(k));
        }
        if let Some(k) = first_equal(&self.logs, &self.present) {
            self.logs[k].push(digest)?;
            self.present.push(*digest)?;
            return Ok(FramePlace::Next(k));
        }
        let count = self.logs();
        if count >= MOST_LOGS {
            return Ok(FramePlace::Beyond);
        }
        let log = self.new_log(digest)?;
        self.logs.push(log)?;
        self.present.push(*digest)?;
        Ok(FramePlace::Opens(count))
    }
}
