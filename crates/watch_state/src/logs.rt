//! The logs of a source, as their parts are read again.

ghost use Rattle.std.specs.List.{All};
ghost use Rattle.std.specs.Prelude.{◌≡◌, ◌↔◌, IsTrue, ◌≤◌, ◌<◌, ◌++◌, ◌∷◌, [], ℕ, List, IfOk, MatchOption, OnOk, drop, length, slice_index_or, slice_set, take};
ghost use Rattle.log_reading.specs.Following.{BeginsWith, IsFirst};
ghost use Rattle.watch_state.specs.Digests.{log_digest};
ghost use Rattle.watch_state.specs.Logs.{BeginsAs, GoesOn, HasFront, HasPart, IsFront, IsJoined, Opens, StandsBehind};

use crate::digest::{LogDigest, NO_FRAMES, digest_then};
use crate::name::PartName;
use log_reading::FrameDigest;
use std::alloc::{AllocError, Global};
use std::marker::Model;

/// What frames of these digests digest to.
#[tactic(auto, unfolding(crate::specs::Digests::log_digest, crate::specs::Digests::no_frames))]
pub fn log_digest(frames: &[FrameDigest]) -> LogDigest
    ensures { result ≡ log_digest frames.now }
{
    let mut digest = NO_FRAMES;
    for frame in frames {
        digest = digest_then(&digest, frame);
    }
    digest
}

// A log by the digests of its frames, and what they digest to. Contracts see the digests.
#[derive(Drop)]
struct KeptLog {
    frames: Vec<FrameDigest>,
    end: LogDigest,
}

impl Model for KeptLog {
    ghost use Rattle.std.specs.Prelude.{◌≡◌, ℕ, List};
    ghost use Rattle.watch_state.specs.Digests.{log_digest};

    ghost Value = { List (List ℕ) };

    ghost view = { λ l. l.frames.items };

    ghost invariant = { λ l. l.end ≡ log_digest l.frames.items };
}

impl KeptLog {
    // These frames.
    fn of(alloc: Global, frames: &[FrameDigest]) -> Result<KeptLog, AllocError>
        ensures { IfOk result (λ l. l ≡ frames.now) }
    {
        Ok(KeptLog {
            frames: frames.to_vec(alloc)?,
            end: log_digest(frames),
        })
    }

    // One more.
    #[tactic(auto, using(crate::proofs::Digesting::log_one_more))]
    fn push(&mut self, frame: &FrameDigest) -> Result<(), AllocError>
        ensures { OnOk result (self.new ≡ self.old ++ frame.now ∷ []) }
    {
        let end = digest_then(&self.end, frame);
        self.frames.push(*frame)?;
        self.end = end;
        Ok(())
    }

    // All of it, where the part stands behind that.
    fn whole_before(&self, name: &PartName) -> Option<&[FrameDigest]>
        ensures { MatchOption result (StandsBehind name.now self.now → ⊥)
            (λ front. (front.now ≡ self.now) × StandsBehind name.now front.now) }
    {
        if self.frames.len() != usize::from(name.place) {
            return None;
        }
        if self.end != name.front {
            return None;
        }
        Some(&self.frames)
    }

    // Whether the part stands behind the beginning of it.
    fn has_front(&self, name: &PartName) -> bool
        ensures { IsTrue result ↔ HasFront name.now self.now }
    {
        let place = usize::from(name.place);
        if place > self.frames.len() {
            return false;
        }
        log_digest(&self.frames[..place]) == name.front
    }

    // Whether these frames begin with all of it.
    fn begins(&self, frames: &[FrameDigest]) -> bool
        ensures { IsTrue result ↔ BeginsWith self.now frames.now }
    {
        frames.starts_with(&self.frames)
    }

    // Whether it begins with these frames.
    fn holds(&self, frames: &[FrameDigest]) -> bool
        ensures { IsTrue result ↔ BeginsWith frames.now self.now }
    {
        self.frames.starts_with(frames)
    }

    // Whether it has these frames behind so many.
    fn holds_behind(&self, place: usize, frames: &[FrameDigest]) -> bool
        requires { place ≤ length self.now }
        ensures { IsTrue result ↔ BeginsWith frames.now (drop place self.now) }
    {
        self.frames[place..].starts_with(frames)
    }

    // Whether it has these frames behind those in front of the part.
    fn has_part(&self, name: &PartName, frames: &[FrameDigest]) -> bool
        ensures { IsTrue result ↔ HasPart name.now frames.now self.now }
    {
        if !self.has_front(name) {
            return false;
        }
        self.holds_behind(usize::from(name.place), frames)
    }

    // So many of its first frames.
    fn first(&self, count: usize) -> &[FrameDigest]
        requires { count ≤ length self.now }
        ensures { result.now ≡ take count self.now }
    {
        &self.frames[..count]
    }
}

/// The logs of a source that are kept, as their parts are read again, in the order of their names. Contracts see the digests
/// of their frames.
#[derive(Drop)]
pub struct KeptLogs {
    alloc: Global,
    logs: Vec<KeptLog>,
}

impl Model for KeptLogs {
    ghost use Rattle.std.specs.Prelude.{ℕ, List};

    ghost Value = { List (List (List ℕ)) };

    ghost view = { λ s. s.logs.items };
}

impl KeptLogs {
    /// Nothing was read yet.
    pub fn new(alloc: Global) -> KeptLogs
        ensures { result ≡ [] }
    {
        KeptLogs {
            alloc,
            logs: Vec::new(alloc),
        }
    }

    /// How many logs there are.
    pub fn len(&self) -> usize
        ensures { result ≡ length self.now }
    {
        self.logs.len()
    }

    /// The frames behind which a part stands: all those of its log so far, or, of a part that opens the next log, none or the
    /// beginning of another one. None where it does not go on where something ends: a part is missing, or was renamed.
    pub fn front(&self, name: &PartName) -> Option<&[FrameDigest]>
        ensures { MatchOption result ((front : List (List ℕ)) → IsFront self.now name.now front → ⊥)
            (λ front. IsFront self.now name.now front.now) }
    {
        let log = usize::from(name.log);
        if log < self.logs.len() {
            return self.logs[log].whole_before(name);
        }
        if log > self.logs.len() {
            return None;
        }
        self.beginning(name)
    }

    // .. of a part that opens the next log.
    #[tactic(auto, using(crate::proofs::Opening::no_opening, crate::proofs::Opening::opens_as, crate::proofs::Opening::opens_anew, crate::proofs::Opening::opens_nowhere))]
    fn beginning(&self, name: &PartName) -> Option<&[FrameDigest]>
        requires { name.now.log ≡ length self.now }
        ensures { MatchOption result ((front : List (List ℕ)) → Opens self.now name.now front → ⊥)
            (λ front. Opens self.now name.now front.now) }
    {
        if name.place == 0 {
            if log_digest(&[]) != name.front {
                return None;
            }
            return Some(&[]);
        }
        match self.logs.iter().position(|log| log.has_front(name)) {
            Some(k) => Some(self.logs[k].first(usize::from(name.place))),
            None => None,
        }
    }

    /// Whether a part with these frames was joined to one before it: its log is there, the part stands behind the beginning of that, and
    /// its frames are what the log has from there on, no more.
    pub fn is_joined(&self, name: &PartName, frames: &[FrameDigest]) -> bool
        ensures { IsTrue result ↔ IsJoined self.now name.now frames.now }
    {
        let log = usize::from(name.log);
        if log >= self.logs.len() {
            return false;
        }
        self.logs[log].has_part(name, frames)
    }

    /// The first log with all of which these frames begin: the source that has them lost nothing of that log.
    pub fn begun(&self, frames: &[FrameDigest]) -> Option<usize>
        ensures { MatchOption result (All (λ log. BeginsWith log frames.now → ⊥) self.now)
            (IsFirst (λ log. BeginsWith log frames.now) self.now) }
    {
        self.logs.iter().position(|log| log.begins(frames))
    }

    /// The first log that begins with these frames.
    pub fn holding(&self, frames: &[FrameDigest]) -> Option<usize>
        ensures { MatchOption result (All (λ log. BeginsWith frames.now log → ⊥) self.now)
            (IsFirst (BeginsWith frames.now) self.now) }
    {
        self.logs.iter().position(|log| log.holds(frames))
    }

    /// Opens the next log, which begins with these frames.
    pub fn begin(&mut self, front: &[FrameDigest]) -> Result<(), AllocError>
        ensures { OnOk result (self.new ≡ self.old ++ front.now ∷ []) }
    {
        self.logs.push(KeptLog::of(self.alloc, front)?)?;
        Ok(())
    }

    /// One more frame of a log.
    pub fn push(&mut self, log: usize, frame: &FrameDigest) -> Result<(), AllocError>
        requires { log < length self.old }
        ensures { OnOk result (self.new
            ≡ slice_set self.old log (slice_index_or self.old log [] ++ frame.now ∷ [])) }
    {
        self.logs[log].push(frame)
    }
}
