//! A source as a watch saw it.

ghost use Rattle.std.specs.Prelude.{◌≡◌};
ghost use Rattle.watch_report.specs.Sources.{answers, has_bad_votes, hearing_of, is_back, is_heard, is_whole, since_of, source_state_of};

use crate::times::{is_late, lasts_back};
use blocks::Id;
use log_format::Status;

/// What the frames of a source's logs digest to: see docs/FORMATS.md.
#[derive(Clone, Copy, Debug, PartialEq, Eq)]
pub struct SourceDigests {
    /// Those of its first log.
    pub first: Id,
    /// Those of all its logs, in their order.
    pub all: Id,
}

/// A source as a watch saw it. Times are seconds since 1970, 0 where there was none.
#[derive(Drop)]
pub struct SourceSeen {
    /// Its number, from 0, in the order in which the sources are named.
    pub number: u16,
    /// The word that names it.
    pub word: String,
    /// The replica whose log it is said to be.
    pub replica: u16,
    /// It is a file, which is read once.
    pub is_file: bool,
    /// How its log ends, once something was told of it.
    pub status: Option<Status>,
    /// How many frames came, of all its logs.
    pub frames: u64,
    /// How many of them are entries.
    pub entries: u64,
    /// How many of its votes are not good.
    pub bad_votes: u64,
    /// The greatest view of its votes that came in parts of which no vote is bad.
    pub top_view: u64,
    /// What its frames digest to.
    pub digests: SourceDigests,
    /// When it last gave a byte.
    pub last_answer: u64,
    /// When a frame last came of it.
    pub last_frame: u64,
    /// How often it went back.
    pub times_back: u64,
    /// When it last did; 0 where it gave all again that it had then.
    pub went_back_at: u64,
    /// It gave one log too many, which is not read.
    pub is_beyond: bool,
    /// No more of it is read.
    pub is_aside: bool,
    /// Since when its log ends as it does.
    pub status_since: u64,
    /// Since when votes of it are not good.
    pub bad_since: u64,
    /// Since when no more of it is read.
    pub aside_since: u64,
    /// Since when it gives one log too many.
    pub beyond_since: u64,
    /// Since when it has no log of a chain to which others went over.
    pub stays_since: u64,
}

/// How a source does: the first that is so.
#[derive(Clone, Copy, Debug, PartialEq, Eq)]
pub enum SourceState {
    /// It went back, and did not give all again that it had.
    Back,
    /// No more of it is read.
    Aside,
    /// It gave one log too many, which is not read.
    Beyond,
    /// Votes of it are not good.
    Bad,
    /// Its log came whole, and it answers.
    Answers,
    /// Its log came whole once, and it answers no more.
    Silent,
    /// Nothing was told of its log yet.
    Unread,
    /// Its log did not come whole.
    NotWhole,
}

impl SourceSeen {
    /// Whether what came last of it had its end mark.
    pub fn is_whole(&self) -> bool
        ensures { result ≡ is_whole self.now.status }
    {
        match self.status {
            Some(Status::Whole) => true,
            Some(Status::Cut | Status::Broken | Status::TooLong | Status::Failed) | None => false,
        }
    }

    /// Whether it answers: all of it is read, no vote of it is bad, what came last of it was whole, and of a server it is not too
    /// old at this second.
    pub fn answers(&self, every: u32, second: u64) -> bool
        ensures { result ≡ answers every second self.now }
    {
        if self.is_aside || self.is_beyond {
            return false;
        }
        if self.has_bad_votes() {
            return false;
        }
        self.is_heard(every, second)
    }

    // .. whatever its votes are.
    fn is_heard(&self, every: u32, second: u64) -> bool
        ensures { result ≡ is_heard every second self.now }
    {
        if !self.is_whole() {
            return false;
        }
        if self.is_file {
            return true;
        }
        !is_late(self.last_answer, every, second)
    }

    /// Whether it went back, and has not given all again that it had; for an hour at most.
    pub fn is_back(&self, second: u64) -> bool
        ensures { result ≡ is_back second self.now }
    {
        if self.went_back_at == 0 {
            return false;
        }
        lasts_back(self.went_back_at, second)
    }

    /// Whether a vote of it is not good.
    pub fn has_bad_votes(&self) -> bool
        ensures { result ≡ has_bad_votes self.now }
    {
        0 < self.bad_votes
    }

    /// How it does at this second, where it is asked each so many milliseconds.
    #[tactic(auto, unfolding(crate::specs::Sources::source_state_of))]
    pub fn state(&self, every: u32, second: u64) -> SourceState
        ensures { result ≡ source_state_of every second self.now }
    {
        if self.is_back(second) {
            return SourceState::Back;
        }
        if self.is_aside {
            return SourceState::Aside;
        }
        if self.is_beyond {
            return SourceState::Beyond;
        }
        if self.has_bad_votes() {
            return SourceState::Bad;
        }
        self.hearing(every, second)
    }

    /// How it answers, whatever else is wrong with it.
    #[tactic(auto, unfolding(crate::specs::Sources::hearing_of))]
    pub fn hearing(&self, every: u32, second: u64) -> SourceState
        ensures { result ≡ hearing_of every second self.now }
    {
        if self.is_heard(every, second) {
            return SourceState::Answers;
        }
        if self.is_whole() {
            return SourceState::Silent;
        }
        match self.status {
            None => SourceState::Unread,
            Some(_) => SourceState::NotWhole,
        }
    }

    /// Since when it does so; 0 where that was so from the start.
    #[tactic(auto, unfolding(crate::specs::Sources::since_of))]
    pub fn since(&self, state: SourceState) -> u64
        ensures { result ≡ since_of state self.now }
    {
        match state {
            SourceState::Back => self.went_back_at,
            SourceState::Aside => self.aside_since,
            SourceState::Beyond => self.beyond_since,
            SourceState::Bad => self.bad_since,
            SourceState::Answers | SourceState::Silent => self.last_answer,
            SourceState::Unread => 0,
            SourceState::NotWhole => self.status_since,
        }
    }
}
