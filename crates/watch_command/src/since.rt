//! Since when what is shown holds.

use log_format::Status;
use std::alloc::{AllocError, Global};
use watch_desk::{SourceKnown, WatchDesk};

/// .. of a source. Times are seconds since 1970, 0 for what does not hold.
#[derive(Clone, Copy, Debug)]
pub(crate) struct SourceSince {
    // Whether its log came whole, once something was told of it.
    is_whole: Option<bool>,
    /// Since when that is so.
    pub status: u64,
    /// Since when votes of it are not good.
    pub bad: u64,
    /// Since when it is set aside.
    pub aside: u64,
    /// Since when it gives one log too many.
    pub beyond: u64,
}

/// .. of all that a watch shows.
#[derive(Drop)]
pub(crate) struct Since {
    pub sources: Vec<SourceSince>,
    /// Since when something is not stored.
    pub unstored: u64,
    /// Since when it is known that commits conflict.
    pub conflict: u64,
}

// Of a source of which nothing came.
const NOTHING: SourceSince = SourceSince {
    is_whole: None,
    status: 0,
    bad: 0,
    aside: 0,
    beyond: 0,
};

impl Since {
    /// Nothing holds yet of so many sources.
    pub fn new(alloc: Global, sources: usize) -> Result<Since, AllocError> {
        let mut all = Vec::new(alloc);
        for _ in 0..sources {
            all.push(NOTHING)?;
        }
        Ok(Since {
            sources: all,
            unstored: 0,
            conflict: 0,
        })
    }

    /// Notes what holds at this second.
    pub fn note(&mut self, desk: &WatchDesk, is_unstored: bool, second: u64) {
        for (since, known) in self.sources.iter_mut().zip(desk.known()) {
            since.note(known, second);
        }
        self.unstored = held(self.unstored, is_unstored, second);
        self.conflict = held(self.conflict, desk.told().conflict().is_some(), second);
    }
}

impl SourceSince {
    fn note(&mut self, known: &SourceKnown, second: u64) {
        let is_whole = known.status.map(|status| status == Status::Whole);
        if self.is_whole != is_whole {
            self.is_whole = is_whole;
            self.status = second;
        }
        self.bad = held(self.bad, !known.bad.is_empty(), second);
        self.aside = held(self.aside, known.is_aside(), second);
        self.beyond = held(self.beyond, known.is_beyond, second);
    }
}

// Since when something holds, if it does, that held since then.
fn held(since: u64, holds: bool, second: u64) -> u64 {
    if !holds {
        return 0;
    }
    if since == 0 {
        return second;
    }
    since
}
