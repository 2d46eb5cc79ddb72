//! What was heard of the sources.

use blocks::CommitteeView;
use log_format::{Frames, Status};
use signer_answers::greatest_certified;
use signer_service::Heard;
use std::alloc::{AllocError, Global};
use std::sync::{Mutex, Wait};
use std::time::{Clock, Instant};

/// How long nothing more is told of a source that was told of, in seconds.
const QUIET_SECONDS: u64 = 60;

/// What came of the last look at a source.
#[derive(Clone, Copy, Debug, PartialEq, Eq)]
pub(crate) enum Word {
    /// What it gave ended so.
    Read(Status),
    /// Its name has no address.
    Unresolved,
    /// It is the log of another chain, or its server says that it has none of this one.
    OtherChain,
    /// It closed without a byte, and was asked again without the chain's name.
    Unnamed,
    /// It shows a vote of this replica, in whose view the replica's own log can't be read, or has another one that is not good.
    OwnLog,
    /// Memory was refused.
    Memory,
}

impl Word {
    /// As it is told.
    pub fn name(self) -> &'static str {
        match self {
            Word::Read(status) => status.name(),
            Word::Unresolved => "Unresolved",
            Word::OtherChain => "OtherChain",
            Word::Unnamed => "Unnamed",
            Word::OwnLog => "OwnLog",
            Word::Memory => "Memory",
        }
    }
}

/// What was told of a source while others were asked.
#[derive(Clone, Copy, Debug)]
pub(crate) struct Telling {
    word: Option<Word>,
    since: Option<Instant>,
}

impl Telling {
    /// Nothing.
    pub fn new() -> Telling {
        Telling {
            word: None,
            since: None,
        }
    }

    /// Whether this is to be told now: it is another word than the last that was told, a minute ago or more. It is noted as told then.
    pub fn is_due(&mut self, clock: &impl Clock, word: Word) -> bool {
        if self.word == Some(word) || !self.is_quiet_over(clock) {
            return false;
        }
        self.word = Some(word);
        self.since = Instant::now(clock).ok();
        true
    }

    fn is_quiet_over(&self, clock: &impl Clock) -> bool {
        let Some(since) = self.since else {
            return true;
        };
        match since.elapsed(clock) {
            Ok(gone) => gone.as_secs() >= QUIET_SECONDS,
            Err(_) => false,
        }
    }
}

/// What was heard of all sources so far.
#[derive(Drop)]
pub(crate) struct Hearing {
    pub heard: Mutex<HeardSoFar>,
}

/// Whose logs were read whole, by the replicas' numbers, and the greatest view that any certifies.
#[derive(Drop)]
pub(crate) struct HeardSoFar {
    pub whole: Vec<bool>,
    pub greatest: Option<u64>,
}

impl Heard for HeardSoFar {
    ghost hearing = { λ h. record { whole = h.whole.items; greatest = h.greatest } };

    fn whole(&self) -> &[bool] {
        &self.whole
    }

    fn greatest(&self) -> Option<u64> {
        self.greatest
    }
}

impl Hearing {
    /// Nothing of so many replicas.
    pub fn new(alloc: Global, replicas: u16) -> Result<Hearing, AllocError> {
        let mut whole = Vec::new(alloc);
        whole.resize(usize::from(replicas), false)?;
        Ok(Hearing {
            heard: Mutex::new(HeardSoFar {
                whole,
                greatest: None,
            }),
        })
    }

    /// Notes up to which view blocks are certified by the frames from this place on.
    pub fn note_certified<T: Wait>(
        &self,
        rt: &T,
        alloc: Global,
        committee: &CommitteeView<'_>,
        frames: &Frames,
        from: usize,
    ) -> Result<(), AllocError> {
        // It takes long, and others need not wait for it.
        let before = {
            let heard = self.heard.lock(rt);
            heard.greatest
        };
        let greatest = greatest_certified(alloc, committee, frames, from, before)?;
        let mut heard = self.heard.lock(rt);
        if heard.greatest < greatest {
            heard.greatest = greatest;
        }
        Ok(())
    }
}
