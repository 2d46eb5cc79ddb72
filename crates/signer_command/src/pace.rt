//! How long a caller may take.

pub(crate) use base_sockets::tick;
use std::io;
use std::time::{Clock, Duration, Instant};

/// How long a caller may send nothing.
const IDLE_SECONDS: u64 = 60;

/// How long a call may take from its first byte to its last, and an answer to be taken.
const WORK_SECONDS: u64 = 10;

/// What a connection waits for, and since when.
#[derive(Clone, Copy, Debug)]
pub(crate) struct Pace {
    /// When it began to wait for a call.
    quiet: Instant,
    /// When the first byte came of a call that is not answered.
    asking: Option<Instant>,
    /// When the answers were made that are being sent.
    answering: Option<Instant>,
}

impl Pace {
    /// A connection that was just made.
    pub fn new(clock: &impl Clock) -> io::Result<Pace> {
        let now = Instant::now(clock)?;
        Ok(Pace {
            quiet: now,
            asking: None,
            answering: None,
        })
    }

    /// A read begins: what was to be sent was taken.
    pub fn begin_to_read(&mut self, clock: &impl Clock) -> io::Result<()> {
        if self.answering.is_some() {
            self.answering = None;
            self.quiet = Instant::now(clock)?;
        }
        Ok(())
    }

    /// Bytes came. Where they end amid a call it began with them, if another one ended in them, or before.
    pub fn took(&mut self, has_ended: bool, is_amid: bool, clock: &impl Clock) -> io::Result<()> {
        let now = Instant::now(clock)?;
        self.quiet = now;
        if !is_amid {
            self.asking = None;
        } else if has_ended || self.asking.is_none() {
            self.asking = Some(now);
        }
        Ok(())
    }

    /// A write begins.
    pub fn begin_to_write(&mut self, clock: &impl Clock) -> io::Result<()> {
        if self.answering.is_none() {
            self.answering = Some(Instant::now(clock)?);
        }
        Ok(())
    }

    /// Whether it has waited too long.
    pub fn is_over(&self, clock: &impl Clock) -> io::Result<bool> {
        match self.answering.or(self.asking) {
            Some(since) => Ok(since.elapsed(clock)? > Duration::from_secs(WORK_SECONDS)),
            None => Ok(self.quiet.elapsed(clock)? > Duration::from_secs(IDLE_SECONDS)),
        }
    }
}
