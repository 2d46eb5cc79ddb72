//! When each phase of a collection ended.

use certificates::{LmsVerifier, Verifier};
use lms_tree::PublicKey;
use log_transfer::Watch;
use std::io;
use std::sync::atomic::{AtomicU64, Ordering};
use std::time::{Clock, Instant};

/// Notes when frames come and when the first vote is checked, in microseconds since the start. As a verifier it checks.
#[derive(Drop)]
pub(crate) struct Phases<'a, R: Clock> {
    rt: &'a R,
    start: Instant,
    last_frame: AtomicU64,
    // 0 until there is one.
    first_check: AtomicU64,
}

/// How long the phases of a collection took, in microseconds.
#[derive(Clone, Copy)]
pub(crate) struct Times {
    /// The sources were read.
    pub reading: u64,
    /// What they name was joined.
    pub joining: u64,
    /// Each different vote was checked, and the evidence made.
    pub checks: u64,
}

impl Times {
    /// All of them.
    pub(crate) fn whole(&self) -> u64 {
        self.reading
            .saturating_add(self.joining)
            .saturating_add(self.checks)
    }
}

/// The time since then, in microseconds.
pub(crate) fn since<R: Clock>(rt: &R, start: Instant) -> io::Result<u64> {
    let time = start.elapsed(rt)?;
    let whole = time.as_secs().saturating_mul(1_000_000);
    Ok(whole.saturating_add(u64::from(time.subsec_micros())))
}

impl<'a, R: Clock> Phases<'a, R> {
    /// Starts now.
    pub(crate) fn new(rt: &'a R) -> io::Result<Phases<'a, R>> {
        Ok(Phases {
            rt,
            start: Instant::now(rt)?,
            last_frame: AtomicU64::new(0),
            first_check: AtomicU64::new(0),
        })
    }

    // The time since the start; where the clock fails the greatest time, which shows.
    fn now(&self) -> u64 {
        since(self.rt, self.start).unwrap_or(u64::MAX)
    }

    /// What was noted, at the end of the collection.
    pub(crate) fn times(&self) -> Times {
        let end = self.now();
        let read = self.last_frame.load(Ordering::SeqCst).min(end);
        let first = self.first_check.load(Ordering::SeqCst);
        let joined = if first == 0 {
            end
        } else {
            first.clamp(read, end)
        };
        Times {
            reading: read,
            joining: joined - read,
            checks: end - joined,
        }
    }
}

impl<'a, R: Clock> Watch for Phases<'a, R> {
    fn reached(&self, _source: usize, _frames: u32) {
        let _ = self.last_frame.fetch_max(self.now(), Ordering::SeqCst);
    }
}

impl<'a, R: Clock> Verifier for Phases<'a, R> {
    fn verify(&self, key: &PublicKey, message: &[u8], signature: &[u8]) -> bool {
        if self.first_check.load(Ordering::SeqCst) == 0 {
            let _ = self
                .first_check
                .compare_exchange(0, self.now().max(1), Ordering::SeqCst, Ordering::SeqCst);
        }
        LmsVerifier.verify(key, message, signature)
    }
}
