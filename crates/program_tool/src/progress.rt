//! How far an audit has come with its sources.

use certificates::{LmsVerifier, Verifier};
use lms_tree::PublicKey;
use log_transfer::Watch;
use std::alloc::{AllocError, Global};
use std::io::{Stderr, Write};
use std::sync::atomic::{AtomicU64, Ordering};
use std::time::{Clock, Instant};

/// How many frames of each source are in, and how many signatures were checked. At most once a second a line is shown: as `frames
/// 12 0 7`, in the order of the sources, and from the first check on as `checks 1200`.
#[derive(Drop)]
pub(crate) struct Progress<'a, T: Clock> {
    alloc: Global,
    clock: &'a T,
    console: Option<Stderr>,
    frames: Vec<AtomicU64>,
    checks: AtomicU64,
    // None where no one looks.
    since: Option<Instant>,
    // Up to which second it was shown.
    shown: AtomicU64,
}

impl<'a, T: Clock> Progress<'a, T> {
    /// Of so many sources, no frame yet.
    pub fn new(
        alloc: Global,
        clock: &'a T,
        console: Option<Stderr>,
        sources: usize,
    ) -> Result<Progress<'a, T>, AllocError> {
        let mut frames = Vec::with_capacity(alloc, sources)?;
        for _ in 0..sources {
            frames.push(AtomicU64::new(0))?;
        }
        let since = match console {
            Some(_) => Instant::now(clock).ok(),
            None => None,
        };
        Ok(Progress {
            alloc,
            clock,
            console,
            frames,
            checks: AtomicU64::new(0),
            since,
            shown: AtomicU64::new(0),
        })
    }

    // Whether a second began for which no line was shown. It is one thread's to show that.
    fn begins_second(&self) -> bool {
        let Some(since) = &self.since else {
            return false;
        };
        let Ok(elapsed) = since.elapsed(self.clock) else {
            return false;
        };
        let second = elapsed.as_secs();
        let shown = self.shown.load(Ordering::SeqCst);
        shown < second
            && self
                .shown
                .compare_exchange(shown, second, Ordering::SeqCst, Ordering::SeqCst)
                .is_ok()
    }

    // What can't be shown is lost.
    fn show(&self) {
        let (Some(mut console), Ok(line)) = (self.console, self.line()) else {
            return;
        };
        if console.write_all(line.as_bytes()).is_err() {
            // Nothing depends on it.
        }
    }

    fn line(&self) -> Result<String, AllocError> {
        let checks = self.checks.load(Ordering::SeqCst);
        if checks > 0 {
            return format!(in self.alloc; "checks {checks}\n");
        }
        let mut line = "frames".to_string(self.alloc)?;
        for frames in self.frames.iter() {
            let count = frames.load(Ordering::SeqCst);
            line.push_str(&format!(in self.alloc; " {count}")?)?;
        }
        line.push_str("\n")?;
        Ok(line)
    }
}

impl<T: Clock> Watch for Progress<'_, T> {
    fn reached(&self, source: usize, frames: u32) {
        if let Some(count) = self.frames.get(source) {
            count.store(u64::from(frames), Ordering::SeqCst);
        }
        if self.begins_second() {
            self.show();
        }
    }
}

impl<T: Clock> Verifier for Progress<'_, T> {
    fn verify(&self, key: &PublicKey, message: &[u8], signature: &[u8]) -> bool {
        let answer = LmsVerifier.verify(key, message, signature);
        let _ = self.checks.fetch_add(1, Ordering::SeqCst);
        if self.begins_second() {
            self.show();
        }
        answer
    }
}
