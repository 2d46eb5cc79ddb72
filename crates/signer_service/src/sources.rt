//! Which sources were heard.

ghost use Rattle.std.specs.Prelude.{◌≡◌, IfOk, vec_len};

use std::alloc::{AllocError, Global};
use std::sync::atomic::{AtomicBool, Ordering};

/// Which of the sources that are asked for their logs were heard, in the order of the sources: one value for who asks them and
/// for who tells it.
#[derive(Drop)]
pub struct Sources {
    heard: Vec<AtomicBool>,
}

impl Sources {
    /// So many sources, none of them heard yet.
    pub fn new(alloc: Global, count: usize) -> Result<Sources, AllocError>
        ensures { IfOk result (λ sources. vec_len sources.heard ≡ count) }
    {
        let mut heard = Vec::with_capacity(alloc, count)?;
        for _ in 0..count {
            heard.push(AtomicBool::new(false))?;
        }
        Ok(Sources { heard })
    }

    /// Keeps whether a source, counted from 0, was heard when it was asked last. One that is not there is passed over.
    pub fn set(&self, source: usize, is_heard: bool) {
        if let Some(heard) = self.heard.get(source) {
            heard.store(is_heard, Ordering::SeqCst);
        }
    }

    // Whether each was heard.
    pub(crate) fn heard(&self, alloc: Global) -> Result<Vec<bool>, AllocError>
        ensures { IfOk result (λ heard. vec_len heard ≡ vec_len self.now.heard) }
    {
        let mut all = Vec::with_capacity(alloc, self.heard.len())?;
        for heard in &self.heard {
            all.push(heard.load(Ordering::SeqCst))?;
        }
        Ok(all)
    }
}
