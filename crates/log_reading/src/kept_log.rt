//! A log by the digests of its frames.

ghost use Rattle.std.specs.Prelude.{◌≡◌, ◌↔◌, ◌++◌, ◌∷◌, [], IfOk, IsTrue, OnOk, slice_get};
ghost use Rattle.log_reading.specs.Following.{BeginsWith};

use crate::following::FrameDigest;
use std::alloc::{AllocError, Global};
use std::marker::Model;

/// A log by the digests of its frames. Contracts see the digests.
#[derive(Drop)]
pub(crate) struct KeptLog {
    digests: Vec<FrameDigest>,
}

impl Model for KeptLog {
    ghost use Rattle.std.specs.Prelude.{ℕ, List};

    ghost Value = { List (List ℕ) };

    ghost view = { λ l. l.digests.items };
}

impl KeptLog {
    /// No frames.
    pub fn new(alloc: Global) -> KeptLog
        ensures { result ≡ [] }
    {
        KeptLog {
            digests: Vec::new(alloc),
        }
    }

    /// These frames.
    pub fn of(alloc: Global, digests: &[FrameDigest]) -> Result<KeptLog, AllocError>
        ensures { IfOk result (λ l. l ≡ digests.now) }
    {
        Ok(KeptLog {
            digests: digests.to_vec(alloc)?,
        })
    }

    /// One more frame. Nothing else is copied.
    pub fn push(&mut self, digest: &FrameDigest) -> Result<(), AllocError>
        ensures { OnOk result (self.new ≡ self.old ++ digest.now ∷ []) }
    {
        self.digests.push(*digest)?;
        Ok(())
    }

    // Whether it has this frame there.
    fn has_at(&self, place: usize, digest: &FrameDigest) -> bool
        ensures { IsTrue result ↔ (slice_get self.now place ≡ Some digest.now) }
    {
        match self.digests.get(place) {
            Some(found) => *found == *digest,
            None => false,
        }
    }

    /// Whether it begins with these frames and this next one.
    pub fn begins_with(&self, front: &[FrameDigest], next: &FrameDigest) -> bool
        ensures { IsTrue result ↔ BeginsWith (front.now ++ next.now ∷ []) self.now }
    {
        if !self.has_at(front.len(), next) {
            return false;
        }
        self.digests.starts_with(front)
    }

    /// Whether it is these.
    pub fn is(&self, digests: &[FrameDigest]) -> bool
        ensures { IsTrue result ↔ (self.now ≡ digests.now) }
    {
        self.digests.as_slice() == digests
    }
}
