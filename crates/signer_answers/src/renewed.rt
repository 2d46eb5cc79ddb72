//! The committees that were shown to renew this one.

ghost use Rattle.std.specs.Prelude.{◌≡◌, IsTrue};
ghost use Rattle.signer_answers.specs.Approvals.{IsRenewedTo};

use std::alloc::{AllocError, Global};
use std::marker::{Model, PhantomData};
use std::sync::{Mutex, Wait};
use vote_desk::DeskNaming;

/// How many are remembered.
pub const MOST_RENEWED: usize = 16;

/// The payloads that name the last 16 committees that were shown to renew this one since the start: one value for all callers of a desk.
#[derive(Drop)]
pub struct Renewed<N: DeskNaming> {
    last: Mutex<LastShown<N>>,
}

impl<N: DeskNaming> Renewed<N> {
    /// None yet. Room for all is made here, in so far as memory is not refused.
    pub fn new(alloc: Global) -> Result<Renewed<N>, AllocError> {
        Ok(Renewed {
            last: Mutex::new(LastShown::new(alloc)?),
        })
    }

    /// Whether this payload names one of them.
    pub fn has<R: Wait>(&self, rt: &R, payload: &[u8; 32]) -> bool
        ensures { IsTrue result → IsRenewedTo N.committee payload.now }
    {
        let last = self.last.lock(rt);
        let last = &*last;
        last.has(payload)
    }

    /// Remembers the committee that this payload names, in place of the one that was shown first where there are 16.
    pub fn note<R: Wait>(&self, rt: &R, payload: &[u8; 32])
        requires { IsRenewedTo N.committee payload.now }
    {
        let mut last = self.last.lock(rt);
        let last = &mut *last;
        last.note(payload);
    }
}

// The payload that names a committee that was shown to renew this one.
#[derive(Drop)]
struct Shown<N: DeskNaming> {
    payload: [u8; 32],
    named: PhantomData<N>,
}

impl<N: DeskNaming> Model for Shown<N> {
    ghost use Rattle.std.specs.Prelude.{ℕ, List};
    ghost use Rattle.signer_answers.specs.Approvals.{IsRenewedTo};

    ghost Value = { List ℕ };

    ghost view = { λ s. s.payload };

    ghost invariant = { λ s. IsRenewedTo N.committee s.payload };
}

impl<N: DeskNaming> Shown<N> {
    fn of(payload: &[u8; 32]) -> Shown<N>
        requires { IsRenewedTo N.committee payload.now }
    {
        Shown {
            payload: *payload,
            named: PhantomData,
        }
    }

    fn is(&self, payload: &[u8; 32]) -> bool
        ensures { IsTrue result → IsRenewedTo N.committee payload.now }
    {
        self.payload == *payload
    }
}

// The last of them, the newest behind the others.
#[derive(Drop)]
struct LastShown<N: DeskNaming> {
    shown: Vec<Shown<N>>,
}

impl<N: DeskNaming> LastShown<N> {
    fn new(alloc: Global) -> Result<LastShown<N>, AllocError> {
        Ok(LastShown {
            shown: Vec::with_capacity(alloc, MOST_RENEWED)?,
        })
    }

    fn has(&self, payload: &[u8; 32]) -> bool
        ensures { IsTrue result → IsRenewedTo N.committee payload.now }
    {
        for shown in &self.shown {
            if shown.is(payload) {
                return true;
            }
        }
        false
    }

    fn note(&mut self, payload: &[u8; 32])
        requires { IsRenewedTo N.committee payload.now }
    {
        if self.has(payload) {
            return;
        }
        if self.shown.len() >= MOST_RENEWED {
            self.shown.remove(0);
        }
        // There is room, so it is never refused.
        let _ = self.shown.push(Shown::of(payload));
    }
}
