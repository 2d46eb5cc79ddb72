//! Short calls, which are answered though memory is full.

use crate::gathering::{Answerer, CallTalk, CallsSoFar};
use crate::{Next, Talk};
use std::io;

/// How many of a connection's first bytes are compared.
const FRONT_LEN: usize = 16;

/// Has calls answered as `CallTalk` has; but the first one of a connection also where memory is full, if it begins as a short one. So
/// answers that others ask for and do not take keep none of those out.
#[derive(Drop)]
pub struct ShortFirst<A> {
    pub calls: CallTalk<A>,
    /// How the calls begin whose answers are short, as `GET /health`; of each the first 16 bytes count. Memory is bounded where the
    /// answers to all calls that begin so are.
    pub short: &'static [&'static [u8]],
}

/// What came over a connection, how it begins, and whether something was answered.
#[derive(Drop)]
pub struct FrontSoFar {
    calls: CallsSoFar,
    front: [u8; FRONT_LEN],
    have: usize,
    has_answered: bool,
}

impl FrontSoFar {
    // Keeps the first bytes.
    fn take(&mut self, bytes: &[u8]) {
        for byte in bytes.iter().take(FRONT_LEN) {
            if let Some(at) = self.front.get_mut(self.have) {
                *at = *byte;
                self.have += 1;
            }
        }
    }

    // Whether the next call is the first, and is short by what came of it.
    fn is_short(&self, short: &[&[u8]]) -> bool {
        let front = self.front.get(..self.have).unwrap_or(&[]);
        !self.has_answered
            && short
                .iter()
                .any(|call| front.starts_with(*call) || call.starts_with(front))
    }
}

impl<A: Answerer> Talk for ShortFirst<A> {
    type Line = FrontSoFar;

    fn begin(&mut self) -> io::Result<FrontSoFar> {
        Ok(FrontSoFar {
            calls: self.calls.begin()?,
            front: [0; FRONT_LEN],
            have: 0,
            has_answered: false,
        })
    }

    fn hear(&mut self, line: &mut FrontSoFar, bytes: &[u8]) -> io::Result<()> {
        line.take(bytes);
        self.calls.hear(&mut line.calls, bytes)
    }

    fn next(&mut self, line: &mut FrontSoFar, is_full: bool) -> io::Result<Next> {
        let waits = is_full && !line.is_short(self.short);
        let next = self.calls.next(&mut line.calls, waits)?;
        if matches!(&next, Next::Piece(_)) {
            line.has_answered = true;
        }
        Ok(next)
    }
}
