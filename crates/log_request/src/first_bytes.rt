//! The first bytes of an answer.

ghost use Rattle.std.specs.Prelude.{◌≡◌, ◌↔◌, ◌++◌, [], IsTrue, take};
ghost use Rattle.log_request.specs.Hearing.{no_log_text};

use base_wire::put;
use std::marker::Model;

// As many bytes as say that there is no log: a reader of exports reads no more of such an answer.
const FIRST: usize = 4;

/// The first four bytes of an answer, as far as they came. Contracts see them.
#[derive(Drop)]
pub(crate) struct FirstBytes {
    bytes: [u8; FIRST],
    have: usize,
}

impl Model for FirstBytes {
    ghost use Rattle.std.specs.Prelude.{◌≤◌, ℕ, List, take};

    ghost Value = { List ℕ };

    ghost view = { λ f. take f.have f.bytes };

    ghost invariant = { λ f. f.have ≤ 4 };
}

impl FirstBytes {
    /// None.
    pub fn new() -> FirstBytes
        ensures { result ≡ [] }
    {
        FirstBytes {
            bytes: [0; FIRST],
            have: 0,
        }
    }

    /// Takes what belongs to them of the bytes that came behind them.
    pub fn take(&mut self, piece: &[u8])
        ensures { self.new ≡ take 4 (self.old ++ piece.now) }
    {
        let n = piece.len().min(FIRST - self.have);
        put(&mut self.bytes, self.have, &piece[..n]);
        self.have += n;
    }

    /// Whether they say that the server has no log of the chain.
    pub fn say_no_log(&self) -> bool
        ensures { IsTrue result ↔ (self.now ≡ no_log_text) }
    {
        self.have == FIRST && self.bytes == *b"HSL0"
    }
}
