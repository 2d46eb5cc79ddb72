//! A line of output, built in place.

ghost use Rattle.std.specs.Prelude.{◌≡◌, ◌+◌, ◌≤◌, ◌++◌, [], length, decimal};

use base_wire::put;
use std::marker::Model;

const ROOM: usize = 64;

/// A text of at most 64 bytes that takes no heap memory. A contract sees the text.
#[derive(Drop)]
pub struct Line {
    bytes: [u8; ROOM],
    len: usize,
}

impl Model for Line {
    ghost use Rattle.std.specs.Prelude.{◌≤◌, ℕ, List, take};

    ghost Value = { List ℕ };

    ghost view = { λ l. take l.len l.bytes };

    ghost invariant = { λ l. l.len ≤ 64 };
}

impl Line {
    /// An empty line.
    pub fn new() -> Line
        ensures { result ≡ [] }
    {
        Line {
            bytes: [0; ROOM],
            len: 0,
        }
    }

    /// Adds a text at the end, where there must be room for it.
    pub fn push(&mut self, text: &[u8])
        requires { length self.old + length text.now ≤ 64 }
        ensures { self.new ≡ self.old ++ text.now }
    {
        put(&mut self.bytes, self.len, text);
        self.len += text.len();
    }

    /// The text so far.
    pub fn as_bytes(&self) -> &[u8]
        ensures { result.now ≡ self.now }
    {
        &self.bytes[..self.len]
    }
}
