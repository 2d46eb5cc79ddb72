//! How many bytes of one connection are read.

ghost use Rattle.std.specs.Prelude.{◌≡◌, ◌<◌, ◌≤◌, ◌⊎◌, IfOk, OnOk, length};
ghost use Rattle.std.specs.Io.KnownBytes.{ReadConsumes};
ghost use Rattle.log_transfer.specs.Connections.{CountsBytes};
ghost use Rattle.log_transfer.specs.declared.budget.TheConstants.{MOST_OF_A_STREAM};

use crate::tries::read_some;
use base_wire::{LONGEST_PAYLOAD, MOST_ENTRIES};
use std::io;
use std::io::{ErrorKind, Read};
use std::marker::Model;

/// How many bytes one connection is read for at most: the magic, 4,096 frames of a length and a payload each, and the
/// end mark. They are 268,451,852.
pub const MOST_OF_A_STREAM: usize = 4 + MOST_ENTRIES * (4 + LONGEST_PAYLOAD) + 8;

/// What one connection may still be read for. Contracts see how many bytes were read.
#[derive(Drop)]
pub struct Budget {
    // It only grows.
    taken: usize,
}

impl Model for Budget {
    ghost use Rattle.std.specs.Prelude.{◌≤◌, ℕ};
    ghost use Rattle.log_transfer.specs.declared.budget.TheConstants.{MOST_OF_A_STREAM};

    ghost Value = { ℕ };

    ghost view = { λ b. b.taken };

    ghost invariant = { λ b. b.taken ≤ MOST_OF_A_STREAM };
}

impl Budget {
    /// Of a connection of which nothing was read.
    pub fn new() -> Budget
        ensures { result ≡ 0 }
    {
        Budget { taken: 0 }
    }

    /// Fills the front of the buffer from the stream, with no more bytes than are left, and counts them. Where none is
    /// left a read into a buffer with room is an error, and the stream is not asked.
    pub fn read<S: Read>(&mut self, stream: &mut S, buffer: &mut [u8]) -> io::Result<usize>
        ensures within { IfOk result (λ n. n ≤ length buffer.new) }
        ensures taken { CountsBytes self.old self.new result }
        ensures most { self.new ≤ MOST_OF_A_STREAM }
        ensures some { OnOk result ((self.old < MOST_OF_A_STREAM) ⊎ (length buffer.new ≡ 0)) }
        ensures bytes { ReadConsumes (S.remaining stream.old)
            (S.remaining stream.new) result buffer.new }
    {
        let room = buffer.len().min(MOST_OF_A_STREAM - self.taken);
        if room == 0 && !buffer.is_empty() {
            return Err(io::Error::from(ErrorKind::InvalidData));
        }
        let n = read_some(stream, &mut buffer[..room])?;
        self.taken += n;
        Ok(n)
    }
}
