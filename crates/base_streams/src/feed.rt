//! Where bytes come from.

ghost use Rattle.std.specs.Prelude.{◌≡◌, ◌≤◌, ℕ, List, Option, IfOk, OnErr, length};
ghost use Rattle.std.specs.Io.KnownBytes.{Keeps};
ghost use Rattle.base_streams.specs.Streams.{Read};
ghost use Rattle.base_streams.specs.Counting.{Counts};

use crate::Fault;

/// Gives bytes in order. A contract names what a feed has left, where the feed tells it, and how many of
/// its reads failed.
pub trait Feed: Drop {
    ghost rest: { Self → Option (List ℕ) };

    ghost failed: { Self → ℕ };

    /// Fills the front of the buffer, and answers how many bytes it gave. It gives none only at its end,
    /// or where the buffer is empty. After a fault nothing was given.
    fn read(&mut self, buffer: &mut [u8]) -> Result<usize, Fault>
        ensures within { IfOk result (λ n. n ≤ length buffer.new) }
        ensures ok { IfOk result (λ n. Read (rest self.old) (rest self.new) n buffer.new) }
        ensures err { OnErr result (Keeps (rest self.old) (rest self.new)) }
        ensures counted { Counts (failed self.old) (failed self.new) result };

    /// How many reads failed; a u64 that stands still at its last value.
    fn failures(&self) -> u64
        ensures { result ≡ failed self.now };
}
