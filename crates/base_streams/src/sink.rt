//! Where bytes go.

ghost use Rattle.std.specs.Prelude.{◌≡◌, ◌≤◌, ◌<◌, ℕ, List, Option, IfOk, OnOk, OnErr, length, take};
ghost use Rattle.std.specs.Io.KnownBytes.{Keeps};
ghost use Rattle.base_streams.specs.Counting.{Counts};
ghost use Rattle.base_streams.specs.Streams.{Wrote, WrotePart};

use crate::Fault;

/// Takes bytes in order. A contract names what a sink was given, where the sink tells it, and how many
/// of its writes failed.
pub trait Sink: Drop {
    ghost text: { Self → Option (List ℕ) };

    ghost failed: { Self → ℕ };

    /// Takes the first of the bytes, at least one where there are some, and answers how many. After a
    /// fault nothing was taken.
    fn write(&mut self, bytes: &[u8]) -> Result<usize, Fault>
        ensures taken { IfOk result (λ n. (n ≤ length bytes.now) × (0 < length bytes.now → 0 < n)) }
        ensures ok { IfOk result (λ n. Wrote (text self.old) (text self.new) (take n bytes.now)) }
        ensures err { OnErr result (Keeps (text self.old) (text self.new)) }
        ensures counted { Counts (failed self.old) (failed self.new) result };

    /// How many writes failed; a u64 that stands still at its last value.
    fn failures(&self) -> u64
        ensures { result ≡ failed self.now };
}

/// Writes all of the bytes. After a fault a first part of them was written.
pub fn write_all<W: Sink>(out: &mut W, bytes: &[u8]) -> Result<(), Fault>
    ensures ok { OnOk result (Wrote (W.text out.old) (W.text out.new) bytes.now) }
    ensures err { OnErr result (WrotePart (W.text out.old) (W.text out.new) bytes.now) }
    ensures counted { Counts (W.failed out.old) (W.failed out.new) result }
{
    let mut rest = bytes;
    while !rest.is_empty() {
        let n = out.write(rest)?;
        rest = &rest[n..];
    }
    Ok(())
}
