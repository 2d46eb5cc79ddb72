//! A sink over memory.

ghost use Rattle.std.specs.Prelude.{◌≡◌, ◌≤◌, ◌<◌, [], false, None, Some, IfOk, OnOk, OnErr, length, take};
ghost use Rattle.std.specs.Io.KnownBytes.{Keeps};
ghost use Rattle.base_streams.specs.Counting.{Counts};
ghost use Rattle.base_streams.specs.Fuse.{is_burning, after_call};
ghost use Rattle.base_streams.specs.Streams.{Wrote};

use crate::sink::Sink;
use crate::{Fault, Fuse};
use std::alloc::Global;
use std::marker::Model;

/// Keeps what it is given, and fails where it is told to. Want of memory is a failure too. A contract
/// sees the bytes and the failures.
#[derive(Drop)]
pub struct MemorySink {
    given: Vec<u8>,
    fuse: Fuse,
    failed: u64,
}

impl Model for MemorySink {
    ghost use Rattle.base_streams.specs.Streams.{Memory};

    ghost Value = { Memory };

    ghost view = { λ s. record { bytes = s.given.items; failures = s.failed; fuse = s.fuse } };
}

impl MemorySink {
    /// An empty sink, with no failures.
    pub fn new(alloc: Global) -> MemorySink
        ensures bytes { result.bytes ≡ [] }
        ensures failures { result.failures ≡ 0 }
        ensures fuse { result.fuse ≡ None }
    {
        MemorySink {
            given: Vec::new(alloc),
            fuse: Fuse::none(),
            failed: 0,
        }
    }

    /// What it was given so far.
    pub fn bytes(&self) -> &[u8]
        ensures { result.now ≡ self.now.bytes }
    {
        &self.given
    }

    /// The next `pass` writes succeed, the one behind them fails, and with `forever` all later ones too.
    pub fn fuse(&mut self, pass: u32, forever: bool)
        ensures fuse { self.new.fuse ≡ Some (pass, forever) }
        ensures bytes { self.new.bytes ≡ self.old.bytes }
        ensures failures { self.new.failures ≡ self.old.failures }
    {
        self.fuse = Fuse::set(pass, forever);
    }
}

impl Sink for MemorySink {
    ghost text = { λ s. Some s.bytes };

    ghost failed = { λ s. s.failures };

    // Fails where the fuse burns, and for want of memory.
    fn write(&mut self, bytes: &[u8]) -> Result<usize, Fault>
        ensures taken { IfOk result (λ n. (n ≤ length bytes.now) × (0 < length bytes.now → 0 < n)) }
        ensures ok { IfOk result (λ n. Wrote (Some self.old.bytes) (Some self.new.bytes)
            (take n bytes.now)) }
        ensures err { OnErr result (Keeps (Some self.old.bytes) (Some self.new.bytes)) }
        ensures counted { Counts self.old.failures self.new.failures result }
        ensures burns { OnOk result (is_burning self.old.fuse ≡ false) }
        ensures fuse { self.new.fuse ≡ after_call self.old.fuse }
    {
        if self.fuse.burns() || self.given.extend_from_slice(bytes).is_err() {
            self.failed = self.failed.saturating_add(1);
            return Err(Fault);
        }
        Ok(bytes.len())
    }

    fn failures(&self) -> u64 {
        self.failed
    }
}
