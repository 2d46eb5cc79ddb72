//! A feed over memory.

ghost use Rattle.std.specs.Prelude.{◌≡◌, None, Some};

use crate::feed::Feed;
use crate::{Fault, Fuse};
use std::marker::Model;

/// Gives bytes that it holds, and fails where it is told to. A contract sees the bytes that are left and
/// the failures.
#[derive(Drop)]
pub struct MemoryFeed {
    held: Vec<u8>,
    // How many of them were given.
    given: usize,
    fuse: Fuse,
    failed: u64,
}

impl Model for MemoryFeed {
    ghost use Rattle.std.specs.Prelude.{◌≤◌, drop, length};
    ghost use Rattle.base_streams.specs.Streams.{Memory};

    ghost Value = { Memory };

    ghost view = { λ f. record {
      bytes = drop f.given f.held.items;
      failures = f.failed;
      fuse = f.fuse;
    } };

    ghost invariant = { λ f. f.given ≤ length f.held.items };
}

impl MemoryFeed {
    /// A feed of these bytes, with no failures.
    pub fn new(bytes: Vec<u8>) -> MemoryFeed
        ensures bytes { result.bytes ≡ bytes.items }
        ensures failures { result.failures ≡ 0 }
        ensures fuse { result.fuse ≡ None }
    {
        MemoryFeed {
            held: bytes,
            given: 0,
            fuse: Fuse::none(),
            failed: 0,
        }
    }

    /// The next `pass` reads succeed, the one behind them fails, and with `forever` all later ones too.
    pub fn fuse(&mut self, pass: u32, forever: bool)
        ensures fuse { self.new.fuse ≡ Some (pass, forever) }
        ensures bytes { self.new.bytes ≡ self.old.bytes }
        ensures failures { self.new.failures ≡ self.old.failures }
    {
        self.fuse = Fuse::set(pass, forever);
    }
}

impl Feed for MemoryFeed {
    ghost rest = { λ f. Some f.bytes };

    ghost failed = { λ f. f.failures };

    fn read(&mut self, buffer: &mut [u8]) -> Result<usize, Fault> {
        if self.fuse.burns() {
            self.failed = self.failed.saturating_add(1);
            return Err(Fault);
        }
        let n = buffer.len().min(self.held.len() - self.given);
        buffer[..n].copy_from_slice(&self.held[self.given..self.given + n]);
        self.given += n;
        Ok(n)
    }

    fn failures(&self) -> u64 {
        self.failed
    }
}
