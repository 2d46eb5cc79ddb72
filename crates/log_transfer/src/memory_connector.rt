//! A source in memory, for tests.

ghost use Rattle.std.specs.Prelude.{◌≡◌, ◌≤◌, ◌<◌, ◌++◌, ◌∷◌, List, [], None, Some, length, take, IfOk, OnOk, OnErr};
ghost use native.Mathlib.Nat.{le_refl};
ghost use Rattle.base_wire.specs.Pieces.{AreBytes};
ghost use Rattle.base_streams.specs.Counting.{one_more};
ghost use Rattle.base_streams.specs.Fuse.{after_call, is_burning};
ghost use Rattle.log_format.specs.Requests.{request_text};
ghost use Rattle.log_transfer.specs.Connections.{ended, failing};
ghost use Rattle.log_transfer.specs.Scripts.{GivesOf, gives_all, stream_at};
ghost use Rattle.log_transfer.specs.declared.reader_state.TheConstants.{MOST_TRIES};

use crate::connector::Connector;
use crate::reader_state::MOST_TRIES;
use base_streams::{Fault, Fuse};
use log_format::{FrameRequest, REQUEST_LEN};
use std::alloc::{AllocError, Global};
use std::collections::VecDeque;
use std::marker::Model;

// What one connection gives, and whether a read behind it fails.
#[derive(Drop)]
struct MemoryStream {
    bytes: Vec<u8>,
    fails: bool,
    // How many of the bytes were given.
    given: usize,
}

impl Model for MemoryStream {
    ghost use Rattle.std.specs.Prelude.{drop, ◌≤◌, length};
    ghost use Rattle.log_transfer.specs.Connections.{Connection};

    ghost Value = { Connection };

    ghost view = { λ s. record { text = drop s.given s.bytes.items; fails = s.fails } };

    ghost invariant = { λ s. s.given ≤ length s.bytes.items };
}

impl MemoryStream {
    // These bytes, and then the end, or a failing read.
    fn new(bytes: Vec<u8>, fails: bool) -> MemoryStream
        ensures value { result ≡ record { text = bytes.items; fails = fails } }
        ensures bytes { AreBytes result.text }
    {
        MemoryStream {
            bytes,
            fails,
            given: 0,
        }
    }

    // Gives the front.
    fn give(&mut self, buffer: &mut [u8]) -> Result<usize, Fault>
        ensures ok { IfOk result (λ n. (n ≤ length buffer.new)
            × (self.old.text ≡ take n buffer.new ++ self.new.text)) }
        ensures at_end { IfOk result (λ n. n ≡ 0 → 0 < length buffer.new → self.old ≡ ended) }
        ensures err { OnErr result ((self.old ≡ failing) × (self.new ≡ self.old)) }
        ensures fails { self.new.fails ≡ self.old.fails }
        ensures length { length buffer.new ≡ length buffer.old }
        ensures bytes { AreBytes self.old.text → AreBytes self.new.text }
    {
        let left = self.bytes.len() - self.given;
        if left == 0 && self.fails && !buffer.is_empty() {
            return Err(Fault);
        }
        let n = buffer.len().min(left);
        buffer[..n].copy_from_slice(&self.bytes[self.given..self.given + n]);
        self.given += n;
        Ok(n)
    }
}

/// A source in memory, for tests. It gives streams that it holds, one for each connection, whatever it is asked for,
/// and notes the requests. A connect past the last stream fails.
///
/// It tells what it gives, and fails where it is told to: then a connect takes its stream and asks for nothing.
#[derive(Drop)]
pub struct MemoryConnector {
    later: VecDeque<MemoryStream>,
    current: MemoryStream,
    // How many bytes were read since the last connect.
    taken: usize,
    // Has room for one of each stream to come.
    requests: Vec<[u8; REQUEST_LEN]>,
    fuse: Fuse,
    failures: u64,
}

impl Model for MemoryConnector {
    ghost use Rattle.std.specs.Prelude.{◌+◌, ◌≤◌, length};
    ghost use Rattle.std.specs.Vec.{vec_capacity};
    ghost use Rattle.log_transfer.specs.Scripts.{IsScript, Script};

    ghost Value = { Script };

    ghost view = { λ s. record {
      later = s.later.items;
      current = s.current;
      taken = s.taken;
      requests = s.requests.items;
      failures = s.failures;
      fuse = s.fuse;
    } };

    ghost invariant = { λ s. IsScript s.later.items s.current
        × (length s.requests.items + length s.later.items ≤ vec_capacity s.requests) };
}

impl MemoryConnector {
    /// A source of no streams, with no failure and no fuse.
    pub fn new(alloc: Global) -> MemoryConnector
        ensures { result ≡ record {
          later = [];
          current = failing;
          taken = 0;
          requests = [];
          failures = 0;
          fuse = None;
        } }
    {
        MemoryConnector {
            later: VecDeque::new(alloc),
            current: MemoryStream::new(Vec::new(alloc), true),
            taken: 0,
            requests: Vec::new(alloc),
            fuse: Fuse::none(),
            failures: 0,
        }
    }

    /// Gives these bytes behind the streams that it holds, and then the end, or with `fails` a failing read. Where
    /// memory is refused nothing changes.
    pub fn add(&mut self, bytes: Vec<u8>, fails: bool) -> Result<(), AllocError>
        ensures ok { OnOk result (self.new.later ≡ self.old.later ++ record {
          text = bytes.items;
          fails = fails;
        } ∷ []) }
        ensures err { OnErr result (self.new.later ≡ self.old.later) }
        ensures same { (self.new.current ≡ self.old.current) × (self.new.taken ≡ self.old.taken)
            × (self.new.requests ≡ self.old.requests) × (self.new.failures ≡ self.old.failures)
            × (self.new.fuse ≡ self.old.fuse) }
    {
        self.requests.reserve(self.later.len() + 1)?;
        self.later.push_back(MemoryStream::new(bytes, fails))?;
        Ok(())
    }

    /// The requests of its connections, in order.
    pub fn requests(&self) -> &[[u8; REQUEST_LEN]]
        ensures { result.now ≡ self.now.requests }
    {
        &self.requests
    }

    /// From here on the next `pass` calls succeed and the one behind them fails, and all later ones too where
    /// `forever`. It replaces an earlier fuse.
    pub fn fuse(&mut self, pass: u32, forever: bool)
        ensures fuse { self.new.fuse ≡ Some (pass, forever) }
        ensures same { (self.new.later ≡ self.old.later) × (self.new.current ≡ self.old.current)
            × (self.new.taken ≡ self.old.taken)
            × (self.new.requests ≡ self.old.requests) × (self.new.failures ≡ self.old.failures) }
    {
        self.fuse = Fuse::set(pass, forever);
    }
}

impl Connector for MemoryConnector {
    ghost gives = { λ s k first most c. GivesOf s.fuse (stream_at s.later k) c };

    ghost left = { λ s c. GivesOf s.fuse s.current c };

    ghost asked = { λ s t first most. t.requests
        ≡ s.requests ++ request_text (record { first = first; most = most }) ∷ [] };

    ghost taken = { λ s. s.taken };

    ghost failed = { λ s. s.failures };

    ghost reaches = { λ s t. s.failures ≤ t.failures };

    ghost allowed = { λ s. MOST_TRIES };

    fn connect(&mut self, first: u32, most: u32) -> Result<(), Fault> {
        self.taken = 0;
        let burns = self.fuse.burns();
        let next = self.later.pop_front();
        if let Some(stream) = next {
            if !burns {
                self.current = stream;
                let request = FrameRequest { first, most };
                self.requests.push_reserved(request.to_bytes());
                return Ok(());
            }
        }
        self.failures = self.failures.saturating_add(1);
        Err(Fault)
    }

    fn read(&mut self, buffer: &mut [u8]) -> Result<usize, Fault> {
        if !self.fuse.burns() {
            if let Ok(n) = self.current.give(buffer) {
                self.taken += n;
                return Ok(n);
            }
        }
        self.failures = self.failures.saturating_add(1);
        Err(Fault)
    }

    fn most_tries(&self) -> u8 {
        MOST_TRIES
    }

    fn failures(&self) -> u64 {
        self.failures
    }

    ghost some = { λ s. (s.current, gives_all s.fuse s.current) };

    ghost stays = { λ s. le_refl s.failures };
}
