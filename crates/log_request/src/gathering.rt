//! A request that comes piece by piece.

ghost use Rattle.std.specs.Prelude.{◌≡◌, ◌↔◌, ◌≤◌, ◌++◌, ◌∷◌, [], IsTrue, length};
ghost use Rattle.log_request.specs.Gathering.{first_request, request_len};

use crate::request::CHAIN_REQUEST_LEN;
use log_format::REQUEST_LEN;
use std::marker::Model;

/// How many bytes a request has that begins so: 44 where it names a chain, else 12.
pub fn request_len(front: &[u8]) -> usize
    ensures { result ≡ request_len front.now }
{
    if front.starts_with(b"HSL2") {
        CHAIN_REQUEST_LEN
    } else {
        REQUEST_LEN
    }
}

/// The bytes of a request, as far as they came. Contracts see them.
#[derive(Drop)]
pub struct RequestBytes {
    bytes: [u8; CHAIN_REQUEST_LEN],
    have: usize,
}

impl Model for RequestBytes {
    ghost use Rattle.std.specs.Prelude.{◌≤◌, ℕ, List, take};
    ghost use Rattle.log_request.specs.Gathering.{request_len};

    ghost Value = { List ℕ };

    ghost view = { λ r. take r.have r.bytes };

    ghost invariant = { λ r. r.have ≤ request_len (take r.have r.bytes) };
}

impl RequestBytes {
    /// None.
    pub fn new() -> RequestBytes
        ensures { result ≡ [] }
    {
        RequestBytes {
            bytes: [0; CHAIN_REQUEST_LEN],
            have: 0,
        }
    }

    /// Takes what belongs to the request of the bytes that came behind it. What stands behind the request is not kept.
    pub fn take(&mut self, piece: &[u8])
        ensures { self.new ≡ first_request (self.old ++ piece.now) }
    {
        // For the proof: what came before is no longer than a request.
        let _was_whole = self.is_whole();
        for byte in piece {
            self.push(*byte);
        }
    }

    // Takes a byte, if the request is not whole.
    fn push(&mut self, byte: u8)
        ensures { self.new ≡ first_request (self.old ++ byte ∷ []) }
    {
        if self.is_whole() {
            return;
        }
        self.bytes[self.have] = byte;
        self.have += 1;
    }

    /// Whether the request is whole.
    pub fn is_whole(&self) -> bool
        ensures exact { IsTrue result ↔ (length self.now ≡ request_len self.now) }
        ensures within { length self.now ≤ request_len self.now }
    {
        self.have == request_len(self.as_bytes())
    }

    /// The bytes that came of it.
    pub fn as_bytes(&self) -> &[u8]
        ensures { result.now ≡ self.now }
    {
        &self.bytes[..self.have]
    }
}
