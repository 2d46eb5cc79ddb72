//! Requests for a part of a log.

ghost use Rattle.std.specs.Prelude.{◌≡◌, ◌↔◌, Some, IfSome, IsTrue, codes, length, take};
ghost use Rattle.log_format.specs.Requests.{IsRequest, request_text};
ghost use Rattle.log_format.specs.declared.request.FrameRequest.{FrameRequest as RequestValue};

use base_wire::{put, u32_at};

/// The length of a request in bytes.
pub const REQUEST_LEN: usize = 12;

/// A request for the payloads from one on, so many at most.
#[derive(Clone, Copy, Debug, PartialEq, Eq)]
pub struct FrameRequest {
    /// The number of the first payload, from 0.
    pub first: u32,
    /// How many payloads at most.
    pub most: u32,
}

// Whether the bytes are 12 and begin with the magic.
fn has_request_form(bytes: &[u8]) -> bool
    ensures { IsTrue result ↔ ((length bytes.now ≡ 12) × (take 4 bytes.now ≡ codes "HSL1")) }
{
    bytes.len() == REQUEST_LEN && bytes.starts_with(b"HSL1")
}

impl FrameRequest {
    /// The request that the 12 bytes spell: `HSL1`, the first payload (4 bytes at 4) and how many at most (4
    /// at 8), numbers with the highest byte first. None where there are not 12 bytes, or they do not begin
    /// with `HSL1`.
    pub fn from_bytes(bytes: &[u8]) -> Option<FrameRequest>
        // What is read is spelled so.
        ensures found { IfSome result (λ r. IsRequest r × (bytes.now ≡ request_text r)) }

        // What is spelled so is read.
        ensures only { (r : RequestValue) → IsRequest r → bytes.now ≡ request_text r
            → result ≡ Some r }
    {
        if !has_request_form(bytes) {
            return None;
        }
        Some(FrameRequest {
            first: u32_at(bytes, 4),
            most: u32_at(bytes, 8),
        })
    }

    /// The 12 bytes of the request.
    #[tactic(auto, unfolding(crate::specs::Requests::request_text))]
    pub fn to_bytes(self) -> [u8; REQUEST_LEN]
        ensures text { result ≡ request_text self }
        ensures is_request { IsRequest self }
    {
        let mut bytes = [0; REQUEST_LEN];
        put(&mut bytes, 0, b"HSL1");
        put(&mut bytes, 4, &self.first.to_be_bytes());
        put(&mut bytes, 8, &self.most.to_be_bytes());
        bytes
    }
}
