//! Requests that name a chain.

ghost use Rattle.std.specs.Prelude.{◌≡◌, ◌↔◌, Some, IfSome, IsTrue, codes, length, take};
ghost use Rattle.log_request.specs.ChainRequests.{IsChainRequest, chain_request_text};
ghost use Rattle.log_request.specs.declared.request.ChainRequest.{ChainRequest as RequestValue};

use base_wire::{array_at, put, u32_at};
use blocks::Id;

/// The length of a request that names a chain, in bytes.
pub const CHAIN_REQUEST_LEN: usize = 44;

/// A request for the payloads of the log of one chain, from one on, so many at most.
#[derive(Clone, Copy, Debug, PartialEq, Eq)]
pub struct ChainRequest {
    /// The chain's id.
    pub chain: Id,
    /// The number of the first payload, from 0.
    pub first: u32,
    /// How many payloads at most.
    pub most: u32,
}

// Whether the bytes are 44 and begin with the magic.
fn has_chain_form(bytes: &[u8]) -> bool
    ensures { IsTrue result ↔ ((length bytes.now ≡ 44) × (take 4 bytes.now ≡ codes "HSL2")) }
{
    bytes.len() == CHAIN_REQUEST_LEN && bytes.starts_with(b"HSL2")
}

impl ChainRequest {
    /// The request that the 44 bytes spell: `HSL2`, the chain's id (32 bytes at 4), the first payload (4 bytes at 36) and how many
    /// at most (4 at 40), numbers with the highest byte first. None where there are not 44 bytes, or they do not begin with `HSL2`.
    pub fn from_bytes(bytes: &[u8]) -> Option<ChainRequest>
        // What is read is spelled so.
        ensures found { IfSome result (λ r. IsChainRequest r × (bytes.now ≡ chain_request_text r)) }

        // What is spelled so is read.
        ensures only { (r : RequestValue) → IsChainRequest r → bytes.now ≡ chain_request_text r
            → result ≡ Some r }
    {
        if !has_chain_form(bytes) {
            return None;
        }
        Some(ChainRequest {
            chain: array_at(bytes, 4),
            first: u32_at(bytes, 36),
            most: u32_at(bytes, 40),
        })
    }

    /// The 44 bytes of the request.
    #[tactic(auto, unfolding(crate::specs::ChainRequests::chain_request_text))]
    pub fn to_bytes(self) -> [u8; CHAIN_REQUEST_LEN]
        ensures text { result ≡ chain_request_text self }
        ensures is_request { IsChainRequest self }
    {
        let mut bytes = [0; CHAIN_REQUEST_LEN];
        put(&mut bytes, 0, b"HSL2");
        put(&mut bytes, 4, &self.chain);
        put(&mut bytes, 36, &self.first.to_be_bytes());
        put(&mut bytes, 40, &self.most.to_be_bytes());
        bytes
    }
}
