//! Blocks that hand over.

ghost use Rattle.std.specs.Prelude.{◌≡◌, ◌↔◌, ◌++◌, IsTrue, take};
ghost use Rattle.sha2.specs.Sha256.{sha256};
ghost use Rattle.handover_blocks.specs.Handovers.{IsHandover, handover_mark, handover_payload};

use base_wire::put;
use blocks::Header;
use sha2::{Digest, Sha256};

/// With what the payload of a block begins that hands over.
pub const HANDOVER_MARK: &[u8; 4] = b"HSN1";

/// How much of the digest of the new committee's file stands behind the mark, in bytes.
const DIGEST_LEN: usize = 28;

/// Whether the block hands over to some committee: it is above genesis' view, and its payload begins with `HSN1`.
pub fn is_handover(block: &Header) -> bool
    ensures { IsTrue result ↔ IsHandover block.now }
{
    0 < block.view && block.payload[..HANDOVER_MARK.len()] == HANDOVER_MARK[..]
}

// The SHA-256 digest of a file.
fn digest_of(file: &[u8]) -> [u8; 32]
    ensures { result ≡ sha256 file.now }
{
    let mut hasher = Sha256::new();
    hasher.update(file);
    hasher.finalize()
}

// The mark, and the first bytes of a digest.
fn marked(digest: &[u8; 32]) -> [u8; 32]
    ensures { result ≡ handover_mark ++ take 28 digest.now }
{
    let mut payload = [0; 32];
    put(&mut payload, 0, HANDOVER_MARK);
    put(&mut payload, HANDOVER_MARK.len(), &digest[..DIGEST_LEN]);
    payload
}

/// The payload of a block that hands over to the committee of this file: `HSN1` and the first 28 bytes of the SHA-256 digest
/// of the file.
#[tactic(auto, unfolding(crate::specs::Handovers::handover_payload))]
pub fn handover_payload(file: &[u8]) -> [u8; 32]
    ensures { result ≡ handover_payload file.now }
{
    marked(&digest_of(file))
}
