//! The hashes of a tree's nodes.

ghost use Rattle.std.specs.Prelude.{◌≡◌, ◌<◌};
ghost use Rattle.lms_tree.specs.Tree.{leaf_hash, inner_hash, parent_hash, sibling};
ghost use Rattle.lms_tree.specs.declared.TheConstants.{NODES};

use lmots::prefix;
use sha2::{Digest, Sha256};

/// The use D_LEAF of RFC 8554.
const LEAF_USE: u16 = 0x8282;

/// The use D_INTR of RFC 8554.
const INNER_USE: u16 = 0x8383;

/// The hash of leaf node `r` over its one-time public key.
#[tactic(auto, unfolding(crate::specs::Tree::leaf_hash))]
pub(crate) fn leaf_hash(key_id: &[u8; 16], r: u32, key: &[u8; 32]) -> [u8; 32]
    ensures { result ≡ leaf_hash key_id.now r key.now }
{
    let mut hasher = Sha256::new();
    hasher.update(prefix(key_id, r, LEAF_USE));
    hasher.update(key);
    hasher.finalize()
}

/// The hash of inner node `r` over those of its children.
#[tactic(auto, unfolding(crate::specs::Tree::inner_hash))]
pub(crate) fn inner_hash(key_id: &[u8; 16], r: u32, left: &[u8; 32], right: &[u8; 32]) -> [u8; 32]
    ensures { result ≡ inner_hash key_id.now r left.now right.now }
{
    let mut hasher = Sha256::new();
    hasher.update(prefix(key_id, r, INNER_USE));
    hasher.update(left);
    hasher.update(right);
    hasher.finalize()
}

/// The hash of the parent of node `r`, from the hash of `r` and that of its sibling. An odd node
/// stands to the right.
#[tactic(auto, unfolding(crate::specs::Tree::parent_hash))]
pub(crate) fn parent_hash(key_id: &[u8; 16], r: u32, hash: &[u8; 32], other: &[u8; 32]) -> [u8; 32]
    ensures { result ≡ parent_hash key_id.now r hash.now other.now }
{
    if r % 2 == 1 {
        inner_hash(key_id, r / 2, other, hash)
    } else {
        inner_hash(key_id, r / 2, hash, other)
    }
}

/// The other child of the parent of node `r`.
pub(crate) fn sibling(r: usize) -> usize
    requires { r < NODES }
    ensures { result ≡ sibling r }
{
    if r % 2 == 1 { r - 1 } else { r + 1 }
}
