//! Signatures under one public key by a tree of 1,024 one-time keys: LMS of RFC 8554 with SHA-256
//! (LMS_SHA256_M32_H10, type 6, over LMOTS_SHA256_N32_W8, type 4). Needs no threads, files or network.
#![tactic(auto)]

mod nodes;
mod public_key;
mod signing_tree;
mod verification;

use lmots::{HASH_LEN, KEYS_AT_ONCE, OTS_SIGNATURE_LEN};
pub use public_key::{KeyRefusal, PUBLIC_KEY_LEN, PublicKey};
pub use signing_tree::{SigningTree, four_leaves};
pub use verification::{SigRefusal, verify};

/// The length of a signature, in bytes.
pub const SIGNATURE_LEN: usize = PATH_AT + HASH_LEN * HEIGHT;

/// The bytes of a signature.
pub type Signature = [u8; SIGNATURE_LEN];

/// Where the one-time signature stands in a signature.
pub(crate) const OTS_AT: usize = 4;

/// Where the type of the tree stands in a signature.
pub(crate) const TREE_TYPE_AT: usize = OTS_AT + OTS_SIGNATURE_LEN;

/// Where the path begins in a signature.
pub(crate) const PATH_AT: usize = TREE_TYPE_AT + 4;

/// The number of leaves, and so of one-time keys, of a tree.
pub const LEAVES: u32 = 1024;

/// The number of times that four leaves are computed at once.
pub const LEAF_FOURS: usize = (LEAVES / KEYS_AT_ONCE) as usize;

/// The length of a list that has node `r` of a tree at place `r`: the root stands at 1, the leaves from `LEAVES` on.
pub(crate) const NODES: usize = 2 * LEAVES as usize;

/// The number of levels from the leaves to the root.
pub(crate) const HEIGHT: usize = 10;

/// The type LMS_SHA256_M32_H10 of RFC 8554.
pub const TREE_TYPE: u32 = 6;
