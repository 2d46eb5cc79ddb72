//! Whether a signature is one of a message under a key.

ghost use Rattle.std.specs.Prelude.{◌≡◌, ◌≢◌, ◌↔◌, length, IsOk, IfErr, IfNone, IfSome};
ghost use Rattle.base_wire.specs.Pieces.{number_at};
ghost use Rattle.lmots.specs.Signatures.{candidate_key};
ghost use Rattle.lms_tree.specs.Refusals.{sig_refusal_number, IsSigRefusal};
ghost use Rattle.lms_tree.specs.Tree.{climbed, ots_in, path_in, Verifies};
ghost use Rattle.lms_tree.specs.declared.TheConstants.{SIGNATURE_LEN};

use crate::nodes::{leaf_hash, parent_hash};
use crate::public_key::PublicKey;
use crate::{HEIGHT, LEAVES, OTS_AT, PATH_AT, SIGNATURE_LEN, TREE_TYPE, TREE_TYPE_AT};
use base_wire::{array_at, u32_at};
use lmots::ots_candidate;

/// Why a signature is refused.
#[derive(Clone, Copy, PartialEq, Eq, Debug)]
pub enum SigRefusal {
    /// There are not as many bytes as `SIGNATURE_LEN`.
    Length = 1,
    /// The leaf at 0 is 1,024 or more.
    Index = 2,
    /// The type at 4 is not 4.
    OtsType = 3,
    /// The type behind the one-time signature is not 6.
    TreeType = 4,
    /// The root to which the signature leads is not the key's.
    Root = 5,
}

impl SigRefusal {
    /// The number of the refusal.
    pub fn number(self) -> u8
        ensures { result ≡ sig_refusal_number self }
    {
        self as u8
    }
}

/// Whether the bytes are a signature of the message under the key (RFC 8554, section 5.4.2,
/// algorithm 6). Refused in this order: Length, Index, OtsType, TreeType, Root.
pub fn verify(key: &PublicKey, message: &[u8], signature: &[u8]) -> Result<(), SigRefusal>
    ensures exact { IsOk result ↔ Verifies key.now.key_id key.now.root message.now signature.now }
    ensures first_refusal { IfErr result (λ refusal.
        IsSigRefusal refusal key.now.key_id key.now.root message.now signature.now) }
{
    if signature.len() != SIGNATURE_LEN {
        return Err(SigRefusal::Length);
    }
    let q = u32_at(signature, 0);
    if q >= LEAVES {
        return Err(SigRefusal::Index);
    }
    let Some(candidate) = leaf_key(&key.key_id, q, message, signature) else {
        return Err(SigRefusal::OtsType);
    };
    if u32_at(signature, TREE_TYPE_AT) != TREE_TYPE {
        return Err(SigRefusal::TreeType);
    }
    let leaf = leaf_hash(&key.key_id, LEAVES + q, &candidate);
    if climbed(&key.key_id, signature, LEAVES + q, leaf) != key.root {
        return Err(SigRefusal::Root);
    }
    Ok(())
}

// The one-time key to which a signature leads, if it has the type of one-time signatures.
#[tactic(auto, using(crate::proofs::PathLemmas::number_in_ots))]
fn leaf_key(key_id: &[u8; 16], q: u32, message: &[u8], signature: &[u8]) -> Option<[u8; 32]>
    requires { length signature.now ≡ SIGNATURE_LEN }
    ensures none { IfNone result (number_at 4 signature.now 4 ≢ 4) }
    ensures some { IfSome result (λ key. (number_at 4 signature.now 4 ≡ 4)
        × (key ≡ candidate_key key_id.now q message.now (ots_in signature.now))) }
{
    match ots_candidate(key_id, q, message, &signature[OTS_AT..TREE_TYPE_AT]) {
        Ok(key) => Some(key),
        Err(_) => None,
    }
}

// The root above leaf node `leaf`, whose hash is `leaf_hash`, along the path of a signature.
#[tactic(auto, using(crate::proofs::PathLemmas::climbed_none, crate::proofs::PathLemmas::climbed_more, crate::proofs::PathLemmas::ancestor_none, crate::proofs::PathLemmas::ancestor_more))]
fn climbed(key_id: &[u8; 16], signature: &[u8], leaf: u32, leaf_hash: [u8; 32]) -> [u8; 32]
    requires { length signature.now ≡ SIGNATURE_LEN }
    ensures { result ≡ climbed key_id.now (path_in signature.now) leaf leaf_hash 10 }
{
    let mut node = leaf;
    let mut hash = leaf_hash;
    for level in 0..HEIGHT {
        hash = parent_hash(
            key_id,
            node,
            &hash,
            &array_at(signature, PATH_AT + 32 * level),
        );
        node /= 2;
    }
    hash
}
