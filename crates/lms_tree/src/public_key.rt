//! Public keys and their 56 bytes.

ghost use Rattle.std.specs.Prelude.{◌≡◌, ◌↔◌, List, ℕ, length, IsOk, IfOk, IfErr};
ghost use Rattle.lms_tree.specs.Keys.{key_refusal_number, IsKeyRefusal, IsPublicKey};
ghost use Rattle.lms_tree.specs.Tree.{key_text};

use crate::TREE_TYPE;
use base_wire::{array_at, put, u32_at};
use lmots::OTS_TYPE;

/// The length of a public key, in bytes.
pub const PUBLIC_KEY_LEN: usize = 56;

/// A public key: the id of the key and the root of its tree. Its bytes are the tree's type at 0, the
/// type of its one-time keys at 4, the id at 8 and the root at 24 (RFC 8554, section 5.3).
#[derive(Clone, Copy, PartialEq, Eq, Debug)]
pub struct PublicKey {
    pub key_id: [u8; 16],
    pub root: [u8; 32],
}

/// Why bytes are no public key.
#[derive(Clone, Copy, PartialEq, Eq, Debug)]
pub enum KeyRefusal {
    /// There are not 56 bytes.
    Length = 1,
    /// The type at 0 is not 6.
    TreeType = 2,
    /// The type at 4 is not 4.
    OtsType = 3,
}

impl KeyRefusal {
    /// The number of the refusal.
    pub fn number(self) -> u8
        ensures { result ≡ key_refusal_number self }
    {
        self as u8
    }
}

impl PublicKey {
    /// The public key that the bytes are. Refused in this order: Length, TreeType, OtsType.
    pub fn parse(bytes: &[u8]) -> Result<PublicKey, KeyRefusal>
        ensures found { IfOk result (λ key. bytes.now ≡ key_text key.key_id key.root) }
        ensures only { (id root : List ℕ) → length id ≡ 16 → length root ≡ 32
            → bytes.now ≡ key_text id root → result ≡ Ok (record { key_id = id; root = root }) }
        ensures exact { IsOk result ↔ IsPublicKey bytes.now }
        ensures first_refusal { IfErr result (λ refusal. IsKeyRefusal refusal bytes.now) }
    {
        if bytes.len() != PUBLIC_KEY_LEN {
            return Err(KeyRefusal::Length);
        }
        if u32_at(bytes, 0) != TREE_TYPE {
            return Err(KeyRefusal::TreeType);
        }
        if u32_at(bytes, 4) != OTS_TYPE {
            return Err(KeyRefusal::OtsType);
        }
        Ok(PublicKey {
            key_id: array_at(bytes, 8),
            root: array_at(bytes, 24),
        })
    }

    /// The bytes of the key.
    #[tactic(auto, using(base_wire::proofs::Numbers::filled), unfolding(crate::specs::Tree::key_text))]
    pub fn to_bytes(&self) -> [u8; PUBLIC_KEY_LEN]
        ensures { result ≡ key_text self.now.key_id self.now.root }
    {
        let mut bytes = [0; PUBLIC_KEY_LEN];
        put(&mut bytes, 0, &TREE_TYPE.to_be_bytes());
        put(&mut bytes, 4, &OTS_TYPE.to_be_bytes());
        put(&mut bytes, 8, &self.key_id);
        put(&mut bytes, 24, &self.root);
        bytes
    }
}
