//! The keys that a seed gives.

ghost use Rattle.std.specs.Prelude.{◌≡◌, ◌++◌, ℕ, List, length};
ghost use Rattle.base_wire.specs.Pieces.{piece};
ghost use Rattle.lmots.specs.Chains.{AreEndsOf, chain_end, end_in, key_of_ends, ots_private, ots_public_key};
ghost use Rattle.lmots.specs.Walks.{AreFirst};

use crate::chains::{Chain, chain_steps, prefix};
use crate::walks::Walks;
use base_wire::{array_at, put};
use sha2::{Digest, Sha256};

/// The number of chains of a one-time key.
pub(crate) const CHAINS: u16 = 34;

/// The use D_PBLC of RFC 8554.
pub(crate) const PUBLIC_KEY_USE: u16 = 0x8080;

/// The length of the id of a key in bytes.
pub const KEY_ID_LEN: usize = 16;

/// The length in bytes of a hash, and so of a seed.
pub const HASH_LEN: usize = 32;

/// The length in bytes of what a signer keeps to itself.
pub const PRIVATE_SEED_LEN: usize = KEY_ID_LEN + HASH_LEN;

/// What a signer keeps to itself: the id of its key, 16 bytes, and the seed of all its one-time
/// keys, 32 bytes. It has no `Debug`, so that no seed is printed by mistake.
#[derive(Clone, Copy)]
pub struct PrivateSeed {
    pub key_id: [u8; KEY_ID_LEN],
    pub seed: [u8; HASH_LEN],
}

impl PrivateSeed {
    /// The id of the key (16 bytes at 0) and the seed (32 at 16) that these bytes spell.
    pub fn from_bytes(bytes: &[u8; PRIVATE_SEED_LEN]) -> PrivateSeed
        ensures parts { result ≡ record {
          key_id = piece 16 bytes.now 0;
          seed = piece 32 bytes.now 16;
        } }
        // So `to_bytes` gives them again.
        ensures spelled { result.key_id ++ result.seed ≡ bytes.now }
    {
        PrivateSeed {
            key_id: array_at(bytes, 0),
            seed: array_at(bytes, KEY_ID_LEN),
        }
    }

    /// The bytes that `from_bytes` reads, as the file of a secret key holds them.
    #[tactic(auto, using(base_wire::proofs::Numbers::filled))]
    pub fn to_bytes(&self) -> [u8; PRIVATE_SEED_LEN]
        ensures { result ≡ self.now.key_id ++ self.now.seed }
    {
        let mut bytes = [0; PRIVATE_SEED_LEN];
        put(&mut bytes, 0, &self.key_id);
        put(&mut bytes, KEY_ID_LEN, &self.seed);
        bytes
    }
}

/// Where chain `i` of the one-time key `q` begins (RFC 8554, Appendix A), or a value for another use.
#[tactic(auto, unfolding(crate::specs::Chains::ots_private, base_sha256::specs::Chains::chain_step))]
pub(crate) fn ots_private(secret: &PrivateSeed, q: u32, i: u16) -> [u8; 32]
    ensures { result ≡ ots_private secret.now.key_id secret.now.seed q i }
{
    let mut chain = Chain::new(&prefix(&secret.key_id, q, i), &secret.seed);
    chain.step(0xff);
    chain.value()
}

/// Where chain `i` of the one-time key `q` ends, 32 bytes (RFC 8554, section 4.3). A one-time key has 34 chains.
#[tactic(auto, unfolding(crate::specs::Chains::chain_end))]
pub fn chain_end(secret: &PrivateSeed, q: u32, i: u16) -> [u8; 32]
    ensures { result ≡ chain_end secret.now.key_id secret.now.seed q i }
{
    let start = ots_private(secret, q, i);
    chain_steps(&prefix(&secret.key_id, q, i), 0, 255, &start)
}

/// Where all chains of the one-time key `q` begin.
pub(crate) fn chain_starts(secret: &PrivateSeed, q: u32) -> [[u8; 32]; 34]
    ensures { AreFirst 34 (ots_private secret.now.key_id secret.now.seed q) result }
{
    let mut starts = [[0; 32]; 34];
    for i in 0..CHAINS {
        starts[i as usize] = ots_private(secret, q, i);
    }
    starts
}

// Where all chains of the one-time key `q` end.
fn chain_ends(secret: &PrivateSeed, q: u32) -> [[u8; 32]; 34]
    ensures { AreEndsOf secret.now.key_id secret.now.seed q result }
{
    let walks = Walks {
        key_id: secret.key_id,
        q,
        at: [0; 34],
        until: [255; 34],
        values: chain_starts(secret, q),
    };
    walks.ends()
}

/// The public key of the one-time key `q`, 32 bytes (RFC 8554, section 4.3, algorithm 1).
pub fn ots_public(secret: &PrivateSeed, q: u32) -> [u8; 32]
    ensures { result ≡ ots_public_key secret.now.key_id secret.now.seed q }
{
    key_of_ends(&secret.key_id, q, &chain_ends(secret, q))
}

// The hash of the ends of the one-time key `q`.
#[tactic(auto, using(crate::proofs::ChainLemmas::joined_none, crate::proofs::ChainLemmas::joined_more), unfolding(crate::specs::Chains::key_of_ends))]
fn hash_of_ends(key_id: &[u8; 16], q: u32, ends: &[[u8; 32]]) -> [u8; 32]
    requires { length ends.now ≡ 34 }
    ensures { result ≡ key_of_ends key_id.now q (end_in ends.now) }
{
    let mut hasher = Sha256::new();
    hasher.update(prefix(key_id, q, PUBLIC_KEY_USE));
    for end in ends {
        hasher.update(end);
    }
    hasher.finalize()
}

/// The public key of the one-time key `q` whose 34 chains end so, 32 bytes (RFC 8554, section 4.3, algorithm 1), so that
/// the ends can be computed apart.
pub fn key_of_ends(key_id: &[u8; 16], q: u32, ends: &[[u8; 32]]) -> [u8; 32]
    requires { length ends.now ≡ 34 }
    ensures value { result ≡ key_of_ends key_id.now q (end_in ends.now) }

    // Of the ends of a seed's chains it is the key that the seed gives.
    ensures of_seed { (seed : List ℕ) → AreEndsOf key_id.now seed q ends.now
        → result ≡ ots_public_key key_id.now seed q }
{
    hash_of_ends(key_id, q, ends)
}
