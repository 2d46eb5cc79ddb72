//! Four one-time keys of one seed at once: their 136 chains are seventeen times eight, so that no lane is idle.

ghost use Rattle.std.specs.Prelude.{◌≡◌, ◌<◌, ◌≤◌, ◌+◌, ◌*◌, ◌^◌, ℕ, [], slice_index_or, length};
ghost use Rattle.lmots.specs.Chains.{chain_end, ots_public_key};
ghost use Rattle.lmots.specs.FourKeys.{chain_end_of, prefix_of};
ghost use Rattle.lmots.specs.Walks.{AreFirst};

use crate::chains::prefix;
use crate::keys::{CHAINS, PrivateSeed, key_of_ends};
use base_sha256::walk_eight;

/// The number of one-time keys that are computed at once.
pub const KEYS_AT_ONCE: u32 = 4;

/// The number of their chains, which are numbered through: key by key, each from its first chain.
const ALL_CHAINS: usize = 136;

// The number of times that eight chains are walked.
const WALKS: u16 = 17;

/// The public keys of the one-time keys `q` to `q + 3`, 32 bytes each: as `ots_public` gives them one by one, in three
/// quarters of the time.
pub fn four_ots_public(secret: &PrivateSeed, q: u32) -> [[u8; 32]; 4]
    requires { q + 4 ≤ 2 ^ 32 }
    ensures { (k : ℕ) → k < 4 → slice_index_or result k [] ≡ ots_public_key secret.now.key_id
        secret.now.seed (q + k) }
{
    let ends = ends_of_four(secret, q);
    [
        key_among(secret, q, 0, &ends),
        key_among(secret, q, 1, &ends),
        key_among(secret, q, 2, &ends),
        key_among(secret, q, 3, &ends),
    ]
}

// The public key of the one-time key `q + k`, from the ends of all chains of the four from `q` on.
fn key_among(secret: &PrivateSeed, q: u32, k: u32, ends: &[[u8; 32]; 136]) -> [u8; 32]
    requires four { k < 4 }
    requires small { q + 4 ≤ 2 ^ 32 }
    requires ends { AreFirst 136 (chain_end_of secret.now.key_id secret.now.seed q) ends.now }
    ensures { result ≡ ots_public_key secret.now.key_id secret.now.seed (q + k) }
{
    let first = k as usize * CHAINS as usize;
    key_of_ends(&secret.key_id, q + k, &ends[first..first + CHAINS as usize])
}

// Where all chains of four one-time keys end.
fn ends_of_four(secret: &PrivateSeed, q: u32) -> [[u8; 32]; 136]
    requires { q + 4 ≤ 2 ^ 32 }
    ensures { AreFirst 136 (chain_end_of secret.now.key_id secret.now.seed q) result }
{
    let mut ends = [[0; 32]; ALL_CHAINS];
    'walks: for walk in 0..WALKS {
        let eight = eight_ends(secret, q, 8 * walk);
        'lanes: for l in 0..8u16 {
            ends[(8 * walk + l) as usize] = eight[l as usize];
        }
    }
    ends
}

// Where eight chains of four one-time keys end.
#[tactic(auto, unfolding(crate::specs::Chains::chain_end, crate::specs::Chains::ots_private, base_sha256::specs::Chains::chain_steps, base_sha256::specs::Chains::chain_step))]
fn eight_ends(secret: &PrivateSeed, q: u32, first: u16) -> [[u8; 32]; 8]
    requires chains { first + 8 ≤ 136 }
    requires small { q + 4 ≤ 2 ^ 32 }
    ensures { (l : ℕ) → l < 8 → slice_index_or result l [] ≡ chain_end_of secret.now.key_id
        secret.now.seed q (first + l) }
{
    let prefixes = eight_prefixes(&secret.key_id, q, first);
    let starts = walk_eight(&prefixes, &[u8::MAX; 8], 1, &[secret.seed; 8]);
    walk_eight(&prefixes, &[0; 8], u8::MAX, &starts)
}

fn eight_prefixes(key_id: &[u8; 16], q: u32, first: u16) -> [[u8; 22]; 8]
    requires chains { first + 8 ≤ 136 }
    requires small { q + 4 ≤ 2 ^ 32 }
    ensures { (l : ℕ) → l < 8 → slice_index_or result l [] ≡ prefix_of key_id.now q (first + l) }
{
    [
        prefix_of(key_id, q, first),
        prefix_of(key_id, q, first + 1),
        prefix_of(key_id, q, first + 2),
        prefix_of(key_id, q, first + 3),
        prefix_of(key_id, q, first + 4),
        prefix_of(key_id, q, first + 5),
        prefix_of(key_id, q, first + 6),
        prefix_of(key_id, q, first + 7),
    ]
}

// The prefix of one of the chains of four one-time keys.
#[tactic(auto, unfolding(crate::specs::FourKeys::prefix_of))]
fn prefix_of(key_id: &[u8; 16], q: u32, chain: u16) -> [u8; 22]
    requires chain { chain < 136 }
    requires small { q + 4 ≤ 2 ^ 32 }
    ensures { result ≡ prefix_of key_id.now q chain }
{
    prefix(key_id, q + u32::from(chain / CHAINS), chain % CHAINS)
}
