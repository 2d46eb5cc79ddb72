//! One-time signatures and the keys that they lead to.

ghost use Rattle.std.specs.Prelude.{◌≡◌, ◌↔◌, length, IsOk, IfOk, IfErr};
ghost use Rattle.lmots.specs.Chains.{ots_public_key};
ghost use Rattle.lmots.specs.Refusals.{ots_refusal_number, IsOtsRefusal};
ghost use Rattle.lmots.specs.Signatures.{message_hash, checksum, coefficients, randomizer, signed_value, ots_signature, IsOtsSignature, shown_value, continued, candidate_key};
ghost use Rattle.lmots.specs.Walks.{AreFirst};
ghost use Rattle.lmots.specs.declared.signatures.TheConstants.{OTS_SIGNATURE_LEN};

use crate::chains::prefix;
use crate::keys::{CHAINS, HASH_LEN, PrivateSeed, chain_starts, key_of_ends, ots_private};
use crate::walks::Walks;
use base_wire::{array_at, put, u32_at};
use sha2::{Digest, Sha256};

/// Where the randomizer stands in a one-time signature, behind its type.
const RANDOMIZER_AT: usize = 4;

/// Where the values of the chains begin.
const VALUES_AT: usize = RANDOMIZER_AT + HASH_LEN;

/// The length of a one-time signature, in bytes.
pub const OTS_SIGNATURE_LEN: usize = VALUES_AT + HASH_LEN * CHAINS as usize;

/// The type LMOTS_SHA256_N32_W8 of RFC 8554.
pub const OTS_TYPE: u32 = 4;

/// The use D_MESG of RFC 8554.
const MESSAGE_USE: u16 = 0x8181;

/// The number under which a seed gives the randomizer. No chain and no use has it.
const RANDOMIZER_NUMBER: u16 = 0xfffd;

#[tactic(auto, unfolding(crate::specs::Signatures::message_hash))]
fn message_hash(key_id: &[u8; 16], q: u32, randomizer: &[u8; 32], message: &[u8]) -> [u8; 32]
    ensures { result ≡ message_hash key_id.now q randomizer.now message.now }
{
    let mut hasher = Sha256::new();
    hasher.update(prefix(key_id, q, MESSAGE_USE));
    hasher.update(randomizer);
    hasher.update(message);
    hasher.finalize()
}

#[tactic(auto, unfolding(crate::specs::Signatures::checksum))]
fn checksum(hash: &[u8; 32]) -> u16
    ensures { result ≡ checksum hash.now }
{
    let mut steps_left = 0;
    for byte in hash {
        steps_left += 255 - u16::from(*byte);
    }
    steps_left
}

/// How many steps each chain goes for a digest, 34 bytes: the 32 bytes of the digest, and then the two bytes
/// of its checksum, which counts the steps that the digest leaves out (RFC 8554, sections 4.4 to 4.6).
#[tactic(auto, using(base_wire::proofs::Numbers::filled), unfolding(crate::specs::Signatures::coefficients))]
pub fn coefficients(hash: &[u8; 32]) -> [u8; 34]
    ensures { result ≡ coefficients hash.now }
{
    let mut all = [0; 34];
    put(&mut all, 0, hash);
    put(&mut all, 32, &checksum(hash).to_be_bytes());
    all
}

// What the signer shows of each chain.
#[tactic(auto, unfolding(crate::specs::Signatures::signed_value))]
fn signed_values(secret: &PrivateSeed, q: u32, coefficients: &[u8; 34]) -> [[u8; 32]; 34]
    ensures { AreFirst 34 (signed_value secret.now.key_id secret.now.seed q coefficients.now)
        result }
{
    let walks = Walks {
        key_id: secret.key_id,
        q,
        at: [0; 34],
        until: *coefficients,
        values: chain_starts(secret, q),
    };
    walks.ends()
}

/// The signature of a message under the one-time key `q`: the type at 0, the randomizer at 4 and a
/// value of each chain from 36 on (RFC 8554, section 4.5, algorithm 3). A one-time key may sign one
/// message only.
#[tactic(auto, using(crate::proofs::ChainLemmas::joined_none, crate::proofs::ChainLemmas::joined_more), unfolding(crate::specs::Signatures::ots_signature, crate::specs::Signatures::randomizer))]
pub fn ots_sign(secret: &PrivateSeed, q: u32, message: &[u8]) -> [u8; OTS_SIGNATURE_LEN]
    ensures exact { result ≡ ots_signature secret.now.key_id secret.now.seed q message.now }
    ensures well_formed { IsOtsSignature result }
    ensures verifies { candidate_key secret.now.key_id q message.now result
        ≡ ots_public_key secret.now.key_id secret.now.seed q }
{
    let randomizer = ots_private(secret, q, RANDOMIZER_NUMBER);
    let coefficients = coefficients(&message_hash(&secret.key_id, q, &randomizer, message));
    let mut signature = [0; OTS_SIGNATURE_LEN];
    put(&mut signature, 0, &OTS_TYPE.to_be_bytes());
    put(&mut signature, RANDOMIZER_AT, &randomizer);
    let values = signed_values(secret, q, &coefficients);
    for i in 0..CHAINS as usize {
        put(&mut signature, VALUES_AT + 32 * i, &values[i]);
    }
    signature
}

// What a signature shows of each chain.
fn shown_values(signature: &[u8]) -> [[u8; 32]; 34]
    requires { length signature.now ≡ OTS_SIGNATURE_LEN }
    ensures { AreFirst 34 (shown_value signature.now) result }
{
    let mut values = [[0; 32]; 34];
    for i in 0..CHAINS as usize {
        values[i] = array_at(signature, VALUES_AT + 32 * i);
    }
    values
}

// Where the signer ended each chain.
fn continued(key_id: &[u8; 16], q: u32, coefficients: &[u8; 34], signature: &[u8]) -> [[u8; 32]; 34]
    requires { length signature.now ≡ OTS_SIGNATURE_LEN }
    ensures { AreFirst 34 (continued key_id.now q coefficients.now signature.now) result }
{
    let walks = Walks {
        key_id: *key_id,
        q,
        at: *coefficients,
        until: [255; 34],
        values: shown_values(signature),
    };
    walks.ends()
}

/// Why bytes are no one-time signature.
#[derive(Clone, Copy, PartialEq, Eq, Debug)]
pub enum OtsRefusal {
    /// There are not as many bytes as `OTS_SIGNATURE_LEN`.
    Length = 1,
    /// The type at 0 is not 4.
    OtsType = 2,
}

impl OtsRefusal {
    /// The number of the refusal.
    pub fn number(self) -> u8
        ensures { result ≡ ots_refusal_number self }
    {
        self as u8
    }
}

/// The one-time public key that a signature of a message leads to (RFC 8554, section 4.6, algorithm
/// 4b). Whoever compares it with the signer's key has checked the signature. Refused in this order:
/// Length, OtsType.
pub fn ots_candidate(
    key_id: &[u8; 16],
    q: u32,
    message: &[u8],
    signature: &[u8],
) -> Result<[u8; 32], OtsRefusal>
    ensures ok { IfOk result (λ key. key ≡ candidate_key key_id.now q message.now signature.now) }
    ensures exact { IsOk result ↔ IsOtsSignature signature.now }
    ensures first_refusal { IfErr result (λ refusal. IsOtsRefusal refusal signature.now) }
{
    if signature.len() != OTS_SIGNATURE_LEN {
        return Err(OtsRefusal::Length);
    }
    if u32_at(signature, 0) != OTS_TYPE {
        return Err(OtsRefusal::OtsType);
    }
    let randomizer = array_at(signature, RANDOMIZER_AT);
    let coefficients = coefficients(&message_hash(key_id, q, &randomizer, message));
    let ends = continued(key_id, q, &coefficients, signature);
    Ok(key_of_ends(key_id, q, &ends))
}
