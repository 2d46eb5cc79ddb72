//! The ids of a replica's next keys.

ghost use Rattle.std.specs.Prelude.{◌≡◌};
ghost use Rattle.handover_keys.specs.BoundIds.{bound_id, bound_id_text};

use base_wire::{array_at, put};
use blocks::Id;
use sha2::{Digest, Sha256};

/// The id of a key (RFC 8554's I).
pub type KeyId = [u8; 16];

// How many bytes are hashed for the id of a key.
const BOUND_ID_TEXT_LEN: usize = 39;

// The bytes that are hashed: `HSI1`, the chain id at 4, the replica at 36, the key at 38.
#[tactic(auto, using(base_wire::proofs::Numbers::filled), unfolding(crate::specs::BoundIds::bound_id_text))]
fn bound_id_text(chain: &Id, replica: u16, key: u8) -> [u8; BOUND_ID_TEXT_LEN]
    ensures { result ≡ bound_id_text chain.now replica key }
{
    let mut bytes = [0; BOUND_ID_TEXT_LEN];
    put(&mut bytes, 0, b"HSI1");
    put(&mut bytes, 4, chain);
    put(&mut bytes, 36, &replica.to_be_bytes());
    put(&mut bytes, 38, &[key]);
    bytes
}

/// The id that the next key of this number, from 0, has to have of this replica of the committee whose chain id this is: the
/// first 16 bytes of the SHA-256 digest of `HSI1`, the chain id (32 bytes), the replica (2, highest first) and the key (1).
#[tactic(auto, unfolding(crate::specs::BoundIds::bound_id))]
pub fn bound_id(chain: &Id, replica: u16, key: u8) -> KeyId
    ensures { result ≡ bound_id chain.now replica key }
{
    let mut hasher = Sha256::new();
    hasher.update(bound_id_text(chain, replica, key));
    array_at(&hasher.finalize(), 0)
}
