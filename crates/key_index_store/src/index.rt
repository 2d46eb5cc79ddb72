//! Which one-time key an index is.

ghost use Rattle.std.specs.Prelude.{◌≡◌, ◌<◌};
ghost use Rattle.key_index_store.specs.Indices.{key_of as key, limit_of, q_of as q};
ghost use Rattle.key_index_store.specs.declared.store.TheConstants.{INDICES};
ghost use Rattle.base_wire.specs.declared.limits.TheConstants.{MOST_KEYS};

use crate::store::INDICES;

/// The key that an index is of, which must be below 4,096: key 0 has the first 1,024 of them.
pub fn key_of(index: u32) -> u8
    requires { index < limit_of MOST_KEYS }
    ensures { result ≡ key index }
{
    (index / INDICES) as u8
}

/// The place of an index in its key, from 0 to 1,023.
pub fn q_of(index: u32) -> u32
    ensures exact { result ≡ q index }
    ensures below { result < INDICES }
{
    index % INDICES
}
