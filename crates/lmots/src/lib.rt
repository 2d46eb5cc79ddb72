//! One-time signatures: LM-OTS of RFC 8554 with SHA-256, 32-byte hashes and 8-bit coefficients
//! (LMOTS_SHA256_N32_W8, type 4). Needs no threads, files or network.
#![tactic(auto)]

mod chains;
mod four_keys;
mod keys;
mod signatures;
mod walks;

pub use chains::prefix;
pub use four_keys::{KEYS_AT_ONCE, four_ots_public};
pub use keys::{
    HASH_LEN, KEY_ID_LEN, PRIVATE_SEED_LEN, PrivateSeed, chain_end, key_of_ends, ots_public,
};
pub use signatures::{
    OTS_SIGNATURE_LEN, OTS_TYPE, OtsRefusal, coefficients, ots_candidate, ots_sign,
};
