//! The stored vectors of three keys, and the messages that they sign.

ghost use Rattle.std.specs.Prelude.{◌<◌};

use lmots::{PRIVATE_SEED_LEN, PrivateSeed};
use test_fixtures::{one_time_keys, signatures};

/// A one-time key and a signature under it.
#[derive(Clone, Copy)]
pub struct Vector {
    pub leaf: u32,
    pub one_time_key: &'static [u8],
    pub signature: &'static [u8],
}

fn vector_of(leaf: u32, one_time_key: &'static [u8], signature: &'static [u8]) -> Vector {
    Vector {
        leaf,
        one_time_key,
        signature,
    }
}

/// The messages, one for each leaf that is used.
#[derive(Drop)]
pub struct Messages {
    counted: [u8; 64],
    sevens: [u8; 1000],
    ones: [u8; 32],
}

impl Messages {
    pub fn new() -> Messages {
        Messages {
            counted: rising(1),
            sevens: rising(7),
            ones: [0xff; 32],
        }
    }

    pub fn under(&self, leaf: u32) -> &[u8] {
        match leaf {
            0 => &[],
            1 => b"a",
            2 => &self.counted[..55],
            511 => &self.counted[..56],
            512 => &self.counted,
            1022 => &self.sevens,
            _ => &self.ones,
        }
    }
}

fn rising<const N: usize>(by: u8) -> [u8; N] {
    let mut bytes = [0; N];
    let mut next = 0u8;
    for byte in &mut bytes {
        *byte = next;
        next = next.wrapping_add(by);
    }
    bytes
}

/// The seed of replica `r`.
pub fn seed(r: u8) -> PrivateSeed
    requires { r < 100 }
{
    PrivateSeed {
        key_id: [r; 16],
        seed: [16 + r; 32],
    }
}

/// The seed with rising bytes.
pub fn counting_seed() -> PrivateSeed {
    let mut bytes = [0; PRIVATE_SEED_LEN];
    for i in 0..16u8 {
        bytes[i as usize] = i;
    }
    for i in 0..32u8 {
        bytes[16 + i as usize] = 100 + i;
    }
    PrivateSeed::from_bytes(&bytes)
}

/// The vectors of key 0.
pub fn key_0() -> [Vector; 7] {
    [
        vector_of(0, one_time_keys::key_0_leaf_0(), signatures::key_0_leaf_0()),
        vector_of(1, one_time_keys::key_0_leaf_1(), signatures::key_0_leaf_1()),
        vector_of(2, one_time_keys::key_0_leaf_2(), signatures::key_0_leaf_2()),
        vector_of(
            511,
            one_time_keys::key_0_leaf_511(),
            signatures::key_0_leaf_511(),
        ),
        vector_of(
            512,
            one_time_keys::key_0_leaf_512(),
            signatures::key_0_leaf_512(),
        ),
        vector_of(
            1022,
            one_time_keys::key_0_leaf_1022(),
            signatures::key_0_leaf_1022(),
        ),
        vector_of(
            1023,
            one_time_keys::key_0_leaf_1023(),
            signatures::key_0_leaf_1023(),
        ),
    ]
}

/// The vectors of key 2.
pub fn key_2() -> [Vector; 7] {
    [
        vector_of(0, one_time_keys::key_2_leaf_0(), signatures::key_2_leaf_0()),
        vector_of(1, one_time_keys::key_2_leaf_1(), signatures::key_2_leaf_1()),
        vector_of(2, one_time_keys::key_2_leaf_2(), signatures::key_2_leaf_2()),
        vector_of(
            511,
            one_time_keys::key_2_leaf_511(),
            signatures::key_2_leaf_511(),
        ),
        vector_of(
            512,
            one_time_keys::key_2_leaf_512(),
            signatures::key_2_leaf_512(),
        ),
        vector_of(
            1022,
            one_time_keys::key_2_leaf_1022(),
            signatures::key_2_leaf_1022(),
        ),
        vector_of(
            1023,
            one_time_keys::key_2_leaf_1023(),
            signatures::key_2_leaf_1023(),
        ),
    ]
}

/// The vectors of the counting key.
pub fn counting_key() -> [Vector; 7] {
    [
        vector_of(
            0,
            one_time_keys::counting_key_leaf_0(),
            signatures::counting_key_leaf_0(),
        ),
        vector_of(
            1,
            one_time_keys::counting_key_leaf_1(),
            signatures::counting_key_leaf_1(),
        ),
        vector_of(
            2,
            one_time_keys::counting_key_leaf_2(),
            signatures::counting_key_leaf_2(),
        ),
        vector_of(
            511,
            one_time_keys::counting_key_leaf_511(),
            signatures::counting_key_leaf_511(),
        ),
        vector_of(
            512,
            one_time_keys::counting_key_leaf_512(),
            signatures::counting_key_leaf_512(),
        ),
        vector_of(
            1022,
            one_time_keys::counting_key_leaf_1022(),
            signatures::counting_key_leaf_1022(),
        ),
        vector_of(
            1023,
            one_time_keys::counting_key_leaf_1023(),
            signatures::counting_key_leaf_1023(),
        ),
    ]
}
