//! One-time keys and signatures as two independent programs made them, and the two extremes of the checksum,
//! by hand: of no steps 32 * 255 are left out, of all of them none.

use crate::vectors::{Messages, Vector, counting_key, counting_seed, key_0, key_2, seed};
use lmots::{PrivateSeed, coefficients, ots_candidate, ots_public, ots_sign};
use std::process::Abort;
use std::test::Fail;

fn is_as_stored<R: Abort>(rt: &R, secret: &PrivateSeed, vector: &Vector) -> Result<(), Fail> {
    let messages = Messages::new();
    let leaf = vector.leaf;
    let message = messages.under(leaf);
    let stored = vector.signature.get(4..1128).ok_or("too short")?;
    let key = ots_public(secret, leaf);
    assert_eq!(rt; key.as_slice(), vector.one_time_key, "leaf {leaf}");
    let signature = ots_sign(secret, leaf, message);
    assert_eq!(rt; signature.as_slice(), stored, "leaf {leaf}");
    let candidate = ots_candidate(&secret.key_id, leaf, message, stored);
    assert_eq!(rt; candidate, Ok(key), "leaf {leaf}");
    Ok(())
}

fn are_as_stored<R: Abort>(rt: &R, secret: &PrivateSeed, vectors: &[Vector]) -> Result<(), Fail> {
    for vector in vectors {
        is_as_stored(rt, secret, vector)?;
    }
    Ok(())
}

#[test]
fn one_time_signatures_are_as_stored(rt: HostRuntime) -> Result<(), Fail> {
    are_as_stored(&rt, &seed(0), &key_0())?;
    are_as_stored(&rt, &seed(2), &key_2())?;
    are_as_stored(&rt, &counting_seed(), &counting_key())
}

#[test]
fn checksum_extremes(rt: HostRuntime) {
    let none_stepped = coefficients(&[0x00; 32]);
    assert!(rt; (none_stepped[32], none_stepped[33]) == (0x1f, 0xe0));
    let all_stepped = coefficients(&[0xff; 32]);
    assert!(rt; (all_stepped[32], all_stepped[33]) == (0x00, 0x00));
}

#[test]
fn private_seed_is_its_key_id_and_then_its_seed(rt: HostRuntime) {
    let bytes = seed(2).to_bytes();
    assert!(rt; bytes[..16] == [2; 16] && bytes[16..] == [18; 32]);
}
