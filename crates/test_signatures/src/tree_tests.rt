//! Trees, public keys and signatures as two independent programs made them.

use crate::vectors::{Messages, Vector, counting_key, counting_seed, key_0, key_2, seed};
use lms_tree::{PublicKey, SigRefusal, SigningTree, verify};
use replica_files::generate_parallel;
use std::alloc::Global;
use std::process::Abort;
use std::test::Fail;
use test_fixtures::{keys, signatures};

fn signs_as_stored<R: Abort>(rt: &R, tree: &SigningTree, vector: &Vector) -> Result<(), Fail> {
    let leaf = vector.leaf;
    if leaf >= 1024 {
        return Err("a vector without a leaf".into());
    }
    let messages = Messages::new();
    let message = messages.under(leaf);
    let signature = tree.sign_at(leaf, message);
    assert_eq!(rt; signature.as_slice(), vector.signature, "leaf {leaf}");
    let answer = verify(&tree.public_key(), message, vector.signature);
    assert_eq!(rt; answer, Ok(()), "leaf {leaf}");
    Ok(())
}

fn tree_is_as_stored<R: Abort>(
    rt: &R,
    tree: &SigningTree,
    public: &[u8],
    vectors: &[Vector],
) -> Result<(), Fail> {
    let key = tree.public_key();
    assert!(rt; key.to_bytes().as_slice() == public);
    assert!(rt; PublicKey::parse(public) == Ok(key));
    for vector in vectors {
        signs_as_stored(rt, tree, vector)?;
    }
    Ok(())
}

#[test]
fn key_0_signs_as_stored(rt: HostRuntime) -> Result<(), Fail> {
    let tree = SigningTree::generate(rt.alloc(), seed(0))?;
    tree_is_as_stored(&rt, &tree, keys::key_0(), &key_0())
}

#[test]
fn key_2_signs_as_stored(rt: HostRuntime) -> Result<(), Fail> {
    let tree = SigningTree::generate(rt.alloc(), seed(2))?;
    tree_is_as_stored(&rt, &tree, keys::key_2(), &key_2())
}

#[test]
fn counting_key_signs_as_stored(rt: HostRuntime) -> Result<(), Fail> {
    let tree = SigningTree::generate(rt.alloc(), counting_seed())?;
    tree_is_as_stored(&rt, &tree, keys::counting_key(), &counting_key())
}

#[test]
fn counting_key_made_in_threads_signs_as_stored(rt: HostRuntime) -> Result<(), Fail> {
    let tree = generate_parallel(&rt, rt.alloc(), counting_seed())?;
    tree_is_as_stored(&rt, &tree, keys::counting_key(), &counting_key())
}

// The stored signature of leaf 3 of key 0 over `message`, with other bytes at some places.
fn with_bytes(alloc: Global, bytes: &[(usize, u8)]) -> Result<Vec<u8>, Fail> {
    let mut signature = signatures::key_0_leaf_3().to_vec(alloc)?;
    for (at, byte) in bytes {
        *signature.get_mut(*at).ok_or("no such byte")? = *byte;
    }
    Ok(signature)
}

fn number(key: &PublicKey, message: &[u8], signature: &[u8]) -> Result<(), u8> {
    verify(key, message, signature).map_err(SigRefusal::number)
}

// What is replaced, the message, and the number of what refuses the signature.
const CASES: [(&[(usize, u8)], &[u8], Result<(), u8>); 5] = [
    (&[], b"message", Ok(())),
    (&[(2, 4), (3, 0)], b"message", Err(2)),
    (&[(7, 3)], b"message", Err(3)),
    (&[(1131, 5)], b"message", Err(4)),
    (&[], b"another message", Err(5)),
];

#[test]
fn signature_refusals(rt: HostRuntime) -> Result<(), Fail> {
    let alloc = rt.alloc();
    let key = PublicKey::parse(keys::key_0()).map_err(|_| "no public key")?;
    for (bytes, message, want) in CASES {
        let answer = number(&key, message, &with_bytes(alloc, bytes)?);
        assert_eq!(rt; answer, want);
    }
    let short = signatures::key_0_leaf_3().get(..1451).ok_or("too short")?;
    assert!(rt; number(&key, b"message", short) == Err(1));
    Ok(())
}
