//! The keys of a committee of four, from fixed seeds.

use blocks::{Id, Member, write_committee, write_multikey_committee};
use certificates::Statement;
use lmots::PrivateSeed;
use lms_tree::{PUBLIC_KEY_LEN, SigningTree};
use replica_files::generate_parallel;
use std::alloc::{AllocError, Global};
use std::io;
use std::thread::Threads;

/// How many replicas of the committee may be faulty.
const FAULTY: u16 = 1;

/// How many keys a replica has at the most.
pub(crate) const MOST_KEYS: u8 = 4;

// The bytes of a public key.
type KeyBytes = [u8; PUBLIC_KEY_LEN];

/// Replicas 1, 2 and 3, a quorum, which sign whatever they are shown, always under index 0: a check of such a signature
/// takes no less for it.
#[derive(Drop)]
pub(crate) struct Signers {
    trees: [SigningTree; 3],
}

// The seed of a replica's key in a round of the run.
fn seed_of(replica: u8, key: u8, round: u64) -> PrivateSeed {
    let [.., high, low] = round.to_be_bytes();
    let mut key_id = [replica; 16];
    key_id[0] = high;
    key_id[1] = low;
    key_id[2] = key;
    let mut seed = [replica.wrapping_add(16); 32];
    seed[0] = high;
    seed[1] = low;
    seed[2] = key;
    PrivateSeed { key_id, seed }
}

/// So many keys of replica 0, which are new ones in each round.
pub(crate) fn own_keys<R: Threads + Sync>(
    rt: &R,
    alloc: Global,
    round: u64,
    count: u8,
) -> Result<Vec<SigningTree>, AllocError> {
    let mut trees = Vec::new(alloc);
    for key in 0..count {
        trees.push(generate_parallel(rt, alloc, seed_of(0, key, round))?)?;
    }
    Ok(trees)
}

// The public keys of these trees.
fn keys_of(alloc: Global, trees: &[SigningTree]) -> Result<Vec<KeyBytes>, AllocError> {
    let mut keys = Vec::new(alloc);
    for tree in trees {
        keys.push(tree.public_key().to_bytes())?;
    }
    Ok(keys)
}

// The bytes of the committee of four replicas that count once, the first of which has these keys.
fn committee_of(alloc: Global, own: &[KeyBytes], others: &[KeyBytes]) -> io::Result<Vec<u8>> {
    let mut members = Vec::new(alloc);
    members.push(Member {
        weight: 1,
        keys: own.to_vec(alloc)?,
    })?;
    for key in others {
        members.push(Member {
            weight: 1,
            keys: [*key].to_vec(alloc)?,
        })?;
    }
    let are_many = members.len() > 31 || members.iter().any(|m| m.keys.len() > MOST_KEYS as usize);
    if are_many {
        return Err(io::Error::from(io::ErrorKind::InvalidInput));
    }
    Ok(write_multikey_committee(alloc, &members)?)
}

impl Signers {
    pub fn generate<R: Threads + Sync>(rt: &R, alloc: Global) -> Result<Signers, AllocError> {
        let first = generate_parallel(rt, alloc, seed_of(1, 0, 0))?;
        let second = generate_parallel(rt, alloc, seed_of(2, 0, 0))?;
        let third = generate_parallel(rt, alloc, seed_of(3, 0, 0))?;
        Ok(Signers {
            trees: [first, second, third],
        })
    }

    /// The bytes of the committee of the replica 0 with these keys and the signers: in the format of replicas that count
    /// once where it has one key, and else in that of several keys.
    pub fn committee(&self, alloc: Global, own: &[SigningTree]) -> io::Result<Vec<u8>> {
        let own = keys_of(alloc, own)?;
        let others = keys_of(alloc, &self.trees)?;
        if let ([own], [first, second, third]) = (own.as_slice(), others.as_slice()) {
            let keys = [*own, *first, *second, *third];
            return Ok(write_committee(alloc, FAULTY, &keys)?);
        }
        committee_of(alloc, &own, &others)
    }

    /// The bytes of the signers' certificate on a block; of view 0 that with no votes.
    pub fn certificate(
        &self,
        alloc: Global,
        chain: Id,
        view: u64,
        id: Id,
    ) -> Result<Vec<u8>, AllocError> {
        let mut text = view.to_be_bytes().to_vec(alloc)?;
        text.extend_from_slice(&id)?;
        if view == 0 {
            text.extend_from_slice(&[0; 2])?;
            return Ok(text);
        }
        text.extend_from_slice(&3u16.to_be_bytes())?;
        let statement = Statement { chain, view, id }.to_bytes();
        for (replica, tree) in (1..=3u16).zip(&self.trees) {
            text.extend_from_slice(&replica.to_be_bytes())?;
            text.push(0)?;
            text.extend_from_slice(&tree.sign_at(0, &statement))?;
        }
        Ok(text)
    }
}
