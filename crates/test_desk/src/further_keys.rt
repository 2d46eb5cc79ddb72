//! Replicas with several keys: the votes go on under the second key once the first is spent.

use crate::replicas::{Step, committee, new_disk, new_log_of, stay_in, trees_of};
use blocks::{CommitteeView, Member, write_multikey_committee};
use certificates::check_vote;
use key_index_store::IndexStore;
use lms_tree::{PUBLIC_KEY_LEN, SigningTree};
use stable_log::MemoryDisk;
use std::alloc::{AllocError, Global};
use std::process::Abort;
use vote_desk::{Parts, Receipt};

// The bytes of a public key.
type KeyBytes = [u8; PUBLIC_KEY_LEN];

// The public keys of these trees.
fn keys_of(alloc: Global, trees: &[SigningTree]) -> Result<Vec<KeyBytes>, AllocError> {
    let mut keys = Vec::new(alloc);
    for tree in trees {
        keys.push(tree.public_key().to_bytes())?;
    }
    Ok(keys)
}

// The replicas of the stored committee, but that replica 0 has these keys.
fn members(
    alloc: Global,
    stored: &CommitteeView,
    keys: &[KeyBytes],
) -> Result<Vec<Member>, AllocError> {
    let mut members = Vec::new(alloc);
    for replica in 0..stored.n() {
        // For the proof: each replica has a key.
        let _count = stored.keys(replica);
        let first = [stored.key(replica, 0).to_bytes()];
        let of_one = if replica == 0 { keys } else { &first };
        members.push(Member {
            weight: 1,
            keys: of_one.to_vec(alloc)?,
        })?;
    }
    Ok(members)
}

// The bytes of the committee of these replicas, where they are few enough, and the keys of each.
fn text_of(alloc: Global, members: &[Member]) -> Option<Vec<u8>> {
    if members.len() > 31 || members.iter().any(|m| m.keys.len() > 4) {
        return None;
    }
    write_multikey_committee(alloc, members).ok()
}

// The bytes of the stored committee, but that replica 0 has these keys, one to four.
fn committee_with<R: Abort + AllocGlobal>(rt: &R, keys: &[KeyBytes]) -> Vec<u8> {
    let members = members(rt.alloc(), &committee(rt), keys).expect(rt, "memory");
    text_of(rt.alloc(), &members).expect(rt, "a committee's bytes")
}

// The committee that these bytes spell.
fn parsed<'a, R: Abort>(rt: &R, bytes: &'a [u8]) -> CommitteeView<'a> {
    CommitteeView::parse(bytes).ok().expect(rt, "a committee")
}

// The bytes of an index store with so many reservations.
fn reservations(alloc: Global, count: u32) -> Result<Vec<u8>, AllocError> {
    let mut bytes = b"HSJ1\x00\x00\x00\x00".to_vec(alloc)?;
    for number in 1..=count {
        bytes.extend_from_slice(b"\x01\x00\x00\x00\x04")?;
        bytes.extend_from_slice(&number.saturating_mul(16).to_be_bytes())?;
    }
    bytes.push(0)?;
    Ok(bytes)
}

// The index store of two keys that goes on at index 1,008: 63 reservations of 16 are stored.
fn store_at_1008<R: Abort + AllocGlobal>(rt: &R) -> IndexStore<MemoryDisk> {
    let bytes = reservations(rt.alloc(), 63).expect(rt, "memory");
    let disk = MemoryDisk::new(rt.alloc(), bytes).expect(rt, "memory");
    let store = IndexStore::recover(rt.alloc(), disk, 2).ok();
    store.expect(rt, "an index store")
}

// Whether a good vote was released in the entry of this number, under this index of the key of this number.
fn is_under(
    committee: &CommitteeView,
    receipt: &Receipt,
    number: u32,
    key: u8,
    index: u32,
) -> bool {
    receipt.number == number
        && receipt.vote.key == key
        && receipt.vote.signature.starts_with(&index.to_be_bytes())
        && check_vote(committee, &receipt.vote).is_ok()
}

// Whether 16 votes were released under the last indices of key 0, and two under the first of key 1.
fn go_on_under_key_1(committee: &CommitteeView, receipts: &[Receipt]) -> bool {
    for (number, receipt) in (0u32..).zip(receipts) {
        let (key, index) = match number.checked_sub(16) {
            None => (0, number.saturating_add(1008)),
            Some(index) => (1, index),
        };
        if !is_under(committee, receipt, number, key, index) {
            return false;
        }
    }
    receipts.len() == 18
}

#[test]
fn votes_go_on_under_the_next_key(rt: HostRuntime) {
    let trees = trees_of(&rt, 2);
    let keys = keys_of(rt.alloc(), &trees).expect(&rt, "memory");
    let bytes = committee_with(&rt, &keys);
    let committee = parsed(&rt, &bytes);
    let log = new_log_of(&rt, &committee, new_disk(&rt));
    let index = store_at_1008(&rt);
    let parts = Parts { trees, index, log };
    let closed = stay_in(&rt, &committee, parts, &[Step::VotesForAll(18)]);
    assert!(rt; go_on_under_key_1(&committee, &closed.receipts));
}
