//! The worked committee with weights, and how its bytes are refused. Its bytes and the id of its genesis were computed by an
//! independent program, from the seeds that the crate `fixtures` names.

use crate::header_tests::key;
use blocks::{CommitteeRefusal, CommitteeView, Member, write_committee, write_weighted_committee};
use lms_tree::{PUBLIC_KEY_LEN, PublicKey};
use std::alloc::{AllocError, Global};
use std::test::Fail;

// Replicas 0 to 3 with the weights 5, 1, 1 and 1: 248 bytes.
const WEIGHTED: &[u8; 248] =
    b"\x48\x53\x43\x32\x00\x00\x00\x04\x00\x00\x00\x05\x00\x00\x00\x06\x00\x00\x00\x04\x00\x00\x00\x00\x00\x00\x00\x00\x00\x00\x00\x00\x00\x00\x00\x00\xd0\xb1\x26\x19\xff\x0c\x5a\xd2\xc3\xea\x0f\x6b\xdc\xec\x70\x18\x0c\x19\xbe\x66\xee\x5b\x7f\xf1\x39\x20\xf4\x22\xcf\x46\x45\x17\x00\x00\x00\x01\x00\x00\x00\x06\x00\x00\x00\x04\x01\x01\x01\x01\x01\x01\x01\x01\x01\x01\x01\x01\x01\x01\x01\x01\xc1\x53\x65\x69\x19\xf3\x03\xcd\xa1\xd0\x98\xd4\x5d\x0d\x8b\x6c\xb2\xee\x6a\x17\x83\xb8\x27\xd6\x1c\x9a\xde\x5a\x5c\x3d\xb2\xf8\x00\x00\x00\x01\x00\x00\x00\x06\x00\x00\x00\x04\x02\x02\x02\x02\x02\x02\x02\x02\x02\x02\x02\x02\x02\x02\x02\x02\x81\x7b\xd0\xf0\x82\xb6\x97\xb0\xa2\x53\x08\x9b\x4d\x09\x9f\x68\xd4\x4e\xbf\x26\x01\xdf\x27\x33\x93\xab\xd0\xb5\x19\xe2\xe8\x85\x00\x00\x00\x01\x00\x00\x00\x06\x00\x00\x00\x04\x03\x03\x03\x03\x03\x03\x03\x03\x03\x03\x03\x03\x03\x03\x03\x03\x9d\x8f\xab\x48\xc4\xf5\xcc\xb8\xe3\x68\xd9\x74\x96\x31\x1e\x21\x04\xc9\x77\x81\x05\xe5\xdf\x1f\x43\x74\x1c\x5f\xa6\x78\xc8\xf1";

// The id of the committee's genesis.
const CHAIN: &[u8; 32] =
    b"\xd0\x60\x80\xba\xa9\xc3\xb4\x30\xe0\xf1\x25\x04\x6d\xc8\x98\x6b\x30\xad\xf9\x05\xe8\x88\x9d\x2f\x37\x8d\x3a\x23\xfa\x61\xbf\xc4";

// The first bytes of the committee, as many as said, with these bytes at these places.
fn changed(alloc: Global, length: usize, changes: &[(usize, u8)]) -> Result<Vec<u8>, Fail> {
    let mut bytes = WEIGHTED.get(..length).ok_or("too long")?.to_vec(alloc)?;
    for (at, byte) in changes {
        *bytes.get_mut(*at).ok_or("no such byte")? = *byte;
    }
    Ok(bytes)
}

fn refusal_of(bytes: &[u8]) -> Option<CommitteeRefusal> {
    CommitteeView::parse(bytes).err()
}

#[test]
fn weighted_committee_refusals(rt: HostRuntime) -> Result<(), Fail> {
    assert!(rt; refusal_of(WEIGHTED) == None);
    let short = WEIGHTED.get(..247).ok_or("too short")?;
    assert!(rt; refusal_of(short) == Some(CommitteeRefusal::Length));
    let three = changed(rt.alloc(), 188, &[(7, 3)])?;
    assert!(rt; refusal_of(&three) == Some(CommitteeRefusal::Size));
    let weightless = changed(rt.alloc(), 248, &[(131, 0)])?;
    assert!(rt; refusal_of(&weightless) == Some(CommitteeRefusal::Weight(2)));
    Ok(())
}

// With one format's length under another magic, with a number that only the other format has, and with two faults at
// once. Replica 1's weight ends at 71, and its key begins at 72; replica 3's weight ends at 191.
#[test]
fn the_first_fault_of_a_weighted_committee(rt: HostRuntime) -> Result<(), Fail> {
    let cases: [(usize, &[(usize, u8)], CommitteeRefusal); 9] = [
        (232, &[], CommitteeRefusal::Length),
        (248, &[(3, b'1')], CommitteeRefusal::Length),
        (248, &[(3, b'9')], CommitteeRefusal::Length),
        (232, &[(3, b'9'), (5, 9)], CommitteeRefusal::Magic),
        (248, &[(5, 1)], CommitteeRefusal::Size),
        (248, &[(5, 1), (75, 5)], CommitteeRefusal::Size),
        (248, &[(75, 5), (71, 0)], CommitteeRefusal::Key(1)),
        (248, &[(191, 0), (71, 0)], CommitteeRefusal::Weight(1)),
        (4, &[], CommitteeRefusal::Length),
    ];
    for (length, changes, want) in cases {
        let bytes = changed(rt.alloc(), length, changes)?;
        assert_eq!(rt; refusal_of(&bytes), Some(want));
    }
    Ok(())
}

fn written(alloc: Global, members: &[Member]) -> Result<Vec<u8>, Fail> {
    if members.len() > 31 || members.iter().any(|m| m.keys.len() != 1) {
        return Err("too many".into());
    }
    Ok(write_weighted_committee(alloc, members)?)
}

// A replica with one key.
fn with_key(alloc: Global, weight: u32, key: [u8; PUBLIC_KEY_LEN]) -> Result<Member, Fail> {
    Ok(Member {
        weight,
        keys: vec![in alloc; key]?,
    })
}

// The bytes of a committee with these weights and keys.
fn of_keys(
    alloc: Global,
    weights: [u32; 4],
    keys: [[u8; PUBLIC_KEY_LEN]; 4],
) -> Result<Vec<u8>, Fail> {
    let [a, b, c, d] = weights;
    let [e, f, g, h] = keys;
    let members = [
        with_key(alloc, a, e)?,
        with_key(alloc, b, f)?,
        with_key(alloc, c, g)?,
        with_key(alloc, d, h)?,
    ];
    written(alloc, &members)
}

#[test]
fn a_weighted_committee_is_written(rt: HostRuntime) -> Result<(), Fail> {
    let keys = [key(0), key(1), key(2), key(3)];
    let bytes = of_keys(rt.alloc(), [5, 1, 1, 1], keys)?;
    assert!(rt; bytes.as_slice() == WEIGHTED.as_slice());
    let twins = [key(0), key(1), key(2), key(1)];
    let bytes = of_keys(rt.alloc(), [0, 1, 1, 1], twins)?;
    assert!(rt; refusal_of(&bytes) == Some(CommitteeRefusal::SameKey(1, 3)));
    Ok(())
}

#[test]
fn a_weighted_committee_is_read(rt: HostRuntime) -> Result<(), Fail> {
    let committee = CommitteeView::parse(WEIGHTED)
        .ok()
        .ok_or("the committee is refused")?;
    if committee.n() != 4 {
        return Err("not four replicas".into());
    }
    let weights = [
        committee.weight(0),
        committee.weight(1),
        committee.weight(2),
        committee.weight(3),
    ];
    assert!(rt; weights == [5, 1, 1, 1]);
    assert!(rt; (committee.total(), committee.quorum()) == (8, 6));
    assert!(rt; committee.has_weights());
    assert!(rt; committee.keys(2) == 1);
    assert!(rt; committee.key(2, 0).to_bytes() == key(2));
    assert!(rt; committee.chain() == *CHAIN);
    Ok(())
}

// The key of replica r of a committee of many.
fn key_of(r: u8) -> [u8; PUBLIC_KEY_LEN] {
    PublicKey {
        key_id: [r; 16],
        root: [7; 32],
    }
    .to_bytes()
}

// The bytes of so many replicas with this weight each.
fn alike(alloc: Global, n: u8, weight: u32) -> Result<Vec<u8>, Fail> {
    let mut members = Vec::new(alloc);
    for r in 0..n {
        members.push(with_key(alloc, weight, key_of(r))?)?;
    }
    written(alloc, &members)
}

// How much all replicas count, and how much a quorum.
fn sums_of(bytes: &[u8]) -> Option<(u64, u64)> {
    let committee = CommitteeView::parse(bytes).ok()?;
    Some((committee.total(), committee.quorum()))
}

// The least above two thirds of the weight of all. The greatest weight of all is above what 32 bits hold.
#[test]
fn quorums_by_weight(rt: HostRuntime) -> Result<(), Fail> {
    for (n, weight, total, quorum) in [
        (4, 1, 4, 3),
        (5, 1, 5, 4),
        (6, 1, 6, 5),
        (7, 1, 7, 5),
        (4, 3, 12, 9),
        (31, 1, 31, 21),
        (4, u32::MAX, 17_179_869_180, 11_453_246_121),
        (31, u32::MAX, 133_143_986_145, 88_762_657_431),
    ] {
        let bytes = alike(rt.alloc(), n, weight)?;
        assert_eq!(rt; sums_of(&bytes), Some((total, quorum)));
    }
    Ok(())
}

// The bytes of a committee without weights, of 3f + 1 replicas.
fn once(alloc: Global, f: u8) -> Result<Vec<u8>, Fail> {
    let mut keys = Vec::new(alloc);
    for r in 0..f.saturating_mul(3).saturating_add(1) {
        keys.push(key_of(r))?;
    }
    if keys.len() > 31 {
        return Err("too many".into());
    }
    Ok(write_committee(alloc, u16::from(f), &keys)?)
}

#[test]
fn replicas_without_weights_count_once(rt: HostRuntime) -> Result<(), Fail> {
    for (f, total, quorum) in [(1, 4, 3), (2, 7, 5), (3, 10, 7), (10, 31, 21)] {
        let bytes = once(rt.alloc(), f)?;
        assert_eq!(rt; sums_of(&bytes), Some((total, quorum)));
    }
    Ok(())
}

#[test]
fn four_to_thirty_one_have_weights(rt: HostRuntime) -> Result<(), Fail> {
    for n in 0..=31 {
        let bytes = alike(rt.alloc(), n, 1)?;
        assert!(rt; (refusal_of(&bytes) == None) == (4 <= n), "{n}");
    }
    let mut many = alike(rt.alloc(), 31, 1)?;
    many.extend_from_slice(&[0, 0, 0, 1])?;
    many.extend_from_slice(&key_of(31))?;
    *many.get_mut(7).ok_or("no such byte")? = 32;
    assert!(rt; refusal_of(&many) == Some(CommitteeRefusal::Size));
    Ok(())
}
