//! A committee of which a replica has two keys, and how its bytes are refused. The second key and the id of its genesis were
//! computed by an independent program; the first keys are those of the other tests.

use crate::header_tests::key;
use base_wire::MOST_KEYS;
use blocks::{CommitteeRefusal, CommitteeView, Member, write_multikey_committee};
use lms_tree::PUBLIC_KEY_LEN;
use std::alloc::Global;
use std::test::Fail;

// Key 1 of replica 0, whose key id is 16 bytes 20.
const SECOND: &[u8; PUBLIC_KEY_LEN] =
    b"\x00\x00\x00\x06\x00\x00\x00\x04\x20\x20\x20\x20\x20\x20\x20\x20\x20\x20\x20\x20\x20\x20\x20\x20\x66\x0d\xe6\xc8\x78\x62\xc5\x51\x4e\x0c\x43\x55\x05\x80\xb9\xbe\x7f\xb1\x26\xb3\xe5\x2e\x1b\x04\x79\xe6\xc6\xa0\x8d\xae\xe9\xec";

// The id of the committee's genesis.
const CHAIN: &[u8; 32] =
    b"\x6c\xae\xe8\x4b\xb3\x04\x5b\x79\x49\xeb\xf2\x83\x3f\xdc\x65\x2e\x11\x61\xc8\x32\xd9\xb9\xb5\x41\x8d\x98\xfc\x63\x48\x41\x5f\xcb";

fn written(alloc: Global, keys: [&[[u8; PUBLIC_KEY_LEN]]; 4]) -> Result<Vec<u8>, Fail> {
    let mut members = Vec::new(alloc);
    for of_one in keys {
        members.push(Member {
            weight: 1,
            keys: of_one.to_vec(alloc)?,
        })?;
    }
    if members.len() > 31 || members.iter().any(|m| m.keys.len() > MOST_KEYS as usize) {
        return Err("too many".into());
    }
    Ok(write_multikey_committee(alloc, &members)?)
}

// The committee: replica 0 has two keys, the others have one.
fn committee(alloc: Global) -> Result<Vec<u8>, Fail> {
    written(alloc, [&[key(0), *SECOND], &[key(1)], &[key(2)], &[key(3)]])
}

fn refusal_of(bytes: &[u8]) -> Option<CommitteeRefusal> {
    CommitteeView::parse(bytes).err()
}

#[test]
fn a_committee_of_several_keys(rt: HostRuntime) -> Result<(), Fail> {
    let bytes = committee(rt.alloc())?;
    assert!(rt; bytes.len() == 936);
    let committee = CommitteeView::parse(&bytes)
        .ok()
        .ok_or("the committee is refused")?;
    if committee.n() != 4 {
        return Err("not four replicas".into());
    }
    assert!(rt; committee.chain() == *CHAIN);
    assert!(rt; committee.has_weights());
    assert!(rt; (committee.total(), committee.quorum()) == (4, 3));
    assert!(rt; (committee.keys(0), committee.keys(1)) == (2, 1));
    if committee.keys(0) == 2 {
        assert!(rt; committee.key(0, 0).to_bytes() == key(0));
        assert!(rt; committee.key(0, 1).to_bytes() == *SECOND);
    }
    Ok(())
}

// One byte of the committee is another one. Replica r begins at 8 + 232r: its weight, its number of keys, and four places.
#[test]
fn the_first_fault_of_a_committee_of_several_keys(rt: HostRuntime) -> Result<(), Fail> {
    let good = committee(rt.alloc())?;
    for (at, byte, want) in [
        (3, b'4', CommitteeRefusal::Length),
        (5, 1, CommitteeRefusal::Size),
        (247, 5, CommitteeRefusal::KeyCount(1)),
        (247, 0, CommitteeRefusal::KeyCount(1)),
        (247, 2, CommitteeRefusal::Key(5)),
        (251, 5, CommitteeRefusal::Key(4)),
        (304, 1, CommitteeRefusal::KeyCount(1)),
        (239, 1, CommitteeRefusal::KeyCount(0)),
        (75, 5, CommitteeRefusal::Key(1)),
        (475, 0, CommitteeRefusal::Weight(2)),
    ] {
        let mut bytes = good.to_vec(rt.alloc())?;
        *bytes.get_mut(at).ok_or("no such byte")? = byte;
        assert_eq!(rt; refusal_of(&bytes), Some(want), "{at}");
    }
    let short = good.get(..935).ok_or("too short")?;
    assert!(rt; refusal_of(short) == Some(CommitteeRefusal::Length));
    Ok(())
}

// Keys are numbered 4r + k.
#[test]
fn one_key_twice(rt: HostRuntime) -> Result<(), Fail> {
    let own = written(
        rt.alloc(),
        [&[key(0), key(0)], &[key(1)], &[key(2)], &[key(3)]],
    )?;
    assert!(rt; refusal_of(&own) == Some(CommitteeRefusal::SameKey(0, 1)));
    let other = written(
        rt.alloc(),
        [&[key(0), *SECOND], &[key(1)], &[key(2)], &[*SECOND]],
    )?;
    assert!(rt; refusal_of(&other) == Some(CommitteeRefusal::SameKey(1, 12)));
    Ok(())
}
