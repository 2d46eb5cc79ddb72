//! The worked headers and committees. Roots and digests were computed by an independent program, from the
//! seeds that the crate `fixtures` names.

ghost use Rattle.std.specs.Prelude.{◌<◌};

use blocks::{
    CommitteeRefusal, CommitteeView, HEADER_LEN, Header, HeaderRefusal, NamedHeader,
    write_committee,
};
use lms_tree::{PUBLIC_KEY_LEN, PublicKey};
use std::alloc::{AllocError, Global};
use std::process::Abort;
use std::test::Fail;

// The roots of the key trees of the replicas 0 to 3 and of one stranger.
const ROOTS: [&[u8; 32]; 5] = [
    b"\xd0\xb1\x26\x19\xff\x0c\x5a\xd2\xc3\xea\x0f\x6b\xdc\xec\x70\x18\x0c\x19\xbe\x66\xee\x5b\x7f\xf1\x39\x20\xf4\x22\xcf\x46\x45\x17",
    b"\xc1\x53\x65\x69\x19\xf3\x03\xcd\xa1\xd0\x98\xd4\x5d\x0d\x8b\x6c\xb2\xee\x6a\x17\x83\xb8\x27\xd6\x1c\x9a\xde\x5a\x5c\x3d\xb2\xf8",
    b"\x81\x7b\xd0\xf0\x82\xb6\x97\xb0\xa2\x53\x08\x9b\x4d\x09\x9f\x68\xd4\x4e\xbf\x26\x01\xdf\x27\x33\x93\xab\xd0\xb5\x19\xe2\xe8\x85",
    b"\x9d\x8f\xab\x48\xc4\xf5\xcc\xb8\xe3\x68\xd9\x74\x96\x31\x1e\x21\x04\xc9\x77\x81\x05\xe5\xdf\x1f\x43\x74\x1c\x5f\xa6\x78\xc8\xf1",
    b"\x44\x40\x64\x7e\xb1\x94\xf7\xe1\xc2\xac\x8f\xce\x6e\xf6\x4f\xe2\xbb\x08\x71\x61\x23\x51\xc0\xb2\x4a\x6e\x5c\x1a\x38\xf0\x74\x96",
];

// The id of the committee's genesis.
const CHAIN: &[u8; 32] =
    b"\x3d\x3f\x18\xf8\x10\xbb\x95\xb2\x1c\xce\xd2\xc2\x56\x5b\xde\xe7\xce\x91\x35\xbe\xa7\x67\x19\x93\xce\x03\xf0\xd0\xf9\x7f\x0e\x4d";

// The id of A1, a block of view 1 on genesis.
const A1: &[u8; 32] =
    b"\x5b\x52\x6f\x8f\xfa\x3d\x66\x24\x9b\x11\xba\x84\x31\xf9\xd9\x60\xb0\x8a\xad\x60\xe3\x3b\x28\x8a\xee\xf2\xd1\x1f\x58\xc1\xc9\x38";

/// The public key of a fixture: its key id is 16 bytes of its number.
pub fn key(r: u8) -> [u8; PUBLIC_KEY_LEN]
    requires { r < 5 }
{
    PublicKey {
        key_id: [r; 16],
        root: *ROOTS[r as usize],
    }
    .to_bytes()
}

fn committee(alloc: Global) -> Result<Vec<u8>, AllocError> {
    write_committee(alloc, 1, &[key(0), key(1), key(2), key(3)])
}

// The committee with this byte at a place.
fn with_byte(alloc: Global, at: usize, byte: u8) -> Result<Vec<u8>, Fail> {
    let mut bytes = committee(alloc)?;
    *bytes.get_mut(at).ok_or("no such byte")? = byte;
    Ok(bytes)
}

fn refusal_of(bytes: &[u8]) -> Option<CommitteeRefusal> {
    CommitteeView::parse(bytes).err()
}

// Asserts the length of the bytes, and what refuses them.
fn is_refused<R: Abort>(rt: &R, bytes: &[u8], length: usize, want: CommitteeRefusal) {
    assert!(rt; bytes.len() == length);
    assert_eq!(rt; refusal_of(bytes), Some(want));
}

#[test]
fn committee_refusals(rt: HostRuntime) -> Result<(), Fail> {
    let good = committee(rt.alloc())?;
    assert!(rt; good.len() == 232);
    assert!(rt; refusal_of(&good) == None);
    is_refused(
        &rt,
        good.get(..231).ok_or("too short")?,
        231,
        CommitteeRefusal::Length,
    );
    Ok(())
}

#[test]
fn refusals_of_one_byte(rt: HostRuntime) -> Result<(), Fail> {
    let other_magic = with_byte(rt.alloc(), 3, b'9')?;
    is_refused(&rt, &other_magic, 232, CommitteeRefusal::Magic);
    let other_type = with_byte(rt.alloc(), 123, 5)?;
    is_refused(&rt, &other_type, 232, CommitteeRefusal::Key(2));
    Ok(())
}

#[test]
fn refusals_of_keys(rt: HostRuntime) -> Result<(), Fail> {
    let five = write_committee(rt.alloc(), 1, &[key(0), key(1), key(2), key(3), key(4)])?;
    is_refused(&rt, &five, 288, CommitteeRefusal::Size);
    let twins = write_committee(rt.alloc(), 1, &[key(0), key(1), key(2), key(1)])?;
    is_refused(&rt, &twins, 232, CommitteeRefusal::SameKey(1, 3));
    Ok(())
}

#[test]
fn chain_of_a_committee(rt: HostRuntime) -> Result<(), Fail> {
    let bytes = committee(rt.alloc())?;
    let committee = CommitteeView::parse(&bytes)
        .ok()
        .ok_or("the committee is refused")?;
    assert!(rt; committee.chain() == *CHAIN);
    assert!(rt; committee.genesis().id() == *CHAIN);
    Ok(())
}

// A header of these views whose other bytes are 0.
fn header_bytes(view: u8, parent_view: u8) -> [u8; HEADER_LEN] {
    let mut bytes = [0; HEADER_LEN];
    bytes[..4].copy_from_slice(b"HSB1");
    bytes[11] = view;
    bytes[19] = parent_view;
    bytes
}

#[test]
fn header_refusals(rt: HostRuntime) -> Result<(), Fail> {
    for (view, parent_view, length, want) in [
        (1, 0, 83, Some(HeaderRefusal::Length)),
        (5, 5, 84, Some(HeaderRefusal::ViewOrder)),
        (0, 0, 84, None),
        (0, 1, 84, Some(HeaderRefusal::ViewOrder)),
    ] {
        let bytes = header_bytes(view, parent_view);
        let text = bytes.get(..length).ok_or("too short")?;
        let refusal = Header::from_bytes(text).err();
        assert!(rt; refusal == want, "{view} on {parent_view}");
    }
    Ok(())
}

#[test]
fn id_of_a_header(rt: HostRuntime) {
    let mut payload = [0; 32];
    payload[0] = b'A';
    payload[1] = 1;
    let a1 = Header {
        view: 1,
        parent_view: 0,
        parent: *CHAIN,
        payload,
    };
    assert!(rt; *NamedHeader::of(a1).id() == *A1);
}
