//! Votes that name keys: a vote and a block of an independent program, with the number of a key changed.

use crate::several_keys;
use crate::stored::certificate;
use base_wire::{array_at, u16_at, u64_at};
use blocks::Header;
use certificates::{
    BlockRefusal, CommitteeView, LmsVerifier, SignedVote, VoteRefusal, check_block, check_vote,
};
use std::alloc::Global;
use std::test::Fail;

// Where the certificate begins behind the header, in bytes.
const CERTIFICATE_AT: usize = 84;

fn committee() -> Result<CommitteeView<'static>, Fail> {
    let committee = CommitteeView::parse(several_keys::committee()).ok();
    Ok(committee.ok_or("the committee is refused")?)
}

// The stored vote, of replica 2 under its key 1.
fn vote() -> Result<SignedVote, Fail> {
    let bytes = several_keys::vote();
    if bytes.len() != 1495 {
        return Err("no vote".into());
    }
    Ok(SignedVote {
        replica: u16_at(bytes, 0),
        view: u64_at(bytes, 3),
        id: array_at(bytes, 11),
        key: bytes[2],
        signature: array_at(bytes, 43),
    })
}

#[test]
fn a_vote_is_good_under_the_key_that_it_names(rt: HostRuntime) -> Result<(), Fail> {
    let committee = committee()?;
    let vote = vote()?;
    for (replica, key, want) in [
        (2, 1, Ok(())),
        (2, 0, Err(VoteRefusal::Signature)),
        (2, 2, Err(VoteRefusal::UnknownKey)),
        (0, 1, Err(VoteRefusal::UnknownKey)),
        (4, 9, Err(VoteRefusal::UnknownReplica)),
    ] {
        let named = SignedVote {
            replica,
            key,
            ..vote
        };
        assert_eq!(rt; check_vote(&committee, &named), want);
    }
    assert!(rt; vote.to_bytes().as_slice() == several_keys::vote());
    Ok(())
}

// What refuses the stored block, where a byte of the certificate is another one.
fn refusal_of(alloc: Global, at: usize, byte: u8) -> Result<Option<BlockRefusal>, Fail> {
    let mut bytes = several_keys::block().to_vec(alloc)?;
    *bytes.get_mut(at).ok_or("no such byte")? = byte;
    let head = bytes.get(..CERTIFICATE_AT).ok_or("no header")?;
    let header = Header::from_bytes(head)
        .ok()
        .ok_or("the header is refused")?;
    let parent = certificate(alloc, bytes.get(CERTIFICATE_AT..).ok_or("no certificate")?)?;
    Ok(check_block(&committee()?, &LmsVerifier, header, parent).err())
}

// The keys of the three votes stand at 128, 1,583 and 3,038; the replica of the third at 3,036 and 3,037.
#[test]
fn a_block_is_checked_under_the_keys_that_are_named(rt: HostRuntime) -> Result<(), Fail> {
    let alloc = rt.alloc();
    for (at, byte, want) in [
        (128, 0, None),
        (128, 255, Some(BlockRefusal::UnknownKey)),
        (1583, 1, Some(BlockRefusal::UnknownKey)),
        (3038, 0, Some(BlockRefusal::Signature(2))),
        (3038, 2, Some(BlockRefusal::UnknownKey)),
        (3037, 4, Some(BlockRefusal::UnknownReplica)),
    ] {
        assert_eq!(rt; refusal_of(alloc, at, byte)?, want, "{at}");
    }
    Ok(())
}
