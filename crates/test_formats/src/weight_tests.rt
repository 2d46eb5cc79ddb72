//! Blocks and votes under a committee whose replicas weigh 5, 1, 1 and 1, so that a quorum weighs 6: bytes of an independent
//! program.

use crate::certificate_tests::assembled;
use crate::stored::{certificate, entries_of};
use blocks::Header;
use certificates::{
    AssembleRefusal, BlockRefusal, Certificate, CommitteeView, LmsVerifier, SignedVote, check_block,
};
use std::alloc::Global;
use std::test::Fail;
use test_fixtures::weights;

fn committee() -> Result<CommitteeView<'static>, Fail> {
    let committee = CommitteeView::parse(weights::committee()).ok();
    Ok(committee.ok_or("the committee is refused")?)
}

// The stored certificate of C1 with the votes of these replicas alone.
fn by(alloc: Global, replicas: &[usize]) -> Result<Vec<u8>, Fail> {
    entries_of(alloc, weights::votes_for_c1(), replicas)
}

// What refuses E2, a block on C1, where these replicas certify C1.
fn refusal_of(alloc: Global, replicas: &[usize]) -> Result<Option<BlockRefusal>, Fail> {
    let header = Header::from_bytes(weights::header_of_e2()).ok();
    let header = header.ok_or("the header is refused")?;
    let parent = certificate(alloc, &by(alloc, replicas)?)?;
    let checked = check_block(&committee()?, &LmsVerifier, header, parent);
    Ok(checked.err())
}

// The committee has no replicas 4 and 5. A replica that it lacks weighs 1 until it is refused itself.
#[test]
fn blocks_by_weight(rt: HostRuntime) -> Result<(), Fail> {
    let cases: [(&[usize], Option<BlockRefusal>); 8] = [
        (&[0, 1], None),
        (&[0, 1, 2, 3], None),
        (&[0], Some(BlockRefusal::Count)),
        (&[1, 2, 3], Some(BlockRefusal::Count)),
        (&[1, 2, 3, 4], Some(BlockRefusal::Count)),
        (&[1, 2, 3, 4, 5], Some(BlockRefusal::Count)),
        (&[0, 1, 2, 3, 4], Some(BlockRefusal::Count)),
        (&[0, 4], Some(BlockRefusal::UnknownReplica)),
    ];
    for (replicas, want) in cases {
        let refusal = refusal_of(rt.alloc(), replicas)?;
        assert_eq!(rt; refusal, want);
    }
    Ok(())
}

// The votes of the committee's replicas for C1.
fn votes(alloc: Global) -> Result<[SignedVote; 4], Fail> {
    let read = certificate(alloc, weights::votes_for_c1())?;
    if read.count() != 6 {
        return Err("not six votes".into());
    }
    Ok([read.vote(0), read.vote(1), read.vote(2), read.vote(3)])
}

// What comes of the votes of these replicas, one named twice with its vote twice.
fn assembled_by(
    alloc: Global,
    replicas: &[usize],
) -> Result<Result<Certificate, AssembleRefusal>, Fail> {
    let all = votes(alloc)?;
    let mut votes = Vec::new(alloc);
    for replica in replicas {
        votes.push(all[*replica % 4])?;
    }
    assembled(alloc, &committee()?, &votes)
}

// Two votes of one replica weigh twice here, and are then refused themselves.
#[test]
fn votes_that_weigh_too_little(rt: HostRuntime) -> Result<(), Fail> {
    let cases: [(&[usize], AssembleRefusal); 6] = [
        (&[], AssembleRefusal::TooFew),
        (&[0], AssembleRefusal::TooFew),
        (&[1, 2, 3], AssembleRefusal::TooFew),
        (&[1, 1, 2, 2, 3], AssembleRefusal::TooFew),
        (&[1, 1, 2, 2, 3, 3], AssembleRefusal::Double),
        (&[0, 0], AssembleRefusal::Double),
    ];
    for (replicas, want) in cases {
        let refusal = assembled_by(rt.alloc(), replicas)?.err();
        assert_eq!(rt; refusal, Some(want));
    }
    Ok(())
}

#[test]
fn two_votes_may_be_a_quorum(rt: HostRuntime) -> Result<(), Fail> {
    let alloc = rt.alloc();
    let made = assembled_by(alloc, &[1, 0])?;
    let text = made.ok().ok_or("refused")?.write(alloc)?;
    let stored = by(alloc, &[0, 1])?;
    assert!(rt; text == stored);
    Ok(())
}
