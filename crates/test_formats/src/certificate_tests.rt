//! Certificates, read, written and put together: bytes of an independent program.

use crate::stored::{ENTRY, HEAD, certificate, committee, with_entries};
use certificates::{
    AssembleRefusal, Certificate, CertificateRefusal, CommitteeView, SignedVote, assemble,
    check_vote,
};
use std::alloc::Global;
use std::process::Abort;
use std::test::Fail;
use test_fixtures::certificates as texts;

fn refusal_of(alloc: Global, bytes: &[u8]) -> Option<CertificateRefusal> {
    Certificate::read(alloc, bytes).err()
}

fn is_read_and_written<R: Abort>(
    rt: &R,
    alloc: Global,
    bytes: &[u8],
    count: usize,
) -> Result<(), Fail> {
    let read = certificate(alloc, bytes)?;
    let written = read.write(alloc)?;
    assert!(rt; read.count() == count);
    assert!(rt; written.as_slice() == bytes);
    Ok(())
}

// 32 entries of replicas 0 to 31, each with the first stored signature.
fn thirty_two(alloc: Global) -> Result<Vec<u8>, Fail> {
    let mut bytes = with_entries(alloc, &[0; 32])?;
    for k in 0..32u8 {
        let at = HEAD + ENTRY * k as usize + 1;
        *bytes.get_mut(at).ok_or("no such entry")? = k;
    }
    Ok(bytes)
}

#[test]
fn certificate_refusals(rt: HostRuntime) -> Result<(), Fail> {
    let alloc = rt.alloc();
    is_read_and_written(&rt, alloc, texts::of_genesis(), 0)?;
    is_read_and_written(&rt, alloc, texts::of_a1(), 3)?;
    let short = texts::of_a1().get(..4406).ok_or("too short")?;
    assert!(rt; refusal_of(alloc, short) == Some(CertificateRefusal::Length));
    let falling = with_entries(alloc, &[2, 1, 0])?;
    assert!(rt; refusal_of(alloc, &falling) == Some(CertificateRefusal::Order));
    Ok(())
}

#[test]
fn thirty_two_entries_are_refused(rt: HostRuntime) -> Result<(), Fail> {
    let many = thirty_two(rt.alloc())?;
    assert!(rt; many.len() == 46602);
    assert!(rt; refusal_of(rt.alloc(), &many) == Some(CertificateRefusal::Count));
    Ok(())
}

/// The certificate of these votes, which have to be by replicas of the committee.
pub fn assembled(
    alloc: Global,
    committee: &CommitteeView,
    votes: &[SignedVote],
) -> Result<Result<Certificate, AssembleRefusal>, Fail> {
    let n = committee.n();
    if !votes.iter().all(|v| v.replica < n) || !votes.iter().all(|v| 1 <= v.view) {
        return Err("a vote that no certificate has".into());
    }
    Ok(assemble(alloc, committee, votes))
}

fn is_refused<R: Abort>(
    rt: &R,
    alloc: Global,
    votes: &[SignedVote],
    want: AssembleRefusal,
) -> Result<(), Fail> {
    let refusal = assembled(alloc, &committee()?, votes)?.err();
    assert_eq!(rt; refusal, Some(want));
    Ok(())
}

// The three votes for A1.
fn votes(alloc: Global) -> Result<[SignedVote; 3], Fail> {
    let read = certificate(alloc, texts::of_a1())?;
    if read.count() != 3 {
        return Err("not three votes".into());
    }
    Ok([read.vote(0), read.vote(1), read.vote(2)])
}

#[test]
fn votes_are_good(rt: HostRuntime) -> Result<(), Fail> {
    let committee = committee()?;
    for vote in votes(rt.alloc())? {
        assert_eq!(rt; check_vote(&committee, &vote), Ok(()));
    }
    Ok(())
}

#[test]
fn assembled_votes(rt: HostRuntime) -> Result<(), Fail> {
    let alloc = rt.alloc();
    let [first, second, third] = votes(alloc)?;
    let other = SignedVote {
        id: [7; 32],
        ..third
    };
    is_refused(&rt, alloc, &[first, second], AssembleRefusal::TooFew)?;
    is_refused(
        &rt,
        alloc,
        &[first, second, second],
        AssembleRefusal::Double,
    )?;
    is_refused(&rt, alloc, &[first, second, other], AssembleRefusal::Mixed)
}

#[test]
fn votes_in_any_order_are_assembled(rt: HostRuntime) -> Result<(), Fail> {
    let alloc = rt.alloc();
    let [first, second, third] = votes(alloc)?;
    let made = assembled(alloc, &committee()?, &[third, first, second])?;
    let text = made.ok().ok_or("refused")?.write(alloc)?;
    assert!(rt; text.as_slice() == texts::of_a1());
    Ok(())
}
