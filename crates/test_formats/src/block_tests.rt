//! Blocks, checked with the certificate of their parent: bytes of an independent program.

use crate::stored::{certificate, committee, with_byte, with_entries};
use blocks::Header;
use certificates::{BlockRefusal, LmsVerifier, Verifier, check_block};
use lms_tree::PublicKey;
use std::alloc::Global;
use std::cell::Cell;
use std::process::Abort;
use std::test::Fail;
use test_fixtures::certificates as texts;

// What refuses a header with this certificate of its parent, under the stored committee.
fn refusal_of(alloc: Global, block: &[u8], parent: &[u8]) -> Result<Option<BlockRefusal>, Fail> {
    let header = Header::from_bytes(block).ok();
    let header = header.ok_or("the header is refused")?;
    let parent = certificate(alloc, parent)?;
    let checked = check_block(&committee()?, &LmsVerifier, header, parent);
    Ok(checked.err())
}

// Asserts what refuses A2, a block on A1, with this certificate.
fn is_refused<R: Abort>(
    rt: &R,
    alloc: Global,
    parent: &[u8],
    want: BlockRefusal,
) -> Result<(), Fail> {
    let refusal = refusal_of(alloc, texts::header_a2(), parent)?;
    assert_eq!(rt; refusal, Some(want));
    Ok(())
}

#[test]
fn block_refusals(rt: HostRuntime) -> Result<(), Fail> {
    let alloc = rt.alloc();
    let good = refusal_of(alloc, texts::header_a2(), texts::of_a1())?;
    assert!(rt; good == None);
    let on_genesis = refusal_of(alloc, texts::header_on_genesis(), texts::of_a1())?;
    assert!(rt; on_genesis == Some(BlockRefusal::WrongBlock));
    is_refused(
        &rt,
        alloc,
        &with_entries(alloc, &[0, 1])?,
        BlockRefusal::Count,
    )
}

// The replica of the third entry, and the last byte of the second signature.
#[test]
fn votes_that_are_not_good(rt: HostRuntime) -> Result<(), Fail> {
    let alloc = rt.alloc();
    let stranger = with_byte(alloc, 2953, 9)?;
    is_refused(&rt, alloc, &stranger, BlockRefusal::UnknownReplica)?;
    let last = *texts::of_a1().get(2951).ok_or("too short")?;
    let changed = with_byte(alloc, 2951, last ^ 1)?;
    is_refused(&rt, alloc, &changed, BlockRefusal::Signature(1))
}

#[test]
fn genesis_needs_no_votes(rt: HostRuntime) -> Result<(), Fail> {
    let refusal = refusal_of(rt.alloc(), texts::header_on_genesis(), texts::of_genesis())?;
    assert!(rt; refusal == None);
    Ok(())
}

// Checks signatures, and counts how often it is asked.
#[derive(Drop)]
struct Counting {
    asked: Cell<u32>,
}

impl Verifier for Counting {
    fn verify(&self, key: &PublicKey, message: &[u8], signature: &[u8]) -> bool {
        self.asked.set(self.asked.get().wrapping_add(1));
        LmsVerifier.verify(key, message, signature)
    }
}

#[test]
fn each_vote_is_asked_of_the_given_verifier(rt: HostRuntime) -> Result<(), Fail> {
    let header = Header::from_bytes(texts::header_a2()).ok();
    let header = header.ok_or("the header is refused")?;
    let parent = certificate(rt.alloc(), texts::of_a1())?;
    let verifier = Counting {
        asked: Cell::new(0),
    };
    let is_good = check_block(&committee()?, &verifier, header, parent).is_ok();
    assert!(rt; is_good);
    assert!(rt; verifier.asked.get() == 3);
    Ok(())
}
