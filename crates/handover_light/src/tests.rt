use crate::{LightProof, LightProofFormRefusal, LightProofRefusal, check_light_proof, stored};
use blocks::{CommitteeView, Header};
use std::alloc::Global;
use std::test::Fail;

// Where the certificates begin.
const FIRST: usize = 344;

const SECOND: usize = 4751;

const THIRD: usize = 9158;

fn read(alloc: Global, bytes: &[u8]) -> Result<LightProof, Fail> {
    let proof = LightProof::read(alloc, bytes).ok();
    Ok(proof.ok_or("the light proof is unreadable")?)
}

// What comes of a light proof by these bytes.
fn answer(alloc: Global, bytes: &[u8]) -> Result<Result<Header, LightProofRefusal>, Fail> {
    let proof = read(alloc, bytes)?;
    let committee = CommitteeView::parse(stored::committee()).ok();
    let committee = committee.ok_or("the committee is refused")?;
    Ok(check_light_proof(&committee, &proof))
}

// The stored light proof with another byte at a place.
fn with_byte(alloc: Global, at: usize, byte: u8) -> Result<Vec<u8>, Fail> {
    let mut bytes = stored::light_proof().to_vec(alloc)?;
    *bytes.get_mut(at).ok_or("no such byte")? = byte;
    Ok(bytes)
}

#[test]
fn a_light_proof_is_written_again_and_proves_a_handover(rt: HostRuntime) -> Result<(), Fail> {
    let text = read(rt.alloc(), stored::light_proof())?.write(rt.alloc())?;
    assert!(rt; text.as_slice() == stored::light_proof());
    let block = answer(rt.alloc(), &text)?.ok();
    let block = block.ok_or("it proves no handover")?;
    assert_eq!(rt; block.view, 2);
    assert!(rt; block.payload.starts_with(b"HSN1"));
    Ok(())
}

#[test]
fn a_light_proof_with_another_byte_is_unreadable(rt: HostRuntime) -> Result<(), Fail> {
    let cases = [
        (3, b'2', LightProofFormRefusal::Magic),
        (7, 1, LightProofFormRefusal::Number),
        (7, 2, LightProofFormRefusal::Length),
        (6, 0x10, LightProofFormRefusal::Number),
        (92, b'X', LightProofFormRefusal::Header(1)),
        (FIRST + 41, 2, LightProofFormRefusal::Length),
        (SECOND + 42 + 1455 + 1, 0, LightProofFormRefusal::Order(1)),
        (THIRD + 7, 0, LightProofFormRefusal::Count(2)),
    ];
    for (at, byte, want) in cases {
        let bytes = with_byte(rt.alloc(), at, byte)?;
        let refusal = LightProof::read(rt.alloc(), &bytes).err();
        assert_eq!(rt; refusal, Some(want));
    }
    Ok(())
}

// 2 and 4,096 headers after the first are as many as there may be: the length is what is wrong then.
#[test]
fn the_number_of_headers_has_its_limits(rt: HostRuntime) -> Result<(), Fail> {
    let cases = [
        ([0, 0, 0, 1], LightProofFormRefusal::Number),
        ([0, 0, 0, 2], LightProofFormRefusal::Length),
        ([0, 0, 16, 0], LightProofFormRefusal::Length),
        ([0, 0, 16, 1], LightProofFormRefusal::Number),
    ];
    for (number, want) in cases {
        let mut bytes = b"HSH1".to_vec(rt.alloc())?;
        bytes.extend_from_slice(&number)?;
        let refusal = LightProof::read(rt.alloc(), &bytes).err();
        assert_eq!(rt; refusal, Some(want));
    }
    let refusal = LightProof::read(rt.alloc(), b"HSH1\0\0\0").err();
    assert_eq!(rt; refusal, Some(LightProofFormRefusal::Short));
    Ok(())
}

#[test]
fn a_light_proof_with_another_byte_is_refused(rt: HostRuntime) -> Result<(), Fail> {
    let cases = [
        (60, b'X', LightProofRefusal::NoHandover),
        (271, 7, LightProofRefusal::Views),
        (112, 0, LightProofRefusal::Parent(1)),
        (SECOND + 8, 0, LightProofRefusal::OtherBlock(1)),
        (
            THIRD + 42 + 2910 + 1,
            4,
            LightProofRefusal::UnknownReplica(2),
        ),
        (FIRST + 42 + 1455 + 2, 1, LightProofRefusal::Vote(0, 1)),
        (13_564, 0, LightProofRefusal::Vote(2, 2)),
    ];
    for (at, byte, want) in cases {
        let bytes = with_byte(rt.alloc(), at, byte)?;
        let refusal = answer(rt.alloc(), &bytes)?.err();
        assert_eq!(rt; refusal, Some(want));
    }
    Ok(())
}

// The last certificate without its last vote.
#[test]
fn two_votes_of_four_are_too_few(rt: HostRuntime) -> Result<(), Fail> {
    let mut bytes = with_byte(rt.alloc(), THIRD + 41, 2)?;
    bytes.truncate(THIRD + 42 + 2 * 1455);
    let refusal = answer(rt.alloc(), &bytes)?.err();
    assert_eq!(rt; refusal, Some(LightProofRefusal::TooFew(2)));
    Ok(())
}
