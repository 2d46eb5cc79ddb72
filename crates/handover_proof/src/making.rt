//! The light proof, and that it shows what it is for.

ghost use Rattle.std.specs.Prelude.{◌≡◌, IfErr, IfOk, IfSome, IsTrue, None};
ghost use Rattle.handover_proof.specs.LightMaking.{HasNoHandover, IsLightProofOf, Proves};
ghost use Rattle.handover_proof.specs.declared.making.LightMakingRefusal.TheVariants.{Memory};

use crate::finding::find_light_proof;
use audit_evidence::Evidence;
use blocks::NamedHeader;
use handover_light::{LightProof, check_light_proof};
use handover_search::handover_of;
use std::alloc::{AllocError, Global};

/// Why a light proof is not made of evidence that proves a handover.
#[derive(Clone, Copy, Debug, PartialEq, Eq)]
pub enum LightMakingRefusal {
    /// Memory was refused.
    Memory,
    /// From the block that hands over to the least commit that has it in its chain, and the two blocks after that, there are more headers
    /// than a light proof has room for, 4,097.
    TooLong,
}

impl From<AllocError> for LightMakingRefusal {
    ghost from_gives = { λ _ refusal. refusal ≡ Memory };

    fn from(_refused: AllocError) -> LightMakingRefusal {
        LightMakingRefusal::Memory
    }
}

// Whether the light proof proves that this block is committed.
fn proves(evidence: &Evidence, proof: &LightProof, block: &NamedHeader) -> bool
    ensures { IsTrue result → Proves evidence.now.committee proof.now block.now }
{
    match check_light_proof(&evidence.committee(), proof) {
        Ok(first) => first == *block.header(),
        Err(_) => false,
    }
}

// The light proof of the handover by this block, if one is found that proves it.
fn proof_of(
    alloc: Global,
    evidence: &Evidence,
    block: &NamedHeader,
) -> Result<LightProof, LightMakingRefusal>
    ensures { IfOk result (λ p. Proves evidence.now.committee p block.now) }
{
    match find_light_proof(alloc, evidence, block)? {
        Some(proof) if proves(evidence, &proof, block) => Ok(proof),
        _ => Err(LightMakingRefusal::TooLong),
    }
}

/// The light proof of the first handover on a chain that the evidence proves to be committed: the headers from the block that hands over to
/// the least commit that has it in its chain and the two after that, and the certificates of these three by votes of the evidence. It is
/// judged by `check_light_proof` before it is handed out. None if the evidence proves no handover; where commits conflict it may be of
/// the one or of the other, or none.
pub fn make_light_proof(
    alloc: Global,
    evidence: &Evidence,
) -> Result<Option<LightProof>, LightMakingRefusal>
    ensures made { IfOk result (λ made. IfSome made (IsLightProofOf evidence.now)) }
    ensures none { IfOk result (λ made. made ≡ None → HasNoHandover evidence.now) }
{
    match handover_of(alloc, evidence)? {
        Some(block) => Ok(Some(proof_of(alloc, evidence, &block)?)),
        None => Ok(None),
    }
}
