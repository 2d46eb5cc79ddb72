//! The parts of a light proof. What is found here is judged as a whole where it is used, so no clause speaks of it.

use crate::{certificate_on, proving_blocks};
use audit_commits::{certified_chains, proved_commits};
use audit_evidence::Evidence;
use blocks::{Header, NamedHeader};
use handover_light::LightProof;
use std::alloc::{AllocError, Global};

// The headers from the block on.
fn headers_from(
    alloc: Global,
    blocks: &[NamedHeader],
    block: &NamedHeader,
) -> Result<Vec<Header>, AllocError> {
    let mut headers = Vec::new(alloc);
    let mut found = false;
    for at in blocks {
        found = found || at == block;
        if found {
            headers.push(*at.header())?;
        }
    }
    Ok(headers)
}

// The light proof by the headers from the block on, with the certificates of the last three.
fn proof_by(
    alloc: Global,
    evidence: &Evidence,
    blocks: &[NamedHeader],
    block: &NamedHeader,
) -> Result<Option<LightProof>, AllocError> {
    let [.., committed, second, third] = blocks else {
        return Ok(None);
    };
    let Some(committed) = certificate_on(alloc, evidence, committed)? else {
        return Ok(None);
    };
    let Some(second) = certificate_on(alloc, evidence, second)? else {
        return Ok(None);
    };
    let Some(third) = certificate_on(alloc, evidence, third)? else {
        return Ok(None);
    };
    let headers = headers_from(alloc, blocks, block)?;
    Ok(LightProof::of(headers, committed, second, third))
}

/// The light proof of the handover by this block: the headers from it on to the least commit that has it in its chain, and the two that
/// commit that one.
pub(crate) fn find_light_proof(
    alloc: Global,
    evidence: &Evidence,
    block: &NamedHeader,
) -> Result<Option<LightProof>, AllocError> {
    let chains = certified_chains(alloc, evidence)?;
    let commits = proved_commits(alloc, &chains)?;
    let blocks = proving_blocks(alloc, &chains, &commits, block)?;
    proof_by(alloc, evidence, &blocks, block)
}
