//! The blocks that prove a commit. What is found here is judged as a whole where it is used, so no clause speaks of it.

use ancestry::{Ancestry, header_of};
use audit_evidence::Evidence;
use blocks::{Header, NamedHeader};
use std::alloc::{AllocError, Global};

// Whether h is on b, in the view after.
fn is_next(b: &NamedHeader, h: &NamedHeader) -> bool {
    let upper = h.header();
    upper.parent == *b.id() && Some(upper.view) == b.header().view.checked_add(1)
}

fn next_of(chains: &Ancestry, b: &NamedHeader) -> Option<NamedHeader> {
    for h in chains.headers() {
        if is_next(b, h) {
            return Some(*h);
        }
    }
    None
}

// The two blocks that commit this one.
fn committing(chains: &Ancestry, tip: &NamedHeader) -> Option<(NamedHeader, NamedHeader)> {
    for second in chains.headers() {
        if is_next(tip, second)
            && let Some(third) = next_of(chains, second)
        {
            return Some((*second, third));
        }
    }
    None
}

// The least of these commits that is the block, or has it in its chain.
fn commit_above(
    chains: &Ancestry,
    commits: &[NamedHeader],
    block: &NamedHeader,
) -> Option<NamedHeader> {
    for commit in commits {
        if commit == block || chains.is_ancestor(block.id(), commit.id()) == Some(true) {
            return Some(*commit);
        }
    }
    None
}

// The block and its chain but genesis, the lowest first.
fn chain_to(
    alloc: Global,
    chains: &Ancestry,
    tip: &NamedHeader,
) -> Result<Vec<NamedHeader>, AllocError> {
    let mut blocks = Vec::new(alloc);
    let mut at = *tip;
    for _ in 0..=chains.headers().len() {
        if at == chains.genesis() {
            break;
        }
        blocks.push(at)?;
        match header_of(chains.headers(), &at.header().parent) {
            Some(parent) => at = parent,
            None => break,
        }
    }
    blocks.reverse();
    Ok(blocks)
}

/// The chain of the least commit that has the block, but genesis and the lowest first, and the two blocks that commit it. Nothing
/// where no commit has it.
pub fn proving_blocks(
    alloc: Global,
    chains: &Ancestry,
    commits: &[NamedHeader],
    block: &NamedHeader,
) -> Result<Vec<NamedHeader>, AllocError> {
    let Some(tip) = commit_above(chains, commits, block) else {
        return Ok(Vec::new(alloc));
    };
    let mut blocks = chain_to(alloc, chains, &tip)?;
    if let Some((second, third)) = committing(chains, &tip) {
        blocks.push(second)?;
        blocks.push(third)?;
    }
    Ok(blocks)
}

/// A header that names the block as its parent: one of the evidence, else one made up for it, with a payload of zero bytes.
/// None where no view is left.
pub(crate) fn child_of(evidence: &Evidence, block: &NamedHeader) -> Option<Header> {
    for h in evidence.headers() {
        if h.header().parent == *block.id() && h.header().parent_view == block.header().view {
            return Some(*h.header());
        }
    }
    Some(Header {
        view: block.header().view.checked_add(1)?,
        parent_view: block.header().view,
        parent: *block.id(),
        payload: [0; 32],
    })
}
