//! The texts of exports.

use crate::chain::child_of;
use crate::entries::entry_on;
use audit_evidence::Evidence;
use base_wire::{MOST_ENTRIES, append};
use blocks::NamedHeader;
use std::alloc::{AllocError, Global};

// Adds a number of four bytes. None here is above 65,536.
fn put_number(text: &mut Vec<u8>, number: usize) -> Result<(), AllocError> {
    let number = u32::try_from(number).unwrap_or(u32::MAX);
    append(text, &number.to_be_bytes())
}

// Adds a frame.
fn put_frame(text: &mut Vec<u8>, payload: &[u8]) -> Result<(), AllocError> {
    put_number(text, payload.len())?;
    append(text, payload)
}

// Ends a stream of so many frames.
fn put_end(text: &mut Vec<u8>, count: usize) -> Result<(), AllocError> {
    put_number(text, 0)?;
    put_number(text, count)
}

// The export of an entry on each of these blocks, its child the next of them. None where one has no quorum of votes.
fn export_of(
    alloc: Global,
    evidence: &Evidence,
    blocks: &[NamedHeader],
    above: Option<&NamedHeader>,
) -> Result<Option<Vec<u8>>, AllocError> {
    let mut text = b"HSL1".to_vec(alloc)?;
    for (k, block) in blocks.iter().enumerate() {
        let child = match blocks.get(k + 1).or(above) {
            Some(next) => *next.header(),
            None => match child_of(evidence, block) {
                Some(made) => made,
                None => return Ok(None),
            },
        };
        let Some(entry) = entry_on(alloc, evidence, block, &child)? else {
            return Ok(None);
        };
        put_frame(&mut text, &entry)?;
    }
    put_end(&mut text, blocks.len())?;
    Ok(Some(text))
}

/// Exports of at most 4,096 entries each, which certify these blocks, each on the one before.
pub(crate) fn exports_of(
    alloc: Global,
    evidence: &Evidence,
    blocks: &[NamedHeader],
) -> Result<Option<Vec<Vec<u8>>>, AllocError> {
    let mut texts = Vec::new(alloc);
    let mut rest = blocks;
    for _ in 0..blocks.len() {
        if rest.is_empty() {
            break;
        }
        let (part, behind) = rest.split_at(rest.len().min(MOST_ENTRIES));
        match export_of(alloc, evidence, part, behind.first())? {
            Some(text) => texts.push(text)?,
            None => return Ok(None),
        }
        rest = behind;
    }
    Ok(Some(texts))
}
