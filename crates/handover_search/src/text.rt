//! The line of a handover.

ghost use Rattle.std.specs.Prelude.{◌≡◌, ◌++◌, IfOk, OnOk};
ghost use Rattle.handover_search.specs.HandoverLines.{IsHandoverText, after_text, commits_after, handover_line};

use crate::after::commits_after;
use crate::block::handover_of;
use audit_evidence::Evidence;
use base_text::{put_id, put_number};
use base_wire::append;
use blocks::NamedHeader;
use culprit_search::{Commit, Report};
use std::alloc::{AllocError, Global};

/// Adds ` committed, N commits after it` and a line's end.
#[tactic(auto, unfolding(crate::specs::HandoverLines::after_text))]
pub fn put_after(text: &mut Vec<u8>, after: usize) -> Result<(), AllocError>
    ensures { OnOk result (text.new.items ≡ text.old.items ++ after_text after) }
{
    append(text, b" committed, ")?;
    put_number(text, after)?;
    append(text, b" commits after it\n")?;
    Ok(())
}

/// Adds the line `handover V ID committed, N commits after it`.
#[tactic(auto, unfolding(crate::specs::HandoverLines::handover_line))]
pub fn put_handover(text: &mut Vec<u8>, block: &NamedHeader, after: usize) -> Result<(), AllocError>
    ensures { OnOk result (text.new.items ≡ text.old.items ++ handover_line block.now after) }
{
    append(text, b"handover ")?;
    put_number(text, block.header().view)?;
    append(text, b" ")?;
    put_id(text, block.id())?;
    put_after(text, after)
}

// The line of this block.
fn line_of(alloc: Global, block: &NamedHeader, commits: &[Commit]) -> Result<Vec<u8>, AllocError>
    ensures { IfOk result (λ text. text.items
        ≡ handover_line block.now (commits_after block.now commits.now)) }
{
    let mut text = Vec::new(alloc);
    put_handover(&mut text, block, commits_after(block, commits))?;
    Ok(text)
}

/// The line of the handover that evidence proves, with how many commits of its report are above it; nothing where it proves none, or the
/// report names commits that conflict. AllocError comes where memory is refused.
pub fn handover_text(
    alloc: Global,
    evidence: &Evidence,
    report: &Report,
) -> Result<Vec<u8>, AllocError>
    ensures { IfOk result (λ text. IsHandoverText evidence.now report.now text.items) }
{
    if report.conflict().is_some() {
        return Ok(Vec::new(alloc));
    }
    match handover_of(alloc, evidence)? {
        Some(block) => line_of(alloc, &block, report.commits()),
        None => Ok(Vec::new(alloc)),
    }
}
