//! The lines.

ghost use Rattle.std.specs.Prelude.{◌≡◌, ◌+◌, ◌<◌, ◌^◌, ◌++◌, IfOk, OnOk, length};
ghost use Rattle.handover_steps.specs.LineageLines.{chain_line, followed_line, last_line, later_text, lineage_status, lineage_text, refused_line, step_line, steps_text, way_text, without_line};

use crate::{Lineage, Step, StepRefusal};
use base_text::{put_id, put_number};
use base_wire::append;
use blocks::Id;
use std::alloc::{AllocError, Global};

// Adds ` new S of W`, or ` by hand`.
#[tactic(auto, unfolding(crate::specs::LineageLines::way_text))]
fn put_way(text: &mut Vec<u8>, weight: Option<u64>, total: u64) -> Result<(), AllocError>
    ensures { OnOk result (text.new.items ≡ text.old.items ++ way_text weight total) }
{
    let Some(weight) = weight else {
        return append(text, b" by hand");
    };
    append(text, b" new ")?;
    put_number(text, weight)?;
    append(text, b" of ")?;
    put_number(text, total)
}

// Adds `step N chain ID ..`.
#[tactic(auto, unfolding(crate::specs::LineageLines::chain_line))]
fn put_chain(
    text: &mut Vec<u8>,
    n: usize,
    chain: &Id,
    weight: Option<u64>,
    total: u64,
) -> Result<(), AllocError>
    ensures { OnOk result (text.new.items ≡ text.old.items ++ chain_line n chain.now weight total) }
{
    append(text, b"step ")?;
    put_number(text, n)?;
    append(text, b" chain ")?;
    put_id(text, chain)?;
    put_way(text, weight, total)?;
    append(text, b"\n")
}

// Adds the line of step `n`.
fn put_step(text: &mut Vec<u8>, n: usize, step: &Step) -> Result<(), AllocError>
    ensures { OnOk result (text.new.items ≡ text.old.items ++ step_line n step.now) }
{
    put_chain(text, n, step.chain(), step.new_weight(), step.total())
}

/// Adds the lines of good steps, which are numbered from 1.
pub fn put_steps(text: &mut Vec<u8>, steps: &[Step]) -> Result<(), AllocError>
    ensures { OnOk result (text.new.items ≡ text.old.items ++ steps_text steps.now) }
{
    for k in 0..steps.len() {
        put_step(text, k + 1, &steps[k])?;
    }
    Ok(())
}

// Adds `step N refused NUMBER NAME`.
#[tactic(auto, unfolding(crate::specs::LineageLines::refused_line))]
fn put_refused(text: &mut Vec<u8>, n: usize, refusal: StepRefusal) -> Result<(), AllocError>
    ensures { OnOk result (text.new.items ≡ text.old.items ++ refused_line n refusal) }
{
    append(text, b"step ")?;
    put_number(text, n)?;
    append(text, b" refused ")?;
    put_number(text, refusal.number())?;
    append(text, b" ")?;
    append(text, refusal.name().as_bytes())?;
    append(text, b"\n")
}

// Adds `step M`.
#[tactic(auto, unfolding(crate::specs::LineageLines::later_text))]
fn put_later(text: &mut Vec<u8>, later: u64) -> Result<(), AllocError>
    ensures { OnOk result (text.new.items ≡ text.old.items ++ later_text later) }
{
    append(text, b"step ")?;
    put_number(text, later)
}

// Adds `step M is there without step N`.
#[tactic(auto, unfolding(crate::specs::LineageLines::without_line))]
fn put_without(text: &mut Vec<u8>, later: u64, n: usize) -> Result<(), AllocError>
    ensures { OnOk result (text.new.items ≡ text.old.items ++ without_line later n) }
{
    put_later(text, later)?;
    append(text, b" is there without step ")?;
    put_number(text, n)?;
    append(text, b"\n")
}

// Adds `followed N`.
#[tactic(auto, unfolding(crate::specs::LineageLines::followed_line))]
fn put_followed(text: &mut Vec<u8>, n: usize) -> Result<(), AllocError>
    ensures { OnOk result (text.new.items ≡ text.old.items ++ followed_line n) }
{
    append(text, b"followed ")?;
    put_number(text, n)?;
    append(text, b"\n")
}

// Adds the last line, after so many good steps.
fn put_last(
    text: &mut Vec<u8>,
    count: usize,
    refused: Option<StepRefusal>,
    later: Option<u64>,
) -> Result<(), AllocError>
    requires { count + 1 < 2 ^ 64 }
    ensures { OnOk result (text.new.items ≡ text.old.items ++ last_line count refused later) }
{
    match (refused, later) {
        (Some(refusal), _) => put_refused(text, count + 1, refusal),
        (None, Some(later)) => put_without(text, later, count + 1),
        (None, None) => put_followed(text, count),
    }
}

/// The lines on a lineage: of its good steps, and of how they end. `later` is a step that is there without the one after these.
pub fn lineage_text(
    alloc: Global,
    lineage: &Lineage,
    later: Option<u64>,
) -> Result<Vec<u8>, AllocError>
    ensures { IfOk result (λ text. text.items ≡ lineage_text lineage.now later) }
{
    let mut text = Vec::new(alloc);
    put_steps(&mut text, lineage.steps())?;
    put_last(&mut text, lineage.steps().len(), lineage.refused(), later)?;
    Ok(text)
}

/// The exit status that goes with it: 0 where all steps were followed, else 1.
pub fn lineage_status(lineage: &Lineage, later: Option<u64>) -> u8
    ensures { result ≡ lineage_status lineage.now.refused later }
{
    match (lineage.refused(), later) {
        (None, None) => 0,
        _ => 1,
    }
}
