//! Many steps.

ghost use Rattle.std.specs.Prelude.{◌≡◌, ◌≢◌, Some, IfErr, IfOk};
ghost use Rattle.handover_steps.specs.JudgedSteps.{IsLineageOf};
ghost use Rattle.handover_steps.specs.StepRefusals.{IsStepRefusal};
ghost use Rattle.handover_steps.specs.Steps.{IsStepOf};

use crate::files::StepFiles;
use crate::judging::check_step;
use crate::refusal::StepRefusal;
use crate::step::Step;
use blocks::CommitteeView;
use std::alloc::{AllocError, Global};
use std::marker::Model;

/// What is found of steps: those that are good, up to the first that is refused, if one is. Made by `judge_lineage` alone.
#[derive(Drop)]
pub struct Lineage {
    steps: Vec<Step>,
    refused: Option<StepRefusal>,
}

impl Model for Lineage {
    ghost use Rattle.handover_steps.specs.JudgedSteps.{Lineage as LineageValue};

    ghost Value = { LineageValue };

    ghost view = { λ l. record { steps = l.steps.items; refused = l.refused } };
}

impl Lineage {
    /// The good steps.
    pub fn steps(&self) -> &[Step]
        ensures { result.now ≡ self.now.steps }
    {
        &self.steps
    }

    /// Why the step after these is refused, if there is one that is. Never `Memory`.
    pub fn refused(&self) -> Option<StepRefusal>
        ensures { result ≡ self.now.refused }
    {
        self.refused
    }
}

// What is told of the step by these files, if it is good, and the committee that follows.
fn next<'a>(
    alloc: Global,
    old: &CommitteeView,
    files: &'a StepFiles,
) -> Result<(Step, CommitteeView<'a>), StepRefusal>
    ensures found { IfOk result (λ next. IsStepOf old.now files.now next.0
        × (next.1 ≡ files.now.file)) }
    ensures refused { IfErr result (λ refusal. IsStepRefusal refusal old.now files.now) }
{
    let step = check_step(alloc, old, files.file(), files.renewal(), files.proof())?;
    match CommitteeView::parse(files.file()) {
        Ok(new) => Ok((step, new)),
        Err(refusal) => Err(StepRefusal::Committee(refusal)),
    }
}

// These good steps, and why the one after them is refused.
fn refused(steps: Vec<Step>, refusal: StepRefusal) -> Result<Lineage, AllocError>
    ensures { IfOk result (λ l. (refusal ≢ StepRefusal.Memory)
        × (l ≡ record { steps = steps.items; refused = Some refusal })) }
{
    match refusal {
        StepRefusal::Memory => Err(AllocError),
        _ => Ok(Lineage {
            steps,
            refused: Some(refusal),
        }),
    }
}

/// What is found of the steps by these files from a committee on, each from the committee of the step before: `check_step` of one after the
/// other, up to the first that is refused. AllocError comes where memory is refused.
pub fn judge_lineage<'a>(
    alloc: Global,
    root: &CommitteeView<'a>,
    files: &'a [StepFiles],
) -> Result<Lineage, AllocError>
    ensures { IfOk result (IsLineageOf root.now files.now) }
{
    let mut steps = Vec::new(alloc);
    let mut old = root.again();
    for one in files {
        match next(alloc, &old, one) {
            Ok((step, new)) => {
                steps.push(step)?;
                old = new;
            }
            Err(refusal) => return refused(steps, refusal),
        }
    }
    Ok(Lineage {
        steps,
        refused: None,
    })
}
