//! A verdict as a sheet, with the steps from an earlier committee to its own.

ghost use Rattle.std.specs.Prelude.{◌≡◌, ◌≢◌, ◌↔◌, ◌≤◌, ◌++◌, ℕ, List, IfErr, IfOk, IfSome, IsTrue, OnOk, length};
ghost use Rattle.base_streams.specs.Streams.{Wrote};
ghost use Rattle.base_text.specs.Printed.{Told};
ghost use Rattle.program_parts.specs.declared.program_fault.ProgramFault.{ProgramFault as FaultValue};
ghost use Rattle.handover_steps.specs.JudgedSteps.{IsLineageOf};
ghost use Rattle.verdict_format.specs.Proofs.{IsProof};
ghost use Rattle.verdict_format.specs.Verdicts.{replica_in};
ghost use Rattle.program_about.specs.LineageSheets.{AreOptions, AskForLineageSheet, IsLineageSheet, IsSheetWith, committee_after, kind_in, lineage_part, own_line, proves_part, sheet_fault_line, steps_head, way_line, way_text, ways_head, ways_upto};
ghost use Rattle.program_about.specs.declared.lineage.SheetFault.{SheetFault as OwnFaultValue};

use crate::sheet::{SHOWN, Sheet, sheet_of};
use base_streams::{Sink, write_all};
use base_text::put_number;
use base_wire::append;
use certificates::CommitteeView;
use handover_renewals::SlotKind;
use handover_steps::{
    Lineage, Step, StepFiles, StoredLineage, judge_lineage, put_steps, read_steps,
};
use program_parts::{
    FaultLine, MOST_OF_A_SHORT_FILE, ProgramFault, exit_status, parse_committee, read_committee,
    read_named, write_out,
};
use std::alloc::{AllocError, Global};
use std::fs::{File, Files};
use verdict_format::VerdictView;

/// What this form alone gives up for.
#[derive(Clone, Copy, Debug)]
pub enum SheetFault {
    /// No committee of the lineage has the verdict's chain.
    Lineage,
}

impl FaultLine for SheetFault {
    ghost line = { own_line };

    fn write_line<W: Sink>(&self, out: &mut W) -> Result<(), base_streams::Fault> {
        write_all(out, b"fault lineage\n")
    }
}

type Fault<'a> = ProgramFault<'a, SheetFault>;

// ---- the steps behind a sheet

fn way_text(kind: Option<&SlotKind>) -> &'static [u8]
    ensures { result.now ≡ way_text (kind_in kind.entry) }
{
    match kind {
        Some(SlotKind::New) => b"new",
        Some(SlotKind::Kept) => b"kept",
        Some(SlotKind::ByHand) => b"by hand",
        None => b"absent",
    }
}

// Adds `step N slot R WAY`.
#[tactic(auto, unfolding(crate::specs::LineageSheets::way_line))]
fn put_way(text: &mut Vec<u8>, n: usize, r: u16, kind: Option<&SlotKind>) -> Result<(), AllocError>
    ensures { OnOk result (text.new.items ≡ text.old.items
        ++ way_line n r (kind_in kind.entry)) }
{
    append(text, b"step ")?;
    put_number(text, n)?;
    append(text, b" slot ")?;
    put_number(text, r)?;
    append(text, b" ")?;
    append(text, way_text(kind))?;
    append(text, b"\n")
}

// Adds what slot `r` is in each of these steps.
fn put_ways(text: &mut Vec<u8>, steps: &[Step], r: u16) -> Result<(), AllocError>
    ensures { OnOk result (text.new.items ≡ text.old.items
        ++ ways_upto steps.now r (length steps.now)) }
{
    for k in 0..steps.len() {
        put_way(text, k + 1, r, steps[k].kinds().get(usize::from(r)))?;
    }
    Ok(())
}

#[tactic(auto, unfolding(crate::specs::LineageSheets::steps_head))]
fn put_steps_head(text: &mut Vec<u8>) -> Result<(), AllocError>
    ensures { OnOk result (text.new.items ≡ text.old.items ++ steps_head) }
{
    append(
        text,
        b"\nThe steps from the first committee to this one:\n\n",
    )
}

#[tactic(auto, unfolding(crate::specs::LineageSheets::ways_head))]
fn put_ways_head(text: &mut Vec<u8>) -> Result<(), AllocError>
    ensures { OnOk result (text.new.items ≡ text.old.items ++ ways_head) }
{
    append(text, b"\nThe replica's slot in each of them:\n\n")
}

#[tactic(auto, unfolding(crate::specs::LineageSheets::proves_part))]
fn put_proves(text: &mut Vec<u8>) -> Result<(), AllocError>
    ensures { OnOk result (text.new.items ≡ text.old.items ++ proves_part) }
{
    append(
        text,
        b"\nThis proves, and no more, that the replica's keys in this committee come from those of its slot\nin the first committee by these steps, each of which a quorum of the committee before it\ncommitted. In a step that says new, its own key of the committee before signed for its next\nkeys; where it says kept, they are the same. Where it says by hand, it is not shown that anybody\nsigned for them: an operator was taken at his word there, or the renewal is missing. Where it\nsays absent, there is no such slot.\n",
    )
}

// Adds the steps, and what slot `r` is in each.
fn put_lineage(text: &mut Vec<u8>, steps: &[Step], r: u16) -> Result<(), AllocError>
    ensures { OnOk result (text.new.items ≡ text.old.items ++ lineage_part steps.now r) }
{
    put_steps_head(text)?;
    put_steps(text, steps)?;
    put_ways_head(text)?;
    put_ways(text, steps, r)?;
    put_proves(text)
}

// ---- which committee

// After how many steps the verdict's committee comes, by its chain. A verdict that can't be read is judged under the first committee.
fn place_of(root: &CommitteeView, steps: &[Step], verdict: &[u8]) -> Option<usize>
    ensures { IfSome result (λ place. place ≤ length steps.now) }
{
    let Ok(verdict) = VerdictView::parse(verdict) else {
        return Some(0);
    };
    let chain = verdict.chain();
    if root.chain() == chain {
        return Some(0);
    }
    for k in 0..steps.len() {
        if *steps[k].chain() == chain {
            return Some(k + 1);
        }
    }
    None
}

// The committee that the first `place` of these steps come to, if its file is one's.
fn committee_at<'a>(
    root: &CommitteeView<'a>,
    files: &'a [StepFiles],
    place: usize,
) -> Option<CommitteeView<'a>>
    ensures { IfSome result (λ c. c ≡ committee_after root.now files.now place) }
{
    if place == 0 {
        return Some(root.again());
    }
    CommitteeView::parse(files.get(place - 1)?.file()).ok()
}

// ---- the sheet

// The number of the replica that a verdict accuses.
fn replica_of(committee: &CommitteeView, bytes: &[u8]) -> u16
    requires { IsProof committee.now bytes.now }
    ensures { result ≡ replica_in bytes.now }
{
    let Ok(verdict) = VerdictView::parse(bytes) else {
        unreachable!();
    };
    verdict.replica()
}

// The sheet of a verdict under a committee, with these steps behind it if the verdict is accepted.
fn sheet_with(
    alloc: Global,
    committee: &CommitteeView,
    steps: &[Step],
    verdict: &[u8],
) -> Result<Sheet, AllocError>
    ensures { IfOk result (λ s.
        IsSheetWith committee.now steps.now verdict.now s.status s.text.items) }
{
    let sheet = sheet_of(alloc, committee, verdict)?;
    if sheet.status != SHOWN {
        return Ok(sheet);
    }
    let Sheet { mut text, status } = sheet;
    put_lineage(&mut text, steps, replica_of(committee, verdict))?;
    Ok(Sheet { text, status })
}

// The sheet of a verdict under the committee of a lineage that has its chain, with the steps if the verdict is accepted.
fn sheet_in<'a>(
    alloc: Global,
    root: &CommitteeView,
    files: &[StepFiles],
    lineage: &Lineage,
    verdict: &[u8],
) -> Result<Sheet, Fault<'a>>
    requires { IsLineageOf root.now files.now lineage.now }
    ensures { IfOk result (λ s. IsLineageSheet s.status s.text.items) }
{
    // For the proof: it is a committee.
    let _root = root.bytes();
    let Some(place) = place_of(root, lineage.steps(), verdict) else {
        return Err(ProgramFault::Own(SheetFault::Lineage));
    };
    let Some(committee) = committee_at(root, files, place) else {
        return Err(ProgramFault::Own(SheetFault::Lineage));
    };
    let steps = &lineage.steps()[..place];
    Ok(sheet_with(alloc, &committee, steps, verdict)?)
}

// What the folder has.
fn read_dir<'a, F: Files<File = File>>(
    rt: &F,
    alloc: Global,
    dir: &'a str,
) -> Result<StoredLineage, Fault<'a>> {
    match read_steps(rt, alloc, dir) {
        Ok(stored) => Ok(stored),
        Err(why) => Err(ProgramFault::of_input(why, ProgramFault::File(dir))),
    }
}

// The same of files.
fn read_sheet<'a, F: Files<File = File>>(
    rt: &F,
    alloc: Global,
    verdict: &'a str,
    dir: &'a str,
    committee: &'a str,
) -> Result<Sheet, Fault<'a>>
    ensures { IfOk result (λ s. IsLineageSheet s.status s.text.items) }
{
    let committee = read_committee(rt, alloc, committee)?;
    let verdict = read_named(rt, alloc, verdict, MOST_OF_A_SHORT_FILE)?;
    let root = parse_committee(&committee)?;
    let stored = read_dir(rt, alloc, dir)?;
    let lineage = judge_lineage(alloc, &root, &stored.steps)?;
    sheet_in(alloc, &root, &stored.steps, &lineage, &verdict)
}

// ---- the program

// Whether three words are `--statement`, `--lineage` and `--committee`.
fn are_options(option: &String, lineage: &String, with: &String) -> bool
    ensures { IsTrue result ↔ AreOptions option.now lineage.now with.now }
{
    if option.as_str() != "--statement" {
        return false;
    }
    if lineage.as_str() != "--lineage" {
        return false;
    }
    with.as_str() == "--committee"
}

/// Whether the words are `--statement VERDICT --lineage DIR --committee C0`.
pub fn asks_for_lineage_sheet(words: &[String]) -> bool
    ensures { IsTrue result ↔ AskForLineageSheet words.now }
{
    let [option, _, lineage, _, with, _] = words else {
        return false;
    };
    are_options(option, lineage, with)
}

/// Prints a verdict as a sheet, and behind it the steps from C0 to the committee under which it was judged, and what the replica's slot is in
/// each. Answers the exit status: 0 where the verdict is accepted, 1 where it is refused, else 2. It goes to `out`, and with status 2 a
/// fault's line to `faults`, which is else left alone.
pub fn run_lineage_sheet<F: Files<File = File>, W: Sink, E: Sink>(
    rt: &F,
    alloc: Global,
    words: &[String],
    out: &mut W,
    faults: &mut E,
) -> u8
    requires { AskForLineageSheet words.now }
    ensures told { result ≢ 2 → (text : List ℕ) × IsLineageSheet result text
        × Wrote (W.text out.old) (W.text out.new) text }
    ensures silent { result ≢ 2 → faults.new ≡ faults.old }
    ensures given_up { result ≡ 2 → (fault : FaultValue OwnFaultValue)
        × (fault ≢ ProgramFault.Output → out.new ≡ out.old)
        × Told (E.text faults.old) (E.text faults.new) (E.failed faults.old) (E.failed faults.new)
        (sheet_fault_line fault) }
{
    exit_status(tell(rt, alloc, words, out), faults)
}

fn tell<'a, F: Files<File = File>, W: Sink>(
    rt: &F,
    alloc: Global,
    words: &'a [String],
    out: &mut W,
) -> Result<u8, Fault<'a>>
    ensures told { IfOk result (λ status. (status ≢ 2) × ((text : List ℕ)
        × IsLineageSheet status text × Wrote (W.text out.old) (W.text out.new) text)) }
    ensures given_up { IfErr result (λ fault.
        fault ≢ ProgramFault.Output → out.new ≡ out.old) }
{
    let [_option, verdict, _lineage, dir, _with, committee] = words else {
        return Err(ProgramFault::Usage);
    };
    let sheet = read_sheet(
        rt,
        alloc,
        verdict.as_str(),
        dir.as_str(),
        committee.as_str(),
    )?;
    write_out(out, &sheet.text)?;
    Ok(sheet.status)
}
