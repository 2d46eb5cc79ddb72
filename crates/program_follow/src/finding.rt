//! A lineage from files and servers.

ghost use Rattle.std.specs.Prelude.{◌≡◌, IfErr, IfOk};
ghost use Rattle.blocks.specs.Committees.{IsCommittee};
ghost use Rattle.program_follow.specs.LineageOutputs.{IsDirFault, IsFindingFault, IsFound};

use crate::fetching::fetch_next;
use crate::lineage_fault::Fault;
use crate::lineage_words::LineageWords;
use blocks::CommitteeView;
use handover_steps::{
    MOST_STEPS, StepFiles, StoredLineage, judge_lineage, lineage_status, lineage_text, read_steps,
    store_step,
};
use program_parts::{ProgramFault, SourceWord, parse_committee, read_committee};
use std::alloc::{AllocError, Global};
use std::fs::{File, Files};
use std::net::{Net, TcpStream};
use std::time::Clock;

/// What the program works with.
#[derive(Clone, Copy)]
pub(crate) struct LineageHost<'a, F, T> {
    /// Files.
    pub files: &'a F,
    /// A clock and sockets.
    pub rt: &'a T,
    /// Memory.
    pub alloc: Global,
}

/// The lines on a lineage, and the exit status that goes with them.
#[derive(Drop)]
pub(crate) struct Found {
    pub text: Vec<u8>,
    pub status: u8,
}

// What the folder has.
fn read_dir<'a, F: Files<File = File>, T>(
    host: &LineageHost<'a, F, T>,
    dir: &'a str,
) -> Result<StoredLineage, Fault<'a>>
    ensures { IfErr result (IsDirFault dir.now) }
{
    match read_steps(host.files, host.alloc, dir) {
        Ok(stored) => Ok(stored),
        Err(why) => Err(ProgramFault::of_input(why, ProgramFault::File(dir))),
    }
}

// Stores step `n` in the folder.
fn store<'a, F: Files<File = File>, T>(
    host: &LineageHost<'a, F, T>,
    dir: &'a str,
    n: u64,
    step: &StepFiles,
) -> Result<(), Fault<'a>>
    ensures { IfErr result (IsDirFault dir.now) }
{
    match store_step(host.files, host.alloc, dir, n, step) {
        Ok(()) => Ok(()),
        Err(error) => Err(ProgramFault::unless_memory(&error, ProgramFault::File(dir))),
    }
}

// The file of the committee that these steps come to.
fn last_file<'s>(root: &'s [u8], steps: &'s [StepFiles]) -> &'s [u8] {
    match steps.last() {
        Some(step) => step.file(),
        None => root,
    }
}

// Whether this is the file of a committee that these steps come by.
fn is_passed(root: &[u8], steps: &[StepFiles], file: &[u8]) -> bool {
    root == file || steps.iter().any(|step| step.file() == file)
}

// Adds what the sources have after these steps, and stores it in the folder.
fn fetch_steps<'a, F: Files<File = File>, T: Net<Stream = TcpStream> + Clock>(
    host: &LineageHost<'a, F, T>,
    root: &[u8],
    asked: &LineageWords<'a>,
    steps: &mut Vec<StepFiles>,
) -> Result<(), Fault<'a>>
    ensures { IfErr result (IsDirFault asked.now.dir.now) }
{
    for n in steps.len() as u64..MOST_STEPS {
        let last = last_file(root, steps);
        let Some(step) = fetch_next(host.rt, host.alloc, last, &asked.sources)? else {
            return Ok(());
        };
        // A lineage never comes back to a committee: who goes round and round would fill the folder.
        if is_passed(root, steps, step.file()) {
            return Ok(());
        }
        store(host, asked.dir, n + 1, &step)?;
        steps.push(step)?;
    }
    Ok(())
}

// Whether all steps are there and good.
fn are_whole(
    alloc: Global,
    root: &CommitteeView,
    stored: &StoredLineage,
) -> Result<bool, AllocError> {
    let lineage = judge_lineage(alloc, root, &stored.steps)?;
    Ok(lineage_status(&lineage, stored.later) == 0)
}

// The files of the steps in the folder, and, where they are whole and sources are named, of those that the sources have.
fn all_steps<'a, F: Files<File = File>, T: Net<Stream = TcpStream> + Clock>(
    host: &LineageHost<'a, F, T>,
    root: &CommitteeView,
    asked: &LineageWords<'a>,
) -> Result<StoredLineage, Fault<'a>>
    ensures { IfErr result (IsDirFault asked.now.dir.now) }
{
    let mut stored = read_dir(host, asked.dir)?;
    if !asked.sources.is_empty() && are_whole(host.alloc, root, &stored)? {
        fetch_steps(host, root.bytes(), asked, &mut stored.steps)?;
    }
    Ok(stored)
}

// The lines on these steps.
fn found_of(
    alloc: Global,
    root: &CommitteeView,
    stored: &StoredLineage,
) -> Result<Found, AllocError>
    ensures { IfOk result (λ found. IsFound found.status found.text.items) }
{
    // For the proof: it is a committee.
    let _root = root.bytes();
    let lineage = judge_lineage(alloc, root, &stored.steps)?;
    Ok(Found {
        text: lineage_text(alloc, &lineage, stored.later)?,
        status: lineage_status(&lineage, stored.later),
    })
}

/// The lines on the lineage that the words ask for. What it says of the files that it read is proved, and not which files these are.
pub(crate) fn find_lineage<'a, F: Files<File = File>, T: Net<Stream = TcpStream> + Clock>(
    host: &LineageHost<'a, F, T>,
    asked: &LineageWords<'a>,
) -> Result<Found, Fault<'a>>
    ensures found { IfOk result (λ found. IsFound found.status found.text.items) }
    ensures refused { IfErr result (IsFindingFault asked.now.root.now asked.now.dir.now) }
{
    let bytes = read_committee(host.files, host.alloc, asked.root)?;
    let root = parse_committee(&bytes)?;
    let stored = all_steps(host, &root, asked)?;
    Ok(found_of(host.alloc, &root, &stored)?)
}
