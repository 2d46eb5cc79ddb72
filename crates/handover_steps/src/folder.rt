//! A lineage's folder. What files give is not under a clause: all of it is judged by `judge_lineage`.

use crate::StepFiles;
use program_parts::{InputFault, MOST_OF_A_SHORT_FILE, NewName, is_nothing_at, read_at_most};
use std::alloc::Global;
use std::fs::{File, Files};
use std::io::{ErrorKind, Write};
use std::{fs, io};

/// The greatest number of a step that is read.
pub const MOST_STEPS: u64 = 65_535;

/// How much of a renewal is read, in bytes: one more than the longest has.
pub const MOST_OF_A_RENEWAL: u64 = 45_184;

/// How much of a light proof is read, in bytes: one more than the longest has.
pub const MOST_OF_A_LIGHT_PROOF: u64 = 479_598;

// How many numbers after one that is missing are looked at.
const LOOKED_AT: u64 = 16;

/// What a folder has of a lineage.
#[derive(Drop)]
pub struct StoredLineage {
    /// The files of the steps from 1 up to the first that is not there.
    pub steps: Vec<StepFiles>,
    /// The least later step that is there all the same, among the 16 after that one.
    pub later: Option<u64>,
}

// The first bytes of the file of a step, if it is there.
fn read_if_there<F: Files<File = File>>(
    files: &F,
    alloc: Global,
    dir: &str,
    n: u64,
    kind: &str,
    most: u64,
) -> Result<Option<Vec<u8>>, InputFault> {
    let Ok(path) = format!(in alloc; "{dir}/{n}.{kind}") else {
        return Err(InputFault::Memory);
    };
    match File::open(files, path.as_str()) {
        Ok(file) => Ok(Some(read_at_most(alloc, file, most)?)),
        Err(error) if error.kind() == ErrorKind::NotFound => Ok(None),
        Err(error) => Err(InputFault::of(&error)),
    }
}

// The files of step `n`, if its committee's file is there. A light proof that is not there has no bytes.
fn read_step<F: Files<File = File>>(
    files: &F,
    alloc: Global,
    dir: &str,
    n: u64,
) -> Result<Option<StepFiles>, InputFault> {
    let Some(file) = read_if_there(files, alloc, dir, n, "hsc", MOST_OF_A_SHORT_FILE)? else {
        return Ok(None);
    };
    let renewal = read_if_there(files, alloc, dir, n, "hsr", MOST_OF_A_RENEWAL)?;
    let proof = match read_if_there(files, alloc, dir, n, "hsh", MOST_OF_A_LIGHT_PROOF)? {
        Some(proof) => proof,
        None => Vec::new(alloc),
    };
    Ok(Some(StepFiles::of(file, renewal, proof)))
}

// Whether the committee's file of step `n` is there.
fn is_there<F: Files<File = File>>(
    files: &F,
    alloc: Global,
    dir: &str,
    n: u64,
) -> Result<bool, InputFault> {
    let Ok(path) = format!(in alloc; "{dir}/{n}.hsc") else {
        return Err(InputFault::Memory);
    };
    match is_nothing_at(files, path.as_str()) {
        Ok(nothing) => Ok(!nothing),
        Err(error) => Err(InputFault::of(&error)),
    }
}

// The least step after `n` that is there, among the next 16.
fn later_step<F: Files<File = File>>(
    files: &F,
    alloc: Global,
    dir: &str,
    n: u64,
) -> Result<Option<u64>, InputFault> {
    for more in 1..=LOOKED_AT {
        let later = n.saturating_add(more);
        if is_there(files, alloc, dir, later)? {
            return Ok(Some(later));
        }
    }
    Ok(None)
}

/// Reads the folder: of step N, from 1, `N.hsc`, `N.hsr`, if it is there, and `N.hsh`.
pub fn read_steps<F: Files<File = File>>(
    files: &F,
    alloc: Global,
    dir: &str,
) -> Result<StoredLineage, InputFault> {
    let mut steps = Vec::new(alloc);
    for n in 1..=MOST_STEPS {
        match read_step(files, alloc, dir, n)? {
            Some(step) => push(&mut steps, step)?,
            None => {
                let later = later_step(files, alloc, dir, n)?;
                return Ok(StoredLineage { steps, later });
            }
        }
    }
    Ok(StoredLineage { steps, later: None })
}

fn push(steps: &mut Vec<StepFiles>, step: StepFiles) -> Result<(), InputFault> {
    match steps.push(step) {
        Ok(()) => Ok(()),
        Err(_) => Err(InputFault::Memory),
    }
}

// Puts these bytes in a new file of step `n`: synced, then named. What is left of one that was cut is passed over.
fn store<F: Files<File = File>>(
    files: &F,
    alloc: Global,
    dir: &str,
    n: u64,
    kind: &str,
    bytes: &[u8],
) -> io::Result<()> {
    let path = format!(in alloc; "{dir}/{n}.{kind}")?;
    let (name, file) = NewName::begin(files, alloc, &path)?;
    match fill(&file, bytes) {
        Ok(()) => name.take(),
        Err(error) => {
            name.give_up();
            Err(error)
        }
    }
}

fn fill(mut file: &File, bytes: &[u8]) -> io::Result<()> {
    file.write_all(bytes)?;
    file.sync_all()
}

// Removes the renewal of step `n` that a store which was cut left there.
fn forget_renewal<F: Files<File = File>>(
    files: &F,
    alloc: Global,
    dir: &str,
    n: u64,
) -> io::Result<()> {
    let path = format!(in alloc; "{dir}/{n}.hsr")?;
    if is_nothing_at(files, path.as_str())? {
        return Ok(());
    }
    fs::remove_file(files, path.as_str())
}

/// Stores the files of step `n` in the folder, each synced and then named, the committee's file last: so a step is there whole or not at
/// all.
pub fn store_step<F: Files<File = File>>(
    files: &F,
    alloc: Global,
    dir: &str,
    n: u64,
    step: &StepFiles,
) -> io::Result<()> {
    store(files, alloc, dir, n, "hsh", step.proof())?;
    match step.renewal() {
        Some(renewal) => store(files, alloc, dir, n, "hsr", renewal)?,
        None => forget_renewal(files, alloc, dir, n)?,
    }
    store(files, alloc, dir, n, "hsc", step.file())
}
