//! `hs_tool migrate OLD NEW COMMITTEE`: a log from before votes named their keys, carried over to the form of today.

ghost use Rattle.std.specs.Prelude.{◌≡◌, ◌≢◌, IfErr, IfOk, OnOk, length};
ghost use Rattle.blocks.specs.Headers.{IsGenesis};
ghost use Rattle.vote_log.specs.Logs.{LogState};
ghost use Rattle.program_parts.specs.Writes.{CountsWrites};
ghost use Rattle.program_tool.specs.Lines.{IsCarriedOver, IsMigrationPrinted, migrated_line as migrated_text};

use crate::fault::{Fault, ToolFault};
use crate::occupied::see_new;
use base_streams::{Sink, write_all};
use base_text::put_number;
use blocks::Header;
use program_parts::{NewName, ProgramFault, parse_committee, read_committee};
use stable_log::{Disk, FileDisk, Journal, JournalError};
use std::alloc::{AllocError, Global};
use std::fs::{File, Files, OpenOptions};
use vote_log::{LogError, migrate};

/// Carries the log in the file at `old` over to a new file at `new`, and prints `migrated ` and how many entries it has.
/// The old log is opened for reading alone, and read whole before anything is written. The committee at `path` is that of the
/// log's chain. In this order: `old` that can't be opened, or is no journal, `path` that can't be read, or is no committee,
/// `new` that is there already, and an entry of `old` that is not of the old form or not legal. The log is written to
/// `NEW.new`, which takes its name once it is whole: after one of these, and after a crash, there is no file at `new` that
/// was not there before. After `Output`, or where memory for the line is refused, the whole log is there.
pub fn migrate_log<'a, F: Files<File = File>, W: Sink>(
    rt: &F,
    alloc: Global,
    old: &'a str,
    new: &'a str,
    path: &'a str,
    out: &mut W,
) -> Result<(), Fault<'a>>
    ensures printed { OnOk result (IsMigrationPrinted ⟦<FileDisk as Disk>⟧ (W.text out.old)
        (W.text out.new)) }
    ensures counted { CountsWrites result (W.failed out.old) (W.failed out.new) }
{
    let log = open_old(rt, alloc, old)?;
    let bytes = read_committee(rt, alloc, path)?;
    let committee = parse_committee(&bytes)?;
    let (name, disk) = make_new(rt, alloc, new)?;
    let count = match carry(alloc, log, disk, committee.genesis()) {
        Ok(count) => count,
        Err(fault) => {
            name.give_up();
            return Err(fault);
        }
    };
    if let Err(error) = name.take_new() {
        return Err(Fault::unless_memory(&error, Fault::File(new)));
    }
    let line = migrated_line(alloc, count)?;
    match write_all(out, &line) {
        Ok(()) => Ok(()),
        Err(_) => Err(Fault::Output),
    }
}

// `migrated ` and how many entries.
fn migrated_line(alloc: Global, count: usize) -> Result<Vec<u8>, AllocError>
    ensures { IfOk result (λ line. line.items ≡ migrated_text count) }
{
    let mut line = b"migrated ".to_vec(alloc)?;
    put_number(&mut line, count)?;
    line.push(b'\n')?;
    Ok(line)
}

// The journal of the old log, in a file that is only read.
fn open_old<'a, F: Files<File = File>>(
    rt: &F,
    alloc: Global,
    path: &'a str,
) -> Result<Journal<FileDisk>, Fault<'a>>
    ensures { IfErr result (λ fault. fault ≢ ProgramFault.Output) }
{
    let file = match OpenOptions::new().read(true).open(rt, path) {
        Ok(file) => file,
        Err(error) => return Err(Fault::unless_memory(&error, Fault::File(path))),
    };
    match Journal::recover(alloc, FileDisk::new(file)) {
        Ok(journal) => Ok(journal),
        Err((JournalError::Memory, _)) => Err(Fault::Memory),
        Err((refusal, _)) => Err(Fault::Own(ToolFault::Store(refusal.number()))),
    }
}

// A new file, as a disk, which has still to take its name.
fn make_new<'a, 'f, F: Files<File = File>>(
    rt: &'f F,
    alloc: Global,
    path: &'a str,
) -> Result<(NewName<'f, F>, FileDisk), Fault<'a>>
    ensures { IfErr result (λ fault. fault ≢ ProgramFault.Output) }
{
    see_new(rt, path)?;
    match NewName::begin(rt, alloc, path) {
        Ok((name, file)) => Ok((name, FileDisk::new(file))),
        Err(error) => Err(Fault::unless_memory(&error, Fault::File(path))),
    }
}

// How many entries were carried over: all of the old journal.
fn carry<'a, D: Disk>(
    alloc: Global,
    old: Journal<D>,
    disk: D,
    genesis: Header,
) -> Result<usize, Fault<'a>>
    requires { IsGenesis genesis }
    ensures log { IfOk result (λ count. (count ≡ length old.payloads)
        × (log : LogState D) × IsCarriedOver D.Disk genesis old disk log) }
    ensures fault { IfErr result (λ fault. fault ≢ ProgramFault.Output) }
{
    match migrate(alloc, old, disk, genesis) {
        Ok((log, _)) => {
            // For the proof: a log is legal.
            let _steps = log.steps();
            Ok(log.count())
        }
        Err((LogError::Memory, _, _)) => Err(Fault::Memory),
        Err((refusal, _, _)) => Err(Fault::Own(ToolFault::Store(refusal.number()))),
    }
}
