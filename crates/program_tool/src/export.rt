//! `hs_tool export LOG OUT`: the export of a replica's log.

ghost use Rattle.std.specs.Prelude.{◌≡◌, ◌≢◌, IfErr, IfOk, OnOk};
ghost use Rattle.program_parts.specs.Writes.{CountsWrites};
ghost use Rattle.program_tool.specs.Lines.{IsExportPrinted, exported_line as exported_text};

use crate::fault::{Fault, FolderFile, ToolFault};
use crate::occupied::see_new;
use base_streams::{Sink, StdSink, write_all};
use base_text::put_number;
use log_export::{JournalFront, MOST_OF_A_JOURNAL, read_front, send_export};
use program_parts::{InputFault, NewName, ProgramFault, folder_of, is_nothing_at, read_at_most};
use replica_command::ReplicaFile;
use stable_log::JournalError;
use std::alloc::{AllocError, Global};
use std::fs::{File, Files};
use std::io;

// An index journal is no log: that of an entry that can't be read, as a replica tells it.
const BAD_ENTRY: u8 = 9;

/// Writes the export of what the journal at `log` stands for to a new file at `path`, and prints `exported ` and how many
/// entries it has. No entry is judged. The journal is opened for reading alone; where a file `lock` stands beside it, its
/// lock is asked for, and held until the export has its name. In this order: `log` that can't be opened, the lock that is
/// not got, `log` that can't be read or synced, is no journal or holds indices, `path` that is there already. A journal
/// that is damaged gives what stands in front of the damage, with no end mark, and then its fault. After `Output`, or where
/// memory for the line is refused, the whole export is there.
pub fn export_log<'a, F: Files<File = File>, W: Sink>(
    files: &F,
    alloc: Global,
    log: &'a str,
    path: &'a str,
    out: &mut W,
) -> Result<(), Fault<'a>>
    ensures printed { OnOk result (IsExportPrinted (W.text out.old) (W.text out.new)) }
    ensures counted { CountsWrites result (W.failed out.old) (W.failed out.new) }
{
    let file = match File::open(files, log) {
        Ok(file) => file,
        Err(error) => return Err(Fault::unless_memory(&error, Fault::File(log))),
    };
    let _lock = ask_lock(files, alloc, log)?;
    let bytes = read_log(alloc, file, log)?;
    let Some(front) = read_front(alloc, &bytes)? else {
        return Err(Fault::Own(ToolFault::Store(JournalError::NotAJournal.number())));
    };
    if front.are_indices() {
        return Err(Fault::Own(ToolFault::Store(BAD_ENTRY)));
    }
    see_new(files, path)?;
    write_new(files, alloc, path, &front)?;
    if !front.is_whole() {
        return Err(Fault::Own(ToolFault::Store(JournalError::Damaged.number())));
    }
    let line = exported_line(alloc, front.count())?;
    match write_all(out, &line) {
        Ok(()) => Ok(()),
        Err(_) => Err(Fault::Output),
    }
}

// `exported ` and how many entries.
fn exported_line(alloc: Global, count: usize) -> Result<Vec<u8>, AllocError>
    ensures { IfOk result (λ line. line.items ≡ exported_text count) }
{
    let mut line = b"exported ".to_vec(alloc)?;
    put_number(&mut line, count)?;
    line.push(b'\n')?;
    Ok(line)
}

// The lock of the replica whose log it is, if there is a file for it. A replica that runs has it, and hands out its log itself:
// who read its log beside it would see an entry before it is synced.
fn ask_lock<'a, F: Files<File = File>>(
    files: &F,
    alloc: Global,
    log: &'a str,
) -> Result<Option<File>, Fault<'a>>
    ensures { IfErr result (λ fault. fault ≢ ProgramFault.Output) }
{
    let folder = folder_of(log);
    let path = format!(in alloc; "{folder}/lock")?;
    let fault = Fault::Own(ToolFault::FileIn(folder, FolderFile::Replica(ReplicaFile::Lock)));
    match is_nothing_at(files, &path) {
        Ok(true) => return Ok(None),
        Ok(false) => {}
        Err(error) => return Err(Fault::unless_memory(&error, fault)),
    }
    let file = match File::open(files, path.as_str()) {
        Ok(file) => file,
        Err(error) => return Err(Fault::unless_memory(&error, fault)),
    };
    match file.try_lock() {
        Ok(()) => Ok(Some(file)),
        Err(_) => Err(fault),
    }
}

// The journal's bytes, up to the gate behind its last entry at most. They are synced before they are used: what is handed out
// has to outlast a loss of power.
fn read_log<'a>(alloc: Global, file: File, path: &'a str) -> Result<Vec<u8>, Fault<'a>>
    ensures { IfErr result (λ fault. fault ≢ ProgramFault.Output) }
{
    let again = match file.try_clone() {
        Ok(again) => again,
        Err(error) => return Err(Fault::unless_memory(&error, Fault::File(path))),
    };
    let bytes = match read_at_most(alloc, file, MOST_OF_A_JOURNAL) {
        Ok(bytes) => bytes,
        Err(InputFault::Memory) => return Err(Fault::Memory),
        Err(InputFault::Unreadable) => return Err(Fault::File(path)),
    };
    match again.sync_all() {
        Ok(()) => Ok(bytes),
        Err(error) => Err(Fault::unless_memory(&error, Fault::File(path))),
    }
}

// Writes the export to a new file.
fn write_new<'a, F: Files<File = File>>(
    files: &F,
    alloc: Global,
    path: &'a str,
    front: &JournalFront,
) -> Result<(), Fault<'a>>
    ensures { IfErr result (λ fault. fault ≢ ProgramFault.Output) }
{
    let fault = Fault::File(path);
    let (name, file) = match NewName::begin(files, alloc, path) {
        Ok(begun) => begun,
        Err(error) => return Err(Fault::unless_memory(&error, fault)),
    };
    if fill(&file, front).is_err() {
        name.give_up();
        return Err(fault);
    }
    match name.take_new() {
        Ok(()) => Ok(()),
        Err(error) => Err(Fault::unless_memory(&error, fault)),
    }
}

fn fill(file: &File, front: &JournalFront) -> io::Result<()> {
    match send_export(front, &mut StdSink::new(file)) {
        Ok(()) => file.sync_all(),
        Err(_) => Err(io::Error::from(io::ErrorKind::Other)),
    }
}
