//! `--json FILE`: what an audit found, in a file for programs.

ghost use Rattle.std.specs.Prelude.{◌≡◌, ◌≢◌, ◌++◌, ◌∷◌, [], List, IfErr, IfOk, OnErr, OnOk, string_bytes};
ghost use Rattle.blocks.specs.Genesis.{chain_id_of};
ghost use Rattle.blocks.specs.Weights.{total_of};
ghost use Rattle.program_tool.specs.AuditFiles.{AreReportsOn, IsReportOn};
ghost use Rattle.program_tool.specs.StoredFiles.{Stored, StoredFile, file_at};
ghost use Rattle.program_tool.specs.Told.{AreTold, IsToldOf, word_at};

use crate::fault::Fault;
use crate::host::ToolHost;
use crate::stored::{StoreFault, StoreFiles};
use crate::why::reason_of;
use audit_run::{AuditTold, Findings, SourceTold, report_of};
use blocks::CommitteeView;
use parallel_verify::{Ending, Judgement};
use program_help::VERSION;
use program_parts::{
    InputFault, Origin, ProgramFault, SourceWord, is_nothing_at, read_file, sync_folder_of,
};
use program_words::AuditWishes;
use std::alloc::{AllocError, Global};
use std::fs::{File, Files, Metadata};
use std::os::unix::fs::MetadataExt;
use std::time::{Clock, SystemTime, UNIX_EPOCH};
use std::{fs, io};

/// Removes an older report at `path`, so that none passes for one of this audit. Refused where something else is there, and stays:
/// what does not begin with `{`, a link, the committee's file, or a source's; where `PATH.new` is there; and where the name
/// is one that this audit may give to a verdict or to a log that it keeps.
pub(crate) fn clear_report<'a, F: Files<File = File>>(
    files: &F,
    alloc: Global,
    path: &'a str,
    committee: &str,
    words: &[&str],
) -> Result<(), Fault<'a>>
    ensures { IfErr result (λ fault. fault ≢ ProgramFault.Output) }
{
    match clear(files, alloc, path, committee, words) {
        Ok(true) => Ok(()),
        Ok(false) => Err(Fault::File(path)),
        Err(error) => Err(Fault::unless_memory(&error, Fault::File(path))),
    }
}

// Whether nothing is at the path now, and a report may be.
fn clear<F: Files<File = File>>(
    files: &F,
    alloc: Global,
    path: &str,
    committee: &str,
    words: &[&str],
) -> io::Result<bool> {
    let beside = format!(in alloc; "{path}.new")?;
    if has_name_of_another(path) || !is_nothing_at(files, &beside)? {
        return Ok(false);
    }
    if is_nothing_at(files, path)? {
        return Ok(true);
    }
    let found = files.symlink_metadata(path)?;
    if !found.is_file()
        || !begins_as_report(files, alloc, path)?
        || is_read(files, &found, committee, words)
    {
        return Ok(false);
    }
    fs::remove_file(files, path)?;
    sync_folder_of(files, path);
    Ok(true)
}

// Whether a verdict or a log that is kept could have this name, or the one that it has until it is whole.
fn has_name_of_another(path: &str) -> bool {
    let name = path.strip_suffix(".new").unwrap_or(path);
    name.ends_with(".hsx") || name.ends_with(".hsl")
}

fn begins_as_report<F: Files<File = File>>(
    files: &F,
    alloc: Global,
    path: &str,
) -> io::Result<bool> {
    match read_file(files, alloc, path, 1) {
        Ok(bytes) => Ok(bytes.starts_with(b"{")),
        Err(InputFault::Memory) => Err(io::Error::from(io::ErrorKind::OutOfMemory)),
        Err(InputFault::Unreadable) => Ok(false),
    }
}

// Whether what was found is a file that this audit reads, by its device and its number there.
fn is_read<F: Files<File = File>>(
    files: &F,
    found: &Metadata,
    committee: &str,
    words: &[&str],
) -> bool {
    if is_at(files, found, committee) {
        return true;
    }
    for word in words {
        if let Some(
            SourceWord {
                origin: Origin::File(path),
                ..
            },
        ) = SourceWord::of(word)
        {
            if is_at(files, found, path) {
                return true;
            }
        }
    }
    false
}

fn is_at<F: Files<File = File>>(files: &F, found: &Metadata, path: &str) -> bool {
    match fs::metadata(files, path) {
        Ok(other) => found.dev() == other.dev() && found.ino() == other.ino(),
        Err(_) => false,
    }
}

// The word of this number.
fn word_at<'w>(words: &[&'w str], number: usize) -> &'w str
    ensures { result.now ≡ word_at words.now number }
{
    match words.get(number) {
        Some(word) => word,
        None => "",
    }
}

// What is told of the source of this number, of which this was found.
fn tell_source<'w, F: Files<File = File>>(
    files: &F,
    alloc: Global,
    words: &[&'w str],
    endings: &[Ending],
    number: usize,
    judged: &Judgement,
) -> SourceTold<'w>
    ensures { IsToldOf (word_at words.now number) judged.now result }
{
    let word = word_at(words, number);
    SourceTold {
        word,
        judged: *judged,
        reason: reason_of(files, alloc, word, endings.get(number), judged),
    }
}

// What is told of the sources of these words, in their order.
fn tell_sources<'w, F: Files<File = File>>(
    files: &F,
    alloc: Global,
    words: &[&'w str],
    endings: &[Ending],
    judged: &[Judgement],
) -> Result<Vec<SourceTold<'w>>, AllocError>
    ensures { IfOk result (λ told. AreTold words.now judged.now told.items) }
{
    let mut told = Vec::with_capacity(alloc, judged.len())?;
    for (i, one) in judged.iter().enumerate() {
        told.push(tell_source(files, alloc, words, endings, i, one))?;
    }
    Ok(told)
}

// Seconds since 1970; 0 where the clock does not say it.
fn seconds_now<T: Clock>(clock: &T) -> u64 {
    match SystemTime::now(clock) {
        Ok(now) => match now.duration_since(UNIX_EPOCH) {
            Ok(since) => since.as_secs(),
            Err(_) => 0,
        },
        Err(_) => 0,
    }
}

// What the report of an audit that ends with this status tells of the audit.
fn told_of<'a, F: Files<File = File>, T: Clock>(
    host: &ToolHost<'a, F, T>,
    committee: &CommitteeView,
    folder: &'a str,
    wishes: AuditWishes<'a>,
    status: u8,
) -> AuditTold<'a>
    ensures status { result.status ≡ status }
    ensures chain { result.chain ≡ chain_id_of committee.now }
    ensures total { result.total ≡ total_of committee.now }
    ensures folder { result.folder.now ≡ folder.now }
{
    AuditTold {
        status,
        chain: committee.chain(),
        total: committee.total(),
        version: VERSION,
        time: wishes.time.unwrap_or(seconds_now(host.rt)),
        folder,
    }
}

// The text of the report of an audit that ends with this status.
fn report_text<'a, F: Files<File = File>, T: Clock>(
    host: &ToolHost<'a, F, T>,
    committee: &CommitteeView,
    words: &[&'a str],
    folder: &'a str,
    wishes: AuditWishes<'a>,
    found: &Findings,
    status: u8,
) -> Result<String, AllocError>
    ensures { IfOk result (λ text. IsReportOn folder.now words.now status committee.now
        found.now.judged.items found.now.report (string_bytes text)) }
{
    let told = told_of(host, committee, folder, wishes, status);
    let sources = tell_sources(host.files, host.alloc, words, &found.endings, &found.judged)?;
    report_of(host.alloc, &told, &sources, &found.report)
}

/// Stores the report for programs, if one is asked for: it is then there whole, or not at all.
pub(crate) fn store_report<'a, F: Files<File = File>, T: Clock, D: StoreFiles>(
    host: &ToolHost<'a, F, T>,
    committee: &CommitteeView,
    words: &[&'a str],
    folder: &'a str,
    wishes: AuditWishes<'a>,
    found: &Findings,
    status: u8,
    files: &mut D,
) -> Result<(), Fault<'a>>
    ensures stored { OnOk result ((reports : List StoredFile)
        × Stored (D.stored files.old) (D.stored files.new) reports
        × AreReportsOn folder.now words.now wishes.entry.json status committee.now
        found.now.judged.items found.now.report reports) }
    ensures unstored { OnErr result (Stored (D.stored files.old) (D.stored files.new) []) }
    ensures fault { IfErr result (λ fault. fault ≢ ProgramFault.Output) }
{
    let Some(path) = wishes.json else {
        return Ok(());
    };
    let text = report_text(host, committee, words, folder, wishes, found, status)?;
    store_at(files, path, text.as_bytes())
}

// Stores these bytes at the path that a word gave.
fn store_at<'a, D: StoreFiles>(files: &mut D, path: &'a str, bytes: &[u8]) -> Result<(), Fault<'a>>
    ensures ok { OnOk result (Stored (D.stored files.old) (D.stored files.new)
        (file_at path.now bytes.now ∷ [])) }
    ensures err { OnErr result (Stored (D.stored files.old) (D.stored files.new) []) }
    ensures fault { IfErr result (λ fault. fault ≢ ProgramFault.Output) }
{
    match files.store(path, bytes) {
        Ok(()) => Ok(()),
        Err(StoreFault::Memory) => Err(Fault::Memory),
        Err(StoreFault::Occupied | StoreFault::Failed) => Err(Fault::File(path)),
    }
}
