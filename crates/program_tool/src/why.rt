//! What `--why` tells: why sources are not sound, what to know of those that are, and where the verdicts are.

ghost use Rattle.audit_run.specs.Reasons.{IsWhy};

use crate::fault::{Fault, FolderFile};
use crate::strict::{is_too_light, sound_line};
use audit_run::{Findings, Note, Reason, Stranger};
use base_streams::{Sink, write_all};
use base_text::write_printed;
use blocks::CommitteeView;
use culprit_search::Report;
use lmots::PRIVATE_SEED_LEN;
use log_format::Status;
use parallel_verify::{Ending, Judgement};
use program_parts::{Origin, SourceWord, read_named};
use std::alloc::Global;
use std::fs;
use std::fs::{File, Files};

/// How much of a file is read to see what it is: one byte more than a seed has.
const MOST_OF_A_STRANGER: u64 = 49;

// A longer file is no seed.
const _: () = prove!(MOST_OF_A_STRANGER == PRIVATE_SEED_LEN as u64 + 1);

/// Tells why the sources of these words are not sound, what to know of those that are, and where the verdicts are. What can't be told is lost: nothing depends
/// on it.
pub(crate) fn tell_why<F: Files<File = File>, W: Sink>(
    files: &F,
    alloc: Global,
    words: &[&str],
    folder: &str,
    found: &Findings,
    out: &mut W,
) {
    if tell_reasons(files, alloc, words, found, out).is_ok() {
        let _ = tell_verdicts(folder, &found.report, out);
    }
}

/// Tells how much the sound sources weigh, if that is less than a quorum. What can't be told is lost.
pub(crate) fn tell_sound<W: Sink>(
    alloc: Global,
    committee: &CommitteeView,
    judged: &[Judgement],
    out: &mut W,
) {
    if !is_too_light(committee, judged) {
        return;
    }
    if let Ok(line) = sound_line(alloc, committee, judged) {
        let _ = write_all(out, &line);
    }
}

fn tell_reasons<F: Files<File = File>, W: Sink>(
    files: &F,
    alloc: Global,
    words: &[&str],
    found: &Findings,
    out: &mut W,
) -> Result<(), base_streams::Fault> {
    for (i, word) in words.iter().enumerate() {
        let Some(judged) = found.judged.get(i) else {
            return Ok(());
        };
        if let Some(reason) = reason_of(files, alloc, word, found.endings.get(i), judged) {
            tell_reason(alloc, word, reason, out)?;
        } else if let Some(note) = Note::of(judged) {
            tell_line(word, note.text(), out)?;
        }
    }
    Ok(())
}

/// Why the log of the source of this word is not sound, of which this was found.
pub(crate) fn reason_of<F: Files<File = File>>(
    files: &F,
    alloc: Global,
    word: &str,
    ending: Option<&Ending>,
    judged: &Judgement,
) -> Option<Reason>
    ensures { IsWhy judged.now result }
{
    let stranger = match judged.report.status {
        Status::Broken | Status::TooLong => stranger_at(files, alloc, word),
        _ => Stranger::Unknown,
    };
    let (failure, is_old) = match ending {
        Some(ending) => (ending.failure, ending.begins_old),
        None => (None, false),
    };
    Reason::of(judged, failure, stranger, is_old)
}

// The line of a source. What memory is refused to is lost.
fn tell_reason<W: Sink>(
    alloc: Global,
    word: &str,
    reason: Reason,
    out: &mut W,
) -> Result<(), base_streams::Fault> {
    let Ok(text) = reason.text(alloc) else {
        return Ok(());
    };
    tell_line(word, &text, out)
}

fn tell_line<W: Sink>(word: &str, text: &str, out: &mut W) -> Result<(), base_streams::Fault> {
    write_printed(out, word.as_bytes())?;
    write_all(out, b" ")?;
    write_all(out, text.as_bytes())?;
    write_all(out, b"\n")
}

fn tell_verdicts<W: Sink>(
    folder: &str,
    report: &Report,
    out: &mut W,
) -> Result<(), base_streams::Fault> {
    for verdict in report.verdicts() {
        write_all(out, b"verdict ")?;
        write_printed(out, folder.as_bytes())?;
        write_all(
            out,
            FolderFile::Verdict(verdict.replica()).behind().as_bytes(),
        )?;
        write_all(out, b"\n")?;
    }
    Ok(())
}

// What stands at the path of a word that names a file.
fn stranger_at<F: Files<File = File>>(files: &F, alloc: Global, word: &str) -> Stranger {
    match SourceWord::of(word) {
        Some(
            SourceWord {
                origin: Origin::File(path),
                ..
            },
        ) => stranger_in(files, alloc, path),
        _ => Stranger::Unknown,
    }
}

// A pipe has nothing left, and to open it once more could wait for ever.
fn stranger_in<F: Files<File = File>>(files: &F, alloc: Global, path: &str) -> Stranger {
    match fs::metadata(files, path) {
        Ok(found) if found.is_file() => {}
        _ => return Stranger::Unknown,
    }
    let read: Result<Vec<u8>, Fault> = read_named(files, alloc, path, MOST_OF_A_STRANGER);
    match read {
        Ok(bytes) => stranger_of(&bytes),
        Err(_) => Stranger::Unknown,
    }
}

// What a file is that begins so.
fn stranger_of(bytes: &[u8]) -> Stranger {
    if bytes.starts_with(b"HSJ1") {
        Stranger::Journal
    } else if bytes.starts_with(b"HSC") {
        Stranger::Committee
    } else if bytes.starts_with(b"HSX") {
        Stranger::Verdict
    } else if bytes.len() == PRIVATE_SEED_LEN {
        Stranger::Seed
    } else {
        Stranger::Unknown
    }
}
