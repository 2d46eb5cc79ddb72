//! Why a source is not sound.

ghost use Rattle.std.specs.Prelude.{◌≡◌, IfOk, string_bytes};
ghost use Rattle.audit_run.specs.Reasons.{IsWhy, failure_text, note, note_text, reason_text, stranger_text, why};

use log_format::Status;
use log_transfer::Failure;
use parallel_verify::Judgement;
use std::alloc::{AllocError, Global};

/// What a file is that is no export.
#[derive(Clone, Copy, Debug, PartialEq, Eq)]
pub enum Stranger {
    /// Nothing that is known.
    Unknown,
    /// A journal.
    Journal,
    /// A committee's file.
    Committee,
    /// A verdict.
    Verdict,
    /// By its length, the seed of a key.
    Seed,
}

/// Why a source is not sound: the first reason that holds.
#[derive(Clone, Copy, Debug, PartialEq, Eq)]
pub enum Reason {
    /// A call of its connector failed.
    Call(Failure),
    /// It ends before its end mark.
    Early,
    /// It is no export.
    NoExport(Stranger),
    /// Its first frame begins as an entry of the old form, and some are no entries.
    Old,
    /// So many of its frames are no entries.
    Frames(usize),
    /// It names so many different votes, and fewer of them are good: so many.
    Votes(usize, usize),
    /// Its entries are not legal steps, one after the other.
    Steps,
}

/// What people should know of a sound log beside that.
#[derive(Clone, Copy, Debug, PartialEq, Eq)]
pub enum Note {
    /// It has no frame.
    Empty,
    /// It has entries, and no vote of its own, so that it would be sound under any replica's word.
    NoVote,
}

impl Reason {
    /// Why a log is not sound of which this was found, and none where it is. What only people need comes beside: why the last call
    /// failed, what else stands there, and whether the first frame begins as the old form does.
    pub fn of(
        judged: &Judgement,
        failure: Option<Failure>,
        stranger: Stranger,
        is_old: bool,
    ) -> Option<Reason>
        ensures exact { result ≡ why judged.now failure stranger is_old }
        ensures holds { IsWhy judged.now result }
    {
        if judged.sound {
            return None;
        }
        let report = &judged.report;
        Some(match report.status {
            Status::Failed => Reason::Call(failure.unwrap_or(Failure::Unreadable)),
            Status::Cut => Reason::Early,
            Status::Broken | Status::TooLong => Reason::NoExport(stranger),
            Status::Whole if report.entries != report.frames && is_old => Reason::Old,
            Status::Whole if report.entries != report.frames => {
                Reason::Frames(report.frames.saturating_sub(report.entries))
            }
            Status::Whole if judged.good != judged.votes => {
                Reason::Votes(judged.votes, judged.good)
            }
            Status::Whole => Reason::Steps,
        })
    }

    /// The words that say it.
    pub fn text(self, alloc: Global) -> Result<String, AllocError>
        ensures { IfOk result (λ text. string_bytes text ≡ reason_text self) }
    {
        match self {
            Reason::Call(failure) => failure_text(alloc, failure),
            Reason::Early => String::from_str(alloc, "ends early"),
            Reason::NoExport(stranger) => String::from_str(alloc, stranger.text()),
            Reason::Old => String::from_str(alloc, "the old form: see migrate"),
            Reason::Frames(count) => format!(in alloc; "{count} frames are no entries"),
            Reason::Votes(votes, good) => {
                format!(in alloc; "{votes} votes, {good} good: another committee, or another R?")
            }
            Reason::Steps => String::from_str(alloc, "an entry is no legal step"),
        }
    }
}

impl Note {
    /// What there is to know of a sound log of which this was found; of a log that is not sound there is a reason.
    pub fn of(judged: &Judgement) -> Option<Note>
        ensures { result ≡ note judged.now }
    {
        if !judged.sound {
            return None;
        }
        if judged.report.frames == 0 {
            return Some(Note::Empty);
        }
        if judged.has_voted {
            return None;
        }
        Some(Note::NoVote)
    }

    /// The words that say it.
    pub fn text(self) -> &'static str
        ensures { result.now ≡ note_text self }
    {
        match self {
            Note::Empty => "sound, and empty",
            Note::NoVote => "sound, with no vote of its own",
        }
    }
}

impl Stranger {
    fn text(self) -> &'static str
        ensures { result.now ≡ stranger_text self }
    {
        match self {
            Stranger::Unknown => "not an export",
            Stranger::Journal => "not an export (a journal: see export)",
            Stranger::Committee => "not an export (a committee)",
            Stranger::Verdict => "not an export (a verdict)",
            Stranger::Seed => "not an export (a seed)",
        }
    }
}

// What a call failed for.
fn failure_text(alloc: Global, failure: Failure) -> Result<String, AllocError>
    ensures { IfOk result (λ text. string_bytes text ≡ failure_text failure) }
{
    let words = match failure {
        Failure::NoSuchFile => "no such file",
        Failure::Folder => "a folder",
        Failure::Unreadable => "can't be read",
        Failure::NoSuchHost => "no such host",
        Failure::Refused => "refused",
        Failure::Reset => "reset",
        Failure::TimedOut(seconds) => return format!(in alloc; "timed out after {seconds} s"),
    };
    String::from_str(alloc, words)
}
