//! The lines of a watch.

ghost use Rattle.std.specs.Prelude.{◌≡◌, ◌++◌, IfOk, OnOk};
ghost use Rattle.watch_report.specs.WatchLines.{commit_news, conflict_news, kept_news, log_text, lost_news, source_alarm, source_news, stamp_text, unstored_news};

use audit_evidence::SourceReport;
use base_text::{put_id, put_number};
use base_wire::append;
use culprit_search::{Commit, Conflict};
use std::alloc::{AllocError, Global};

/// What stands before each line of a round: the time, and the round's number.
#[tactic(auto, unfolding(crate::specs::WatchLines::stamp_text))]
pub fn stamp(alloc: Global, time: &[u8], round: u64) -> Result<Vec<u8>, AllocError>
    ensures { IfOk result (λ stamp. stamp.items ≡ stamp_text time.now round) }
{
    let mut text = Vec::new(alloc);
    append(&mut text, time)?;
    append(&mut text, b" round ")?;
    put_number(&mut text, round)?;
    append(&mut text, b" ")?;
    Ok(text)
}

/// Adds the line of a commit.
#[tactic(auto, unfolding(crate::specs::WatchLines::commit_news))]
pub fn put_commit(text: &mut Vec<u8>, stamp: &[u8], commit: &Commit) -> Result<(), AllocError>
    ensures { OnOk result (text.new.items ≡ text.old.items ++ commit_news stamp.now commit.now) }
{
    append(text, stamp)?;
    append(text, b"commit ")?;
    put_number(text, commit.view)?;
    append(text, b" ")?;
    put_id(text, &commit.id)?;
    append(text, b"\n")
}

/// Adds the line of the conflict.
#[tactic(auto, unfolding(crate::specs::WatchLines::conflict_news))]
pub fn put_conflict(text: &mut Vec<u8>, stamp: &[u8], conflict: &Conflict) -> Result<(), AllocError>
    ensures { OnOk result (text.new.items
        ≡ text.old.items ++ conflict_news stamp.now conflict.now) }
{
    append(text, stamp)?;
    append(text, b"conflict ")?;
    put_id(text, &conflict.first)?;
    append(text, b" ")?;
    put_id(text, &conflict.second)?;
    append(text, b"\n")
}

/// Adds the line of a culprit whose verdict was there at the start.
#[tactic(auto, unfolding(crate::specs::WatchLines::kept_news))]
pub fn put_kept(
    text: &mut Vec<u8>,
    stamp: &[u8],
    replica: u16,
    path: &[u8],
) -> Result<(), AllocError>
    ensures { OnOk result (text.new.items
        ≡ text.old.items ++ kept_news stamp.now replica path.now) }
{
    append(text, stamp)?;
    append(text, b"culprit ")?;
    put_number(text, replica)?;
    append(text, b" kept ")?;
    append(text, path)?;
    append(text, b"\n")
}

// Adds which log it is, where that is told: the replica, which of the replica's sources, and which log of that.
#[tactic(auto, unfolding(crate::specs::WatchLines::log_text))]
fn put_log(text: &mut Vec<u8>, replica: u16, nth: u16, log: Option<usize>) -> Result<(), AllocError>
    ensures { OnOk result (text.new.items ≡ text.old.items ++ log_text replica nth log) }
{
    let Some(log) = log else {
        return append(text, b"");
    };
    append(text, b" log ")?;
    put_number(text, replica)?;
    append(text, b"-")?;
    put_number(text, nth)?;
    append(text, b"-")?;
    put_number(text, log)
}

/// Adds the line of a log of the source of number `i`, which is the `nth` of its replica's; the log's number is told where there is one.
#[tactic(auto, unfolding(crate::specs::WatchLines::source_news))]
pub fn put_source(
    text: &mut Vec<u8>,
    stamp: &[u8],
    i: usize,
    nth: u16,
    log: Option<usize>,
    source: &SourceReport,
) -> Result<(), AllocError>
    ensures { OnOk result (text.new.items
        ≡ text.old.items ++ source_news stamp.now i nth log source.now) }
{
    append(text, stamp)?;
    append(text, b"source ")?;
    put_number(text, i)?;
    append(text, b" replica ")?;
    put_number(text, source.replica)?;
    append(text, b" ")?;
    append(text, source.status.name().as_bytes())?;
    append(text, b" frames ")?;
    put_number(text, source.frames)?;
    append(text, b" entries ")?;
    put_number(text, source.entries)?;
    put_log(text, source.replica, nth, log)?;
    append(text, b"\n")
}

/// Adds the line of an alarm about a source, the one of this number.
#[tactic(auto, unfolding(crate::specs::WatchLines::source_alarm))]
pub fn put_source_alarm(
    text: &mut Vec<u8>,
    stamp: &[u8],
    word: &[u8],
    i: usize,
    replica: u16,
) -> Result<(), AllocError>
    ensures { OnOk result (text.new.items
        ≡ text.old.items ++ source_alarm stamp.now word.now i replica) }
{
    append(text, stamp)?;
    append(text, word)?;
    append(text, b" ")?;
    put_number(text, i)?;
    append(text, b" replica ")?;
    put_number(text, replica)?;
    append(text, b"\n")
}

/// Adds the line of a file that could not be written.
#[tactic(auto, unfolding(crate::specs::WatchLines::unstored_news))]
pub fn put_unstored(text: &mut Vec<u8>, stamp: &[u8], path: &[u8]) -> Result<(), AllocError>
    ensures { OnOk result (text.new.items
        ≡ text.old.items ++ unstored_news stamp.now path.now) }
{
    append(text, stamp)?;
    append(text, b"unstored ")?;
    append(text, path)?;
    append(text, b"\n")
}

/// Adds the line that says how many lines were not taken.
#[tactic(auto, unfolding(crate::specs::WatchLines::lost_news))]
pub fn put_lost(text: &mut Vec<u8>, stamp: &[u8], count: u64) -> Result<(), AllocError>
    ensures { OnOk result (text.new.items ≡ text.old.items ++ lost_news stamp.now count) }
{
    append(text, stamp)?;
    append(text, b"lost ")?;
    put_number(text, count)?;
    append(text, b"\n")
}
