//! The lines of what is new.

ghost use Rattle.std.specs.Prelude.{◌≡◌, ◌++◌, OnOk};
ghost use Rattle.watch_desk.specs.DeskLines.{commits_news, handover_news, news_line, payload_text, verdict_views_text};
ghost use Rattle.watch_report.specs.WatchLines.{culprit_news};

use crate::known::KnownVerdict;
use crate::news::News;
use base_text::{put_id, put_number};
use base_wire::append;
use blocks::NamedHeader;
use culprit_search::Commit;
use handover_search::put_after;
use std::alloc::AllocError;
use watch_report::{put_commit, put_conflict, put_source, put_source_alarm};

// Adds the rule, the views and the path of a verdict.
#[tactic(auto, unfolding(crate::specs::DeskLines::verdict_views_text))]
fn put_views(text: &mut Vec<u8>, found: &KnownVerdict, path: &[u8]) -> Result<(), AllocError>
    ensures { OnOk result (text.new.items
        ≡ text.old.items ++ verdict_views_text found.now path.now) }
{
    put_number(text, found.rule())?;
    append(text, b" views ")?;
    put_number(text, found.earlier_view())?;
    append(text, b" ")?;
    put_number(text, found.later_view())?;
    append(text, b" ")?;
    append(text, path)?;
    append(text, b"\n")
}

// Adds the line of a culprit, with the path of the verdict.
#[tactic(auto, unfolding(watch_report::specs::WatchLines::culprit_news, crate::specs::DeskLines::verdict_views_text))]
fn put_culprit(
    text: &mut Vec<u8>,
    stamp: &[u8],
    found: &KnownVerdict,
    path: &[u8],
) -> Result<(), AllocError>
    ensures { OnOk result (text.new.items
        ≡ text.old.items ++ culprit_news stamp.now found.now path.now) }
{
    append(text, stamp)?;
    append(text, b"culprit ")?;
    put_number(text, found.replica())?;
    append(text, b" rule ")?;
    put_views(text, found, path)
}

// Adds what the block that hands over carries.
#[tactic(auto, unfolding(crate::specs::DeskLines::payload_text))]
fn put_payload(text: &mut Vec<u8>, block: &NamedHeader) -> Result<(), AllocError>
    ensures { OnOk result (text.new.items ≡ text.old.items ++ payload_text block.now) }
{
    append(text, b" payload ")?;
    put_id(text, &block.header().payload)
}

// Adds the line of a handover.
#[tactic(auto, unfolding(crate::specs::DeskLines::handover_news))]
fn put_handover(
    text: &mut Vec<u8>,
    stamp: &[u8],
    block: &NamedHeader,
    after: usize,
) -> Result<(), AllocError>
    ensures { OnOk result (text.new.items
        ≡ text.old.items ++ handover_news stamp.now block.now after) }
{
    append(text, stamp)?;
    append(text, b"handover ")?;
    put_number(text, block.header().view)?;
    append(text, b" ")?;
    put_id(text, block.id())?;
    put_payload(text, block)?;
    put_after(text, after)
}

// Adds the line of commits that are left out.
#[tactic(auto, unfolding(crate::specs::DeskLines::commits_news))]
fn put_commits(
    text: &mut Vec<u8>,
    stamp: &[u8],
    count: usize,
    first: &Commit,
) -> Result<(), AllocError>
    ensures { OnOk result (text.new.items
        ≡ text.old.items ++ commits_news stamp.now count first.now) }
{
    append(text, stamp)?;
    append(text, b"commits ")?;
    put_number(text, count)?;
    append(text, b" before ")?;
    put_number(text, first.view)?;
    append(text, b" ")?;
    put_id(text, &first.id)?;
    append(text, b"\n")
}

/// Adds the line of something new, behind what stands before the lines of its round. The path is that of a culprit's verdict, and the
/// source of a log is the `nth` of its replica's.
pub fn put_news(
    text: &mut Vec<u8>,
    stamp: &[u8],
    news: &News,
    path: &[u8],
    nth: u16,
) -> Result<(), AllocError>
    ensures { OnOk result (text.new.items
        ≡ text.old.items ++ news_line stamp.now path.now nth news.now) }
{
    match news {
        News::Conflict(conflict) => put_conflict(text, stamp, conflict),
        News::Culprit(found) => put_culprit(text, stamp, found.get(), path),
        News::Handover(block, after) => put_handover(text, stamp, block, *after),
        News::Commits(count, first) => put_commits(text, stamp, *count, first),
        News::Commit(commit) => put_commit(text, stamp, commit),
        News::Status(i, log, report) => put_source(text, stamp, *i, nth, *log, report),
        News::WentBack(i, replica) => put_source_alarm(text, stamp, b"went-back", *i, *replica),
        News::Beyond(i, replica) => put_source_alarm(text, stamp, b"beyond", *i, *replica),
        News::SetAside(i, replica) => put_source_alarm(text, stamp, b"set-aside", *i, *replica),
    }
}
