//! The rows of the page: sources, commits and culprits.

ghost use Rattle.std.specs.Prelude.{◌≡◌, ◌++◌, OnOk, string_bytes};
ghost use Rattle.std.specs.List.{flat_map};
ghost use Rattle.watch_web.specs.Rows.{bad_text, cells_text, commit_row, conflict_text, culprit_row, ending_text, fork_text, lag_text, link_text, pair_text, place_text, remark_text, rule_text, shown, source_row};

use crate::ages::put_age;
use base_text::{Inside, put_escaped, put_id, put_number};
use base_wire::append;
use blocks::Ballot;
use log_format::Status;
use std::alloc::AllocError;
use watch_report::{Culprit, Fork, Pair, SourceSeen, SourceState};

// Adds a text of others between tags.
#[tactic(auto, unfolding(crate::specs::Rows::shown))]
pub(crate) fn put_shown(text: &mut Vec<u8>, piece: &String) -> Result<(), AllocError>
    ensures { OnOk result (text.new.items ≡ text.old.items ++ shown (string_bytes piece.now)) }
{
    put_escaped(text, Inside::Html, piece.as_bytes())
}

// ---- sources

#[tactic(auto, unfolding(crate::specs::Rows::ending_text))]
fn put_ending(text: &mut Vec<u8>, status: Option<Status>) -> Result<(), AllocError>
    ensures { OnOk result (text.new.items ≡ text.old.items ++ ending_text status) }
{
    match status {
        None => append(text, b"not read yet"),
        Some(status) => append(text, status.name().as_bytes()),
    }
}

#[tactic(auto, unfolding(crate::specs::Rows::bad_text))]
fn put_bad(text: &mut Vec<u8>, bad: u64) -> Result<(), AllocError>
    ensures { OnOk result (text.new.items ≡ text.old.items ++ bad_text bad) }
{
    append(text, b"votes that are not good: ")?;
    put_number(text, bad)?;
    append(text, b" (another committee, or another replica?)")
}

#[tactic(auto, unfolding(crate::specs::Rows::lag_text))]
fn put_lag(text: &mut Vec<u8>, top: u64, view: u64) -> Result<(), AllocError>
    ensures { OnOk result (text.new.items ≡ text.old.items ++ lag_text top view) }
{
    put_number(text, top.saturating_sub(view))
}

/// Adds what there is to say of a source that does so.
#[tactic(auto, unfolding(crate::specs::Rows::remark_text))]
pub(crate) fn put_remark(
    text: &mut Vec<u8>,
    state: SourceState,
    bad_votes: u64,
) -> Result<(), AllocError>
    ensures { OnOk result (text.new.items ≡ text.old.items ++ remark_text state bad_votes) }
{
    match state {
        SourceState::Back => append(text, b"went back"),
        SourceState::Aside => {
            append(text, b"set aside; ")?;
            put_bad(text, bad_votes)
        }
        SourceState::Beyond => append(text, b"went back, and gave a fifth log, which is not read"),
        SourceState::Bad => put_bad(text, bad_votes),
        SourceState::Answers => append(text, b"answers"),
        SourceState::Silent => append(text, b"silent"),
        SourceState::Unread => append(text, b"not read yet"),
        SourceState::NotWhole => append(text, b"no whole log"),
    }
}

fn put_cells(
    text: &mut Vec<u8>,
    source: &SourceSeen,
    top: u64,
    second: u64,
) -> Result<(), AllocError>
    ensures { OnOk result (text.new.items ≡ text.old.items ++ cells_text source.now top second) }
{
    append(text, b"</td><td>")?;
    put_ending(text, source.status)?;
    append(text, b"</td><td>")?;
    put_number(text, source.entries)?;
    append(text, b"</td><td>")?;
    put_lag(text, top, source.top_view)?;
    append(text, b"</td><td>")?;
    put_age(text, source.last_answer, second)?;
    append(text, b"</td><td>")?;
    put_age(text, source.last_frame, second)?;
    append(text, b"</td></tr>\n")?;
    Ok(())
}

fn put_source(
    text: &mut Vec<u8>,
    every: u32,
    top: u64,
    second: u64,
    source: &SourceSeen,
) -> Result<(), AllocError>
    ensures { OnOk result (text.new.items
        ≡ text.old.items ++ source_row every top second source.now) }
{
    append(text, b"<tr><th scope=\"row\">")?;
    put_shown(text, &source.word)?;
    append(text, b"</th><td>")?;
    put_number(text, source.replica)?;
    append(text, b"</td><td>")?;
    put_remark(text, source.state(every, second), source.bad_votes)?;
    put_cells(text, source, top, second)?;
    Ok(())
}

pub(crate) fn put_sources(
    text: &mut Vec<u8>,
    every: u32,
    top: u64,
    second: u64,
    sources: &[SourceSeen],
) -> Result<(), AllocError>
    ensures { OnOk result (text.new.items
        ≡ text.old.items ++ flat_map (source_row every top second) sources.now) }
{
    for source in sources {
        put_source(text, every, top, second, source)?;
    }
    Ok(())
}

// ---- commits and the conflict

#[tactic(auto, unfolding(crate::specs::Rows::commit_row))]
fn put_commit(text: &mut Vec<u8>, block: &Ballot) -> Result<(), AllocError>
    ensures { OnOk result (text.new.items ≡ text.old.items ++ commit_row block.now) }
{
    append(text, b"<li>view ")?;
    put_number(text, block.view)?;
    append(text, b", block <code>")?;
    put_id(text, &block.id)?;
    append(text, b"</code></li>\n")
}

pub(crate) fn put_commits(text: &mut Vec<u8>, blocks: &[Ballot]) -> Result<(), AllocError>
    ensures { OnOk result (text.new.items ≡ text.old.items ++ flat_map commit_row blocks.now) }
{
    for block in blocks {
        put_commit(text, block)?;
    }
    Ok(())
}

fn put_fork(text: &mut Vec<u8>, fork: &Fork) -> Result<(), AllocError>
    ensures { OnOk result (text.new.items ≡ text.old.items ++ fork_text fork.now) }
{
    append(text, b"<p>These two blocks are both committed: <code>")?;
    put_id(text, &fork.first)?;
    append(text, b"</code> and <code>")?;
    put_id(text, &fork.second)?;
    append(text, b"</code></p>\n")?;
    Ok(())
}

#[tactic(auto, unfolding(crate::specs::Rows::conflict_text))]
pub(crate) fn put_conflict(text: &mut Vec<u8>, conflict: &Option<Fork>) -> Result<(), AllocError>
    ensures { OnOk result (text.new.items ≡ text.old.items ++ conflict_text conflict.now) }
{
    match conflict {
        None => append(text, b"<p>No two commits that were proved conflict.</p>\n"),
        Some(fork) => put_fork(text, fork),
    }
}

// ---- culprits

// The number of a rule, and its name.
#[tactic(auto, unfolding(crate::specs::Rows::rule_text))]
fn put_rule(text: &mut Vec<u8>, rule: u8) -> Result<(), AllocError>
    ensures { OnOk result (text.new.items ≡ text.old.items ++ rule_text rule) }
{
    if rule == 1 {
        return append(text, b"1 (double vote)");
    }
    if rule == 2 {
        return append(text, b"2 (lock violation)");
    }
    put_number(text, rule)
}

fn put_pair(text: &mut Vec<u8>, pair: &Pair) -> Result<(), AllocError>
    ensures { OnOk result (text.new.items ≡ text.old.items ++ pair_text pair.now) }
{
    append(text, b" broke rule ")?;
    put_rule(text, pair.rule)?;
    append(text, b": votes in view ")?;
    put_number(text, pair.earlier.view)?;
    append(text, b" and in view ")?;
    put_number(text, pair.later.view)?;
    Ok(())
}

#[tactic(auto, unfolding(crate::specs::Rows::place_text))]
fn put_place(text: &mut Vec<u8>, culprit: &Culprit) -> Result<(), AllocError>
    ensures { OnOk result (text.new.items ≡ text.old.items ++ place_text culprit.now) }
{
    if culprit.is_unstored {
        return append(text, b"not stored yet at ");
    }
    append(text, b"stored at ")
}

fn put_link(text: &mut Vec<u8>, replica: u16) -> Result<(), AllocError>
    ensures { OnOk result (text.new.items ≡ text.old.items ++ link_text replica) }
{
    append(text, b"; verdict <a href=\"/verdict-")?;
    put_number(text, replica)?;
    append(text, b".hsx\">verdict-")?;
    put_number(text, replica)?;
    append(text, b".hsx</a>, ")?;
    Ok(())
}

fn put_culprit(text: &mut Vec<u8>, culprit: &Culprit) -> Result<(), AllocError>
    ensures { OnOk result (text.new.items ≡ text.old.items ++ culprit_row culprit.now) }
{
    let replica = culprit.verdict.replica();
    let pair = culprit.verdict.pair();
    append(text, b"<li>Replica ")?;
    put_number(text, replica)?;
    put_pair(text, &pair)?;
    put_link(text, replica)?;
    put_place(text, culprit)?;
    append(text, b"<code>")?;
    put_shown(text, &culprit.path)?;
    append(text, b"</code></li>\n")?;
    Ok(())
}

pub(crate) fn put_culprits(text: &mut Vec<u8>, culprits: &[Culprit]) -> Result<(), AllocError>
    ensures { OnOk result (text.new.items
        ≡ text.old.items ++ flat_map culprit_row culprits.now) }
{
    for culprit in culprits {
        put_culprit(text, culprit)?;
    }
    Ok(())
}
