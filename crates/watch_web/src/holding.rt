//! All that holds, each with whom it is of and for how long.

ghost use Rattle.std.specs.Prelude.{◌≡◌, ◌++◌, OnOk};
ghost use Rattle.std.specs.List.{flat_map};
ghost use Rattle.watch_web.specs.Holding.{conflict_held, conflict_line, culprit_held, held_as, held_if, held_line, holding_text, name_of, names_below, reading_held, source_held, unstored_held, unstored_line, unwatched_held, unwatched_line};
ghost use Rattle.watch_web.specs.Words.{share_text};

use crate::ages::put_for;
use crate::rows::{put_remark, put_shown};
use base_text::put_number;
use base_wire::append;
use std::alloc::AllocError;
use watch_report::{Culprit, Fork, Snapshot, SourceSeen, SourceState};

fn put_conflict_line(text: &mut Vec<u8>, since: u64, second: u64) -> Result<(), AllocError>
    ensures { OnOk result (text.new.items ≡ text.old.items ++ conflict_line since second) }
{
    append(text, b"<li>Two commits conflict")?;
    put_for(text, since, second)?;
    append(text, b"</li>\n")?;
    Ok(())
}

#[tactic(auto, unfolding(crate::specs::Holding::conflict_held))]
fn put_conflict_held(
    text: &mut Vec<u8>,
    conflict: &Option<Fork>,
    since: u64,
    second: u64,
) -> Result<(), AllocError>
    ensures { OnOk result (text.new.items
        ≡ text.old.items ++ conflict_held conflict.now since second) }
{
    match conflict {
        None => append(text, b""),
        Some(_) => put_conflict_line(text, since, second),
    }
}

fn put_culprit_held(text: &mut Vec<u8>, second: u64, culprit: &Culprit) -> Result<(), AllocError>
    ensures { OnOk result (text.new.items
        ≡ text.old.items ++ culprit_held second culprit.now) }
{
    let replica = culprit.verdict.replica();
    append(text, b"<li>Replica ")?;
    put_number(text, replica)?;
    append(text, b" is a culprit")?;
    put_for(text, culprit.since, second)?;
    append(text, b"</li>\n")?;
    Ok(())
}

fn put_culprits_held(
    text: &mut Vec<u8>,
    second: u64,
    culprits: &[Culprit],
) -> Result<(), AllocError>
    ensures { OnOk result (text.new.items
        ≡ text.old.items ++ flat_map (culprit_held second) culprits.now) }
{
    for culprit in culprits {
        put_culprit_held(text, second, culprit)?;
    }
    Ok(())
}

// A source that does so.
fn put_held_line(
    text: &mut Vec<u8>,
    second: u64,
    state: SourceState,
    source: &SourceSeen,
) -> Result<(), AllocError>
    ensures { OnOk result (text.new.items
        ≡ text.old.items ++ held_line second state source.now) }
{
    append(text, b"<li>Replica ")?;
    put_number(text, source.replica)?;
    append(text, b", source ")?;
    put_shown(text, &source.word)?;
    append(text, b": ")?;
    put_remark(text, state, source.bad_votes)?;
    put_for(text, source.since(state), second)?;
    append(text, b"</li>\n")?;
    Ok(())
}

// .. where that is so.
#[tactic(auto, unfolding(crate::specs::Holding::held_if))]
fn put_held_if(
    text: &mut Vec<u8>,
    is_so: bool,
    second: u64,
    state: SourceState,
    source: &SourceSeen,
) -> Result<(), AllocError>
    ensures { OnOk result (text.new.items
        ≡ text.old.items ++ held_if is_so second state source.now) }
{
    if !is_so {
        return append(text, b"");
    }
    put_held_line(text, second, state, source)
}

// .. unless it answers.
#[tactic(auto, unfolding(crate::specs::Holding::held_as))]
fn put_held_as(
    text: &mut Vec<u8>,
    second: u64,
    state: SourceState,
    source: &SourceSeen,
) -> Result<(), AllocError>
    ensures { OnOk result (text.new.items
        ≡ text.old.items ++ held_as second state source.now) }
{
    match state {
        SourceState::Answers => append(text, b""),
        SourceState::Back
        | SourceState::Aside
        | SourceState::Beyond
        | SourceState::Bad
        | SourceState::Silent
        | SourceState::Unread
        | SourceState::NotWhole => put_held_line(text, second, state, source),
    }
}

// Of what is read: that votes are not good, and that it does not answer.
#[tactic(auto, unfolding(crate::specs::Holding::reading_held))]
fn put_reading_held(
    text: &mut Vec<u8>,
    every: u32,
    second: u64,
    source: &SourceSeen,
) -> Result<(), AllocError>
    ensures { OnOk result (text.new.items
        ≡ text.old.items ++ reading_held every second source.now) }
{
    if source.is_aside {
        return append(text, b"");
    }
    let is_bad = source.has_bad_votes();
    put_held_if(text, is_bad, second, SourceState::Bad, source)?;
    put_held_as(text, second, source.hearing(every, second), source)
}

#[tactic(auto, unfolding(crate::specs::Holding::source_held))]
fn put_source_held(
    text: &mut Vec<u8>,
    every: u32,
    second: u64,
    source: &SourceSeen,
) -> Result<(), AllocError>
    ensures { OnOk result (text.new.items
        ≡ text.old.items ++ source_held every second source.now) }
{
    let is_back = source.is_back(second);
    put_held_if(text, is_back, second, SourceState::Back, source)?;
    put_held_if(text, source.is_aside, second, SourceState::Aside, source)?;
    put_held_if(text, source.is_beyond, second, SourceState::Beyond, source)?;
    put_reading_held(text, every, second, source)
}

fn put_sources_held(
    text: &mut Vec<u8>,
    every: u32,
    second: u64,
    sources: &[SourceSeen],
) -> Result<(), AllocError>
    ensures { OnOk result (text.new.items
        ≡ text.old.items ++ flat_map (source_held every second) sources.now) }
{
    for source in sources {
        put_source_held(text, every, second, source)?;
    }
    Ok(())
}

fn put_unstored_line(text: &mut Vec<u8>, since: u64, second: u64) -> Result<(), AllocError>
    ensures { OnOk result (text.new.items ≡ text.old.items ++ unstored_line since second) }
{
    append(text, b"<li>Something is not stored")?;
    put_for(text, since, second)?;
    append(text, b"</li>\n")?;
    Ok(())
}

#[tactic(auto, unfolding(crate::specs::Holding::unstored_held))]
fn put_unstored_held(
    text: &mut Vec<u8>,
    is_unstored: bool,
    since: u64,
    second: u64,
) -> Result<(), AllocError>
    ensures { OnOk result (text.new.items
        ≡ text.old.items ++ unstored_held is_unstored since second) }
{
    if !is_unstored {
        return append(text, b"");
    }
    put_unstored_line(text, since, second)
}

// A replica, unless a source is named for it.
#[tactic(auto, unfolding(crate::specs::Holding::name_of))]
fn put_name(text: &mut Vec<u8>, is_watched: bool, replica: u16) -> Result<(), AllocError>
    ensures { OnOk result (text.new.items ≡ text.old.items ++ name_of is_watched replica) }
{
    if is_watched {
        return append(text, b"");
    }
    append(text, b" ")?;
    put_number(text, replica)
}

fn put_names(text: &mut Vec<u8>, seen: &Snapshot) -> Result<(), AllocError>
    ensures { OnOk result (text.new.items
        ≡ text.old.items ++ names_below seen.now.sources.items seen.now.replicas) }
{
    for replica in 0..seen.replicas {
        put_name(text, seen.is_watched(replica), replica)?;
    }
    Ok(())
}

// So many replicas of so many.
#[tactic(auto, unfolding(crate::specs::Words::share_text))]
fn put_part(text: &mut Vec<u8>, count: u16, all: u16) -> Result<(), AllocError>
    ensures { OnOk result (text.new.items ≡ text.old.items ++ share_text count all) }
{
    put_number(text, count)?;
    append(text, b" of ")?;
    put_number(text, all)
}

fn put_unwatched_line(text: &mut Vec<u8>, count: u16, seen: &Snapshot) -> Result<(), AllocError>
    ensures { OnOk result (text.new.items ≡ text.old.items ++ unwatched_line count seen.now) }
{
    append(text, b"<li>")?;
    put_part(text, count, seen.replicas)?;
    append(text, b" replicas are not watched:")?;
    put_names(text, seen)?;
    append(text, b"</li>\n")?;
    Ok(())
}

#[tactic(auto, unfolding(crate::specs::Holding::unwatched_held))]
fn put_unwatched_held(text: &mut Vec<u8>, seen: &Snapshot) -> Result<(), AllocError>
    ensures { OnOk result (text.new.items ≡ text.old.items ++ unwatched_held seen.now) }
{
    let count = seen.unwatched();
    if 0 < count {
        return put_unwatched_line(text, count, seen);
    }
    append(text, b"")
}

/// Adds all that holds of what a watch knew, at this second.
#[tactic(auto, unfolding(crate::specs::Holding::holding_text))]
pub(crate) fn put_holding(
    text: &mut Vec<u8>,
    seen: &Snapshot,
    second: u64,
) -> Result<(), AllocError>
    ensures { OnOk result (text.new.items ≡ text.old.items ++ holding_text seen.now second) }
{
    put_conflict_held(text, &seen.conflict, seen.conflict_since, second)?;
    put_culprits_held(text, second, &seen.culprits)?;
    put_sources_held(text, seen.every, second, &seen.sources)?;
    put_unstored_held(text, seen.is_unstored, seen.unstored_since, second)?;
    put_unwatched_held(text, seen)
}
