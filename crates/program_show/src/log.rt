//! Exports and journals as lines.

ghost use Rattle.std.specs.Prelude.{◌≡◌, ◌<◌, ◌≤◌, ◌++◌, ◌==◌, ◌||◌, Some, IfOk, OnOk, decimal, false, length, map, slice_get, slice_index, true};
ghost use Rattle.base_wire.specs.declared.limits.TheConstants.{MOST_ENTRIES, MOST_KEYS};
ghost use Rattle.log_format.specs.Readings.{status_name};
ghost use Rattle.program_show.specs.Entries.{ArePayloadsShown};
ghost use Rattle.program_show.specs.Files.{IsWholeOrElse, IsExportText, IsIndicesText, IsJournalText, IsLogText, IsNoIndicesText, IsNoJournalText};
ghost use Rattle.program_show.specs.Lines.{export_line, indices_line, journal_line, left_text, left_with, old_form_line, shown_refusal_line};
ghost use Rattle.program_show.specs.Series.{AddsText};

use crate::entry::put_payload;
use crate::mark::{Mark, put_count};
use crate::names::put_refused;
use crate::page::Page;
use base_text::put_number;
use base_wire::{MOST_ENTRIES, MOST_KEYS, append};
use certificates::CommitteeView;
use key_index_store::{INDICES, IndexError, IndexStore};
use log_format::{Frames, Status};
use stable_log::{Journal, JournalError, MemoryDisk};
use std::alloc::{AllocError, Global};

/// How many indices a replica with the most keys has.
const MOST_INDICES: u32 = INDICES * MOST_KEYS as u32;

/// What is shown of a file that begins as an export: how it ends, and its frames.
pub(crate) fn export_page(
    alloc: Global,
    committee: &Option<CommitteeView>,
    bytes: &[u8],
) -> Result<Page, AllocError>
    ensures text { IfOk result (λ p. IsExportText committee.now bytes.now p.text.items) }
    ensures whole { IfOk result (λ p. p.is_whole ≡ true) }
{
    let frames = Frames::of(alloc, bytes)?;
    let mut text = Vec::new(alloc);
    let mut marks = Vec::new(alloc);
    put_export(&mut text, frames.status(), frames.len())?;
    put_frames(alloc, &mut text, &mut marks, committee, &frames)?;
    put_old_form(&mut text, frames.frames())?;
    put_count(&mut text, committee, &marks)?;
    Ok(Page {
        text,
        is_whole: true,
    })
}

#[tactic(auto, unfolding(crate::specs::Lines::export_line))]
fn put_export(text: &mut Vec<u8>, status: Status, count: usize) -> Result<(), AllocError>
    ensures { OnOk result (text.new.items ≡ text.old.items ++ export_line status count) }
{
    append(text, b"export ")?;
    append(text, status.name().as_bytes())?;
    append(text, b" frames ")?;
    put_number(text, count)?;
    append(text, b"\n")
}

fn put_frames(
    alloc: Global,
    text: &mut Vec<u8>,
    marks: &mut Vec<Mark>,
    committee: &Option<CommitteeView>,
    frames: &Frames<'_>,
) -> Result<(), AllocError>
    ensures { OnOk result (AddsText text.old.items text.new.items marks.old.items marks.new.items
        (ArePayloadsShown committee.now frames.now.frames)) }
{
    for k in 0..frames.len() {
        put_payload(alloc, text, marks, committee, k, frames.payload(k))?;
    }
    Ok(())
}

/// What is shown of a file that begins as a journal: its entries up to its closed gate. The file stays as it is: what
/// recovery syncs is a disk in memory.
pub(crate) fn journal_page(
    alloc: Global,
    committee: &Option<CommitteeView>,
    bytes: Vec<u8>,
) -> Result<Page, AllocError>
    ensures { IfOk result (λ p.
        IsWholeOrElse (IsJournalText committee.now bytes.items p.text.items)
        (IsNoJournalText bytes.items p.text.items) p.is_whole) }
{
    match Journal::recover(alloc, MemoryDisk::new(alloc, bytes)?) {
        Ok(journal) => entries_page(alloc, committee, journal),
        Err((JournalError::NotAJournal, _)) => refused_page(alloc, b"journal", 3, b"NotAJournal"),
        Err((JournalError::Damaged, _)) => refused_page(alloc, b"journal", 4, b"Damaged"),
        // A disk in memory fails for want of memory alone.
        Err(_) => Err(AllocError),
    }
}

// The entries of a journal that was read.
fn entries_page(
    alloc: Global,
    committee: &Option<CommitteeView>,
    mut journal: Journal<MemoryDisk>,
) -> Result<Page, AllocError>
    ensures text { IfOk result (λ p.
        IsLogText committee.now (journal_line (length journal.payloads)) journal.payloads
        p.text.items) }
    ensures whole { IfOk result (λ p. p.is_whole ≡ true) }
{
    let mut text = Vec::new(alloc);
    let mut marks = Vec::new(alloc);
    put_journal(&mut text, journal.count())?;
    put_entries(alloc, &mut text, &mut marks, committee, &mut journal)?;
    put_old_journal(alloc, &mut text, &mut journal)?;
    put_count(&mut text, committee, &marks)?;
    Ok(Page {
        text,
        is_whole: true,
    })
}

#[tactic(auto, unfolding(crate::specs::Lines::journal_line))]
fn put_journal(text: &mut Vec<u8>, count: usize) -> Result<(), AllocError>
    requires { count ≤ MOST_ENTRIES }
    ensures { OnOk result (text.new.items ≡ text.old.items ++ journal_line count) }
{
    append(text, b"journal Closed entries ")?;
    put_number(text, count)?;
    append(text, b" left ")?;
    put_number(text, MOST_ENTRIES - count)?;
    append(text, b"\n")
}

fn put_entries(
    alloc: Global,
    text: &mut Vec<u8>,
    marks: &mut Vec<Mark>,
    committee: &Option<CommitteeView>,
    journal: &mut Journal<MemoryDisk>,
) -> Result<(), AllocError>
    ensures text { OnOk result (AddsText text.old.items text.new.items marks.old.items marks.new.items
        (ArePayloadsShown committee.now journal.old.payloads)) }
    ensures same { OnOk result (journal.new.payloads ≡ journal.old.payloads) }
{
    let mut payload = Vec::new(alloc);
    for k in 0..journal.count() {
        let Ok(()) = journal.entry(k, &mut payload) else {
            return Err(AllocError);
        };
        put_payload(alloc, text, marks, committee, k, &payload)?;
    }
    Ok(())
}

// Whether an entry begins as one of the form before votes named their keys: with the kind of a vote there, or of a lock.
fn has_old_kind(payload: &[u8]) -> bool
    ensures { result ≡ (slice_index payload.now 0 == 1) || (slice_index payload.now 0 == 2) }
{
    matches!(payload.first(), Some(1 | 2))
}

// Says that a log is to be migrated, where its first entry is of the form before.
fn put_old_form(text: &mut Vec<u8>, payloads: &[&[u8]]) -> Result<(), AllocError>
    ensures { OnOk result (text.new.items ≡ text.old.items
        ++ old_form_line (map (λ p. p.now) payloads.now)) }
{
    match payloads.first() {
        Some(first) if has_old_kind(first) => append(text, b"see hs_tool migrate\n"),
        _ => Ok(()),
    }
}

// The same of a journal's entries.
fn put_old_journal(
    alloc: Global,
    text: &mut Vec<u8>,
    journal: &mut Journal<MemoryDisk>,
) -> Result<(), AllocError>
    ensures { OnOk result (text.new.items ≡ text.old.items ++ old_form_line journal.old.payloads) }
{
    if journal.count() == 0 {
        return Ok(());
    }
    let mut payload = Vec::new(alloc);
    let Ok(()) = journal.entry(0, &mut payload) else {
        return Err(AllocError);
    };
    put_old_form(text, &[&payload])
}

// The one line of a file that begins as one of a kind, and is none.
fn refused_page(alloc: Global, kind: &[u8], number: u8, name: &[u8]) -> Result<Page, AllocError>
    ensures text { IfOk result (λ p. p.text.items ≡ shown_refusal_line kind.now number name.now) }
    ensures whole { IfOk result (λ p. p.is_whole ≡ false) }
{
    let mut text = Vec::new(alloc);
    put_refused(&mut text, kind, number, name)?;
    Ok(Page {
        text,
        is_whole: false,
    })
}

/// What is shown of a journal that begins with an index: the number below which all indices are taken, and how many are
/// left. It is read as one of the most keys, since it does not say how many there are.
pub(crate) fn indices_page(alloc: Global, bytes: Vec<u8>) -> Result<Page, AllocError>
    ensures { IfOk result (λ p.
        IsWholeOrElse (IsIndicesText bytes.items p.text.items)
        (IsNoIndicesText bytes.items p.text.items) p.is_whole) }
{
    match IndexStore::recover(alloc, MemoryDisk::new(alloc, bytes)?, MOST_KEYS) {
        Ok(store) => taken_page(alloc, MOST_INDICES - store.left()),
        Err((IndexError::BadEntry, _)) => refused_page(alloc, b"indices", 5, b"BadEntry"),
        Err(_) => Err(AllocError),
    }
}

#[tactic(auto, unfolding(crate::specs::Lines::indices_line))]
fn taken_page(alloc: Global, boundary: u32) -> Result<Page, AllocError>
    ensures text { IfOk result (λ p. p.text.items ≡ indices_line boundary) }
    ensures whole { IfOk result (λ p. p.is_whole ≡ true) }
{
    let mut text = Vec::new(alloc);
    append(&mut text, b"indices taken ")?;
    put_number(&mut text, boundary)?;
    append(&mut text, b" left")?;
    put_left(&mut text, boundary)?;
    append(&mut text, b"\n")?;
    Ok(Page {
        text,
        is_whole: true,
    })
}

// Adds how many indices are left with one key, with two, and up to the most.
fn put_left(text: &mut Vec<u8>, boundary: u32) -> Result<(), AllocError>
    ensures { OnOk result (text.new.items ≡ text.old.items ++ left_text boundary MOST_KEYS) }
{
    for k in 0..MOST_KEYS {
        append(text, b" ")?;
        put_number(text, left_with(k + 1, boundary))?;
    }
    Ok(())
}

// Of the indices of so many keys those that are left, where all below the boundary are taken.
fn left_with(keys: u8, boundary: u32) -> u32
    ensures { result ≡ left_with keys boundary }
{
    (INDICES * u32::from(keys)).saturating_sub(boundary)
}
