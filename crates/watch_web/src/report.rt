//! The report of a watch.

ghost use Rattle.std.specs.Prelude.{◌≡◌, ◌++◌, IfOk, OnOk, string_bytes};
ghost use Rattle.watch_web.specs.Reports.{block_text, bool_text, conflict_text, culprit_text, digests_text, pair_text, report_commits, report_culprits, report_front, report_sources, report_text, source_counts, source_end, source_front, source_text, source_times, status_of, status_text, string_text};

use crate::lists::{put_blocks, put_culprits, put_sources};
use base_text::{Inside, put_escaped, put_id, put_number};
use base_wire::append;
use blocks::{Ballot, Id};
use log_format::Status;
use std::alloc::{AllocError, Global};
use watch_report::{Culprit, Fork, Pair, Snapshot, SourceDigests, SourceSeen};

#[tactic(auto, unfolding(crate::specs::Reports::bool_text))]
fn put_bool(text: &mut Vec<u8>, is_so: bool) -> Result<(), AllocError>
    ensures { OnOk result (text.new.items ≡ text.old.items ++ bool_text is_so) }
{
    if is_so {
        return append(text, b"true");
    }
    append(text, b"false")
}

#[tactic(auto, unfolding(crate::specs::Reports::status_text))]
fn put_status(text: &mut Vec<u8>, status: Option<Status>) -> Result<(), AllocError>
    ensures { OnOk result (text.new.items ≡ text.old.items ++ status_text status) }
{
    let Some(status) = status else {
        return append(text, b"null");
    };
    append(text, b"\"")?;
    append(text, status.name().as_bytes())?;
    append(text, b"\"")
}

// Adds a text of others as a string.
#[tactic(auto, unfolding(crate::specs::Reports::string_text))]
fn put_string(text: &mut Vec<u8>, piece: &String) -> Result<(), AllocError>
    ensures { OnOk result (text.new.items ≡ text.old.items ++ string_text (string_bytes piece.now)) }
{
    append(text, b"\"")?;
    put_escaped(text, Inside::Json, piece.as_bytes())?;
    append(text, b"\"")
}

// ---- sources

fn put_source_front(text: &mut Vec<u8>, source: &SourceSeen) -> Result<(), AllocError>
    ensures { OnOk result (text.new.items ≡ text.old.items ++ source_front source.now) }
{
    append(text, b"{\"replica\":")?;
    put_number(text, source.replica)?;
    append(text, b",\"word\":")?;
    put_string(text, &source.word)?;
    append(text, b",\"status\":")?;
    put_status(text, source.status)?;
    Ok(())
}

fn put_digests(text: &mut Vec<u8>, digests: &SourceDigests) -> Result<(), AllocError>
    ensures { OnOk result (text.new.items ≡ text.old.items ++ digests_text digests.now) }
{
    append(text, b",\"digest\":\"")?;
    put_id(text, &digests.first)?;
    append(text, b"\",\"digest_all\":\"")?;
    put_id(text, &digests.all)?;
    append(text, b"\"")?;
    Ok(())
}

fn put_source_counts(text: &mut Vec<u8>, source: &SourceSeen) -> Result<(), AllocError>
    ensures { OnOk result (text.new.items ≡ text.old.items ++ source_counts source.now) }
{
    append(text, b",\"frames\":")?;
    put_number(text, source.frames)?;
    append(text, b",\"entries\":")?;
    put_number(text, source.entries)?;
    append(text, b",\"bad_votes\":")?;
    put_number(text, source.bad_votes)?;
    append(text, b",\"view\":\"")?;
    put_number(text, source.top_view)?;
    append(text, b"\"")?;
    put_digests(text, &source.digests)?;
    Ok(())
}

fn put_source_times(text: &mut Vec<u8>, source: &SourceSeen) -> Result<(), AllocError>
    ensures { OnOk result (text.new.items ≡ text.old.items ++ source_times source.now) }
{
    append(text, b",\"last_answer\":")?;
    put_number(text, source.last_answer)?;
    append(text, b",\"last_frame\":")?;
    put_number(text, source.last_frame)?;
    append(text, b",\"went_back\":")?;
    put_number(text, source.times_back)?;
    append(text, b",\"went_back_at\":")?;
    put_number(text, source.went_back_at)?;
    append(text, b",\"set_aside\":")?;
    put_bool(text, source.is_aside)?;
    append(text, b",\"beyond\":")?;
    put_bool(text, source.is_beyond)?;
    Ok(())
}

#[tactic(auto, unfolding(crate::specs::Reports::source_end))]
fn put_source_end(text: &mut Vec<u8>, source: &SourceSeen) -> Result<(), AllocError>
    ensures { OnOk result (text.new.items ≡ text.old.items ++ source_end source.now) }
{
    append(text, b",\"stays\":")?;
    put_bool(text, 0 < source.stays_since)?;
    append(text, b"}")
}

pub(crate) fn put_source(text: &mut Vec<u8>, source: &SourceSeen) -> Result<(), AllocError>
    ensures { OnOk result (text.new.items ≡ text.old.items ++ source_text source.now) }
{
    put_source_front(text, source)?;
    put_source_counts(text, source)?;
    put_source_times(text, source)?;
    put_source_end(text, source)
}

// ---- commits and the conflict

#[tactic(auto, unfolding(crate::specs::Reports::block_text))]
pub(crate) fn put_block(text: &mut Vec<u8>, block: &Ballot) -> Result<(), AllocError>
    ensures { OnOk result (text.new.items ≡ text.old.items ++ block_text block.now) }
{
    append(text, b"{\"view\":\"")?;
    put_number(text, block.view)?;
    append(text, b"\",\"id\":\"")?;
    put_id(text, &block.id)?;
    append(text, b"\"}")
}

#[tactic(auto, unfolding(crate::specs::Reports::conflict_text))]
fn put_conflict(text: &mut Vec<u8>, conflict: &Option<Fork>) -> Result<(), AllocError>
    ensures { OnOk result (text.new.items ≡ text.old.items ++ conflict_text conflict.now) }
{
    let Some(fork) = conflict else {
        return append(text, b"null");
    };
    append(text, b"[\"")?;
    put_id(text, &fork.first)?;
    append(text, b"\",\"")?;
    put_id(text, &fork.second)?;
    append(text, b"\"]")
}

// ---- culprits

#[tactic(auto, unfolding(crate::specs::Reports::pair_text))]
fn put_pair(text: &mut Vec<u8>, pair: &Pair) -> Result<(), AllocError>
    ensures { OnOk result (text.new.items ≡ text.old.items ++ pair_text pair.now) }
{
    put_number(text, pair.rule)?;
    append(text, b",\"votes\":[")?;
    put_block(text, &pair.earlier)?;
    append(text, b",")?;
    put_block(text, &pair.later)?;
    append(text, b"]")
}

pub(crate) fn put_culprit(text: &mut Vec<u8>, culprit: &Culprit) -> Result<(), AllocError>
    ensures { OnOk result (text.new.items ≡ text.old.items ++ culprit_text culprit.now) }
{
    let replica = culprit.verdict.replica();
    let pair = culprit.verdict.pair();
    append(text, b"{\"replica\":")?;
    put_number(text, replica)?;
    append(text, b",\"rule\":")?;
    put_pair(text, &pair)?;
    append(text, b",\"path\":")?;
    put_string(text, &culprit.path)?;
    append(text, b",\"unstored\":")?;
    put_bool(text, culprit.is_unstored)?;
    append(text, b"}")?;
    Ok(())
}

// ---- the whole

#[tactic(auto, unfolding(crate::specs::Reports::status_of))]
fn status_of(seen: &Snapshot) -> u8
    ensures { result ≡ status_of seen.now }
{
    if !seen.culprits.is_empty() {
        return 3;
    }
    if 0 < seen.earlier_culprits { 3 } else { 0 }
}

fn put_front(
    text: &mut Vec<u8>,
    status: u8,
    chain: &Id,
    committee: u64,
    round: u64,
    started: u64,
    time: u64,
) -> Result<(), AllocError>
    ensures { OnOk result (text.new.items
        ≡ text.old.items ++ report_front status chain.now committee round started time) }
{
    append(text, b"{\"format\":\"wezhgula-report-1\",\"status\":")?;
    put_number(text, status)?;
    append(text, b",\"chain\":\"")?;
    put_id(text, chain)?;
    append(text, b"\",\"committee\":\"")?;
    put_number(text, committee)?;
    append(text, b"\",\"round\":\"")?;
    put_number(text, round)?;
    append(text, b"\",\"started\":")?;
    put_number(text, started)?;
    append(text, b",\"time\":")?;
    put_number(text, time)?;
    Ok(())
}

fn put_all_sources(text: &mut Vec<u8>, sources: &[SourceSeen]) -> Result<(), AllocError>
    ensures { OnOk result (text.new.items ≡ text.old.items ++ report_sources sources.now) }
{
    append(text, b",\"sources\":[")?;
    put_sources(text, sources)?;
    append(text, b"]")?;
    Ok(())
}

fn put_commits(
    text: &mut Vec<u8>,
    count: u64,
    commits: &[Ballot],
    conflict: &Option<Fork>,
    handover: bool,
) -> Result<(), AllocError>
    ensures { OnOk result (text.new.items
        ≡ text.old.items ++ report_commits count commits.now conflict.now handover) }
{
    append(text, b",\"commit_count\":\"")?;
    put_number(text, count)?;
    append(text, b"\",\"commits\":[")?;
    put_blocks(text, commits)?;
    append(text, b"],\"conflict\":")?;
    put_conflict(text, conflict)?;
    append(text, b",\"handover\":")?;
    put_bool(text, handover)?;
    Ok(())
}

fn put_all_culprits(
    text: &mut Vec<u8>,
    culprits: &[Culprit],
    unstored: bool,
    weight: u64,
    total: u64,
) -> Result<(), AllocError>
    ensures { OnOk result (text.new.items
        ≡ text.old.items ++ report_culprits culprits.now unstored weight total) }
{
    append(text, b",\"culprits\":[")?;
    put_culprits(text, culprits)?;
    append(text, b"],\"unstored\":")?;
    put_bool(text, unstored)?;
    append(text, b",\"weight\":\"")?;
    put_number(text, weight)?;
    append(text, b"\",\"total\":\"")?;
    put_number(text, total)?;
    append(text, b"\"}\n")?;
    Ok(())
}

/// The report of what a watch knew, as one object of JSON and a line feed. docs/FORMATS.md has its fields.
#[tactic(auto, unfolding(crate::specs::Reports::report_text))]
pub(crate) fn report_of(alloc: Global, seen: &Snapshot) -> Result<Vec<u8>, AllocError>
    ensures { IfOk result (λ text. text.items ≡ report_text seen.now) }
{
    let mut text = Vec::new(alloc);
    put_front(
        &mut text,
        status_of(seen),
        &seen.chain,
        seen.committee,
        seen.round,
        seen.started,
        seen.stamped,
    )?;
    put_all_sources(&mut text, &seen.sources)?;
    put_commits(
        &mut text,
        seen.commit_count,
        &seen.commits,
        &seen.conflict,
        seen.has_handover,
    )?;
    put_all_culprits(
        &mut text,
        &seen.culprits,
        seen.is_unstored,
        seen.weight,
        seen.total,
    )?;
    Ok(text)
}
