//! The metrics of a watch, as Prometheus reads them.

ghost use Rattle.std.specs.Prelude.{◌≡◌, ◌++◌, IfOk, OnOk};
ghost use Rattle.std.specs.List.{flat_map};
ghost use Rattle.watch_web.specs.Metrics.{commits_text, family_text, findings_text, front_of, going_text, kept_text, labels_of, losses_text, metrics_text, name_of, number_of, process_text, progress_text, rounds_text, sample, seconds_text, state_text, trouble_text, value_of, whole_text};

use base_text::{Inside, put_escaped, put_id, put_number};
use base_wire::append;
use blocks::Id;
use std::alloc::{AllocError, Global};
use watch_report::{Snapshot, SourceSeen};

/// What is told of each source.
#[derive(Clone, Copy, Debug, PartialEq, Eq)]
pub enum Family {
    /// How often its log went back.
    WentBack,
    /// Whether no more of it is read.
    SetAside,
    /// Whether it gave one log too many.
    Beyond,
    /// Whether it has no log of a chain to which others went over.
    Stays,
    /// How many of its votes are not good.
    BadVotes,
    /// Whether what came last of it had its end mark.
    Whole,
    /// The greatest view of its votes that came in parts of which no vote is bad.
    TopView,
    /// When it last gave a byte.
    LastAnswer,
    /// When a frame last came of it.
    LastFrame,
}

impl Family {
    fn front(self) -> &'static [u8]
        ensures { result.now ≡ front_of self }
    {
        match self {
            Family::WentBack =>
                b"# HELP hs_watch_source_went_back_total How often a source's log went back.\n# TYPE hs_watch_source_went_back_total counter\n",
            Family::SetAside =>
                b"# HELP hs_watch_source_set_aside 1 if no more of a source is read, else 0.\n# TYPE hs_watch_source_set_aside gauge\n",
            Family::Beyond =>
                b"# HELP hs_watch_source_beyond 1 if a source gave a fifth log, which is not read, else 0.\n# TYPE hs_watch_source_beyond gauge\n",
            Family::Stays =>
                b"# HELP hs_watch_source_stays 1 if a source has no log of a chain to which others went over, else 0.\n# TYPE hs_watch_source_stays gauge\n",
            Family::Whole =>
                b"# HELP hs_watch_source_whole 1 if what came last of a source had its end mark, else 0.\n# TYPE hs_watch_source_whole gauge\n",
            Family::BadVotes =>
                b"# HELP hs_watch_source_bad_votes_total How many votes of a source are not good.\n# TYPE hs_watch_source_bad_votes_total counter\n",
            Family::TopView =>
                b"# HELP hs_watch_source_view The greatest view of the votes of a source that came in parts of which no vote is bad.\n# TYPE hs_watch_source_view gauge\n",
            Family::LastAnswer =>
                b"# HELP hs_watch_source_last_answer_timestamp_seconds When a source last gave a byte, or 0.\n# TYPE hs_watch_source_last_answer_timestamp_seconds gauge\n",
            Family::LastFrame =>
                b"# HELP hs_watch_source_last_frame_timestamp_seconds When a frame last came of a source, or 0.\n# TYPE hs_watch_source_last_frame_timestamp_seconds gauge\n",
        }
    }

    fn name(self) -> &'static [u8]
        ensures { result.now ≡ name_of self }
    {
        match self {
            Family::WentBack => b"hs_watch_source_went_back_total",
            Family::SetAside => b"hs_watch_source_set_aside",
            Family::Beyond => b"hs_watch_source_beyond",
            Family::Stays => b"hs_watch_source_stays",
            Family::Whole => b"hs_watch_source_whole",
            Family::BadVotes => b"hs_watch_source_bad_votes_total",
            Family::TopView => b"hs_watch_source_view",
            Family::LastAnswer => b"hs_watch_source_last_answer_timestamp_seconds",
            Family::LastFrame => b"hs_watch_source_last_frame_timestamp_seconds",
        }
    }

    fn value(self, source: &SourceSeen) -> u64
        ensures { result ≡ value_of self source.now }
    {
        match self {
            Family::WentBack => source.times_back,
            Family::SetAside => u64::from(number_of(source.is_aside)),
            Family::Beyond => u64::from(number_of(source.is_beyond)),
            Family::Stays => u64::from(number_of(0 < source.stays_since)),
            Family::Whole => u64::from(number_of(source.is_whole())),
            Family::BadVotes => source.bad_votes,
            Family::TopView => source.top_view,
            Family::LastAnswer => source.last_answer,
            Family::LastFrame => source.last_frame,
        }
    }
}

#[tactic(auto, unfolding(crate::specs::Metrics::number_of))]
fn number_of(is_so: bool) -> u8
    ensures { result ≡ number_of is_so }
{
    if is_so { 1 } else { 0 }
}

fn put_findings(
    text: &mut Vec<u8>,
    culprits: usize,
    conflict: u8,
    handover: u8,
) -> Result<(), AllocError>
    ensures { OnOk result (text.new.items
        ≡ text.old.items ++ findings_text culprits conflict handover) }
{
    append(
        text,
        b"# HELP hs_watch_culprits How many culprits there are.\n# TYPE hs_watch_culprits gauge\nhs_watch_culprits ",
    )?;
    put_number(text, culprits)?;
    append(
        text,
        b"\n# HELP hs_watch_conflict 1 if commits conflict, else 0.\n# TYPE hs_watch_conflict gauge\nhs_watch_conflict ",
    )?;
    put_number(text, conflict)?;
    append(
        text,
        b"\n# HELP hs_watch_handover 1 if it is proved that the committee handed its ledger over, else 0.\n# TYPE hs_watch_handover gauge\nhs_watch_handover ",
    )?;
    put_number(text, handover)?;
    append(text, b"\n")?;
    Ok(())
}

fn put_going(text: &mut Vec<u8>, committee: u64, chain: &Id, earlier: u64) -> Result<(), AllocError>
    ensures { OnOk result (text.new.items
        ≡ text.old.items ++ going_text committee chain.now earlier) }
{
    append(
        text,
        b"# HELP hs_watch_committee The number of the committee that is watched; the first one has 0.\n# TYPE hs_watch_committee gauge\nhs_watch_committee{chain=\"",
    )?;
    put_id(text, chain)?;
    append(text, b"\"} ")?;
    put_number(text, committee)?;
    append(
        text,
        b"\n# HELP hs_watch_earlier_culprits How many culprits the committees before have.\n# TYPE hs_watch_earlier_culprits gauge\nhs_watch_earlier_culprits ",
    )?;
    put_number(text, earlier)?;
    append(text, b"\n")?;
    Ok(())
}

fn put_commits(text: &mut Vec<u8>, commits: u64) -> Result<(), AllocError>
    ensures { OnOk result (text.new.items ≡ text.old.items ++ commits_text commits) }
{
    append(
        text,
        b"# HELP hs_watch_commits_total How many commits are proved.\n# TYPE hs_watch_commits_total counter\nhs_watch_commits_total ",
    )?;
    put_number(text, commits)?;
    append(
        text,
        b"\n# HELP hs_watch_commits The same; it goes with the next version.\n# TYPE hs_watch_commits gauge\nhs_watch_commits ",
    )?;
    put_number(text, commits)?;
    append(text, b"\n")?;
    Ok(())
}

fn put_losses(text: &mut Vec<u8>, unstored: u8, lines_lost: u64) -> Result<(), AllocError>
    ensures { OnOk result (text.new.items ≡ text.old.items ++ losses_text unstored lines_lost) }
{
    append(
        text,
        b"# HELP hs_watch_unstored 1 if something could not be stored, else 0.\n# TYPE hs_watch_unstored gauge\nhs_watch_unstored ",
    )?;
    put_number(text, unstored)?;
    append(
        text,
        b"\n# HELP hs_watch_lines_lost_total How many lines were dropped, since nobody took them.\n# TYPE hs_watch_lines_lost_total counter\nhs_watch_lines_lost_total ",
    )?;
    put_number(text, lines_lost)?;
    append(text, b"\n")?;
    Ok(())
}

fn put_state(text: &mut Vec<u8>, bytes: u64, most: u64) -> Result<(), AllocError>
    ensures { OnOk result (text.new.items ≡ text.old.items ++ state_text bytes most) }
{
    append(
        text,
        b"# HELP hs_watch_state_bytes How many bytes the files in DIR have.\n# TYPE hs_watch_state_bytes gauge\nhs_watch_state_bytes ",
    )?;
    put_number(text, bytes)?;
    append(
        text,
        b"\n# HELP hs_watch_state_bytes_max How many they may have, or 0.\n# TYPE hs_watch_state_bytes_max gauge\nhs_watch_state_bytes_max ",
    )?;
    put_number(text, most)?;
    append(text, b"\n")?;
    Ok(())
}

// What is kept is audited once all of it was read.
fn put_kept(text: &mut Vec<u8>, kept: u64, read: u64) -> Result<(), AllocError>
    ensures { OnOk result (text.new.items ≡ text.old.items ++ kept_text kept read) }
{
    append(
        text,
        b"# HELP hs_watch_kept_files How many files with parts of logs were kept when the watch began.\n# TYPE hs_watch_kept_files gauge\nhs_watch_kept_files ",
    )?;
    put_number(text, kept)?;
    append(
        text,
        b"\n# HELP hs_watch_kept_files_read How many of them were read; they are audited once all were.\n# TYPE hs_watch_kept_files_read gauge\nhs_watch_kept_files_read ",
    )?;
    put_number(text, read)?;
    append(text, b"\n")?;
    Ok(())
}

// Adds milliseconds as seconds with three decimals.
#[tactic(auto, unfolding(crate::specs::Metrics::seconds_text))]
fn put_seconds(text: &mut Vec<u8>, milliseconds: u64) -> Result<(), AllocError>
    ensures { OnOk result (text.new.items ≡ text.old.items ++ seconds_text milliseconds) }
{
    put_number(text, milliseconds / 1_000)?;
    append(text, b".")?;
    put_number(text, milliseconds / 100 % 10)?;
    put_number(text, milliseconds / 10 % 10)?;
    put_number(text, milliseconds % 10)
}

fn put_rounds(text: &mut Vec<u8>, stamped: u64, took: u64, round: u64) -> Result<(), AllocError>
    ensures { OnOk result (text.new.items ≡ text.old.items ++ rounds_text stamped took round) }
{
    append(
        text,
        b"# HELP hs_watch_round_timestamp_seconds When the last round was.\n# TYPE hs_watch_round_timestamp_seconds gauge\nhs_watch_round_timestamp_seconds ",
    )?;
    put_number(text, stamped)?;
    append(
        text,
        b"\n# HELP hs_watch_round_seconds How long the rounds took, but for what they publish.\n# TYPE hs_watch_round_seconds summary\nhs_watch_round_seconds_sum ",
    )?;
    put_seconds(text, took)?;
    append(text, b"\nhs_watch_round_seconds_count ")?;
    put_number(text, round)?;
    append(text, b"\n")?;
    Ok(())
}

fn put_process(text: &mut Vec<u8>, started: u64) -> Result<(), AllocError>
    ensures { OnOk result (text.new.items ≡ text.old.items ++ process_text started) }
{
    append(
        text,
        b"# HELP process_start_time_seconds When the process began, in seconds since 1970.\n# TYPE process_start_time_seconds gauge\nprocess_start_time_seconds ",
    )?;
    put_number(text, started)?;
    append(
        text,
        b"\n# HELP hs_build_info The version of this program.\n# TYPE hs_build_info gauge\nhs_build_info{version=\"0.9.0\"} 1\n",
    )?;
    Ok(())
}

#[tactic(auto, unfolding(crate::specs::Metrics::labels_of))]
fn put_labels(text: &mut Vec<u8>, source: &SourceSeen) -> Result<(), AllocError>
    ensures { OnOk result (text.new.items ≡ text.old.items ++ labels_of source.now) }
{
    append(text, b"{number=\"")?;
    put_number(text, source.number)?;
    append(text, b"\",replica=\"")?;
    put_number(text, source.replica)?;
    append(text, b"\",source=\"")?;
    put_escaped(text, Inside::Label, source.word.as_bytes())?;
    append(text, b"\"} ")
}

#[tactic(auto, unfolding(crate::specs::Metrics::sample))]
fn put_sample(text: &mut Vec<u8>, family: Family, source: &SourceSeen) -> Result<(), AllocError>
    ensures { OnOk result (text.new.items ≡ text.old.items ++ sample family source.now) }
{
    append(text, family.name())?;
    put_labels(text, source)?;
    put_number(text, family.value(source))?;
    append(text, b"\n")
}

fn put_samples(text: &mut Vec<u8>, family: Family, sources: &[SourceSeen]) -> Result<(), AllocError>
    ensures { OnOk result (text.new.items
        ≡ text.old.items ++ flat_map (sample family) sources.now) }
{
    for source in sources {
        put_sample(text, family, source)?;
    }
    Ok(())
}

fn put_family(text: &mut Vec<u8>, family: Family, sources: &[SourceSeen]) -> Result<(), AllocError>
    ensures { OnOk result (text.new.items ≡ text.old.items ++ family_text family sources.now) }
{
    append(text, family.front())?;
    put_samples(text, family, sources)
}

#[tactic(auto, unfolding(crate::specs::Metrics::trouble_text))]
fn put_troubles(text: &mut Vec<u8>, sources: &[SourceSeen]) -> Result<(), AllocError>
    ensures { OnOk result (text.new.items ≡ text.old.items ++ trouble_text sources.now) }
{
    put_family(text, Family::WentBack, sources)?;
    put_family(text, Family::SetAside, sources)?;
    put_family(text, Family::Beyond, sources)?;
    put_family(text, Family::BadVotes, sources)
}

#[tactic(auto, unfolding(crate::specs::Metrics::progress_text))]
fn put_progress(text: &mut Vec<u8>, sources: &[SourceSeen]) -> Result<(), AllocError>
    ensures { OnOk result (text.new.items ≡ text.old.items ++ progress_text sources.now) }
{
    put_family(text, Family::Whole, sources)?;
    put_family(text, Family::TopView, sources)?;
    put_family(text, Family::LastAnswer, sources)?;
    put_family(text, Family::LastFrame, sources)
}

// .. of all, but for its sources.
#[tactic(auto, unfolding(crate::specs::Metrics::whole_text))]
fn put_whole(text: &mut Vec<u8>, seen: &Snapshot) -> Result<(), AllocError>
    ensures { OnOk result (text.new.items ≡ text.old.items ++ whole_text seen.now) }
{
    let conflict = number_of(seen.conflict.is_some());
    let handover = number_of(seen.has_handover);
    put_findings(text, seen.culprits.len(), conflict, handover)?;
    put_going(text, seen.committee, &seen.chain, seen.earlier_culprits)?;
    put_commits(text, seen.commit_count)?;
    let unstored = number_of(seen.is_unstored);
    put_losses(text, unstored, seen.lines_lost)?;
    put_state(text, seen.state_bytes, seen.state_bytes_max)?;
    put_kept(text, seen.kept, seen.kept_read)?;
    put_rounds(text, seen.stamped, seen.took, seen.round)?;
    put_process(text, seen.started)
}

/// The metrics of what a watch knew.
#[tactic(auto, unfolding(crate::specs::Metrics::metrics_text))]
pub(crate) fn metrics_of(alloc: Global, seen: &Snapshot) -> Result<Vec<u8>, AllocError>
    ensures { IfOk result (λ text. text.items ≡ metrics_text seen.now) }
{
    let mut text = Vec::new(alloc);
    put_whole(&mut text, seen)?;
    put_troubles(&mut text, &seen.sources)?;
    put_family(&mut text, Family::Stays, &seen.sources)?;
    put_progress(&mut text, &seen.sources)?;
    Ok(text)
}
