//! What a watch knew at one moment.

ghost use Rattle.std.specs.Prelude.{◌≡◌, IfOk, Some, drop, length, map, slice_get, sum_by};
ghost use Rattle.std.specs.List.{All};
ghost use Rattle.watch_report.specs.Proved.{IsProved};
ghost use Rattle.watch_desk.specs.Shown.{AreAccepted, IsShownAt, IsSnapshotOf, IsSnapshotUnder, IsFiledAt, capped, commit_shown, conflict_shown, culprit_facts, entries_in, entries_of, frames_in, frames_of, known_facts, last_commits, place_rest, seen_facts, verdict_facts, verdict_rest, weight_in};
ghost use Rattle.watch_desk.specs.Taking.{AllAt};

use crate::back::back_at;
use crate::commits::MOST_COMMITS;
use crate::desk::WatchDesk;
use crate::known::KnownVerdict;
use crate::source::{LogKnown, SourceKnown};
use audit_evidence::SourceReport;
use base_shared::Shared;
use blocks::{Ballot, CommitteeView};
use culprit_search::{Commit, Conflict};
use std::alloc::{AllocError, Global};
use watch_report::{Culprit, Fork, ProvedVerdict, Snapshot, SourceSeen};

/// When something was last so of a source, or since when it is. Times are seconds since 1970, 0 where there was none.
#[derive(Clone, Copy, Debug, PartialEq, Eq)]
pub struct SourceTimes {
    /// When it last gave a byte.
    pub answer: u64,
    /// When a frame last came of it.
    pub frame: u64,
    /// Since when its log ends as it does.
    pub status: u64,
    /// Since when votes of it are not good.
    pub bad: u64,
    /// Since when it is set aside.
    pub aside: u64,
    /// Since when it gives one log too many.
    pub beyond: u64,
    /// Since when it has no log of a chain to which others went over.
    pub stays: u64,
}

// .. of a source of which nothing came.
const NO_TIMES: SourceTimes = SourceTimes {
    answer: 0,
    frame: 0,
    status: 0,
    bad: 0,
    aside: 0,
    beyond: 0,
    stays: 0,
};

/// What a watch knows of a source besides what came of it.
#[derive(Drop)]
pub struct SourcePlace {
    /// The word that names it.
    pub word: String,
    /// It is a file, which is read once.
    pub is_file: bool,
    pub times: SourceTimes,
}

/// Where the file of a verdict is, or is to be.
#[derive(Drop)]
pub struct VerdictPlace {
    /// Its path.
    pub path: String,
    /// It could not be stored there yet.
    pub is_unstored: bool,
    /// Since when it is known, in seconds since 1970.
    pub since: u64,
}

/// A moment of a watch: what is shown of it besides what its desk knows. Times are seconds since 1970.
#[derive(Drop)]
pub struct Moment {
    /// The number of the committee: the first one has 0.
    pub committee: u64,
    /// Whether the watch goes over with the ledger.
    pub goes_over: bool,
    /// How many culprits the committees before have.
    pub earlier_culprits: u64,
    /// The name of the watch.
    pub name: String,
    /// The folder of its verdicts.
    pub folder: String,
    /// When the watch began.
    pub started: u64,
    /// The number of its last round.
    pub round: u64,
    /// When that was.
    pub stamped: u64,
    /// How many milliseconds the rounds took so far, but for what they publish.
    pub took: u64,
    /// After how many milliseconds a source is asked again.
    pub every: u32,
    /// Something could not be stored.
    pub is_unstored: bool,
    /// Since when.
    pub unstored_since: u64,
    /// Since when it is known that commits conflict.
    pub conflict_since: u64,
    /// How many lines were dropped.
    pub lines_lost: u64,
    /// How many files with parts of logs were kept when the watch began.
    pub kept: u64,
    /// How many of them were read.
    pub kept_read: u64,
    /// How many bytes the files with parts of logs have, 0 where none are kept.
    pub state_bytes: u64,
    /// How many they may have, 0 where there is no bound.
    pub state_bytes_max: u64,
    /// The sources, in the order of the desk's.
    pub sources: Vec<SourcePlace>,
    /// The picture of the last audit; none before the first one.
    pub picture: Option<String>,
}

// How much a replica counts.
fn weight_in(committee: &CommitteeView, replica: u16) -> u64
    ensures { result ≡ weight_in committee.now replica }
{
    if replica < committee.n() {
        u64::from(committee.weight(replica))
    } else {
        0
    }
}

// How many frames and entries came of the log of this number.
fn counts_at(reports: &[SourceReport], number: usize) -> (u64, u64)
    ensures frames { result.0 ≡ frames_in (slice_get reports.now number) }
    ensures entries { result.1 ≡ entries_in (slice_get reports.now number) }
{
    match reports.get(number) {
        Some(report) => (report.frames as u64, report.entries as u64),
        None => (0, 0),
    }
}

// How many frames and entries came of these logs.
fn counts_of(reports: &[SourceReport], logs: &[LogKnown]) -> (u64, u64)
    ensures frames { result.0 ≡ capped (sum_by (frames_of reports.now) logs.now) }
    ensures entries { result.1 ≡ capped (sum_by (entries_of reports.now) logs.now) }
{
    let mut frames: u64 = 0;
    let mut entries: u64 = 0;
    for log in logs {
        let here = counts_at(reports, log.number);
        frames = frames.saturating_add(here.0);
        entries = entries.saturating_add(here.1);
    }
    (frames, entries)
}

// What a watch knows of the source at this place.
fn place_at(alloc: Global, places: &[SourcePlace], i: usize) -> Result<SourcePlace, AllocError>
    ensures { IfOk result (λ p. place_rest (Some p) ≡ place_rest (slice_get places.now i)) }
{
    match places.get(i) {
        Some(place) => {
            let word = String::from_str(alloc, &place.word)?;
            Ok(SourcePlace {
                word,
                is_file: place.is_file,
                times: place.times,
            })
        }
        None => Ok(SourcePlace {
            word: String::new(alloc),
            is_file: false,
            times: NO_TIMES,
        }),
    }
}

fn source_seen(
    alloc: Global,
    i: usize,
    known: &SourceKnown,
    reports: &[SourceReport],
    places: &[SourcePlace],
) -> Result<SourceSeen, AllocError>
    ensures facts { IfOk result (λ s. seen_facts s ≡ known_facts reports.now known.now) }
    ensures placed { IfOk result (IsShownAt places.now i) }
{
    let SourcePlace {
        word,
        is_file,
        times,
    } = place_at(alloc, places, i)?;
    let (frames, entries) = counts_of(reports, &known.logs);
    Ok(SourceSeen {
        number: u16::try_from(i).unwrap_or(u16::MAX),
        word,
        replica: known.replica,
        is_file,
        status: known.status,
        frames,
        entries,
        bad_votes: known.bad.len() as u64,
        top_view: known.top_view,
        digests: known.digests,
        last_answer: times.answer,
        last_frame: times.frame,
        times_back: known.times_back,
        went_back_at: back_at(known.back),
        is_beyond: known.is_beyond,
        is_aside: known.is_aside(),
        status_since: times.status,
        bad_since: times.bad,
        aside_since: times.aside,
        beyond_since: times.beyond,
        stays_since: times.stays,
    })
}

fn sources_seen(
    alloc: Global,
    sources: &[SourceKnown],
    reports: &[SourceReport],
    places: &[SourcePlace],
) -> Result<Vec<SourceSeen>, AllocError>
    ensures facts { IfOk result (λ seen.
        map seen_facts seen.items ≡ map (known_facts reports.now) sources.now) }
    ensures placed { IfOk result (λ seen. AllAt (IsShownAt places.now) seen.items) }
{
    let mut seen = Vec::new(alloc);
    for i in 0..sources.len() {
        let source = source_seen(alloc, i, &sources[i], reports, places)?;
        seen.push(source)?;
    }
    Ok(seen)
}

// Where the file of the verdict at this place is.
fn verdict_place(
    alloc: Global,
    places: &[VerdictPlace],
    i: usize,
) -> Result<VerdictPlace, AllocError>
    ensures { IfOk result (λ p. verdict_rest (Some p) ≡ verdict_rest (slice_get places.now i)) }
{
    match places.get(i) {
        Some(place) => {
            let path = String::from_str(alloc, &place.path)?;
            Ok(VerdictPlace {
                path,
                is_unstored: place.is_unstored,
                since: place.since,
            })
        }
        None => Ok(VerdictPlace {
            path: String::new(alloc),
            is_unstored: true,
            since: 0,
        }),
    }
}

fn culprit_seen(
    alloc: Global,
    i: usize,
    committee: &CommitteeView,
    known: &KnownVerdict,
    places: &[VerdictPlace],
) -> Result<Culprit, AllocError>
    requires { IsProved known.now }
    ensures facts { IfOk result (λ c. culprit_facts c ≡ verdict_facts committee.now known.now) }
    ensures stored { IfOk result (IsFiledAt places.now i) }
{
    let VerdictPlace {
        path,
        is_unstored,
        since,
    } = verdict_place(alloc, places, i)?;
    let replica = known.replica();
    let weight = weight_in(committee, replica);
    let verdict = ProvedVerdict::copy_of(alloc, replica, known.pair(), known.as_bytes())?;
    Ok(Culprit {
        verdict,
        weight,
        path,
        is_unstored,
        since,
    })
}

fn culprits_seen(
    alloc: Global,
    committee: &CommitteeView,
    verdicts: &[Shared<KnownVerdict>],
    places: &[VerdictPlace],
) -> Result<Vec<Culprit>, AllocError>
    requires { All IsProved verdicts.now }
    ensures facts { IfOk result (λ seen.
        map culprit_facts seen.items ≡ map (verdict_facts committee.now) verdicts.now) }
    ensures stored { IfOk result (λ seen. AllAt (IsFiledAt places.now) seen.items) }
{
    let mut seen = Vec::new(alloc);
    for i in 0..verdicts.len() {
        let culprit = culprit_seen(alloc, i, committee, verdicts[i].get(), places)?;
        seen.push(culprit)?;
    }
    Ok(seen)
}

fn commit_shown(commit: &Commit) -> Ballot
    ensures { result ≡ commit_shown commit.now }
{
    Ballot {
        view: commit.view,
        id: commit.id,
    }
}

fn all_shown(alloc: Global, commits: &[Commit]) -> Result<Vec<Ballot>, AllocError>
    ensures { IfOk result (λ all. all.items ≡ map commit_shown commits.now) }
{
    commits.iter().map(commit_shown).collect(alloc)
}

// The last hundred.
fn last_commits(alloc: Global, commits: &[Commit]) -> Result<Vec<Ballot>, AllocError>
    ensures { IfOk result (λ last. last.items ≡ last_commits commits.now) }
{
    let first = commits.len().saturating_sub(MOST_COMMITS);
    all_shown(alloc, &commits[first..])
}

fn conflict_shown(conflict: Option<Conflict>) -> Option<Fork>
    ensures { result ≡ conflict_shown conflict }
{
    match conflict {
        Some(conflict) => {
            let first = conflict.first;
            let second = conflict.second;
            Some(Fork { first, second })
        }
        None => None,
    }
}

// How much these count together.
fn weight_together(culprits: &[Culprit]) -> u64
    ensures { result ≡ capped (sum_by (λ c. c.weight) culprits.now) }
{
    let mut weight: u64 = 0;
    for culprit in culprits {
        weight = weight.saturating_add(culprit.weight);
    }
    weight
}

// .. with the weights of this committee.
fn snapshot_under(
    alloc: Global,
    committee: &CommitteeView,
    desk: &WatchDesk,
    places: &[VerdictPlace],
    moment: Moment,
) -> Result<Snapshot, AllocError>
    ensures exact { IfOk result (IsSnapshotUnder committee.now desk.now places.now moment) }
    ensures accepted { IfOk result (AreAccepted desk.now.collected.gathered.committee) }
{
    let Moment {
        committee: number,
        goes_over,
        earlier_culprits,
        name,
        folder,
        started,
        round,
        stamped,
        took,
        every,
        is_unstored,
        unstored_since,
        conflict_since,
        lines_lost,
        kept,
        kept_read,
        state_bytes,
        state_bytes_max,
        sources,
        picture,
    } = moment;
    let told = desk.told();
    let culprits = culprits_seen(alloc, committee, told.verdicts(), places)?;
    let seen = sources_seen(alloc, desk.known(), desk.reports(), &sources)?;
    Ok(Snapshot {
        committee: number,
        goes_over,
        earlier_culprits,
        name,
        folder,
        started,
        round,
        stamped,
        took,
        every,
        chain: committee.chain(),
        replicas: committee.n(),
        is_unstored,
        unstored_since,
        lines_lost,
        kept,
        kept_read,
        state_bytes,
        state_bytes_max,
        sources: seen,
        certified: told.certified(),
        commits: last_commits(alloc, told.commits())?,
        commit_count: told.commits().len() as u64,
        conflict: conflict_shown(told.conflict()),
        conflict_since,
        has_handover: told.has_handover(),
        weight: weight_together(&culprits),
        culprits,
        total: committee.total(),
        picture,
    })
}

/// All that a watch may tell of what its desk knows, at this moment. The verdicts have these places, in the order of the desk's;
/// each is a proof under the committee that the desk audits.
pub fn snapshot_of(
    alloc: Global,
    desk: &WatchDesk,
    places: &[VerdictPlace],
    moment: Moment,
) -> Result<Snapshot, AllocError>
    ensures exact { IfOk result (IsSnapshotOf desk.now places.now moment) }
    ensures accepted { IfOk result (AreAccepted desk.now.collected.gathered.committee) }
{
    snapshot_under(alloc, &desk.committee(), desk, places, moment)
}
