//! What an audit of a ledger takes and finds.

ghost use Rattle.std.specs.Prelude.{OnOk, IfOk};
ghost use Rattle.std.specs.List.{All};
ghost use Rattle.parallel_verify.specs.Collections.{MayBeTried};

use crate::ledger::Ledger;
use crate::lent::Lent;
use crate::phases::{Phases, Times, since};
use blocks::CommitteeView;
use certificates::{SignedVote, check_vote};
use culprit_search::audit;
use log_transfer::{Connector, Watched};
use parallel_verify::{
    Evidence, EvidenceRefusal, Judging, Source, SourceText, evidence_of, read_sources, unobserved,
};
use std::alloc::{AllocError, Global};
use std::io;
use std::sync::Wait;
use std::thread::Threads;
use std::time::{Clock, Instant};

/// The greatest number of votes whose checks are timed.
const MOST_TIMED: usize = 200;

/// How often their checks are timed.
const PASSES: u8 = 3;

/// What an audit found.
#[derive(Clone, Copy)]
pub(crate) struct Found {
    /// How many frames spell entries.
    pub entries: usize,
    /// How many different votes were shown, good or bad.
    pub votes: usize,
    pub commits: usize,
    pub culprits: usize,
}

/// What an audit found, and how long it took.
#[derive(Clone, Copy)]
pub(crate) struct Measured {
    pub found: Found,
    /// How long it takes to check each different vote once, in microseconds, as measured on some of them.
    pub floor: u64,
    /// How long the evidence takes on one thread, in microseconds.
    pub one_thread: u64,
    /// How long it takes with a thread for each log.
    pub threads: Times,
    /// How long it takes so if each log is judged, too.
    pub judged: Times,
    /// How long it is searched, in microseconds.
    pub audit: u64,
}

fn error_of(refusal: EvidenceRefusal) -> io::Error {
    match refusal {
        EvidenceRefusal::Memory => io::Error::from(io::ErrorKind::OutOfMemory),
        EvidenceRefusal::Collision(_, _) => io::Error::from(io::ErrorKind::InvalidData),
    }
}

// How long it takes to check these votes, each of which must be good, in microseconds.
fn time_of_checks<R: Clock>(
    rt: &R,
    committee: &CommitteeView,
    votes: &[SignedVote],
) -> io::Result<u64> {
    let start = Instant::now(rt)?;
    for vote in votes {
        if check_vote(committee, vote).is_err() {
            return Err(io::Error::from(io::ErrorKind::InvalidData));
        }
    }
    since(rt, start)
}

// How long so many checks take, in microseconds: the least of some passes over votes of the sample, scaled.
fn floor_of<R: Clock>(
    rt: &R,
    committee: &CommitteeView,
    sample: &[SignedVote],
    checks: usize,
) -> io::Result<u64> {
    let votes = sample.get(..MOST_TIMED).unwrap_or(sample);
    let mut least = u64::MAX;
    for _ in 0..PASSES {
        least = least.min(time_of_checks(rt, committee, votes)?);
    }
    let all = least.saturating_mul(checks as u64);
    Ok(all.checked_div(votes.len() as u64).unwrap_or(0))
}

// A log in memory whose reading is watched.
type Log<'a, R> = Watched<'a, Lent<'a>, Phases<'a, R>>;

// A source that is read once.
fn once<C: Connector>(replica: u16, connector: C) -> Source<C>
    ensures { MayBeTried (λ c. 1) result }
{
    Source {
        replica,
        connector,
        tries: 1,
    }
}

// A source that sends this log, and is read once.
fn source<'a, R: Clock>(phases: &'a Phases<'a, R>, log: &'a SourceText) -> Source<Log<'a, R>>
    ensures { MayBeTried (λ c. 1) result }
{
    let lent = Lent::new(&log.text);
    once(log.replica, Watched::new(lent, phases, log.replica.into()))
}

// Adds a source.
fn put<'a, R: Clock>(
    sources: &mut Vec<Source<Log<'a, R>>>,
    source: Source<Log<'a, R>>,
) -> Result<(), AllocError>
    requires all { All (MayBeTried (λ c. 1)) sources.old.items }
    requires one { MayBeTried (λ c. 1) source }
    ensures { OnOk result (All (MayBeTried (λ c. 1)) sources.new.items) }
{
    sources.push(source)?;
    Ok(())
}

// Sources that send these logs.
fn sources_of<'a, R: Clock>(
    alloc: Global,
    phases: &'a Phases<'a, R>,
    logs: &'a [SourceText],
) -> Result<Vec<Source<Log<'a, R>>>, AllocError>
    ensures { IfOk result (λ ss. All (MayBeTried (λ c. 1)) ss.items) }
{
    let mut sources = Vec::new(alloc);
    for log in logs {
        put(&mut sources, source(phases, log))?;
    }
    Ok(sources)
}

// How long it takes to gather the evidence with a thread for each log, and to judge these, if they are to be. It must have so many
// votes.
fn time_of_threads<R: Threads + Wait + Clock + Sync>(
    rt: &R,
    alloc: Global,
    committee: &CommitteeView,
    logs: &[SourceText],
    votes: usize,
    judging: Judging,
) -> io::Result<Times> {
    let phases = Phases::new(rt)?;
    let sources = sources_of(alloc, &phases, logs)?;
    let observed = unobserved(alloc, sources)?;
    let reading = read_sources(rt, alloc, committee, &phases, observed, judging).map_err(error_of)?;
    let times = phases.times();
    if reading.evidence.votes().len() != votes {
        return Err(io::Error::from(io::ErrorKind::InvalidData));
    }
    Ok(times)
}

fn entries_in(evidence: &Evidence) -> usize {
    let mut entries = 0usize;
    for source in evidence.sources() {
        entries = entries.saturating_add(source.entries);
    }
    entries
}

// What an audit finds in the evidence, and how long that takes.
fn search<R: Clock>(rt: &R, alloc: Global, evidence: &Evidence) -> io::Result<(Found, u64)> {
    let start = Instant::now(rt)?;
    let report = audit(alloc, evidence)?;
    let time = since(rt, start)?;
    let found = Found {
        entries: entries_in(evidence),
        votes: evidence.votes().len(),
        commits: report.commits().len(),
        culprits: report.verdicts().len(),
    };
    Ok((found, time))
}

// What an audit of the logs finds, and how long their evidence takes on one thread, and its search.
fn audit_alone<R: Clock>(
    rt: &R,
    alloc: Global,
    committee: &CommitteeView,
    logs: &[SourceText],
) -> io::Result<(Found, u64, u64)> {
    let start = Instant::now(rt)?;
    let evidence = evidence_of(alloc, committee, logs).map_err(error_of)?;
    let one_thread = since(rt, start)?;
    let (found, audit) = search(rt, alloc, &evidence)?;
    Ok((found, one_thread, audit))
}

/// Audits the ledger: its evidence is gathered on one thread and searched, and then gathered with a thread for each log, first alone and
/// then with a judgement of each log.
pub(crate) fn measure<R: Threads + Wait + Clock + Sync>(
    rt: &R,
    alloc: Global,
    committee: &CommitteeView,
    ledger: &Ledger,
) -> io::Result<Measured> {
    let logs = ledger.logs.as_slice();
    let (good, one_thread, audit) = audit_alone(rt, alloc, committee, logs)?;
    let votes = good.votes.saturating_add(ledger.bad_votes);
    let floor = floor_of(rt, committee, &ledger.sample, votes)?;
    let threads = time_of_threads(rt, alloc, committee, logs, good.votes, Judging::No)?;
    let judged = time_of_threads(rt, alloc, committee, logs, good.votes, Judging::Each)?;
    Ok(Measured {
        found: Found { votes, ..good },
        floor,
        one_thread,
        threads,
        judged,
        audit,
    })
}
