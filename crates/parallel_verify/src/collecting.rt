//! Evidence from sources that are read in threads of their own.

ghost use Rattle.std.specs.Prelude.{◌≡◌, List, IfErr, IfOk};
ghost use Rattle.std.specs.List.{All, AllZip};
ghost use Rattle.audit_evidence.specs.Evidence.{IsEvidenceOf, IsEvidenceRefusal, IsHeaderInEvidence};
ghost use Rattle.audit_evidence.specs.Logs.{ReceivedLog};
ghost use Rattle.parallel_verify.specs.Collections.{IsEvidenceOfSources, IsRefusalOfSources, MayFail, MayBeTried, MayGive};
ghost use Rattle.parallel_verify.specs.JudgedSources.{IsJudged};
ghost use Rattle.parallel_verify.specs.Parts.{HasReport, IsPartOn};
ghost use Rattle.parallel_verify.specs.Readings.{IsReadingOf, MayBeTriedIn, sources_of};

use crate::batch::check_all;
use crate::gathering::gather_all;
use crate::joining::join;
use crate::judging::{Judgement, Judging, judge_parts};
use crate::numbers::{CertificateList, ListNaming};
use crate::observer::{NoOne, Observer};
use crate::part::{Ending, Part};
use crate::source::{Observed, Source};
use crate::{Board, BoardNaming};
use audit_evidence::{Evidence, EvidenceRefusal, Mark};
use blocks::CommitteeView;
use certificates::{LmsVerifier, Verifier};
use log_transfer::Connector;
use std::alloc::{AllocError, Global};
use std::marker::Brand;
use std::sync::Wait;
use std::thread::Threads;

/// What one reading of sources gave.
#[derive(Drop)]
pub struct Reading<'a, O: Observer> {
    /// What they show together.
    pub evidence: Evidence<'a>,
    /// What was found of the log of each, in their order, if they were to be judged; else nothing.
    pub judged: Vec<Judgement>,
    /// How the reading of each ended, in their order.
    pub endings: Vec<Ending>,
    /// Who was shown them, in their order.
    pub observers: Vec<O>,
}

// How the reading of each ended.
fn endings_of<M: Mark>(alloc: Global, parts: &[Part<M>]) -> Result<Vec<Ending>, AllocError> {
    let mut endings = Vec::with_capacity(alloc, parts.len())?;
    for part in parts {
        endings.push(part.ending)?;
    }
    Ok(endings)
}

// What the parts show together, and what is found of each, over a board of that name.
fn show_parts<
    'a,
    N: BoardNaming + Send + Sync,
    M: Mark + Send + Sync,
    R: Threads + Wait + Sync,
    V: Verifier + Sync,
>(
    rt: &R,
    alloc: Global,
    committee: &CommitteeView<'a>,
    board: &Board<N>,
    verifier: &V,
    parts: &[Part<M>],
    judging: Judging,
) -> Result<(Evidence<'a>, Vec<Judgement>), EvidenceRefusal>
    requires board { committee.now ≡ N.committee }
    requires some { (logs : List ReceivedLog) × AllZip (IsPartOn committee.now) logs parts.now }
    ensures evidence { IfOk result (λ r. (logs : List ReceivedLog)
        → AllZip (IsPartOn committee.now) logs parts.now → IsEvidenceOf committee.now logs r.0) }
    ensures told { IfOk result (λ r. AllZip HasReport parts.now r.0.sources) }
    ensures judged { IfOk result (λ r. judging ≡ Judging.Each → (logs : List ReceivedLog)
        → AllZip (IsPartOn committee.now) logs parts.now
        → AllZip (IsJudged committee.now) logs r.1.items) }
    ensures refused { IfErr result (λ e. (logs : List ReceivedLog)
        → AllZip (IsPartOn committee.now) logs parts.now
        → IsEvidenceRefusal (IsHeaderInEvidence committee.now logs) e) }
{
    let (listing, reports) = join(alloc, committee, parts)?;
    let answers = check_all(rt, alloc, board, verifier, listing.votes())?;
    let judged = judge_parts(
        rt,
        alloc,
        committee,
        judging,
        parts,
        listing.votes(),
        &answers,
    )?;
    let evidence = Evidence::of(alloc, listing, &answers, reports)?;
    Ok((evidence, judged))
}

// A reading, over a board and a list of certificates of those names.
fn read_on<
    'a,
    N: BoardNaming + Send + Sync,
    L: ListNaming + Send + Sync,
    R: Threads + Wait + Sync,
    C: Connector + Send,
    O: Observer + Send,
    V: Verifier + Sync,
>(
    rt: &R,
    alloc: Global,
    committee: &CommitteeView<'a>,
    verifier: &V,
    list: CertificateList,
    sources: Vec<Observed<C, O>>,
    judging: Judging,
) -> Result<Reading<'a, O>, EvidenceRefusal>
    requires board { committee.now ≡ N.committee }
    requires list { list ≡ L.list }
    requires tries { All (MayBeTriedIn C.allowed) sources.items }
    ensures ok { IfOk result (λ r. IsReadingOf C.Connector O.told committee.now judging
        sources.items r.evidence r.judged.items r.observers.items) }
    ensures refused { IfErr result
        (IsRefusalOfSources (MayGive C.gives) committee.now (sources_of sources.items)) }
{
    let board = Board::<N>::new(alloc, committee.again());
    let (parts, observers) = gather_all::<N, L, R, C, O>(
        rt, alloc, committee, &board, &list, sources,
    )?;
    let (evidence, judged) = show_parts(rt, alloc, committee, &board, verifier, &parts, judging)?;
    let endings = endings_of(alloc, &parts)?;
    drop(parts);
    drop(list);
    Ok(Reading {
        evidence,
        judged,
        endings,
        observers,
    })
}

/// Reads sources under the committee. Each is read in a thread of its own, or in the calling thread where
/// none can be made, one frame at a time; its observer is shown each frame as it comes, and then how they end. Equal votes and headers
/// of several sources stand in memory once. After the last source has ended each different vote is checked once, good or bad, in as
/// many threads as there are processors, and each source is judged, if it is to be. Each source has 1 to 3 tries, and no more than its
/// connector allows.
///
/// Evidence, judgements and what the observers were shown are of one list of logs. A source is `Failed` only where a call of its
/// connector failed; this refuses nothing.
///
/// Refused as `Memory` where memory was refused, and as `Collision` where two different headers of the evidence have
/// one id. The connectors and the observers are gone then; an observer whose source was not read to its end was not told of one.
pub fn read_sources<
    'a,
    R: Threads + Wait + Sync,
    C: Connector + Send,
    O: Observer + Send,
    V: Verifier + Sync,
>(
    rt: &R,
    alloc: Global,
    committee: &CommitteeView<'a>,
    verifier: &V,
    sources: Vec<Observed<C, O>>,
    judging: Judging,
) -> Result<Reading<'a, O>, EvidenceRefusal>
    requires tries { All (MayBeTriedIn C.allowed) sources.items }
    ensures ok { IfOk result (λ r. IsReadingOf C.Connector O.told committee.now judging
        sources.items r.evidence r.judged.items r.observers.items) }
    ensures refused { IfErr result
        (IsRefusalOfSources (MayGive C.gives) committee.now (sources_of sources.items)) }
{
    let list = CertificateList::new(alloc)?;
    read_on::<Brand, Brand, R, C, O, V>(rt, alloc, committee, verifier, list, sources, judging)
}

/// The sources, each shown to no one.
pub fn unobserved<C: Connector>(
    alloc: Global,
    sources: Vec<Source<C>>,
) -> Result<Vec<Observed<C, NoOne>>, AllocError>
    ensures { IfOk result (λ observed. sources_of observed.items ≡ sources.items) }
{
    let mut observed = Vec::with_capacity(alloc, sources.len())?;
    for source in sources {
        observed.push(Observed {
            source,
            observer: NoOne,
        })?;
    }
    Ok(observed)
}

/// What sources show together under the committee. Each is read in a thread of its own, or in the calling thread where
/// none can be made, one frame at a time; equal votes and headers of several sources stand in memory once. After the last
/// source has ended each different vote is checked once, good or bad, in as many threads as there are processors. Each
/// source has 1 to 3 tries, and no more than its connector allows.
///
/// The evidence has genesis, both headers of each entry that a whole frame of a source spells, and of the entry's own
/// vote, taken as that of the source's replica, and the votes of its certificate those that are good; each once. A
/// frame that spells no entry is counted and shows nothing. A source is `Failed` only where a call of its connector
/// failed; this refuses nothing.
///
/// Refused as `Memory` where memory was refused, and as `Collision` where two different headers of the evidence have
/// one id. The connectors are gone then.
pub fn collect<'a, R: Threads + Wait + Sync, C: Connector + Send>(
    rt: &R,
    alloc: Global,
    committee: &CommitteeView<'a>,
    sources: Vec<Source<C>>,
) -> Result<Evidence<'a>, EvidenceRefusal>
    requires tries { All (MayBeTried C.allowed) sources.items }
    ensures ok { IfOk result (IsEvidenceOfSources (MayGive C.gives) committee.now sources.items) }
    ensures cause { IfOk result (λ e. AllZip (MayFail C.reaches C.failed) sources.items e.sources) }
    ensures refused { IfErr result
        (IsRefusalOfSources (MayGive C.gives) committee.now sources.items) }
{
    collect_by(rt, alloc, committee, &LmsVerifier, sources)
}

/// The same as `collect`, with signatures checked by this verifier, which a caller may watch.
pub fn collect_by<'a, R: Threads + Wait + Sync, C: Connector + Send, V: Verifier + Sync>(
    rt: &R,
    alloc: Global,
    committee: &CommitteeView<'a>,
    verifier: &V,
    sources: Vec<Source<C>>,
) -> Result<Evidence<'a>, EvidenceRefusal>
    requires tries { All (MayBeTried C.allowed) sources.items }
    ensures ok { IfOk result (IsEvidenceOfSources (MayGive C.gives) committee.now sources.items) }
    ensures cause { IfOk result (λ e. AllZip (MayFail C.reaches C.failed) sources.items e.sources) }
    ensures refused { IfErr result
        (IsRefusalOfSources (MayGive C.gives) committee.now sources.items) }
{
    let observed = unobserved(alloc, sources)?;
    let reading = read_sources(rt, alloc, committee, verifier, observed, Judging::No)?;
    let Reading {
        evidence,
        judged: _,
        endings: _,
        observers: _,
    } = reading;
    Ok(evidence)
}
