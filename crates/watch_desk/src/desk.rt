//! The desk.

ghost use Rattle.std.specs.Prelude.{◌≡◌, ◌<◌, ◌↔◌, ℕ, List, IfErr, IfOk, IsTrue, OnErr, Some, length, map, slice_get, slice_index_or};
ghost use Rattle.std.specs.List.{All, Contains};
ghost use Rattle.verdict_format.specs.Proofs.{IsProof};
ghost use Rattle.audit_evidence.specs.Gathering.{IsGatheringRefusal};
ghost use Rattle.watch_collector.specs.Collectors.{IsCollected, MayFollow, unread_log};
ghost use Rattle.audit_evidence.specs.Logs.{ReceivedLog};
ghost use Rattle.culprit_search.specs.Found.{IsSearchOf};
ghost use Rattle.watch_collector.specs.Audits.{IsAuditOfLogs};
ghost use Rattle.watch_desk.specs.Hearing.{IsHeard};
ghost use Rattle.watch_desk.specs.Desks.{told_first};
ghost use Rattle.watch_desk.specs.Opening.{IsAddedAt, IsNotedAt, IsOpenedAt, IsTaken};
ghost use Rattle.watch_desk.specs.Taking.{AreFreshSources, AreKeptCounted, IsBack, IsBeyond, IsGiven};

use crate::back::Extent;
use crate::known::KnownVerdict;
use crate::news::News;
use crate::source::{NewPart, SourceKnown};
use crate::told::{Heard, Told};
use crate::votes::bad_votes;
use audit_evidence::{Evidence, EvidenceRefusal, SourceReport};
use base_shared::Shared;
use blocks::CommitteeView;
use culprit_search::{Report, Searched};
use std::alloc::{AllocError, Global};
use std::marker::Model;
use std::thread::Threads;
use watch_collector::{AuditSoFar, Collector, audit_so_far};

/// What came so far of the sources of a watch, and what was told of it. Contracts see what the collector knows, what is known of
/// each source, and what was told. Each verdict that it knows is a proof under its committee.
#[derive(Drop)]
pub struct WatchDesk<'c> {
    alloc: Global,
    collector: Collector<'c>,
    sources: Vec<SourceKnown>,
    told: Told,
}

impl<'c> Model for WatchDesk<'c> {
    ghost use Rattle.std.specs.List.{All};
    ghost use Rattle.verdict_format.specs.Proofs.{IsProof};
    ghost use Rattle.audit_evidence.specs.Logs.{ReceivedLog};
    ghost use Rattle.watch_collector.specs.Audits.{IsAuditOfLogs};
    ghost use Rattle.watch_desk.specs.Hearing.{IsHeard};
    ghost use Rattle.watch_desk.specs.Desks.{WatchDesk as DeskValue};

    ghost Value = { DeskValue };

    ghost view = { λ d. record {
      collected = d.collector;
      sources = d.sources.items;
      told = d.told;
    } };

    ghost invariant = { λ d. All (IsProof d.collector.gathered.committee) d.told.verdicts };
}

// How the log of this number did.
fn report_at(reports: &[SourceReport], number: usize) -> SourceReport
    requires { number < length reports.now }
    ensures { slice_get reports.now number ≡ Some result }
{
    reports[number]
}

/// An audit, and what of it is new.
#[derive(Drop)]
pub struct Audited<'c> {
    /// The evidence that was audited.
    pub evidence: Evidence<'c>,
    /// What was searched in it.
    pub searched: Searched,
    /// What it proves.
    pub report: Report,
    /// What is new of that, in the order in which it is told.
    pub news: Vec<News>,
}

// A source of each of these replicas, of which nothing came; the first log of each has its number.
fn fresh_sources(alloc: Global, replicas: &[u16]) -> Result<Vec<SourceKnown>, AllocError>
    ensures { IfOk result (λ sources. AreFreshSources replicas.now sources.items) }
{
    let mut sources = Vec::new(alloc);
    for i in 0..replicas.len() {
        sources.push(SourceKnown::new(alloc, replicas[i], i)?)?;
    }
    Ok(sources)
}

impl<'c> WatchDesk<'c> {
    /// Nothing came yet of the log of each of these replicas; these verdicts of files were told.
    pub fn open(
        alloc: Global,
        committee: &CommitteeView<'c>,
        replicas: &[u16],
        kept: Vec<Shared<KnownVerdict>>,
    ) -> Result<WatchDesk<'c>, AllocError>
        requires { All (IsProof committee.now) kept.items }
        ensures collected { IfOk result (λ d.
            IsCollected committee.now (map unread_log replicas.now) d.collected) }
        ensures sources { IfOk result (λ d. AreFreshSources replicas.now d.sources) }
        ensures told { IfOk result (λ d. d.told ≡ told_first kept.items) }
    {
        let collector = Collector::new(alloc, committee, replicas)?;
        let sources = fresh_sources(alloc, replicas)?;
        Ok(WatchDesk {
            alloc,
            collector,
            sources,
            told: Told::new(alloc, kept),
        })
    }

    /// How many sources there are.
    pub fn sources(&self) -> usize
        ensures { result ≡ length self.now.sources }
    {
        self.sources.len()
    }

    /// Whether a verdict is known.
    pub fn has_culprits(&self) -> bool
        ensures { IsTrue result ↔ (0 < length self.now.told.verdicts) }
    {
        !self.told.verdicts().is_empty()
    }

    // The collector's number for a log of a source. Where it is not known yet it is the next, of which nothing came.
    fn number_of(&mut self, i: usize, log: usize) -> Result<usize, AllocError>
        requires { i < length self.old.sources }
        ensures { IfOk result (λ number. IsOpenedAt self.old self.new i log number) }
    {
        if let Some(number) = self.sources[i].number_of(log) {
            return Ok(number);
        }
        let number = self.collector.logs();
        self.collector.also(self.sources[i].replica)?;
        self.sources[i].begin(self.alloc, number)?;
        Ok(number)
    }

    // Adds a part of the log of this number, and notes it of its source.
    fn add<R: Threads + Sync>(
        &mut self,
        rt: &R,
        i: usize,
        number: usize,
        new: &NewPart<'c>,
    ) -> Result<Vec<News>, EvidenceRefusal>
        requires source { i < length self.old.sources }
        requires there { number < length self.old.collected.reports }
        requires follows { MayFollow
            (slice_index_or self.old.collected.reports number new.now.part.report)
            new.now.part.report }
        ensures ok { IfOk result (λ news. IsAddedAt self.old self.new i number new.now news.items) }
        ensures refused { IfErr result (IsGatheringRefusal self.old.collected.gathered
            (Contains new.now.part.listing.headers)) }
    {
        let _bad = self.collector.add(rt, self.alloc, number, &new.part)?;
        let report = report_at(self.collector.reports(), number);
        let bad = bad_votes(self.alloc, &self.collector, new.part.votes())?;
        let news = self.sources[i].note(self.alloc, i, new, &report, &bad)?;
        Ok(news)
    }

    /// Takes a part of a log of a source, and answers what is told of it. It is added behind what came of that log before, where
    /// it goes on there; a part that does not changes nothing. Each vote that no log named before is checked, in as many threads
    /// as there are processors. After a refusal, of memory or since two headers have one id, a part of it may have been added.
    pub fn take<R: Threads + Sync>(
        &mut self,
        rt: &R,
        i: usize,
        new: &NewPart<'c>,
    ) -> Result<Vec<News>, EvidenceRefusal>
        requires { i < length self.old.sources }
        ensures ok { IfOk result (λ news. IsTaken self.old self.new i new.now news.items) }
        // Two headers have one id: of what came so far, and of the part.
        ensures refused { IfErr result (IsGatheringRefusal self.old.collected.gathered
            (Contains new.now.part.listing.headers)) }
    {
        let number = self.number_of(i, new.log)?;
        if !self.collector.takes(number, &new.part) {
            return Ok(Vec::new(self.alloc));
        }
        self.add(rt, i, number, new)
    }

    /// Audits what came so far, and answers what is new of it. After a refusal of memory nothing changed.
    pub fn audit(&mut self) -> Result<Audited<'c>, AllocError>
        ensures audit { IfOk result (λ a. (committee : List ℕ) (logs : List ReceivedLog)
            → IsCollected committee logs self.old.collected
            → IsAuditOfLogs committee logs a.evidence a.report) }
        ensures searched { IfOk result (λ a. IsSearchOf a.evidence a.searched) }
        ensures heard { IfOk result (λ a.
            IsHeard a.evidence a.report self.old.told self.new.told a.news.items) }
        ensures collected { self.new.collected ≡ self.old.collected }
        ensures sources { self.new.sources ≡ self.old.sources }
        ensures err { OnErr result (self.new ≡ self.old) }
    {
        let audit = audit_so_far(self.alloc, &self.collector)?;
        let AuditSoFar {
            evidence,
            searched,
            report,
        } = audit;
        let heard = self.told.hear(self.alloc, &searched, &report)?;
        let Heard { told, news } = heard;
        self.told = told;
        Ok(Audited {
            evidence,
            searched,
            report,
            news,
        })
    }

    /// The log of a source went back in this round, the first of which is 1, and at this second, when it had this of a log. It is
    /// told at most once a round.
    pub fn go_back(
        &mut self,
        i: usize,
        round: u64,
        second: u64,
        had: Option<Extent>,
    ) -> Option<News>
        requires { i < length self.old.sources }
        ensures { IsNotedAt (λ before after. IsBack before after i round second had result)
            i self.old self.new }
    {
        self.sources[i].go_back(i, round, second, had)
    }

    /// A source gives this of a log: where that is all that it had when it went back, it is back no more.
    pub fn give(&mut self, i: usize, given: Extent)
        requires { i < length self.old.sources }
        ensures { IsNotedAt (λ before after. IsGiven before after given) i self.old self.new }
    {
        self.sources[i].give(given);
    }

    /// A source gave one log too many.
    pub fn go_beyond(&mut self, i: usize) -> Option<News>
        requires { i < length self.old.sources }
        ensures { IsNotedAt (λ before after. IsBeyond before after i result) i self.old self.new }
    {
        self.sources[i].go_beyond(i)
    }

    /// A source still gives this log, which was kept: the votes of what was kept of it that are not good are counted, each once.
    pub fn count_kept(&mut self, i: usize, log: usize) -> Result<Vec<News>, AllocError>
        requires { i < length self.old.sources }
        ensures { IfOk result (λ news. IsNotedAt
            (λ before after. AreKeptCounted before after i log news.items) i self.old self.new) }
    {
        let news = self.sources[i].count_kept(self.alloc, i, log)?;
        Ok(news)
    }

    // The committee that it audits.
    pub(crate) fn committee(&self) -> CommitteeView<'c>
        ensures { result ≡ self.now.collected.gathered.committee }
    {
        self.collector.committee()
    }

    /// What is known of a source.
    pub fn source(&self, i: usize) -> &SourceKnown
        requires { i < length self.now.sources }
        ensures { slice_get self.now.sources i ≡ Some result.now }
    {
        &self.sources[i]
    }

    /// What is known of each source.
    pub fn known(&self) -> &[SourceKnown]
        ensures { result.now ≡ self.now.sources }
    {
        &self.sources
    }

    /// How each log did, in the order of the collector's numbers.
    pub fn reports(&self) -> &[SourceReport]
        ensures { result.now ≡ self.now.collected.reports }
    {
        self.collector.reports()
    }

    /// What was told. Each of its verdicts is a proof.
    pub fn told(&self) -> &Told
        ensures value { result.now ≡ self.now.told }
        ensures proofs { All (IsProof self.now.collected.gathered.committee) self.now.told.verdicts }
    {
        &self.told
    }
}
