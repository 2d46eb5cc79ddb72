//! What came of logs so far.

ghost use Rattle.std.specs.Prelude.{◌≡◌, ◌↔◌, ◌<◌, ◌++◌, ◌∷◌, [], ℕ, List, IfErr, IfOk, IsTrue, OnOk, length, map, slice_index_or};
ghost use Rattle.std.specs.List.{Contains};
ghost use Rattle.audit_evidence.specs.Evidence.{IsEvidenceOf, IsEvidenceRefusal, IsHeaderInEvidence};
ghost use Rattle.audit_evidence.specs.Gathering.{Grows, IsGatheringRefusal};
ghost use Rattle.audit_evidence.specs.Logs.{ReceivedLog};
ghost use Rattle.watch_collector.specs.Collectors.{IsCollected, MayFollow, logs_then, reports_then, unread_log, unread_report};
ghost use Rattle.watch_collector.specs.Growing.{AreBadAmong, IsBadVote};
ghost use Rattle.watch_collector.specs.Parts.{IsPartOn};

use crate::checking::check_new;
use crate::growing::Growing;
use crate::part::Part;
use crate::reports::{all_unread, copies, may_follow, together, unread};
use audit_evidence::{Evidence, EvidenceRefusal, SourceReport};
use base_shared::Shared;
use blocks::CommitteeView;
use certificates::SignedVote;
use std::alloc::{AllocError, Global};
use std::marker::Model;
use std::thread::Threads;

/// What came of logs so far, for evidence of it at any moment: what their frames name, which of the votes are good, and a
/// report of each log. A vote is checked when it comes first, and never again.
#[derive(Drop)]
pub struct Collector<'a> {
    growing: Growing<'a>,
    reports: Vec<SourceReport>,
}

impl<'a> Model for Collector<'a> {
    ghost use Rattle.watch_collector.specs.Collectors.{Collected};

    ghost Value = { Collected };

    ghost view = { λ c. record { gathered = c.growing; reports = c.reports.items } };
}

impl<'a> Collector<'a> {
    /// Nothing came yet of a log of each of these replicas.
    pub fn new(
        alloc: Global,
        committee: &CommitteeView<'a>,
        replicas: &[u16],
    ) -> Result<Collector<'a>, AllocError>
        ensures { IfOk result (IsCollected committee.now (map unread_log replicas.now)) }
    {
        Ok(Collector {
            growing: Growing::new(alloc, committee)?,
            reports: all_unread(alloc, replicas)?,
        })
    }

    /// One more log, of this replica, of which nothing came yet. It has the next number.
    pub fn also(&mut self, replica: u16) -> Result<(), AllocError>
        ensures ok { OnOk result ((committee : List ℕ) (logs : List ReceivedLog)
            → IsCollected committee logs self.old
            → IsCollected committee (logs ++ unread_log replica ∷ []) self.new) }
        ensures reports { OnOk result
            (self.new.reports ≡ self.old.reports ++ unread_report replica ∷ []) }
        ensures gathered { self.new.gathered ≡ self.old.gathered }
    {
        self.reports.push(unread(&replica))?;
        Ok(())
    }

    /// The committee of whose logs it is.
    pub fn committee(&self) -> CommitteeView<'a>
        ensures { result ≡ self.now.gathered.committee }
    {
        self.growing.committee()
    }

    /// How many logs there are.
    pub fn logs(&self) -> usize
        ensures { result ≡ length self.now.reports }
    {
        self.reports.len()
    }

    /// How each log did, in the order of their numbers.
    pub fn reports(&self) -> &[SourceReport]
        ensures { result.now ≡ self.now.reports }
    {
        &self.reports
    }

    /// Whether there is such a log, and this may be added to it: it is of the same replica, and both together are no more
    /// than a log has.
    pub fn takes(&self, log: usize, part: &Part) -> bool
        ensures { IsTrue result ↔ ((log < length self.now.reports)
            × MayFollow (slice_index_or self.now.reports log part.now.report) part.now.report) }
    {
        log < self.reports.len() && may_follow(&self.reports[log], &part.report)
    }

    // Adds what a part names. Answers how many of its votes are not good.
    fn add_named<R: Threads + Sync>(
        &mut self,
        rt: &R,
        alloc: Global,
        part: &Part,
    ) -> Result<usize, EvidenceRefusal>
        ensures grown { OnOk result (Grows self.old.gathered self.new.gathered
            (Contains part.now.listing.headers) (Contains part.now.listing.votes)) }
        ensures reports { OnOk result (self.new.reports ≡ self.old.reports) }
        ensures under { self.new.gathered.committee ≡ self.old.gathered.committee }
        ensures bad { IfOk result (AreBadAmong self.old.gathered.committee part.now.listing.votes) }
        ensures err { IfErr result
            (IsGatheringRefusal self.old.gathered (Contains part.now.listing.headers)) }
    {
        let new = self.growing.new_votes(part.votes())?;
        let answers = check_new(rt, alloc, &self.growing.committee(), &new)?;
        self.growing.add_headers(part.listing.headers())?;
        self.growing.add_votes(&new, &answers)?;
        Ok(self.growing.bad_among(part.votes()))
    }

    // Adds a part, and its report.
    fn add_part<R: Threads + Sync>(
        &mut self,
        rt: &R,
        alloc: Global,
        log: usize,
        part: &Part,
    ) -> Result<usize, EvidenceRefusal>
        requires there { log < length self.old.reports }
        requires follows { MayFollow (slice_index_or self.old.reports log part.now.report)
            part.now.report }
        ensures grown { OnOk result (Grows self.old.gathered self.new.gathered
            (Contains part.now.listing.headers) (Contains part.now.listing.votes)) }
        ensures reports { OnOk result
            (self.new.reports ≡ reports_then self.old.reports log part.now.report) }
        ensures under { self.new.gathered.committee ≡ self.old.gathered.committee }
        ensures bad { IfOk result (AreBadAmong self.old.gathered.committee part.now.listing.votes) }
        ensures err { IfErr result
            (IsGatheringRefusal self.old.gathered (Contains part.now.listing.headers)) }
    {
        let bad = self.add_named(rt, alloc, part)?;
        self.reports[log] = together(&self.reports[log], &part.report);
        Ok(bad)
    }

    /// Adds what came of a log behind what came of it before: each vote that no log named before is checked, in as many
    /// threads as there are processors. Answers how many of the part's votes are not good. After a refusal a part of it may
    /// have been added.
    pub fn add<R: Threads + Sync>(
        &mut self,
        rt: &R,
        alloc: Global,
        log: usize,
        part: &Part,
    ) -> Result<usize, EvidenceRefusal>
        requires there { log < length self.old.reports }
        requires follows { MayFollow (slice_index_or self.old.reports log part.now.report)
            part.now.report }
        ensures ok { OnOk result ((committee : List ℕ) (logs : List ReceivedLog) (l : ReceivedLog)
            → IsCollected committee logs self.old → IsPartOn committee l part.now
            → IsCollected committee (logs_then logs log l) self.new) }
        ensures bad { IfOk result
            (AreBadAmong self.old.gathered.committee part.now.listing.votes) }
        ensures refused { IfErr result (λ e. (committee : List ℕ) (logs : List ReceivedLog)
            (l : ReceivedLog) → IsCollected committee logs self.old
            → IsPartOn committee l part.now
            → IsEvidenceRefusal (IsHeaderInEvidence committee (logs_then logs log l)) e) }
        ensures err { IfErr result
            (IsGatheringRefusal self.old.gathered (Contains part.now.listing.headers)) }
        ensures reports { OnOk result
            (self.new.reports ≡ reports_then self.old.reports log part.now.report) }
        ensures grown { OnOk result (Grows self.old.gathered self.new.gathered
            (Contains part.now.listing.headers) (Contains part.now.listing.votes)) }
        ensures under { self.new.gathered.committee ≡ self.old.gathered.committee }
    {
        self.add_part(rt, alloc, log, part)
    }

    /// Whether a vote that came is not good.
    pub fn is_bad(&self, vote: &Shared<SignedVote>) -> bool
        requires { Contains self.now.gathered.votes vote.now }
        ensures { IsTrue result ↔ IsBadVote self.now.gathered.committee vote.now }
    {
        self.growing.is_bad(vote)
    }

    /// The evidence of what came so far. No vote is checked.
    pub fn evidence(&self, alloc: Global) -> Result<Evidence<'a>, AllocError>
        ensures evidence { IfOk result (λ e. (committee : List ℕ) (logs : List ReceivedLog)
            → IsCollected committee logs self.now → IsEvidenceOf committee logs e) }
        ensures under { IfOk result (λ e. e.committee ≡ self.now.gathered.committee) }
    {
        self.growing.evidence(alloc, copies(alloc, &self.reports)?)
    }
}
