//! Evidence that grows.

ghost use Rattle.std.specs.Prelude.{◌≡◌, ◌↔◌, ◌++◌, [], IfErr, IfOk, IsFalse, IsTrue, OnOk};
ghost use Rattle.std.specs.List.{AllZip, Contains};
ghost use Rattle.blocks.specs.Chains.{HasNone};
ghost use Rattle.blocks.specs.Genesis.{genesis_of};
ghost use Rattle.blocks.specs.Headers.{Header, header_id};
ghost use Rattle.certificates.specs.Votes.{IsAnswerOn, IsGoodVote};
ghost use Rattle.certificates.specs.declared.vote.SignedVote.{SignedVote as SignedVoteValue};
ghost use Rattle.audit_evidence.specs.Gathering.{Grows, IsGatheringRefusal, IsNone};
ghost use Rattle.watch_collector.specs.Growing.{AreBadAmong, AreTheNewOf, IsBadVote, IsShownOf};

use audit_evidence::{Evidence, EvidenceRefusal, HeaderSet, SourceReport, VoteSet};
use base_shared::Shared;
use blocks::{CommitteeView, NamedHeader};
use certificates::SignedVote;
use std::alloc::{AllocError, Global};
use std::marker::Model;

/// What logs named so far under a committee, and which of the votes are good, so that no vote is checked twice however
/// often more comes. Contracts see what was named, as they do of `Gathered`.
#[derive(Drop)]
pub(crate) struct Growing<'a> {
    alloc: Global,
    committee: CommitteeView<'a>,
    headers: HeaderSet,
    good: VoteSet,
    bad: VoteSet,
}

impl<'a> Model for Growing<'a> {
    ghost use Rattle.std.specs.Prelude.{◌++◌};
    ghost use Rattle.audit_evidence.specs.Gathering.{Gathered as GatheredValue};
    ghost use Rattle.watch_collector.specs.Growing.{IsJudged};

    ghost Value = { GatheredValue };

    ghost view = { λ g. record {
      committee = g.committee;
      headers = g.headers;
      votes = g.good ++ g.bad;
    } };

    ghost invariant = { λ g. IsJudged g.committee g.headers g.good g.bad };
}

impl<'a> Growing<'a> {
    /// Genesis alone.
    pub fn new(alloc: Global, committee: &CommitteeView<'a>) -> Result<Growing<'a>, AllocError>
        ensures committee { IfOk result (λ g. g.committee ≡ committee.now) }
        ensures headers { IfOk result (λ g. (h : Header) → Contains g.headers h
            ↔ (h ≡ genesis_of committee.now)) }
        ensures votes { IfOk result (λ g. g.votes ≡ []) }
    {
        let mut headers = HeaderSet::new(alloc);
        headers.insert(Shared::new(alloc, NamedHeader::of(committee.genesis()))?)?;
        Ok(Growing {
            alloc,
            committee: committee.again(),
            headers,
            good: VoteSet::new(alloc),
            bad: VoteSet::new(alloc),
        })
    }

    /// The committee under which the votes are good.
    pub fn committee(&self) -> CommitteeView<'a>
        ensures { result ≡ self.now.committee }
    {
        self.committee.again()
    }

    /// Whether the vote was named.
    fn has_vote(&self, vote: &Shared<SignedVote>) -> bool
        ensures { IsTrue result ↔ Contains self.now.votes vote.now }
    {
        self.good.contains(vote) || self.bad.contains(vote)
    }

    /// Of these votes those that were not named before, in their order: they alone have to be checked.
    pub fn new_votes(
        &self,
        votes: &[Shared<SignedVote>],
    ) -> Result<Vec<Shared<SignedVote>>, AllocError>
        ensures { IfOk result (λ new. AreTheNewOf self.now.votes votes.now new.items) }
    {
        let mut new = Vec::new(self.alloc);
        for vote in votes {
            if !self.has_vote(vote) {
                new.push(vote.again()?)?;
            }
        }
        Ok(new)
    }

    // Whether the header is there already. Refused where another one of its id is.
    fn holds(&self, header: &NamedHeader) -> Result<bool, EvidenceRefusal>
        ensures held { IfOk result (λ held. IsTrue held → Contains self.now.headers header.now) }
        ensures new { IfOk result (λ held. IsFalse held
            → HasNone self.now.headers (header_id header.now)) }
        ensures err { IfErr result (IsGatheringRefusal self.now (λ h. h ≡ header.now)) }
    {
        let Some(held) = self.headers.get(header.id()) else {
            return Ok(false);
        };
        let held = held.get();
        if *held.header() != *header.header() {
            return Err(EvidenceRefusal::Collision(*held.header(), *header.header()));
        }
        Ok(true)
    }

    fn add_header(&mut self, header: &NamedHeader) -> Result<(), EvidenceRefusal>
        ensures ok { OnOk result (Grows self.old self.new (λ h. h ≡ header.now) IsNone) }
        ensures under { self.new.committee ≡ self.old.committee }
        ensures err { IfErr result (IsGatheringRefusal self.old (λ h. h ≡ header.now)) }
    {
        if self.holds(header)? {
            return Ok(());
        }
        self.headers.insert(Shared::new(self.alloc, *header)?)?;
        Ok(())
    }

    /// Adds headers. After a refusal a part of them may have been added.
    pub fn add_headers(&mut self, headers: &[NamedHeader]) -> Result<(), EvidenceRefusal>
        ensures ok { OnOk result (Grows self.old self.new (Contains headers.now) IsNone) }
        ensures under { self.new.committee ≡ self.old.committee }
        ensures err { IfErr result (IsGatheringRefusal self.old (Contains headers.now)) }
    {
        for header in headers {
            self.add_header(header)?;
        }
        Ok(())
    }

    fn add_good(&mut self, vote: &Shared<SignedVote>) -> Result<(), AllocError>
        requires { IsGoodVote self.old.committee vote.now }
        ensures ok { OnOk result (Grows self.old self.new IsNone (λ v. v ≡ vote.now)) }
        ensures under { self.new.committee ≡ self.old.committee }
    {
        self.good.insert(vote.again()?)?;
        Ok(())
    }

    fn add_bad(&mut self, vote: &Shared<SignedVote>) -> Result<(), AllocError>
        requires { IsBadVote self.old.committee vote.now }
        ensures ok { OnOk result (Grows self.old self.new IsNone (λ v. v ≡ vote.now)) }
        ensures under { self.new.committee ≡ self.old.committee }
    {
        self.bad.insert(vote.again()?)?;
        Ok(())
    }

    // Adds a vote with the answer to its check.
    fn add_vote(&mut self, vote: &Shared<SignedVote>, is_good: bool) -> Result<(), AllocError>
        requires { IsAnswerOn self.old.committee vote.now is_good }
        ensures ok { OnOk result (Grows self.old self.new IsNone (λ v. v ≡ vote.now)) }
        ensures under { self.new.committee ≡ self.old.committee }
    {
        if is_good {
            return self.add_good(vote);
        }
        self.add_bad(vote)
    }

    /// Adds votes, with for each of them the answer whether it is good. After a refusal a part of them may have been added.
    pub fn add_votes(
        &mut self,
        votes: &[Shared<SignedVote>],
        answers: &[bool],
    ) -> Result<(), AllocError>
        requires { AllZip (IsAnswerOn self.old.committee) votes.now answers.now }
        ensures ok { OnOk result (Grows self.old self.new IsNone (Contains votes.now)) }
        ensures under { self.new.committee ≡ self.old.committee }
    {
        for k in 0..votes.len() {
            self.add_vote(&votes[k], answers[k])?;
        }
        Ok(())
    }

    /// How many of these votes, each of which was named, are not good.
    pub fn bad_among(&self, votes: &[Shared<SignedVote>]) -> usize
        requires { (v : SignedVoteValue) → Contains votes.now v → Contains self.now.votes v }
        ensures { AreBadAmong self.now.committee votes.now result }
    {
        let mut bad = 0;
        for vote in votes {
            if self.bad.contains(vote) {
                bad += 1;
            }
        }
        bad
    }

    /// Whether a vote that was named is not good.
    pub fn is_bad(&self, vote: &Shared<SignedVote>) -> bool
        requires { Contains self.now.votes vote.now }
        ensures { IsTrue result ↔ IsBadVote self.now.committee vote.now }
    {
        self.bad.contains(vote)
    }

    /// The evidence of what was named so far, with these reports of the logs. No vote is checked.
    pub fn evidence(
        &self,
        alloc: Global,
        sources: Vec<SourceReport>,
    ) -> Result<Evidence<'a>, AllocError>
        ensures { IfOk result (IsShownOf self.now sources.items) }
    {
        Ok(Evidence::of_known(
            self.committee.again(),
            self.headers.copies(alloc)?,
            self.good.to_vec(alloc)?,
            sources,
        ))
    }
}
