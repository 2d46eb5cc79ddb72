//! Evidence from logs.

ghost use Rattle.std.specs.Prelude.{◌≡◌, ◌≢◌, ◌++◌, [], ◌∷◌, if◌then◌else◌, length, IfErr, IfOk, OnOk, MatchOption};
ghost use Rattle.std.specs.List.{All, AllZip, Contains};
ghost use Rattle.blocks.specs.Committees.{IsCommittee};
ghost use Rattle.blocks.specs.Genesis.{genesis_of};
ghost use Rattle.blocks.specs.Headers.{header_id};
ghost use Rattle.audit_evidence.specs.Evidence.{IsEvidence, IsEvidenceOf, IsEvidenceRefusal, IsHeaderInEvidence};
ghost use Rattle.certificates.specs.Votes.{IsAnswerOn};
ghost use Rattle.audit_evidence.specs.Gathering.{those};

use crate::gathering::Gathered;
use crate::keeper::Anew;
use crate::listing::Listing;
use crate::mark::Unmarked;
use crate::refusal::EvidenceRefusal;
use crate::source::{SourceLog, SourceReport};
use ancestry::header_of;
use base_shared::Shared;
use blocks::{CommitteeView, Id, NamedHeader};
use certificates::{SignedVote, check_vote};
use std::alloc::{AllocError, Global};
use std::marker::Model;

/// What the logs of replicas show together under a committee: headers by rising id, so that no two have one
/// id, genesis among them; votes that rise by replica, view, id, key and signature, each of them good; and a
/// report of each source. Made by `Evidence::of` and `Evidence::of_known` alone.
#[derive(Drop)]
pub struct Evidence<'a> {
    committee: CommitteeView<'a>,
    headers: Vec<NamedHeader>,
    votes: Vec<Shared<SignedVote>>,
    sources: Vec<SourceReport>,
}

impl<'a> Model for Evidence<'a> {
    ghost use Rattle.audit_evidence.specs.Evidence.{Evidence as EvidenceValue, IsEvidence};

    ghost Value = { EvidenceValue };

    ghost view = { λ e. record {
      committee = e.committee;
      headers = e.headers.items;
      votes = e.votes.items;
      sources = e.sources.items;
    } };

    ghost invariant = { λ e. IsEvidence (record {
      committee = e.committee;
      headers = e.headers.items;
      votes = e.votes.items;
      sources = e.sources.items;
    }) };
}

impl<'a> Evidence<'a> {
    /// What logs name, with the reports of the sources; of the votes those that are good. Genesis has to be among the
    /// headers, as it is in what `Gathered` began with, and there has to be an answer for each vote, in their order: whether
    /// it is good. AllocError comes where memory for the list of good votes was refused.
    pub fn of(
        alloc: Global,
        listing: Listing<'a>,
        answers: &[bool],
        sources: Vec<SourceReport>,
    ) -> Result<Evidence<'a>, AllocError>
        requires genesis { Contains listing.headers (genesis_of listing.committee) }
        requires answers { AllZip (IsAnswerOn listing.committee) listing.votes answers.now }
        ensures { IfOk result (λ e. e ≡ record {
          committee = listing.entry.committee;
          headers = listing.entry.headers;
          votes = those listing.entry.votes answers.now;
          sources = sources.items;
        }) }
    {
        let votes = good_votes(alloc, &listing.votes, answers)?;
        let Listing {
            committee,
            headers,
            votes: _,
        } = listing;
        Ok(Evidence {
            committee,
            headers,
            votes,
            sources,
        })
    }

    /// Evidence of headers and good votes that were gathered and checked before.
    pub fn of_known(
        committee: CommitteeView<'a>,
        headers: Vec<NamedHeader>,
        votes: Vec<Shared<SignedVote>>,
        sources: Vec<SourceReport>,
    ) -> Evidence<'a>
        requires { IsEvidence (record {
          committee = committee;
          headers = headers.items;
          votes = votes.items;
          sources = sources.items;
        }) }
        ensures { result ≡ record {
          committee = committee.entry;
          headers = headers.items;
          votes = votes.items;
          sources = sources.items;
        } }
    {
        Evidence {
            committee,
            headers,
            votes,
            sources,
        }
    }

    /// The committee under which the votes are good.
    pub fn committee(&self) -> CommitteeView<'a>
        ensures value { result ≡ self.now.committee }
        ensures is_committee { IsCommittee self.now.committee }
        ensures is_evidence { IsEvidence self.now }
    {
        self.committee.again()
    }

    /// The headers by rising id.
    pub fn headers(&self) -> &[NamedHeader]
        ensures value { result.now ≡ self.now.headers }
        ensures is_evidence { IsEvidence self.now }
    {
        &self.headers
    }

    /// The header of this id, if it is in evidence. A binary search.
    pub fn header(&self, id: &Id) -> Option<NamedHeader>
        ensures found { MatchOption result (All (λ h. header_id h ≢ id.now) self.now.headers)
            (λ h. Contains self.now.headers h × (header_id h ≡ id.now)) }
        ensures is_evidence { IsEvidence self.now }
    {
        header_of(self.headers(), id)
    }

    /// The votes by rising replica, view, id, key and signature.
    pub fn votes(&self) -> &[Shared<SignedVote>]
        ensures value { result.now ≡ self.now.votes }
        ensures is_evidence { IsEvidence self.now }
    {
        &self.votes
    }

    /// What came of each source, in the order in which they were given.
    pub fn sources(&self) -> &[SourceReport]
        ensures { result.now ≡ self.now.sources }
    {
        &self.sources
    }
}

// Adds the vote, if the answer is yes.
fn put_if(
    answer: bool,
    good: &mut Vec<Shared<SignedVote>>,
    vote: &Shared<SignedVote>,
) -> Result<(), AllocError>
    ensures { OnOk result (good.new.items ≡ good.old.items
        ++ (if answer then vote.now ∷ [] else [])) }
{
    if answer {
        good.push(vote.again()?)?;
    }
    Ok(())
}

// Of the votes those that have the answer yes.
fn good_votes(
    alloc: Global,
    votes: &[Shared<SignedVote>],
    answers: &[bool],
) -> Result<Vec<Shared<SignedVote>>, AllocError>
    requires { length answers.now ≡ length votes.now }
    ensures { IfOk result (λ good. good.items ≡ those votes.now answers.now) }
{
    let mut good = Vec::new(alloc);
    for k in 0..votes.len() {
        put_if(answers[k], &mut good, &votes[k])?;
    }
    Ok(good)
}

fn is_good(committee: &CommitteeView, vote: &SignedVote) -> bool
    ensures { IsAnswerOn committee.now vote.now result }
{
    check_vote(committee, vote).is_ok()
}

// Whether each of the votes is good, in their order.
fn check_each(
    alloc: Global,
    committee: &CommitteeView,
    votes: &[Shared<SignedVote>],
) -> Result<Vec<bool>, AllocError>
    ensures { IfOk result (λ answers. AllZip (IsAnswerOn committee.now) votes.now answers.items) }
{
    let mut answers = Vec::new(alloc);
    for vote in votes {
        answers.push(is_good(committee, vote.get()))?;
    }
    Ok(answers)
}

// Adds a report.
fn put(reports: &mut Vec<SourceReport>, report: SourceReport) -> Result<(), AllocError>
    ensures { OnOk result (reports.new.items ≡ reports.old.items ++ report ∷ []) }
{
    reports.push(report)?;
    Ok(())
}

/// The evidence of these logs, on one thread, which checks each different vote once. It has genesis, both headers of each
/// entry that a frame spells, and of the entry's own vote, taken as that of the log's replica, and the votes of its
/// certificate those that are good; each once. A frame that spells no entry is counted and shows nothing. Refused as Memory
/// where memory was refused, and as Collision where two different headers of the evidence have one id.
pub fn evidence_of_logs<'a>(
    alloc: Global,
    committee: &CommitteeView<'a>,
    logs: &[SourceLog],
) -> Result<Evidence<'a>, EvidenceRefusal>
    ensures ok { IfOk result (IsEvidenceOf committee.now logs.now) }
    ensures refused { IfErr result (IsEvidenceRefusal (IsHeaderInEvidence committee.now logs.now)) }
{
    let mut gathered = Gathered::<Unmarked>::new(alloc, committee)?;
    let mut reports = Vec::new(alloc);
    for log in logs {
        put(&mut reports, gathered.add_log(alloc, &Anew { alloc }, log)?)?;
    }
    let listing = gathered.in_order(alloc)?;
    let answers = check_each(alloc, committee, listing.votes())?;
    Ok(Evidence::of(alloc, listing, &answers, reports)?)
}
