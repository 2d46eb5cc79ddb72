//! What is found of a source, by its part.

ghost use Rattle.std.specs.Prelude.{◌≡◌, ◌≢◌, ◌↔◌, ℕ, List, IfOk, IsTrue, OnOk, false, length};
ghost use Rattle.std.specs.List.{AllPairs, AllZip, Contains};
ghost use Rattle.certificates.specs.VoteOrder.{IsLowerVote};
ghost use Rattle.certificates.specs.Votes.{IsAnswerOn};
ghost use Rattle.certificates.specs.declared.vote.SignedVote.{SignedVote as SignedVoteValue};
ghost use Rattle.audit_evidence.specs.Gathering.{Gains};
ghost use Rattle.audit_evidence.specs.Logs.{LogNamesVote, ReceivedLog};
ghost use Rattle.audit_evidence.specs.Sets.{InSome};
ghost use Rattle.audit_evidence.specs.NamedVotes.{all_votes};
ghost use Rattle.parallel_verify.specs.JudgedSources.{AreAllKept, AreBadAmong, AreCounted, IsJudged, IsKept, SeparatesBad};
ghost use Rattle.parallel_verify.specs.JudgedSources.{are_sound, has_sound, sound_weight};
ghost use Rattle.parallel_verify.specs.Parts.{IsPartOn};
ghost use Rattle.parallel_verify.specs.Readings.{IsJudgedBy};

use crate::part::Part;
use audit_evidence::{Gathered, Listing, Mark, SourceReport, VoteSet};
use base_shared::Shared;
use blocks::CommitteeView;
use certificates::SignedVote;
use log_format::Status;
use rayon::prelude::*;
use std::alloc::{AllocError, Global};
use std::thread::Threads;

// Each log costs more than a thread, so that no list of them is too short to be split.
const LEAST_PIECE: usize = 1;

/// Whether each source is to be judged.
#[derive(Clone, Copy, Debug, PartialEq, Eq)]
pub enum Judging {
    /// None is.
    No,
    /// Each is.
    Each,
}

/// What was found of a log.
#[derive(Clone, Copy, Debug, PartialEq, Eq)]
pub struct Judgement {
    /// Whose log it is said to be, how it ends, and how many frames and entries it has.
    pub report: SourceReport,
    /// How many different votes it names.
    pub votes: usize,
    /// How many of them are good.
    pub good: usize,
    /// Whether it is whole, each of its frames is an entry, each vote that it names is good, and the entries are legal steps,
    /// one after the other.
    pub sound: bool,
    /// Of a sound log, whether one of its entries has a vote of the replica.
    pub has_voted: bool,
}

// The votes of a part, each once. Its headers collide with none, so a refusal is one of memory.
fn listing_of<'a, M: Mark>(
    alloc: Global,
    committee: &CommitteeView<'a>,
    part: &Part<M>,
) -> Result<Listing<'a>, AllocError>
    ensures { IfOk result (λ r. (v : SignedVoteValue)
        → Contains r.votes v ↔ Contains (all_votes part.now.votes part.now.certificates) v) }
{
    let mut gathered = Gathered::<M>::new(alloc, committee)?;
    match gathered.merge(&part.headers, &part.votes, &part.certificates) {
        Ok(()) => Ok(gathered.in_order(alloc)?),
        Err(_) => Err(AllocError),
    }
}

// Adds the vote, if the answer is no.
fn put_bad(bad: &mut VoteSet, vote: &Shared<SignedVote>, answer: bool) -> Result<(), AllocError>
    ensures { OnOk result (Gains bad.old bad.new (λ v. (answer ≡ false) × (v ≡ vote.now))) }
{
    if !answer {
        bad.insert(vote.again()?)?;
    }
    Ok(())
}

/// Those of the votes that are not good, where these are the answers to them.
pub(crate) fn bad_among(
    alloc: Global,
    votes: &[Shared<SignedVote>],
    answers: &[bool],
) -> Result<VoteSet, AllocError>
    requires { length answers.now ≡ length votes.now }
    ensures { IfOk result (λ bad. (committee : List ℕ)
        → AllZip (IsAnswerOn committee) votes.now answers.now
        → AreBadAmong committee votes.now bad) }
{
    let mut bad = VoteSet::new(alloc);
    for k in 0..votes.len() {
        put_bad(&mut bad, &votes[k], answers[k])?;
    }
    Ok(bad)
}

// How many of the votes, which rise, are not bad.
fn count_kept(votes: &[Shared<SignedVote>], bad: &VoteSet) -> usize
    requires { AllPairs IsLowerVote votes.now }
    ensures counted { AreCounted (IsKept votes.now bad.now) result }
    ensures all { (result ≡ length votes.now) ↔ AreAllKept votes.now bad.now }
{
    let mut count = 0;
    for vote in votes {
        if !bad.contains(vote) {
            count += 1;
        }
    }
    count
}

// Whether a log of this report is sound.
fn is_sound(report: &SourceReport, votes: usize, good: usize, are_legal: bool) -> bool
    ensures { IsTrue result ↔ ((report.now.status ≡ Status.Whole)
        × (report.now.entries ≡ report.now.frames) × (good ≡ votes) × IsTrue are_legal) }
{
    report.status == Status::Whole && report.entries == report.frames && good == votes && are_legal
}

/// What is found of the log of a source by its part, where those of its votes that are not good are these.
pub(crate) fn judge<M: Mark>(
    alloc: Global,
    committee: &CommitteeView,
    bad: &VoteSet,
    part: &Part<M>,
) -> Result<Judgement, AllocError>
    ensures { IfOk result (λ j. (l : ReceivedLog) → IsPartOn committee.now l part.now
        → SeparatesBad committee.now l bad.now → IsJudged committee.now l j) }
{
    let listing = listing_of(alloc, committee, part)?;
    let votes = listing.votes();
    let good = count_kept(votes, bad);
    Ok(Judgement {
        report: part.report,
        votes: votes.len(),
        good,
        sound: is_sound(&part.report, votes.len(), good, part.are_legal),
        has_voted: part.has_voted,
    })
}

// What is found of each of the logs, in as many threads as there are processors.
fn judge_each<M: Mark + Send + Sync, R: Threads + Sync>(
    rt: &R,
    alloc: Global,
    committee: &CommitteeView,
    bad: &VoteSet,
    parts: &[Part<M>],
) -> Result<Vec<Judgement>, AllocError>
    ensures { IfOk result (λ judged.
        AllZip (IsJudgedBy committee.now bad.now) parts.now judged.items) }
{
    parts
        .par_iter()
        .with_min_len(LEAST_PIECE)
        .map(
            |part: &Part<M>| -> Result<Judgement, AllocError>
                ensures { IfOk result (IsJudgedBy committee.entry.now bad.entry.now part.now) }
            { judge(alloc, committee, bad, part) },
        )
        .collect::<Result<Vec<Judgement>, AllocError>>(rt, alloc)?
}

/// What is found of each of the logs, by their parts, where these are the answers to the votes that they name. Nothing where none is
/// to be judged.
pub(crate) fn judge_parts<M: Mark + Send + Sync, R: Threads + Sync>(
    rt: &R,
    alloc: Global,
    committee: &CommitteeView,
    judging: Judging,
    parts: &[Part<M>],
    votes: &[Shared<SignedVote>],
    answers: &[bool],
) -> Result<Vec<Judgement>, AllocError>
    requires { length answers.now ≡ length votes.now }
    ensures { IfOk result (λ judged. judging ≡ Judging.Each → (logs : List ReceivedLog)
        → AllZip (IsPartOn committee.now) logs parts.now
        → AllZip (IsAnswerOn committee.now) votes.now answers.now
        → ((v : SignedVoteValue) → Contains votes.now v ↔ InSome LogNamesVote logs v)
        → AllZip (IsJudged committee.now) logs judged.items) }
{
    if judging == Judging::No {
        return Ok(Vec::new(alloc));
    }
    let bad = bad_among(alloc, votes, answers)?;
    judge_each(rt, alloc, committee, &bad, parts)
}

// Whether a log of this replica is sound.
fn has_sound(judged: &[Judgement], replica: u16) -> bool
    ensures { result ≡ has_sound judged.now replica }
{
    judged
        .iter()
        .any(|one| one.sound && replica == one.report.replica)
}

/// How much the different replicas of sound logs count together.
pub fn sound_weight(committee: &CommitteeView, judged: &[Judgement]) -> u64
    ensures { result ≡ sound_weight committee.now judged.now }
{
    committee.weight_of(
        |replica| -> bool
            ensures { result ≡ has_sound judged.entry.now replica }
        { has_sound(judged, replica) },
    )
}

/// Whether each log is sound.
pub fn are_sound(judged: &[Judgement]) -> bool
    ensures { result ≡ are_sound judged.now }
{
    judged.iter().all(|one| one.sound)
}
