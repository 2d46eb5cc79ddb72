//! The checker.

ghost use Rattle.std.specs.Prelude.{◌≡◌, ◌<◌, ◌↔◌, Some, IsOk, IsSome, IsTrue, OnOk, IfOk, IfErr, IfSome};
ghost use Rattle.blocks.specs.Committees.{n_of, keys_of};
ghost use Rattle.blocks.specs.Replica.{ballot_on};
ghost use Rattle.blocks.specs.Rules.{IsDoubleVote};
ghost use Rattle.certificates.specs.Votes.{IsSignedBy};
ghost use Rattle.verdict_format.specs.Verdicts.{verdict_kind_in, replica_in};
ghost use Rattle.verdict_format.specs.VerdictReading.{IsReadableVerdict};
ghost use Rattle.verdict_format.specs.VerdictText.{IsShownIn};
ghost use Rattle.verdict_format.specs.Proofs.{IsProof, IsLockViolationBy, BreaksRule, NoRunHasBothVotes, NoRunApartHasBothVotes, NoLifeReleasedBothVotes, NoLifeApartReleasedBothVotes};
ghost use Rattle.verdict_checker.specs.Checks.{AreOfVotes, HeadersMatch, IsRefused, PassesAll};
ghost use Rattle.verdict_checker.specs.Findings.{IsFindingOf};

use crate::refusal::Refusal;
use blocks::{Header, a_life_is_a_run, no_run_has_a_double_vote, no_run_has_a_lock_violation};
use certificates::{CommitteeView, LmsVerifier, is_signed_by};
use verdict_format::{Rule, Shown, VerdictView, VoteView, VotedHeaders};

/// What a verdict proves.
#[derive(Clone, Copy, Debug, PartialEq, Eq)]
pub struct Finding {
    /// The number of the replica that broke a rule.
    pub replica: u16,
    /// The rule that it broke.
    pub rule: Rule,
    /// The view of the later vote.
    pub view: u64,
}

// Whether two votes of one replica are a double vote.
fn is_double_vote(e: &VoteView, w: &VoteView) -> bool
    ensures { IsTrue result ↔ IsDoubleVote (record { view = e.now.view; id = e.now.id })
        (record { view = w.now.view; id = w.now.id }) }
{
    e.view == w.view && e.id != w.id
}

// Whether a vote is on the block of this header.
fn is_on(vote: &VoteView, block: &Header) -> bool
    ensures { IsTrue result ↔ (ballot_on block.now ≡ record {
      view = vote.now.view;
      id = vote.now.id;
    }) }
{
    block.view == vote.view && block.id() == vote.id
}

// Whether the headers are those of the two votes' blocks, and of the parent that the earlier one names.
fn are_of_votes(e: &VoteView, w: &VoteView, headers: &VotedHeaders) -> bool
    ensures { IsTrue result ↔ AreOfVotes (record { view = e.now.view; id = e.now.id })
        (record { view = w.now.view; id = w.now.id }) headers.now }
{
    is_on(e, &headers.earlier) && is_on(w, &headers.later) && headers.earlier.names(&headers.parent)
}

// Whether two votes of one replica, with their headers, are a lock violation.
fn is_lock_violation(e: &VoteView, w: &VoteView, headers: &VotedHeaders) -> bool
    requires { AreOfVotes (record { view = e.now.view; id = e.now.id }) (record {
      view = w.now.view;
      id = w.now.id;
    }) headers.now }
    ensures { IsTrue result ↔ IsLockViolationBy (record { view = e.now.view; id = e.now.id })
        (record { view = w.now.view; id = w.now.id }) headers.now }
{
    e.view < w.view && headers.later.parent_view < headers.parent.parent_view
}

// Whether what the verdict shows is of its votes. A double vote needs no headers.
fn is_of_votes(verdict: &VerdictView, shown: &Shown) -> bool
    requires { IsShownIn verdict.now (Some shown.now) }
    ensures { IsTrue result ↔ HeadersMatch verdict.now }
{
    match shown {
        Shown::DoubleVote => true,
        Shown::LockViolation(headers) => {
            are_of_votes(&verdict.earlier(), &verdict.later(), headers)
        }
    }
}

// What the verdict shows, if it has the headers that its kind asks for.
fn matching(verdict: &VerdictView) -> Option<Shown>
    ensures shown { IfSome result (λ s. IsShownIn verdict.now (Some s)) }
    ensures exact { IsSome result ↔ HeadersMatch verdict.now }
{
    let shown = verdict.shown()?;
    if is_of_votes(verdict, &shown) {
        Some(shown)
    } else {
        None
    }
}

// Whether the verdict's votes break the rule that it names.
fn breaks_rule(verdict: &VerdictView, shown: &Shown) -> bool
    requires shown { IsShownIn verdict.now (Some shown.now) }
    requires headers { HeadersMatch verdict.now }
    ensures { IsTrue result ↔ BreaksRule verdict.now }
{
    let (e, w) = (verdict.earlier(), verdict.later());
    match shown {
        Shown::DoubleVote => is_double_vote(&e, &w),
        Shown::LockViolation(headers) => is_lock_violation(&e, &w, headers),
    }
}

// Whether the accused replica signed a vote with the key that the vote names.
fn is_signed(committee: &CommitteeView, replica: u16, vote: &VoteView) -> bool
    requires known { replica < n_of committee.now }
    requires key { vote.now.key < keys_of committee.now replica }
    ensures { IsTrue result ↔ IsSignedBy committee.now replica vote.now.key vote.now.view
        vote.now.id vote.now.signature.now }
{
    is_signed_by(
        &LmsVerifier,
        committee,
        replica,
        vote.key,
        &vote.ballot(),
        vote.signature,
    )
}

// Checks what a readable verdict says.
fn judge(committee: &CommitteeView, verdict: &VerdictView) -> Result<(), Refusal>
    requires { IsReadableVerdict verdict.now }
    ensures ok { OnOk result (PassesAll committee.now verdict.now) }
    ensures first_refusal { IfErr result (IsRefused committee.now verdict.now) }
{
    let replica = verdict.replica();
    if verdict.chain() != committee.chain() {
        return Err(Refusal::Chain);
    }
    if replica >= committee.n() {
        return Err(Refusal::Replica);
    }
    let (e, w) = (verdict.earlier(), verdict.later());
    let keys = committee.keys(replica);
    if e.key >= keys || w.key >= keys {
        return Err(Refusal::KeyNumber);
    }
    let Some(shown) = matching(verdict) else {
        return Err(Refusal::HeaderMismatch);
    };
    if !breaks_rule(verdict, &shown) {
        return Err(Refusal::NoRuleBroken);
    }
    if !is_signed(committee, replica, &e) {
        return Err(Refusal::SignatureE);
    }
    if !is_signed(committee, replica, &w) {
        return Err(Refusal::SignatureW);
    }
    Ok(())
}

/// Judges whether the bytes prove that a replica of the committee broke a voting rule. Refused by the
/// first of `Refusal`'s tests that is not passed. It takes no memory, and costs two signature checks at
/// the most.
pub fn check(committee: &CommitteeView, bytes: &[u8]) -> Result<Finding, Refusal>
    ensures exact { IsOk result ↔ IsProof committee.now bytes.now }
    ensures finding { IfOk result (IsFindingOf bytes.now) }
    ensures first_refusal { IfErr result (IsRefused committee.now bytes.now) }
    // No run of a correct replica has both votes, where no two different headers among those of the run and
    // of the verdict have one id.
    ensures sound { OnOk result (NoRunApartHasBothVotes committee.now bytes.now) }
    // For a double vote there is no premise on ids.
    ensures sound_of_double_votes { OnOk result (verdict_kind_in bytes.now ≡ 1
        → NoRunHasBothVotes committee.now bytes.now) }
    // The same of a replica over all its crashes and restarts.
    ensures sound_of_lives { OnOk result (NoLifeApartReleasedBothVotes committee.now bytes.now) }
    ensures sound_of_lives_and_double_votes { OnOk result (verdict_kind_in bytes.now ≡ 1
        → NoLifeReleasedBothVotes committee.now bytes.now) }
{
    // For the proof: no run and no life of a correct replica has both votes.
    no_run_has_a_double_vote();
    no_run_has_a_lock_violation();
    a_life_is_a_run();
    let verdict = VerdictView::parse(bytes)?;
    judge(committee, &verdict)?;
    Ok(Finding {
        replica: verdict.replica(),
        rule: verdict.rule(),
        view: verdict.later().view,
    })
}
