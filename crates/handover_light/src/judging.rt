//! When a light proof proves a handover.

ghost use Rattle.std.specs.Prelude.{◌≡◌, ◌+◌, ◌<◌, ◌↔◌, ℕ, List, IfErr, IfNone, IfOk, IfSome, IsOk, IsTrue, MatchOption, OnOk, length};
ghost use Rattle.std.specs.List.{All};
ghost use Rattle.certificates.specs.BlockChecks.{AreInCommittee};
ghost use Rattle.certificates.specs.Certificates.{nth_endorsement};
ghost use Rattle.certificates.specs.GoodCertificates.{IsGoodEntry, voters_weight};
ghost use Rattle.handover_light.specs.LightProofRefusals.{HasForm, HasGoodVotes, HasKnownReplicas, HasWeight, IsFirstBadVote, IsLeastBelow, IsLightProofRefusal, IsOnItsHeader, light_proof_refusal_name, light_proof_refusal_number};
ghost use Rattle.handover_light.specs.Proving.{AllBelow, HasViewsInRow, IsHandoverChain, IsOn, IsOnPrevious, ProvesHandover, certified_header, handover_block};

use crate::format::LightProof;
use blocks::{CommitteeView, Header};
use certificates::{Certificate, check_vote};
use handover_blocks::is_handover;

// How many certificates a light proof has.
const CERTIFICATES: u8 = 3;

/// Why a light proof proves no handover, in the order of the tests. Headers, certificates and the votes of each are counted from 0.
#[derive(Clone, Copy, Debug, PartialEq, Eq)]
pub enum LightProofRefusal {
    /// 1: the first header is no block that hands over.
    NoHandover,
    /// 2: the last three headers are not in views in a row.
    Views,
    /// 3: this header does not name the one before as its parent, by id and view, and it is the least such header.
    Parent(u16),
    /// 4: this certificate is not on the id and the view of its header, and it is the least such certificate.
    OtherBlock(u8),
    /// 5: the committee has no replica of the number of some vote of this certificate, and it is the least such certificate.
    UnknownReplica(u8),
    /// 6: the replicas of this certificate weigh less than a quorum, and it is the least such certificate.
    TooFew(u8),
    /// 7: of the certificate of the first number the vote of the second number is not good: its replica has no key of the number
    /// that it names, or did not sign with it. It is the least such vote, in the least certificate that has one.
    Vote(u8, u8),
}

impl LightProofRefusal {
    /// The number of the refusal, which never changes.
    pub fn number(self) -> u8
        ensures { result ≡ light_proof_refusal_number self }
    {
        match self {
            LightProofRefusal::NoHandover => 1,
            LightProofRefusal::Views => 2,
            LightProofRefusal::Parent(_) => 3,
            LightProofRefusal::OtherBlock(_) => 4,
            LightProofRefusal::UnknownReplica(_) => 5,
            LightProofRefusal::TooFew(_) => 6,
            LightProofRefusal::Vote(_, _) => 7,
        }
    }

    /// Its name, as it is printed.
    pub fn name(self) -> &'static str
        ensures { result.now ≡ light_proof_refusal_name self }
    {
        match self {
            LightProofRefusal::NoHandover => "NoHandover",
            LightProofRefusal::Views => "Views",
            LightProofRefusal::Parent(_) => "Parent",
            LightProofRefusal::OtherBlock(_) => "OtherBlock",
            LightProofRefusal::UnknownReplica(_) => "UnknownReplica",
            LightProofRefusal::TooFew(_) => "TooFew",
            LightProofRefusal::Vote(_, _) => "Vote",
        }
    }
}

// ---- the headers

// The header that certificate c is to be on.
fn certified_header(proof: &LightProof, c: u8) -> &Header
    requires { c < 3 }
    ensures { result.now ≡ certified_header proof.now c }
{
    proof.header(proof.headers().len() - 3 + usize::from(c))
}

// Whether a view is the next one after another.
fn is_next_view(before: u64, view: u64) -> bool
    ensures { IsTrue result ↔ (view ≡ before + 1) }
{
    before < view && view - before == 1
}

// Whether the last three headers are in views in a row.
fn has_views_in_row(proof: &LightProof) -> bool
    ensures { IsTrue result ↔ HasViewsInRow proof.now }
{
    let committed = certified_header(proof, 0).view;
    let second = certified_header(proof, 1).view;
    let third = certified_header(proof, 2).view;
    is_next_view(committed, second) && is_next_view(second, third)
}

// Whether header k, if it is not the first, names the one before as its parent.
fn is_on_previous(proof: &LightProof, k: u16) -> bool
    requires { k < length proof.now.headers }
    ensures { IsTrue result ↔ IsOnPrevious proof.now k }
{
    if k == 0 {
        return true;
    }
    let at = usize::from(k);
    proof.header(at).names(proof.header(at - 1))
}

// The least header that does not.
fn other_parent(proof: &LightProof) -> Option<u16>
    ensures { MatchOption result (AllBelow (length proof.now.headers) (IsOnPrevious proof.now))
        (IsLeastBelow (length proof.now.headers) (IsOnPrevious proof.now)) }
{
    for k in 0..proof.headers().len() as u16 {
        if !is_on_previous(proof, k) {
            return Some(k);
        }
    }
    None
}

// The tests of the headers.
fn judge_headers(proof: &LightProof) -> Result<(), LightProofRefusal>
    ensures ok { OnOk result (IsHandoverChain proof.now) }
    ensures first_refusal { (committee : List ℕ) → IfErr result (λ refusal.
        IsLightProofRefusal refusal committee proof.now) }
{
    if !is_handover(proof.block()) {
        return Err(LightProofRefusal::NoHandover);
    }
    if !has_views_in_row(proof) {
        return Err(LightProofRefusal::Views);
    }
    match other_parent(proof) {
        Some(k) => Err(LightProofRefusal::Parent(k)),
        None => Ok(()),
    }
}

// ---- the certificates

// Whether the certificate is on the header's view and id.
fn is_on(header: &Header, certificate: &Certificate) -> bool
    ensures { IsTrue result ↔ IsOn header.now certificate.now }
{
    certificate.view() == header.view && *certificate.id() == header.id()
}

// The least certificate that is not on its header.
fn off_header(proof: &LightProof) -> Option<u8>
    ensures { MatchOption result (AllBelow 3 (IsOnItsHeader proof.now))
        (IsLeastBelow 3 (IsOnItsHeader proof.now)) }
{
    for c in 0..CERTIFICATES {
        if !is_on(certified_header(proof, c), proof.certificate(c)) {
            return Some(c);
        }
    }
    None
}

// Whether the committee has the replica of each vote.
fn are_known(committee: &CommitteeView, certificate: &Certificate) -> bool
    ensures { IsTrue result ↔ AreInCommittee committee.now certificate.now }
{
    for k in 0..certificate.count() {
        if certificate.vote(k).replica >= committee.n() {
            return false;
        }
    }
    true
}

// The least certificate with a replica that the committee has not.
fn with_unknown(committee: &CommitteeView, proof: &LightProof) -> Option<u8>
    ensures { MatchOption result (AllBelow 3 (HasKnownReplicas committee.now proof.now))
        (IsLeastBelow 3 (HasKnownReplicas committee.now proof.now)) }
{
    for c in 0..CERTIFICATES {
        if !are_known(committee, proof.certificate(c)) {
            return Some(c);
        }
    }
    None
}

// How much the replicas of the votes weigh.
fn voters_weight(committee: &CommitteeView, certificate: &Certificate) -> u64
    requires { AreInCommittee committee.now certificate.now }
    ensures { result ≡ voters_weight committee.now certificate.now }
{
    let mut weight = 0;
    for k in 0..certificate.count() {
        weight += u64::from(committee.weight(certificate.vote(k).replica));
    }
    weight
}

// The least certificate whose replicas weigh less than a quorum.
fn too_light(committee: &CommitteeView, proof: &LightProof) -> Option<u8>
    requires { AllBelow 3 (HasKnownReplicas committee.now proof.now) }
    ensures { MatchOption result (AllBelow 3 (HasWeight committee.now proof.now))
        (IsLeastBelow 3 (HasWeight committee.now proof.now)) }
{
    for c in 0..CERTIFICATES {
        if voters_weight(committee, proof.certificate(c)) < committee.quorum() {
            return Some(c);
        }
    }
    None
}

// The tests of the certificates without a signature.
fn judge_form(committee: &CommitteeView, proof: &LightProof) -> Result<(), LightProofRefusal>
    requires { IsHandoverChain proof.now }
    ensures ok { OnOk result (HasForm committee.now proof.now) }
    ensures first_refusal { IfErr result (λ refusal.
        IsLightProofRefusal refusal committee.now proof.now) }
{
    if let Some(c) = off_header(proof) {
        return Err(LightProofRefusal::OtherBlock(c));
    }
    if let Some(c) = with_unknown(committee, proof) {
        return Err(LightProofRefusal::UnknownReplica(c));
    }
    match too_light(committee, proof) {
        Some(c) => Err(LightProofRefusal::TooFew(c)),
        None => Ok(()),
    }
}

// The least vote that is not good.
fn bad_vote(committee: &CommitteeView, certificate: &Certificate) -> Option<u8>
    ensures none { IfNone result
        (All (IsGoodEntry committee.now certificate.now) certificate.now.entries) }
    ensures some { IfSome result (IsLeastBelow (length certificate.now.entries) (λ k.
        IsGoodEntry committee.now certificate.now (nth_endorsement certificate.now k))) }
{
    for k in 0..certificate.count() as u8 {
        if check_vote(committee, &certificate.vote(usize::from(k))).is_err() {
            return Some(k);
        }
    }
    None
}

// The least certificate that has such a vote, and that vote.
fn first_bad_vote(committee: &CommitteeView, proof: &LightProof) -> Option<(u8, u8)>
    ensures none { IfNone result (AllBelow 3 (HasGoodVotes committee.now proof.now)) }
    ensures some { IfSome result (λ vote. IsFirstBadVote committee.now proof.now vote.0 vote.1) }
{
    for c in 0..CERTIFICATES {
        if let Some(k) = bad_vote(committee, proof.certificate(c)) {
            return Some((c, k));
        }
    }
    None
}

// All tests in their order.
fn judge(committee: &CommitteeView, proof: &LightProof) -> Result<(), LightProofRefusal>
    ensures ok { OnOk result (ProvesHandover committee.now proof.now) }
    ensures first_refusal { IfErr result (λ refusal.
        IsLightProofRefusal refusal committee.now proof.now) }
{
    // For the proof: the replicas of each certificate rise.
    let _headers = proof.headers();
    judge_headers(proof)?;
    judge_form(committee, proof)?;
    match first_bad_vote(committee, proof) {
        Some((c, k)) => Err(LightProofRefusal::Vote(c, k)),
        None => Ok(()),
    }
}

/// The block by which the committee hands over, if the light proof proves that it is committed: its first header is a block that hands
/// over, each later one names the one before as its parent, the last three are in views in a row, and each certificate is on its header,
/// in the committee's chain, with good votes of replicas that weigh a quorum. Refused by the first of `LightProofRefusal`'s tests that is
/// not passed. The headers below the block are not looked at: that it is the first in its chain to hand over is a rule of those who vote.
/// It takes no memory, and costs one hash or two of 84 bytes for each header and one signature check for each vote at the most.
pub fn check_light_proof(
    committee: &CommitteeView,
    proof: &LightProof,
) -> Result<Header, LightProofRefusal>
    ensures exact { IsOk result ↔ ProvesHandover committee.now proof.now }
    ensures block { IfOk result (λ b. b ≡ handover_block proof.now) }
    ensures first_refusal { IfErr result (λ refusal.
        IsLightProofRefusal refusal committee.now proof.now) }
{
    judge(committee, proof)?;
    Ok(*proof.block())
}
