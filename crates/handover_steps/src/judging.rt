//! When a step is good.

ghost use Rattle.std.specs.Prelude.{◌≡◌, ◌≢◌, ◌↔◌, ℕ, List, [], Ok, Err, Option, IfErr, IfOk, IsOk, IsTrue};
ghost use Rattle.handover_blocks.specs.Handovers.{handover_payload};
ghost use Rattle.handover_light.specs.LightProofs.{LightProof as LightProofValue};
ghost use Rattle.handover_light.specs.Proving.{handover_block};
ghost use Rattle.handover_renewals.specs.Renewals.{Renewal as RenewalValue};
ghost use Rattle.handover_renewals.specs.Renewing.{Renews};
ghost use Rattle.handover_renewals.specs.Slots.{new_weight};
ghost use Rattle.handover_steps.specs.Successors.{IsSuccessorFile, IsSuccessorRefusal};
ghost use Rattle.handover_steps.specs.StepRefusals.{IsBlockRefusal, IsFileRefusal, IsJudged, IsProofRefusal, IsRefusalIfAny, IsRenewalRefusalOf, IsUnrenewedBy, ProvesBlock};
ghost use Rattle.handover_steps.specs.Steps.{HasNewWeight, IsLightProofIn, IsProofOfStep, IsRenewalIfAny, IsRenewalIn, IsRenewalOfStep, IsTold, bytes_in, files_of_step, renewal_in_pair};

use crate::refusal::StepRefusal;
use crate::slots::kinds_of;
use crate::step::Step;
use crate::{SuccessorRefusal, successor_payload};
use blocks::{CommitteeView, Header};
use handover_light::{LightProof, LightProofFormRefusal, check_light_proof};
use handover_renewals::{Renewal, RenewalFormRefusal, renews};
use std::alloc::Global;

// ---- the file

// The committee of the file, if it may come after the old one, and the payload of the block that hands over to it.
fn judge_file<'a>(
    old: &CommitteeView,
    file: &'a [u8],
) -> Result<(CommitteeView<'a>, [u8; 32]), StepRefusal>
    ensures ok { IfOk result (λ next. (next.0 ≡ file.now) × (next.1 ≡ handover_payload file.now)
        × IsSuccessorFile [] old.now file.now) }
    ensures refused { IfErr result (λ refusal. IsFileRefusal refusal old.now file.now) }
{
    let new = match CommitteeView::parse(file) {
        Ok(new) => new,
        Err(refusal) => return Err(StepRefusal::Committee(refusal)),
    };
    match successor_payload(&[], old, file) {
        Ok(payload) => Ok((new, payload)),
        Err(refusal) => Err(refused_file(refusal)),
    }
}

// Why the file is refused.
fn refused_file(refusal: SuccessorRefusal) -> StepRefusal
    ensures { (old file : List ℕ) → IsSuccessorRefusal [] old file refusal
        → IsFileRefusal result old file }
{
    match refusal {
        SuccessorRefusal::Committee(refusal) => StepRefusal::Committee(refusal),
        SuccessorRefusal::OldKey(key) => StepRefusal::OldKey(key),
        // Of a file that was read this never comes.
        SuccessorRefusal::NotRead => StepRefusal::OtherFile,
    }
}

// ---- the light proof

// The light proof that the bytes spell.
fn read_proof(alloc: Global, bytes: &[u8]) -> Result<LightProof, StepRefusal>
    ensures found { IfOk result (IsLightProofIn bytes.now) }
    ensures only { (p : LightProofValue) → IsLightProofIn bytes.now p
        → result ≢ Err StepRefusal.Memory → result ≡ Ok p }
    ensures refused { (old file : List ℕ) → IfErr result (λ refusal.
        IsProofRefusal refusal old file bytes.now) }
{
    match LightProof::read(alloc, bytes) {
        Ok(proof) => Ok(proof),
        Err(LightProofFormRefusal::Memory) => Err(StepRefusal::Memory),
        Err(refusal) => Err(StepRefusal::ProofForm(refusal)),
    }
}

// The block that it proves to be committed under the old committee, if that is the one with this payload.
fn judge_block(
    old: &CommitteeView,
    proof: &LightProof,
    payload: &[u8; 32],
) -> Result<Header, StepRefusal>
    ensures found { IfOk result (λ block. ProvesBlock old.now payload.now proof.now
        × (block ≡ handover_block proof.now)) }
    ensures only { ProvesBlock old.now payload.now proof.now → IsOk result }
    ensures refused { IfErr result (λ refusal.
        IsBlockRefusal refusal old.now payload.now proof.now) }
{
    let block = match check_light_proof(old, proof) {
        Ok(block) => block,
        Err(refusal) => return Err(StepRefusal::Proof(refusal)),
    };
    if has_payload(&block, payload) {
        Ok(block)
    } else {
        Err(StepRefusal::OtherFile)
    }
}

// Whether the block has this payload.
fn has_payload(block: &Header, payload: &[u8; 32]) -> bool
    ensures { IsTrue result ↔ (block.now.payload ≡ payload.now) }
{
    block.payload == *payload
}

// The block by which the bytes prove that the old committee handed over to the new one.
fn judge_proof(
    alloc: Global,
    old: &CommitteeView,
    new: &CommitteeView,
    payload: &[u8; 32],
    bytes: &[u8],
) -> Result<Header, StepRefusal>
    requires { payload.now ≡ handover_payload new.now }
    ensures found { IfOk result (λ block. (p : LightProofValue)
        × IsProofOfStep old.now new.now bytes.now p × (block ≡ handover_block p)) }
    ensures only { (p : LightProofValue) → IsProofOfStep old.now new.now bytes.now p
        → result ≢ Err StepRefusal.Memory → IsOk result }
    ensures refused { IfErr result (λ refusal.
        IsProofRefusal refusal old.now new.now bytes.now) }
{
    let proof = read_proof(alloc, bytes)?;
    judge_block(old, &proof, payload)
}

// ---- the renewal

// The renewal that the bytes spell.
fn read_renewal(alloc: Global, bytes: &[u8]) -> Result<Renewal, StepRefusal>
    ensures found { IfOk result (IsRenewalIn bytes.now) }
    ensures only { (r : RenewalValue) → IsRenewalIn bytes.now r
        → result ≢ Err StepRefusal.Memory → result ≡ Ok r }
    ensures refused { (old file : List ℕ) → IfErr result (λ refusal.
        IsRenewalRefusalOf refusal old file bytes.now) }
{
    match Renewal::read(alloc, bytes) {
        Ok(renewal) => Ok(renewal),
        Err(RenewalFormRefusal::Memory) => Err(StepRefusal::Memory),
        Err(refusal) => Err(StepRefusal::RenewalForm(refusal)),
    }
}

// How much the new slots weigh, if the new committee renews the old one by it.
fn new_weight_by(
    old: &CommitteeView,
    new: &CommitteeView,
    renewal: &Renewal,
) -> Result<u64, StepRefusal>
    ensures found { IfOk result (λ weight. Renews old.now new.now renewal.now
        × (weight ≡ new_weight old.now new.now)) }
    ensures only { Renews old.now new.now renewal.now → IsOk result }
    ensures refused { IfErr result (λ refusal.
        IsUnrenewedBy refusal old.now new.now renewal.now) }
{
    match renews(old, new, renewal) {
        Ok(slots) => Ok(slots.weight),
        Err(refusal) => Err(StepRefusal::Renewal(refusal)),
    }
}

// The renewal that these bytes are, and how much the new slots weigh.
fn judge_renewal(
    alloc: Global,
    old: &CommitteeView,
    new: &CommitteeView,
    bytes: &[u8],
) -> Result<(Renewal, u64), StepRefusal>
    ensures found { IfOk result (λ renewed. IsRenewalOfStep old.now new.now bytes.now renewed.0
        × (renewed.1 ≡ new_weight old.now new.now)) }
    ensures only { (r : RenewalValue) → IsRenewalOfStep old.now new.now bytes.now r
        → result ≢ Err StepRefusal.Memory → IsOk result }
    ensures refused { IfErr result (λ refusal.
        IsRenewalRefusalOf refusal old.now new.now bytes.now) }
{
    let renewal = read_renewal(alloc, bytes)?;
    let weight = new_weight_by(old, new, &renewal)?;
    Ok((renewal, weight))
}

// The same, if there are any.
fn judge_renewal_if_any(
    alloc: Global,
    old: &CommitteeView,
    new: &CommitteeView,
    bytes: Option<&[u8]>,
) -> Result<Option<(Renewal, u64)>, StepRefusal>
    ensures found { IfOk result (λ renewed.
        IsRenewalIfAny old.now new.now (bytes_in bytes.entry) (renewal_in_pair renewed)) }
    ensures weight { IfOk result (λ renewed. HasNewWeight old.now new.now renewed) }
    ensures only { (r : Option RenewalValue) → IsRenewalIfAny old.now new.now (bytes_in bytes.entry) r
        → result ≢ Err StepRefusal.Memory → IsOk result }
    ensures refused { IfErr result (λ refusal.
        IsRefusalIfAny refusal old.now new.now (bytes_in bytes.entry)) }
{
    match bytes {
        Some(bytes) => Ok(Some(judge_renewal(alloc, old, new, bytes)?)),
        None => Ok(None),
    }
}

// ---- the step

// What is told of a good step by this block and this renewal, if there is one.
fn told(
    alloc: Global,
    old: &CommitteeView,
    new: &CommitteeView,
    block: Header,
    renewed: Option<(Renewal, u64)>,
) -> Result<Step, StepRefusal>
    requires { HasNewWeight old.now new.now renewed }
    ensures told { IfOk result (λ t. (p : LightProofValue) → block ≡ handover_block p
        → IsTold old.now new.now p (renewal_in_pair renewed) t) }
    ensures refused { IfErr result (λ refusal. refusal ≡ StepRefusal.Memory) }
{
    let (renewal, new_weight) = match renewed {
        Some((renewal, weight)) => (Some(renewal), Some(weight)),
        None => (None, None),
    };
    Ok(Step {
        chain: new.chain(),
        block,
        new_weight,
        total: old.total(),
        kinds: kinds_of(alloc, old, new, &renewal)?,
    })
}

// What a step to this committee is, which may come after the old one.
fn check_next(
    alloc: Global,
    old: &CommitteeView,
    new: &CommitteeView,
    payload: &[u8; 32],
    renewal: Option<&[u8]>,
    proof: &[u8],
) -> Result<Step, StepRefusal>
    requires next { IsSuccessorFile [] old.now new.now }
    requires payload { payload.now ≡ handover_payload new.now }
    ensures { IsJudged old.now (files_of_step new.now (bytes_in renewal.entry) proof.now) result }
{
    let block = judge_proof(alloc, old, new, payload, proof)?;
    let renewed = judge_renewal_if_any(alloc, old, new, renewal)?;
    told(alloc, old, new, block, renewed)
}

/// What a step from the old committee to that of this file is, by its renewal, if there is one, and the light proof. In this order: the file
/// is a committee's, which may come after the old one (`successor_payload`, with no earlier files); the light proof is read, it proves that
/// the old committee handed over, and its block names the file; the renewal is read, and by it the committee of the file renews the old
/// one. With no renewal each slot that is not kept is by hand. Refused by the first of `StepRefusal`'s tests that is not passed.
pub fn check_step(
    alloc: Global,
    old: &CommitteeView,
    file: &[u8],
    renewal: Option<&[u8]>,
    proof: &[u8],
) -> Result<Step, StepRefusal>
    ensures judged { IsJudged old.now (files_of_step file.now (bytes_in renewal.entry) proof.now) result }
{
    let (new, payload) = judge_file(old, file)?;
    check_next(alloc, old, &new, &payload, renewal, proof)
}
