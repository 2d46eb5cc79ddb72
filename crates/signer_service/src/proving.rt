//! Whether a light proof shows that the ledger was handed over, and the line that says why not.

ghost use Rattle.std.specs.Prelude.{◌≡◌, ◌≤◌, ◌↔◌, IfErr, IfOk, IsTrue, length};
ghost use Rattle.handover_light.specs.LightProofReading.{form_refusal_name};
ghost use Rattle.handover_light.specs.LightProofRefusals.{light_proof_refusal_name};
ghost use Rattle.signer_service.specs.Proving.{HasOtherKeys, IsProofOf, IsUnproved, IsUnprovedTold, KeepsSlot};
ghost use Rattle.signer_service.specs.Responses.{IsReady, fields_to_retry};

use crate::telling::{put_named, tell_desk};
use crate::writing::settle;
use blocks::CommitteeView;
use handover_light::{LightProof, LightProofFormRefusal, LightProofRefusal, check_light_proof};
use handover_renewals::is_kept;
use http::StatusCode;
use http_server::Response;
use std::alloc::Global;
use vote_desk::DeskError;

/// Why a light proof does not show that the ledger was handed over.
#[derive(Clone, Copy)]
pub(crate) enum Unproved {
    /// Its bytes are none.
    Form(LightProofFormRefusal),
    /// It proves no handover of this committee.
    Refused(LightProofRefusal),
}

// The light proof of these bytes, if it proves a handover of this committee.
pub(crate) fn proof_in(
    alloc: Global,
    committee: &CommitteeView,
    bytes: &[u8],
) -> Result<LightProof, Unproved>
    ensures ok { IfOk result (IsProofOf committee.now bytes.now) }
    ensures refused { IfErr result (IsUnproved committee.now bytes.now) }
{
    let proof = match LightProof::read(alloc, bytes) {
        Ok(proof) => proof,
        Err(refusal) => return Err(Unproved::Form(refusal)),
    };
    match check_light_proof(committee, &proof) {
        Ok(_) => Ok(proof),
        Err(refusal) => Err(Unproved::Refused(refusal)),
    }
}

// Tells why it does not show it.
pub(crate) fn tell_unproved(response: &mut Response, unproved: Unproved)
    requires { IsReady fields_to_retry response.old }
    ensures { IsUnprovedTold unproved response.new }
{
    match unproved {
        Unproved::Form(LightProofFormRefusal::Memory) => tell_desk(response, DeskError::Memory),
        Unproved::Form(refusal) => {
            settle(response);
            response.status = StatusCode::UNPROCESSABLE_ENTITY;
            put_named(
                &mut response.body,
                b"refused proof ",
                refusal.number(),
                form_name(refusal),
            );
        }
        Unproved::Refused(refusal) => {
            settle(response);
            response.status = StatusCode::UNPROCESSABLE_ENTITY;
            put_named(
                &mut response.body,
                b"refused handover ",
                refusal.number(),
                refusal_name(refusal),
            );
        }
    }
}

#[tactic(auto, using(crate::proofs::ShortNames::form_name_is_short))]
fn form_name(refusal: LightProofFormRefusal) -> &'static [u8]
    ensures name { result.now ≡ form_refusal_name refusal }
    ensures short { length result.now ≤ 20 }
{
    refusal.name().as_bytes()
}

#[tactic(auto, using(crate::proofs::ShortNames::proof_name_is_short))]
fn refusal_name(refusal: LightProofRefusal) -> &'static [u8]
    ensures name { result.now ≡ light_proof_refusal_name refusal }
    ensures short { length result.now ≤ 20 }
{
    refusal.name().as_bytes()
}

// Whether the file is that of a committee in which the replica has other keys than in this one.
pub(crate) fn has_other_keys(committee: &CommitteeView, file: &[u8], replica: u16) -> bool
    ensures { IsTrue result ↔ HasOtherKeys committee.now file.now replica }
{
    match CommitteeView::parse(file) {
        Ok(after) => !keeps_slot(committee, &after, replica),
        Err(_) => false,
    }
}

// Whether the replica has the same keys in both.
fn keeps_slot(old: &CommitteeView, new: &CommitteeView, replica: u16) -> bool
    ensures { IsTrue result ↔ KeepsSlot old.now new.now replica }
{
    if replica >= old.n() || replica >= new.n() || new.keys(replica) != old.keys(replica) {
        return false;
    }
    is_kept(old, new, replica)
}
