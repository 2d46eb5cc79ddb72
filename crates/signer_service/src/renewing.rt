//! Whether a committee renews this one, and the line that tells it.

ghost use Rattle.std.specs.Prelude.{◌≡◌, ◌≤◌, ◌++◌, [], IfErr, IfOk, length};
ghost use Rattle.handover_renewals.specs.RenewalReading.{form_refusal_name};
ghost use Rattle.handover_renewals.specs.RenewalRefusals.{renewal_refusal_name};
ghost use Rattle.signer_service.specs.Renewing.{IsJudged, IsNextFaultTold, IsRenewalRefused, IsRenewingTold, refused_slot_line, renews_line, slot_text};
ghost use Rattle.signer_service.specs.Responses.{IsLine, IsReady, fields_of_kind, fields_to_retry};
ghost use Rattle.signer_service.specs.declared.writing.Kind.TheVariants.{Text};
ghost use Rattle.signer_service.specs.declared.writing.TheConstants.{ROOM};

use crate::crossing::tell_committee;
use crate::telling::{put_named, tell_desk};
use crate::writing::{put, put_number, settle};
use base_text::id_digits;
use blocks::{CommitteeRefusal, CommitteeView};
use handover_blocks::handover_payload;
use handover_renewals::{Renewal, RenewalFormRefusal, RenewalRefusal, renews};
use http::StatusCode;
use http_server::{Response, Rope};
use signer_answers::NextFault;
use std::alloc::Global;
use vote_desk::DeskError;

/// A committee that renews this one.
#[derive(Clone, Copy)]
pub(crate) struct Renewing {
    /// The payload that names it.
    pub payload: [u8; 32],
    /// How much its new slots weigh.
    pub new: u64,
    /// How much all its slots weigh.
    pub of: u64,
}

/// Why a committee that was shown is none that renews this one, and in which the replica has its keys.
#[derive(Clone, Copy)]
pub(crate) enum NotRenewing {
    /// The renewal's bytes are none.
    Form(RenewalFormRefusal),
    /// The file is no committee's.
    Committee(CommitteeRefusal),
    /// It does not renew this one.
    Refused(RenewalRefusal),
    /// The replica has other keys there.
    NotMine,
    /// The replica's next keys can't be told.
    Next(NextFault),
}

// Judges whether the committee of a file renews this one, by a renewal.
pub(crate) fn judge_renewal<'f>(
    alloc: Global,
    committee: &CommitteeView,
    renewal: &[u8],
    file: &'f [u8],
) -> Result<(CommitteeView<'f>, Renewing), NotRenewing>
    ensures ok { IfOk result (λ it. (it.0 ≡ file.entry.now)
        × IsJudged committee.now renewal.now file.entry.now it.1) }
    ensures refused { IfErr result (IsRenewalRefused committee.now renewal.now file.entry.now) }
{
    let renewal = match Renewal::read(alloc, renewal) {
        Ok(renewal) => renewal,
        Err(refusal) => return Err(NotRenewing::Form(refusal)),
    };
    let after = match CommitteeView::parse(file) {
        Ok(after) => after,
        Err(refusal) => return Err(NotRenewing::Committee(refusal)),
    };
    match renews(committee, &after, &renewal) {
        Ok(slots) => {
            let renewing = Renewing {
                payload: handover_payload(file),
                new: slots.weight,
                of: committee.total(),
            };
            Ok((after, renewing))
        }
        Err(refusal) => Err(NotRenewing::Refused(refusal)),
    }
}

// Tells what came of a committee that was shown.
pub(crate) fn tell_renewing(response: &mut Response, judged: &Result<Renewing, NotRenewing>)
    requires { IsReady fields_to_retry response.old }
    ensures { IsRenewingTold judged.now response.new }
{
    match judged {
        Ok(renewing) => {
            settle(response);
            put_renews(&mut response.body, renewing);
        }
        Err(NotRenewing::Form(RenewalFormRefusal::Memory)) => {
            tell_desk(response, DeskError::Memory);
        }
        Err(NotRenewing::Form(refusal)) => {
            settle(response);
            response.status = StatusCode::UNPROCESSABLE_ENTITY;
            put_named(
                &mut response.body,
                b"refused renewal ",
                refusal.number(),
                refusal.name().as_bytes(),
            );
        }
        Err(NotRenewing::Committee(refusal)) => {
            settle(response);
            tell_committee(response, *refusal);
        }
        Err(NotRenewing::Refused(refusal)) => {
            settle(response);
            response.status = StatusCode::UNPROCESSABLE_ENTITY;
            put_refused(&mut response.body, *refusal);
        }
        Err(NotRenewing::NotMine) => {
            settle(response);
            response.status = StatusCode::UNPROCESSABLE_ENTITY;
            put(&mut response.body, b"refused successor 12 NotMine\n");
        }
        Err(NotRenewing::Next(fault)) => tell_next_fault(response, *fault),
    }
}

// Tells why the replica's next keys can't be told.
pub(crate) fn tell_next_fault(response: &mut Response, fault: NextFault)
    requires { IsReady fields_to_retry response.old }
    ensures { IsNextFaultTold fault response.new }
{
    match fault {
        NextFault::Memory => tell_desk(response, DeskError::Memory),
        NextFault::Making => {
            response.status = StatusCode::SERVICE_UNAVAILABLE;
            put(&mut response.body, b"making keys\n");
        }
        NextFault::Stopped => {
            settle(response);
            response.status = StatusCode::INTERNAL_SERVER_ERROR;
            put(&mut response.body, b"stopped next\n");
        }
    }
}

fn put_renews(body: &mut Rope, renewing: &Renewing)
    requires { (body.old.items ≡ []) × (ROOM ≤ body.old.spare) }
    ensures { body.new.items ≡ renews_line renewing.now }
{
    put(body, b"renews ");
    put(body, &id_digits(&renewing.payload));
    put(body, b" new ");
    put_number(body, renewing.new);
    put(body, b" of ");
    put_number(body, renewing.of);
    put(body, b"\n");
}

// A refusal, with its number, its name, and the slot that is refused, if it is one.
fn put_refused(body: &mut Rope, refusal: RenewalRefusal)
    requires { (body.old.items ≡ []) × (ROOM ≤ body.old.spare) }
    ensures { body.new.items ≡ refused_slot_line refusal }
{
    put(body, b"refused successor ");
    put_number(body, refusal.number());
    put(body, b" ");
    put(body, name_of(refusal));
    put_slot(body, refusal.slot());
    put(body, b"\n");
}

#[tactic(auto, using(crate::proofs::ShortNames::name_is_short))]
fn name_of(refusal: RenewalRefusal) -> &'static [u8]
    ensures name { result.now ≡ renewal_refusal_name refusal }
    ensures short { length result.now ≤ 20 }
{
    refusal.name().as_bytes()
}

fn put_slot(body: &mut Rope, slot: Option<u16>)
    requires { 100 ≤ body.old.spare }
    ensures items { body.new.items ≡ body.old.items ++ slot_text slot }
    ensures spare { 1 ≤ body.new.spare }
{
    if let Some(slot) = slot {
        put(body, b" ");
        put_number(body, slot);
    }
}
