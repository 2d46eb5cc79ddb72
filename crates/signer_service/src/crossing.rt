//! What came of a call to go over, and the line that tells it.

ghost use Rattle.std.specs.Prelude.{◌≤◌, length};
ghost use Rattle.signer_service.specs.CallAnswers.{IsCrossingTold, IsOverFaultTold};
ghost use Rattle.signer_service.specs.Crossings.{gone_line, other_file_line, refused_committee_line};
ghost use Rattle.signer_service.specs.Responses.{IsLine, IsReady, fields_of_kind, fields_to_retry};
ghost use Rattle.signer_service.specs.declared.writing.Kind.TheVariants.{Text};

use crate::halt::{Halt, tell_halt};
use crate::proving::{Unproved, tell_unproved};
use crate::refusing::tell_refused;
use crate::telling::tell_desk;
use crate::writing::{put, settle};
use base_text::{id_digits, refusal_text};
use blocks::{CommitteeRefusal, Id};
use http::StatusCode;
use http_server::Response;
use signer_answers::OverFault;
use signer_calls::CallRefusal;
use vote_desk::DeskError;

/// The greatest view: who gave up on it votes no more.
pub(crate) const MOST_VIEW: u64 = u64::MAX;

/// What came of a call to go over.
#[derive(Clone, Copy)]
pub(crate) enum Crossing {
    /// The signer has gone over to the chain of this id.
    Gone(Id),
    /// No block was told as committed that has a handover block in its chain.
    NoCommit,
    /// The handover block has this payload, which is another file's.
    OtherFile([u8; 32]),
    /// The light proof of the call does not show that it is handed over.
    Unproved(Unproved),
    /// It does not go over.
    Refused(OverFault),
    /// The desk is stopped.
    Desk(DeskError),
    /// No block is taken.
    Halted(Halt),
    /// The call names a chain that the signer is not in, and did not go over from.
    Elsewhere,
}

// Tells it.
pub(crate) fn tell_crossing(response: &mut Response, crossing: &Crossing)
    requires { IsReady fields_to_retry response.old }
    ensures { IsCrossingTold crossing.now response.new }
{
    match crossing {
        Crossing::Unproved(unproved) => tell_unproved(response, *unproved),
        Crossing::Refused(fault) => tell_fault(response, *fault),
        Crossing::Desk(refusal) => tell_desk(response, *refusal),
        Crossing::Halted(halt) => tell_halt(response, *halt),
        Crossing::Gone(chain) => {
            settle(response);
            tell_gone(response, chain);
        }
        Crossing::NoCommit => {
            settle(response);
            tell_line(
                response,
                StatusCode::PRECONDITION_FAILED,
                b"refused over 1 NoCommit\n",
            );
        }
        Crossing::OtherFile(payload) => {
            settle(response);
            tell_other_file(response, payload);
        }
        Crossing::Elsewhere => {
            settle(response);
            tell_refused(response, CallRefusal::Chain);
        }
    }
}

fn tell_fault(response: &mut Response, fault: OverFault)
    requires { IsReady fields_to_retry response.old }
    ensures { IsOverFaultTold fault response.new }
{
    match fault {
        OverFault::Memory => tell_desk(response, DeskError::Memory),
        OverFault::Committee(refusal) => {
            settle(response);
            tell_committee(response, refusal);
        }
        OverFault::NotMine => {
            settle(response);
            tell_line(
                response,
                StatusCode::UNPROCESSABLE_ENTITY,
                b"refused over 3 NotMine\n",
            );
        }
        OverFault::Stopped => {
            settle(response);
            tell_line(
                response,
                StatusCode::INTERNAL_SERVER_ERROR,
                b"stopped over\n",
            );
        }
    }
}

fn tell_gone(response: &mut Response, chain: &Id)
    requires { IsReady (fields_of_kind Text) response.old }
    ensures { IsLine 200 (gone_line chain.now) response.new }
{
    put(&mut response.body, b"over ");
    put(&mut response.body, &id_digits(chain));
    put(&mut response.body, b"\n");
}

fn tell_other_file(response: &mut Response, payload: &[u8; 32])
    requires { IsReady (fields_of_kind Text) response.old }
    ensures { IsLine 422 (other_file_line payload.now) response.new }
{
    response.status = StatusCode::UNPROCESSABLE_ENTITY;
    put(&mut response.body, b"refused over 2 OtherFile ");
    put(&mut response.body, &id_digits(payload));
    put(&mut response.body, b"\n");
}

pub(crate) fn tell_committee(response: &mut Response, refusal: CommitteeRefusal)
    requires { IsReady (fields_of_kind Text) response.old }
    ensures { IsLine 422 (refused_committee_line refusal) response.new }
{
    response.status = StatusCode::UNPROCESSABLE_ENTITY;
    put(&mut response.body, b"refused committee ");
    put(&mut response.body, refusal_text(refusal).as_bytes());
    put(&mut response.body, b"\n");
}

fn tell_line(response: &mut Response, status: StatusCode, line: &[u8])
    requires ready { IsReady (fields_of_kind Text) response.old }
    requires short { length line.now ≤ 64 }
    ensures { IsLine status line.now response.new }
{
    response.status = status;
    put(&mut response.body, line);
}
