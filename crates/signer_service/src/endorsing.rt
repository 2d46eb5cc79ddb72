//! What came of a call to endorse the next keys.

ghost use Rattle.std.specs.Prelude.{OnOk};
ghost use Rattle.http_server.specs.Response.{IsBlank};
ghost use Rattle.signer_service.specs.CallAnswers.{IsEndorsingTold};

use crate::halt::{Halt, tell_halt};
use crate::renewing::tell_next_fault;
use crate::telling::tell_desk;
use crate::writing::{fill, make_to_retry};
use http_server::Response;
use signer_answers::NextFault;
use std::alloc::AllocError;
use vote_desk::DeskError;

/// What came of it.
#[derive(Drop)]
pub(crate) enum Endorsing {
    /// The endorsement that is said.
    Said(Vec<u8>),
    /// The next keys can't be told.
    Next(NextFault),
    /// The desk does not sign.
    Desk(DeskError),
    /// No block is taken.
    Halted(Halt),
}

// Tells it.
pub(crate) fn tell_endorsing(
    response: &mut Response,
    endorsing: &Endorsing,
) -> Result<(), AllocError>
    requires { IsBlank response.old }
    ensures { OnOk result (IsEndorsingTold endorsing.now response.new) }
{
    match endorsing {
        Endorsing::Said(bytes) => return fill(response, bytes),
        Endorsing::Next(fault) => {
            make_to_retry(response)?;
            tell_next_fault(response, *fault);
        }
        Endorsing::Desk(refusal) => {
            make_to_retry(response)?;
            tell_desk(response, *refusal);
        }
        Endorsing::Halted(halt) => {
            make_to_retry(response)?;
            tell_halt(response, *halt);
        }
    }
    Ok(())
}
