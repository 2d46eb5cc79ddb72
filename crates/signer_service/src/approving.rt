//! Whether a block that hands over may be voted for, as far as the approver says so.

ghost use Rattle.std.specs.Prelude.{◌≡◌, IsFalse, IsTrue, OnOk};
ghost use Rattle.http_server.specs.Response.{IsBlank};
ghost use Rattle.signer_answers.specs.Approvals.{MayFollow};
ghost use Rattle.signer_service.specs.Successors.{IsNotApproved, IsSuccessorTold};

use crate::telling::tell_text;
use crate::writing::{Kind, make_ready};
use http_server::Response;
use signer_answers::{Approver, Keeper, Office};
use stable_log::Disk;
use std::alloc::AllocError;
use std::sync::Wait;
use vote_desk::DeskNaming;

// Tells whether the committee is approved that this payload names.
pub(crate) fn tell_successor<N: DeskNaming, R: Wait, D: Disk, K: Approver + Keeper>(
    rt: &R,
    office: &Office<'_, N, D, K>,
    payload: &[u8; 32],
    response: &mut Response,
) -> Result<(), AllocError>
    requires { IsBlank response.old }
    ensures { OnOk result (IsSuccessorTold N.committee (K.tells office.now.keeper.now) payload.now
        response.new) }
{
    make_ready(response, Kind::Text)?;
    if is_approved(rt, office, payload) {
        tell_text(response, b"approved\n");
    } else {
        tell_text(response, b"not approved\n");
    }
    Ok(())
}

fn is_approved<N: DeskNaming, R: Wait, D: Disk, K: Approver + Keeper>(
    rt: &R,
    office: &Office<'_, N, D, K>,
    payload: &[u8; 32],
) -> bool
    ensures approved { IsTrue result
        → MayFollow N.committee (K.tells office.now.keeper.now) payload.now }
    ensures other { IsFalse result → IsNotApproved (K.tells office.now.keeper.now) payload.now }
{
    if office.renewed.has(rt, payload) {
        return true;
    }
    match office.keeper.approved() {
        Some(approved) => approved == *payload,
        None => false,
    }
}
