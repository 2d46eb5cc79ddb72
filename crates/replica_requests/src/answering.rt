//! What comes of a request.

ghost use Rattle.std.specs.Prelude.{◌≡◌};
ghost use Rattle.replica_requests.specs.Answers.{IsAnswerTo, IsAnswerToBlock, IsAnswerToTimeout};
ghost use Rattle.replica_requests.specs.SessionReceipts.{receipts_after};

use crate::outcome::Outcome;
use crate::request::Request;
use blocks::{CommitteeView, Header};
use certificates::{Certificate, Verifier, check_block};
use stable_log::Disk;
use std::sync::Wait;
use vote_desk::{Desk, DeskNaming, Session};

/// What comes of a request. What asks for nothing of the desk is answered by what is wrong with it. Only a block may need
/// memory: where it is refused, the desk's refusal says so.
pub fn answer<N: DeskNaming, T: Wait, D: Disk, V: Verifier>(
    rt: &T,
    desk: &Desk<N, D>,
    committee: &CommitteeView,
    verifier: &V,
    session: &mut Session<N>,
    request: Request,
) -> Outcome
    requires { committee.now ≡ N.committee }
    ensures answer { IsAnswerTo D.Disk N.committee N.replica N.opening request result }
    ensures receipts { session.new.receipts.items
        ≡ receipts_after session.old.receipts.items result }
{
    match request {
        Request::Block(header, certificate) => {
            deliver(rt, desk, committee, verifier, session, header, certificate)
        }
        Request::Timeout(view) => time_out(rt, desk, view),
        Request::RefusedHeader(refusal) => Outcome::RefusedHeader(refusal),
        Request::RefusedCertificate(refusal) => Outcome::RefusedCertificate(refusal),
    }
}

/// Checks a block, before the desk's lock is taken, and delivers it.
pub fn deliver<N: DeskNaming, T: Wait, D: Disk, V: Verifier>(
    rt: &T,
    desk: &Desk<N, D>,
    committee: &CommitteeView,
    verifier: &V,
    session: &mut Session<N>,
    header: Header,
    certificate: Certificate,
) -> Outcome
    requires { committee.now ≡ N.committee }
    ensures answer { IsAnswerToBlock D.Disk N.committee N.replica N.opening header certificate result }
    ensures receipts { session.new.receipts.items
        ≡ receipts_after session.old.receipts.items result }
{
    let block = match check_block(committee, verifier, header, certificate) {
        Ok(block) => block,
        Err(refusal) => return Outcome::RefusedBlock(refusal),
    };
    match desk.deliver(rt, session, block) {
        Ok(reply) => Outcome::Replied(reply),
        Err(refusal) => Outcome::RefusedByDesk(refusal),
    }
}

/// Gives up on all views up to this one.
pub fn time_out<N: DeskNaming, T: Wait, D: Disk>(rt: &T, desk: &Desk<N, D>, view: u64) -> Outcome
    ensures { IsAnswerToTimeout D.Disk N.committee N.replica N.opening view result }
{
    match desk.timeout(rt, view) {
        Ok(()) => Outcome::TimedOut(view),
        Err(refusal) => Outcome::RefusedByDesk(refusal),
    }
}
