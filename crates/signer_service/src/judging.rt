//! How a vote is judged, and a certificate, without the desk.

ghost use Rattle.std.specs.Prelude.{◌≡◌, MatchOption, OnOk, codes};
ghost use Rattle.http_server.specs.Response.{IsBlank};
ghost use Rattle.replica_requests.specs.declared.outcome.Outcome.TheVariants as came;
ghost use Rattle.signer_service.specs.Judging.{IsCertificateGood, IsCertificateRefused, IsCertificateTold, IsJudgementTold, IsOutcomeLine};
ghost use Rattle.signer_service.specs.Responses.{IsLine, IsReady, fields_of_kind};

use crate::names::vote_refusal_name;
use crate::telling::{put_named, tell_outcome, tell_text};
use crate::writing::{Kind, make_ready};
use blocks::{CommitteeView, Header};
use certificates::{
    BlockRefusal, Certificate, CertificateRefusal, SignedVote, check_block, check_vote,
};
use http::StatusCode;
use http_server::Response;
use replica_requests::Outcome;
use signer_votes::Checker;
use std::alloc::{AllocError, Global};

// Tells whether a vote is good, as a leader asks of each vote that it gathers. A good one is remembered.
pub(crate) fn tell_judgement<V: Checker>(
    committee: &CommitteeView,
    checker: &V,
    vote: &SignedVote,
    response: &mut Response,
) -> Result<(), AllocError>
    requires { IsBlank response.old }
    ensures { OnOk result (IsJudgementTold committee.now vote.now response.new) }
{
    make_ready(response, Kind::Text)?;
    match check_vote(committee, vote) {
        Ok(()) => {
            checker.found(committee, vote);
            tell_text(response, b"good\n");
        }
        Err(refusal) => {
            response.status = StatusCode::UNPROCESSABLE_ENTITY;
            put_named(
                &mut response.body,
                b"refused vote ",
                refusal.number(),
                vote_refusal_name(refusal),
            );
        }
    }
    Ok(())
}

// Tells whether a certificate is good, by what a block on it would be told.
pub(crate) fn tell_certificate<V: Checker>(
    alloc: Global,
    committee: &CommitteeView,
    checker: &V,
    read: Result<Certificate, CertificateRefusal>,
    response: &mut Response,
) -> Result<(), AllocError>
    requires { IsBlank response.old }
    ensures { OnOk result (IsCertificateTold committee.now read response.new) }
{
    make_ready(response, Kind::Text)?;
    match read {
        Ok(certificate) => tell_judged(
            response,
            &refusal_of(alloc, committee, checker, certificate),
        ),
        Err(refusal) => tell_outcome(response, &None, &Outcome::RefusedCertificate(refusal)),
    }
    Ok(())
}

fn tell_judged(response: &mut Response, refusal: &Option<BlockRefusal>)
    requires { IsReady (fields_of_kind Kind.Text) response.old }
    ensures { MatchOption refusal.now (IsLine 200 (codes "good\n") response.new) (λ it.
        IsOutcomeLine (came.RefusedBlock it) response.new) }
{
    match refusal {
        Some(refusal) => tell_outcome(response, &None, &Outcome::RefusedBlock(*refusal)),
        None => tell_text(response, b"good\n"),
    }
}

// Why a block on a certificate would be refused for it, if it would. Good votes are remembered.
fn refusal_of<V: Checker>(
    alloc: Global,
    committee: &CommitteeView,
    checker: &V,
    certificate: Certificate,
) -> Option<BlockRefusal>
    ensures { MatchOption result (IsCertificateGood committee.now certificate)
        (IsCertificateRefused committee.now certificate) }
{
    let Some(view) = certificate.view().checked_add(1) else {
        return Some(BlockRefusal::WrongBlock);
    };
    let header = Header {
        view,
        parent_view: certificate.view(),
        parent: *certificate.id(),
        payload: [0; 32],
    };
    let known = checker.check_ahead(alloc, committee, &certificate);
    match check_block(committee, &known, header, certificate) {
        Ok(_) => None,
        Err(refusal) => Some(refusal),
    }
}
