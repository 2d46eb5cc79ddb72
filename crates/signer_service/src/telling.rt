//! The line that tells what came of a call. There is room for it, so telling cannot fail.

ghost use Rattle.std.specs.Prelude.{◌≡◌, ◌≤◌, ◌+◌, ◌++◌, [], codes, length};
ghost use Rattle.hex.specs.Hex.{encode_lower};
ghost use Rattle.certificates.specs.Votes.{vote_text};
ghost use Rattle.vote_desk.specs.declared.reply.Answer.TheVariants.{Voted};
ghost use Rattle.replica_requests.specs.OutcomeLines.{answer_text, commit_text, numbered_line};
ghost use Rattle.signer_service.specs.CallAnswers.{IsAskingTold, IsCameTold, IsLogTold, IsOutcomeTold, IsPutBackTold, IsReceiptTold, IsUnreadTold};
ghost use Rattle.signer_service.specs.Responses.{IsLine, IsPassing, IsReady, fields_of_kind, fields_to_retry, named_line};
ghost use Rattle.signer_service.specs.ToldLines.{IsDeskTold, act_text, block_text, core_status, desk_status, named_desk_line, outcome_status, reply_line, told_line};
ghost use Rattle.signer_service.specs.declared.writing.TheConstants.{ROOM};

use crate::names::{
    block_refusal_name, certificate_refusal_name, core_refusal_name, desk_error_name,
    header_refusal_name, log_error_name,
};
use crate::put_back::put_back_line;
use crate::refusing::tell_refused;
use crate::writing::{Kind, put, put_number, settle};
use base_text::id_digits;
use blocks::{Ballot, Id};
use certificates::{SignedVote, VOTE_LEN};
use http::StatusCode;
use http_server::{Response, Rope};
use replica_core::CoreRefusal;
use replica_requests::Outcome;
use signer_answers::Told;
use signer_calls::CallRefusal;
use vote_desk::{Answer, DeskError, Receipt};
use vote_log::LogError;

// Tells what came of a block or a timeout, if its view did not lie too far ahead.
pub(crate) fn tell_told(response: &mut Response, block: &Option<Ballot>, told: &Option<Told>)
    requires { IsReady fields_to_retry response.old }
    ensures { IsOutcomeTold block.now told.now response.new }
{
    match told {
        Some(Told::Came(outcome)) => tell_came(response, block, outcome),
        Some(Told::Asking) => tell_asking(response),
        Some(Told::PutBack(ballot)) => tell_put_back(response, ballot),
        Some(Told::Unread(error)) => tell_unread(response, *error),
        Some(Told::Again(receipt, committed)) => {
            settle(response);
            put_reply(
                &mut response.body,
                block,
                &Answer::Voted(*receipt),
                committed,
            );
        }
        None => {
            settle(response);
            tell_refused(response, CallRefusal::Far);
        }
    }
}

fn tell_came(response: &mut Response, block: &Option<Ballot>, outcome: &Outcome)
    requires { IsReady fields_to_retry response.old }
    ensures { IsCameTold block.now outcome.now response.new }
{
    match outcome {
        Outcome::RefusedByDesk(refusal) => tell_desk(response, *refusal),
        _ => {
            settle(response);
            tell_outcome(response, block, outcome);
        }
    }
}

// Tells an outcome by its line.
pub(crate) fn tell_outcome(response: &mut Response, block: &Option<Ballot>, outcome: &Outcome)
    requires { IsReady (fields_of_kind Kind.Text) response.old }
    ensures { IsLine (outcome_status outcome.now) (told_line block.now outcome.now) response.new }
{
    response.status = outcome_status(outcome);
    put_outcome(&mut response.body, block, outcome);
}

// Tells that the log was put back.
pub(crate) fn tell_put_back(response: &mut Response, ballot: &Ballot)
    requires { IsReady fields_to_retry response.old }
    ensures { IsPutBackTold ballot.now response.new }
{
    settle(response);
    response.status = StatusCode::INTERNAL_SERVER_ERROR;
    put(&mut response.body, &put_back_line(ballot));
}

// Tells that others are still asked.
pub(crate) fn tell_asking(response: &mut Response)
    requires { IsReady fields_to_retry response.old }
    ensures { IsAskingTold response.new }
{
    response.status = StatusCode::SERVICE_UNAVAILABLE;
    put(&mut response.body, b"asking\n");
}

// Tells why the desk refuses.
pub(crate) fn tell_desk(response: &mut Response, refusal: DeskError)
    requires { IsReady fields_to_retry response.old }
    ensures { IsDeskTold refusal response.new }
{
    match refusal {
        DeskError::Memory => {}
        _ => settle(response),
    }
    response.status = desk_status(refusal);
    put_desk(&mut response.body, refusal);
}

// Tells why the log was not read.
pub(crate) fn tell_log(response: &mut Response, error: LogError)
    requires { IsReady fields_to_retry response.old }
    ensures { IsLogTold error response.new }
{
    match error {
        LogError::Memory => tell_desk(response, DeskError::Memory),
        LogError::Stopped => tell_desk(response, DeskError::Stopped),
        _ => tell_unread(response, error),
    }
}

// Tells that what the log has can't be read.
fn tell_unread(response: &mut Response, error: LogError)
    requires { IsReady fields_to_retry response.old }
    ensures { IsUnreadTold error response.new }
{
    settle(response);
    response.status = StatusCode::SERVICE_UNAVAILABLE;
    put_named(
        &mut response.body,
        b"refused log ",
        error.number(),
        log_error_name(error),
    );
}

// Tells a fixed line.
pub(crate) fn tell_text(response: &mut Response, line: &[u8])
    requires ready { IsReady (fields_of_kind Kind.Text) response.old }
    requires short { length line.now ≤ 64 }
    ensures { IsLine 200 line.now response.new }
{
    put(&mut response.body, line);
}

// Tells a vote of the log.
pub(crate) fn tell_receipt(response: &mut Response, receipt: &Receipt)
    requires { IsReady (fields_of_kind Kind.Text) response.old }
    ensures { IsReceiptTold receipt.now response.new }
{
    put_receipt(&mut response.body, receipt);
    put(&mut response.body, b"\n");
}

fn put_outcome(body: &mut Rope, block: &Option<Ballot>, outcome: &Outcome)
    requires { (body.old.items ≡ []) × (ROOM ≤ body.old.spare) }
    ensures { body.new.items ≡ told_line block.now outcome.now }
{
    match outcome {
        Outcome::Replied(reply) => put_reply(body, block, &reply.act, &reply.committed),
        Outcome::TimedOut(view) => put_timeout(body, *view),
        Outcome::RefusedHeader(refusal) => {
            put_named(
                body,
                b"refused header ",
                refusal.number(),
                header_refusal_name(*refusal),
            )
        }
        Outcome::RefusedCertificate(refusal) => {
            put_named(
                body,
                b"refused certificate ",
                refusal.number(),
                certificate_refusal_name(*refusal),
            )
        }
        Outcome::RefusedBlock(refusal) => {
            put_named(
                body,
                b"refused block ",
                refusal.number(),
                block_refusal_name(*refusal),
            )
        }
        Outcome::RefusedByDesk(refusal) => put_desk(body, *refusal),
    }
}

pub(crate) fn put_desk(body: &mut Rope, refusal: DeskError)
    requires { (body.old.items ≡ []) × (ROOM ≤ body.old.spare) }
    ensures { body.new.items ≡ named_desk_line refusal }
{
    match refusal {
        DeskError::Core(refusal) => {
            put_named(
                body,
                b"refused core ",
                refusal.number(),
                core_refusal_name(refusal),
            )
        }
        _ => put_named(body, b"desk ", refusal.number(), desk_error_name(refusal)),
    }
}

pub(crate) fn put_named(body: &mut Rope, words: &[u8], number: u8, name: &[u8])
    requires body { (body.old.items ≡ []) × (ROOM ≤ body.old.spare) }
    requires words { length words.now ≤ 20 }
    requires name { length name.now ≤ 20 }
    ensures { body.new.items ≡ named_line words.now number name.now }
{
    put(body, words);
    put_number(body, number);
    put(body, b" ");
    put(body, name);
    put(body, b"\n");
}

fn put_timeout(body: &mut Rope, view: u64)
    requires { (body.old.items ≡ []) × (ROOM ≤ body.old.spare) }
    ensures { body.new.items ≡ numbered_line (codes "timeout ") view }
{
    put(body, b"timeout ");
    put_number(body, view);
    put(body, b"\n");
}

fn put_reply(body: &mut Rope, block: &Option<Ballot>, act: &Answer, committed: &Option<Id>)
    requires { (body.old.items ≡ []) × (ROOM ≤ body.old.spare) }
    ensures { body.new.items ≡ reply_line block.now act.now committed.now }
{
    put_act(body, block, act);
    put_commit(body, committed);
    put(body, b"\n");
}

fn put_act(body: &mut Rope, block: &Option<Ballot>, act: &Answer)
    requires { (body.old.items ≡ []) × (ROOM ≤ body.old.spare) }
    ensures items { body.new.items ≡ act_text block.now act.now }
    ensures spare { 100 ≤ body.new.spare }
{
    match act {
        Answer::Voted(receipt) => put_receipt(body, receipt),
        Answer::Raised => put_of_block(body, b"raised", block),
        Answer::Held => put_of_block(body, b"held", block),
    }
}

// Adds a word, and the block that it is said of.
fn put_of_block(body: &mut Rope, word: &[u8], block: &Option<Ballot>)
    requires body { (body.old.items ≡ []) × (ROOM ≤ body.old.spare) }
    requires word { length word.now ≤ 20 }
    ensures items { body.new.items ≡ word.now ++ block_text block.now }
    ensures spare { 100 ≤ body.new.spare }
{
    put(body, word);
    if let Some(block) = block {
        put(body, b" ");
        put_number(body, block.view);
        put(body, b" ");
        put(body, &id_digits(&block.id));
    }
}

fn put_receipt(body: &mut Rope, receipt: &Receipt)
    requires { (body.old.items ≡ []) × (ROOM ≤ body.old.spare) }
    ensures items { body.new.items ≡ answer_text (Voted receipt.now) }
    ensures spare { 100 ≤ body.new.spare }
{
    put(body, b"voted ");
    put_number(body, receipt.number);
    put(body, b" ");
    put(body, &vote_digits(&receipt.vote));
}

fn put_commit(body: &mut Rope, committed: &Option<Id>)
    requires { 100 ≤ body.old.spare }
    ensures items { body.new.items ≡ body.old.items ++ commit_text committed.now }
    ensures spare { 1 ≤ body.new.spare }
{
    if let Some(id) = committed {
        put(body, b" committed ");
        put(body, &id_digits(id));
    }
}

fn vote_digits(vote: &SignedVote) -> [u8; 2 * VOTE_LEN]
    ensures { result ≡ encode_lower (vote_text vote.now) }
{
    let mut digits = [0; 2 * VOTE_LEN];
    let _ = hex::encode_to_slice(&vote.to_bytes()[..], &mut digits);
    digits
}

// ---- statuses

fn outcome_status(outcome: &Outcome) -> StatusCode
    ensures { result ≡ outcome_status outcome.now }
{
    match outcome {
        Outcome::Replied(_) | Outcome::TimedOut(_) => StatusCode::OK,
        Outcome::RefusedHeader(_) | Outcome::RefusedCertificate(_) => StatusCode::BAD_REQUEST,
        Outcome::RefusedBlock(_) => StatusCode::UNPROCESSABLE_ENTITY,
        Outcome::RefusedByDesk(refusal) => desk_status(*refusal),
    }
}

fn desk_status(refusal: DeskError) -> StatusCode
    ensures { result ≡ desk_status refusal }
{
    match refusal {
        DeskError::Core(CoreRefusal::TreeFull) => StatusCode::INSUFFICIENT_STORAGE,
        DeskError::Core(_) => StatusCode::PRECONDITION_FAILED,
        DeskError::KeySpent | DeskError::LogFull => StatusCode::INSUFFICIENT_STORAGE,
        DeskError::Memory => StatusCode::SERVICE_UNAVAILABLE,
        _ => StatusCode::INTERNAL_SERVER_ERROR,
    }
}
