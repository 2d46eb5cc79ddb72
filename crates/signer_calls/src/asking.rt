//! What a request asks for.

ghost use Rattle.std.specs.Prelude.{◌≡◌, ◌↔◌, IfOk, IsTrue, MatchOption, option_copied};
ghost use Rattle.http.specs.Request.{head_of};
ghost use Rattle.signer_calls.specs.Asking.{AsksFor, BlocksAsked, CertificateAsked, EndorseAsked, HasContentType, HasGoodTarget, HasNoOrigin, HasRightMethod, IsAdmitted, IsAnother, IsAskedAt, IsAskedOf, IsAskedPlace, IsHeldTo, IsOfChain, IsRefusedAt, IsThere, NamesHost, OverAsked, PartAsked, PassesDoor, PostsRenewal, RenewAsked, SuccessorAsked, VoteAsked};
ghost use Rattle.signer_calls.specs.Places.{queries_of};
ghost use Rattle.signer_calls.specs.Queries.{HasGoodQuery, IsChainAlone};

use crate::block_list::blocks_in;
use crate::call::{Call, CallRefusal, Over};
use crate::door::has_bytes_type;
use crate::log_part::part_of;
use crate::over_body::{OverBody, over_body_in};
use crate::pair::pair_in;
use crate::query::{Query, named_in, names_payload};
use crate::rules::Rules;
use crate::target::{CallTarget, Methods, Queries, behind, id_in, is_same, place_of};
use crate::vote_reading::vote_in;
use base_hosts::has_good_host;
use blocks::{CommitteeView, Id};
use bytes::Bytes;
use certificates::{Certificate, CertificateRefusal};
use http::Request;
use replica_requests::{Request as Asked, block_in};
use std::alloc::{AllocError, Global};

/// What a request asks of this committee's signer, or the first thing that is wrong with it: `AllocError` where memory was refused.
pub fn call_of(
    alloc: Global,
    rules: &Rules,
    committee: &CommitteeView,
    request: &Request<Bytes>,
) -> Result<Call, AllocError>
    ensures { IfOk result (AsksFor rules.now committee.now request.now) }
{
    let place = asked_place(rules, request);
    if let Some(refusal) = refused_at(rules, request, place)? {
        return Ok(Call::Refused(refusal));
    }
    let call = asked_of(alloc, rules, committee, request, place)?;
    Ok(call)
}

// The place that a request asks.
fn asked_place(rules: &Rules, request: &Request<Bytes>) -> CallTarget
    ensures { IsAskedPlace rules.now request.now result }
{
    let named = place_of(request.uri().path().as_bytes());
    if posts_renewal(rules, request, named) {
        return CallTarget::Renewal;
    }
    named
}

fn posts_renewal(rules: &Rules, request: &Request<Bytes>, named: CallTarget) -> bool
    ensures { IsTrue result ↔ PostsRenewal rules.now request.now named }
{
    match named {
        CallTarget::Successor => rules.renews && has_method(request, b"POST"),
        _ => false,
    }
}

// The first thing that is wrong with a request, before its arguments are read.
fn refused_at(
    rules: &Rules,
    request: &Request<Bytes>,
    place: CallTarget,
) -> Result<Option<CallRefusal>, AllocError>
    ensures { IfOk result (λ refused. MatchOption refused (IsAdmitted rules.now request.now place)
        (IsRefusedAt rules.now request.now place)) }
{
    if !has_good_target(request, place) {
        return Ok(Some(CallRefusal::Target));
    }
    if !names_host(rules, request)? {
        return Ok(Some(CallRefusal::Host));
    }
    if !has_no_origin(rules, request) {
        return Ok(Some(CallRefusal::Origin));
    }
    Ok(refused_behind_door(rules, request, place))
}

fn refused_behind_door(
    rules: &Rules,
    request: &Request<Bytes>,
    place: CallTarget,
) -> Option<CallRefusal>
    requires { PassesDoor rules.now request.now place }
    ensures { MatchOption result (IsAdmitted rules.now request.now place)
        (IsRefusedAt rules.now request.now place) }
{
    if !is_there(rules, request, place) {
        return Some(CallRefusal::NoSuchCall);
    }
    if !has_right_method(request, place) {
        return Some(CallRefusal::Method(place.methods()));
    }
    if !has_content_type(rules, request, place) {
        return Some(CallRefusal::ContentType);
    }
    None
}

// What a request that passed the tests before asks of this committee's signer.
fn asked_of(
    alloc: Global,
    rules: &Rules,
    committee: &CommitteeView,
    request: &Request<Bytes>,
    place: CallTarget,
) -> Result<Call, AllocError>
    requires { IsAdmitted rules.now request.now place }
    ensures { IfOk result (IsAskedOf rules.now committee.now request.now place) }
{
    let Some(query) = named_in(request.uri().query()) else {
        return Ok(Call::Refused(CallRefusal::Number));
    };
    let call = asked_at(alloc, rules, request, place, &query)?;
    Ok(held_to(rules, committee, &query.chain, call))
}

// What it asks of a place.
fn asked_at(
    alloc: Global,
    rules: &Rules,
    request: &Request<Bytes>,
    place: CallTarget,
    query: &Query,
) -> Result<Call, AllocError>
    requires { IsAdmitted rules.now request.now place }
    ensures { IfOk result (IsAskedAt request.now place query.now) }
{
    let body = request.body().as_slice();
    match place {
        CallTarget::Block => Ok(Call::Replica(block_in(alloc, body)?)),
        CallTarget::Blocks => blocks_asked(alloc, request.body()),
        CallTarget::Timeout(Some(view)) if body.is_empty() => Ok(Call::Replica(Asked::Timeout(
            view,
        ))),
        CallTarget::Timeout(Some(_)) => Ok(Call::Refused(CallRefusal::Length)),
        CallTarget::Vote => Ok(vote_asked(body)),
        CallTarget::Certificate => certificate_asked(alloc, body),
        CallTarget::Over => over_asked(&query.chain, request.body()),
        CallTarget::Endorse => Ok(endorse_asked(body)),
        CallTarget::Renewal => renew_asked(request.body()),
        CallTarget::VoteIn(Some(view)) => Ok(Call::VoteIn(view)),
        CallTarget::Header(Some(id)) => Ok(Call::Header(id)),
        CallTarget::Successor => Ok(successor_asked(query)),
        CallTarget::Log => Ok(part_asked(query)),
        CallTarget::Status => Ok(Call::Status),
        CallTarget::Live => Ok(Call::Live),
        CallTarget::Health => Ok(Call::Health),
        CallTarget::Metrics => Ok(Call::Metrics),
        _ => Ok(Call::Refused(CallRefusal::Number)),
    }
}

fn blocks_asked(alloc: Global, body: &Bytes) -> Result<Call, AllocError>
    ensures { IfOk result (BlocksAsked body.now) }
{
    match blocks_in(alloc, body)? {
        Some(blocks) => Ok(Call::Blocks(blocks)),
        None => Ok(Call::Refused(CallRefusal::Length)),
    }
}

fn vote_asked(body: &[u8]) -> Call
    ensures { VoteAsked body.now result }
{
    match vote_in(body) {
        Some(vote) => Call::Judge(vote),
        None => Call::Refused(CallRefusal::Length),
    }
}

// A part of the log, of which a payload says nothing.
fn part_asked(query: &Query) -> Call
    ensures { PartAsked query.now result }
{
    match query.payload {
        Some(_) => Call::Refused(CallRefusal::Number),
        None => Call::Log(part_of(query)),
    }
}

fn successor_asked(query: &Query) -> Call
    ensures { SuccessorAsked query.now.payload result }
{
    match query.payload {
        Some(payload) => Call::Successor(payload),
        None => Call::Refused(CallRefusal::Number),
    }
}

fn certificate_asked(alloc: Global, body: &[u8]) -> Result<Call, AllocError>
    ensures { IfOk result (CertificateAsked body.now) }
{
    match Certificate::read(alloc, body) {
        Err(CertificateRefusal::Memory) => Err(AllocError),
        read => Ok(Call::Certificate(read)),
    }
}

// To go over to the committee of a file, with its renewal and a light proof, if there is one, from the chain that is named.
fn over_asked(chain: &Option<Id>, body: &Bytes) -> Result<Call, AllocError>
    ensures { IfOk result (OverAsked chain.now body.now) }
{
    let Some(spelled) = over_body_in(body)? else {
        return Ok(Call::Refused(CallRefusal::Length));
    };
    let Some(chain) = *chain else {
        return Ok(Call::Refused(CallRefusal::Chain));
    };
    let OverBody {
        renewal,
        file,
        proof,
    } = spelled;
    Ok(Call::Over(Over {
        chain,
        renewal,
        file,
        proof,
    }))
}

fn renew_asked(body: &Bytes) -> Result<Call, AllocError>
    ensures { IfOk result (RenewAsked body.now) }
{
    match pair_in(body)? {
        Some(pair) => Ok(Call::Renew(pair)),
        None => Ok(Call::Refused(CallRefusal::Length)),
    }
}

fn endorse_asked(body: &[u8]) -> Call
    ensures { EndorseAsked body.now result }
{
    if !body.is_empty() {
        return Call::Refused(CallRefusal::Length);
    }
    Call::Endorse
}

// The call, but where it is for one chain and names another.
fn held_to(rules: &Rules, committee: &CommitteeView, chain: &Option<Id>, call: Call) -> Call
    ensures { IsHeldTo rules.now committee.now chain.now call result }
{
    if is_of_chain(&call) && is_another(rules, committee, chain) {
        return Call::Refused(CallRefusal::Chain);
    }
    call
}

fn is_of_chain(call: &Call) -> bool
    ensures { IsTrue result ↔ IsOfChain call.now }
{
    match call {
        Call::Refused(_) | Call::Over(_) => false,
        Call::Status | Call::Live | Call::Health | Call::Metrics => false,
        _ => true,
    }
}

fn is_another(rules: &Rules, committee: &CommitteeView, chain: &Option<Id>) -> bool
    ensures { IsTrue result ↔ IsAnother rules.now committee.now chain.now }
{
    match chain {
        Some(chain) => !is_same(chain, &committee.chain()),
        None => rules.renews,
    }
}

// ---- the tests

fn has_good_target(request: &Request<Bytes>, place: CallTarget) -> bool
    ensures { IsTrue result ↔ HasGoodTarget request.now place }
{
    let uri = request.uri();
    if uri.scheme().is_some() || uri.authority().is_some() {
        return false;
    }
    if !has_good_query(place, uri.query()) {
        return false;
    }
    !place.has_no_id()
}

// Whether a query is one that is named for the place.
fn has_good_query(place: CallTarget, query: Option<&str>) -> bool
    ensures { IsTrue result ↔ HasGoodQuery (queries_of place) (option_copied query.entry) }
{
    match place.queries() {
        Queries::Part => true,
        Queries::Payload => names_payload(query),
        Queries::Chain => has_chain_at_most(query),
        Queries::Nothing => query.is_none(),
    }
}

fn has_chain_at_most(query: Option<&str>) -> bool
    ensures { IsTrue result ↔ HasGoodQuery Queries.Chain (option_copied query.entry) }
{
    match query {
        Some(query) => is_chain_alone(query.as_bytes()),
        None => true,
    }
}

fn is_chain_alone(query: &[u8]) -> bool
    ensures { IsTrue result ↔ IsChainAlone query.now }
{
    match behind(query, b"chain=") {
        Some(digits) => id_in(digits).is_some(),
        None => false,
    }
}

fn names_host(rules: &Rules, request: &Request<Bytes>) -> Result<bool, AllocError>
    ensures { IfOk result (λ good. IsTrue good ↔ NamesHost rules.now request.now) }
{
    if !rules.over_tcp {
        return Ok(true);
    }
    has_good_host(&rules.hosts, request.headers())
}

fn has_no_origin(rules: &Rules, request: &Request<Bytes>) -> bool
    ensures { IsTrue result ↔ HasNoOrigin rules.now request.now }
{
    !rules.over_tcp || !request.headers().contains_key("origin")
}

fn is_there(rules: &Rules, request: &Request<Bytes>, place: CallTarget) -> bool
    ensures { IsTrue result ↔ IsThere rules.now request.now place }
{
    if place.is_nowhere() {
        return false;
    }
    if place.is_of_renewal() && !rules.renews {
        return false;
    }
    !rules.reads_only || !(place.is_posted() || has_method(request, b"POST"))
}

fn has_right_method(request: &Request<Bytes>, place: CallTarget) -> bool
    ensures { IsTrue result ↔ HasRightMethod request.now place }
{
    match place.methods() {
        Methods::Post => has_method(request, b"POST"),
        Methods::Get => has_method(request, b"GET") || has_method(request, b"HEAD"),
    }
}

fn has_method(request: &Request<Bytes>, method: &[u8]) -> bool
    ensures { IsTrue result ↔ ((head_of request.now).method ≡ method.now) }
{
    is_same(request.method().as_str().as_bytes(), method)
}

fn has_content_type(rules: &Rules, request: &Request<Bytes>, place: CallTarget) -> bool
    ensures { IsTrue result ↔ HasContentType rules.now request.now place }
{
    !rules.over_tcp || !place.is_posted() || has_bytes_type(request.headers())
}
