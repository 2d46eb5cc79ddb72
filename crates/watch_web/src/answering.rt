//! The answer to a request.

ghost use Rattle.std.specs.Prelude.{◌≡◌, ◌↔◌, IsTrue, OnOk};
ghost use Rattle.http.specs.Request.{head_of};
ghost use Rattle.http_server.specs.Response.{IsBlank};
ghost use Rattle.watch_web.specs.Answers.{IsAdmittedTold, IsAnswer, IsRead};

use crate::target::place_in;
use crate::telling::tell_place;
use crate::writing::{Kind, tell};
use base_hosts::has_good_host;
use bytes::Bytes;
use http::{Request, StatusCode};
use http_server::Response;
use std::alloc::{AllocError, Global};
use watch_report::Snapshot;

fn is_same(a: &[u8], b: &[u8]) -> bool
    ensures { IsTrue result ↔ (a.now ≡ b.now) }
{
    a == b
}

fn has_method(request: &Request<Bytes>, method: &[u8]) -> bool
    ensures { IsTrue result ↔ ((head_of request.now).method ≡ method.now) }
{
    is_same(request.method().as_str().as_bytes(), method)
}

fn is_read(request: &Request<Bytes>) -> bool
    ensures { IsTrue result ↔ IsRead request.now }
{
    has_method(request, b"GET") || has_method(request, b"HEAD")
}

fn answer_admitted(
    alloc: Global,
    seen: &Snapshot,
    second: u64,
    request: &Request<Bytes>,
    response: &mut Response,
) -> Result<(), AllocError>
    requires { IsBlank response.old }
    ensures { OnOk result (IsAdmittedTold seen.now second request.now response.new) }
{
    if !is_read(request) {
        return tell(
            response,
            StatusCode::METHOD_NOT_ALLOWED,
            Kind::Refused,
            b"refused method\n",
        );
    }
    let path = request.uri().path().as_bytes();
    tell_place(alloc, response, seen, second, path, place_in(request))
}

// Answers a request by what the watch knew.
pub(crate) fn answer(
    alloc: Global,
    hosts: &[String],
    seen: &Snapshot,
    second: u64,
    request: &Request<Bytes>,
    response: &mut Response,
) -> Result<(), AllocError>
    requires { IsBlank response.old }
    ensures { OnOk result (IsAnswer hosts.now seen.now second request.now response.new) }
{
    if !has_good_host(hosts, request.headers())? {
        return tell(
            response,
            StatusCode::FORBIDDEN,
            Kind::Text,
            b"refused host\n",
        );
    }
    answer_admitted(alloc, seen, second, request, response)
}
