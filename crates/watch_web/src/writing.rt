//! A response of a kind.

ghost use Rattle.std.specs.Prelude.{◌≡◌, ◌∷◌, [], OnOk, codes};
ghost use Rattle.http_server.specs.Response.{IsBlank, IsResponse};
ghost use Rattle.watch_web.specs.Replies.{IsTold, common_fields, fields_of, policy_text, type_text};

use bytes::BufMut;
use http::StatusCode;
use http::header::{HeaderName, HeaderValue};
use http_server::Response;
use std::alloc::AllocError;

/// Of what kind a body is.
#[derive(Clone, Copy, Debug, PartialEq, Eq)]
pub enum Kind {
    /// A line.
    Text,
    /// JSON.
    Json,
    /// What Prometheus reads.
    Metrics,
    /// A verdict.
    Verdict,
    /// A page.
    Html,
    /// A picture.
    Picture,
    /// A line that refuses a method.
    Refused,
}

fn type_of(kind: Kind) -> HeaderValue
    ensures { result.bytes ≡ type_text kind }
{
    match kind {
        Kind::Text | Kind::Refused => HeaderValue::from_static("text/plain; charset=utf-8"),
        Kind::Json => HeaderValue::from_static("application/json"),
        Kind::Metrics => HeaderValue::from_static("text/plain; version=0.0.4; charset=utf-8"),
        Kind::Verdict => HeaderValue::from_static("application/octet-stream"),
        Kind::Html => HeaderValue::from_static("text/html; charset=utf-8"),
        Kind::Picture => HeaderValue::from_static("image/svg+xml"),
    }
}

// What a page or a picture may use: its style is told by its digest.
fn policy_of(kind: Kind) -> HeaderValue
    ensures { result.bytes ≡ policy_text kind }
{
    match kind {
        Kind::Picture => HeaderValue::from_static(
            "default-src 'none'; style-src 'sha256-nv+mA1/+eDLQBvWnup7N70zAVvINwphGa2YpCorNbPE='; img-src 'self' data:; base-uri 'none'; form-action 'none'; frame-ancestors 'none'",
        ),
        Kind::Text | Kind::Json | Kind::Metrics | Kind::Verdict | Kind::Html | Kind::Refused =>
            HeaderValue::from_static(
                "default-src 'none'; style-src 'sha256-AOUb0+aR/aOeyqL1OuCfuZiMOZP3SZMLNUkcNunTkx4='; img-src 'self' data:; base-uri 'none'; form-action 'none'; frame-ancestors 'none'",
            ),
    }
}

// Adds what the responses of all kinds have.
fn add_common(response: &mut Response, kind: Kind) -> Result<(), AllocError>
    requires { IsBlank response.old }
    ensures { OnOk result (IsResponse 200 ((codes "content-type", type_text kind) ∷ common_fields kind)
        [] response.new) }
{
    response.add_header(HeaderName::from_static("content-type"), type_of(kind))?;
    response.add_header(
        HeaderName::from_static("cache-control"),
        HeaderValue::from_static("no-store"),
    )?;
    response.add_header(
        HeaderName::from_static("content-security-policy"),
        policy_of(kind),
    )?;
    response.add_header(
        HeaderName::from_static("x-content-type-options"),
        HeaderValue::from_static("nosniff"),
    )?;
    response.add_header(
        HeaderName::from_static("referrer-policy"),
        HeaderValue::from_static("no-referrer"),
    )?;
    response.add_header(
        HeaderName::from_static("connection"),
        HeaderValue::from_static("close"),
    )
}

// .. and what those of this kind have.
fn add_fields(response: &mut Response, kind: Kind) -> Result<(), AllocError>
    requires { IsBlank response.old }
    ensures { OnOk result (IsResponse 200 (fields_of kind) [] response.new) }
{
    add_common(response, kind)?;
    match kind {
        Kind::Verdict => response.add_header(
            HeaderName::from_static("content-disposition"),
            HeaderValue::from_static("attachment"),
        ),
        Kind::Refused => response.add_header(
            HeaderName::from_static("allow"),
            HeaderValue::from_static("GET, HEAD"),
        ),
        _ => Ok(()),
    }
}

// Answers with this status and body.
pub(crate) fn tell(
    response: &mut Response,
    status: StatusCode,
    kind: Kind,
    body: &[u8],
) -> Result<(), AllocError>
    requires { IsBlank response.old }
    ensures { OnOk result (IsTold status kind body.now response.new) }
{
    add_fields(response, kind)?;
    response.status = status;
    response.body.put_slice(body)
}
