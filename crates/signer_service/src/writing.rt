//! A response that is filled within room that was made before, so that it cannot fail.

ghost use Rattle.std.specs.Prelude.{◌≡◌, ◌≤◌, ◌+◌, ◌++◌, OnOk, length};
ghost use Rattle.http_server.specs.Response.{IsBlank, IsResponse};
ghost use Rattle.signer_service.specs.Responses.{HasRoom, IsReady, fields_of_kind, fields_to_retry, kind_text};
ghost use Rattle.signer_service.specs.declared.writing.Kind.TheVariants.{Octets, Text};

use bytes::BufMut;
use http::header::{HeaderName, HeaderValue};
use http_server::{Response, Rope};
use itoa::{Buffer, Integer};
use std::alloc::AllocError;

/// How many bytes of a body have room before the desk is called. The longest line takes 3,083.
pub(crate) const ROOM: usize = 4096;

// How many fields each answer has.
const FIELDS: usize = 3;

/// Of what kind a body is.
#[derive(Clone, Copy, Debug, PartialEq, Eq)]
pub enum Kind {
    /// A line.
    Text,
    /// JSON.
    Json,
    /// Bytes.
    Octets,
    /// What Prometheus reads.
    Metrics,
}

fn type_of(kind: Kind) -> HeaderValue
    ensures { result.bytes ≡ kind_text kind }
{
    match kind {
        Kind::Text => HeaderValue::from_static("text/plain; charset=utf-8"),
        Kind::Json => HeaderValue::from_static("application/json"),
        Kind::Metrics => HeaderValue::from_static("text/plain; version=0.0.4; charset=utf-8"),
        Kind::Octets => HeaderValue::from_static("application/octet-stream"),
    }
}

// Adds the fields of a body of this kind, and makes room for a line.
pub(crate) fn make_ready(response: &mut Response, kind: Kind) -> Result<(), AllocError>
    requires { IsBlank response.old }
    ensures { OnOk result (IsReady (fields_of_kind kind) response.new) }
{
    make_room(response, kind, ROOM)
}

// Adds the fields of a body of this kind, and makes room for the body.
pub(crate) fn make_room(response: &mut Response, kind: Kind, room: usize) -> Result<(), AllocError>
    requires { IsBlank response.old }
    ensures { OnOk result (HasRoom (fields_of_kind kind) room response.new) }
{
    response.add_header(HeaderName::from_static("content-type"), type_of(kind))?;
    response.add_header(
        HeaderName::from_static("cache-control"),
        HeaderValue::from_static("no-store"),
    )?;
    response.add_header(
        HeaderName::from_static("wezhgula-api"),
        HeaderValue::from_static("1"),
    )?;
    response.body.reserve(room)
}

// Adds the fields of a line on what passes by itself, and makes room for the line. What is told of anything else is settled
// before: a field that is there can be taken away without fail.
pub(crate) fn make_to_retry(response: &mut Response) -> Result<(), AllocError>
    requires { IsBlank response.old }
    ensures { OnOk result (IsReady fields_to_retry response.new) }
{
    make_ready(response, Kind::Text)?;
    response.add_header(
        HeaderName::from_static("retry-after"),
        HeaderValue::from_static("1"),
    )
}

// Takes back that the call may be made again.
pub(crate) fn settle(response: &mut Response)
    requires { IsReady fields_to_retry response.old }
    ensures { IsReady (fields_of_kind Text) response.new }
{
    response.headers.truncate(FIELDS);
}

// Answers with these bytes, as many as they may be.
pub(crate) fn fill(response: &mut Response, bytes: &[u8]) -> Result<(), AllocError>
    requires { IsBlank response.old }
    ensures { OnOk result (IsResponse 200 (fields_of_kind Octets) bytes.now response.new) }
{
    make_ready(response, Kind::Octets)?;
    response.body.put_slice(bytes)
}

// Adds a piece, for which there is room.
pub(crate) fn put(body: &mut Rope, piece: &[u8])
    requires { length piece.now ≤ body.old.spare }
    ensures items { body.new.items ≡ body.old.items ++ piece.now }
    ensures spare { body.old.spare ≤ body.new.spare + length piece.now }
{
    // There is room, so it is never refused.
    let _ = body.put_slice(piece);
}

pub(crate) fn put_number<I: Integer>(body: &mut Rope, number: I)
    requires { 40 ≤ body.old.spare }
    ensures items { body.new.items ≡ body.old.items ++ I.text number }
    ensures spare { body.old.spare ≤ body.new.spare + 40 }
{
    put(body, Buffer::new().format(number).as_bytes());
}

// Adds words and a number.
pub(crate) fn put_field<I: Integer>(body: &mut Rope, words: &[u8], number: I)
    requires { length words.now + 40 ≤ body.old.spare }
    ensures items { body.new.items ≡ body.old.items ++ (words.now ++ I.text number) }
    ensures spare { body.old.spare ≤ body.new.spare + length words.now + 40 }
{
    put(body, words);
    put_number(body, number);
}
