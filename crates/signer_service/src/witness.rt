//! Who is shown the calls that were answered.

ghost use Rattle.std.specs.Prelude.{◌≡◌};
ghost use Rattle.http.specs.Request.{head_of};
ghost use Rattle.http_uri.specs.Uri.{uri_path_and_query};
ghost use Rattle.signer_service.specs.Witnesses.{IsSeen, event_of, target_text};

use blocks::Ballot;
use bytes::{Buf, Bytes};
use http::Request;
use http_server::Response;
use replica_requests::Outcome;
use signer_answers::Told;
use vote_desk::DeskError;

/// What a call came upon that stops the desk or its callers.
#[derive(Clone, Copy, Debug, PartialEq, Eq)]
pub enum Event {
    /// Neither.
    Nothing,
    /// A disk failed under this call, and the desk is stopped.
    DiskFailed,
    /// The log was put back, by this call or before: it lacks a vote on this.
    PutBack(Ballot),
}

/// A call that was answered.
#[derive(Clone, Copy, Debug)]
pub struct Seen<'a> {
    /// As it came: `GET`, `HEAD`, `POST`, or one that was refused.
    pub method: &'a [u8],
    /// The path, and `?` and the query where there is one. Empty where the target names an authority alone.
    pub target: &'a [u8],
    /// The status of the response.
    pub status: u16,
    /// How many bytes the body has; to HEAD none of them is sent.
    pub length: usize,
    /// The body, or its first piece: whole where it is a line, with its line feed.
    pub body: &'a [u8],
    /// What it came upon.
    pub event: Event,
}

/// Who is shown each call that was answered, as a program that prints them. A witness cannot change the answer.
pub trait Witness {
    /// This call was answered so. The response was made, and is not sent yet.
    fn saw(&self, call: &Seen<'_>);
}

/// Nobody is shown anything.
#[derive(Clone, Copy, Debug, Default)]
pub struct NoWitness;

impl Witness for NoWitness {
    fn saw(&self, _call: &Seen<'_>) {}
}

// What is shown of a call, its response, and what was told of a block or a timeout.
pub(crate) fn seen_of<'a>(
    request: &'a Request<Bytes>,
    response: &'a Response,
    told: &Option<Told>,
) -> Seen<'a>
    ensures { IsSeen request.now response.now told.now result }
{
    Seen {
        method: request.method().as_str().as_bytes(),
        target: target_of(request),
        status: response.status.as_u16(),
        length: response.body.len(),
        body: response.body.chunk(),
        event: event_of(told),
    }
}

// What is come upon where this is told.
fn event_of(told: &Option<Told>) -> Event
    ensures { result ≡ event_of told.now }
{
    match told {
        Some(Told::Came(Outcome::RefusedByDesk(DeskError::Device))) => Event::DiskFailed,
        Some(Told::PutBack(ballot)) => Event::PutBack(*ballot),
        _ => Event::Nothing,
    }
}

// The path and the query of a request.
fn target_of(request: &Request<Bytes>) -> &[u8]
    ensures { result.now ≡ target_text (uri_path_and_query (head_of request.now).uri) }
{
    match request.uri().path_and_query() {
        Some(target) => target.as_str().as_bytes(),
        None => b"",
    }
}
