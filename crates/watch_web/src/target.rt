//! What a request asks for.

ghost use Rattle.std.specs.Prelude.{◌≡◌};
ghost use Rattle.watch_web.specs.Places.{path_place, place_in, place_of, query_place, verdict_path};

use base_text::Line;
use bytes::Bytes;
use http::Request;
use itoa::Buffer;

/// What a request asks for.
#[derive(Clone, Copy, Debug, PartialEq, Eq)]
pub enum PageTarget {
    /// `/`: the page, which reloads.
    Page,
    /// `/?still`: the page, which stays.
    Still,
    /// `/fork.svg`
    Picture,
    /// `/report.json`
    Report,
    /// `/metrics`
    Metrics,
    /// `/health`
    Health,
    /// Another path, which may be that of a verdict: `/verdict-R.hsx`.
    Other,
    /// What is no path, or has a query that is not there.
    Nowhere,
}

#[tactic(auto, unfolding(crate::specs::Places::path_place))]
fn path_place(path: &[u8]) -> PageTarget
    ensures { result ≡ path_place path.now }
{
    if path == b"/".as_slice() {
        return PageTarget::Page;
    }
    if path == b"/health".as_slice() {
        return PageTarget::Health;
    }
    if path == b"/metrics".as_slice() {
        return PageTarget::Metrics;
    }
    if path == b"/report.json".as_slice() {
        return PageTarget::Report;
    }
    if path == b"/fork.svg".as_slice() {
        return PageTarget::Picture;
    }
    PageTarget::Other
}

#[tactic(auto, unfolding(crate::specs::Places::query_place))]
fn query_place(path: &[u8], query: &[u8]) -> PageTarget
    ensures { result ≡ query_place path.now query.now }
{
    if path == b"/".as_slice() {
        if query == b"still".as_slice() {
            return PageTarget::Still;
        }
        return PageTarget::Nowhere;
    }
    PageTarget::Nowhere
}

// What a request asks for.
#[tactic(auto, unfolding(crate::specs::Places::place_in, crate::specs::Places::place_of))]
pub(crate) fn place_in(request: &Request<Bytes>) -> PageTarget
    ensures { result ≡ place_in request.now }
{
    let uri = request.uri();
    if uri.scheme().is_some() {
        return PageTarget::Nowhere;
    }
    if uri.authority().is_some() {
        return PageTarget::Nowhere;
    }
    match uri.query() {
        None => path_place(uri.path().as_bytes()),
        Some(query) => query_place(uri.path().as_bytes(), query.as_bytes()),
    }
}

// Where the verdict on a replica is.
#[tactic(auto, unfolding(crate::specs::Places::verdict_path))]
pub(crate) fn verdict_path(replica: u16) -> Line
    ensures { result ≡ verdict_path replica }
{
    let mut path = Line::new();
    path.push(b"/verdict-");
    path.push(Buffer::new().format(replica).as_bytes());
    path.push(b".hsx");
    path
}
