//! Whether a block could get a vote.

ghost use Rattle.std.specs.Prelude.{◌≡◌, ◌++◌, codes};
ghost use Rattle.signer_service.specs.Healths.{IsHealthTold, trouble_of};
ghost use Rattle.signer_service.specs.Responses.{IsLine, IsReady, fields_of_kind};

use crate::telling::{put_desk, tell_text};
use crate::writing::Kind;
use http::StatusCode;
use http_server::Response;
use replica_core::{CoreRefusal, MOST_HEADERS};
use vote_desk::{DeskError, DeskStatus};

// Tells whether a block could get a vote of a desk that is at this.
pub(crate) fn tell_health(response: &mut Response, status: &DeskStatus)
    requires { IsReady (fields_of_kind Kind.Text) response.old }
    ensures { IsHealthTold status.now response.new }
{
    match trouble_of(status) {
        Some(trouble) => {
            response.status = StatusCode::SERVICE_UNAVAILABLE;
            put_desk(&mut response.body, trouble);
        }
        None => tell_text(response, b"ok\n"),
    }
}

pub(crate) fn trouble_of(status: &DeskStatus) -> Option<DeskError>
    ensures { result ≡ trouble_of status.now }
{
    if status.stopped {
        return Some(DeskError::Stopped);
    }
    if status.left.entries == 0 {
        return Some(DeskError::LogFull);
    }
    if status.left.indices == 0 {
        return Some(DeskError::KeySpent);
    }
    if status.headers >= MOST_HEADERS {
        return Some(DeskError::Core(CoreRefusal::TreeFull));
    }
    None
}
