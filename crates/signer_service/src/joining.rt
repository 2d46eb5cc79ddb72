//! The answer to blocks that came behind each other: their lines.

ghost use Rattle.signer_service.specs.CallAnswers.{IsPutBehind, IsUnheld};

use http::StatusCode;
use http_server::{Response, Rope};
use std::mem::swap;

// Puts these lines in front of what is told, if there is memory for all.
pub(crate) fn put_behind(lines: &mut Rope, response: &mut Response)
    ensures { IsPutBehind lines.old.items response.old response.new }
{
    if lines.is_empty() {
        return;
    }
    if lines.append(&mut response.body).is_err() {
        tell_unheld(response);
        return;
    }
    swap(lines, &mut response.body);
}

// Tells that there was no memory for a line: by the status alone, which needs none.
pub(crate) fn tell_unheld(response: &mut Response)
    ensures { IsUnheld response.new }
{
    response.clear();
    response.status = StatusCode::SERVICE_UNAVAILABLE;
}
