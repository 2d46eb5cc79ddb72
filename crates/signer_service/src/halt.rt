//! Why no block or timeout is taken.

ghost use Rattle.signer_service.specs.CallAnswers.{IsHaltTold, halt_line};
ghost use Rattle.signer_service.specs.Responses.{IsLine, IsReady, fields_of_kind, fields_to_retry};

use crate::put_back::put_back_line;
use crate::telling::{tell_asking, tell_put_back};
use crate::writing::{Kind, put};
use blocks::Ballot;
use http::StatusCode;
use http_server::Response;

/// Why no block or timeout is taken.
#[derive(Clone, Copy, Debug)]
pub(crate) enum Halt {
    /// The log was put back, as a vote on this shows.
    PutBack(Ballot),
    /// Logs of others are still asked for votes of this replica.
    Asking,
}

// Tells it to who posts.
pub(crate) fn tell_halt(response: &mut Response, halt: Halt)
    requires { IsReady fields_to_retry response.old }
    ensures { IsHaltTold halt response.new }
{
    match halt {
        Halt::PutBack(ballot) => tell_put_back(response, &ballot),
        Halt::Asking => tell_asking(response),
    }
}

// .. to who asks for the desk's health.
pub(crate) fn tell_unhealthy(response: &mut Response, halt: Halt)
    requires { IsReady (fields_of_kind Kind.Text) response.old }
    ensures { IsLine 503 (halt_line halt) response.new }
{
    response.status = StatusCode::SERVICE_UNAVAILABLE;
    match halt {
        Halt::PutBack(ballot) => put(&mut response.body, &put_back_line(&ballot)),
        Halt::Asking => put(&mut response.body, b"asking\n"),
    }
}
