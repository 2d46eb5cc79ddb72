//! How a server shows that it does not know a request.

ghost use Rattle.std.specs.Prelude.{◌↔◌, IsTrue};
ghost use Rattle.log_request.specs.Closings.{GaveNothing, closes};

use std::io;
use std::io::ErrorKind;

// Whether an error of this kind says that the other side closed the connection or broke it off.
fn closes(kind: ErrorKind) -> bool
    ensures { IsTrue result ↔ IsTrue (closes kind) }
{
    matches!(
        kind,
        ErrorKind::ConnectionReset
            | ErrorKind::BrokenPipe
            | ErrorKind::ConnectionAborted
            | ErrorKind::UnexpectedEof
    )
}

/// Whether a read into a buffer with room for so many bytes came to the end of a connection, or was told that the other side broke
/// it off. Other errors, as a wait that takes too long, are no such answer.
pub(crate) fn gave_nothing(outcome: &io::Result<usize>, room: usize) -> bool
    ensures { IsTrue result ↔ GaveNothing outcome.now room }
{
    match outcome {
        Ok(n) => *n == 0 && room > 0,
        Err(error) => closes(error.kind()),
    }
}
