//! What opens the streams of a server's connections.

ghost use Rattle.std.specs.Prelude.{◌≡◌, Bool, [], IfOk, IsTrue, Some};

use std::io;
use std::io::{Read, Write};

/// Opens streams to a server. A contract names what was written to a stream, where its streams tell.
pub trait Dial: Drop {
    /// A stream to the server and back.
    type Stream: Read + Write + Drop;

    /// Whether its streams tell what was written to them.
    ghost tells: { Bool };

    /// Opens a stream to which nothing was written.
    fn dial(&self) -> io::Result<Self::Stream>
        ensures { IfOk result (λ s. IsTrue tells → Self.Stream.Write.contents s ≡ Some []) };
}
