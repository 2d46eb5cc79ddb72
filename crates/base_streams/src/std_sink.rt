//! A sink over a stream of the process.

ghost use Rattle.std.specs.Prelude.{◌≡◌};

use crate::Fault;
use crate::sink::Sink;
use std::io::Write;
use std::marker::Model;

/// Hands bytes on to a stream, such as standard output, and counts a write that takes none of them as a
/// failure. A contract sees what the stream tells of its bytes, which standard output does not, and the
/// failures.
#[derive(Drop)]
pub struct StdSink<W: Write + Drop> {
    stream: W,
    failed: u64,
}

impl<W: Write + Drop> Model for StdSink<W> {
    ghost use Rattle.base_streams.specs.Streams.{Stream};

    ghost Value = { Stream };

    ghost view = { λ s. record { bytes = W.contents s.stream; failures = s.failed } };
}

impl<W: Write + Drop> StdSink<W> {
    /// A sink over the stream, with no failures.
    pub fn new(stream: W) -> StdSink<W>
        ensures bytes { result.bytes ≡ W.contents stream }
        ensures failures { result.failures ≡ 0 }
    {
        StdSink { stream, failed: 0 }
    }
}

impl<W: Write + Drop> Sink for StdSink<W> {
    ghost text = { λ s. s.bytes };

    ghost failed = { λ s. s.failures };

    fn write(&mut self, bytes: &[u8]) -> Result<usize, Fault> {
        match self.stream.write(bytes) {
            Ok(n) if n > 0 || bytes.is_empty() => Ok(n),
            _ => {
                self.failed = self.failed.saturating_add(1);
                Err(Fault)
            }
        }
    }

    fn failures(&self) -> u64 {
        self.failed
    }
}
