//! A feed over a stream of the process.

ghost use Rattle.std.specs.Prelude.{◌≡◌};

use crate::Fault;
use crate::feed::Feed;
use std::io::Read;
use std::marker::Model;

/// Hands bytes on from a stream, such as standard input. A contract sees what the stream tells of the bytes
/// that it has left, which standard input does not, and the failures.
#[derive(Drop)]
pub struct StdFeed<R: Read + Drop> {
    stream: R,
    failed: u64,
}

impl<R: Read + Drop> Model for StdFeed<R> {
    ghost use Rattle.base_streams.specs.Streams.{Stream};

    ghost Value = { Stream };

    ghost view = { λ f. record { bytes = R.remaining f.stream; failures = f.failed } };
}

impl<R: Read + Drop> StdFeed<R> {
    /// A feed over the stream, with no failures.
    pub fn new(stream: R) -> StdFeed<R>
        ensures bytes { result.bytes ≡ R.remaining stream }
        ensures failures { result.failures ≡ 0 }
    {
        StdFeed { stream, failed: 0 }
    }
}

impl<R: Read + Drop> Feed for StdFeed<R> {
    ghost rest = { λ f. f.bytes };

    ghost failed = { λ f. f.failures };

    fn read(&mut self, buffer: &mut [u8]) -> Result<usize, Fault> {
        match self.stream.read(buffer) {
            Ok(n) => Ok(n),
            Err(_) => {
                self.failed = self.failed.saturating_add(1);
                Err(Fault)
            }
        }
    }

    fn failures(&self) -> u64 {
        self.failed
    }
}
