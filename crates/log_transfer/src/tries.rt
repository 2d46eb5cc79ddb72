//! What connectors over files and sockets share.

ghost use Rattle.std.specs.Prelude.{◌≡◌, ◌≤◌, IfOk, IsErr, Ok, OnErr, length};
ghost use Rattle.std.specs.Io.KnownBytes.{ReadConsumes};
ghost use Rattle.base_streams.specs.Counting.{Counts};

use base_streams::Fault;
use std::io;
use std::io::{ErrorKind, Read};

// How often a read is tried that signals interrupt.
const MOST_INTERRUPTIONS: u32 = 100;

// What a call answers where no connection is open.
pub(crate) fn no_connection() -> io::Error {
    io::Error::from(ErrorKind::NotConnected)
}

// Fills the front of the buffer, and tries again where a signal came between.
pub(crate) fn read_some<R: Read>(stream: &mut R, buffer: &mut [u8]) -> io::Result<usize>
    ensures within { IfOk result (λ n. n ≤ length buffer.new) }
    ensures length { length buffer.new ≡ length buffer.old }
    ensures bytes { ReadConsumes (R.remaining stream.old)
        (R.remaining stream.new) result buffer.new }
{
    for _ in 0..MOST_INTERRUPTIONS {
        match stream.read(buffer) {
            Err(error) if error.kind() == ErrorKind::Interrupted => {}
            outcome => return outcome,
        }
    }
    Err(io::Error::from(ErrorKind::Interrupted))
}

// A failed call as a fault, counted.
pub(crate) fn counted<T: Drop>(failures: &mut u64, outcome: io::Result<T>) -> Result<T, Fault>
    ensures counts { Counts failures.old failures.new result }
    ensures risen { failures.old ≤ failures.new }
    ensures kept { IfOk result (λ value. outcome ≡ Ok value) }
    ensures lost { OnErr result (IsErr outcome) }
{
    match outcome {
        Ok(value) => Ok(value),
        Err(_) => {
            *failures = failures.saturating_add(1);
            Err(Fault)
        }
    }
}
