//! Reading of exactly so many bytes.

ghost use Rattle.std.specs.Prelude.{◌≡◌, ◌≤◌, ◌+◌, ℕ, length, true, false};
ghost use Rattle.log_transfer.specs.Connections.{Connection};
ghost use Rattle.log_transfer.specs.Streams.{IsBufferFilled};
ghost use Rattle.log_transfer.specs.Counting.{IsFillCounted};
ghost use Rattle.log_transfer.specs.declared.budget.TheConstants.{MOST_OF_A_STREAM};

use crate::connector::Connector;

// What came of a buffer.
pub(crate) enum Filled {
    // All of it.
    All,
    // So many bytes, and then the connection ended, or failed.
    Part(usize, bool),
}

// Reads until the buffer is full, or the connection ends or fails.
pub(crate) fn fill<C: Connector>(connector: &mut C, buffer: &mut [u8]) -> Filled
    requires { C.taken connector.old + length buffer.old ≤ MOST_OF_A_STREAM }
    ensures filled { IsBufferFilled (C.left connector.old)
        (C.left connector.new) buffer.new result }
    ensures length { length buffer.new ≡ length buffer.old }
    ensures later { (k f m : ℕ) (c : Connection) → C.gives connector.new k f m c
        → C.gives connector.old k f m c }
    ensures bytes { C.taken connector.new ≤ C.taken connector.old + length buffer.old }
    ensures state { (s : C) → C.reaches s connector.old → C.reaches s connector.new }
    ensures counted { IsFillCounted (C.failed connector.old) (C.failed connector.new) result }
{
    let mut done = 0;
    while done < buffer.len() {
        match connector.read(&mut buffer[done..]) {
            Ok(0) => return Filled::Part(done, false),
            Ok(n) => done += n,
            Err(_) => return Filled::Part(done, true),
        }
    }
    Filled::All
}
