//! Reading of exactly so many bytes of a feed.

ghost use Rattle.std.specs.Prelude.{◌≡◌, IfOk, OnErr, length};
ghost use Rattle.base_streams.specs.Counting.{Counts};
ghost use Rattle.log_server.specs.Serving.{IsFeedFilled, TookFirst};

use base_streams::{Fault, Feed};

/// What came of a buffer.
#[derive(Clone, Copy, Debug, PartialEq, Eq)]
pub enum Filled {
    /// All of it was filled.
    All,
    /// So many bytes came, and then the feed ended.
    Part(usize),
}

/// Reads until the buffer is full, or the feed ends or fails.
pub fn fill<R: Feed>(feed: &mut R, buffer: &mut [u8]) -> Result<Filled, Fault>
    ensures filled { IfOk result (IsFeedFilled (R.rest feed.old) (R.rest feed.new) buffer.new) }
    ensures length { length buffer.new ≡ length buffer.old }
    ensures err { OnErr result (TookFirst (R.rest feed.old) (R.rest feed.new) (length buffer.old)) }
    ensures counted { Counts (R.failed feed.old) (R.failed feed.new) result }
{
    let mut done = 0;
    while done < buffer.len() {
        let n = feed.read(&mut buffer[done..])?;
        if n == 0 {
            return Ok(Filled::Part(done));
        }
        done += n;
    }
    Ok(Filled::All)
}
