//! Reads and writes that wait, but not for ever: between short waits it is seen whether the stream is given up.

ghost use Rattle.std.specs.Prelude.{◌≡◌};
ghost use Rattle.std.specs.Duration.{as_nanos};
ghost use Rattle.std.specs.Io.{ReadsAtMost, WritesAtMost};

use std::io;
use std::io::{ErrorKind, Read, Write};
use std::net::TcpStream;
use std::time::Duration;

/// How long one read or write of the system may wait, in milliseconds: so soon an end, or a time that has run out, is noticed.
pub const TICK_MILLISECONDS: u64 = 250;

/// How long one read or write of the system may wait.
pub fn tick() -> Duration
    ensures { as_nanos result ≡ 250_000_000 }
{
    Duration::from_millis(TICK_MILLISECONDS)
}

/// Has each read and write of the stream give up after a tick.
pub fn set_ticks(stream: &TcpStream) -> io::Result<()> {
    stream.set_read_timeout(Some(tick()))?;
    stream.set_write_timeout(Some(tick()))
}

/// What says whether a stream that waits is given up.
pub trait Hold {
    /// An error where it is given up.
    fn look(&self) -> io::Result<()>;
}

/// Reads once from a stream that gives up after a tick, as soon as something comes or its end. An error where it is given up before,
/// and `TimedOut` after so many ticks, so that a clock that stands still keeps nobody for ever.
pub fn read_held<H: Hold>(
    mut stream: &TcpStream,
    hold: &H,
    ticks: u32,
    buffer: &mut [u8],
) -> io::Result<usize>
    ensures { ReadsAtMost result buffer.new }
{
    for _ in 0..ticks {
        hold.look()?;
        match stream.read(buffer) {
            Err(error) if may_go_on(error.kind()) => {}
            outcome => return outcome,
        }
    }
    Err(io::Error::from(ErrorKind::TimedOut))
}

/// Writes once to such a stream, as soon as some bytes are taken.
pub fn write_held<H: Hold>(
    mut stream: &TcpStream,
    hold: &H,
    ticks: u32,
    bytes: &[u8],
) -> io::Result<usize>
    ensures { WritesAtMost result bytes.now }
{
    for _ in 0..ticks {
        hold.look()?;
        match stream.write(bytes) {
            Err(error) if may_go_on(error.kind()) => {}
            outcome => return outcome,
        }
    }
    Err(io::Error::from(ErrorKind::TimedOut))
}

// Whether a read or a write that ended so is tried again: nothing came or was taken, or a signal came between.
pub(crate) fn may_go_on(kind: ErrorKind) -> bool {
    matches!(
        kind,
        ErrorKind::WouldBlock | ErrorKind::TimedOut | ErrorKind::Interrupted
    )
}
