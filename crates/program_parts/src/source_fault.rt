//! What a program that reads the logs of replicas gives up for.

ghost use Rattle.std.specs.Prelude.{◌≡◌, ◌++◌, codes, decimal};
ghost use Rattle.program_parts.specs.FaultLines.{source_fault_line};

use crate::program_fault::FaultLine;
use base_streams::{Fault, Sink, write_all};
use base_text::Line;
use itoa::Buffer;

/// Why sources of logs give no evidence.
#[derive(Clone, Copy, Debug, PartialEq, Eq)]
pub enum SourceFault {
    /// The word of this source, counted from 0, is not as written.
    Word(usize),
    /// Two different headers in evidence have one id.
    Collision,
}

impl FaultLine for SourceFault {
    ghost line = { source_fault_line };

    fn write_line<W: Sink>(&self, out: &mut W) -> Result<(), Fault> {
        match self {
            SourceFault::Word(i) => write_all(out, word_fault(*i).as_bytes()),
            SourceFault::Collision => write_all(out, b"fault collision\n"),
        }
    }
}

fn word_fault(i: usize) -> Line
    ensures { result ≡ codes "fault source " ++ decimal i ++ codes "\n" }
{
    let mut line = Line::new();
    line.push(b"fault source ");
    line.push(Buffer::new().format(i).as_bytes());
    line.push(b"\n");
    line
}
