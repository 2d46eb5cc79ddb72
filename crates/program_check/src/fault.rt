//! Why the program gives up, and the line that it prints then.

ghost use Rattle.program_check.specs.FaultLines.{own_line};

use base_streams::{Fault, Sink, write_all};
use program_parts::FaultLine;

/// What this program alone gives up for. Both have one line.
#[derive(Clone, Copy, Debug, PartialEq, Eq)]
pub enum CheckFault {
    /// Standard input is not two lines of hex digits of whole bytes within its limit.
    Hex,
    /// Standard input can't be read.
    Unreadable,
}

impl FaultLine for CheckFault {
    ghost line = { own_line };

    fn write_line<W: Sink>(&self, out: &mut W) -> Result<(), Fault> {
        match self {
            CheckFault::Hex | CheckFault::Unreadable => write_all(out, b"fault hex\n"),
        }
    }
}
