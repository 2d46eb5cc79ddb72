//! A program that gives up for nothing of its own.

ghost use Rattle.program_parts.specs.FaultLines.{no_fault_line};

use crate::program_fault::FaultLine;
use base_streams::{Fault, Sink, write_all};

/// No fault of its own: nobody makes one. Its line would be that of `Usage`, so that the lines of such a program are just
/// those that every program may print.
#[derive(Clone, Copy, Debug)]
pub struct NoFault(());

impl FaultLine for NoFault {
    ghost line = { no_fault_line };

    fn write_line<W: Sink>(&self, out: &mut W) -> Result<(), Fault> {
        write_all(out, b"fault usage\n")
    }
}
