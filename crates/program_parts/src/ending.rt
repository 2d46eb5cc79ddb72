//! How a program writes, and how it ends.

ghost use Rattle.std.specs.Prelude.{◌≡◌, IfErr, IfOk, OnErr, OnOk};
ghost use Rattle.base_streams.specs.Streams.{Wrote, WrotePart};
ghost use Rattle.base_text.specs.Printed.{Told};
ghost use Rattle.program_parts.specs.FaultLines.{fault_line};
ghost use Rattle.program_parts.specs.Writes.{CountsWrites};

use crate::program_fault::{FaultLine, ProgramFault};
use base_streams::{Sink, write_all};

/// The exit status of a program that gave up.
pub const FAULT: u8 = 2;

/// Writes all of the bytes. After `Output` a first part of them was written.
pub fn write_out<'a, T: FaultLine, W: Sink>(
    out: &mut W,
    bytes: &[u8],
) -> Result<(), ProgramFault<'a, T>>
    ensures ok { OnOk result (Wrote (W.text out.old) (W.text out.new) bytes.now) }
    ensures err { OnErr result (WrotePart (W.text out.old) (W.text out.new) bytes.now) }
    ensures refused { IfErr result (λ fault. fault ≡ ProgramFault.Output) }
    ensures counted { CountsWrites result (W.failed out.old) (W.failed out.new) }
{
    match write_all(out, bytes) {
        Ok(()) => Ok(()),
        Err(_) => Err(ProgramFault::Output),
    }
}

/// The exit status of a program: what its work came to, or 2 where it gave up, and then the fault is told.
pub fn exit_status<'a, T: FaultLine, E: Sink>(
    outcome: Result<u8, ProgramFault<'a, T>>,
    faults: &mut E,
) -> u8
    ensures done { IfOk outcome.entry (λ status. (result ≡ status) × (faults.new ≡ faults.old)) }
    ensures told { IfErr outcome.entry (λ fault. (result ≡ 2)
        × Told (E.text faults.old) (E.text faults.new) (E.failed faults.old) (E.failed faults.new)
        (fault_line T.line fault)) }
{
    match outcome {
        Ok(status) => status,
        Err(fault) => {
            fault.tell(faults);
            FAULT
        }
    }
}
