//! Why a program gives up, and the line that it prints then.

ghost use Rattle.std.specs.IoError.{error_kind};
ghost use Rattle.std.specs.Prelude.{◌≡◌, ◌≢◌, ℕ, List, OnOk, OnErr};
ghost use Rattle.base_streams.specs.Counting.{Counts};
ghost use Rattle.base_streams.specs.Streams.{Wrote, WrotePart};
ghost use Rattle.base_text.specs.Printed.{Told};
ghost use Rattle.program_parts.specs.FaultLines.{fault_line};

use crate::fault::InputFault;
use base_streams::{Fault, Sink, write_all};
use base_text::{committee_fault, write_file_fault};
use blocks::CommitteeRefusal;
use std::alloc::{AllocError, AllocFailed};
use std::io::{Error, ErrorKind};

/// Why a program gives up. Each has exit status 2.
#[derive(Clone, Copy, Debug)]
pub enum ProgramFault<'a, T> {
    /// The words are not as the program is called.
    Usage,
    /// Want of memory.
    Memory,
    /// The file at this path can't be opened, read or written, or is not as it must be.
    File(&'a str),
    /// The committee is refused.
    Committee(CommitteeRefusal),
    /// What the program prints could not be written, or not all of it.
    Output,
    /// What this program alone gives up for.
    Own(T),
}

/// What one program alone gives up for.
pub trait FaultLine: Copy {
    /// The line that says so, with its line feed.
    ghost line: { Self → List ℕ };

    /// Writes the line. After a fault of the sink a first part of it was written.
    fn write_line<W: Sink>(&self, out: &mut W) -> Result<(), Fault>
        ensures ok { OnOk result (Wrote (W.text out.old) (W.text out.new) (line self.now)) }
        ensures err { OnErr result (WrotePart (W.text out.old) (W.text out.new) (line self.now)) }
        ensures counted { Counts (W.failed out.old) (W.failed out.new) result };
}

impl<'a, T: FaultLine> ProgramFault<'a, T> {
    /// Why there was no input: want of memory, or else this fault.
    pub fn of_input(why: InputFault, fault: ProgramFault<'a, T>) -> ProgramFault<'a, T>
        ensures memory { why ≡ InputFault.Memory → result ≡ ProgramFault.Memory }
        ensures other { why ≡ InputFault.Unreadable → result ≡ fault.entry }
    {
        match why {
            InputFault::Memory => ProgramFault::Memory,
            InputFault::Unreadable => fault,
        }
    }

    /// What a failed call of the system is: want of memory, or else this fault.
    pub fn unless_memory(error: &Error, fault: ProgramFault<'a, T>) -> ProgramFault<'a, T>
        ensures memory { error_kind error.now ≡ ErrorKind.OutOfMemory
            → result ≡ ProgramFault.Memory }
        ensures other { error_kind error.now ≢ ErrorKind.OutOfMemory → result ≡ fault.entry }
    {
        ProgramFault::of_input(InputFault::of(error), fault)
    }

    /// Writes the fault's line. What a failing sink does not take is lost: there is nowhere else to say it.
    pub fn tell<E: Sink>(&self, faults: &mut E)
        ensures { Told (E.text faults.old) (E.text faults.new) (E.failed faults.old)
            (E.failed faults.new) (fault_line T.line self.now) }
    {
        if self.write_line(faults).is_err() {
            // Nothing is left to tell it by.
        }
    }

    fn write_line<E: Sink>(&self, out: &mut E) -> Result<(), Fault>
        ensures ok { OnOk result (Wrote (E.text out.old) (E.text out.new)
            (fault_line T.line self.now)) }
        ensures err { OnErr result (WrotePart (E.text out.old) (E.text out.new)
            (fault_line T.line self.now)) }
        ensures counted { Counts (E.failed out.old) (E.failed out.new) result }
    {
        match self {
            ProgramFault::Usage => write_all(out, b"fault usage\n"),
            ProgramFault::Memory => write_all(out, b"fault memory\n"),
            ProgramFault::File(path) => write_file_fault(out, path, b""),
            ProgramFault::Committee(refusal) => write_all(
                out,
                committee_fault(*refusal).as_bytes(),
            ),
            ProgramFault::Output => write_all(out, b"fault output\n"),
            ProgramFault::Own(fault) => fault.write_line(out),
        }
    }
}

impl<T> From<AllocError> for ProgramFault<'_, T> {
    ghost use Rattle.program_parts.specs.declared.program_fault.ProgramFault.TheVariants.{Memory};

    ghost from_gives = { λ _ fault. fault ≡ Memory };

    fn from(_refused: AllocError) -> Self {
        ProgramFault::Memory
    }
}

impl<T, V: Drop> From<AllocFailed<V>> for ProgramFault<'_, T> {
    ghost use Rattle.program_parts.specs.declared.program_fault.ProgramFault.TheVariants.{Memory};

    ghost from_gives = { λ _ fault. fault ≡ Memory };

    fn from(_refused: AllocFailed<V>) -> Self {
        ProgramFault::Memory
    }
}
