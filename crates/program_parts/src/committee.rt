//! The files that programs name by words, and the committees in them.

ghost use Rattle.std.specs.Prelude.{◌≡◌, ◌≤◌, Err, IfErr, IfOk, length};
ghost use Rattle.blocks.specs.Committees.{IsCommittee};
ghost use Rattle.blocks.specs.CommitteeReading.{committee_in};
ghost use Rattle.blocks.specs.declared.committee.CommitteeRefusal.{CommitteeRefusal as RefusalValue};
ghost use Rattle.program_parts.specs.Faults.{IsMemoryOr};
ghost use Rattle.program_parts.specs.declared.committee.TheConstants.{MOST_OF_A_SHORT_FILE};

use crate::input::read_file;
use crate::program_fault::{FaultLine, ProgramFault};
use blocks::{CommitteeRefusal, CommitteeView};
use std::alloc::Global;
use std::fs::{File, Files};

/// How much of a committee's or a verdict's file is read, in bytes. The greatest committee has 7,200.
pub const MOST_OF_A_SHORT_FILE: u64 = 16_384;

// As the manual pages say.
const _: () = prove!(MOST_OF_A_SHORT_FILE == 16_384);

/// The first bytes of the file that a word names, `most` of them at most. What lies behind is not read.
pub fn read_named<'a, T: FaultLine, F: Files<File = File>>(
    files: &F,
    alloc: Global,
    path: &'a str,
    most: u64,
) -> Result<Vec<u8>, ProgramFault<'a, T>>
    ensures few { IfOk result (λ bytes. length bytes.items ≤ most) }
    ensures refused { IfErr result (IsMemoryOr (ProgramFault.File path.entry)) }
{
    match read_file(files, alloc, path, most) {
        Ok(bytes) => Ok(bytes),
        Err(why) => Err(ProgramFault::of_input(why, ProgramFault::File(path))),
    }
}

/// The first bytes of a committee's file, as many as a committee can have.
pub fn read_committee<'a, T: FaultLine, F: Files<File = File>>(
    files: &F,
    alloc: Global,
    path: &'a str,
) -> Result<Vec<u8>, ProgramFault<'a, T>>
    ensures few { IfOk result (λ bytes. length bytes.items ≤ MOST_OF_A_SHORT_FILE) }
    ensures refused { IfErr result (IsMemoryOr (ProgramFault.File path.entry)) }
{
    read_named(files, alloc, path, MOST_OF_A_SHORT_FILE)
}

/// The committee that these bytes are, or why they are none.
pub fn parse_committee<'a, 'b, T: FaultLine>(
    bytes: &'b [u8],
) -> Result<CommitteeView<'b>, ProgramFault<'a, T>>
    ensures found { IfOk result (λ committee. (committee ≡ bytes.now) × IsCommittee bytes.now) }
    ensures refused { IfErr result (λ fault. (r : RefusalValue) × (committee_in bytes.now ≡ Err r)
        × (fault ≡ ProgramFault.Committee r)) }
{
    match CommitteeView::parse(bytes) {
        Ok(committee) => Ok(committee),
        Err(refusal) => Err(ProgramFault::Committee(refusal)),
    }
}
