//! The program over handed-in words and streams, so that tests run it whole.

ghost use Rattle.std.specs.Prelude.{◌≡◌, ◌≢◌, ◌⊎◌, ◌==◌, ◌&&◌, ℕ, Bool, List, IfErr, IfOk, codes, if◌then◌else◌};
ghost use Rattle.base_streams.specs.Streams.{Wrote};
ghost use Rattle.base_text.specs.Printed.{Told};
ghost use Rattle.program_parts.specs.Writes.{CountsWrites};
ghost use Rattle.program_parts.specs.declared.no_fault.NoFault.{NoFault as OwnFaultValue};
ghost use Rattle.program_parts.specs.declared.program_fault.ProgramFault.{ProgramFault as FaultValue};
ghost use Rattle.program_show.specs.FaultLines.{show_fault_line};
ghost use Rattle.program_show.specs.Faults.{GivesUp, IsStopped};
ghost use Rattle.program_show.specs.Showing.{ArePrinted, ShowsAll};
ghost use Rattle.program_show.specs.Words.{IsUsage, paths_in};

use crate::printing::print_file;
use crate::words::read_words;
use base_streams::Sink;
use certificates::CommitteeView;
use program_parts::{
    NoFault, ProgramFault, exit_status, parse_committee, read_committee, read_named,
};
use std::alloc::Global;
use std::fs::{File, Files};

/// Each file was shown, and is one of a kind that there is.
pub const SHOWN: u8 = 0;

/// Each file was shown, and one at least is of no kind, or begins as one of a kind and is none.
pub const NOT_WHOLE: u8 = 1;

/// How much of a file is read, in bytes: as long as a journal can be up to the gate behind its last entry. An export
/// can't be as long.
const MOST_OF_A_FILE: u64 = 8 + 4_096 * (1 + 4 + 65_536) + 1;

/// Shows the files that the words name, one after the other, and answers the exit status: `SHOWN`, `NOT_WHOLE`, else 2. The
/// lines go to `out`, and with status 2 a fault's line to `faults`, which is else left alone.
pub fn run_show<F: Files<File = File>, W: Sink, E: Sink>(
    rt: &F,
    alloc: Global,
    words: &[String],
    out: &mut W,
    faults: &mut E,
) -> u8
    ensures status { (result ≡ 0) ⊎ ((result ≡ 1) ⊎ (result ≡ 2)) }
    ensures shown { result ≢ 2 → (text : List ℕ)
        × ShowsAll words.now text (result == 0) × Wrote (W.text out.old) (W.text out.new) text }
    ensures silent { result ≢ 2 → faults.new ≡ faults.old }
    ensures no_failure { result ≢ 2 → W.failed out.new ≡ W.failed out.old }
    ensures usage { IsUsage words.now → (result ≡ 2)
        × Told (E.text faults.old) (E.text faults.new) (E.failed faults.old) (E.failed faults.new)
        (codes "fault usage\n") }
    ensures told { result ≡ 2 → (fault : FaultValue OwnFaultValue)
        × GivesUp words.now fault W.text W.failed out.old out.new
        × Told (E.text faults.old) (E.text faults.new) (E.failed faults.old) (E.failed faults.new)
        (show_fault_line fault) }
{
    exit_status(run(rt, alloc, words, out), faults)
}

fn run<'a, F: Files<File = File>, W: Sink>(
    rt: &F,
    alloc: Global,
    words: &'a [String],
    out: &mut W,
) -> Result<u8, ProgramFault<'a, NoFault>>
    ensures shown { IfOk result (λ status. (are_whole : Bool) × (text : List ℕ)
        × (status ≡ (if are_whole then 0 else 1)) × ShowsAll words.now text are_whole
        × Wrote (W.text out.old) (W.text out.new) text) }
    ensures no_failure { IfOk result (λ status. W.failed out.new ≡ W.failed out.old) }
    ensures given_up { IfErr result (λ fault.
        GivesUp words.now fault W.text W.failed out.old out.new) }
{
    let asked = read_words(alloc, words)?;
    let Some(path) = asked.committee else {
        let are_whole = show_files(rt, alloc, &asked.files, &None, out)?;
        return Ok(status_of(are_whole));
    };
    let bytes = read_committee(rt, alloc, path)?;
    let committee = parse_committee(&bytes)?;
    let are_whole = show_files(rt, alloc, &asked.files, &Some(committee), out)?;
    Ok(status_of(are_whole))
}

fn status_of(are_whole: bool) -> u8
    ensures { result ≡ (if are_whole then 0 else 1) }
{
    if are_whole { SHOWN } else { NOT_WHOLE }
}

// Whether all files are whole.
fn show_files<'a, F: Files<File = File>, W: Sink>(
    rt: &F,
    alloc: Global,
    paths: &[&'a str],
    committee: &Option<CommitteeView>,
    out: &mut W,
) -> Result<bool, ProgramFault<'a, NoFault>>
    ensures shown { IfOk result (λ are_whole. (text : List ℕ)
        × ArePrinted committee.now (paths_in paths.now) text are_whole
        × Wrote (W.text out.old) (W.text out.new) text) }
    ensures stopped { IfErr result (λ fault. IsStopped committee.now (paths_in paths.now) fault
        (W.text out.old) (W.text out.new)) }
    ensures counted { CountsWrites result (W.failed out.old) (W.failed out.new) }
{
    let mut are_whole = true;
    for path in paths {
        let bytes = read_named(rt, alloc, path, MOST_OF_A_FILE)?;
        let is_whole = print_file(alloc, committee, path, bytes, out)?;
        are_whole = both(are_whole, is_whole);
    }
    Ok(are_whole)
}

fn both(a: bool, b: bool) -> bool
    ensures { result ≡ (a && b) }
{
    a && b
}
