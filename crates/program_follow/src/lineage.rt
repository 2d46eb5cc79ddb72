//! The program over handed-in words and streams, so that tests run it whole.

ghost use Rattle.std.specs.Prelude.{◌≡◌, ◌≢◌, ◌⊎◌, ℕ, List, IfErr, IfOk};
ghost use Rattle.base_streams.specs.Streams.{Wrote};
ghost use Rattle.base_text.specs.Printed.{Told};
ghost use Rattle.program_parts.specs.declared.program_fault.ProgramFault.{ProgramFault as FaultValue};
ghost use Rattle.program_follow.specs.LineageFaultLines.{lineage_fault_line};
ghost use Rattle.program_follow.specs.LineageOutputs.{GivesUp, IsOutput};
ghost use Rattle.program_follow.specs.LineageWords.{NameLineage};
ghost use Rattle.program_follow.specs.declared.lineage_fault.LineageFault.{LineageFault as OwnFaultValue};

use crate::finding::{LineageHost, find_lineage};
use crate::lineage_fault::Fault;
use crate::lineage_words::read_words;
use base_streams::Sink;
use program_parts::{exit_status, write_out};
use std::alloc::Global;
use std::fs::{File, Files};
use std::net::{Net, TcpStream};
use std::time::Clock;

/// Follows the lineage that the words ask for, `C0 --lineage DIR [--fetch SOURCE..]`: judges the steps in the folder, and, where all are there
/// and good, asks the sources that are servers for what comes next, judges that and stores it. Answers the exit status: 0 where all steps
/// were followed, 1 where one was refused or is missing, else 2. The lines go to `out`, and with status 2 a fault's line to `faults`,
/// which is else left alone. Nothing is printed before all else is done.
pub fn run_lineage<'a, F: Files<File = File>, T: Net<Stream = TcpStream> + Clock, W: Sink, E: Sink>(
    files: &'a F,
    rt: &'a T,
    alloc: Global,
    words: &'a [String],
    out: &mut W,
    faults: &mut E,
) -> u8
    requires { NameLineage words.now }
    ensures status { (result ≡ 0) ⊎ ((result ≡ 1) ⊎ (result ≡ 2)) }
    ensures printed { result ≢ 2 → (text : List ℕ) × IsOutput words.now result text
        × Wrote (W.text out.old) (W.text out.new) text }
    ensures silent { result ≢ 2 → faults.new ≡ faults.old }
    ensures no_failure { result ≢ 2 → W.failed out.new ≡ W.failed out.old }
    ensures told { result ≡ 2 → (fault : FaultValue OwnFaultValue)
        × GivesUp words.now fault W.text W.failed out.old out.new
        × Told (E.text faults.old) (E.text faults.new) (E.failed faults.old) (E.failed faults.new)
        (lineage_fault_line fault) }
{
    let host = LineageHost { files, rt, alloc };
    exit_status(run(&host, words, out), faults)
}

fn run<'a, F: Files<File = File>, T: Net<Stream = TcpStream> + Clock, W: Sink>(
    host: &LineageHost<'a, F, T>,
    words: &'a [String],
    out: &mut W,
) -> Result<u8, Fault<'a>>
    ensures printed { IfOk result (λ status. (status ≢ 2) × ((text : List ℕ)
        × IsOutput words.now status text × Wrote (W.text out.old) (W.text out.new) text)) }
    ensures no_failure { IfOk result (λ status. W.failed out.new ≡ W.failed out.old) }
    ensures given_up { IfErr result (λ fault.
        GivesUp words.now fault W.text W.failed out.old out.new) }
{
    let asked = read_words(host.alloc, words)?;
    let found = find_lineage(host, &asked)?;
    write_out(out, &found.text)?;
    Ok(found.status)
}
