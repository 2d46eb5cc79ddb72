//! The program over handed-in words and streams, so that tests run it whole.

ghost use Rattle.std.specs.Prelude.{◌≡◌, ◌≢◌, ◌⊎◌, ℕ, List, IfErr, IfOk, string_bytes};
ghost use Rattle.base_streams.specs.Streams.{Wrote};
ghost use Rattle.base_text.specs.Printed.{Told};
ghost use Rattle.program_parts.specs.declared.program_fault.ProgramFault.{ProgramFault as FaultValue};
ghost use Rattle.program_draw.specs.FaultLines.{draw_fault_line};
ghost use Rattle.program_draw.specs.Faults.{GivesUp, IsPictureFault};
ghost use Rattle.program_draw.specs.Outputs.{IsOutput, IsPictureOf};
ghost use Rattle.program_draw.specs.Words.{IsUsage, first_wrong, usage_fault_line};
ghost use Rattle.program_draw.specs.declared.fault.DrawFault.{DrawFault as OwnFaultValue};

use crate::fault::Fault;
use crate::reading::read_evidence;
use crate::words::{SourceFile, Words, read_words};
use audit_picture::{Purpose, draw, scene_of};
use base_streams::Sink;
use culprit_search::{audit_searched, search_evidence};
use program_parts::{exit_status, parse_committee, read_committee, write_out};
use std::alloc::Global;
use std::fs::{File, Files};
use std::sync::Wait;
use std::thread::Threads;

/// The picture was written, or how the program is called.
pub const DRAWN: u8 = 0;

/// How the program is called.
const USAGE: &[u8] = b"hs_draw COMMITTEE R=file:PATH..\n";

/// Draws what the sources show that the words name, or with no words prints how the program is called, and answers the exit
/// status: `DRAWN`, else 2. The picture goes to `out`, and with status 2 a fault's line to `faults`, which is else left alone.
/// The picture is made whole before the first write.
pub fn run_draw<F: Files<File = File> + Sync, T: Threads + Wait + Sync, W: Sink, E: Sink>(
    files: &F,
    rt: &T,
    alloc: Global,
    words: &[String],
    out: &mut W,
    faults: &mut E,
) -> u8
where
    F::Dir: Send,
    ensures status { (result ≡ 0) ⊎ (result ≡ 2) }
    ensures drawn { result ≢ 2 → (text : List ℕ)
        × IsOutput words.now text × Wrote (W.text out.old) (W.text out.new) text }
    ensures silent { result ≢ 2 → faults.new ≡ faults.old }
    ensures no_failure { result ≢ 2 → W.failed out.new ≡ W.failed out.old }
    ensures usage { IsUsage words.now → (result ≡ 2)
        × Told (E.text faults.old) (E.text faults.new) (E.failed faults.old) (E.failed faults.new)
        (usage_fault_line (first_wrong words.now)) }
    ensures told { result ≡ 2 → (fault : FaultValue OwnFaultValue)
        × GivesUp words.now fault W.text W.failed out.old out.new
        × Told (E.text faults.old) (E.text faults.new) (E.failed faults.old) (E.failed faults.new)
        (draw_fault_line fault) }
{
    exit_status(run(files, rt, alloc, words, out), faults)
}

fn run<'a, F: Files<File = File> + Sync, T: Threads + Wait + Sync, W: Sink>(
    files: &'a F,
    rt: &T,
    alloc: Global,
    words: &'a [String],
    out: &mut W,
) -> Result<u8, Fault<'a>>
where
    F::Dir: Send,
    ensures drawn { IfOk result (λ status. (status ≡ 0) × ((text : List ℕ)
        × IsOutput words.now text × Wrote (W.text out.old) (W.text out.new) text)) }
    ensures no_failure { IfOk result (λ status. W.failed out.new ≡ W.failed out.old) }
    ensures given_up { IfErr result (λ fault.
        GivesUp words.now fault W.text W.failed out.old out.new) }
{
    match read_words(alloc, words)? {
        Words::Usage => {
            write_out(out, USAGE)?;
            Ok(DRAWN)
        }
        Words::Picture { committee, sources } => {
            let picture = picture_of(files, rt, alloc, committee, &sources)?;
            write_out(out, picture.as_bytes())?;
            Ok(DRAWN)
        }
    }
}

// The text of the picture of these sources under the committee of this file.
fn picture_of<'a, F: Files<File = File> + Sync, T: Threads + Wait + Sync>(
    files: &'a F,
    rt: &T,
    alloc: Global,
    committee: &'a str,
    sources: &[SourceFile<'a>],
) -> Result<String, Fault<'a>>
where
    F::Dir: Send,
    ensures drawn { IfOk result (λ text. IsPictureOf sources.now (string_bytes text)) }
    ensures refused { IfErr result (IsPictureFault committee.entry.now sources.now) }
{
    let bytes = read_committee(files, alloc, committee)?;
    let committee = parse_committee(&bytes)?;
    let evidence = read_evidence(files, rt, alloc, &committee, sources)?;
    let searched = search_evidence(alloc, &evidence)?;
    let report = audit_searched(alloc, &evidence, &searched)?;
    let scene = scene_of(alloc, &evidence, &searched, &report)?;
    Ok(draw(alloc, &scene, Purpose::Audit)?)
}
