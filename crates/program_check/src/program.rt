//! The program over handed-in words and streams, so that tests run it whole.

ghost use Rattle.std.specs.Prelude.{◌≡◌, ◌≢◌, ℕ, List, IfErr, IfOk, codes};
ghost use Rattle.base_streams.specs.Streams.{Wrote};
ghost use Rattle.base_text.specs.Printed.{Told};
ghost use Rattle.program_parts.specs.declared.program_fault.ProgramFault.{ProgramFault as FaultValue};
ghost use Rattle.program_check.specs.FaultLines.{check_fault_line};
ghost use Rattle.program_check.specs.Faults.{GivesUp, IsCause};
ghost use Rattle.program_check.specs.Judgements.{AreTexts, ComesTo};
ghost use Rattle.program_check.specs.Words.{IsUsage};
ghost use Rattle.program_check.specs.declared.fault.CheckFault.{CheckFault as OwnFaultValue};

use crate::fault::CheckFault;
use crate::input::Texts;
use crate::judge::judge_verdict;
use base_streams::Sink;
use program_parts::{ProgramFault, exit_status, parse_committee, write_out};
use std::alloc::Global;
use std::fs::{File, Files};
use std::io::Read;

/// Judges the verdict that the words name, or with no words the one on standard input, and answers the exit status: 0 where it
/// is accepted, 1 where it is refused, else 2. The judgement goes to `out`, and with status 2 a fault's line to `faults`, which
/// is else left alone.
pub fn run_program<F: Files<File = File>, R: Read + Drop, W: Sink, E: Sink>(
    rt: &F,
    alloc: Global,
    words: &[String],
    stdin: R,
    out: &mut W,
    faults: &mut E,
) -> u8
    ensures judged { result ≢ 2 → (line : List ℕ)
        × ComesTo words.now (R.remaining stdin) result line
        × Wrote (W.text out.old) (W.text out.new) line }
    ensures silent { result ≢ 2 → faults.new ≡ faults.old }
    ensures no_failure { result ≢ 2 → W.failed out.new ≡ W.failed out.old }
    ensures usage { IsUsage words.now → (result ≡ 2)
        × Told (E.text faults.old) (E.text faults.new) (E.failed faults.old) (E.failed faults.new)
        (codes "fault usage\n") }
    ensures told { result ≡ 2 → (fault : FaultValue OwnFaultValue)
        × GivesUp words.now (R.remaining stdin) fault W.text W.failed out.old out.new
        × Told (E.text faults.old) (E.text faults.new) (E.failed faults.old) (E.failed faults.new)
        (check_fault_line fault) }
{
    exit_status(judge(rt, alloc, words, stdin, out), faults)
}

fn judge<'a, F: Files<File = File>, R: Read + Drop, W: Sink>(
    rt: &F,
    alloc: Global,
    words: &'a [String],
    stdin: R,
    out: &mut W,
) -> Result<u8, ProgramFault<'a, CheckFault>>
    ensures judged { IfOk result (λ status. (line : List ℕ)
        × ComesTo words.now (R.remaining stdin) status line
        × Wrote (W.text out.old) (W.text out.new) line) }
    ensures no_failure { IfOk result (λ status. W.failed out.new ≡ W.failed out.old) }
    ensures given_up { IfErr result (λ fault.
        GivesUp words.now (R.remaining stdin) fault W.text W.failed out.old out.new) }
{
    let texts = read_texts(rt, alloc, words, stdin)?;
    let committee = parse_committee(&texts.committee)?;
    let judgement = judge_verdict(&committee, &texts.verdict);
    write_out(out, judgement.line.as_bytes())?;
    Ok(judgement.status)
}

// The texts that the words name, or with no words those that standard input spells.
fn read_texts<'a, F: Files<File = File>, R: Read + Drop>(
    rt: &F,
    alloc: Global,
    words: &'a [String],
    stdin: R,
) -> Result<Texts, ProgramFault<'a, CheckFault>>
    ensures read { IfOk result (λ texts.
        AreTexts words.now (R.remaining stdin) texts.committee.items texts.verdict.items) }
    ensures refused { IfErr result (λ fault. IsCause words.now (R.remaining stdin) fault
        × (fault ≢ ProgramFault.Output)) }
{
    match words {
        [] => Texts::from_lines(alloc, stdin),
        [committee, verdict] if !committee.is_empty() && !verdict.is_empty() => {
            Texts::from_files(rt, alloc, committee.as_str(), verdict.as_str())
        }
        _ => Err(ProgramFault::Usage),
    }
}
