//! What words ask for beside files, over handed-in words and streams.

ghost use Rattle.std.specs.Prelude.{◌≡◌, ◌≢◌, ◌↔◌, ◌∷◌, [], List, ℕ, IfErr, IfOk, IfSome, IsNone, IsTrue, codes};
ghost use Rattle.base_streams.specs.Streams.{Wrote};
ghost use Rattle.base_text.specs.Printed.{Told};
ghost use Rattle.program_parts.specs.FaultLines.{fault_line, no_fault_line};
ghost use Rattle.program_parts.specs.declared.no_fault.NoFault.{NoFault as OwnFaultValue};
ghost use Rattle.program_parts.specs.declared.program_fault.ProgramFault.{ProgramFault as FaultValue};
ghost use Rattle.program_about.specs.About.{AskBesideFiles, AskForLine, AskForSheet, AskRightly, IsExplanation, IsOption, IsSheetOfFiles, Tells, statement_words};
ghost use Rattle.program_help.specs.Helps.{texts};
ghost use Rattle.program_about.specs.Versions.{show_text};

use crate::about::SHOW;
use crate::explaining::put_explanations;
use crate::sheet::{Sheet, sheet_of};
use base_streams::Sink;
use base_wire::append;
use program_help::{Asked, asked_in, text_of};
use program_parts::{
    MOST_OF_A_SHORT_FILE, NoFault, ProgramFault, exit_status, parse_committee, read_committee,
    read_named, write_out,
};
use std::alloc::{AllocError, Global};
use std::fs::{File, Files};

/// It was told.
const TOLD: u8 = 0;

/// The line is not known.
const UNKNOWN: u8 = 1;

/// Whether words ask for something beside files.
pub fn asks_about(words: &[String]) -> bool
    ensures { IsTrue result ↔ AskBesideFiles (texts words.now) }
{
    match words {
        [option, ..] => is_option(option.as_str()),
        [] => false,
    }
}

fn is_option(word: &str) -> bool
    ensures { IsTrue result ↔ IsOption word.now }
{
    matches!(word, "--version" | "--help" | "--explain" | "--statement")
}

/// Tells what the words ask for beside files, and answers the exit status: 0 where it was told, 1 where a line is not known or a verdict
/// is refused, else 2. It goes to `out`, and with status 2 a fault's line to `faults`, which is else left alone.
pub fn run_about<F: Files<File = File>, W: Sink, E: Sink>(
    rt: &F,
    alloc: Global,
    words: &[String],
    out: &mut W,
    faults: &mut E,
) -> u8
    ensures told { result ≢ 2 → (text : List ℕ)
        × Tells (texts words.now) result text × Wrote (W.text out.old) (W.text out.new) text }
    ensures silent { result ≢ 2 → faults.new ≡ faults.old }
    ensures given_up { result ≡ 2 → (fault : FaultValue OwnFaultValue)
        × (fault ≡ ProgramFault.Usage → AskRightly (texts words.now) → ⊥)
        × Told (E.text faults.old) (E.text faults.new) (E.failed faults.old) (E.failed faults.new)
        (fault_line no_fault_line fault) }
{
    exit_status(tell(rt, alloc, words, out), faults)
}

fn tell<'a, F: Files<File = File>, W: Sink>(
    rt: &F,
    alloc: Global,
    words: &'a [String],
    out: &mut W,
) -> Result<u8, ProgramFault<'a, NoFault>>
    ensures told { IfOk result (λ status. (text : List ℕ)
        × Tells (texts words.now) status text × Wrote (W.text out.old) (W.text out.new) text) }
    ensures usage { IfErr result (λ fault. fault ≡ ProgramFault.Usage
        → AskRightly (texts words.now) → ⊥) }
{
    let sheet = answer(rt, alloc, words)?;
    write_out(out, &sheet.text)?;
    Ok(sheet.status)
}

fn answer<'a, F: Files<File = File>>(
    rt: &F,
    alloc: Global,
    words: &'a [String],
) -> Result<Sheet, ProgramFault<'a, NoFault>>
    ensures told { IfOk result (λ s. Tells (texts words.now) s.status s.text.items) }
    ensures usage { IfErr result (λ fault. fault ≡ ProgramFault.Usage
        → AskRightly (texts words.now) → ⊥) }
{
    if let Some(asked) = asked_in(words) {
        return Ok(about_itself(alloc, asked)?);
    }
    if let Some(paths) = paths_of(words) {
        return read_sheet(rt, alloc, paths.verdict, paths.committee);
    }
    match line_of(words) {
        Some(line) => Ok(explanation(alloc, line)?),
        None => Err(ProgramFault::Usage),
    }
}

// The files of a sheet.
#[derive(Clone, Copy)]
struct SheetPaths<'a> {
    verdict: &'a str,
    committee: &'a str,
}

// The paths behind `--statement` and `--committee`.
fn paths_of<'a>(words: &'a [String]) -> Option<SheetPaths<'a>>
    ensures none { IsNone result → AskForSheet (texts words.now) → ⊥ }
    ensures some { IfSome result (λ p.
        texts words.now ≡ statement_words p.verdict.now p.committee.now) }
{
    match words {
        [option, verdict, with, committee] => {
            if option.as_str() != "--statement" || with.as_str() != "--committee" {
                return None;
            }
            Some(SheetPaths {
                verdict: verdict.as_str(),
                committee: committee.as_str(),
            })
        }
        _ => None,
    }
}

// The words behind `--explain`, if there is one.
fn line_of<'a>(words: &'a [String]) -> Option<&'a [String]>
    ensures none { IsNone result → AskForLine (texts words.now) → ⊥ }
    ensures some { IfSome result (λ line. (texts line.now ≢ [])
        × (texts words.now ≡ codes "--explain" ∷ texts line.now)) }
{
    match words {
        [option, line @ ..] => {
            if option.as_str() != "--explain" || line.is_empty() {
                return None;
            }
            Some(line)
        }
        [] => None,
    }
}

// What the program is.
fn about_itself(alloc: Global, asked: Asked) -> Result<Sheet, AllocError>
    ensures status { IfOk result (λ s. s.status ≡ 0) }
    ensures text { IfOk result (λ s. s.text.items ≡ show_text asked) }
{
    Ok(Sheet {
        text: text_of(alloc, &SHOW, asked)?,
        status: TOLD,
    })
}

// The sheet of a verdict's file under a committee's.
fn read_sheet<'a, F: Files<File = File>>(
    rt: &F,
    alloc: Global,
    verdict: &'a str,
    committee: &'a str,
) -> Result<Sheet, ProgramFault<'a, NoFault>>
    ensures status { IfOk result (λ s. s.status ≢ 2) }
    ensures sheet { IfOk result (λ s. IsSheetOfFiles s.status s.text.items) }
    ensures asked { IfErr result (λ fault. fault ≢ ProgramFault.Usage) }
{
    let committee = read_committee(rt, alloc, committee)?;
    let verdict = read_named(rt, alloc, verdict, MOST_OF_A_SHORT_FILE)?;
    let view = parse_committee(&committee)?;
    Ok(sheet_of(alloc, &view, &verdict)?)
}

// What is said of a line, whose words stand one by one or in one of these words.
fn explanation(alloc: Global, words: &[String]) -> Result<Sheet, AllocError>
    ensures status { IfOk result (λ s. s.status ≢ 2) }
    ensures said { IfOk result (λ s. IsExplanation s.status s.text.items) }
{
    let mut line = String::new(alloc);
    for word in words {
        if !line.is_empty() {
            line.push(' ')?;
        }
        line.push_str(word)?;
    }
    let mut text = Vec::new(alloc);
    if put_explanations(&mut text, &line)? {
        return Ok(Sheet { text, status: TOLD });
    }
    append(&mut text, b"unknown\n")?;
    Ok(Sheet {
        text,
        status: UNKNOWN,
    })
}
