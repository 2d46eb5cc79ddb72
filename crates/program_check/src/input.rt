//! The two texts that the program judges, from files or from standard input.

ghost use Rattle.std.specs.Prelude.{◌≡◌, ◌≤◌, ◌⊎◌, ℕ, List, Ok, IfErr, IfNone, IfOk, IfSome, length};
ghost use Rattle.hex.specs.Hex.{decode_of};
ghost use Rattle.program_parts.specs.Faults.{IsMemoryOr};
ghost use Rattle.program_check.specs.Faults.{IsStdinFault};
ghost use Rattle.program_check.specs.Judgements.{SpellsNone, SpellsTexts};
ghost use Rattle.program_check.specs.Lines.{AreTwoLines};

use crate::fault::CheckFault;
use base_text::cut;
use program_parts::{MOST_OF_A_SHORT_FILE, ProgramFault, read_at_most, read_committee, read_named};
use std::alloc::Global;
use std::fs::{File, Files};
use std::io::Read;

/// How long standard input may be, in bytes.
const MOST_OF_STDIN: u64 = 65_536;

// As the manual page says.
const _: () = prove!(MOST_OF_STDIN == 65_536);

/// A committee and a verdict, as bytes.
#[derive(Drop)]
pub struct Texts {
    pub committee: Vec<u8>,
    pub verdict: Vec<u8>,
}

impl Texts {
    /// The texts that stand in two files, the committee's first, of each the first 16,384 bytes. A fault is `Memory`, or
    /// `File` of the first that can't be read.
    pub fn from_files<'a, F: Files<File = File>>(
        rt: &F,
        alloc: Global,
        committee: &'a str,
        verdict: &'a str,
    ) -> Result<Texts, ProgramFault<'a, CheckFault>>
        ensures refused { IfErr result (λ fault.
            IsMemoryOr (ProgramFault.File committee.entry) fault
            ⊎ IsMemoryOr (ProgramFault.File verdict.entry) fault) }
    {
        Ok(Texts {
            committee: read_committee(rt, alloc, committee)?,
            verdict: read_named(rt, alloc, verdict, MOST_OF_A_SHORT_FILE)?,
        })
    }

    /// The texts that two lines of hex digits spell, the committee's first, in 65,536 bytes at most. A fault is `Memory`, or
    /// `Hex` where no two texts are spelled so, or `Unreadable`.
    pub fn from_lines<'a, R: Read + Drop>(
        alloc: Global,
        stdin: R,
    ) -> Result<Texts, ProgramFault<'a, CheckFault>>
        ensures spelled { IfOk result (λ texts. IfSome (R.remaining stdin) (λ text.
            SpellsTexts text texts.committee.items texts.verdict.items)) }
        ensures refused { IfErr result (IsStdinFault (R.remaining stdin)) }
    {
        let text = read_lines(alloc, stdin)?;
        spelled_by(alloc, &text)
    }
}

// All of standard input, if it is within its limit.
fn read_lines<'a, R: Read + Drop>(
    alloc: Global,
    stdin: R,
) -> Result<Vec<u8>, ProgramFault<'a, CheckFault>>
    ensures short { IfOk result (λ text. length text.items ≤ MOST_OF_STDIN) }
    ensures whole { IfOk result (λ text. IfSome (R.remaining stdin) (λ all. text.items ≡ all)) }
    ensures refused { IfErr result (IsStdinFault (R.remaining stdin)) }
{
    match read_at_most(alloc, stdin, MOST_OF_STDIN + 1) {
        Ok(text) if text.len() as u64 <= MOST_OF_STDIN => Ok(text),
        Ok(_) => Err(ProgramFault::Own(CheckFault::Hex)),
        Err(why) => Err(ProgramFault::of_input(why, ProgramFault::Own(CheckFault::Unreadable))),
    }
}

// The texts that the lines of a text spell.
fn spelled_by<'a>(alloc: Global, text: &[u8]) -> Result<Texts, ProgramFault<'a, CheckFault>>
    requires { length text.now ≤ MOST_OF_STDIN }
    ensures spelled { IfOk result (λ texts.
        SpellsTexts text.now texts.committee.items texts.verdict.items) }
    ensures refused { IfErr result (λ fault. (fault ≡ ProgramFault.Memory)
        ⊎ ((fault ≡ ProgramFault.Own CheckFault.Hex) × SpellsNone text.now)) }
{
    let Some((committee, verdict)) = two_lines(text) else {
        return Err(ProgramFault::Own(CheckFault::Hex));
    };
    Ok(Texts {
        committee: decoded(alloc, committee)?,
        verdict: decoded(alloc, verdict)?,
    })
}

// The bytes that hex digits spell.
fn decoded<'a>(alloc: Global, digits: &[u8]) -> Result<Vec<u8>, ProgramFault<'a, CheckFault>>
    ensures spelled { IfOk result (λ bytes. decode_of digits.now ≡ Ok bytes.items) }
    ensures refused { IfErr result (λ fault. (fault ≡ ProgramFault.Memory)
        ⊎ ((fault ≡ ProgramFault.Own CheckFault.Hex)
        × ((bytes : List ℕ) → decode_of digits.now ≡ Ok bytes → ⊥))) }
{
    match hex::decode(alloc, digits) {
        Ok(bytes) => Ok(bytes),
        Err(hex::FromHexError::OutOfMemory) => Err(ProgramFault::Memory),
        Err(_) => Err(ProgramFault::Own(CheckFault::Hex)),
    }
}

// The two lines of a text, without their line feeds.
fn two_lines(text: &[u8]) -> Option<(&[u8], &[u8])>
    ensures found { IfSome result (λ lines. AreTwoLines text.now lines.0.now lines.1.now) }
    ensures only { IfNone result ((first second : List ℕ) → AreTwoLines text.now first second → ⊥) }
{
    let Some((first, rest)) = cut(text) else {
        return None;
    };
    match cut(rest) {
        None if rest.is_empty() => None,
        None => Some((first, rest)),
        Some((second, [])) => Some((first, second)),
        Some((_, [_, ..])) => None,
    }
}
