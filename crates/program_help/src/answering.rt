//! What is answered.

ghost use Rattle.std.specs.Prelude.{◌≡◌, ◌≢◌, IfErr, IfOk, OnErr, OnOk};
ghost use Rattle.base_streams.specs.Streams.{Wrote, WrotePart};
ghost use Rattle.base_text.specs.Printed.{Told};
ghost use Rattle.program_parts.specs.FaultLines.{fault_line, no_fault_line};
ghost use Rattle.program_parts.specs.Writes.{CountsOutput, CountsWrites};
ghost use Rattle.program_parts.specs.declared.no_fault.NoFault.{NoFault as OwnFaultValue};
ghost use Rattle.program_parts.specs.declared.program_fault.ProgramFault.{ProgramFault as FaultValue};
ghost use Rattle.program_help.specs.Helps.{IsHelpFault, answer_text, version_line};

use crate::asking::Asked;
use crate::help::{Help, VERSION};
use base_streams::Sink;
use base_wire::append;
use program_parts::{NoFault, ProgramFault, exit_status, write_out};
use std::alloc::{AllocError, Global};

/// Tells what the program is asked, and answers its exit status: 0 where that was written to `out`, else 2, where a first part of it
/// was at the most, and then the fault's line goes to `faults`, which is else left alone. A fault is of memory, or of `out` where a
/// write to it failed.
pub fn run_help<W: Sink, E: Sink>(
    alloc: Global,
    help: &Help,
    asked: Asked,
    out: &mut W,
    faults: &mut E,
) -> u8
    ensures status { result ≢ 2 → result ≡ 0 }
    ensures told { result ≢ 2 → Wrote (W.text out.old) (W.text out.new) (answer_text help.now asked) }
    ensures part { result ≡ 2 → WrotePart (W.text out.old) (W.text out.new) (answer_text help.now asked) }
    ensures no_failure { result ≢ 2 → W.failed out.new ≡ W.failed out.old }
    ensures silent { result ≢ 2 → faults.new ≡ faults.old }
    ensures given_up { result ≡ 2 → (fault : FaultValue OwnFaultValue) × IsHelpFault fault
        × CountsOutput fault (W.failed out.old) (W.failed out.new)
        × Told (E.text faults.old) (E.text faults.new) (E.failed faults.old) (E.failed faults.new)
        (fault_line no_fault_line fault) }
{
    exit_status(tell(alloc, help, asked, out), faults)
}

fn tell<'a, W: Sink>(
    alloc: Global,
    help: &Help,
    asked: Asked,
    out: &mut W,
) -> Result<u8, ProgramFault<'a, NoFault>>
    ensures status { IfOk result (λ status. status ≡ 0) }
    ensures told { OnOk result (Wrote (W.text out.old) (W.text out.new) (answer_text help.now asked)) }
    ensures part { OnErr result (WrotePart (W.text out.old) (W.text out.new) (answer_text help.now asked)) }
    ensures fault { IfErr result IsHelpFault }
    ensures counted { CountsWrites result (W.failed out.old) (W.failed out.new) }
{
    write_out(out, &text_of(alloc, help, asked)?)?;
    Ok(0)
}

/// What the program answers.
pub fn text_of(alloc: Global, help: &Help, asked: Asked) -> Result<Vec<u8>, AllocError>
    ensures { IfOk result (λ text. text.items ≡ answer_text help.now asked) }
{
    match asked {
        Asked::Help => help.text.as_bytes().to_vec(alloc),
        Asked::Version => version(alloc, help),
    }
}

// The line of the version.
#[tactic(auto, unfolding(crate::specs::Helps::version_line))]
fn version(alloc: Global, help: &Help) -> Result<Vec<u8>, AllocError>
    ensures { IfOk result (λ line. line.items ≡ version_line help.now) }
{
    let mut line = Vec::new(alloc);
    append(&mut line, help.name.as_bytes())?;
    append(&mut line, b" ")?;
    append(&mut line, VERSION.as_bytes())?;
    append(&mut line, b"\n")?;
    Ok(line)
}
