//! What is told of a handover, and of what is committed behind it.

ghost use Rattle.std.specs.Prelude.{◌≡◌, ◌⊎◌, OnOk};
ghost use Rattle.program_tool.specs.HandedOver.{IsHandoverTold, TellsHandover};

use audit_run::Findings;
use base_streams::{Fault, Sink, write_all};
use handover_search::handover_text;
use std::alloc::Global;

/// Tells of the handover that was found to be committed, if one was, and how many commits are behind it. An error comes where memory or
/// a write is refused; the line may then be told in part.
pub(crate) fn tell_handover<Y: Sink>(
    alloc: Global,
    found: &Findings,
    whys: &mut Y,
) -> Result<(), Fault>
    ensures told { OnOk result (IsHandoverTold found.now.evidence found.now.report
        (Y.text whys.old) (Y.text whys.new)) }
    ensures alone { (whys.new ≡ whys.old) ⊎ TellsHandover (Y.text whys.old) (Y.text whys.new) }
{
    let Ok(line) = handover_text(alloc, &found.evidence, &found.report) else {
        return Err(Fault);
    };
    if line.is_empty() {
        return Ok(());
    }
    write_all(whys, &line)
}
