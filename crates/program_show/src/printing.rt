//! What is shown of a file, as it is printed.

ghost use Rattle.std.specs.Prelude.{◌≡◌, ◌⊎◌, ◌++◌, List, ℕ, Bool, IfErr, IfOk, IsErrOf, OnErr, OnOk};
ghost use Rattle.base_streams.specs.Counting.{Counts, one_more};
ghost use Rattle.base_streams.specs.Streams.{Wrote, WrotePart};
ghost use Rattle.program_show.specs.Files.{IsPrinted};
ghost use Rattle.program_show.specs.Lines.{path_line};

use crate::page::{Page, show};
use base_streams::{Fault, Sink, write_all};
use base_text::write_printed;
use certificates::CommitteeView;
use program_parts::{NoFault, ProgramFault};
use std::alloc::Global;

/// Prints the line that names a file, and what is shown of these bytes of it, and answers whether they are whole of a
/// kind that there is. What is shown is made whole before the first write. In this order: `Memory`, `Output`.
pub fn print_file<'a, W: Sink>(
    alloc: Global,
    committee: &Option<CommitteeView>,
    path: &str,
    bytes: Vec<u8>,
    out: &mut W,
) -> Result<bool, ProgramFault<'a, NoFault>>
    ensures ok { IfOk result (λ is_whole. (text : List ℕ)
        × IsPrinted committee.now path.now bytes.items text is_whole
        × Wrote (W.text out.old) (W.text out.new) text) }
    ensures no_failure { OnOk result (W.failed out.new ≡ W.failed out.old) }
    ensures memory { IsErrOf result ProgramFault.Memory → out.new ≡ out.old }
    ensures output { IsErrOf result ProgramFault.Output → (text : List ℕ) × (is_whole : Bool)
        × IsPrinted committee.now path.now bytes.items text is_whole
        × WrotePart (W.text out.old) (W.text out.new) text }
    ensures cause { IsErrOf result ProgramFault.Output
        → W.failed out.new ≡ one_more (W.failed out.old) }
    ensures only { IfErr result (λ fault. (fault ≡ ProgramFault.Memory)
        ⊎ (fault ≡ ProgramFault.Output)) }
{
    let page = show(alloc, committee, bytes)?;
    match print_page(path, &page.text, out) {
        Ok(()) => Ok(page.is_whole),
        Err(_) => Err(ProgramFault::Output),
    }
}

// Writes the line that names a file, and this text behind it. After a fault a first part was written.
fn print_page<W: Sink>(path: &str, text: &[u8], out: &mut W) -> Result<(), Fault>
    ensures ok { OnOk result (Wrote (W.text out.old) (W.text out.new) (path_line path.now
        ++ text.now)) }
    ensures err { OnErr result (WrotePart (W.text out.old) (W.text out.new) (path_line path.now
        ++ text.now)) }
    ensures counted { Counts (W.failed out.old) (W.failed out.new) result }
{
    write_all(out, b"file ")?;
    write_printed(out, path.as_bytes())?;
    write_all(out, b"\n")?;
    write_all(out, text)
}
