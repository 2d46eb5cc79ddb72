//! The line that names a word of a command line that is not as the program is called.

ghost use Rattle.std.specs.Prelude.{OnErr, OnOk};
ghost use Rattle.base_streams.specs.Counting.{Counts};
ghost use Rattle.base_streams.specs.Streams.{Wrote, WrotePart};
ghost use Rattle.program_parts.specs.FaultLines.{wrong_word_line};

use base_streams::{Fault, Sink, write_all};
use base_text::write_printed;

/// Writes `fault usage `, the word in one line, and a line feed. After a fault of the sink a first part of it was written.
pub fn write_wrong_word<W: Sink>(out: &mut W, word: &str) -> Result<(), Fault>
    ensures ok { OnOk result (Wrote (W.text out.old) (W.text out.new) (wrong_word_line word.now)) }
    ensures err { OnErr result (WrotePart (W.text out.old) (W.text out.new) (wrong_word_line word.now)) }
    ensures counted { Counts (W.failed out.old) (W.failed out.new) result }
{
    write_all(out, b"fault usage ")?;
    write_printed(out, word.as_bytes())?;
    write_all(out, b"\n")
}
