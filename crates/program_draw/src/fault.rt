//! Why the program gives up, and the line that it prints then.

ghost use Rattle.program_draw.specs.FaultLines.{own_line};

use base_streams::Sink;
use program_parts::{FaultLine, ProgramFault, SourceFault, write_wrong_word};

/// Why the program gives up. Each has exit status 2.
pub(crate) type Fault<'a> = ProgramFault<'a, DrawFault<'a>>;

/// What this program alone gives up for.
#[derive(Clone, Copy, Debug)]
pub enum DrawFault<'a> {
    /// The sources give no evidence.
    Sources(SourceFault),
    /// This word is not as the program is called.
    Word(&'a str),
}

impl FaultLine for DrawFault<'_> {
    ghost line = { own_line };

    fn write_line<W: Sink>(&self, out: &mut W) -> Result<(), base_streams::Fault> {
        match self {
            DrawFault::Sources(fault) => fault.write_line(out),
            DrawFault::Word(word) => write_wrong_word(out, word),
        }
    }
}
