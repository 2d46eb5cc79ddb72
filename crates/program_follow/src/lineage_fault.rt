//! Why the program gives up, and the line that it prints then.

ghost use Rattle.std.specs.Prelude.{◌≡◌};
ghost use Rattle.program_follow.specs.LineageFaultLines.{own_line};

use base_streams::Sink;
use program_parts::{FaultLine, ProgramFault, SourceFault, write_wrong_word};

/// Why the program gives up. Each has exit status 2.
pub type Fault<'a> = ProgramFault<'a, LineageFault<'a>>;

/// What this program alone gives up for.
#[derive(Clone, Copy, Debug)]
pub enum LineageFault<'a> {
    /// This word is not as the program is called.
    Word(&'a str),
    /// The word of this source, counted from 0, names no server.
    Source(usize),
}

impl FaultLine for LineageFault<'_> {
    ghost line = { own_line };

    fn write_line<W: Sink>(&self, out: &mut W) -> Result<(), base_streams::Fault> {
        match self {
            LineageFault::Word(word) => write_wrong_word(out, word),
            LineageFault::Source(i) => SourceFault::Word(*i).write_line(out),
        }
    }
}
