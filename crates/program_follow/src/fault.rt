//! Why the program gives up, and the line that it prints then.

ghost use Rattle.std.specs.Prelude.{◌≡◌};
ghost use Rattle.program_follow.specs.FaultLines.{old_key_line, own_line, renewal_fault_line};

use base_streams::{Sink, write_all};
use base_text::Line;
use handover_renewals::RenewalFormRefusal;
use itoa::Buffer;
use program_parts::{FaultLine, ProgramFault, SourceFault, write_wrong_word};

/// Why the program gives up. Each has exit status 2.
pub type Fault<'a> = ProgramFault<'a, FollowFault<'a>>;

/// What this program alone gives up for.
#[derive(Clone, Copy, Debug, PartialEq, Eq)]
pub enum FollowFault<'a> {
    /// The sources of the old committee's logs give no evidence.
    Sources(SourceFault),
    /// 8: the key of this number of the new committee is one of the old committee too, its slot may not keep it, and it is the least such
    /// number. A slot, that is a replica by its number, may keep its keys if those of the old committee's slots that are not kept weigh
    /// a quorum of it; it is kept if both committees have it with the same keys in the same order.
    OldKey(u16),
    /// The bytes of the renewal are none.
    Renewal(RenewalFormRefusal),
    /// This word is not as the program is called.
    Word(&'a str),
}

impl FaultLine for FollowFault<'_> {
    ghost line = { own_line };

    fn write_line<W: Sink>(&self, out: &mut W) -> Result<(), base_streams::Fault> {
        match self {
            FollowFault::Sources(fault) => fault.write_line(out),
            FollowFault::OldKey(key) => write_all(out, old_key_fault(*key).as_bytes()),
            FollowFault::Renewal(refusal) => write_all(out, renewal_fault(*refusal).as_bytes()),
            FollowFault::Word(word) => write_wrong_word(out, word),
        }
    }
}

fn old_key_fault(key: u16) -> Line
    ensures { result ≡ old_key_line key }
{
    let mut line = Line::new();
    line.push(b"fault committee 8 OldKey ");
    line.push(Buffer::new().format(key).as_bytes());
    line.push(b"\n");
    line
}

fn renewal_fault(refusal: RenewalFormRefusal) -> Line
    ensures { result ≡ renewal_fault_line refusal }
{
    let mut line = Line::new();
    line.push(b"fault renewal ");
    line.push(Buffer::new().format(refusal.number()).as_bytes());
    line.push(b" ");
    line.push(refusal.name().as_bytes());
    line.push(b"\n");
    line
}
