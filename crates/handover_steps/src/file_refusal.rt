//! Why a file is as if it were not there, and the line that says so.

ghost use Rattle.std.specs.Prelude.{◌≡◌};
ghost use Rattle.handover_steps.specs.Successors.{successor_line};

use base_text::{Line, refusal_text};
use blocks::CommitteeRefusal;
use itoa::Buffer;

/// Why the file of the committee that may come next is as if it were not there.
#[derive(Clone, Copy, Debug, PartialEq, Eq)]
pub enum SuccessorRefusal {
    /// It can't be opened or read.
    NotRead,
    /// It is no committee's.
    Committee(CommitteeRefusal),
    /// 8: the key of this number is a key of the old committee too, or of one of the earlier ones, its slot is not exempt, and it
    /// is the least such number. A slot, that is a replica by its number, is kept if the old committee and this one have it with
    /// the same keys in the same order. It is exempt if it is kept and the old committee's slots that are not kept weigh at least
    /// a quorum of it.
    OldKey(u16),
}

impl SuccessorRefusal {
    /// `successor not read`, or `successor N NAME` with the number and the name that docs/REFUSALS.md gives it and what it
    /// names.
    pub fn line(self) -> Line
        ensures { result ≡ successor_line self }
    {
        let mut line = Line::new();
        match self {
            SuccessorRefusal::NotRead => line.push(b"successor not read"),
            SuccessorRefusal::Committee(refusal) => {
                line.push(b"successor ");
                line.push(refusal_text(refusal).as_bytes());
            }
            SuccessorRefusal::OldKey(key) => {
                line.push(b"successor 8 OldKey ");
                line.push(Buffer::new().format(key).as_bytes());
            }
        }
        line.push(b"\n");
        line
    }
}
