//! The line of a refused committee.

ghost use Rattle.std.specs.Prelude.{◌≡◌, ◌≤◌, length};
ghost use Rattle.base_text.specs.Printed.{refusal_text, committee_line};

use crate::line::Line;
use blocks::CommitteeRefusal;
use itoa::Buffer;

/// `fault committee N NAME`, with the number and the name of the refusal and the replicas that it names.
pub fn committee_fault(refusal: CommitteeRefusal) -> Line
    ensures { result ≡ committee_line refusal }
{
    let mut line = Line::new();
    line.push(b"fault committee ");
    line.push(refusal_text(refusal).as_bytes());
    line.push(b"\n");
    line
}

/// The number and the name of a refusal and the replicas or keys that it names, as `4 Key 2`.
pub fn refusal_text(refusal: CommitteeRefusal) -> Line
    ensures text { result ≡ refusal_text refusal }
    ensures room { length result ≤ 47 }
{
    let mut line = Line::new();
    match refusal {
        CommitteeRefusal::Length => line.push(b"1 Length"),
        CommitteeRefusal::Magic => line.push(b"2 Magic"),
        CommitteeRefusal::Size => line.push(b"3 Size"),
        CommitteeRefusal::KeyCount(replica) => {
            line.push(b"7 KeyCount ");
            line.push(Buffer::new().format(replica).as_bytes());
        }
        CommitteeRefusal::Key(key) => {
            line.push(b"4 Key ");
            line.push(Buffer::new().format(key).as_bytes());
        }
        CommitteeRefusal::SameKey(first, second) => {
            line.push(b"5 SameKey ");
            line.push(Buffer::new().format(first).as_bytes());
            line.push(b" ");
            line.push(Buffer::new().format(second).as_bytes());
        }
        CommitteeRefusal::Weight(replica) => {
            line.push(b"6 Weight ");
            line.push(Buffer::new().format(replica).as_bytes());
        }
    }
    line
}
