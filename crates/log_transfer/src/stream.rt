//! Reading of one frame.

ghost use Rattle.std.specs.Prelude.{◌≡◌, ◌<◌, ◌≤◌, ◌+◌, ◌^◌, ℕ, length};
ghost use Rattle.base_wire.specs.declared.limits.TheConstants.{LONGEST_PAYLOAD, MOST_ENTRIES};
ghost use Rattle.log_format.specs.Readings.{unfinished};
ghost use Rattle.log_transfer.specs.Bytes.{IsCameWithin, most_of_frames};
ghost use Rattle.log_transfer.specs.Connections.{Connection};
ghost use Rattle.log_transfer.specs.Streams.{EndsBehind, length_text, IsHead, IsCameBehind, IsCame};
ghost use Rattle.log_transfer.specs.Counting.{IsHeadCounted, IsCameCounted, IsStatusCounted, is_failed};
ghost use Rattle.log_transfer.specs.declared.budget.TheConstants.{MOST_OF_A_STREAM};

use crate::connector::Connector;
use crate::filling::{Filled, fill};
use base_wire::{LONGEST_PAYLOAD, u32_at};
use log_format::Status;

// What came of the length of a frame.
enum Head {
    Length(u32),
    // The connection ended before it, or failed.
    Short(bool),
}

pub(crate) enum Came {
    // A frame, whose payload of so many bytes stands in the buffer.
    Frame(usize),
    // The end.
    End(Status),
}

// The number that four bytes spell.
fn number_of(bytes: &[u8]) -> u32
    requires { length bytes.now ≡ 4 }
    ensures { bytes.now ≡ length_text result }
{
    u32_at(bytes, 0)
}

// The status of a stream that says too little.
pub(crate) fn unfinished(failed: bool) -> Status
    ensures value { result ≡ unfinished failed }
    ensures same { is_failed result ≡ failed }
{
    if failed { Status::Failed } else { Status::Cut }
}

fn read_length<C: Connector>(connector: &mut C) -> Head
    requires { C.taken connector.old + 4 ≤ MOST_OF_A_STREAM }
    ensures head { IsHead (C.left connector.old) (C.left connector.new) result }
    ensures later { (k f m : ℕ) (c : Connection) → C.gives connector.new k f m c
        → C.gives connector.old k f m c }
    ensures bytes { C.taken connector.new ≤ C.taken connector.old + 4 }
    ensures state { (s : C) → C.reaches s connector.old → C.reaches s connector.new }
    ensures counted { IsHeadCounted (C.failed connector.old) (C.failed connector.new) result }
{
    let mut bytes = [0; 4];
    match fill(connector, &mut bytes) {
        Filled::All => Head::Length(number_of(&bytes)),
        Filled::Part(_, failed) => Head::Short(failed),
    }
}

// Reads the rest of an end mark, behind so many frames.
fn read_mark<C: Connector>(connector: &mut C, count: u32) -> Status
    requires { C.taken connector.old + 4 ≤ MOST_OF_A_STREAM }
    ensures ends { (room : ℕ)
        → EndsBehind (C.left connector.old) (length_text 0) count room result }
    ensures later { (k f m : ℕ) (c : Connection) → C.gives connector.new k f m c
        → C.gives connector.old k f m c }
    ensures bytes { C.taken connector.new ≤ C.taken connector.old + 4 }
    ensures state { (s : C) → C.reaches s connector.old → C.reaches s connector.new }
    ensures counted { IsStatusCounted (C.failed connector.old) (C.failed connector.new) result }
{
    let mut bytes = [0; 4];
    match fill(connector, &mut bytes) {
        Filled::All => {
            if number_of(&bytes) == count {
                Status::Whole
            } else {
                Status::Broken
            }
        }
        Filled::Part(_, failed) => unfinished(failed),
    }
}

// Reads what stands behind a length that is not 0.
fn read_payload<C: Connector>(
    connector: &mut C,
    buffer: &mut [u8],
    len: u32,
    count: u32,
    room: u32,
) -> Came
    requires some { 0 < len }
    requires buffer { length buffer.old ≡ LONGEST_PAYLOAD }
    requires few { count + room ≤ MOST_ENTRIES }
    requires bytes { C.taken connector.old ≤ most_of_frames count + 4 }
    ensures came { IsCameBehind (C.left connector.old)
        (C.left connector.new) len count room buffer.new result }
    ensures buffer { length buffer.new ≡ LONGEST_PAYLOAD }
    ensures later { (k f m : ℕ) (c : Connection) → C.gives connector.new k f m c
        → C.gives connector.old k f m c }
    ensures bytes { IsCameWithin count (C.taken connector.new) result }
    ensures state { (s : C) → C.reaches s connector.old → C.reaches s connector.new }
    ensures counted { IsCameCounted (C.failed connector.old) (C.failed connector.new) result }
{
    let len = len as usize;
    if len > LONGEST_PAYLOAD {
        return Came::End(Status::Broken);
    }
    if room == 0 {
        return Came::End(Status::TooLong);
    }
    match fill(connector, &mut buffer[..len]) {
        Filled::All => Came::Frame(len),
        Filled::Part(_, failed) => Came::End(unfinished(failed)),
    }
}

// Reads one frame, behind so many of this stream, where there is room for so many more.
pub(crate) fn read_frame<C: Connector>(
    connector: &mut C,
    buffer: &mut [u8],
    count: u32,
    room: u32,
) -> Came
    requires buffer { length buffer.old ≡ LONGEST_PAYLOAD }
    requires few { count + room ≤ MOST_ENTRIES }
    requires bytes { C.taken connector.old ≤ most_of_frames count }
    ensures came { IsCame (C.left connector.old)
        (C.left connector.new) count room buffer.new result }
    ensures buffer { length buffer.new ≡ LONGEST_PAYLOAD }
    ensures later { (k f m : ℕ) (c : Connection) → C.gives connector.new k f m c
        → C.gives connector.old k f m c }
    ensures bytes { IsCameWithin count (C.taken connector.new) result }
    ensures state { (s : C) → C.reaches s connector.old → C.reaches s connector.new }
    ensures counted { IsCameCounted (C.failed connector.old) (C.failed connector.new) result }
{
    match read_length(connector) {
        Head::Short(failed) => Came::End(unfinished(failed)),
        Head::Length(0) => Came::End(read_mark(connector, count)),
        Head::Length(len) => read_payload(connector, buffer, len, count, room),
    }
}
