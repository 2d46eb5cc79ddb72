//! What stands at the front of what came of a stream.

ghost use Rattle.std.specs.Prelude.{◌≡◌, ◌≤◌, length};
ghost use Rattle.base_wire.specs.Pieces.{number_at};
ghost use Rattle.log_transfer.specs.Pulled.{Decides, IsAtFront};

use base_wire::{LONGEST_PAYLOAD, u32_at};
use log_format::Status;

// What stands at the front of what came.
pub(crate) enum Front<'a> {
    // A whole frame: its payload, and what stands behind it.
    Frame(&'a [u8], &'a [u8]),
    // The end.
    End(Status),
    // Too little to say.
    Open,
}

// What a length of 0 begins, behind `count` frames.
fn mark_of<'a>(rest: &'a [u8], count: usize, _room: usize) -> Front<'a>
    requires came { 4 ≤ length rest.now }
    requires none { number_at 4 rest.now 0 ≡ 0 }
    ensures { IsAtFront count _room rest.now result }
{
    if rest.len() < 8 {
        return Front::Open;
    }
    if u32_at(rest, 4) as usize == count {
        Front::End(Status::Whole)
    } else {
        Front::End(Status::Broken)
    }
}

// What stands at the front, behind `count` frames, where there is room for so many more.
pub(crate) fn front_of<'a>(rest: &'a [u8], count: usize, room: usize) -> Front<'a>
    ensures { IsAtFront count room rest.now result }
{
    if rest.len() < 4 {
        return Front::Open;
    }
    let len = u32_at(rest, 0);
    if len == 0 {
        return mark_of(rest, count, room);
    }
    let len = len as usize;
    if len > LONGEST_PAYLOAD {
        return Front::End(Status::Broken);
    }
    if room == 0 {
        return Front::End(Status::TooLong);
    }
    if rest.len() - 4 < len {
        return Front::Open;
    }
    Front::Frame(&rest[4..4 + len], &rest[4 + len..])
}
