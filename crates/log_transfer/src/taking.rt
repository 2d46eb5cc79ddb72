//! Taking frames of what came of a stream.

ghost use Rattle.std.specs.Prelude.{◌≡◌, ◌≤◌, ◌-◌, IfOk, OnErr, length, take, drop};
ghost use Rattle.log_format.specs.Readings.{room_beside};
ghost use Rattle.log_transfer.specs.Pulled.{IsTaken, room_of};

use crate::front::{Front, front_of};
use crate::payload::Payload;
use base_wire::MOST_ENTRIES;
use log_format::Status;
use std::alloc::{AllocError, Global};

// How many bytes are left behind the frames that were taken, and the status, if they decide it.
#[derive(Drop)]
pub(crate) struct Taken {
    pub left: usize,
    pub ended: Option<Status>,
}

// How many more frames there is room for.
fn room(held: usize, count: usize) -> usize
    ensures { result ≡ room_beside held - count }
{
    MOST_ENTRIES.saturating_sub(held).saturating_sub(count)
}

// Takes the frames at the front of the text.
pub(crate) fn take_frames(
    alloc: Global,
    text: &[u8],
    held: usize,
    frames: &mut Vec<Payload>,
) -> Result<Taken, AllocError>
    ensures ok { IfOk result (λ t.
        IsTaken held text.now frames.old.items frames.new.items
        (drop (length text.now - t.left) text.now) t.ended) }
    ensures within { IfOk result (λ t. t.left ≤ length text.now) }
    ensures err { OnErr result (take (length frames.old.items) frames.new.items
        ≡ frames.old.items) }
{
    let mut rest = text;
    loop {
        let count = frames.len();
        match front_of(rest, count, room(held, count)) {
            Front::Frame(payload, behind) => {
                frames.push(Payload::of(alloc, payload)?)?;
                rest = behind;
            }
            Front::End(status) => {
                return Ok(Taken {
                    left: rest.len(),
                    ended: Some(status),
                });
            }
            Front::Open => {
                return Ok(Taken {
                    left: rest.len(),
                    ended: None,
                });
            }
        }
    }
}
