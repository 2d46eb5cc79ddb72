//! Reading on, behind what was not decided.

ghost use Rattle.std.specs.Prelude.{◌≡◌, ◌≤◌, ℕ, List, IfOk, OnErr, length, take, drop};
ghost use Rattle.log_transfer.specs.Pulled.{IsArrived, IsPulled, IsStart};

use crate::payload::Payload;
use crate::steps::is_magic;
use crate::taking::take_frames;
use log_format::Status;
use std::alloc::{AllocError, Global};

// Where frames begin.
enum Start {
    // Too little came for the magic.
    Wait,
    // Another magic came.
    Bad,
    // From this place on.
    From(usize),
}

// What was made of what came.
#[derive(Drop)]
pub(crate) struct Found {
    pub used: usize,
    pub begun: bool,
    pub ended: Option<Status>,
}

// Looks at the magic, unless it was seen.
fn start_of(begun: bool, text: &[u8]) -> Start
    ensures { IsStart begun text.now result }
{
    if begun {
        return Start::From(0);
    }
    if text.len() < 4 {
        return Start::Wait;
    }
    if is_magic(&text[..4]) {
        Start::From(4)
    } else {
        Start::Bad
    }
}

// Takes what there is to take of a text.
pub(crate) fn read_on(
    alloc: Global,
    held: usize,
    begun: bool,
    frames: &mut Vec<Payload>,
    text: &[u8],
) -> Result<Found, AllocError>
    ensures ok { IfOk result (λ f. (stream : List ℕ)
        → IsArrived held stream begun frames.old.items text.now
        → IsPulled held stream f.begun frames.new.items (drop f.used text.now) f.ended) }
    ensures within { IfOk result (λ f. f.used ≤ length text.now) }
    ensures err { OnErr result (take (length frames.old.items) frames.new.items
        ≡ frames.old.items) }
{
    match start_of(begun, text) {
        Start::Wait => Ok(Found {
            used: 0,
            begun: false,
            ended: None,
        }),
        Start::Bad => Ok(Found {
            used: 0,
            begun: false,
            ended: Some(Status::Broken),
        }),
        Start::From(at) => {
            let taken = take_frames(alloc, &text[at..], held, frames)?;
            Ok(Found {
                used: text.len() - taken.left,
                begun: true,
                ended: taken.ended,
            })
        }
    }
}
