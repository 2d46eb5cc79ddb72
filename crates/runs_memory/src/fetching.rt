//! A fetch that resumes, over the stored export of a log of nine entries, which an independent program made.

use crate::outcome::Outcome;
use crate::stage::announce;
use base_streams::Sink;
use log_format::Status;
use log_transfer::{Fetched, MemoryConnector, Payload, fetch};
use std::alloc::{AllocError, Global};
use test_fixtures::exports::nine_entries;

// The bytes of the magic, of a frame's length, and of a frame: its length and a payload of 1,704 bytes.
const MAGIC: usize = 4;

const LENGTH: usize = 4;

const FRAME: usize = 1_708;

// Where the first connection ends, in the fifth frame.
const CUT: usize = 7_536;

// How many frames are whole before that.
const WHOLE: usize = 4;

const FRAMES: usize = 9;

// The export of the last five entries, but for its magic and its end.
fn last_frames() -> &'static [u8] {
    let frames = nine_entries().get(MAGIC + WHOLE * FRAME..MAGIC + FRAMES * FRAME);
    frames.unwrap_or(b"")
}

// A source whose first connection ends in the fifth frame, and whose second gives the frames from there on.
fn cut_source(alloc: Global) -> Result<MemoryConnector, AllocError> {
    let first = nine_entries().get(..CUT).unwrap_or(b"");
    let mut second = b"HSL1".to_vec(alloc)?;
    second.extend_from_slice(last_frames())?;
    second.extend_from_slice(b"\0\0\0\0\0\0\0\x05")?;
    let mut source = MemoryConnector::new(alloc);
    source.add(first.to_vec(alloc)?, false)?;
    source.add(second, false)?;
    Ok(source)
}

fn are_stored(frames: &[Payload]) -> bool {
    let stored = nine_entries().get(MAGIC..).unwrap_or(b"");
    for (came, frame) in frames.iter().zip(stored.chunks_exact(FRAME)) {
        if Some(came.as_bytes()) != frame.get(LENGTH..) {
            return false;
        }
    }
    frames.len() == FRAMES
}

fn is_whole(came: &Fetched) -> bool {
    came.status == Status::Whole && are_stored(&came.frames)
}

/// `fetch` over two connections. A source in memory asks for none once it is made, so it does not fail.
pub(crate) fn fetch_in_two<R: AllocGlobal, W: Sink>(rt: &R, stage: &mut W) -> Outcome {
    let alloc = rt.alloc();
    let Ok(mut source) = cut_source(alloc) else {
        return Outcome::NotSetUp;
    };
    announce(stage);
    match fetch(alloc, &mut source, 3) {
        Ok(came) => Outcome::ample_if(is_whole(&came) && source.requests().len() == 2),
        Err(_) => Outcome::Memory,
    }
}
