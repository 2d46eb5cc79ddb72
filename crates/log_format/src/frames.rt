//! The frames of a stream, read in place.

ghost use Rattle.std.specs.Prelude.{◌≡◌, ◌≤◌, ◌-◌, false, length, map, IfOk, ◌<◌, [], slice_index_or};
ghost use Rattle.base_wire.specs.Pieces.{number_at};
ghost use Rattle.log_format.specs.Readings.{Ends, IsReading};
ghost use Rattle.base_wire.specs.declared.limits.TheConstants.{MOST_ENTRIES};
ghost use Rattle.log_format.specs.Fronts.{IsFront, AreFramesOf};

use crate::Status;
use base_wire::{LONGEST_PAYLOAD, MOST_ENTRIES, u32_at};
use std::alloc::{AllocError, Global};
use std::marker::Model;

/// The whole frames at the front of a stream, each a part of the text, and how the stream ends. Contracts see
/// the payloads in order and the status.
#[derive(Drop)]
pub struct Frames<'a> {
    frames: Vec<&'a [u8]>,
    status: Status,
}

impl<'a> Model for Frames<'a> {
    ghost use Rattle.std.specs.Prelude.{map};
    ghost use Rattle.log_format.specs.Readings.{Reading};

    ghost Value = { Reading };

    ghost view = { λ f. record { frames = map (λ s. s.now) f.frames.items; status = f.status } };
}

// What stands at the front of the rest of a stream.
enum StreamFront<'a> {
    // A whole frame: its payload, and what stands behind it.
    Frame(&'a [u8], &'a [u8]),
    // Nothing that is taken.
    End(Status),
}

// How a stream of `count` frames ends whose rest begins with a length of 0.
fn end_of(rest: &[u8], count: usize) -> Status
    requires came { 4 ≤ length rest.now }
    requires none { number_at 4 rest.now 0 ≡ 0 }
    ensures { Ends false count (MOST_ENTRIES - count) rest.now result }
{
    if rest.len() < 8 {
        return Status::Cut;
    }
    if u32_at(rest, 4) as usize == count {
        Status::Whole
    } else {
        Status::Broken
    }
}

// What stands at the front of the rest, behind `count` frames.
fn front_of<'a>(rest: &'a [u8], count: usize) -> StreamFront<'a>
    requires { count ≤ MOST_ENTRIES }
    ensures { IsFront false count (MOST_ENTRIES - count) rest.now result }
{
    if rest.len() < 4 {
        return StreamFront::End(Status::Cut);
    }
    let len = u32_at(rest, 0);
    if len == 0 {
        return StreamFront::End(end_of(rest, count));
    }
    if len as usize > LONGEST_PAYLOAD {
        return StreamFront::End(Status::Broken);
    }
    if count == MOST_ENTRIES {
        return StreamFront::End(Status::TooLong);
    }
    let len = len as usize;
    if rest.len() - 4 < len {
        return StreamFront::End(Status::Cut);
    }
    StreamFront::Frame(&rest[4..4 + len], &rest[4 + len..])
}

// The frames at the front of what stands behind the magic, and how it ends.
fn read_frames<'a>(alloc: Global, text: &'a [u8]) -> Result<Frames<'a>, AllocError>
    ensures { IfOk result (λ r. AreFramesOf false MOST_ENTRIES text.now r.frames r.status) }
{
    let mut frames = Vec::new(alloc);
    let mut rest = text;
    loop {
        match front_of(rest, frames.len()) {
            StreamFront::Frame(payload, behind) => {
                frames.push(payload)?;
                rest = behind;
            }
            StreamFront::End(status) => return Ok(Frames { frames, status }),
        }
    }
}

impl<'a> Frames<'a> {
    /// The whole frames at the front of a stream, at most 4,096, and how the stream ends. The stream is `HSL1`,
    /// then for each frame the length of its payload (4 bytes, the highest first, 1 to 65,536) and the payload,
    /// then a length of 0 and the number of frames of the stream (4 bytes). The status is never `Failed`, and
    /// `Cut` where fewer than 4 bytes came, whatever they are. No payload is copied. Memory is refused where
    /// the list of frames could not grow.
    pub fn of(alloc: Global, text: &'a [u8]) -> Result<Frames<'a>, AllocError>
        ensures { IfOk result (λ r. IsReading 0 text.now false r.frames r.status) }
    {
        if text.len() < 4 {
            return Ok(Frames {
                frames: Vec::new(alloc),
                status: Status::Cut,
            });
        }
        if !text.starts_with(b"HSL1") {
            return Ok(Frames {
                frames: Vec::new(alloc),
                status: Status::Broken,
            });
        }
        read_frames(alloc, &text[4..])
    }

    /// The payloads of the frames, in order.
    pub fn frames(&self) -> &[&'a [u8]]
        ensures { map (λ s. s.now) result.now ≡ self.now.frames }
    {
        &self.frames
    }

    /// How many frames there are, at most 4,096.
    pub fn len(&self) -> usize
        ensures { result ≡ length self.now.frames }
    {
        self.frames.len()
    }

    /// The payload of frame `k`, counted from 0, which must be below `len`.
    pub fn payload(&self, k: usize) -> &'a [u8]
        requires { k < length self.now.frames }
        ensures { result.now ≡ slice_index_or self.now.frames k [] }
    {
        self.frames[k]
    }

    /// How the stream ends.
    pub fn status(&self) -> Status
        ensures { result ≡ self.now.status }
    {
        self.status
    }
}
