//! The way through the parts of a source, as they are read again.

use crate::folder::StateFolder;
use crate::logs::KeptLogs;
use crate::name::{PartFile, PartName};
use log_format::{Frames, Status};
use log_reading::{FrameDigest, digest_of};
use std::alloc::{AllocError, Global};
use std::fs::{File, Files};

/// What a file is that has the name of a part.
#[derive(Clone, Copy, Debug, PartialEq, Eq)]
pub enum Found {
    /// A part that goes on where what is kept of its log ends.
    Part,
    /// All of its frames stand in the parts before it: it was joined to one of them, and could not be removed then.
    Leftover,
    /// No part of a log: it can't be read, is damaged, or does not go on where its log ends.
    Nothing,
}

/// What is done with the parts of a source as they are read again, in the order of their names.
pub trait PartVisitor {
    /// Why they are read no further.
    type Refusal: From<AllocError> + Drop;

    /// A log begins whose parts are missing in front of the next one. Answers whether it is taken for one of no frames.
    fn miss(&mut self) -> Result<bool, Self::Refusal>;

    /// The next log begins, with these frames, which one of the logs before begins with.
    fn open(&mut self, kept: &KeptLogs, front: &[FrameDigest]) -> Result<(), Self::Refusal>;

    /// The next frame of this log. Answers whether the log may have it.
    fn frame(
        &mut self,
        log: u16,
        frame: &[u8],
        digest: &FrameDigest,
    ) -> Result<bool, Self::Refusal>;

    /// A file was read; of one that is nothing the first frames may have come. Answers whether the next is read.
    fn end(&mut self, part: &PartFile, found: Found) -> Result<bool, Self::Refusal>;
}

/// Reads the parts again that are kept of this source of a replica. Answers the logs that they are. A refusal is the visitor's, or of
/// memory.
pub fn visit_parts<F: Files<File = File>, V: PartVisitor>(
    state: &StateFolder<'_, '_, F>,
    replica: u16,
    source: u16,
    visitor: &mut V,
) -> Result<KeptLogs, V::Refusal> {
    let mut kept = KeptLogs::new(state.alloc);
    for part in state.parts() {
        if !part.name.is_of(replica, source) {
            continue;
        }
        let found = visit_part(state, &mut kept, &part.name, visitor)?;
        if !visitor.end(part, found)? {
            break;
        }
    }
    Ok(kept)
}

fn visit_part<F: Files<File = File>, V: PartVisitor>(
    state: &StateFolder<'_, '_, F>,
    kept: &mut KeptLogs,
    name: &PartName,
    visitor: &mut V,
) -> Result<Found, V::Refusal> {
    let Some(text) = state.text_of(name)? else {
        return Ok(Found::Nothing);
    };
    let frames = Frames::of(state.alloc, &text)?;
    if frames.status() != Status::Whole {
        return Ok(Found::Nothing);
    }
    pass_missed(kept, name.log, visitor)?;
    if !begin(state.alloc, kept, name, visitor)? {
        let digests = digests_of(state.alloc, &frames)?;
        return Ok(if kept.is_joined(name, &digests) {
            Found::Leftover
        } else {
            Found::Nothing
        });
    }
    visit_frames(kept, name.log, &frames, visitor)
}

// Passes over the logs in front of this one of which no part opens them, if the visitor does.
fn pass_missed<V: PartVisitor>(
    kept: &mut KeptLogs,
    log: u16,
    visitor: &mut V,
) -> Result<(), V::Refusal> {
    for _ in kept.len()..usize::from(log) {
        if !visitor.miss()? {
            break;
        }
        kept.begin(&[])?;
    }
    Ok(())
}

// Whether a part goes on where what is kept ends. Where it opens a log, that begins.
fn begin<V: PartVisitor>(
    alloc: Global,
    kept: &mut KeptLogs,
    name: &PartName,
    visitor: &mut V,
) -> Result<bool, V::Refusal> {
    let front = match kept.front(name) {
        None => return Ok(false),
        Some(_) if usize::from(name.log) < kept.len() => return Ok(true),
        Some(front) => front.to_vec(alloc)?,
    };
    visitor.open(kept, &front)?;
    kept.begin(&front)?;
    Ok(true)
}

fn digests_of(alloc: Global, frames: &Frames) -> Result<Vec<FrameDigest>, AllocError> {
    let mut digests = Vec::with_capacity(alloc, frames.len())?;
    for k in 0..frames.len() {
        digests.push(digest_of(frames.payload(k)))?;
    }
    Ok(digests)
}

// The frames of a part, each the next of its log.
fn visit_frames<V: PartVisitor>(
    kept: &mut KeptLogs,
    log: u16,
    frames: &Frames,
    visitor: &mut V,
) -> Result<Found, V::Refusal> {
    let at = usize::from(log);
    for k in 0..frames.len() {
        let frame = frames.payload(k);
        let digest = digest_of(frame);
        if at >= kept.len() || !visitor.frame(log, frame, &digest)? {
            return Ok(Found::Nothing);
        }
        kept.push(at, &digest)?;
    }
    Ok(Found::Part)
}
