//! Parts that are joined into one file.

use crate::folder::{FILE_MODE, StateFolder};
use crate::name::PartFile;
use crate::runs::MOST_OF_A_PART;
use crate::seam::Seam;
use crate::text::PartText;
use base_wire::{LONGEST_PAYLOAD, MOST_ENTRIES};
use log_format::{Frames, Status};
use log_reading::digest_of;
use std::alloc::AllocError;
use std::fs::{File, Files, OpenOptions};
use std::io::Write;
use std::os::unix::fs::OpenOptionsExt;
use std::{fs, io};

/// Joins parts that follow one another into the file of the first, in place of what that has: whole and synced, or not at all. Answers
/// how many bytes it has then; none where one of them can't be read again as it was stored, and then nothing was changed. An
/// error where a file can't be made, written, synced or named, or the folder may not have so many bytes meanwhile. The files of the
/// others stay, and the name of the first has to be synced before they are removed.
pub(crate) fn join<F: Files<File = File>>(
    state: &StateFolder<'_, '_, F>,
    parts: &[PartFile],
) -> io::Result<Option<u64>> {
    let Some(first) = parts.first() else {
        return Ok(None);
    };
    let room = bytes_in(parts);
    state.take_room(room)?;
    let joined = join_to(state, first, parts);
    match &joined {
        // What the first had is gone.
        Ok(Some(bytes)) => {
            state.give_room(room.saturating_sub(*bytes).saturating_add(first.bytes));
        }
        _ => state.give_room(room),
    }
    joined
}

fn bytes_in(parts: &[PartFile]) -> u64 {
    let mut bytes: u64 = 0;
    for part in parts {
        bytes = bytes.saturating_add(part.bytes);
    }
    bytes
}

// Writes the joined file beside the first, and gives it the name of that.
fn join_to<F: Files<File = File>>(
    state: &StateFolder<'_, '_, F>,
    first: &PartFile,
    parts: &[PartFile],
) -> io::Result<Option<u64>> {
    let path = state.path_of(&first.name)?;
    let beside = format!(in state.alloc; "{path}.new")?;
    let file = OpenOptions::new()
        .write(true)
        .create_new(true)
        .mode(FILE_MODE)
        .open(state.files, &beside)?;
    let joined = match write_joined(state, file, first, parts) {
        Ok(Some(bytes)) => match fs::rename(state.files, beside.as_str(), path.as_str()) {
            Ok(()) => return Ok(Some(bytes)),
            Err(error) => Err(error),
        },
        joined => joined,
    };
    // What can't be removed stays, and the next try says so.
    let _ = fs::remove_file(state.files, beside.as_str());
    joined
}

// Writes the export of the frames of all, one part in memory at a time. Answers how many bytes it has.
fn write_joined<F: Files<File = File>>(
    state: &StateFolder<'_, '_, F>,
    mut file: File,
    first: &PartFile,
    parts: &[PartFile],
) -> io::Result<Option<u64>> {
    let mut seam = Seam::before(&first.name);
    let mut text = PartText::new(state.alloc)?;
    let mut bytes: u64 = 0;
    for part in parts {
        if !add_part(state, &mut seam, &mut text, part)? {
            return Ok(None);
        }
        let piece = text.take(state.alloc);
        file.write_all(&piece)?;
        bytes = bytes.saturating_add(piece.len() as u64);
    }
    if text.count() > MOST_ENTRIES {
        return Ok(None);
    }
    let end = text.finish()?;
    file.write_all(&end)?;
    bytes = bytes.saturating_add(end.len() as u64);
    if bytes > MOST_OF_A_PART {
        return Ok(None);
    }
    file.sync_all()?;
    Ok(Some(bytes))
}

// Reads a part again, and adds its frames. Answers whether it is whole, and stands where the one before ends.
fn add_part<F: Files<File = File>>(
    state: &StateFolder<'_, '_, F>,
    seam: &mut Seam,
    text: &mut PartText,
    part: &PartFile,
) -> Result<bool, AllocError> {
    if !seam.is_before(&part.name) {
        return Ok(false);
    }
    let Some(bytes) = state.text_of(&part.name)? else {
        return Ok(false);
    };
    let frames = Frames::of(state.alloc, &bytes)?;
    if frames.status() != Status::Whole {
        return Ok(false);
    }
    for k in 0..frames.len() {
        if !add_frame(seam, text, frames.payload(k))? {
            return Ok(false);
        }
    }
    Ok(true)
}

// Adds a frame. Answers whether a log may have it.
fn add_frame(seam: &mut Seam, text: &mut PartText, frame: &[u8]) -> Result<bool, AllocError> {
    if usize::from(seam.place) >= MOST_ENTRIES
        || text.count() >= MOST_ENTRIES
        || frame.len() > LONGEST_PAYLOAD
    {
        return Ok(false);
    }
    text.add(frame)?;
    seam.pass(&digest_of(frame));
    Ok(true)
}
