//! The text of a log that is put together of its parts.

use crate::text::PartText;
use base_wire::{LONGEST_PAYLOAD, MOST_ENTRIES};
use log_format::Frames;
use std::alloc::{AllocError, Global};

/// The text of a log that is put together of its parts.
#[derive(Drop)]
pub(crate) struct LogText {
    text: PartText,
    // A part of it is missing.
    is_cut: bool,
}

impl LogText {
    /// No frames yet.
    pub fn new(alloc: Global) -> Result<LogText, AllocError> {
        Ok(LogText {
            text: PartText::new(alloc)?,
            is_cut: false,
        })
    }

    /// Adds one more frame. Answers whether a log may have it.
    pub fn add(&mut self, frame: &[u8]) -> Result<bool, AllocError> {
        if frame.len() > LONGEST_PAYLOAD || self.text.count() >= MOST_ENTRIES {
            return Ok(false);
        }
        self.text.add(frame)?;
        Ok(true)
    }

    /// Adds so many of these frames, from the first on. Answers whether there are so many and a log may have them.
    pub fn add_first(&mut self, frames: &Frames, count: usize) -> Result<bool, AllocError> {
        if frames.len() < count {
            return Ok(false);
        }
        for k in 0..count {
            if !self.add(frames.payload(k))? {
                return Ok(false);
            }
        }
        Ok(true)
    }

    /// A part of it is missing.
    pub fn cut(&mut self) {
        self.is_cut = true;
    }

    /// How many frames it has.
    pub fn count(&self) -> usize {
        self.text.count()
    }

    /// The export of its frames, with no end mark where a part of it is missing.
    pub fn finish(self) -> Result<Vec<u8>, AllocError> {
        if self.is_cut || self.text.count() > MOST_ENTRIES {
            return Ok(self.text.cut());
        }
        self.text.finish()
    }
}
