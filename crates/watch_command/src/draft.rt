//! A part of a log that is being made.

use audit_evidence::EvidenceRefusal;
use base_wire::{LONGEST_PAYLOAD, MOST_ENTRIES};
use blocks::CommitteeView;
use std::alloc::{AllocError, Global};
use watch_collector::PartMaker;
use watch_state::{PartName, PartText};

/// A part of a log that is being made: what its frames name, and, where it is to be stored, its text and its name.
#[derive(Drop)]
pub(crate) struct Draft<'c> {
    pub maker: PartMaker<'c>,
    /// Its text, where it is to be stored.
    pub text: Option<PartText>,
    /// Where its first frame stands, once it has one.
    pub name: Option<PartName>,
    /// It is made of what was stored before.
    pub is_kept: bool,
}

impl<'c> Draft<'c> {
    /// No frame yet of what comes.
    pub fn new(
        alloc: Global,
        committee: &CommitteeView<'c>,
        replica: u16,
        is_stored: bool,
    ) -> Result<Draft<'c>, AllocError> {
        let text = if is_stored {
            Some(PartText::new(alloc)?)
        } else {
            None
        };
        Ok(Draft {
            maker: PartMaker::new(alloc, committee, replica)?,
            text,
            name: None,
            is_kept: false,
        })
    }

    /// No frame yet of what was stored before.
    pub fn kept(
        alloc: Global,
        committee: &CommitteeView<'c>,
        replica: u16,
    ) -> Result<Draft<'c>, AllocError> {
        Ok(Draft {
            maker: PartMaker::new(alloc, committee, replica)?,
            text: None,
            name: None,
            is_kept: true,
        })
    }

    /// No frame yet of what comes behind this one.
    pub fn next(
        &self,
        alloc: Global,
        committee: &CommitteeView<'c>,
        replica: u16,
    ) -> Result<Draft<'c>, AllocError> {
        if self.is_kept {
            return Draft::kept(alloc, committee, replica);
        }
        Draft::new(alloc, committee, replica, self.text.is_some())
    }

    /// How many frames it has.
    pub fn frames(&self) -> usize {
        self.maker.frames()
    }

    /// Whether a frame that stands there may be its next.
    pub fn goes_on(&self, at: &PartName) -> bool {
        match &self.name {
            None => true,
            Some(name) => {
                let place = usize::from(name.place).saturating_add(self.maker.frames());
                !self.maker.is_full() && name.log == at.log && place == usize::from(at.place)
            }
        }
    }

    /// Adds a frame, which stands there.
    pub fn add(
        &mut self,
        alloc: Global,
        at: &PartName,
        frame: &[u8],
    ) -> Result<(), EvidenceRefusal> {
        if self.maker.frames() >= MOST_ENTRIES {
            return Ok(());
        }
        if self.name.is_none() {
            self.name = Some(*at);
        }
        self.maker.add(alloc, frame)?;
        if let Some(text) = &mut self.text
            && frame.len() <= LONGEST_PAYLOAD
            && text.count() < MOST_ENTRIES
        {
            text.add(frame)?;
        }
        Ok(())
    }
}
