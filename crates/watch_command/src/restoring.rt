//! What is kept of a source, read again at the start.

use crate::draft::Draft;
use crate::reader::{Compared, Reader};
use crate::shop::{Told, WatchShared};
use audit_evidence::EvidenceRefusal;
use base_wire::MOST_ENTRIES;
use log_format::Status;
use log_reading::{FrameDigest, FramePlace};
use std::alloc::AllocError;
use std::fs::{File, Files};
use std::sync::Wait;
use std::time::Clock;
use watch_desk::Extent;
use watch_state::{
    Found, KeptLogs, PartFile, PartName, PartVisitor, StateFolder, digest_then, visit_parts,
};

// What is kept of a source, and what was made of it so far.
#[derive(Drop)]
struct Restorer<'x, 'a, 'w, 'c, T> {
    shop: &'x WatchShared<'a, 'w, 'c, T>,
    state: &'x StateFolder<'a, 'w, T>,
    reader: &'x mut Reader,
    draft: Draft<'c>,
}

impl Reader {
    /// Reads what is kept of it, and hands it over. Then its log is read from the beginning, and compared with those that are
    /// kept. Which of them it had last is not kept.
    pub fn restore<T: Files<File = File> + Wait + Clock>(
        &mut self,
        shop: &WatchShared<'_, '_, '_, T>,
    ) -> Result<(), EvidenceRefusal> {
        let Some(state) = shop.state else {
            return Ok(());
        };
        let (kept, draft) = self.read_kept(shop, state)?;
        if draft.frames() > 0 {
            self.hand_over(shop, draft, Status::Failed)?;
        }
        if kept.len() > 0 {
            self.compared = Compared::Kept;
        }
        // Of two kept logs it may have had either last.
        if kept.len() == 1 {
            self.before = Some(Extent {
                log: 0,
                frames: self.logs.read(),
            });
        }
        self.kept = kept;
        self.restart()?;
        Ok(())
    }

    // Reads what is kept of it. Answers the logs, and what was not handed over yet.
    fn read_kept<'c, T: Files<File = File> + Wait + Clock>(
        &mut self,
        shop: &WatchShared<'_, '_, 'c, T>,
        state: &StateFolder<'_, '_, T>,
    ) -> Result<(KeptLogs, Draft<'c>), EvidenceRefusal> {
        let (replica, source) = (self.replica, self.nth);
        let draft = Draft::kept(shop.alloc, shop.committee, replica)?;
        let mut restorer = Restorer {
            shop,
            state,
            reader: self,
            draft,
        };
        let kept = visit_parts(state, replica, source, &mut restorer)?;
        let Restorer { draft, .. } = restorer;
        Ok((kept, draft))
    }

    // Something stands there that is no part of a log of it: it stays, and no more of this source is stored.
    fn pass_over<T: Files<File = File> + Wait + Clock>(
        &mut self,
        shop: &WatchShared<'_, '_, '_, T>,
        state: &StateFolder<'_, '_, T>,
        name: &PartName,
    ) -> Result<(), AllocError> {
        if !self.has_gap {
            self.has_gap = true;
            self.tell(shop, Told::Unstored(state.path_of(name)?));
        }
        Ok(())
    }

    // Takes a frame as read that another log of it has.
    fn know(&mut self, digest: &FrameDigest) -> Result<(), AllocError> {
        let _known = self.logs.place(digest)?;
        self.front = digest_then(&self.front, digest);
        Ok(())
    }

    // Whether a frame is the next of this log of it, of which it is then read.
    fn is_next(&mut self, log: usize, digest: &FrameDigest) -> Result<bool, AllocError> {
        match self.logs.place(digest)? {
            FramePlace::Next(k) | FramePlace::Opens(k) if k == log => Ok(true),
            _ => Ok(false),
        }
    }
}

impl<'c, T: Files<File = File> + Wait + Clock> PartVisitor for Restorer<'_, '_, '_, 'c, T> {
    type Refusal = EvidenceRefusal;

    fn miss(&mut self) -> Result<bool, EvidenceRefusal> {
        Ok(false)
    }

    // What the log begins as is taken as read.
    fn open(&mut self, _kept: &KeptLogs, front: &[FrameDigest]) -> Result<(), EvidenceRefusal> {
        self.reader.restart()?;
        for digest in front {
            self.reader.know(digest)?;
        }
        Ok(())
    }

    fn frame(
        &mut self,
        log: u16,
        frame: &[u8],
        digest: &FrameDigest,
    ) -> Result<bool, EvidenceRefusal> {
        if self.reader.logs.read() >= MOST_ENTRIES {
            return Ok(false);
        }
        let log = usize::from(log);
        let place = self.reader.next_place(log);
        if !self.reader.is_next(log, digest)? {
            return Ok(false);
        }
        self.reader
            .add_frame(self.shop, &mut self.draft, &place, frame, digest)?;
        Ok(true)
    }

    fn end(&mut self, part: &PartFile, found: Found) -> Result<bool, EvidenceRefusal> {
        if found == Found::Leftover {
            self.reader.parts.leave(part)?;
        } else {
            self.reader.parts.push(part)?;
        }
        if found == Found::Nothing {
            self.reader.pass_over(self.shop, self.state, &part.name)?;
        }
        self.shop.note_kept();
        Ok(!self.shop.is_ending())
    }
}
