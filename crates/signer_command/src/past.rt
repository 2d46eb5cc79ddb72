//! The log of a chain that the signer went over from, as it is handed out.

use base_streams::MemorySink;
use base_wire::LONGEST_PAYLOAD;
use handover_folder::{LOG, LineageFolder};
use log_export::{begin_export, end_export, send_frame};
use log_request::ChainRequest;
use stable_log::{FileDisk, Journal};
use std::alloc::{AllocError, Global};
use std::fs::{File, Files};

/// What comes next of it.
#[derive(Clone, Copy, PartialEq, Eq)]
enum Stage {
    Front,
    Frames,
    Over,
}

/// The entries of such a log that one request asks for, and how far they went out.
#[derive(Drop)]
pub(crate) struct PastLog {
    journal: Journal<FileDisk>,
    next: usize,
    end: usize,
    sent: u32,
    stage: Stage,
}

impl PastLog {
    /// What a request asks for of the log of a chain; none where the signer went over from no such chain, or its log can't be read.
    pub fn open<F: Files<File = File>>(
        folder: &LineageFolder<'_, F>,
        wanted: &ChainRequest,
    ) -> Option<PastLog> {
        match folder.said_of(&wanted.chain) {
            Ok(Some(_)) => {}
            _ => return None,
        }
        let place = folder.chain_folder(&wanted.chain).ok()?;
        let path = format!(in folder.alloc; "{place}/{LOG}").ok()?;
        let file = File::open(folder.files, &path).ok()?;
        let journal = Journal::recover(folder.alloc, FileDisk::new(file)).ok()?;
        let first = usize::try_from(wanted.first).unwrap_or(usize::MAX);
        let most = usize::try_from(wanted.most).unwrap_or(usize::MAX);
        let next = first.min(journal.count());
        let end = next.saturating_add(most).min(journal.count());
        Some(PastLog {
            journal,
            next,
            end,
            sent: 0,
            stage: Stage::Front,
        })
    }

    /// The next bytes that go out, of at most so many entries; none behind the last, or where the disk fails.
    pub fn next_piece(&mut self, alloc: Global, share: u32) -> Result<Option<Vec<u8>>, AllocError> {
        let mut piece = MemorySink::new(alloc);
        let made = match self.stage {
            Stage::Front => {
                self.stage = Stage::Frames;
                begin_export(&mut piece).is_ok()
            }
            Stage::Frames if self.next >= self.end => {
                self.stage = Stage::Over;
                end_export(&mut piece, self.sent).is_ok()
            }
            Stage::Frames => self.put_frames(alloc, share, &mut piece)?,
            Stage::Over => return Ok(None),
        };
        if !made {
            return Err(AllocError);
        }
        Ok(Some(piece.bytes().to_vec(alloc)?))
    }

    // Answers whether they could be read.
    fn put_frames(
        &mut self,
        alloc: Global,
        share: u32,
        piece: &mut MemorySink,
    ) -> Result<bool, AllocError> {
        let mut payload = Vec::new(alloc);
        for _ in 0..share {
            if self.next >= self.end {
                break;
            }
            if self.journal.entry(self.next, &mut payload).is_err() {
                return Ok(false);
            }
            if payload.len() > LONGEST_PAYLOAD || send_frame(piece, &payload).is_err() {
                return Ok(false);
            }
            self.next = self.next.saturating_add(1);
            self.sent = self.sent.saturating_add(1);
        }
        Ok(true)
    }
}
