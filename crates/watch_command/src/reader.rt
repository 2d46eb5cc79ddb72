//! What was read of a source so far.

use crate::draft::Draft;
use crate::shop::{Delivery, StoredPart, Target, Told, WatchShared};
use audit_evidence::EvidenceRefusal;
use base_wire::MOST_ENTRIES;
use log_format::{Frames, Status};
use log_reading::{FrameDigest, SourceLogs, digest_of};
use log_request::Heard;
use std::alloc::{AllocError, Global};
use std::fs::{File, Files};
use std::sync::Wait;
use std::sync::atomic::Ordering;
use std::time::{Clock, Instant};
use watch_desk::{Extent, NewPart};
use watch_report::{SourceDigests, lasts_back};
use watch_state::{
    KeptLogs, LogDigest, NO_FRAMES, PartFile, PartName, PartText, SourceParts, StateFolder,
    digest_then, log_digest,
};
use watch_web::seconds_now;

/// What all of a log is compared with, once it was read from the beginning.
#[derive(Clone, Copy, Debug, PartialEq, Eq)]
pub(crate) enum Compared {
    /// Nothing.
    Nothing,
    /// What was read before, with which it is to begin.
    Before,
    /// The logs that were kept, at a start: it is to begin with one of them.
    Kept,
}

/// How many pauses come at most before a source that goes back again and again is asked again.
const MOST_PAUSES: u8 = 60;

/// How many bytes of parts of one source may wait until they can be stored: with more, no more of it is stored.
const MOST_WAITING: usize = 8 * 1024 * 1024;

// A part that could not be stored yet.
#[derive(Drop)]
struct WaitingPart {
    name: PartName,
    text: Vec<u8>,
}

/// How many seconds a server may have no log of a chain to which the watch went over before that is told.
const STAYS_SECONDS: u64 = 30;

// No frame of any log.
const NOTHING_GIVEN: Extent = Extent { log: 0, frames: 0 };

/// What was read of a source so far.
#[derive(Drop)]
pub(crate) struct Reader {
    pub source: usize,
    pub replica: u16,
    /// Which of the sources of its replica it is.
    pub nth: u16,
    pub logs: SourceLogs,
    /// What the frames digest to that were read of the log that it has now.
    pub front: LogDigest,
    // What the frames of each of its logs digest to.
    ends: Vec<LogDigest>,
    // The log that the last frame came to.
    log: usize,
    // The log of which what was read is the beginning.
    begins: usize,
    // What it had before all of it is read, if that is known.
    pub before: Option<Extent>,
    // When it last went back, how often it did with less than an hour between, and how much it gave since as that was told.
    back: Option<Instant>,
    times_back: u8,
    // The last answer went back.
    has_parted: bool,
    told_given: Extent,
    // How what came last ended, as it was told.
    status: Option<Status>,
    // From this log on none was begun, since there is a verdict on its replica.
    closed: Option<usize>,
    /// The last frame that was looked at was of such a log.
    pub is_closed: bool,
    has_told_beyond: bool,
    // What was heard of its server last, and since when that is that it has no log of a chain to which the watch went over.
    server: Heard,
    without_log: Option<Instant>,
    has_told_stays: bool,
    has_told_wrong_next: bool,
    has_given_by_hand: bool,
    // When all of the log had been read last.
    read_whole: Option<Instant>,
    // All of it is read anew, and no other source's.
    is_anew: bool,
    // What all of it is compared with, once it was read.
    pub compared: Compared,
    // What was kept of it, at the start.
    pub kept: KeptLogs,
    /// Its parts that are kept.
    pub parts: SourceParts,
    // Of the logs that were kept the one that it was last found to give.
    gives: Option<usize>,
    // What could not be stored yet, in its order.
    waiting: Vec<WaitingPart>,
    // Something of it is not stored for good: no more of it is, so that what is stored has no gap.
    pub has_gap: bool,
}

impl Reader {
    /// Nothing was read yet.
    pub fn new(alloc: Global, source: usize, target: &Target) -> Result<Reader, AllocError> {
        Ok(Reader {
            source,
            replica: target.replica,
            nth: target.nth,
            logs: SourceLogs::new(alloc)?,
            front: NO_FRAMES,
            ends: Vec::new(alloc),
            log: 0,
            begins: 0,
            before: None,
            back: None,
            times_back: 0,
            has_parted: false,
            told_given: NOTHING_GIVEN,
            status: None,
            closed: None,
            is_closed: false,
            has_told_beyond: false,
            server: Heard::Nothing,
            without_log: None,
            has_told_stays: false,
            has_told_wrong_next: false,
            has_given_by_hand: false,
            read_whole: None,
            is_anew: false,
            compared: Compared::Nothing,
            kept: KeptLogs::new(alloc),
            parts: SourceParts::new(alloc),
            gives: None,
            waiting: Vec::new(alloc),
            has_gap: false,
        })
    }

    /// A part of it with no frame yet, which is to be stored.
    pub fn draft<'c, T: Wait + Clock>(
        &self,
        shop: &WatchShared<'_, '_, 'c, T>,
    ) -> Result<Draft<'c>, AllocError> {
        let is_stored = shop.state.is_some() && !self.has_gap;
        Draft::new(shop.alloc, shop.committee, self.replica, is_stored)
    }

    /// From here on its log is read from the beginning.
    pub fn restart(&mut self) -> Result<(), AllocError> {
        self.front = NO_FRAMES;
        self.logs.restart()
    }

    /// Where all of the log was read long ago, and no other is read anew, begins to read it anew.
    pub fn begin_anew<T: Wait + Clock>(
        &mut self,
        shop: &WatchShared<'_, '_, '_, T>,
    ) -> Result<(), EvidenceRefusal> {
        let Some(since) = self.read_whole else {
            return Ok(());
        };
        let Ok(elapsed) = since.elapsed(shop.rt) else {
            return Ok(());
        };
        if elapsed.as_secs() >= shop.words.reread && !shop.reads_anew.swap(true, Ordering::SeqCst) {
            self.is_anew = true;
            self.compared = Compared::Before;
            self.read_whole = None;
            self.before = Some(self.extent());
            self.restart()?;
        }
        Ok(())
    }

    /// It is not read anew any more, and another may be.
    pub fn let_others_read_anew<T: Wait + Clock>(&mut self, shop: &WatchShared<'_, '_, '_, T>) {
        if self.is_anew {
            self.is_anew = false;
            shop.reads_anew.store(false, Ordering::SeqCst);
        }
    }

    /// Notes what was heard of its server where it was asked by the name of the chain, and tells what is new of that.
    pub fn note_server<T: Wait + Clock>(
        &mut self,
        shop: &WatchShared<'_, '_, '_, T>,
        heard: Heard,
    ) {
        if heard == Heard::Nothing || heard == self.server {
            return;
        }
        self.server = heard;
        self.without_log = None;
        if let Some(target) = shop.targets.get(self.source) {
            target.stays.store(0, Ordering::SeqCst);
        }
        if heard == Heard::NoLog && shop.number > 0 {
            self.without_log = Instant::now(shop.rt).ok();
        } else if heard != Heard::Named {
            self.tell(shop, Told::Server(heard));
        }
    }

    // Tells once that its server has no log of a chain to which the watch went over, though others have given frames of it for a while.
    fn tell_stays<T: Wait + Clock>(&mut self, shop: &WatchShared<'_, '_, '_, T>) {
        let Some(since) = self.without_log else {
            return;
        };
        let Ok(elapsed) = since.elapsed(shop.rt) else {
            return;
        };
        if elapsed.as_secs() < STAYS_SECONDS || !shop.has_frames() {
            return;
        }
        if let Some(target) = shop.targets.get(self.source)
            && target.stays.load(Ordering::SeqCst) == 0
        {
            target.stays.store(seconds_now(shop.rt), Ordering::SeqCst);
        }
        if !self.has_told_stays {
            self.has_told_stays = true;
            self.tell(shop, Told::Stays);
        }
    }

    /// Tells once that what it gave of the next committee is not good.
    pub fn tell_wrong_next<T: Wait + Clock>(&mut self, shop: &WatchShared<'_, '_, '_, T>) {
        if !self.has_told_wrong_next {
            self.has_told_wrong_next = true;
            self.tell(shop, Told::WrongNext);
        }
    }

    /// Notes that it gave the next committee without a renewal. Answers whether it did so before.
    pub fn gave_by_hand(&mut self) -> bool {
        std::mem::replace(&mut self.has_given_by_hand, true)
    }

    /// All that is there was read, and is compared.
    pub fn end_round<T: Wait + Clock>(&mut self, shop: &WatchShared<'_, '_, '_, T>) {
        self.let_others_read_anew(shop);
        if self.status == Some(Status::Whole) {
            self.compare(shop);
            if self.read_whole.is_none() {
                self.read_whole = Instant::now(shop.rt).ok();
            }
        }
        self.tell_given(shop);
        self.tell_stays(shop);
    }

    /// How much of which log was read.
    pub fn extent(&self) -> Extent {
        Extent {
            log: self.begins,
            frames: self.logs.read(),
        }
    }

    // What it had before it went back: what it is compared with, or what was read.
    fn had(&self) -> Option<Extent> {
        match self.compared {
            Compared::Nothing => Some(self.extent()),
            Compared::Before | Compared::Kept => self.before,
        }
    }

    // It went back, when it had this.
    fn go_back<T: Wait + Clock>(&mut self, shop: &WatchShared<'_, '_, '_, T>, had: Option<Extent>) {
        let before = if self.is_back(shop) {
            self.times_back
        } else {
            0
        };
        self.times_back = before.saturating_add(1);
        self.back = Instant::now(shop.rt).ok();
        self.told_given = NOTHING_GIVEN;
        self.tell(shop, Told::WentBack(had));
    }

    // Tells how much it gives, as long as it is shown as one that went back, and where that changed.
    fn tell_given<T: Wait + Clock>(&mut self, shop: &WatchShared<'_, '_, '_, T>) {
        let given = self.extent();
        if given == self.told_given || !self.is_back(shop) {
            return;
        }
        self.told_given = given;
        self.tell(shop, Told::Gives(given));
    }

    fn is_back<T: Wait + Clock>(&self, shop: &WatchShared<'_, '_, '_, T>) -> bool {
        let Some(since) = self.back else {
            return false;
        };
        match since.elapsed(shop.rt) {
            Ok(elapsed) => lasts_back(0, elapsed.as_secs()),
            Err(_) => true,
        }
    }

    // The next frame, which was placed there behind so many, is of this log. If that is another one, how much of the one before
    // it gave is told.
    fn come_to<T: Wait + Clock>(
        &mut self,
        shop: &WatchShared<'_, '_, '_, T>,
        place: log_reading::FramePlace,
        read: usize,
    ) {
        let log = match place {
            log_reading::FramePlace::Known(log)
            | log_reading::FramePlace::Next(log)
            | log_reading::FramePlace::Opens(log) => log,
            log_reading::FramePlace::Beyond => return,
        };
        if log != self.begins && read > 0 && self.is_back(shop) {
            let given = Extent {
                log: self.begins,
                frames: read,
            };
            self.tell(shop, Told::Gives(given));
        }
        self.begins = log;
    }

    // Where it does not begin with what it is compared with, it went back.
    fn compare<T: Wait + Clock>(&mut self, shop: &WatchShared<'_, '_, '_, T>) {
        let has_lost = match std::mem::replace(&mut self.compared, Compared::Nothing) {
            Compared::Nothing => false,
            Compared::Before => !self.logs.keeps(),
            Compared::Kept => self.kept.begun(self.logs.present()).is_none(),
        };
        if has_lost {
            self.go_back(shop, self.before);
        }
    }

    /// Whether an answer with these frames goes on where what was read ends.
    pub fn goes_on(&self, frames: &Frames) -> bool {
        self.logs.goes_on(first_digest(frames))
    }

    /// The answer has another frame where the last one stood, or none. Then its log is read from the beginning, after a pause, if the
    /// answer was read as far as that; else only its status counts.
    pub fn part_ways<T: Files<File = File> + Wait + Clock>(
        &mut self,
        shop: &WatchShared<'_, '_, '_, T>,
        status: Status,
        is_read: bool,
    ) -> Result<(), EvidenceRefusal> {
        if !is_read {
            let draft = self.draft(shop)?;
            return self.finish(shop, draft, status);
        }
        let had = self.had();
        self.compared = Compared::Nothing;
        self.go_back(shop, had);
        self.has_parted = true;
        self.restart()?;
        Ok(())
    }

    /// How many pauses come before it is asked again: behind an answer that went back as many as it did so within the hour, up to
    /// `MOST_PAUSES`, so that one that goes back again and again is read all the less; else one.
    pub fn pauses(&mut self) -> u8 {
        if !self.has_parted {
            return 1;
        }
        self.has_parted = false;
        self.times_back.clamp(1, MOST_PAUSES)
    }

    /// The place of its next frame, in this log of it.
    pub fn next_place(&self, log: usize) -> PartName {
        PartName {
            replica: self.replica,
            source: self.nth,
            log: u16::try_from(log).unwrap_or(u16::MAX),
            place: u16::try_from(self.logs.read()).unwrap_or(u16::MAX),
            front: self.front,
        }
    }

    /// Takes the next frame, and adds it where it is new; what does not go on with the draft is handed over first. Answers
    /// whether more of it is taken.
    pub fn take_frame<'c, T: Files<File = File> + Wait + Clock>(
        &mut self,
        shop: &WatchShared<'_, '_, 'c, T>,
        draft: &mut Draft<'c>,
        frame: &[u8],
    ) -> Result<bool, EvidenceRefusal> {
        if self.logs.read() >= MOST_ENTRIES {
            return Ok(false);
        }
        let digest = digest_of(frame);
        let mut place = self.next_place(0);
        let read = self.logs.read();
        let found = self.logs.place(&digest)?;
        self.come_to(shop, found, read);
        self.is_closed = self.close(shop, found);
        if self.is_closed {
            return Ok(false);
        }
        match found {
            log_reading::FramePlace::Known(log) => {
                self.log = log;
                self.front = digest_then(&self.front, &digest);
                self.tell_kept(shop);
                return Ok(true);
            }
            log_reading::FramePlace::Beyond => {
                self.tell_beyond(shop);
                return Ok(false);
            }
            log_reading::FramePlace::Next(log) | log_reading::FramePlace::Opens(log) => {
                place.log = u16::try_from(log).unwrap_or(u16::MAX);
            }
        }
        self.add_frame(shop, draft, &place, frame, &digest)?;
        note_frame(shop, self.source);
        Ok(true)
    }

    // Whether no log is begun with a frame that has this place, nor was the one that has it: of a source whose replica has a
    // verdict only the logs that it has go on.
    fn close<T: Wait + Clock>(
        &mut self,
        shop: &WatchShared<'_, '_, '_, T>,
        place: log_reading::FramePlace,
    ) -> bool {
        let log = match place {
            log_reading::FramePlace::Known(log) | log_reading::FramePlace::Next(log) => log,
            log_reading::FramePlace::Opens(log) => {
                let is_accused = match shop.targets.get(self.source) {
                    Some(target) => target.accused.load(Ordering::SeqCst),
                    None => false,
                };
                if is_accused && log > 0 && self.closed.is_none() {
                    self.closed = Some(log);
                }
                log
            }
            log_reading::FramePlace::Beyond => return false,
        };
        match self.closed {
            Some(closed) => closed <= log,
            None => false,
        }
    }

    /// Adds a new frame, which stands there; what does not go on with the draft is handed over first. More is to come then, so it says
    /// nothing new of how the log ends.
    pub fn add_frame<'c, T: Files<File = File> + Wait + Clock>(
        &mut self,
        shop: &WatchShared<'_, '_, 'c, T>,
        draft: &mut Draft<'c>,
        place: &PartName,
        frame: &[u8],
        digest: &FrameDigest,
    ) -> Result<(), EvidenceRefusal> {
        if !draft.goes_on(place) {
            let next = draft.next(shop.alloc, shop.committee, self.replica)?;
            let full = std::mem::replace(draft, next);
            let status = self.status.unwrap_or(Status::Cut);
            self.hand_over(shop, full, status)?;
        }
        draft.add(shop.alloc, place, frame)?;
        self.front = digest_then(&self.front, digest);
        self.note_end(usize::from(place.log))?;
        Ok(())
    }

    // What was read is all of this log: one that it has, or the next.
    fn note_end(&mut self, log: usize) -> Result<(), AllocError> {
        match self.ends.get_mut(log) {
            Some(end) => *end = self.front,
            None => self.ends.push(self.front)?,
        }
        Ok(())
    }

    // What the frames of its logs digest to.
    fn digests(&self) -> SourceDigests {
        SourceDigests {
            first: self.ends.first().copied().unwrap_or(NO_FRAMES),
            all: log_digest(&self.ends),
        }
    }

    /// Hands over what came last, where it has frames or says how the log ends.
    pub fn finish<'c, T: Files<File = File> + Wait + Clock>(
        &mut self,
        shop: &WatchShared<'_, '_, 'c, T>,
        draft: Draft<'c>,
        status: Status,
    ) -> Result<(), EvidenceRefusal> {
        if draft.frames() > 0 || self.status != Some(status) {
            self.status = Some(status);
            self.hand_over(shop, draft, status)?;
        }
        Ok(())
    }

    /// Hands over a part of a log that ended so. It is stored first.
    pub fn hand_over<'c, T: Files<File = File> + Wait + Clock>(
        &mut self,
        shop: &WatchShared<'_, '_, 'c, T>,
        draft: Draft<'c>,
        status: Status,
    ) -> Result<(), EvidenceRefusal> {
        let Draft {
            maker,
            text,
            name,
            is_kept,
        } = draft;
        if let Some(name) = &name {
            self.log = usize::from(name.log);
        }
        let parts = self.parts.len();
        let unstored = self.store(shop, text, name)?;
        let new = NewPart {
            log: self.log,
            part: maker.finish(shop.alloc, status)?,
            digests: self.digests(),
            is_kept,
        };
        self.tell(shop, Told::Part(StoredPart { new, unstored }));
        if self.parts.len() > parts {
            self.join_parts(shop)?;
        }
        Ok(())
    }

    /// Joins parts of it, where many are kept.
    pub fn join_parts<T: Files<File = File> + Wait + Clock>(
        &mut self,
        shop: &WatchShared<'_, '_, '_, T>,
    ) -> Result<(), AllocError> {
        let Some(state) = shop.state else {
            return Ok(());
        };
        for _ in 0..u64::MAX {
            if shop.is_ending() || !self.parts.join_next(state)? {
                break;
            }
        }
        Ok(())
    }

    /// Tries again to store what waits, and tells where all of it is stored now.
    pub fn store_again<T: Files<File = File> + Wait + Clock>(
        &mut self,
        shop: &WatchShared<'_, '_, '_, T>,
    ) -> Result<(), AllocError> {
        let Some(state) = shop.state else {
            return Ok(());
        };
        if self.waiting.is_empty() || !self.store_waiting(state)? {
            return Ok(());
        }
        self.tell(shop, Told::Stored);
        self.join_parts(shop)
    }

    // Stores what waits, as far as it can be. Answers whether nothing waits any more.
    fn store_waiting<T: Files<File = File>>(
        &mut self,
        state: &StateFolder<'_, '_, T>,
    ) -> Result<bool, AllocError> {
        for _ in 0..self.waiting.len() {
            let Some(part) = self.waiting.first() else {
                break;
            };
            if state.store(&part.name, &part.text).is_err() {
                return Ok(false);
            }
            self.parts.push(&PartFile {
                name: part.name,
                bytes: part.text.len() as u64,
            })?;
            let _stored = self.waiting.remove(0);
        }
        Ok(true)
    }

    // More waits than may.
    fn give_up_waiting(&mut self) {
        let mut bytes: usize = 0;
        for part in &self.waiting {
            bytes = bytes.saturating_add(part.text.len());
        }
        if bytes > MOST_WAITING {
            self.waiting.clear();
            self.has_gap = true;
        }
    }

    // Stores a part, where it is to be stored, behind those that wait. Answers its path where it can't be, and nothing waited before.
    fn store<T: Files<File = File> + Wait + Clock>(
        &mut self,
        shop: &WatchShared<'_, '_, '_, T>,
        text: Option<PartText>,
        name: Option<PartName>,
    ) -> Result<Option<String>, AllocError> {
        let (Some(state), Some(text), Some(name)) = (shop.state, text, name) else {
            return Ok(None);
        };
        if self.has_gap || text.count() > MOST_ENTRIES {
            return Ok(None);
        }
        let has_waited = !self.waiting.is_empty();
        let text = text.finish()?;
        self.waiting.push(WaitingPart { name, text })?;
        if self.store_waiting(state)? {
            if has_waited {
                self.tell(shop, Told::Stored);
            }
            return Ok(None);
        }
        self.give_up_waiting();
        if has_waited {
            return Ok(None);
        }
        Ok(Some(state.path_of(&name)?))
    }

    // Tells which of the logs that were kept it gives, where that is another one than it was.
    fn tell_kept<T: Wait + Clock>(&mut self, shop: &WatchShared<'_, '_, '_, T>) {
        let holding = self.kept.holding(self.logs.present());
        if let Some(log) = holding
            && holding != self.gives
        {
            self.gives = holding;
            self.tell(shop, Told::GivesKept(log));
        }
    }

    fn tell_beyond<T: Wait + Clock>(&mut self, shop: &WatchShared<'_, '_, '_, T>) {
        if !self.has_told_beyond {
            self.has_told_beyond = true;
            self.tell(shop, Told::Beyond);
        }
    }

    /// Tells something of it.
    pub fn tell<'c, T: Wait + Clock>(&self, shop: &WatchShared<'_, '_, 'c, T>, told: Told<'c>) {
        shop.hand_over(Delivery {
            source: self.source,
            told,
        });
    }
}

// The digest of the first frame, if one came.
fn first_digest(frames: &Frames) -> Option<FrameDigest> {
    if frames.len() == 0 {
        return None;
    }
    Some(digest_of(frames.payload(0)))
}

/// A source gave a byte.
pub(crate) fn note_answer<T: Wait + Clock>(shop: &WatchShared<'_, '_, '_, T>, source: usize) {
    if let Some(target) = shop.targets.get(source) {
        target
            .answered
            .store(seconds_now(shop.rt), Ordering::SeqCst);
    }
}

// A frame came of it.
fn note_frame<T: Wait + Clock>(shop: &WatchShared<'_, '_, '_, T>, source: usize) {
    if let Some(target) = shop.targets.get(source) {
        target.framed.store(seconds_now(shop.rt), Ordering::SeqCst);
    }
}
