//! What the threads of a watch share.

ghost use Rattle.std.specs.Prelude.{◌≤◌};

use crate::next::NextFiles;
use crate::program::WatchHost;
use crate::queue::Queue;
use crate::serving::{ANSWERERS, Server};
use crate::words::Words;
use blocks::CommitteeView;
use log_request::Heard;
use std::alloc::{AllocError, Global};
use std::sync::atomic::{AtomicBool, AtomicU32, AtomicU64, Ordering};
use std::sync::{Condvar, Mutex, Wait};
use std::thread;
use std::time::{Clock, Duration};
use watch_desk::{Extent, NewPart};
use watch_state::StateFolder;

/// How long the threads are waited for to start, in looks a hundredth of a second apart.
const MOST_LOOKS: u32 = 1_000;

const LOOK_MILLISECONDS: u64 = 10;

/// How long one wait for another thread is, in milliseconds: so soon an ending is noticed.
const TICK_MILLISECONDS: u64 = 250;

/// A part of a log of a source, which was stored where it is to be.
#[derive(Drop)]
pub(crate) struct StoredPart<'c> {
    pub new: NewPart<'c>,
    /// Where it was to be stored, where it could not be.
    pub unstored: Option<String>,
}

/// What the thread of a source tells.
#[derive(Drop)]
pub(crate) enum Told<'c> {
    /// More came of a log of the source, or how it ends changed.
    Part(StoredPart<'c>),
    /// Its log went back, when it had this, if that is known.
    WentBack(Option<Extent>),
    /// It went back within the hour, and gives this of a log.
    Gives(Extent),
    /// At a start: what it gives goes on with this log, which was kept.
    GivesKept(usize),
    /// It gave one log too many.
    Beyond,
    /// Its server, which was asked by the name of the chain, has no log of it, or was asked without.
    Server(Heard),
    /// What stands at this path, among what is kept, is no part of a log of it.
    Unstored(String),
    /// All of it that could not be stored is stored now.
    Stored,
    /// What it gave as the next committee's file and renewal is not good.
    WrongNext,
    /// It has no log of a chain to which others went over.
    Stays,
}

impl Told<'_> {
    fn is_kept(&self) -> bool {
        match self {
            Told::Part(stored) => stored.new.is_kept,
            _ => false,
        }
    }
}

/// What is told of a source.
#[derive(Drop)]
pub(crate) struct Delivery<'c> {
    pub source: usize,
    pub told: Told<'c>,
}

/// How many threads answer over HTTP.
pub(crate) fn answerers_of(server: Option<&Server>) -> usize
    ensures { result ≤ 8 }
{
    match server {
        Some(_) => ANSWERERS,
        None => 0,
    }
}

/// Where a source's log comes from.
#[derive(Drop)]
pub(crate) enum SourceOrigin<'a> {
    /// The path of a file.
    File(&'a str),
    /// The name of a server.
    Server(&'a str),
}

/// A source of a watch.
#[derive(Drop)]
pub(crate) struct Target<'a> {
    /// The word that names it.
    pub word: &'a str,
    pub replica: u16,
    /// Which of the sources of that replica it is, from 0.
    pub nth: u16,
    pub place: SourceOrigin<'a>,
    /// When it last gave a byte, in seconds since 1970, or 0.
    pub answered: AtomicU64,
    /// When a frame last came of it.
    pub framed: AtomicU64,
    /// No more of it is read.
    pub aside: AtomicBool,
    /// There is a verdict on its replica: no further log of it is begun.
    pub accused: AtomicBool,
    /// Since when it is told that it has no log of a chain to which others went over, or 0.
    pub stays: AtomicU64,
}

// One place for each source.
#[derive(Drop)]
struct Counter<'c> {
    places: Vec<Option<Delivery<'c>>>,
}

impl<'c> Counter<'c> {
    fn is_free(&self, source: usize) -> bool {
        match self.places.get(source) {
            Some(place) => place.is_none(),
            None => false,
        }
    }

    fn put(&mut self, delivery: Delivery<'c>) {
        if let Some(place) = self.places.get_mut(delivery.source) {
            *place = Some(delivery);
        }
    }

    fn is_empty(&self) -> bool {
        self.places.iter().all(|place| place.is_none())
    }

    fn take(&mut self, alloc: Global) -> Result<Vec<Delivery<'c>>, AllocError> {
        let mut taken = Vec::with_capacity(alloc, self.places.len())?;
        for place in self.places.iter_mut() {
            if let Some(delivery) = place.take() {
                taken.push(delivery)?;
            }
        }
        Ok(taken)
    }
}

/// What lasts while the watch goes from one committee to the next.
#[derive(Drop)]
pub(crate) struct Hall {
    pub queue: Queue,
    /// Where what the watch knows is told, if it is.
    pub server: Option<Server>,
    /// The watch is to end, since no line can be printed.
    pub halted: AtomicBool,
}

/// The committee that is watched now: the first has number 0.
#[derive(Drop)]
pub(crate) struct Stay<'a, 'c> {
    pub number: u64,
    /// How many culprits the committees before have.
    pub earlier_culprits: u64,
    pub committee: &'a CommitteeView<'c>,
}

/// What the threads share. Each source hands over one part at a time, and goes on when that was taken.
#[derive(Drop)]
pub(crate) struct WatchShared<'a, 'w, 'c, T> {
    pub rt: &'a T,
    pub alloc: Global,
    /// The number of the committee.
    pub number: u64,
    /// How many culprits the committees before have.
    pub earlier_culprits: u64,
    pub committee: &'a CommitteeView<'c>,
    pub words: &'a Words<'w>,
    pub targets: &'a [Target<'w>],
    pub queue: &'a Queue,
    pub input_ended: &'a AtomicBool,
    /// Where what the watch knows is told, if it is.
    pub server: Option<&'a Server>,
    /// Where what is read is kept, if it is.
    pub state: Option<&'a StateFolder<'a, 'w, T>>,
    counter: Mutex<Counter<'c>>,
    came: Condvar,
    taken: Condvar,
    // The payload of the block that hands over, once that is proved to be committed.
    handover: Mutex<Option<[u8; 32]>>,
    is_handed_over: AtomicBool,
    // The committee that a source gave as the next one, and the one to which the watch goes over.
    offered: Mutex<Option<NextFiles>>,
    has_offer: AtomicBool,
    chosen: Mutex<Option<NextFiles>>,
    /// How many culprits this committee had at the end.
    pub culprits: AtomicU64,
    halted: &'a AtomicBool,
    pub ending: AtomicBool,
    /// Some source is read anew.
    pub reads_anew: AtomicBool,
    wanted: u32,
    begun: AtomicU32,
    // How many of the files with parts were read that were there at the start.
    kept_read: AtomicU64,
    // How many parts were made of them, and how many of those were added.
    kept_told: AtomicU64,
    kept_added: AtomicU64,
    // How many sources have told all that is kept of them.
    kept_sources: AtomicU64,
}

impl<'a, 'w, 'c, T: Wait + Clock> WatchShared<'a, 'w, 'c, T> {
    /// Nothing was told yet.
    pub fn new(
        host: &'a WatchHost<'a, T>,
        words: &'a Words<'w>,
        hall: &'a Hall,
        stay: &Stay<'a, 'c>,
        targets: &'a [Target<'w>],
        state: Option<&'a StateFolder<'a, 'w, T>>,
    ) -> Result<WatchShared<'a, 'w, 'c, T>, AllocError> {
        let mut places = Vec::new(host.alloc);
        for _ in 0..targets.len() {
            places.push(None)?;
        }
        let server = hall.server.as_ref();
        let wanted = u32::try_from(targets.len())
            .unwrap_or(u32::MAX)
            .saturating_add(1)
            .saturating_add(answerers_of(server) as u32);
        Ok(WatchShared {
            rt: host.rt,
            alloc: host.alloc,
            number: stay.number,
            earlier_culprits: stay.earlier_culprits,
            committee: stay.committee,
            words,
            targets,
            queue: &hall.queue,
            input_ended: host.input_ended,
            server,
            state,
            counter: Mutex::new(Counter { places }),
            came: Condvar::new(),
            taken: Condvar::new(),
            handover: Mutex::new(None),
            is_handed_over: AtomicBool::new(false),
            offered: Mutex::new(None),
            has_offer: AtomicBool::new(false),
            chosen: Mutex::new(None),
            culprits: AtomicU64::new(0),
            halted: &hall.halted,
            ending: AtomicBool::new(false),
            reads_anew: AtomicBool::new(false),
            wanted,
            begun: AtomicU32::new(0),
            kept_read: AtomicU64::new(0),
            kept_told: AtomicU64::new(0),
            kept_added: AtomicU64::new(0),
            kept_sources: AtomicU64::new(0),
        })
    }

    /// No more of this source is read.
    pub fn set_aside(&self, source: usize) {
        if let Some(target) = self.targets.get(source) {
            target.aside.store(true, Ordering::SeqCst);
        }
    }

    /// There is a verdict on this replica.
    pub fn accuse(&self, replica: u16) {
        for target in self.targets {
            if target.replica == replica {
                target.accused.store(true, Ordering::SeqCst);
            }
        }
    }

    pub fn is_ending(&self) -> bool {
        self.ending.load(Ordering::SeqCst) || self.halted.load(Ordering::SeqCst)
    }

    /// It is proved that a block with this payload is committed, which hands over.
    pub fn note_handover(&self, payload: [u8; 32]) {
        *self.handover.lock(self.rt) = Some(payload);
        self.is_handed_over.store(true, Ordering::SeqCst);
    }

    /// The payload of that block, once it is known.
    pub fn handover(&self) -> Option<[u8; 32]> {
        *self.handover.lock(self.rt)
    }

    /// A source gave this committee as the next one, and it is good.
    pub fn offer(&self, next: NextFiles) {
        *self.offered.lock(self.rt) = Some(next);
        self.has_offer.store(true, Ordering::SeqCst);
        self.came.notify_all();
    }

    /// Whether a source gave the next committee.
    pub fn is_leaving(&self) -> bool {
        self.has_offer.load(Ordering::SeqCst)
    }

    /// The committee that a source gave, if one did.
    pub fn take_offer(&self) -> Option<NextFiles> {
        self.offered.lock(self.rt).take()
    }

    /// The watch goes over to this committee.
    pub fn choose(&self, next: NextFiles) {
        *self.chosen.lock(self.rt) = Some(next);
    }

    /// The committee to which it goes over, if it does.
    pub fn take_chosen(&self) -> Option<NextFiles> {
        self.chosen.lock(self.rt).take()
    }

    /// Whether a frame of the chain came from some source.
    pub fn has_frames(&self) -> bool {
        self.targets
            .iter()
            .any(|target| target.framed.load(Ordering::SeqCst) > 0)
    }

    /// All threads are to end. Where the watch does not go over, no more is told over HTTP.
    pub fn end(&self) {
        self.ending.store(true, Ordering::SeqCst);
        if let Some(server) = self.server
            && !self.is_leaving()
        {
            server.close();
        }
        self.came.notify_all();
        self.taken.notify_all();
    }

    /// One thread more has begun. Waits until all have; where one does not, all are to end. Answers whether they have.
    pub fn begin(&self) -> bool {
        let _before = self.begun.fetch_add(1, Ordering::SeqCst);
        for _ in 0..MOST_LOOKS {
            if self.begun.load(Ordering::SeqCst) >= self.wanted {
                return true;
            }
            if self.is_ending() {
                return false;
            }
            thread::sleep(self.rt, Duration::from_millis(LOOK_MILLISECONDS));
        }
        self.end();
        false
    }

    /// A file with a part that was there at the start was read.
    pub fn note_kept(&self) {
        let _before = self.kept_read.fetch_add(1, Ordering::SeqCst);
    }

    /// How many of those were read.
    pub fn kept_read(&self) -> u64 {
        self.kept_read.load(Ordering::SeqCst)
    }

    /// Such a part was added.
    pub fn note_added(&self) {
        let _before = self.kept_added.fetch_add(1, Ordering::SeqCst);
    }

    /// Whether what is kept is still read and added.
    pub fn reads_kept(&self) -> bool {
        self.state.is_some()
            && (self.kept_sources.load(Ordering::SeqCst) < self.targets.len() as u64
                || self.kept_added.load(Ordering::SeqCst) < self.kept_told.load(Ordering::SeqCst))
    }

    /// All that is kept of one source more was told. Waits until that of all sources was added. Answers whether the watch goes on.
    pub fn await_kept(&self) -> bool {
        let _before = self.kept_sources.fetch_add(1, Ordering::SeqCst);
        for _ in self.rt.forever() {
            if self.is_ending() || !self.reads_kept() {
                break;
            }
            thread::sleep(self.rt, Duration::from_millis(LOOK_MILLISECONDS));
        }
        !self.is_ending()
    }

    /// Hands over what is told of a source, once what was told of it before was taken.
    pub fn hand_over(&self, delivery: Delivery<'c>) {
        if delivery.told.is_kept() {
            let _before = self.kept_told.fetch_add(1, Ordering::SeqCst);
        }
        let mut guard = self.counter.lock(self.rt);
        for _ in self.rt.forever() {
            if self.is_ending() || guard.is_free(delivery.source) {
                break;
            }
            let tick = Duration::from_millis(TICK_MILLISECONDS);
            (guard, _) = self.taken.wait_timeout(self.rt, guard, tick);
        }
        guard.put(delivery);
        drop(guard);
        self.came.notify_one();
    }

    /// What was told, or nothing where nothing comes within this time.
    pub fn take_all(&self, patience: Duration) -> Result<Vec<Delivery<'c>>, AllocError> {
        let mut guard = self.counter.lock(self.rt);
        if guard.is_empty() && !self.is_ending() {
            (guard, _) = self.came.wait_timeout(self.rt, guard, patience);
        }
        let taken = guard.take(self.alloc);
        drop(guard);
        self.taken.notify_all();
        taken
    }

    /// Waits until the next round of a source, or until the watch ends or comes to know a handover.
    pub fn pause(&self) {
        let was_handed_over = self.is_handed_over.load(Ordering::SeqCst);
        let mut left = u64::from(self.words.every);
        for _ in 0..left {
            if left == 0 || self.is_ending() {
                return;
            }
            if !was_handed_over && self.is_handed_over.load(Ordering::SeqCst) {
                return;
            }
            let step = left.min(TICK_MILLISECONDS);
            thread::sleep(self.rt, Duration::from_millis(step));
            left -= step;
        }
    }
}
