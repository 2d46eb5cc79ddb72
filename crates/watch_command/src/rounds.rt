//! The thread that collects what comes, round by round: it hands it to the desk, and tells what the desk says is new.

ghost use Rattle.std.specs.Prelude.{◌≡◌, ◌≢◌, ◌*◌, IfErr, min};
ghost use Rattle.watch_command.specs.declared.rounds.TheConstants.{PATIENCE_MILLISECONDS, REST};

use crate::fault::{Fault, fault_of_evidence};
use crate::gone_over::{stay_path, store_next};
use crate::next::{put_committee, put_goes_over, put_stands};
use crate::publishing::{publish, replicas_of};
use crate::queue::Line;
use crate::shop::{Delivery, StoredPart, Told, WatchShared};
use crate::since::Since;
use crate::verdict_files::{Kept, VerdictFolder};
use audit_picture::recent_picture;
use log_request::Heard;
use program_parts::ProgramFault;
use std::alloc::AllocError;
use std::fs::{File, Files};
use std::sync::Wait;
use std::sync::atomic::Ordering;
use std::thread::Threads;
use std::time::{Clock, Duration, Instant};
use watch_desk::{KeptVerdicts, KnownVerdict, News, VerdictPlace, WatchDesk, put_news};
use watch_report::{put_kept, put_lost, put_source_alarm, put_unstored, stamp, utc_text};
use watch_web::seconds_now;

/// How long the collector waits for what comes, in milliseconds: then it looks whether the watch is to end. So long an audit
/// waits at most, too.
const PATIENCE_MILLISECONDS: u64 = 500;

/// How many times as long as an audit took the next one waits.
const REST: u64 = 3;

/// The desk of a watch, and what the shell around it knows.
#[derive(Drop)]
pub(crate) struct Rounds<'c> {
    pub desk: WatchDesk<'c>,
    /// Where the verdicts are that the desk knows, in their order.
    pub places: Vec<VerdictPlace>,
    // Of each replica, whether something else is under the first name of its verdict.
    taken: Vec<bool>,
    /// The picture of the last audit.
    pub picture: Option<String>,
    /// Since when what is shown holds.
    pub since: Since,
    pub round: u64,
    // Of each source, whether a part of a log is not stored.
    gaps: Vec<bool>,
    // Something came that was not audited yet.
    is_due: bool,
    /// How many microseconds the rounds took, but for what they publish.
    pub took: u64,
    // When the last audit ended, and how many milliseconds the next one waits from then on.
    audited: Option<Instant>,
    rest: u64,
}

/// Collects until the watch ends. Answers whether there are culprits.
pub(crate) fn collect<'c, T: Files<File = File> + Threads + Wait + Clock + Sync>(
    shop: &WatchShared<'_, '_, 'c, T>,
) -> Result<bool, Fault<'static>>
    ensures { IfErr result (λ fault. fault ≢ ProgramFault.Output) }
{
    let folder = VerdictFolder {
        files: shop.rt,
        alloc: shop.alloc,
        path: shop.words.folder,
        committee: shop.number,
    };
    let mut rounds = Rounds::open(shop, &folder)?;
    // Culprits of verdicts that are kept are shown before kept logs are read.
    publish(shop, &rounds)?;
    for _ in shop.rt.forever() {
        if rounds.is_over(shop) {
            break;
        }
        let told = shop.take_all(rounds.patience(shop))?;
        rounds.take_round(shop, &folder, told)?;
    }
    rounds.finish(shop, &folder)?;
    let culprits = rounds.desk.told().verdicts().len() as u64;
    shop.culprits.store(culprits, Ordering::SeqCst);
    rounds.leave(shop)?;
    Ok(rounds.desk.has_culprits())
}

impl<'c> Rounds<'c> {
    // Nothing came yet. The verdicts that are kept in the folder are told.
    fn open<T: Files<File = File> + Wait + Clock>(
        shop: &WatchShared<'_, '_, 'c, T>,
        folder: &VerdictFolder<'_, '_, T>,
    ) -> Result<Rounds<'c>, AllocError> {
        let stamp = stamp_now(shop, 0)?;
        tell_stands(shop, &stamp)?;
        let mut kept = KeptVerdicts::new(shop.alloc, shop.committee);
        let mut places = Vec::new(shop.alloc);
        let mut taken = Vec::new(shop.alloc);
        for replica in 0..shop.committee.n() {
            let found = folder.kept(&mut kept, replica)?;
            taken.push(found == Kept::Other)?;
            if let Some(place) = tell_kept(shop, folder, &stamp, replica, found)? {
                places.push(place)?;
                shop.accuse(replica);
            }
        }
        Ok(Rounds {
            desk: kept.open(&replicas_of(shop.alloc, shop.targets)?)?,
            places,
            taken,
            picture: None,
            since: Since::new(shop.alloc, shop.targets.len())?,
            round: 0,
            gaps: vec![in shop.alloc; false; shop.targets.len()]?,
            is_due: false,
            took: 0,
            audited: None,
            rest: 0,
        })
    }

    // Whether the watch is to end, or to go over.
    fn is_over<T: Wait + Clock>(&self, shop: &WatchShared<'_, '_, 'c, T>) -> bool {
        shop.is_leaving() || self.is_end(shop)
    }

    // Whether the watch is to end.
    fn is_end<T: Wait + Clock>(&self, shop: &WatchShared<'_, '_, 'c, T>) -> bool {
        if shop.is_ending() || (shop.words.until_culprit && self.has_stored()) {
            return true;
        }
        shop.words.until_input_ends && shop.input_ended.load(Ordering::SeqCst)
    }

    fn has_stored(&self) -> bool {
        self.places.iter().any(|place| !place.is_unstored)
    }

    /// Whether something could not be stored.
    pub fn is_unstored(&self) -> bool {
        self.gaps.iter().any(|gap| *gap) || self.places.iter().any(|place| place.is_unstored)
    }

    // How many milliseconds the next audit is still to wait.
    fn rest_left<T: Wait + Clock>(&self, shop: &WatchShared<'_, '_, 'c, T>) -> u64 {
        let Some(since) = self.audited else {
            return 0;
        };
        match since.elapsed(shop.rt) {
            Ok(elapsed) => self.rest.saturating_sub(milliseconds_of(elapsed)),
            Err(_) => 0,
        }
    }

    // How long to wait for what comes.
    fn patience<T: Wait + Clock>(&self, shop: &WatchShared<'_, '_, 'c, T>) -> Duration {
        if self.is_due && !shop.reads_kept() {
            return Duration::from_millis(self.rest_left(shop));
        }
        Duration::from_millis(PATIENCE_MILLISECONDS)
    }

    // Hands what was told to the desk, audits it where something is new, and publishes what is known then.
    fn take_round<T: Files<File = File> + Threads + Wait + Clock + Sync>(
        &mut self,
        shop: &WatchShared<'_, '_, 'c, T>,
        folder: &VerdictFolder<'_, '_, T>,
        told: Vec<Delivery<'c>>,
    ) -> Result<(), Fault<'static>>
        ensures { IfErr result (λ fault. fault ≢ ProgramFault.Output) }
    {
        let begun = Instant::now(shop.rt).ok();
        self.round = self.round.saturating_add(1);
        let stamp = stamp_now(shop, self.round)?;
        tell_lost(shop, &stamp)?;
        for delivery in told {
            self.take(shop, &stamp, &delivery)?;
        }
        self.store_again(folder);
        // What is kept is audited once, when all of it was added.
        if self.is_due && !shop.reads_kept() && self.rest_left(shop) == 0 {
            self.audit(shop, folder, &stamp)?;
        }
        self.note_round(shop, begun);
        let is_unstored = self.is_unstored();
        self.since
            .note(&self.desk, is_unstored, seconds_now(shop.rt));
        publish(shop, self)?;
        Ok(())
    }

    // Where the watch ends while an audit waits, that is made.
    fn finish<T: Files<File = File> + Wait + Clock>(
        &mut self,
        shop: &WatchShared<'_, '_, 'c, T>,
        folder: &VerdictFolder<'_, '_, T>,
    ) -> Result<(), AllocError> {
        if self.is_due && !shop.is_ending() && !shop.reads_kept() {
            let stamp = stamp_now(shop, self.round)?;
            self.audit(shop, folder, &stamp)?;
        }
        Ok(())
    }

    // Where the watch goes over, stores the files of the next committee, where they are to be kept, and tells it. Where it ends instead it
    // goes over to none.
    fn leave<T: Files<File = File> + Wait + Clock>(
        &self,
        shop: &WatchShared<'_, '_, 'c, T>,
    ) -> Result<(), AllocError> {
        let Some(next) = shop.take_offer() else {
            return Ok(());
        };
        if self.is_end(shop) {
            return Ok(());
        }
        let stamp = stamp_now(shop, self.round)?;
        let number = shop.number.saturating_add(1);
        if let Some(dir) = shop.words.state
            && store_next(shop.rt, shop.alloc, dir, number, &next).is_err()
        {
            let path = stay_path(shop.alloc, dir, number)?;
            let mut line = Vec::new(shop.alloc);
            put_unstored(&mut line, &stamp, path.as_bytes())?;
            shop.queue.say(shop.rt, Line::Lasting(line));
        }
        let mut line = Vec::new(shop.alloc);
        put_goes_over(&mut line, &stamp, number, &next.following)?;
        shop.queue.say(shop.rt, Line::Lasting(line));
        shop.choose(next);
        Ok(())
    }

    // Hands what was told of a source to the desk.
    fn take<T: Threads + Wait + Clock + Sync>(
        &mut self,
        shop: &WatchShared<'_, '_, 'c, T>,
        stamp: &[u8],
        delivery: &Delivery<'c>,
    ) -> Result<(), Fault<'static>>
        ensures { IfErr result (λ fault. fault ≢ ProgramFault.Output) }
    {
        let i = delivery.source;
        if i >= self.desk.sources() {
            return Ok(());
        }
        match &delivery.told {
            Told::Part(stored) => return self.take_part(shop, stamp, i, stored),
            Told::WentBack(had) => {
                let second = seconds_now(shop.rt).max(1);
                tell_one(shop, stamp, self.desk.go_back(i, self.round, second, *had))?;
            }
            Told::Gives(given) => self.desk.give(i, *given),
            Told::GivesKept(log) => tell_all(shop, stamp, &self.desk.count_kept(i, *log)?)?,
            Told::Beyond => tell_one(shop, stamp, self.desk.go_beyond(i))?,
            Told::Server(heard) => tell_server(shop, stamp, i, *heard)?,
            Told::Unstored(path) => self.tell_unstored(shop, stamp, i, path)?,
            Told::Stored => self.note_gap(i, false),
            Told::WrongNext => {
                let line = source_line(shop, stamp, i, b"wrong-next")?;
                shop.queue.say(shop.rt, Line::Lasting(line));
            }
            Told::Stays => {
                let line = source_line(shop, stamp, i, b"stays")?;
                shop.queue.say(shop.rt, Line::Lasting(line));
            }
        }
        Ok(())
    }

    // Hands a part of a log of a source to the desk.
    fn take_part<T: Threads + Wait + Clock + Sync>(
        &mut self,
        shop: &WatchShared<'_, '_, 'c, T>,
        stamp: &[u8],
        i: usize,
        stored: &StoredPart<'c>,
    ) -> Result<(), Fault<'static>>
        ensures { IfErr result (λ fault. fault ≢ ProgramFault.Output) }
    {
        if let Some(path) = &stored.unstored {
            self.tell_unstored(shop, stamp, i, path)?;
        }
        if i >= self.desk.sources() {
            return Ok(());
        }
        let news = match self.desk.take(shop.rt, i, &stored.new) {
            Ok(news) => news,
            Err(refusal) => return Err(fault_of_evidence(refusal)),
        };
        tell_all(shop, stamp, &news)?;
        if stored.new.part.report().frames > 0 {
            self.is_due = true;
        }
        if stored.new.is_kept {
            shop.note_added();
        }
        Ok(())
    }

    fn note_gap(&mut self, i: usize, is_there: bool) {
        if let Some(gap) = self.gaps.get_mut(i) {
            *gap = is_there;
        }
    }

    // A part of a log of a source is not stored at this path.
    fn tell_unstored<T: Wait + Clock>(
        &mut self,
        shop: &WatchShared<'_, '_, 'c, T>,
        stamp: &[u8],
        i: usize,
        path: &String,
    ) -> Result<(), AllocError> {
        self.note_gap(i, true);
        let mut line = Vec::new(shop.alloc);
        put_unstored(&mut line, stamp, path.as_bytes())?;
        shop.queue.say(shop.rt, Line::Lasting(line));
        Ok(())
    }

    // Audits what came so far, and tells what is new.
    fn audit<T: Files<File = File> + Wait + Clock>(
        &mut self,
        shop: &WatchShared<'_, '_, 'c, T>,
        folder: &VerdictFolder<'_, '_, T>,
        stamp: &[u8],
    ) -> Result<(), AllocError> {
        self.is_due = false;
        let begun = Instant::now(shop.rt).ok();
        let audited = self.desk.audit()?;
        for news in &audited.news {
            match news {
                News::Culprit(found) => self.name(shop, folder, stamp, news, found.get())?,
                News::Handover(block, _) => {
                    if shop.words.lineage {
                        shop.note_handover(block.header().payload);
                    }
                    tell(shop, stamp, news, b"")?;
                }
                _ => tell(shop, stamp, news, b"")?,
            }
        }
        if shop.server.is_some() {
            let picture = recent_picture(
                shop.alloc,
                &audited.evidence,
                &audited.searched,
                &audited.report,
            )?;
            self.picture = Some(picture);
        }
        self.note_audit(shop, begun);
        Ok(())
    }

    // A round that began then has ended now, but for what it publishes.
    fn note_round<T: Wait + Clock>(
        &mut self,
        shop: &WatchShared<'_, '_, 'c, T>,
        begun: Option<Instant>,
    ) {
        if let Some(begun) = begun
            && let Ok(took) = begun.elapsed(shop.rt)
        {
            let took = u64::try_from(took.as_micros()).unwrap_or(u64::MAX);
            self.took = self.took.saturating_add(took);
        }
    }

    // An audit that began then has ended now.
    fn note_audit<T: Wait + Clock>(
        &mut self,
        shop: &WatchShared<'_, '_, 'c, T>,
        begun: Option<Instant>,
    ) {
        self.rest = 0;
        if let Some(begun) = begun
            && let Ok(took) = begun.elapsed(shop.rt)
        {
            self.rest = rest_after(milliseconds_of(took));
        }
        self.audited = Instant::now(shop.rt).ok();
    }

    // Stores the verdict on a culprit, and tells it.
    fn name<T: Files<File = File> + Wait + Clock>(
        &mut self,
        shop: &WatchShared<'_, '_, 'c, T>,
        folder: &VerdictFolder<'_, '_, T>,
        stamp: &[u8],
        news: &News,
        found: &KnownVerdict,
    ) -> Result<(), AllocError> {
        let replica = found.replica();
        let second = match self.taken.get(usize::from(replica)) {
            Some(taken) => *taken,
            None => false,
        };
        let path = folder.path_of(replica, second)?;
        let is_unstored = folder.store(&path, found.as_bytes()).is_err();
        tell(shop, stamp, news, path.as_bytes())?;
        if is_unstored {
            let mut line = Vec::new(shop.alloc);
            put_unstored(&mut line, stamp, path.as_bytes())?;
            shop.queue.say(shop.rt, Line::Lasting(line));
        }
        shop.accuse(replica);
        let since = seconds_now(shop.rt);
        self.places.push(VerdictPlace {
            path,
            is_unstored,
            since,
        })?;
        Ok(())
    }

    // Tries again to store what could not be stored.
    fn store_again<T: Files<File = File>>(&mut self, folder: &VerdictFolder<'_, '_, T>) {
        let verdicts = self.desk.told().verdicts();
        for (place, verdict) in self.places.iter_mut().zip(verdicts) {
            if place.is_unstored && folder.store(&place.path, verdict.get().as_bytes()).is_ok() {
                place.is_unstored = false;
            }
        }
    }
}

// Tells what was found under the names of a replica's verdict. Answers where that is, where it is one.
fn tell_kept<T: Files<File = File> + Wait + Clock>(
    shop: &WatchShared<'_, '_, '_, T>,
    folder: &VerdictFolder<'_, '_, T>,
    stamp: &[u8],
    replica: u16,
    found: Kept,
) -> Result<Option<VerdictPlace>, AllocError> {
    let mut line = Vec::new(shop.alloc);
    match found {
        Kept::Free => Ok(None),
        Kept::Verdict(second) => {
            let path = folder.path_of(replica, second)?;
            put_kept(&mut line, stamp, replica, path.as_bytes())?;
            shop.queue.say(shop.rt, Line::Lasting(line));
            Ok(Some(VerdictPlace {
                path,
                is_unstored: false,
                since: 0,
            }))
        }
        Kept::Other => {
            let path = folder.path_of(replica, false)?;
            put_unstored(&mut line, stamp, path.as_bytes())?;
            shop.queue.say(shop.rt, Line::Lasting(line));
            Ok(None)
        }
    }
}

// What was heard of the server of a source. It may come again.
fn tell_server<T: Wait + Clock>(
    shop: &WatchShared<'_, '_, '_, T>,
    stamp: &[u8],
    i: usize,
    heard: Heard,
) -> Result<(), AllocError> {
    let word = match heard {
        Heard::Nothing | Heard::Named => return Ok(()),
        Heard::Unnamed => b"unnamed".as_slice(),
        Heard::NoLog => b"no-log".as_slice(),
    };
    let line = source_line(shop, stamp, i, word)?;
    shop.queue.say(shop.rt, Line::Passing(line));
    Ok(())
}

// The line that says this of a source.
fn source_line<T: Wait + Clock>(
    shop: &WatchShared<'_, '_, '_, T>,
    stamp: &[u8],
    i: usize,
    word: &[u8],
) -> Result<Vec<u8>, AllocError> {
    let mut line = Vec::new(shop.alloc);
    if let Some(target) = shop.targets.get(i) {
        put_source_alarm(&mut line, stamp, word, i, target.replica)?;
    }
    Ok(line)
}

// How many lines were dropped, where there is room for that.
fn tell_lost<T: Wait + Clock>(
    shop: &WatchShared<'_, '_, '_, T>,
    stamp: &[u8],
) -> Result<(), AllocError> {
    let lost = shop.queue.take_lost(shop.rt);
    if lost > 0 {
        let mut line = Vec::new(shop.alloc);
        put_lost(&mut line, stamp, lost)?;
        shop.queue.say(shop.rt, Line::Lasting(line));
    }
    Ok(())
}

// Which of its replica's sources the one is of which this is told.
fn nth_of<T: Wait + Clock>(shop: &WatchShared<'_, '_, '_, T>, news: &News) -> u16 {
    let News::Status(i, _, _) = news else {
        return 0;
    };
    match shop.targets.get(*i) {
        Some(target) => target.nth,
        None => 0,
    }
}

// Puts the line of something new into the queue. A source that is set aside is read no more.
fn tell<T: Wait + Clock>(
    shop: &WatchShared<'_, '_, '_, T>,
    stamp: &[u8],
    news: &News,
    path: &[u8],
) -> Result<(), AllocError> {
    let mut line = Vec::new(shop.alloc);
    put_news(&mut line, stamp, news, path, nth_of(shop, news))?;
    if let News::SetAside(i, _) = news {
        shop.set_aside(*i);
    }
    let line = if news.may_be_dropped() {
        Line::Passing(line)
    } else {
        Line::Lasting(line)
    };
    shop.queue.say(shop.rt, line);
    Ok(())
}

fn tell_one<T: Wait + Clock>(
    shop: &WatchShared<'_, '_, '_, T>,
    stamp: &[u8],
    news: Option<News>,
) -> Result<(), AllocError> {
    match news {
        Some(news) => tell(shop, stamp, &news, b""),
        None => Ok(()),
    }
}

fn tell_all<T: Wait + Clock>(
    shop: &WatchShared<'_, '_, '_, T>,
    stamp: &[u8],
    all: &[News],
) -> Result<(), AllocError> {
    for news in all {
        tell(shop, stamp, news, b"")?;
    }
    Ok(())
}

// How many milliseconds the next audit waits behind one that took so many.
fn rest_after(took: u64) -> u64
    ensures { result ≡ min (took * REST) PATIENCE_MILLISECONDS }
{
    took.saturating_mul(REST).min(PATIENCE_MILLISECONDS)
}

fn milliseconds_of(time: Duration) -> u64 {
    u64::try_from(time.as_millis()).unwrap_or(u64::MAX)
}

// What stands before each line of a round that is told now.
fn stamp_now<T: Wait + Clock>(
    shop: &WatchShared<'_, '_, '_, T>,
    round: u64,
) -> Result<Vec<u8>, AllocError> {
    let time = utc_text(shop.alloc, seconds_now(shop.rt))?;
    let mut text = stamp(shop.alloc, &time, round)?;
    if shop.words.lineage {
        put_committee(&mut text, shop.number)?;
    }
    Ok(text)
}

// Tells with which committee the watch begins, or goes on.
fn tell_stands<T: Wait + Clock>(
    shop: &WatchShared<'_, '_, '_, T>,
    stamp: &[u8],
) -> Result<(), AllocError> {
    if !shop.words.lineage {
        return Ok(());
    }
    let mut line = Vec::new(shop.alloc);
    put_stands(&mut line, stamp, shop.number, &shop.committee.chain())?;
    shop.queue.say(shop.rt, Line::Lasting(line));
    Ok(())
}
