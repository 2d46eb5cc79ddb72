//! A watch from its words to its end.

ghost use Rattle.std.specs.Prelude.{◌≡◌, ◌≢◌, ◌⊎◌, IfOk};
ghost use Rattle.base_text.specs.Printed.{Told};
ghost use Rattle.watch_command.specs.Ends.{Fault as FaultValue};
ghost use Rattle.watch_command.specs.FaultLines.{watch_fault_line};

use crate::exporting::give_out;
use crate::fault::{Fault, FolderFile, WatchFault, fault_of_evidence};
use crate::following::follow;
use crate::gone_over::{Standing, last_kept, stay_path};
use crate::next::NextFiles;
use crate::publishing::first_snapshot;
use crate::queue::{Line, Queue};
use crate::rounds::collect;
use crate::runtime::Runtime;
use crate::serving::{Server, answer_all};
use crate::shop::{Hall, SourceOrigin, Stay, Target, WatchShared, answerers_of};
use crate::verdict_files::VerdictFolder;
use crate::words::{Task, Words, read_words};
use base_streams::Sink;
use blocks::CommitteeView;
use program_parts::{
    InputFault, MOST_OF_A_SHORT_FILE, Origin, ProgramFault, SourceWord, exit_status,
    parse_committee, read_committee, read_file,
};
use std::alloc::{AllocError, Global};
use std::fs::{File, Files};
use std::net::{Net, TcpListener, TcpStream};
use std::random::RandomSource;
use std::str::from_utf8;
use std::sync::Wait;
use std::sync::atomic::{AtomicBool, AtomicU64, Ordering};
use std::thread::Threads;
use std::time::Clock;
use std::{io, thread};
use watch_report::Snapshot;
use watch_state::{StateFault, StateFolder, open_state};

/// The watch ended, and had found no culprit.
pub const DONE: u8 = 0;

/// The watch ended, and has a verdict on each of one or more culprits.
pub const CULPRITS: u8 = 3;

/// Where Linux tells the name of the machine.
const HOST_NAME: &str = "/proc/sys/kernel/hostname";

/// What a watch works with.
#[derive(Drop)]
pub struct WatchHost<'a, T> {
    /// Files, threads, locks, a clock and sockets.
    pub rt: &'a T,
    /// Memory.
    pub alloc: Global,
    /// Whether the input has ended, of a watch that its end ends.
    pub input_ended: &'a AtomicBool,
}

// What one thread does.
#[derive(Drop)]
enum Job {
    Follow(usize),
    Collect,
    Answer,
}

/// Runs a watch as the words say, until what they say ends it, or until it is killed; or gives out what one kept. Answers the
/// exit status: 3 where there were culprits, else 0, and 2 at a fault, whose line then goes to `faults`.
pub fn run_watch<
    'h,
    T: Files<File = File>
        + AllocGlobal
        + Clone
        + Drop
        + Threads
        + Wait
        + Clock
        + Net<Listener = TcpListener, Stream = TcpStream>
        + RandomSource
        + Sync,
    W: Sink + Send,
    E: Sink,
>(host: &'h WatchHost<'h, T>, words: &[String], out: &mut W, faults: &mut E) -> u8
where
    T::Dir: Send,
    ensures status { (result ≡ 0) ⊎ ((result ≡ 2) ⊎ (result ≡ 3)) }
    ensures quiet { result ≢ 2 → faults.new ≡ faults.old }
    ensures told { result ≡ 2 → (fault : FaultValue)
        × Told (E.text faults.old) (E.text faults.new) (E.failed faults.old) (E.failed faults.new)
        (watch_fault_line fault) }
{
    exit_status(run(host, words, out), faults)
}

fn run<'a, 'h, T: Runtime, W: Sink + Send>(
    host: &'h WatchHost<'h, T>,
    words: &'a [String],
    out: &mut W,
) -> Result<u8, Fault<'a>>
where
    T::Dir: Send,
    ensures { IfOk result (λ status. (status ≡ 0) ⊎ (status ≡ 3)) }
{
    let words = match read_words(host.alloc, words) {
        Ok(Task::Watch(words)) => words,
        Ok(Task::Export(words)) => return give_out(host, &words, out),
        Err(fault) => return Err(fault),
    };
    let bytes = read_committee(host.rt, host.alloc, words.committee)?;
    let committee = parse_committee(&bytes)?;
    let folder = VerdictFolder {
        files: host.rt,
        alloc: host.alloc,
        path: words.folder,
        committee: 0,
    };
    let lock = folder.lock()?;
    let (state, state_lock) = match state_of(host, &words, &committee)? {
        Some((state, lock)) => (Some(state), Some(lock)),
        None => (None, None),
    };
    let standing = standing_of(host, &words, bytes.clone()?)?;
    let found = match watch(host, &words, &standing, state.as_ref(), out) {
        Ok(found) => found,
        Err(fault) => return Err(fault),
    };
    drop(state_lock);
    drop(lock);
    if found { Ok(CULPRITS) } else { Ok(DONE) }
}

// The committee with which the watch begins: the first, whose file this is, or the last to which it went over before.
fn standing_of<'a, T: Files<File = File>>(
    host: &WatchHost<'_, T>,
    words: &Words<'a>,
    first: Vec<u8>,
) -> Result<Standing, Fault<'a>> {
    match words.state {
        Some(dir) if words.lineage => last_kept(host, dir, first),
        _ => Ok(Standing {
            number: 0,
            earlier_culprits: 0,
            file: first,
        }),
    }
}

// Where what is read is kept, if it is, and its lock.
fn state_of<'a, 'h, T: Files<File = File> + AllocGlobal + Clone + Drop>(
    host: &'h WatchHost<'h, T>,
    words: &Words<'a>,
    committee: &CommitteeView<'_>,
) -> Result<Option<(StateFolder<'h, 'a, T>, File)>, Fault<'a>> {
    let Some(path) = words.state else {
        return Ok(None);
    };
    match open_state(
        host.rt,
        host.alloc,
        path,
        &committee.chain(),
        words.keep_most,
    ) {
        Ok(opened) => Ok(Some(opened)),
        Err(fault) => Err(fault_of_state(path, fault)),
    }
}

pub(crate) fn fault_of_state<'a>(path: &'a str, fault: StateFault) -> Fault<'a>
    ensures { result ≢ ProgramFault.Output }
{
    match fault {
        StateFault::Memory => Fault::Memory,
        StateFault::Folder => Fault::File(path),
        StateFault::Lock => Fault::Own(WatchFault::FileIn(path, FolderFile::Lock)),
        StateFault::Chain => Fault::Own(WatchFault::FileIn(path, FolderFile::Chain)),
        StateFault::OtherChain => Fault::Own(WatchFault::State),
    }
}

// Which of the sources of its replica the i-th is.
fn nth_of(words: &Words, i: usize, replica: u16) -> u16 {
    let mut nth: u16 = 0;
    for word in words.sources.get(..i).unwrap_or(&[]) {
        if word.replica == replica {
            nth = nth.saturating_add(1);
        }
    }
    nth
}

// The sources. A server's name is looked up at each dial, so none that has no address stops a start.
fn targets_of<'a>(alloc: Global, words: &Words<'a>) -> Result<Vec<Target<'a>>, AllocError> {
    let mut targets = Vec::with_capacity(alloc, words.sources.len())?;
    for (i, word) in words.sources.iter().enumerate() {
        targets.push(Target {
            word: words.source_words.get(i).copied().unwrap_or(""),
            replica: word.replica,
            nth: nth_of(words, i, word.replica),
            place: place_of(word),
            answered: AtomicU64::new(0),
            framed: AtomicU64::new(0),
            aside: AtomicBool::new(false),
            accused: AtomicBool::new(false),
            stays: AtomicU64::new(0),
        })?;
    }
    Ok(targets)
}

fn place_of<'a>(word: &SourceWord<'a>) -> SourceOrigin<'a> {
    match word.origin {
        Origin::File(path) => SourceOrigin::File(path),
        Origin::Tcp(name) => SourceOrigin::Server(name),
    }
}

// Watches one committee after the other, beside what prints lines. Answers whether there are culprits.
fn watch<'x, 'w, T: Runtime, W: Sink + Send>(
    host: &'x WatchHost<'x, T>,
    words: &'x Words<'w>,
    standing: &'x Standing,
    state: Option<&'x StateFolder<'x, 'w, T>>,
    out: &mut W,
) -> Result<bool, Fault<'w>>
where
    T::Dir: Send,
{
    let queue = Queue::new(host.alloc);
    let server = server_of(host, words, standing, state, &queue)?;
    let hall = Hall {
        queue,
        server,
        halted: AtomicBool::new(false),
    };
    let course = Course {
        host,
        words,
        hall: &hall,
        first: standing,
        state,
    };
    watch_and_print(&course, out)
}

// What a watch does from its first committee on.
#[derive(Drop)]
struct Course<'a, 'w, T> {
    host: &'a WatchHost<'a, T>,
    words: &'a Words<'w>,
    hall: &'a Hall,
    // Where it begins.
    first: &'a Standing,
    // What is kept of the chain of committee 0.
    state: Option<&'a StateFolder<'a, 'w, T>>,
}

fn watch_and_print<'w, T: Runtime, W: Sink + Send>(
    course: &Course<'_, 'w, T>,
    out: &mut W,
) -> Result<bool, Fault<'w>>
where
    T::Dir: Send,
{
    let (worked, printed) = thread::join(
        course.host.rt,
        || watch_all(course),
        || print_all(course, out),
    );
    match printed {
        Ok(()) => worked,
        Err(_) => Err(Fault::Output),
    }
}

// Watches one committee after the other. No more lines come then.
fn watch_all<'w, T: Runtime>(course: &Course<'_, 'w, T>) -> Result<bool, Fault<'w>>
where
    T::Dir: Send,
{
    let outcome = watch_each(course);
    course.hall.queue.close(course.host.rt);
    outcome
}

fn watch_each<'w, T: Runtime>(course: &Course<'_, 'w, T>) -> Result<bool, Fault<'w>>
where
    T::Dir: Send,
{
    let mut found = false;
    let mut standing = course.first.again()?;
    for _ in course.host.rt.forever() {
        let Ended { culprits, next } = match watch_at(course, &standing) {
            Ok(ended) => ended,
            Err(fault) => return Err(fault),
        };
        found = found || culprits > 0;
        match next {
            Some(next) => standing = standing.next(culprits, next.file),
            None => break,
        }
    }
    Ok(found)
}

// Watches the committee where the watch stands. What is kept of all but the first stands in a folder of its own.
fn watch_at<'w, T: Runtime>(
    course: &Course<'_, 'w, T>,
    standing: &Standing,
) -> Result<Ended, Fault<'w>>
where
    T::Dir: Send,
{
    let (host, words, hall) = (course.host, course.words, course.hall);
    let committee = parse_committee(&standing.file)?;
    let stay = Stay {
        number: standing.number,
        earlier_culprits: standing.earlier_culprits,
        committee: &committee,
    };
    let Some(dir) = words.state else {
        return watch_one(host, words, hall, &stay, None);
    };
    if stay.number == 0 {
        return watch_one(host, words, hall, &stay, course.state);
    }
    let path = stay_path(host.alloc, dir, stay.number)?;
    let chain = committee.chain();
    match open_state(host.rt, host.alloc, &path, &chain, words.keep_most) {
        Ok((state, lock)) => {
            let ended = watch_one(host, words, hall, &stay, Some(&state));
            drop(lock);
            ended
        }
        Err(StateFault::Memory) => Err(Fault::Memory),
        Err(_) => {
            let file = FolderFile::Stay(stay.number);
            Err(Fault::Own(WatchFault::FileIn(dir, file)))
        }
    }
}

// How the watch of one committee ended.
#[derive(Drop)]
struct Ended {
    culprits: u64,
    // The committee to which it goes over, if it does.
    next: Option<NextFiles>,
}

// Watches one committee, with a thread for each source and one that collects, until the watch ends or goes over.
fn watch_one<'x, T: Runtime>(
    host: &'x WatchHost<'x, T>,
    words: &'x Words<'x>,
    hall: &'x Hall,
    stay: &'x Stay<'x, 'x>,
    state: Option<&'x StateFolder<'x, 'x, T>>,
) -> Result<Ended, Fault<'static>>
where
    T::Dir: Send,
{
    let targets = targets_of(host.alloc, words)?;
    let shop = WatchShared::new(host, words, hall, stay, &targets, state)?;
    let jobs = jobs_of(host.alloc, targets.len(), answerers_of(shop.server))?;
    match work_all(&shop, jobs) {
        Ok(_) => Ok(Ended {
            culprits: shop.culprits.load(Ordering::SeqCst),
            next: shop.take_chosen(),
        }),
        Err(fault) => Err(fault),
    }
}

// The name of the watch: the one that was said, or else that of the machine, if it tells one.
fn name_of<T: Files<File = File>>(
    host: &WatchHost<'_, T>,
    words: &Words<'_>,
) -> Result<String, AllocError> {
    if let Some(name) = words.name {
        return String::from_str(host.alloc, name);
    }
    let text = match read_file(host.rt, host.alloc, HOST_NAME, MOST_OF_A_SHORT_FILE) {
        Ok(text) => text,
        Err(InputFault::Memory) => return Err(AllocError),
        Err(InputFault::Unreadable) => return Ok(String::new(host.alloc)),
    };
    match from_utf8(&text) {
        Ok(name) => String::from_str(host.alloc, name.strip_suffix("\n").unwrap_or(name)),
        Err(_) => Ok(String::new(host.alloc)),
    }
}

// Where what the watch knows is told, if it is. The line that says so is the first that is printed.
fn server_of<T: Runtime>(
    host: &WatchHost<'_, T>,
    words: &Words<'_>,
    standing: &Standing,
    state: Option<&StateFolder<'_, '_, T>>,
    queue: &Queue,
) -> Result<Option<Server>, Fault<'static>> {
    let Some(address) = words.listen else {
        return Ok(None);
    };
    let name = name_of(host, words)?;
    let committee = parse_committee(&standing.file)?;
    let targets = targets_of(host.alloc, words)?;
    let seen = first_snapshot(
        host,
        &committee,
        standing.number,
        words,
        &targets,
        state,
        name,
    )?;
    match listen(host, address, seen, queue) {
        Ok(server) => Ok(Some(server)),
        Err(error) => Err(Fault::unless_memory(&error, Fault::Own(WatchFault::Listen))),
    }
}

fn listen<T: Runtime>(
    host: &WatchHost<'_, T>,
    address: &str,
    seen: Snapshot,
    queue: &Queue,
) -> io::Result<Server> {
    let server = Server::listen(host.rt, host.alloc, address, seen)?;
    queue.say(host.rt, Line::Lasting(server.line(host.alloc)?));
    Ok(server)
}

fn jobs_of(alloc: Global, sources: usize, answerers: usize) -> Result<Vec<Job>, AllocError> {
    let mut jobs = Vec::new(alloc);
    jobs.push(Job::Collect)?;
    for source in 0..sources {
        jobs.push(Job::Follow(source))?;
    }
    for _ in 0..answerers {
        jobs.push(Job::Answer)?;
    }
    Ok(jobs)
}

// Prints lines until no more come. Where one can't be printed the watch ends.
fn print_all<T: Runtime, W: Sink>(
    course: &Course<'_, '_, T>,
    out: &mut W,
) -> Result<(), base_streams::Fault> {
    let (host, hall) = (course.host, course.hall);
    let printed = hall.queue.print_all(host.rt, host.alloc, out);
    if printed.is_err() {
        hall.halted.store(true, Ordering::SeqCst);
    }
    printed
}

// A thread for each job. Answers whether there are culprits, once all have ended.
fn work_all<T: Runtime>(
    shop: &WatchShared<'_, '_, '_, T>,
    jobs: Vec<Job>,
) -> Result<bool, Fault<'static>>
where
    T::Dir: Send,
{
    let outcome = thread::map_vec(shop.rt, jobs, &|job: Job| { work(shop, job) });
    shop.end();
    let mut found = false;
    for end in outcome? {
        match end {
            Ok(culprits) => found = found || culprits,
            Err(fault) => return Err(fault),
        }
    }
    Ok(found)
}

// Does a job until the watch ends. Where it can't go on, the watch ends.
fn work<T: Runtime>(shop: &WatchShared<'_, '_, '_, T>, job: Job) -> Result<bool, Fault<'static>> {
    if !shop.begin() {
        return Err(Fault::Own(WatchFault::Threads));
    }
    let outcome = match job {
        Job::Collect => {
            let outcome = collect(shop);
            shop.end();
            outcome
        }
        Job::Answer => {
            if let Some(server) = shop.server {
                answer_all(shop, server);
            }
            Ok(false)
        }
        Job::Follow(source) => match follow(shop, source) {
            Ok(()) => Ok(false),
            Err(refusal) => Err(fault_of_evidence(refusal)),
        },
    };
    if outcome.is_err() {
        shop.end();
    }
    outcome
}
