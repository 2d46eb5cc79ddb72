//! One stay of a replica at its desk, while callers ask.

ghost use Rattle.std.specs.Prelude.{◌≡◌, ◌≤◌, IfErr, IfOk, length};
ghost use Rattle.vote_desk.specs.Receipts.{AreReceipts};
ghost use Rattle.signer_command.specs.Ends.{IsLate};
ghost use Rattle.signer_command.specs.Ruled.{AreRuled, asks_of};

use crate::fault::{Fault, SignerFault};
use crate::heard::Hearing;
use crate::home::Home;
use crate::lineage::Next;
use crate::listening::ListeningSocket;
use crate::making::Maker;
use crate::notes::Notes;
use crate::pool::{Job, PoolShared, Start, work_all};
use crate::successor::Successor;
use crate::words::Words;
use base_streams::Sink;
use blocks::CommitteeView;
use handover_folder::Standing;
use program_parts::SourceWord;
use signer_service::{Commits, Gate, Office, PutBack, Reception, Renewed, Rules, Sources, Tallies};
use signer_votes::{GoodVotes, SideBySide};
use stable_log::{Disk, FileDisk};
use std::alloc::{AllocError, Global};
use std::fs::{File, Files};
use std::hash::RandomState;
use std::marker::Brand;
use std::net::{Net, TcpListener, TcpStream};
use std::random::RandomSource;
use std::sync::atomic::AtomicBool;
use std::sync::ledger::Blank;
use std::sync::{Mutex, Wait};
use std::thread::Threads;
use std::time::{Clock, SystemTime, UNIX_EPOCH};
use vote_desk::{Closed, Desk, DeskError, DeskNaming, Parts, Session, StartError};

/// The sockets of a signer, and what the callers of each are let do.
#[derive(Drop)]
pub(crate) struct Sockets {
    pub calls: ListeningSocket,
    pub reads: Option<ListeningSocket>,
    pub log: Option<ListeningSocket>,
    pub call_rules: Rules,
    pub read_rules: Rules,
    pub keys: RandomState,
}

/// How many threads a socket beside that for calls has.
pub(crate) const THREADS_BESIDE: u8 = 2;

/// What a signer stays with, beside its desk.
#[derive(Drop)]
pub(crate) struct Room<'a, T: Wait, S: Sink> {
    pub rt: &'a T,
    pub alloc: Global,
    /// What its words ask for.
    pub words: &'a Words<'a>,
    pub committee: &'a CommitteeView<'a>,
    pub sessions: u8,
    pub sockets: &'a Sockets,
    pub notes: &'a Notes<'a, T, S>,
    /// The committee that it stands in, among those that it went over from.
    pub standing: &'a Standing,
    pub start: &'a Start,
    pub ghost least: { 1 ≤ sessions },
    pub ghost most: { sessions ≤ 64 },
}

// What all threads of a stay share, beside the desk.
#[derive(Drop)]
struct Shared<'a, N: DeskNaming, T: Wait + Files<File = File>, S: Sink, D: Disk> {
    commits: Commits<N>,
    tallies: Tallies,
    good: GoodVotes,
    home: Home<'a, T, S>,
    renewed: Renewed<N>,
    put_back: PutBack<N, D, Home<'a, T, S>>,
    gate: Gate<N, D>,
    sources: Sources,
    hearing: Hearing,
}

impl<'a, N: DeskNaming, T: Wait + Clock + Files<File = File>, S: Sink, D: Disk> Shared<
    'a,
    N,
    T,
    S,
    D,
> {
    // Who calls waits for others where the words name sources, and who says which committee may come next is the file that they name.
    fn new(room: &Room<'a, T, S>) -> Result<Shared<'a, N, T, S, D>, AllocError>
        ensures asks { IfOk result (λ shared.
            shared.gate.asks ≡ asks_of room.now.words.now.sources.items) }
        ensures path { IfOk result (λ shared.
            shared.home.successor.path ≡ room.now.words.now.successor) }
        ensures committee { IfOk result (λ shared.
            shared.home.successor.committee.now ≡ room.now.committee.now) }
        ensures renews { IfOk result (λ shared.
            shared.home.renews ≡ room.now.words.now.renew) }
        ensures maker { IfOk result (λ shared.
            shared.home.maker.committee.now ≡ room.now.committee.now) }
        ensures handover { IfOk result (λ shared.
            shared.home.standing.now.handover ≡ room.now.standing.now.handover) }
    {
        Ok(Shared {
            commits: Commits::new(),
            tallies: Tallies::new(seconds_now(room.rt)),
            good: GoodVotes::new(room.alloc),
            home: Home {
                successor: Successor::new(room),
                folder: room.words.folder,
                replica: room.words.replica,
                standing: room.standing,
                start: room.start,
                renews: room.words.renew,
                maker: Maker::new(room),
                next: Mutex::new(None),
                is_unsure: AtomicBool::new(false),
            },
            renewed: Renewed::new(room.alloc)?,
            put_back: PutBack::new(),
            gate: Gate::new(asks(&room.words.sources)),
            sources: Sources::new(room.alloc, room.words.sources.len())?,
            hearing: Hearing::new(room.alloc, room.committee.n())?,
        })
    }
}

// What the threads share, of what a stay has.
fn shop_of<
    'x,
    'h,
    N: DeskNaming,
    T: Threads + Wait + Clock + Files<File = File> + Sync,
    S: Sink,
    D: Disk,
>(
    room: &'x Room<'h, T, S>,
    desk: &'x Desk<N, D>,
    shared: &'x Shared<'h, N, T, S, D>,
    checker: &'x SideBySide<'x, T>,
) -> PoolShared<'x, 'h, N, T, S, D, Home<'h, T, S>, Notes<'h, T, S>>
    requires ruled { AreRuled room.now.words.now room.now.sockets.now }
    requires committee { room.now.committee.now ≡ N.committee }
    requires replica { room.now.words.now.replica ≡ N.replica }
    ensures calls { result.calls.rules.now ≡ room.now.sockets.now.call_rules }
    ensures reads { result.reads.rules.now ≡ room.now.sockets.now.read_rules }
    ensures gate { result.calls.gate.now ≡ shared.now.gate }
    ensures gate_of_reads { result.reads.gate.now ≡ shared.now.gate }
    ensures keeper { result.office.keeper.now ≡ shared.now.home }
    ensures put_back { result.office.put_back.now ≡ shared.now.put_back }
{
    PoolShared {
        rt: room.rt,
        alloc: room.alloc,
        room,
        office: Office {
            desk,
            committee: room.committee,
            replica: room.words.replica,
            keeper: &shared.home,
            renewed: &shared.renewed,
            put_back: &shared.put_back,
        },
        checker,
        calls: Reception {
            gate: &shared.gate,
            rules: &room.sockets.call_rules,
            commits: &shared.commits,
            tallies: &shared.tallies,
            sources: &shared.sources,
            witness: room.notes,
        },
        reads: Reception {
            gate: &shared.gate,
            rules: &room.sockets.read_rules,
            commits: &shared.commits,
            tallies: &shared.tallies,
            sources: &shared.sources,
            witness: room.notes,
        },
        gate: &shared.gate,
        sources: &shared.sources,
        hearing: &shared.hearing,
        maker: &shared.home.maker,
        start: room.start,
    }
}

fn asks(sources: &[SourceWord<'_>]) -> bool
    ensures { result ≡ asks_of sources.now }
{
    !sources.is_empty()
}

/// What one stay left.
#[derive(Drop)]
pub(crate) struct Left<D: Disk> {
    pub closed: Closed<D>,
    /// What it goes on with, where it was said that it goes over.
    pub next: Option<Next>,
}

/// One stay at a desk of its own.
pub(crate) fn stay_once<
    'a,
    T: Threads
        + Wait
        + Clock
        + Files<File = File>
        + Net<Listener = TcpListener, Stream = TcpStream>
        + RandomSource
        + Sync,
    S: Sink + Send,
>(room: &Room<'_, T, S>, parts: Parts<FileDisk>) -> Result<Left<FileDisk>, Fault<'a>>
where
    T::Dir: Send,
    requires ruled { AreRuled room.now.words.now room.now.sockets.now }
    ensures receipts { IfOk result (λ left.
        AreReceipts (length parts.log.steps) left.closed.parts.log.steps left.closed.receipts.items) }
    ensures refused { IfErr result IsLate }
{
    stay::<Brand, T, S, FileDisk>(room, Blank::new(u64::from(room.sessions)), parts)
}

// One stay of the replica at its desk.
fn stay<
    'a,
    N: DeskNaming + Send + Sync,
    T: Threads
        + Wait
        + Clock
        + Files<File = File>
        + Net<Listener = TcpListener, Stream = TcpStream>
        + RandomSource
        + Sync,
    S: Sink + Send,
    D: Disk + Send + Sync,
>(room: &Room<'_, T, S>, blank: Blank, parts: Parts<D>) -> Result<Left<D>, Fault<'a>>
where
    T::Dir: Send,
    requires ruled { AreRuled room.now.words.now room.now.sockets.now }
    requires name { blank.name ≡ N.name }
    requires ledger { (blank.parts ≡ N.parts) × (N.parts ≡ room.now.sessions) }
    requires committee { room.now.committee.now ≡ N.committee }
    requires replica { room.now.words.now.replica ≡ N.replica }
    requires opening { parts.log.steps ≡ N.opening }
    ensures receipts { IfOk result (λ left.
        AreReceipts (length N.opening) left.closed.parts.log.steps left.closed.receipts.items) }
    ensures refused { IfErr result IsLate }
{
    let (desk, sessions) = match open::<N, T, S, D>(room, blank, parts) {
        Ok(opened) => opened,
        Err(fault) => return Err(fault),
    };
    let (sessions, next) = match answer_all(&*room, &desk, sessions) {
        Ok(left) => left,
        Err(fault) => return Err(fault),
    };
    match close(room.alloc, desk, sessions) {
        Ok(closed) => Ok(Left { closed, next }),
        Err(fault) => Err(fault),
    }
}

// Lets a thread with each session take calls, until they are to end. Answers what they hand back, and what is ready where it was said
// that the signer goes over.
fn answer_all<
    N: DeskNaming + Send + Sync,
    T: Threads
        + Wait
        + Clock
        + Files<File = File>
        + Net<Listener = TcpListener, Stream = TcpStream>
        + RandomSource
        + Sync,
    S: Sink + Send,
    D: Disk + Send + Sync,
>(
    room: &Room<'_, T, S>,
    desk: &Desk<N, D>,
    sessions: Vec<Session<N>>,
) -> Result<(Vec<Option<Session<N>>>, Option<Next>), Fault<'static>>
where
    T::Dir: Send,
    requires ruled { AreRuled room.now.words.now room.now.sockets.now }
    requires committee { room.now.committee.now ≡ N.committee }
    requires replica { room.now.words.now.replica ≡ N.replica }
    ensures refused { IfErr result IsLate }
{
    let Ok(jobs) = jobs_of(room.alloc, sessions, room.sockets, room.words) else {
        return Err(Fault::Memory);
    };
    let Ok(shared) = Shared::new(room) else {
        return Err(Fault::Memory);
    };
    let checker = SideBySide::new(room.rt, &shared.good);
    let shop = shop_of(&*room, &*desk, &shared, &checker);
    let Ok(left) = work_all(&shop, Some(jobs)) else {
        return Err(Fault::Memory);
    };
    if !room.start.have_begun() {
        return Err(Fault::Own(SignerFault::Threads));
    }
    Ok((left, shared.home.taken_over()))
}

fn open<N: DeskNaming, T: Wait, S: Sink, D: Disk>(
    room: &Room<'_, T, S>,
    blank: Blank,
    parts: Parts<D>,
) -> Result<(Desk<N, D>, Vec<Session<N>>), Fault<'static>>
    requires name { blank.name ≡ N.name }
    requires ledger { (blank.parts ≡ N.parts) × (N.parts ≡ room.now.sessions) }
    requires committee { room.now.committee.now ≡ N.committee }
    requires replica { room.now.words.now.replica ≡ N.replica }
    requires opening { parts.log.steps ≡ N.opening }
    ensures refused { IfErr result IsLate }
{
    let replica = room.words.replica;
    match Desk::<N, D>::start(
        room.alloc,
        blank,
        room.committee,
        replica,
        parts,
        room.sessions,
    ) {
        Ok(opened) => Ok(opened),
        Err((StartError::Memory, _)) => Err(Fault::Memory),
        Err((refusal, _)) => Err(Fault::Own(SignerFault::Store(refusal.number()))),
    }
}

// Hands all sessions back to the desk.
fn close<N: DeskNaming, D: Disk>(
    alloc: Global,
    desk: Desk<N, D>,
    left: Vec<Option<Session<N>>>,
) -> Result<Closed<D>, Fault<'static>>
    ensures receipts { IfOk result (λ closed.
        AreReceipts (length N.opening) closed.parts.log.steps closed.receipts.items) }
    ensures refused { IfErr result IsLate }
{
    let sessions = sessions_in(alloc, left)?;
    match desk.close(alloc, sessions) {
        Ok(closed) => Ok(closed),
        Err((DeskError::Memory, _)) => Err(Fault::Memory),
        Err(_) => Err(Fault::Own(SignerFault::Receipts)),
    }
}

/// How many threads a stay has: one for each session, two that hand out the log, one for each source, and one that makes the next keys.
pub(crate) fn threads_of(words: &Words<'_>, sessions: u8) -> u32 {
    let log = if words.serve.is_some() {
        THREADS_BESIDE
    } else {
        0
    };
    let sources = u32::try_from(words.sources.len()).unwrap_or(u32::MAX);
    let makes = u32::from(words.renew);
    sources.saturating_add(u32::from(sessions) + u32::from(log) + makes)
}

// A job for each session, where the first two are of those who only read, if they may, two that hand out the log, one for each source,
// and one that makes the next keys.
fn jobs_of<N: DeskNaming>(
    alloc: Global,
    sessions: Vec<Session<N>>,
    sockets: &Sockets,
    words: &Words<'_>,
) -> Result<Vec<Job<N>>, AllocError> {
    let mut reading = if sockets.reads.is_some() {
        usize::from(THREADS_BESIDE)
    } else {
        0
    };
    let mut jobs = Vec::new(alloc);
    for session in sessions {
        if reading > 0 {
            reading -= 1;
            jobs.push(Job::Reads(session))?;
        } else {
            jobs.push(Job::Calls(session))?;
        }
    }
    if sockets.log.is_some() {
        for _ in 0..THREADS_BESIDE {
            jobs.push(Job::HandsOut)?;
        }
    }
    for source in 0..words.sources.len() {
        jobs.push(Job::Asks(source))?;
    }
    if words.renew {
        jobs.push(Job::Makes)?;
    }
    Ok(jobs)
}

// The sessions that the threads hand back.
fn sessions_in<N: DeskNaming>(
    alloc: Global,
    left: Vec<Option<Session<N>>>,
) -> Result<Vec<Session<N>>, AllocError> {
    let mut sessions = Vec::new(alloc);
    for session in left {
        if let Some(session) = session {
            sessions.push(session)?;
        }
    }
    Ok(sessions)
}

// The seconds since 1970, or 0 where the clock does not tell them.
fn seconds_now(clock: &impl Clock) -> u64 {
    let Ok(now) = SystemTime::now(clock) else {
        return 0;
    };
    match now.duration_since(UNIX_EPOCH) {
        Ok(since) => since.as_secs(),
        Err(_) => 0,
    }
}
