//! Threads that take connections, one after the other, each with a session of its own where it calls the desk.

ghost use Rattle.std.specs.Prelude.{◌≡◌, true};

use crate::handing_out::{LogTalk, Past};
use crate::heard::Hearing;
use crate::link::{Answering, CallerBytes, Link};
use crate::listening::{Listener, ListeningSocket};
use crate::making::Maker;
use crate::pace::{Pace, tick};
use crate::reading::{LONGEST_POST, MOST_OF_A_CALL, Reader, SHORT, config};
use crate::stay::{Room, THREADS_BESIDE};
use crate::{handing_out, reading};
use base_sockets::{
    CallTalk, CallsRead, Rules as CrowdRules, ShortFirst, Talk, connections_at, most_open_files,
    talk_to_all,
};
use base_streams::Sink;
use blocks::CommitteeView;
use handover_folder::LineageFolder;
use http_server::Connection;
use signer_service::{
    Approver, Gate, Keeper, Office, Reception, Signer, Sources, Witness, serve_calls,
};
use signer_votes::SideBySide;
use stable_log::Disk;
use std::alloc::{AllocError, Global};
use std::cell::Cell;
use std::fs::{File, Files};
use std::io::ErrorKind;
use std::net::{Net, TcpListener, TcpStream};
use std::random::RandomSource;
use std::sync::Wait;
use std::sync::atomic::{AtomicBool, AtomicU32, Ordering};
use std::thread::Threads;
use std::time::{Clock, Duration};
use std::{io, thread};
use vote_desk::{DeskNaming, Session};

/// How long the threads of a pool are waited for to start, in looks a hundredth of a second apart.
const MOST_LOOKS: u32 = 1_000;

const LOOK_MILLISECONDS: u64 = 10;

/// What one thread does.
#[derive(Drop)]
pub(crate) enum Job<N: DeskNaming> {
    /// Answers calls.
    Calls(Session<N>),
    /// Answers calls that only read.
    Reads(Session<N>),
    /// Hands out the log.
    HandsOut,
    /// Asks the source of this number.
    Asks(usize),
    /// Makes the next keys.
    Makes,
}

/// What the threads share.
#[derive(Drop)]
pub(crate) struct PoolShared<
    'a,
    'h,
    N: DeskNaming,
    T: Threads + Wait,
    S: Sink,
    D: Disk,
    K: Approver + Keeper,
    W: Witness,
> {
    pub rt: &'a T,
    pub alloc: Global,
    pub room: &'a Room<'h, T, S>,
    pub office: Office<'a, N, D, K>,
    pub checker: &'a SideBySide<'a, T>,
    /// Where those who call are received, and those who only read.
    pub calls: Reception<'a, N, D, W>,
    pub reads: Reception<'a, N, D, W>,
    pub ghost reads_only: { reads.rules.now.reads_only ≡ true },
    pub gate: &'a Gate<N, D>,
    pub sources: &'a Sources,
    pub hearing: &'a Hearing,
    pub maker: &'a Maker<'h, T, S>,
    pub start: &'a Start,
}

/// Whether all threads of a stay have begun, whether they are to end, and whether no other stay is to follow.
#[derive(Drop)]
pub(crate) struct Start {
    pub wanted: u32,
    pub begun: AtomicU32,
    pub ending: AtomicBool,
    pub ended: AtomicBool,
}

impl Start {
    /// So many threads are to begin in each stay.
    pub fn of(wanted: u32) -> Start {
        Start {
            wanted,
            begun: AtomicU32::new(0),
            ending: AtomicBool::new(false),
            ended: AtomicBool::new(false),
        }
    }

    /// Another stay follows: none of its threads has begun. They are to end at once where all has ended meanwhile.
    pub fn again(&self) {
        self.begun.store(0, Ordering::SeqCst);
        self.ending.store(false, Ordering::SeqCst);
        if self.ended.load(Ordering::SeqCst) {
            self.end();
        }
    }

    /// Whether all threads have begun.
    pub fn have_begun(&self) -> bool {
        self.begun.load(Ordering::SeqCst) >= self.wanted
    }

    /// The stay is to end, and no other follows.
    pub fn end_all(&self) {
        self.ended.store(true, Ordering::SeqCst);
        self.end();
    }

    pub fn has_ended(&self) -> bool {
        self.ended.load(Ordering::SeqCst)
    }

    pub fn is_ending(&self) -> bool {
        self.ending.load(Ordering::SeqCst)
    }

    pub fn end(&self) {
        self.ending.store(true, Ordering::SeqCst);
    }

    /// Waits until all have begun; where one does not, all are to end. Answers whether they have.
    pub fn wait_for_all<T: Clock>(&self, rt: &T) -> bool {
        for _ in 0..MOST_LOOKS {
            if self.have_begun() {
                return true;
            }
            if self.is_ending() {
                return false;
            }
            thread::sleep(rt, Duration::from_millis(LOOK_MILLISECONDS));
        }
        self.end();
        false
    }
}

/// A thread for each job, where they can be made. Answers the sessions, once all have ended. Where memory is refused the jobs
/// are gone, and those that have begun are to end.
pub(crate) fn work_all<
    N: DeskNaming + Send + Sync,
    T: Threads
        + Wait
        + Clock
        + Files<File = File>
        + Net<Listener = TcpListener, Stream = TcpStream>
        + RandomSource
        + Sync,
    S: Sink + Send,
    D: Disk + Send + Sync,
    K: Approver + Keeper + Send + Sync,
    W: Witness + Sync,
>(
    shop: &PoolShared<'_, '_, N, T, S, D, K, W>,
    jobs: Option<Vec<Job<N>>>,
) -> Result<Vec<Option<Session<N>>>, AllocError>
where
    T::Dir: Send,
{
    let Some(jobs) = jobs else {
        return Ok(Vec::new(shop.alloc));
    };
    let left = thread::map_vec(shop.rt, jobs, &|job: Job<N>| { shop.work(job) });
    if left.is_err() {
        shop.start.end();
    }
    Ok(left?)
}

impl<
    N: DeskNaming,
    T: Threads
        + Wait
        + Clock
        + Files<File = File>
        + Net<Listener = TcpListener, Stream = TcpStream>
        + RandomSource,
    S: Sink,
    D: Disk,
    K: Approver + Keeper,
    W: Witness,
> PoolShared<'_, '_, N, T, S, D, K, W> {
    // Takes connections until the signer ends.
    fn work(&self, job: Job<N>) -> Option<Session<N>> {
        let _before = self.start.begun.fetch_add(1, Ordering::SeqCst);
        let all_begun = self.start.wait_for_all(self.rt);
        match job {
            Job::Calls(session) if all_begun => Some(take_calls(self, session)),
            Job::Reads(session) if all_begun => match &self.room.sockets.reads {
                Some(place) => Some(take_reads(self, place, session)),
                None => Some(session),
            },
            Job::Calls(session) | Job::Reads(session) => Some(session),
            Job::HandsOut => {
                if let Some(place) = &self.room.sockets.log
                    && all_begun
                {
                    self.hand_out(place);
                }
                None
            }
            Job::Asks(source) => {
                if all_begun {
                    self.ask_on(source);
                }
                None
            }
            Job::Makes => {
                if all_begun {
                    self.maker.make();
                }
                None
            }
        }
    }
}

impl<
    N: DeskNaming,
    T: Threads
        + Wait
        + Clock
        + Files<File = File>
        + Net<Listener = TcpListener, Stream = TcpStream>,
    S: Sink,
    D: Disk,
    K: Approver + Keeper,
    W: Witness,
> PoolShared<'_, '_, N, T, S, D, K, W> {
    // Hands out the log to many at once.
    fn hand_out(&self, place: &ListeningSocket) {
        let rules = handing_out::rules(self.connections());
        let mut talk = LogTalk {
            rt: self.rt,
            alloc: self.alloc,
            desk: self.office.desk,
            chain: self.room.committee.chain(),
            past: self.past(),
        };
        self.talk_at(place, &rules, &mut talk);
    }

    // Where the logs of earlier chains lie, and the first chain, where the signer goes over.
    fn past(&self) -> Option<Past<'_, T>> {
        if !self.room.words.renew {
            return None;
        }
        let first = match self.room.standing.earlier.first() {
            Some(file) => CommitteeView::parse(file).ok()?.chain(),
            None => self.room.committee.chain(),
        };
        let folder = LineageFolder {
            files: self.rt,
            alloc: self.alloc,
            path: self.room.words.folder,
        };
        Some(Past { folder, first })
    }

    // Talks over the connections of a place until the signer ends.
    fn talk_at<L: Talk>(&self, place: &ListeningSocket, rules: &CrowdRules, talk: &mut L) {
        if let Listener::Tcp(listener) = &place.listener {
            talk_to_all(
                self.rt,
                self.alloc,
                listener,
                rules,
                &self.start.ending,
                talk,
            );
        }
    }

    // How many connections one thread of a socket beside that for calls keeps. Each other thread may have a stream of its own.
    fn connections(&self) -> usize {
        let files = most_open_files(self.rt, self.alloc);
        let beside = &self.room.sockets;
        let sockets = u64::from(beside.reads.is_some()) + u64::from(beside.log.is_some());
        // Each connection that is handed out an earlier log has its file open beside.
        let files = if self.room.words.renew {
            files / 2
        } else {
            files
        };
        let all = connections_at(files, u64::from(self.start.wanted), sockets);
        usize::try_from(all / u64::from(THREADS_BESIDE))
            .unwrap_or(0)
            .max(1)
    }

    // Answers the calls of one stream.
    fn answer_stream<'c>(
        &self,
        signer: &mut Signer<'c, N, T, D, SideBySide<'c, T>, K, W>,
        stream: &TcpStream,
    ) -> io::Result<()> {
        let link = Link {
            stream,
            clock: self.rt,
            pace: Cell::new(Pace::new(self.rt)?),
            is_refused: Cell::new(false),
            ending: &self.start.ending,
        };
        let mut asking = CallerBytes {
            link: &link,
            calls: CallsRead::new(self.alloc),
        };
        let mut answering = Answering { link: &link };
        let mut connection = Connection::new(
            self.alloc,
            self.room.sockets.keys,
            config(LONGEST_POST),
        );
        serve_calls(signer, &mut connection, &mut asking, &mut answering)
    }
}

// Takes calls of one caller after the other, until the signer ends.
fn take_calls<
    'x,
    N: DeskNaming,
    T: Threads
        + Wait
        + Clock
        + Files<File = File>
        + Net<Listener = TcpListener, Stream = TcpStream>,
    S: Sink,
    D: Disk,
    K: Approver + Keeper,
    W: Witness,
>(shop: &'x PoolShared<'x, '_, N, T, S, D, K, W>, session: Session<N>) -> Session<N> {
    let mut signer = Signer::new(
        shop.rt,
        shop.alloc,
        &shop.office,
        shop.checker,
        &shop.calls,
        session,
    );
    for _ in shop.rt.forever() {
        if shop.start.is_ending() {
            break;
        }
        match shop.room.sockets.calls.listener.accept() {
            Ok(stream) => {
                // Where it breaks off, the caller knows.
                let _ = shop.answer_stream(&mut signer, &stream);
            }
            Err(error) if has_waited(&error) => {}
            Err(_) => thread::sleep(shop.rt, tick()),
        }
    }
    signer.into_session()
}

// Whether nobody connected for as long as an `accept` waits.
fn has_waited(error: &io::Error) -> bool {
    matches!(error.kind(), ErrorKind::WouldBlock | ErrorKind::TimedOut)
}

// Takes calls that only read, of many at once, until the signer ends.
fn take_reads<
    'x,
    N: DeskNaming,
    T: Threads
        + Wait
        + Clock
        + Files<File = File>
        + Net<Listener = TcpListener, Stream = TcpStream>,
    S: Sink,
    D: Disk,
    K: Approver + Keeper,
    W: Witness,
>(
    shop: &'x PoolShared<'x, '_, N, T, S, D, K, W>,
    place: &ListeningSocket,
    session: Session<N>,
) -> Session<N> {
    let rules = reading::rules(shop.connections());
    let mut talk = ShortFirst {
        calls: CallTalk {
            alloc: shop.alloc,
            answerer: Reader {
                alloc: shop.alloc,
                keys: shop.room.sockets.keys,
                signer: Signer::new(
                    shop.rt,
                    shop.alloc,
                    &shop.office,
                    shop.checker,
                    &shop.reads,
                    session,
                ),
            },
            most: MOST_OF_A_CALL,
        },
        short: SHORT,
    };
    shop.talk_at(place, &rules, &mut talk);
    let ShortFirst { calls, .. } = talk;
    let CallTalk { answerer, .. } = calls;
    let Reader { signer, .. } = answerer;
    signer.into_session()
}
