//! A signer from its words to its end.

ghost use Rattle.std.specs.Prelude.{◌≡◌, ◌≢◌, ◌≤◌, ◌⊎◌, ◌++◌, ◌∷◌, [], IfErr, IfOk, OnErr, OnOk, codes, false, length, string_bytes, true};
ghost use Rattle.base_streams.specs.Streams.{Wrote, WrotePart};
ghost use Rattle.base_text.specs.Printed.{Told};
ghost use Rattle.program_parts.specs.FaultLines.{fault_line};
ghost use Rattle.program_parts.specs.Writes.{CountsOutput, CountsWrites};
ghost use Rattle.signer_command.specs.Ends.{Fault as FaultValue, IsBacked, IsEndBehind, IsGivenUp, IsLate, IsRun, IsStay, disk_fault, ended_of, fault_status, status_of};
ghost use Rattle.signer_command.specs.FaultLines.{own_line};
ghost use Rattle.blocks.specs.Committees.{IsCommittee};
ghost use Rattle.signer_command.specs.Lines.{IsAnnounced, closed_line, listening_text};
ghost use Rattle.signer_command.specs.Sockets.{places_of};
ghost use Rattle.signer_command.specs.Ruled.{AreRuled, AreRulesOf, is_asked_over_tcp, is_heard_over_tcp, names_of};
ghost use Rattle.signer_command.specs.declared.program.Ended.TheVariants.{Done, Stopped};

use crate::announcing::{Announced, Crew, announce, text_of};
use crate::fault::{Fault, SignerFault, in_folder};
use crate::lineage::{Stand, stand_in};
use crate::listening::{ListeningSocket, listen, listen_at_home};
use crate::marks::{DiskFailedPlaces, MarkAt};
use crate::notes::Notes;
use crate::pool::Start;
use crate::socket_file::{Callers, SocketFault, is_too_long, listen_at};
use crate::stay::{Sockets, THREADS_BESIDE, threads_of};
use crate::staying::{Halls, stay_on};
use crate::words::{Where, Words, read_words};
use base_streams::{Feed, Sink};
use base_text::Line;
use blocks::CommitteeView;
use itoa::Buffer;
use program_parts::{FAULT, ProgramFault, parse_committee, read_committee, write_out};
use replica_command::{ReplicaFile, ReplicaFolder};
use signer_answers::can_be_enough;
use signer_service::Rules;
use stable_log::{Disk, FileDisk};
use std::alloc::{AllocError, Global};
use std::fs::{File, Files};
use std::hash::RandomState;
use std::net::{Net, TcpListener, TcpStream};
use std::os::unix::fs::PermissionsExt;
use std::random::RandomSource;
use std::sync::Wait;
use std::thread::Threads;
use std::time::{Clock, Duration};
use std::{fs, io, thread};
use vote_desk::Closed;

/// The input ended, and no disk had failed.
pub const DONE: u8 = 0;

/// An earlier run wrote down that the replica's log was put back to a backup, after which no start is of use; or it, or this start
/// itself, that a disk failed, after which none is before an operator saw to it.
pub const REFUSED: u8 = 4;

/// The bits of a folder's mode by which others than its owner write in it.
const OTHERS_WRITE: u32 = 0o022;

/// How long a thread of a signer that goes over waits for a caller before it looks whether it does.
const PATIENCE_MILLISECONDS: u64 = 100;

/// What a signer works with.
#[derive(Drop)]
pub struct SignerHost<'a, T> {
    /// Files, threads, locks, a clock, sockets and random bytes.
    pub rt: &'a T,
    /// Memory.
    pub alloc: Global,
}

// How a signer ended in order.
#[derive(Clone, Copy, Debug, PartialEq, Eq)]
enum Ended {
    /// No disk failed.
    Done,
    /// A disk stopped the desk.
    Stopped,
}

impl Ended {
    fn of<D: Disk>(closed: &Closed<D>) -> Ended
        ensures { result ≡ ended_of closed.now }
    {
        if closed.parts.log.stopped() || closed.parts.index.stopped() {
            return Ended::Stopped;
        }
        Ended::Done
    }

    fn status(self) -> u8
        ensures { result ≡ status_of self }
    {
        match self {
            Ended::Done => DONE,
            Ended::Stopped => FAULT,
        }
    }
}

/// Runs a signer as the words say, until its input ends where they say so, and else until it is killed. Answers the exit
/// status: 0 where the input ended, 2 where a disk had stopped the desk by then, or at a fault, whose line then goes to `faults`,
/// 4 where that fault is that the log was put back, or that a disk failed, in an earlier run or while the stores were opened.
/// What is told of calls, and of a disk that stops the desk, goes to `notes`.
pub fn run_signer<
    T: Files<File = File>
        + Threads
        + Wait
        + Clock
        + Net<Listener = TcpListener, Stream = TcpStream>
        + RandomSource
        + Sync,
    R: Feed,
    W: Sink,
    E: Sink,
    S: Sink + Send,
>(
    host: &SignerHost<'_, T>,
    words: &[String],
    input: &mut R,
    out: &mut W,
    faults: &mut E,
    notes: S,
) -> u8
where
    T::Dir: Send,
    ensures status { (result ≡ 0) ⊎ (result ≡ 2) ⊎ (result ≡ 4) }
    ensures done { result ≡ 0 → IsRun ⟦<FileDisk as Disk>⟧ (W.text out.old) (W.text out.new) Done }
    ensures quiet { result ≡ 0 → (faults.new ≡ faults.old) × (W.failed out.new ≡ W.failed out.old) }
    ensures told { result ≢ 0 → ((result ≡ 2) × (faults.new ≡ faults.old)
        × (W.failed out.new ≡ W.failed out.old)
        × IsRun ⟦<FileDisk as Disk>⟧ (W.text out.old) (W.text out.new) Stopped)
        ⊎ ((fault : FaultValue) × (result ≡ fault_status fault)
        × CountsOutput fault (W.failed out.old) (W.failed out.new)
        × IsGivenUp fault (W.text out.old) (W.text out.new)
        × Told (E.text faults.old) (E.text faults.new) (E.failed faults.old) (E.failed faults.new)
        (fault_line own_line fault)) }
{
    match run(host, words, input, out, notes) {
        Ok(ended) => ended.status(),
        Err(fault) => {
            fault.tell(faults);
            fault_status(&fault)
        }
    }
}

// The exit status of a signer that gives up.
fn fault_status(fault: &Fault<'_>) -> u8
    ensures value { result ≡ fault_status fault.now }
    ensures known { (result ≡ 2) ⊎ (result ≡ 4) }
{
    match fault {
        ProgramFault::Own(
            SignerFault::FileIn(_, ReplicaFile::PutBack | ReplicaFile::DiskFailed)
            | SignerFault::DiskFailed(_),
        ) => REFUSED,
        _ => FAULT,
    }
}

fn run<
    'a,
    T: Files<File = File>
        + Threads
        + Wait
        + Clock
        + Net<Listener = TcpListener, Stream = TcpStream>
        + RandomSource
        + Sync,
    R: Feed,
    W: Sink,
    S: Sink + Send,
>(
    host: &SignerHost<'_, T>,
    words: &'a [String],
    input: &mut R,
    out: &mut W,
    notes: S,
) -> Result<Ended, Fault<'a>>
where
    T::Dir: Send,
    ensures done { IfOk result (IsRun ⟦<FileDisk as Disk>⟧ (W.text out.old) (W.text out.new)) }
    ensures given_up { IfErr result (λ fault. IsGivenUp fault (W.text out.old) (W.text out.new)) }
    ensures counted { CountsWrites result (W.failed out.old) (W.failed out.new) }
{
    let (words, bytes) = match asked(host, words) {
        Ok(asked) => asked,
        Err(fault) => return Err(fault),
    };
    if let Err(fault) = see_committee(host.alloc, &words, &bytes) {
        return Err(fault);
    }
    let places = places_of_failure(&words);
    let notes = Notes::new(host.rt, host.alloc, notes, words.verbose, places);
    match stand_by(host, &words, bytes, &notes, input, out) {
        Ok(closed) => end_of(&closed, out),
        Err(fault) => Err(fault),
    }
}

// Sees that the bytes are a committee's, over which the words may ask for a signer.
fn see_committee<'a>(alloc: Global, words: &Words<'_>, bytes: &[u8]) -> Result<(), Fault<'a>>
    ensures ok { OnOk result (IsCommittee bytes.now) }
    ensures refused { IfErr result (λ fault. fault ≢ ProgramFault.Output) }
{
    let committee = parse_committee(bytes)?;
    see_sources(alloc, words, &committee)
}

// Whether each source is of a replica of the committee.
fn are_known(words: &Words<'_>, committee: &CommitteeView<'_>) -> bool {
    let n = committee.n();
    words.sources.iter().all(|source| source.replica < n)
}

// Sees that each source is of a replica of the committee, and that those that are asked, if any are, weigh enough together: else
// no block would ever be taken.
fn see_sources<'a>(
    alloc: Global,
    words: &Words<'_>,
    committee: &CommitteeView<'_>,
) -> Result<(), Fault<'a>>
    ensures { IfErr result (λ fault. fault ≢ ProgramFault.Output) }
{
    if words.sources.is_empty() {
        return Ok(());
    }
    let mut asked = Vec::new(alloc);
    for source in &words.sources {
        asked.push(source.replica)?;
    }
    if !are_known(words, committee) || !can_be_enough(committee, words.replica, &asked) {
        return Err(Fault::Usage);
    }
    Ok(())
}

// What the words ask for, and the bytes of the committee's file.
fn asked<'a, T: Files<File = File>>(
    host: &SignerHost<'_, T>,
    words: &'a [String],
) -> Result<(Words<'a>, Vec<u8>), Fault<'a>>
    ensures { IfErr result (λ fault. fault ≢ ProgramFault.Output) }
{
    let words = read_words(host.alloc, words)?;
    let bytes = read_committee(host.rt, host.alloc, words.committee)?;
    Ok((words, bytes))
}

// Prints how many entries the log has, and says how the signer ended.
fn end_of<'a, W: Sink>(closed: &Closed<FileDisk>, out: &mut W) -> Result<Ended, Fault<'a>>
    ensures ended { IfOk result (λ ended. ended ≡ ended_of closed.now) }
    ensures ok { OnOk result (Wrote (W.text out.old) (W.text out.new)
        (closed_line (length closed.now.parts.log.steps))) }
    ensures err { OnErr result (WrotePart (W.text out.old) (W.text out.new)
        (closed_line (length closed.now.parts.log.steps))) }
    ensures refused { IfErr result (λ fault. fault ≡ ProgramFault.Output) }
    ensures counted { CountsWrites result (W.failed out.old) (W.failed out.new) }
{
    match print_count(closed.parts.log.count(), out) {
        Ok(()) => Ok(Ended::of(closed)),
        Err(fault) => Err(fault),
    }
}

fn print_count<'a, W: Sink>(count: usize, out: &mut W) -> Result<(), Fault<'a>>
    ensures ok { OnOk result (Wrote (W.text out.old) (W.text out.new) (closed_line count)) }
    ensures err { OnErr result (WrotePart (W.text out.old) (W.text out.new) (closed_line count)) }
    ensures refused { IfErr result (λ fault. fault ≡ ProgramFault.Output) }
    ensures counted { CountsWrites result (W.failed out.old) (W.failed out.new) }
{
    let mut line = Line::new();
    line.push(b"closed ");
    line.push(Buffer::new().format(count).as_bytes());
    line.push(b"\n");
    write_out(out, line.as_bytes())
}

// From the folder's lock to the last desk's end.
fn stand_by<
    'a,
    T: Files<File = File>
        + Threads
        + Wait
        + Clock
        + Net<Listener = TcpListener, Stream = TcpStream>
        + RandomSource
        + Sync,
    R: Feed,
    W: Sink,
    S: Sink + Send,
>(
    host: &SignerHost<'_, T>,
    words: &Words<'a>,
    committee: Vec<u8>,
    notes: &Notes<'_, T, S>,
    input: &mut R,
    out: &mut W,
) -> Result<Closed<FileDisk>, Fault<'a>>
where
    T::Dir: Send,
    requires { IsCommittee committee.items }
    ensures done { IfOk result (IsStay (W.text out.old) (W.text out.new)) }
    ensures given_up { IfErr result (λ fault. IsGivenUp fault (W.text out.old) (W.text out.new)) }
    ensures counted { CountsWrites result (W.failed out.old) (W.failed out.new) }
{
    let (lock, stand, sockets) = match opened(host, words, committee, notes) {
        Ok(opened) => opened,
        Err(fault) => return Err(fault),
    };
    let text = match text_of(host.alloc, &sockets) {
        Ok(text) => text,
        Err(_) => return Err(Fault::Memory),
    };
    let start = Start::of(threads_of(words, sessions_of(words)));
    let halls = Halls {
        host,
        words,
        notes,
        sockets: &sockets,
        start: &start,
    };
    let ended = stay_and_announce(&halls, stand, &text, input, out);
    drop(lock);
    ended
}

// The stays, and beside them what says that calls are taken.
fn stay_and_announce<
    'a,
    T: Files<File = File>
        + Threads
        + Wait
        + Clock
        + Net<Listener = TcpListener, Stream = TcpStream>
        + RandomSource
        + Sync,
    R: Feed,
    W: Sink,
    S: Sink + Send,
>(
    halls: &Halls<'_, 'a, T, S>,
    stand: Stand,
    text: &[u8],
    input: &mut R,
    out: &mut W,
) -> Result<Closed<FileDisk>, Fault<'a>>
where
    T::Dir: Send,
    requires text { text.now ≡ listening_text (places_of halls.now.sockets.now) }
    ensures done { IfOk result (IsStay (W.text out.old) (W.text out.new)) }
    ensures given_up { IfErr result (λ fault. IsGivenUp fault (W.text out.old) (W.text out.new)) }
    ensures counted { CountsWrites result (W.failed out.old) (W.failed out.new) }
{
    let crew = Crew {
        rt: halls.host.rt,
        sockets: halls.sockets,
        start: halls.start,
        while_input: halls.words.while_input,
    };
    let (ended, announced) = joined(halls, &crew, stand, text, input, out);
    match end_of_both(ended, announced) {
        Ok(closed) => Ok(closed),
        Err(fault) => Err(fault),
    }
}

// What came of the stays, unless it could not be said that calls are taken.
fn end_of_both<'a>(
    ended: Result<Closed<FileDisk>, Fault<'a>>,
    announced: Announced,
) -> Result<Closed<FileDisk>, Fault<'a>>
    requires backed { IfOk ended IsBacked }
    requires late { IfErr ended IsLate }
    ensures backed { IfOk result IsBacked }
    ensures over { OnOk result (announced ≡ Announced.Over) }
    ensures refused { IfErr result (IsEndBehind announced) }
{
    match announced {
        Announced::Unsaid => Err(Fault::Output),
        Announced::NotBegun => match ended {
            Ok(_) => Err(Fault::Own(SignerFault::Threads)),
            Err(fault) => Err(fault),
        },
        Announced::Over => match ended {
            Ok(closed) => Ok(closed),
            Err(fault) => Err(fault),
        },
    }
}

// Both at once.
fn joined<
    'a,
    T: Files<File = File>
        + Threads
        + Wait
        + Clock
        + Net<Listener = TcpListener, Stream = TcpStream>
        + RandomSource
        + Sync,
    R: Feed,
    W: Sink,
    S: Sink + Send,
>(
    halls: &Halls<'_, 'a, T, S>,
    crew: &Crew<'_, T>,
    stand: Stand,
    text: &[u8],
    input: &mut R,
    out: &mut W,
) -> (Result<Closed<FileDisk>, Fault<'a>>, Announced)
where
    T::Dir: Send,
    ensures backed { IfOk result.0 IsBacked }
    ensures refused { IfErr result.0 IsLate }
    ensures announced { IsAnnounced result.1 (W.text out.old) (W.text out.new) (W.failed out.old)
        (W.failed out.new) text.now }
{
    let mut stand = Some(stand);
    thread::join_mut(
        halls.host.rt,
        &mut || stay_on(halls, stand.take()),
        &mut || announce(crew, text, &mut *input, &mut *out),
    )
}

// The folder's lock, what is stored there, and the sockets.
fn opened<
    'a,
    T: Files<File = File>
        + Threads
        + Wait
        + Net<Listener = TcpListener, Stream = TcpStream>
        + RandomSource
        + Sync,
    S: Sink,
>(
    host: &SignerHost<'_, T>,
    words: &Words<'a>,
    committee: Vec<u8>,
    notes: &Notes<'_, T, S>,
) -> Result<(File, Stand, Sockets), Fault<'a>>
    requires { IsCommittee committee.items }
    ensures ruled { IfOk result (λ opened. AreRuled words.now opened.2) }
    ensures refused { IfErr result (λ fault. fault ≢ ProgramFault.Output) }
{
    let path = words.folder;
    if is_open_to_others(host.rt, path) {
        return Err(Fault::File(path));
    }
    let folder = ReplicaFolder {
        files: host.rt,
        alloc: host.alloc,
        path,
    };
    let lock = locked(&folder, path)?;
    see_no_failure_beside(host, words)?;
    let stand = stand_in(host, words, notes, committee)?;
    let sockets = sockets_of(host, words)?;
    Ok((lock, stand, sockets))
}

// Where it is written down that a disk failed: in the folder, and beside a socket that has a path of its own.
fn places_of_failure<'a>(words: &Words<'a>) -> DiskFailedPlaces<'a> {
    DiskFailedPlaces {
        folder: words.folder,
        socket: socket_named(words),
    }
}

fn socket_named<'a>(words: &Words<'a>) -> Option<&'a str> {
    match words.listen {
        Where::Unix(path) => Some(path),
        _ => None,
    }
}

// Whether nothing beside the socket says that a disk failed. What stands in the folder is seen with its lock.
fn see_no_failure_beside<'a, T: Files<File = File>>(
    host: &SignerHost<'_, T>,
    words: &Words<'a>,
) -> Result<(), Fault<'a>>
    ensures { IfErr result (λ fault. fault ≢ ProgramFault.Output) }
{
    let Some(socket) = socket_named(words) else {
        return Ok(());
    };
    // No socket is made at a path that is too long, which is told with the others that can't be listened at.
    if is_too_long(socket) {
        return Ok(());
    }
    match places_of_failure(words).is_nothing_beside(host.rt, host.alloc) {
        Ok(true) => Ok(()),
        Ok(false) => Err(Fault::Own(SignerFault::DiskFailed(socket))),
        Err(error) => Err(Fault::unless_memory(&error, Fault::File(socket))),
    }
}

// The lock of the folder.
fn locked<'a, T: Files<File = File>>(
    folder: &ReplicaFolder<'_, T>,
    path: &'a str,
) -> Result<File, Fault<'a>>
    ensures { IfErr result (λ fault. fault ≢ ProgramFault.Output) }
{
    match folder.lock() {
        Ok(lock) => Ok(lock),
        Err(fault) => Err(in_folder(path, fault)),
    }
}

// The fault of a disk that failed, by where that is written down: the folder is named, too, where it is nowhere.
pub(crate) fn disk_fault<'a>(words: &Words<'a>, at: Option<MarkAt>) -> Fault<'a>
    ensures value { result ≡ disk_fault words.now.folder words.now.listen at }
    ensures status { fault_status result ≡ 4 }
    ensures output { result ≢ ProgramFault.Output }
{
    match (at, words.listen) {
        (Some(MarkAt::Socket), Where::Unix(socket)) => Fault::Own(SignerFault::DiskFailed(socket)),
        _ => Fault::Own(SignerFault::FileIn(words.folder, ReplicaFile::DiskFailed)),
    }
}

// Whether others than its owner write in the folder. One that is not there is told when its lock is asked for.
fn is_open_to_others<T: Files<File = File>>(files: &T, path: &str) -> bool {
    match fs::metadata(files, path) {
        Ok(found) => found.permissions().mode() & OTHERS_WRITE != 0,
        Err(_) => false,
    }
}

// So many sessions as callers are answered at once, and two for those that only read.
pub(crate) fn sessions_of(words: &Words<'_>) -> u8
    ensures least { 1 ≤ result }
    ensures most { result ≤ 64 }
{
    let calls = words.sessions.count();
    if words.read.is_some() {
        return (calls + THREADS_BESIDE).min(64);
    }
    calls
}

// Where it listens, and what callers are let do there. The sockets are bound in this order.
fn sockets_of<
    'a,
    T: Files<File = File> + Net<Listener = TcpListener, Stream = TcpStream> + RandomSource,
>(host: &SignerHost<'_, T>, words: &Words<'a>) -> Result<Sockets, Fault<'a>>
    ensures ruled { IfOk result (AreRuled words.now) }
    ensures refused { IfErr result (λ fault. fault ≢ ProgramFault.Output) }
{
    let calls = calls_at(host, words)?;
    let reads = place_if(host, words.read)?;
    let log = place_if(host, words.serve)?;
    let over_tcp = calls.listener.is_tcp();
    let Ok(keys) = RandomState::new(host.rt) else {
        return Err(Fault::Own(SignerFault::Listen));
    };
    // A thread that waits for a caller sees by itself that the signer goes over.
    let patience = Duration::from_millis(PATIENCE_MILLISECONDS);
    if words.renew && calls.listener.set_patience(patience).is_err() {
        return Err(Fault::Own(SignerFault::Listen));
    }
    Ok(Sockets {
        calls,
        reads,
        log,
        call_rules: rules_of(host.alloc, words, over_tcp, false)?,
        read_rules: rules_of(host.alloc, words, true, true)?,
        keys,
    })
}

// What callers of a socket are let do.
fn rules_of(
    alloc: Global,
    words: &Words<'_>,
    over_tcp: bool,
    reads_only: bool,
) -> Result<Rules, AllocError>
    ensures { IfOk result (AreRulesOf words.now over_tcp reads_only) }
{
    Ok(Rules {
        over_tcp,
        hosts: copy_of(alloc, &words.hosts)?,
        reads_only,
        renews: words.renew,
        furthest: words.furthest,
    })
}

// The same names once more.
fn copy_of(alloc: Global, names: &[String]) -> Result<Vec<String>, AllocError>
    ensures { IfOk result (λ copy. names_of copy.items ≡ names_of names.now) }
{
    let mut copy = Vec::new(alloc);
    for name in names {
        add(&mut copy, name)?;
    }
    Ok(copy)
}

fn add(names: &mut Vec<String>, name: &String) -> Result<(), AllocError>
    ensures { OnOk result (names_of names.new.items
        ≡ names_of names.old.items ++ string_bytes name.now ∷ []) }
{
    names.push(name.clone()?)?;
    Ok(())
}

fn calls_at<'a, T: Files<File = File> + Net<Listener = TcpListener, Stream = TcpStream>>(
    host: &SignerHost<'_, T>,
    words: &Words<'a>,
) -> Result<ListeningSocket, Fault<'a>>
    ensures kind { IfOk result (λ place.
        is_heard_over_tcp place.listener ≡ is_asked_over_tcp words.now.listen) }
    ensures refused { IfErr result (λ fault. fault ≢ ProgramFault.Output) }
{
    let folder = words.folder;
    match words.listen {
        Where::Tcp(address) => heard_at_home(host, address),
        Where::Unix(path) => {
            let path = path.to_string(host.alloc)?;
            socket_at(host, words, path)
        }
        Where::Folder => {
            let path = format!(in host.alloc; "{folder}/signer.sock")?;
            socket_at(host, words, path)
        }
    }
}

// A Unix socket at a path, which the words name or which lies in the folder.
fn socket_at<'a, T: Files<File = File> + Net<Listener = TcpListener, Stream = TcpStream>>(
    host: &SignerHost<'_, T>,
    words: &Words<'a>,
    path: String,
) -> Result<ListeningSocket, Fault<'a>>
    ensures name { IfOk result (λ place. string_bytes place.name
        ≡ codes "unix:" ++ string_bytes path) }
    ensures kind { IfOk result (λ place. is_heard_over_tcp place.listener ≡ false) }
    ensures refused { IfErr result (λ fault. fault ≢ ProgramFault.Output) }
{
    let callers = if words.group {
        Callers::Group
    } else {
        Callers::Owner
    };
    let name = format!(in host.alloc; "unix:{path}")?;
    match listen_at(host.rt, host.alloc, &path, callers) {
        Ok(listener) => Ok(ListeningSocket { listener, name }),
        Err(SocketFault::TooLong) => Err(Fault::Own(SignerFault::Listen)),
        Err(SocketFault::Memory) => Err(Fault::Memory),
        Err(SocketFault::Taken) => Err(taken(words)),
    }
}

// The fault of a socket's path at which something else stands.
fn taken<'a>(words: &Words<'a>) -> Fault<'a>
    ensures { result ≢ ProgramFault.Output }
{
    match words.listen {
        Where::Unix(path) => Fault::File(path),
        _ => Fault::Own(SignerFault::Socket(words.folder)),
    }
}

fn place_if<'a, T: Net<Listener = TcpListener, Stream = TcpStream>>(
    host: &SignerHost<'_, T>,
    address: Option<&'a str>,
) -> Result<Option<ListeningSocket>, Fault<'a>>
    ensures { IfErr result (λ fault. fault ≢ ProgramFault.Output) }
{
    match address {
        Some(address) => Ok(Some(heard(listen(host.rt, host.alloc, "", address))?)),
        None => Ok(None),
    }
}

// Listens where only this machine reaches.
fn heard_at_home<'a, T: Net<Listener = TcpListener, Stream = TcpStream>>(
    host: &SignerHost<'_, T>,
    address: &'a str,
) -> Result<ListeningSocket, Fault<'a>>
    ensures kind { IfOk result (λ place. is_heard_over_tcp place.listener ≡ true) }
    ensures refused { IfErr result (λ fault. fault ≢ ProgramFault.Output) }
{
    match listen_at_home(host.rt, host.alloc, "tcp:", address) {
        Ok(place) => Ok(place),
        Err(error) => Err(Fault::unless_memory(&error, Fault::Own(SignerFault::Listen))),
    }
}

fn heard<'a>(place: io::Result<ListeningSocket>) -> Result<ListeningSocket, Fault<'a>>
    ensures { IfErr result (λ fault. fault ≢ ProgramFault.Output) }
{
    match place {
        Ok(place) => Ok(place),
        Err(error) => Err(Fault::unless_memory(&error, Fault::Own(SignerFault::Listen))),
    }
}
