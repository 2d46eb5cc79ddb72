//! One stay of a replica at its desk: opened, worked at in threads, and closed.

ghost use Rattle.std.specs.Prelude.{◌≡◌, ◌≢◌, ◌≤◌, IfErr, IfOk, OnOk, length, map, take, vec_len};
ghost use Rattle.std.specs.List.{AllZip};
ghost use Rattle.std.specs.List.Sorted.{IsPermutation};
ghost use Rattle.base_streams.specs.Streams.{Wrote};
ghost use Rattle.vote_desk.specs.Receipts.{AreReceipts, receipts_of};
ghost use Rattle.replica_requests.specs.OutcomeLines.{answer_line};
ghost use Rattle.replica_requests.specs.declared.outcome_line.LineOutcome.{LineOutcome as OutcomeValue};
ghost use Rattle.replica_command.specs.StayAnswers.{both_endings, ending_of};
ghost use Rattle.replica_command.specs.Dealing.{AreWorked, IsOutcomeAt};
ghost use Rattle.replica_command.specs.StayText.{IsPrinted, IsStayPrinted, closed_line};
ghost use Rattle.replica_command.specs.Blame.{BlamesOutput};
ghost use Rattle.replica_command.specs.StayFaults.{IsStayFault, IsWorkFault};

use crate::dealing::{deal, outcome_at};
use crate::fault::ReplicaFault;
use crate::worker::{Done, Work};
use base_streams::{Sink, write_all};
use base_text::Line;
use blocks::CommitteeView;
use itoa::Buffer;
use replica_requests::{LineOutcome, LineRequest, Outcome, write_outcome};
use stable_log::Disk;
use std::alloc::{AllocError, Global};
use std::sync::Wait;
use std::sync::ledger::Blank;
use std::thread;
use std::thread::Threads;
use vote_desk::{Closed, Desk, DeskError, DeskNaming, Parts, Session, StartError};

/// What a stay leaves.
#[derive(Drop)]
pub struct StayEnd<D: Disk> {
    pub closed: Closed<D>,
    /// How many entries the log had when the desk was opened.
    pub opened: usize,
    pub ending: Ending,
}

/// How a stay ended.
#[derive(Clone, Copy, Debug, PartialEq, Eq)]
pub enum Ending {
    /// All requests were answered, and no disk failed.
    Done,
    /// A disk failed: the answers say `desk 5` or `desk 6`. What was released before is stored.
    Stopped,
}

impl Ending {
    // How a stay with this outcome alone ends.
    fn of(outcome: &LineOutcome) -> Ending
        ensures { result ≡ ending_of outcome.now }
    {
        match outcome {
            LineOutcome::Came(Outcome::RefusedByDesk(DeskError::Device | DeskError::Stopped)) => {
                Ending::Stopped
            }
            _ => Ending::Done,
        }
    }

    // How a stay ends whose first part ended so, and whose second part ended as `then`.
    fn and(self, then: Ending) -> Ending
        ensures { result ≡ both_endings self then }
    {
        match self {
            Ending::Stopped => Ending::Stopped,
            Ending::Done => then,
        }
    }
}

/// Opens a desk on these parts with as many sessions as workers, deals the requests to them in turn, and prints what came
/// of each, in the order of the requests. Then the desk is closed, and `closed` and the number of the log's entries are
/// printed.
pub fn stay<N: DeskNaming + Send + Sync, T: Threads + Wait + Sync, D: Disk + Send, W: Sink>(
    rt: &T,
    alloc: Global,
    blank: Blank,
    committee: &CommitteeView,
    replica: u16,
    parts: Parts<D>,
    workers: u8,
    requests: Vec<LineRequest>,
    out: &mut W,
) -> Result<StayEnd<D>, ReplicaFault>
    requires name { blank.name ≡ N.name }
    requires ledger { (blank.parts ≡ N.parts) × (N.parts ≡ workers) }
    requires workers { (1 ≤ workers) × (workers ≤ 64) }
    requires committee { committee.now ≡ N.committee }
    requires replica { replica ≡ N.replica }
    requires opening { parts.log.steps ≡ N.opening }
    ensures printed { IfOk result (λ end.
        IsStayPrinted D.Disk (W.text out.old) (W.text out.new) N.committee N.replica end.opened
        end.closed.parts.log.steps requests.items end.closed.receipts.items end.ending) }
    ensures opened { IfOk result (λ end. end.opened ≡ length N.opening) }
    ensures receipts { IfOk result (λ end.
        AreReceipts end.opened end.closed.parts.log.steps end.closed.receipts.items) }
    ensures blame { BlamesOutput result (W.failed out.old) (W.failed out.new) }
    ensures refused { IfErr result
        (IsStayFault N.committee N.replica parts.trees.items parts.log parts.index) }
{
    let opened = parts.log.count();
    let (desk, sessions) = match Desk::<N, D>::start(
        alloc, blank, committee, replica, parts, workers,
    ) {
        Ok(opened) => opened,
        Err((StartError::Memory, _)) => return Err(ReplicaFault::Memory),
        Err((refusal, _)) => return Err(ReplicaFault::Store(refusal.number())),
    };
    let count = requests.len();
    let work = deal(alloc, sessions, requests)?;
    let done = work_all(rt, alloc, &desk, committee, work)?;
    let ending = print_outcomes(&done, count, out)?;
    let closed = close(alloc, desk, done)?;
    print_count(closed.parts.log.count(), out)?;
    Ok(StayEnd {
        closed,
        opened,
        ending,
    })
}

// Each worker's requests in a thread of its own, where one can be made. Where memory is refused the sessions are gone.
fn work_all<N: DeskNaming + Send + Sync, T: Threads + Wait + Sync, D: Disk + Send>(
    rt: &T,
    alloc: Global,
    desk: &Desk<N, D>,
    committee: &CommitteeView,
    work: Vec<Work<N>>,
) -> Result<Vec<Done<N>>, AllocError>
    requires { committee.now ≡ N.committee }
    ensures { IfOk result (λ all.
        AllZip (λ w d. AreWorked D.Disk N.committee N.replica N.opening w.requests.items
        d.session.receipts.items d.outcomes.items) work.items all.items) }
{
    let done = thread::map_vec(
        rt,
        work,
        &|work: Work<N>| { work.run(rt, alloc, desk, committee) },
    )?;
    let mut all = Vec::with_capacity(alloc, done.len())?;
    for one in done {
        all.push(one?)?;
    }
    Ok(all)
}

// Prints what came of each request, and answers how the stay ends.
fn print_outcomes<N: DeskNaming, W: Sink>(
    done: &[Done<N>],
    count: usize,
    out: &mut W,
) -> Result<Ending, ReplicaFault>
    ensures printed { IfOk result (IsPrinted (W.text out.old) (W.text out.new) (map (λ d.
        d.outcomes.items) done.now) count) }
    ensures blame { BlamesOutput result (W.failed out.old) (W.failed out.new) }
    ensures refused { IfErr result IsWorkFault }
{
    let mut ending = Ending::Done;
    for number in 0..count {
        ending = ending.and(print_turn(done, number, out)?);
    }
    Ok(ending)
}

// Prints what came of the request of this number, and answers how a stay ends in which that came. It is a bug of this
// program where nothing did.
fn print_turn<N: DeskNaming, W: Sink>(
    done: &[Done<N>],
    number: usize,
    out: &mut W,
) -> Result<Ending, ReplicaFault>
    ensures printed { IfOk result (λ ending. (outcome : OutcomeValue)
        × IsOutcomeAt (map (λ d. d.outcomes.items) done.now) number outcome
        × (ending ≡ ending_of outcome)
        × Wrote (W.text out.old) (W.text out.new) (answer_line outcome)) }
    ensures blame { BlamesOutput result (W.failed out.old) (W.failed out.new) }
    ensures refused { IfErr result IsWorkFault }
{
    let Some(outcome) = outcome_at(done, number) else {
        return Err(ReplicaFault::Receipts);
    };
    print_outcome(outcome, out)?;
    Ok(Ending::of(outcome))
}

fn print_outcome<W: Sink>(outcome: &LineOutcome, out: &mut W) -> Result<(), ReplicaFault>
    ensures printed { OnOk result (Wrote (W.text out.old) (W.text out.new)
        (answer_line outcome.now)) }
    ensures blame { BlamesOutput result (W.failed out.old) (W.failed out.new) }
    ensures refused { IfErr result IsWorkFault }
{
    match write_outcome(out, outcome) {
        Ok(()) => Ok(()),
        Err(_) => Err(ReplicaFault::Output),
    }
}

// Hands all sessions back to the desk.
fn close<N: DeskNaming, D: Disk>(
    alloc: Global,
    desk: Desk<N, D>,
    done: Vec<Done<N>>,
) -> Result<Closed<D>, ReplicaFault>
    ensures receipts { IfOk result (λ closed. IsPermutation
        (receipts_of (map (λ d. d.session.receipts.items) done.items)) closed.receipts.items) }
    ensures ok { IfOk result (λ closed.
        AreReceipts (length N.opening) closed.parts.log.steps closed.receipts.items) }
    ensures begins { IfOk result (λ closed.
        N.opening ≡ take (length N.opening) closed.parts.log.steps) }
    ensures fault { IfErr result (λ fault. fault ≢ ReplicaFault.Output) }
    ensures refused { IfErr result IsWorkFault }
{
    let mut sessions = Vec::with_capacity(alloc, done.len())?;
    for one in done {
        sessions.push(one.session)?;
    }
    match desk.close(alloc, sessions) {
        Ok(closed) => Ok(closed),
        Err((DeskError::Memory, _)) => Err(ReplicaFault::Memory),
        Err(_) => Err(ReplicaFault::Receipts),
    }
}

fn print_count<W: Sink>(count: usize, out: &mut W) -> Result<(), ReplicaFault>
    ensures printed { OnOk result (Wrote (W.text out.old) (W.text out.new) (closed_line count)) }
    ensures blame { BlamesOutput result (W.failed out.old) (W.failed out.new) }
    ensures refused { IfErr result IsWorkFault }
{
    let mut line = Line::new();
    line.push(b"closed ");
    line.push(Buffer::new().format(count).as_bytes());
    line.push(b"\n");
    match write_all(out, line.as_bytes()) {
        Ok(()) => Ok(()),
        Err(_) => Err(ReplicaFault::Output),
    }
}
