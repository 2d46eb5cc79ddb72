//! A replica from its folder to its last line.

ghost use Rattle.std.specs.Prelude.{◌≡◌, ◌≤◌, List, IfOk, length};
ghost use Rattle.vote_desk.specs.Receipts.{AreReceipts};
ghost use Rattle.replica_requests.specs.declared.request_line.LineRequest.{LineRequest as RequestValue};
ghost use Rattle.replica_command.specs.Blame.{BlamesOutput};
ghost use Rattle.replica_command.specs.StayText.{AreRequestsRead, IsStayPrinted};

use crate::fault::ReplicaFault;
use crate::folder::ReplicaFolder;
use crate::staying::{StayEnd, stay};
use base_streams::{Feed, Sink};
use blocks::CommitteeView;
use replica_requests::{LineRequest, read_requests};
use stable_log::{Disk, FileDisk};
use std::alloc::Global;
use std::fs::{File, Files};
use std::marker::Brand;
use std::sync::Wait;
use std::sync::ledger::Blank;
use std::thread::Threads;
use vote_desk::Parts;

/// A replica after its run: what its stay left, and the lock of its folder, which is held as long as this lives.
#[derive(Drop)]
pub struct ReplicaEnd {
    /// What its stay at the desk left.
    pub end: StayEnd<FileDisk>,
    lock: File,
}

/// Runs replica `replica` of the committee on the folder at `path`: takes the folder's lock, opens what is stored, reads
/// all lines, and answers them by so many workers.
pub fn run_replica<F: Files<File = File>, T: Threads + Wait + Sync, R: Feed, W: Sink>(
    files: &F,
    rt: &T,
    alloc: Global,
    committee: &CommitteeView,
    replica: u16,
    path: &str,
    workers: u8,
    lines: &mut R,
    out: &mut W,
) -> Result<ReplicaEnd, ReplicaFault>
    requires { (1 ≤ workers) × (workers ≤ 64) }

    // What came of the lines was printed, one outcome of each, in order.
    ensures printed { IfOk result (λ r. (requests : List RequestValue)
        × AreRequestsRead (R.rest lines.old) (R.rest lines.new) (R.failed lines.old)
        (R.failed lines.new) requests
        × IsStayPrinted ⟦<FileDisk as Disk>⟧ (W.text out.old) (W.text out.new) committee.now replica
        r.end.opened r.end.closed.parts.log.steps requests r.end.closed.receipts.items
        r.end.ending) }

    // The receipts are those of the votes behind the list that the log had when it was opened.
    ensures receipts { IfOk result (λ r.
        AreReceipts r.end.opened r.end.closed.parts.log.steps r.end.closed.receipts.items) }
    ensures blame { BlamesOutput result (W.failed out.old) (W.failed out.new) }
{
    let folder = ReplicaFolder { files, alloc, path };
    let lock = folder.lock()?;
    let parts = folder.open_parts(rt, committee, replica)?;
    let requests = read_requests(alloc, lines)?;
    let end = stay_once(rt, alloc, committee, replica, parts, workers, requests, out)?;
    Ok(ReplicaEnd { end, lock })
}

// One stay at a desk of its own.
fn stay_once<T: Threads + Wait + Sync, W: Sink>(
    rt: &T,
    alloc: Global,
    committee: &CommitteeView,
    replica: u16,
    parts: Parts<FileDisk>,
    workers: u8,
    requests: Vec<LineRequest>,
    out: &mut W,
) -> Result<StayEnd<FileDisk>, ReplicaFault>
    requires { (1 ≤ workers) × (workers ≤ 64) }
    ensures printed { IfOk result (λ end.
        IsStayPrinted ⟦<FileDisk as Disk>⟧ (W.text out.old) (W.text out.new) committee.now replica
        end.opened end.closed.parts.log.steps requests.items end.closed.receipts.items end.ending) }
    ensures opened { IfOk result (λ end. end.opened ≡ length parts.log.steps) }
    ensures receipts { IfOk result (λ end.
        AreReceipts end.opened end.closed.parts.log.steps end.closed.receipts.items) }
    ensures blame { BlamesOutput result (W.failed out.old) (W.failed out.new) }
{
    stay::<Brand, T, FileDisk, W>(
        rt,
        alloc,
        Blank::new(u64::from(workers)),
        committee,
        replica,
        parts,
        workers,
        requests,
        out,
    )
}
