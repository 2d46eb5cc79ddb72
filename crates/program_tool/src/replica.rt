//! `hs_tool replica COMMITTEE R DIR [--workers W] [--serve ADDRESS] [--requests N]`: a replica over lines of input.

ghost use Rattle.std.specs.Prelude.{◌≡◌, ◌↔◌, ℕ, IfOk};
ghost use Rattle.replica_command.specs.declared.fault.ReplicaFile.{ReplicaFile as ReplicaFileValue};
ghost use Rattle.program_tool.specs.Stays.{AreReadOf, IsReplicaDone, IsRunPrinted, IsStopPrinted};
ghost use Rattle.program_parts.specs.Writes.{CountsWrites};

use crate::fault::{Fault, FolderFile, ToolFault, fault_of_service};
use crate::host::ToolHost;
use base_streams::{Feed, Sink};
use log_server::serve_requests;
use program_parts::{ProgramFault, parse_committee, read_committee};
use program_words::{Service, Workers};
use replica_command::{Ending, ReplicaEnd, ReplicaFault, run_replica};
use stable_log::{Disk, FileDisk};
use std::fs::{File, Files};
use std::net::{Net, TcpListener, TcpStream};
use std::sync::Wait;
use std::thread::Threads;
use std::time::Clock;
use vote_log::LogError;

/// Runs a replica of the committee of the file on the folder at `path`, as `run_replica` does. Then, where a service is
/// asked for and no disk failed, hands out the log as `serve_requests` does, still under the folder's lock. Answers how
/// the replica ended.
pub fn replica<
    'a,
    F: Files<File = File>,
    T: Threads + Wait + Clock + Net<Listener = TcpListener, Stream = TcpStream> + Sync,
    R: Feed,
    W: Sink,
>(
    host: &ToolHost<'_, F, T>,
    committee: &'a str,
    number: u16,
    path: &'a str,
    workers: Workers,
    service: Option<Service<'a>>,
    lines: &mut R,
    out: &mut W,
) -> Result<Ending, Fault<'a>>
    ensures stopped { IfOk result (λ ending. ending ≡ Ending.Stopped
        → IsStopPrinted ⟦<FileDisk as Disk>⟧ (AreReadOf R.Feed lines.old lines.new)
        number (W.text out.old) (W.text out.new)) }
    ensures done { IfOk result (λ ending. ending ≡ Ending.Done
        → IsReplicaDone ⟦<FileDisk as Disk>⟧ (AreReadOf R.Feed lines.old lines.new)
        number service.entry (W.text out.old) (W.text out.new)) }
    ensures counted { CountsWrites result (W.failed out.old) (W.failed out.new) }
{
    let mut end = run(host, committee, number, path, workers, lines, out)?;
    match (end.end.ending, service) {
        (Ending::Done, Some(service)) => {
            let log = &mut end.end.closed.parts.log;
            let (rt, alloc, requests) = (host.rt, host.alloc, service.requests.count());
            match serve_requests(rt, alloc, service.address, requests, log, out) {
                Ok(()) => Ok(Ending::Done),
                Err(fault) => Err(fault_of_service(fault)),
            }
        }
        (ending, _) => Ok(ending),
    }
}

// From the folder's lock to `closed`.
fn run<'a, F: Files<File = File>, T: Threads + Wait + Sync, R: Feed, W: Sink>(
    host: &ToolHost<'_, F, T>,
    committee: &'a str,
    number: u16,
    path: &'a str,
    workers: Workers,
    lines: &mut R,
    out: &mut W,
) -> Result<ReplicaEnd, Fault<'a>>
    ensures printed { IfOk result (λ r.
        IsRunPrinted ⟦<FileDisk as Disk>⟧ (AreReadOf R.Feed lines.old lines.new)
        number (W.text out.old) (W.text out.new)
        r.end.closed.parts.log.steps r.end.ending) }
    ensures counted { CountsWrites result (W.failed out.old) (W.failed out.new) }
{
    let bytes = read_committee(host.files, host.alloc, committee)?;
    let committee = parse_committee(&bytes)?;
    match run_replica(
        host.files,
        host.rt,
        host.alloc,
        &committee,
        number,
        path,
        workers.count(),
        lines,
        out,
    ) {
        Ok(end) => Ok(end),
        Err(fault) => Err(in_folder(path, fault)),
    }
}

// The fault of a replica on the folder at `path`.
fn in_folder<'a>(folder: &'a str, fault: ReplicaFault) -> Fault<'a>
    ensures memory { fault ≡ ReplicaFault.Memory → result ≡ ProgramFault.Memory }
    ensures file { (file : ReplicaFileValue) → fault ≡ ReplicaFault.File file
        → result ≡ ProgramFault.Own (ToolFault.FileIn folder.entry (FolderFile.Replica file)) }
    ensures store { (number : ℕ) → fault ≡ ReplicaFault.Store number
        → result ≡ ProgramFault.Own (ToolFault.Store number) }
    ensures device { fault ≡ ReplicaFault.Device → result ≡ ProgramFault.Own (ToolFault.Store 2) }
    ensures receipts { fault ≡ ReplicaFault.Receipts
        → result ≡ ProgramFault.Own ToolFault.Receipts }
    ensures output { fault ≡ ReplicaFault.Output ↔ result ≡ ProgramFault.Output }
{
    match fault {
        ReplicaFault::Memory => Fault::Memory,
        ReplicaFault::File(file) => {
            Fault::Own(ToolFault::FileIn(folder, FolderFile::Replica(file)))
        }
        ReplicaFault::Store(number) => Fault::Own(ToolFault::Store(number)),
        ReplicaFault::Device => Fault::Own(ToolFault::Store(LogError::Device.number())),
        ReplicaFault::Receipts => Fault::Own(ToolFault::Receipts),
        ReplicaFault::Output => Fault::Output,
    }
}
