//! Reports of logs of which more comes.

ghost use Rattle.std.specs.Prelude.{◌≡◌, ◌↔◌, IfOk, IsTrue, map};
ghost use Rattle.watch_collector.specs.Collectors.{MayFollow, report_then, unread_report};

use audit_evidence::SourceReport;
use base_wire::MOST_ENTRIES;
use log_format::Status;
use std::alloc::{AllocError, Global};

/// Whether it may follow: it is of the same replica, and both together are no more than a log has.
pub(crate) fn may_follow(before: &SourceReport, later: &SourceReport) -> bool
    ensures { IsTrue result ↔ MayFollow before.now later.now }
{
    if later.replica != before.replica {
        return false;
    }
    if before.frames > MOST_ENTRIES || later.frames > MOST_ENTRIES - before.frames {
        return false;
    }
    before.entries <= MOST_ENTRIES && later.entries <= MOST_ENTRIES - before.entries
}

/// What came of a log, with what came later of it.
pub(crate) fn together(before: &SourceReport, later: &SourceReport) -> SourceReport
    requires { MayFollow before.now later.now }
    ensures { result ≡ report_then before.now later.now }
{
    SourceReport {
        replica: before.replica,
        status: later.status,
        frames: before.frames + later.frames,
        entries: before.entries + later.entries,
    }
}

/// Of a log of which nothing was read yet.
pub(crate) fn unread(replica: &u16) -> SourceReport
    ensures { result ≡ unread_report replica.now }
{
    SourceReport {
        replica: *replica,
        status: Status::Failed,
        frames: 0,
        entries: 0,
    }
}

/// Of logs of which nothing was read yet.
pub(crate) fn all_unread(alloc: Global, replicas: &[u16]) -> Result<Vec<SourceReport>, AllocError>
    ensures { IfOk result (λ reports. reports.items ≡ map unread_report replicas.now) }
{
    replicas.iter().map(unread).collect(alloc)
}

/// The reports again.
pub(crate) fn copies(
    alloc: Global,
    reports: &[SourceReport],
) -> Result<Vec<SourceReport>, AllocError>
    ensures { IfOk result (λ copies. copies.items ≡ reports.now) }
{
    let mut copies = Vec::new(alloc);
    for report in reports {
        copies.push(*report)?;
    }
    Ok(copies)
}
