//! One request, one export.

ghost use Rattle.std.specs.Prelude.{◌≡◌, ◌≢◌, ◌⊎◌, false, IfErr, IfOk, IfSome, IsErrOf, OnErr, OnOk, length};
ghost use Rattle.log_format.specs.declared.request.FrameRequest.{FrameRequest as RequestValue};
ghost use Rattle.stable_log.specs.Devices.{Untouched};
ghost use Rattle.base_streams.specs.Streams.{Wrote, WrotePart};
ghost use Rattle.vote_log.specs.LogExport.{export_of, frame_count};
ghost use Rattle.log_server.specs.Serving.{BlamesFeed, BlamesOne, BlamesSending, IsReadRefusal, IsRequestOf, IsSendRefusal, IsServeRefusal, TookFirst, TookRequest};

use crate::error::ServeError;
use crate::filling::{Filled, fill};
use base_streams::{Feed, Sink};
use log_format::{FrameRequest, REQUEST_LEN};
use stable_log::Disk;
use vote_log::{ExportError, VoteLog};

fn read_request<R: Feed>(feed: &mut R) -> Result<FrameRequest, ServeError>
    ensures ok { IfOk result (λ r. IsRequestOf (R.rest feed.old) r) }
    ensures refused { IfErr result (IsReadRefusal (R.rest feed.old)) }
    ensures taken { IfOk result (λ _. TookRequest (R.rest feed.old) (R.rest feed.new)) }
    ensures left { IfErr result (λ e. e ≢ ServeError.Source
        → TookRequest (R.rest feed.old) (R.rest feed.new)) }
    ensures part { IfErr result (λ e. e ≡ ServeError.Source
        → TookFirst (R.rest feed.old) (R.rest feed.new) 12) }
    ensures cause { BlamesFeed (R.failed feed.old) (R.failed feed.new) result }
{
    let mut bytes = [0; REQUEST_LEN];
    match fill(feed, &mut bytes) {
        Ok(Filled::All) => match FrameRequest::from_bytes(&bytes) {
            Some(request) => Ok(request),
            None => Err(ServeError::BadRequest),
        },
        Ok(Filled::Part(_)) => Err(ServeError::BadRequest),
        Err(_) => Err(ServeError::Source),
    }
}

// Writes the export that a request asks for.
pub(crate) fn send<D: Disk, W: Sink>(
    log: &mut VoteLog<D>,
    request: FrameRequest,
    sink: &mut W,
) -> Result<u32, ServeError>
    ensures count { IfOk result (λ n.
        n ≡ frame_count (length log.old.steps) request.first request.most) }
    ensures ok { OnOk result (IfSome (D.bytes log.old.disk) (λ _. Wrote (W.text sink.old)
        (W.text sink.new) (export_of log.old.entries request.first request.most))) }
    ensures exact { OnOk result (log.old.stopped ≡ false) }
    ensures same { (log.new.entries ≡ log.old.entries) × (log.new.steps ≡ log.old.steps)
        × (log.new.stopped ≡ log.old.stopped) × (log.new.genesis ≡ log.old.genesis)
        × Untouched D.Disk log.old.disk log.new.disk }
    ensures refused { IfErr result (IsSendRefusal log.old request) }
    ensures part { IfErr result (λ e. (e ≡ ServeError.Device) ⊎ (e ≡ ServeError.Sink)
        → IfSome (D.bytes log.old.disk) (λ _. WrotePart (W.text sink.old) (W.text sink.new)
        (export_of log.old.entries request.first request.most))) }
    ensures unwritten { IfErr result (λ e. e ≢ ServeError.Device → e ≢ ServeError.Sink
        → sink.new ≡ sink.old) }
    ensures cause { BlamesSending (D.failed log.old.disk) (D.failed log.new.disk)
        (W.failed sink.old) (W.failed sink.new) result }
{
    match log.export(request.first, request.most, sink) {
        Ok(count) => Ok(count),
        Err(ExportError::Memory) => Err(ServeError::Memory),
        Err(ExportError::Device) => Err(ServeError::Device),
        Err(ExportError::Sink) => Err(ServeError::Sink),
        Err(ExportError::Stopped) => Err(ServeError::Stopped),
    }
}

/// Reads one request of 12 bytes, writes the export of the log that it asks for, and answers how many frames that has.
/// The request is `HSL1`, the number of the first entry (4 bytes, the highest first) and how many at most (4 bytes);
/// the export is that of `VoteLog::export`. Nothing behind the request is read, and nothing else is written. The log
/// stays as it is, and no refusal stops it.
///
/// In this order: `Memory`, `Source`, `BadRequest`, `Stopped`, `Device`, `Sink`. Memory is asked for once, behind the
/// request, and only where the log runs. After `Device` and `Sink` a first part of the export was written, after the
/// others nothing.
pub fn serve<D: Disk, R: Feed, W: Sink>(
    log: &mut VoteLog<D>,
    feed: &mut R,
    sink: &mut W,
) -> Result<u32, ServeError>
    ensures ok { IfOk result (λ n. (r : RequestValue) × IsRequestOf (R.rest feed.old) r
        × (n ≡ frame_count (length log.old.steps) r.first r.most)
        × IfSome (D.bytes log.old.disk) (λ _.
        Wrote (W.text sink.old) (W.text sink.new) (export_of log.old.entries r.first r.most))) }
    ensures exact { OnOk result (log.old.stopped ≡ false) }
    ensures same { (log.new.entries ≡ log.old.entries) × (log.new.steps ≡ log.old.steps)
        × (log.new.stopped ≡ log.old.stopped) × (log.new.genesis ≡ log.old.genesis)
        × Untouched D.Disk log.old.disk log.new.disk }
    ensures first_refusal { IfErr result (IsServeRefusal log.old (R.rest feed.old)) }
    ensures taken { OnOk result (TookRequest (R.rest feed.old) (R.rest feed.new)) }
    ensures left { IfErr result (λ e. e ≢ ServeError.Source
        → TookRequest (R.rest feed.old) (R.rest feed.new)) }
    ensures taken_in_part { IsErrOf result ServeError.Source
        → TookFirst (R.rest feed.old) (R.rest feed.new) 12 }
    ensures part { IfErr result (λ e. (e ≡ ServeError.Device) ⊎ (e ≡ ServeError.Sink)
        → (r : RequestValue) × IsRequestOf (R.rest feed.old) r
        × IfSome (D.bytes log.old.disk) (λ _.
        WrotePart (W.text sink.old) (W.text sink.new) (export_of log.old.entries r.first r.most))) }
    ensures unwritten { IfErr result (λ e. e ≢ ServeError.Device → e ≢ ServeError.Sink
        → sink.new ≡ sink.old) }
    ensures cause { BlamesOne (R.failed feed.old) (R.failed feed.new) (D.failed log.old.disk)
        (D.failed log.new.disk) (W.failed sink.old) (W.failed sink.new) result }
{
    let request = read_request(feed)?;
    send(log, request, sink)
}
