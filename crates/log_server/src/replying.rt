//! One request, of either kind, and its answer.

ghost use Rattle.std.specs.Prelude.{◌≡◌, ◌≢◌, IfErr, IfOk, IsErrOf, OnErr, OnOk};
ghost use Rattle.stable_log.specs.Devices.{Untouched};
ghost use Rattle.base_streams.specs.Counting.{Counts};
ghost use Rattle.base_streams.specs.Streams.{Wrote, WrotePart};
ghost use Rattle.log_server.specs.Answers.{IsAnswer};
ghost use Rattle.log_server.specs.Serving.{BlamesFeed, BlamesOne, TookFirst};
ghost use Rattle.log_server.specs.Replies.{Gathered, IsAskedOf, IsAskedRefusal, TookAsked};

use crate::error::ServeError;
use crate::reply::Reply;
use crate::serving::send;
use base_streams::{Fault, Feed, Sink, write_all};
use blocks::Id;
use log_request::{Asked, NO_LOG, RequestBytes, asked_in};
use stable_log::Disk;
use vote_log::VoteLog;

// Reads a request byte by byte, until it is whole, or the feed ends or fails.
fn gather<R: Feed>(feed: &mut R) -> Result<RequestBytes, Fault>
    ensures gathered { IfOk result (Gathered (R.rest feed.old) (R.rest feed.new)) }
    ensures err { OnErr result (TookFirst (R.rest feed.old) (R.rest feed.new) 44) }
    ensures counted { Counts (R.failed feed.old) (R.failed feed.new) result }
{
    let mut request = RequestBytes::new();
    while !request.is_whole() {
        let mut byte = [0];
        let n = feed.read(&mut byte)?;
        if n == 0 {
            return Ok(request);
        }
        request.take(&byte);
    }
    Ok(request)
}

// What a feed asks of a server that has the log of this chain.
fn read_asked<R: Feed>(feed: &mut R, chain: &Id) -> Result<Asked, ServeError>
    ensures ok { IfOk result (IsAskedOf chain.now (R.rest feed.old)) }
    ensures refused { IfErr result (IsAskedRefusal chain.now (R.rest feed.old)) }
    ensures taken { OnOk result (TookAsked (R.rest feed.old) (R.rest feed.new)) }
    ensures left { IfErr result (λ e. e ≢ ServeError.Source
        → TookAsked (R.rest feed.old) (R.rest feed.new)) }
    ensures part { IfErr result (λ e. e ≡ ServeError.Source
        → TookFirst (R.rest feed.old) (R.rest feed.new) 44) }
    ensures cause { BlamesFeed (R.failed feed.old) (R.failed feed.new) result }
{
    let Ok(request) = gather(feed) else {
        return Err(ServeError::Source);
    };
    match asked_in(chain, request.as_bytes()) {
        Some(asked) => Ok(asked),
        None => Err(ServeError::BadRequest),
    }
}

// Says that this log is not one of the chain that was named.
fn send_no_log<W: Sink>(sink: &mut W) -> Result<Reply, ServeError>
    ensures ok { IfOk result (λ r. r ≡ Reply.NoLog) }
    ensures sent { OnOk result (Wrote (W.text sink.old) (W.text sink.new) NO_LOG) }
    ensures refused { IfErr result (λ e. e ≡ ServeError.Sink) }
    ensures part { OnErr result (WrotePart (W.text sink.old) (W.text sink.new) NO_LOG) }
    ensures counted { Counts (W.failed sink.old) (W.failed sink.new) result }
{
    match write_all(sink, &NO_LOG) {
        Ok(()) => Ok(Reply::NoLog),
        Err(_) => Err(ServeError::Sink),
    }
}

/// Reads one request and answers it. A request of 12 bytes, `HSL1`, is answered as `serve` does. One of 44 bytes names a chain:
/// `HSL2`, the chain's id (32 bytes), the number of the first entry and how many at most. It is answered so where this log is one of
/// that chain, and else by the 8 bytes `HSL0` and four zero bytes. Nothing behind the request is read, and nothing else is written. The
/// log stays as it is, and no refusal stops it.
///
/// Refused as by `serve`. `Sink` also where those 8 bytes were written in part.
pub fn reply_to<D: Disk, R: Feed, W: Sink>(
    log: &mut VoteLog<D>,
    feed: &mut R,
    sink: &mut W,
) -> Result<Reply, ServeError>
    ensures answer { IsAnswer log.old (R.rest feed.old) (D.bytes log.old.disk) (W.text sink.old)
        (W.text sink.new) result }
    ensures same { (log.new.entries ≡ log.old.entries) × (log.new.steps ≡ log.old.steps)
        × (log.new.stopped ≡ log.old.stopped) × (log.new.genesis ≡ log.old.genesis)
        × Untouched D.Disk log.old.disk log.new.disk }
    ensures taken { OnOk result (TookAsked (R.rest feed.old) (R.rest feed.new)) }
    ensures left { IfErr result (λ e. e ≢ ServeError.Source
        → TookAsked (R.rest feed.old) (R.rest feed.new)) }
    ensures taken_in_part { IsErrOf result ServeError.Source
        → TookFirst (R.rest feed.old) (R.rest feed.new) 44 }
    ensures cause { BlamesOne (R.failed feed.old) (R.failed feed.new) (D.failed log.old.disk)
        (D.failed log.new.disk) (W.failed sink.old) (W.failed sink.new) result }
{
    let chain = log.genesis().id();
    match read_asked(feed, &chain)? {
        _ if log.stopped() => Err(ServeError::Stopped),
        Asked::OtherChain => send_no_log(sink),
        Asked::Frames(request) => match send(log, request, sink) {
            Ok(frames) => Ok(Reply::Frames(frames)),
            Err(error) => Err(error),
        },
    }
}
