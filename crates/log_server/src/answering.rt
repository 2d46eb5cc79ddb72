//! One request that is answered, and its line.

ghost use Rattle.std.specs.Prelude.{◌≡◌, ◌≤◌, ◌++◌, OnOk, Result as ResultValue, codes, decimal, length};
ghost use Rattle.base_streams.specs.Counting.{Counts};
ghost use Rattle.stable_log.specs.Devices.{Untouched};
ghost use Rattle.base_streams.specs.Streams.{Wrote};
ghost use Rattle.log_server.specs.declared.error.ServeError.{ServeError as ServeErrorValue};
ghost use Rattle.log_server.specs.declared.reply.Reply.{Reply as ReplyValue};
ghost use Rattle.log_server.specs.Answers.{IsAnswered};
ghost use Rattle.log_server.specs.ServedLines.{fault_line, served_line};

use crate::{Reply, ServeError, reply_to};
use base_streams::{Fault, Feed, Sink, write_all};
use base_text::Line;
use itoa::Buffer;
use stable_log::Disk;
use vote_log::VoteLog;

/// Answers one request of a feed as `reply_to` does: by the export of the log that it asks for, which goes to `sink`, or by the
/// bytes that say that the log is one of another chain. Then prints what came of it to `out`: `served FRAMES`, or `serve fault N`, N
/// being the number of the `ServeError`; to a request that names another chain, as to one that is none, `serve fault 5`. The log stays
/// as it is.
///
/// A fault is one of `out`: the request was answered, and its line was printed in part or not at all.
pub fn answer<D: Disk, R: Feed, W: Sink, O: Sink>(
    log: &mut VoteLog<D>,
    feed: &mut R,
    sink: &mut W,
    out: &mut O,
) -> Result<(), Fault>
    ensures told { OnOk result ((served : ResultValue ReplyValue ServeErrorValue)
        × Wrote (O.text out.old) (O.text out.new) (served_line served)
        × IsAnswered D.Disk R.Feed W.Sink log.old log.new feed.old feed.new sink.old sink.new
        served) }
    ensures same { (log.new.entries ≡ log.old.entries) × (log.new.steps ≡ log.old.steps)
        × (log.new.stopped ≡ log.old.stopped) × (log.new.genesis ≡ log.old.genesis)
        × Untouched D.Disk log.old.disk log.new.disk }
    ensures counted { Counts (O.failed out.old) (O.failed out.new) result }
{
    let served = reply_to(log, feed, sink);
    print_answer(served, out)
}

/// Prints the line of an answer.
pub(crate) fn print_answer<O: Sink>(
    served: Result<Reply, ServeError>,
    out: &mut O,
) -> Result<(), Fault>
    ensures printed { OnOk result (Wrote (O.text out.old) (O.text out.new) (served_line served)) }
    ensures counted { Counts (O.failed out.old) (O.failed out.new) result }
{
    match served {
        Ok(Reply::Frames(frames)) => print_number(b"served ", frames, out),
        Ok(Reply::NoLog) => print_fault(ServeError::BadRequest, out),
        Err(error) => print_fault(error, out),
    }
}

fn print_fault<O: Sink>(error: ServeError, out: &mut O) -> Result<(), Fault>
    ensures printed { OnOk result (Wrote (O.text out.old) (O.text out.new) (fault_line error)) }
    ensures counted { Counts (O.failed out.old) (O.failed out.new) result }
{
    print_number(b"serve fault ", u32::from(error.number()), out)
}

// Prints a text and a number in a line.
fn print_number<O: Sink>(text: &[u8], number: u32, out: &mut O) -> Result<(), Fault>
    requires { length text.now ≤ 12 }
    ensures printed { OnOk result (Wrote (O.text out.old) (O.text out.new) (text.now
        ++ decimal number ++ codes "\n")) }
    ensures counted { Counts (O.failed out.old) (O.failed out.new) result }
{
    let mut line = Line::new();
    line.push(text);
    line.push(Buffer::new().format(number).as_bytes());
    line.push(b"\n");
    write_all(out, line.as_bytes())
}
