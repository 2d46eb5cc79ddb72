//! Writes streams of frames.

ghost use Rattle.std.specs.Prelude.{◌≡◌, ◌≤◌, OnErr, OnOk, codes, length};
ghost use Rattle.base_wire.specs.declared.limits.TheConstants.{LONGEST_PAYLOAD};
ghost use Rattle.log_format.specs.Exports.{end_mark, frame_text};
ghost use Rattle.base_streams.specs.Counting.{Counts};
ghost use Rattle.base_streams.specs.Streams.{Wrote, WrotePart};
ghost use Rattle.log_export.specs.Sent.{sent_text};

use crate::splitting::JournalFront;
use base_streams::{Fault, Sink, write_all};

/// Begins a stream of frames. After a fault, of this call as of the others, a first part was written.
pub fn begin_export<W: Sink>(sink: &mut W) -> Result<(), Fault>
    ensures ok { OnOk result (Wrote (W.text sink.old) (W.text sink.new) (codes "HSL1")) }
    ensures err { OnErr result (WrotePart (W.text sink.old) (W.text sink.new) (codes "HSL1")) }
    ensures counted { Counts (W.failed sink.old) (W.failed sink.new) result }
{
    write_all(sink, b"HSL1")
}

/// Writes a frame with this payload, of at most 65,536 bytes.
#[tactic(auto, using(base_streams::proofs::Writing::wrote_both), unfolding(log_format::specs::Exports::frame_text))]
pub fn send_frame<W: Sink>(sink: &mut W, payload: &[u8]) -> Result<(), Fault>
    requires { length payload.now ≤ LONGEST_PAYLOAD }
    ensures ok { OnOk result (Wrote (W.text sink.old) (W.text sink.new) (frame_text payload.now)) }
    ensures err { OnErr result (WrotePart (W.text sink.old) (W.text sink.new)
        (frame_text payload.now)) }
    ensures counted { Counts (W.failed sink.old) (W.failed sink.new) result }
{
    write_all(sink, &(payload.len() as u32).to_be_bytes())?;
    write_all(sink, payload)
}

/// Ends a stream of so many frames.
#[tactic(auto, using(base_streams::proofs::Writing::wrote_both), unfolding(log_format::specs::Exports::end_mark))]
pub fn end_export<W: Sink>(sink: &mut W, count: u32) -> Result<(), Fault>
    ensures ok { OnOk result (Wrote (W.text sink.old) (W.text sink.new) (end_mark count)) }
    ensures err { OnErr result (WrotePart (W.text sink.old) (W.text sink.new) (end_mark count)) }
    ensures counted { Counts (W.failed sink.old) (W.failed sink.new) result }
{
    write_all(sink, &[0; 4])?;
    write_all(sink, &count.to_be_bytes())
}

/// Writes the export of a journal's payloads: with its end mark where the journal is whole, and else without it, so that a
/// reader sees that more is missing.
pub fn send_export<W: Sink>(front: &JournalFront, sink: &mut W) -> Result<(), Fault>
    ensures ok { OnOk result (Wrote (W.text sink.old) (W.text sink.new) (sent_text front.now)) }
    ensures err { OnErr result (WrotePart (W.text sink.old) (W.text sink.new) (sent_text front.now)) }
    ensures counted { Counts (W.failed sink.old) (W.failed sink.new) result }
{
    begin_export(sink)?;
    for k in 0..front.count() {
        send_frame(sink, front.payload(k))?;
    }
    if front.is_whole() {
        end_export(sink, front.count() as u32)?;
    }
    Ok(())
}
