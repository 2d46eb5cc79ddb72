//! Sends the entries of a journal out. Nothing here writes to the disk.

ghost use Rattle.std.specs.Prelude.{◌≡◌, ◌≤◌, ◌<◌, ◌+◌, ◌-◌, ◌⊎◌, ℕ, List, [], false, drop, length, take, Some, IfErr, IfOk, IfSome, OnErr, OnOk, slice_get, slice_index_or, codes};
ghost use Rattle.std.specs.List.{flat_map};
ghost use Rattle.log_format.specs.Exports.{asked_for, end_mark, export_text, frame_text};
ghost use Rattle.stable_log.specs.Devices.{Untouched};
ghost use Rattle.base_wire.specs.declared.limits.TheConstants.{LONGEST_PAYLOAD};
ghost use Rattle.base_streams.specs.Streams.{Wrote, WrotePart};
ghost use Rattle.vote_log.specs.LogExport.{Blames, frame_at, frame_count, frames_from};

use crate::ExportError;
use base_streams::{Sink, write_all};
use base_wire::{LONGEST_PAYLOAD, put};
use stable_log::{Disk, Journal};
use std::alloc::{AllocError, Global};

// What stands in front of a payload: its length.
const FRAME_HEAD: usize = 4;

/// The length in bytes of the longest frame.
pub(crate) const LONGEST_FRAME: usize = FRAME_HEAD + LONGEST_PAYLOAD;

/// A buffer of as many bytes.
pub(crate) fn buffer_of(alloc: Global, len: usize) -> Result<Vec<u8>, AllocError>
    ensures { IfOk result (λ buffer. length buffer.items ≡ len) }
{
    vec![in alloc; 0u8; len]
}

// Writes all of the bytes.
fn send<W: Sink>(sink: &mut W, bytes: &[u8]) -> Result<(), ExportError>
    ensures ok { OnOk result (Wrote (W.text sink.old) (W.text sink.new) bytes.now) }
    ensures part { OnErr result (WrotePart (W.text sink.old) (W.text sink.new) bytes.now) }
    ensures refused { IfErr result (λ e. e ≡ ExportError.Sink) }
    ensures cause { Blames 0 0 (W.failed sink.old) (W.failed sink.new) result }
{
    write_all(sink, bytes)?;
    Ok(())
}

// Reads payload k behind the head of a frame. Answers the payload's length.
fn read_payload<D: Disk>(
    journal: &mut Journal<D>,
    k: usize,
    frame: &mut [u8],
) -> Result<usize, ExportError>
    requires room { length frame.old ≡ 65540 }
    requires inside { (journal.old.stopped ≡ false) × (k < length journal.old.payloads) }
    ensures ok { IfOk result (λ n. IfSome (D.bytes journal.old.disk) (λ _.
        slice_get journal.old.payloads k ≡ Some (take n (drop 4 frame.new)))) }
    ensures size { IfOk result (λ n. n ≤ LONGEST_PAYLOAD) }
    ensures room { length frame.new ≡ 65540 }
    ensures same { (journal.new.payloads ≡ journal.old.payloads)
        × (journal.new.stopped ≡ journal.old.stopped)
        × Untouched D.Disk journal.old.disk journal.new.disk }
    ensures refused { IfErr result (λ e. e ≡ ExportError.Device) }
    ensures cause { Blames (D.failed journal.old.disk) (D.failed journal.new.disk) 0 0 result }
{
    match journal.entry_into(k, &mut frame[FRAME_HEAD..]) {
        Ok(len) => Ok(len),
        // The journal runs and has payload k, so only its disk can refuse.
        Err(_) => Err(ExportError::Device),
    }
}

// Puts the frame of payload k at the front of the buffer. Answers its length.
#[tactic(auto, unfolding(log_format::specs::Exports::frame_text))]
fn read_frame<D: Disk>(
    journal: &mut Journal<D>,
    k: usize,
    frame: &mut [u8],
) -> Result<usize, ExportError>
    requires room { length frame.old ≡ 65540 }
    requires inside { (journal.old.stopped ≡ false) × (k < length journal.old.payloads) }
    ensures ok { IfOk result (λ n. IfSome (D.bytes journal.old.disk) (λ _.
        take n frame.new ≡ frame_at journal.old.payloads k)) }
    ensures size { IfOk result (λ n. n ≤ 65540) }
    ensures room { length frame.new ≡ 65540 }
    ensures same { (journal.new.payloads ≡ journal.old.payloads)
        × (journal.new.stopped ≡ journal.old.stopped)
        × Untouched D.Disk journal.old.disk journal.new.disk }
    ensures refused { IfErr result (λ e. e ≡ ExportError.Device) }
    ensures cause { Blames (D.failed journal.old.disk) (D.failed journal.new.disk) 0 0 result }
{
    let len = read_payload(journal, k, frame)?;
    put(frame, 0, &(len as u32).to_be_bytes());
    Ok(FRAME_HEAD + len)
}

// Sends the frame of payload k.
fn send_frame<D: Disk, W: Sink>(
    journal: &mut Journal<D>,
    k: usize,
    frame: &mut [u8],
    sink: &mut W,
) -> Result<(), ExportError>
    requires room { length frame.old ≡ 65540 }
    requires inside { (journal.old.stopped ≡ false) × (k < length journal.old.payloads) }
    ensures ok { OnOk result (IfSome (D.bytes journal.old.disk) (λ _.
        Wrote (W.text sink.old) (W.text sink.new) (frame_at journal.old.payloads k))) }
    ensures part { OnErr result (IfSome (D.bytes journal.old.disk) (λ _.
        WrotePart (W.text sink.old) (W.text sink.new) (frame_at journal.old.payloads k))) }
    ensures room { length frame.new ≡ 65540 }
    ensures same { (journal.new.payloads ≡ journal.old.payloads)
        × (journal.new.stopped ≡ journal.old.stopped)
        × Untouched D.Disk journal.old.disk journal.new.disk }
    ensures refused { IfErr result (λ e. (e ≡ ExportError.Device) ⊎ (e ≡ ExportError.Sink)) }
    ensures cause { Blames (D.failed journal.old.disk) (D.failed journal.new.disk)
        (W.failed sink.old) (W.failed sink.new) result }
{
    let len = read_frame(journal, k, frame)?;
    send(sink, &frame[..len])
}

// Sends the frames of the payloads from one to before another.
fn send_frames<D: Disk, W: Sink>(
    journal: &mut Journal<D>,
    from: usize,
    until: usize,
    frame: &mut [u8],
    sink: &mut W,
) -> Result<(), ExportError>
    requires room { length frame.old ≡ 65540 }
    requires inside { (journal.old.stopped ≡ false) × (from ≤ until)
        × (until ≤ length journal.old.payloads) }
    ensures ok { OnOk result ((bs : List ℕ) → D.bytes journal.old.disk ≡ Some bs →
        Wrote (W.text sink.old) (W.text sink.new) (frames_from journal.old.payloads from until)) }
    ensures part { OnErr result ((bs : List ℕ) → D.bytes journal.old.disk ≡ Some bs
        → WrotePart (W.text sink.old) (W.text sink.new)
        (frames_from journal.old.payloads from until)) }
    ensures same { (journal.new.payloads ≡ journal.old.payloads)
        × (journal.new.stopped ≡ journal.old.stopped)
        × Untouched D.Disk journal.old.disk journal.new.disk }
    ensures refused { IfErr result (λ e. (e ≡ ExportError.Sink)
        ⊎ ((e ≡ ExportError.Device) × (from < until))) }
    ensures cause { Blames (D.failed journal.old.disk) (D.failed journal.new.disk)
        (W.failed sink.old) (W.failed sink.new) result }
{
    for k in from..until {
        send_frame(journal, k, frame, sink)?;
    }
    Ok(())
}

// The payloads that are asked for, of `count`: from the first, up to and without the second.
fn asked_range(count: usize, first: u32, most: u32) -> (usize, usize)
    ensures inside { (result.0 ≤ result.1) × (result.1 ≤ count) }
    ensures size { result.1 - result.0 ≡ frame_count count first most }
    ensures same { (payloads : List (List ℕ)) → length payloads ≡ count →
        take (result.1 - result.0) (drop result.0 payloads) ≡ asked_for payloads first most }
{
    let from = (first as usize).min(count);
    let most = (most as usize).min(count - from);
    (from, from + most)
}

// No length, then how many frames the stream has.
#[tactic(auto, unfolding(log_format::specs::Exports::end_mark))]
fn end_mark(count: u32) -> [u8; 8]
    ensures { result ≡ end_mark count }
{
    let mut mark = [0; 8];
    put(&mut mark, 4, &count.to_be_bytes());
    mark
}

/// Sends the stream of the payloads from `first` on, at most `most` of them, with a buffer for one frame.
/// Answers how many frames it has.
pub(crate) fn send_export<D: Disk, W: Sink>(
    journal: &mut Journal<D>,
    first: u32,
    most: u32,
    frame: &mut [u8],
    sink: &mut W,
) -> Result<u32, ExportError>
    requires room { length frame.old ≡ 65540 }
    requires running { journal.old.stopped ≡ false }
    ensures ok { OnOk result ((bs : List ℕ) → D.bytes journal.old.disk ≡ Some bs →
        Wrote (W.text sink.old) (W.text sink.new) (export_text journal.old.payloads first most)) }
    ensures part { OnErr result ((bs : List ℕ) → D.bytes journal.old.disk ≡ Some bs
        → WrotePart (W.text sink.old) (W.text sink.new)
        (export_text journal.old.payloads first most)) }
    ensures count { IfOk result (λ n. n ≡ frame_count (length journal.old.payloads) first most) }
    ensures same { (journal.new.payloads ≡ journal.old.payloads)
        × (journal.new.stopped ≡ journal.old.stopped)
        × Untouched D.Disk journal.old.disk journal.new.disk }
    ensures refused { IfErr result (λ e. (e ≡ ExportError.Sink) ⊎ ((e ≡ ExportError.Device)
        × (0 < frame_count (length journal.old.payloads) first most))) }
    ensures cause { Blames (D.failed journal.old.disk) (D.failed journal.new.disk)
        (W.failed sink.old) (W.failed sink.new) result }
{
    let (from, until) = asked_range(journal.count(), first, most);
    send(sink, b"HSL1")?;
    send_frames(journal, from, until, frame, sink)?;
    let count = (until - from) as u32;
    send(sink, &end_mark(count))?;
    Ok(count)
}
