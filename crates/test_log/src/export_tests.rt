//! Logs that are sent out. The log and its export are those of an independent program.

use crate::log_tests::{add, append, append_calls, failing_after, new_log};
use stable_log::{Disk, MemoryDisk};
use std::alloc::Global;
use std::process::Abort;
use test_fixtures::exports::nine_entries;
use test_fixtures::log_entries;
use vote_log::{ExportError, Frames, MemorySink, Status, VoteLog};

// The log whose export is stored.
fn log_of_nine<R: Abort + AllocGlobal>(rt: &R) -> VoteLog<MemoryDisk> {
    let frames = Frames::of(rt.alloc(), nine_entries()).expect(rt, "memory");
    let mut log = new_log(rt);
    for k in 0..frames.len() {
        add(rt, &mut log, frames.payload(k));
    }
    log
}

// Whether the export of at most `most` entries from `first` on has so many frames, and these bytes.
fn exports<D: Disk>(
    alloc: Global,
    log: &mut VoteLog<D>,
    (first, most): (u32, u32),
    count: u32,
    bytes: &[u8],
) -> bool {
    let mut sink = MemorySink::new(alloc);
    log.export(first, most, &mut sink) == Ok(count) && sink.bytes() == bytes
}

#[test]
fn export_at_the_end(rt: HostRuntime) {
    let mut log = log_of_nine(&rt);
    for asked in [(9, 5), (4096, 1), (0, 0)] {
        assert!(rt;
            exports(rt.alloc(), &mut log, asked, 0, b"HSL1\0\0\0\0\0\0\0\0"),
            "{asked:?}"
        );
    }
}

// Whether a stream is whole, and has the stored frames from `first` up to `until`.
fn has_frames(alloc: Global, sent: &[u8], first: usize, until: usize) -> bool {
    match (Frames::of(alloc, nine_entries()), Frames::of(alloc, sent)) {
        (Ok(all), Ok(part)) => {
            part.status() == Status::Whole && Some(part.frames()) == all.frames().get(first..until)
        }
        _ => false,
    }
}

// Whether that export is whole, and has the stored frames from `first` up to `until`.
fn exports_frames<D: Disk>(
    alloc: Global,
    log: &mut VoteLog<D>,
    (first, most): (u32, u32),
    until: u32,
) -> bool {
    let mut sink = MemorySink::new(alloc);
    log.export(first, most, &mut sink) == Ok(until.saturating_sub(first))
        && has_frames(alloc, sink.bytes(), first as usize, until as usize)
}

#[test]
fn an_export_is_the_stored_stream(rt: HostRuntime) {
    let mut log = log_of_nine(&rt);
    assert!(rt; exports(rt.alloc(), &mut log, (0, u32::MAX), 9, nine_entries()));
    // the last two of them, and three in the middle
    assert!(rt; exports_frames(rt.alloc(), &mut log, (7, 5), 9));
    assert!(rt; exports_frames(rt.alloc(), &mut log, (2, 3), 5));
}

// Whether an export writes a first part of the stored stream, where a sink fails after `pass` writes of its
// eleven: the head, nine frames, and the end mark.
fn exports_first_part<D: Disk>(alloc: Global, log: &mut VoteLog<D>, pass: u32) -> bool {
    let mut sink = MemorySink::new(alloc);
    sink.fuse(pass, false);
    let wanted = if pass < 11 {
        Err(ExportError::Sink)
    } else {
        Ok(9)
    };
    log.export(0, 9, &mut sink) == wanted
        && nine_entries().starts_with(sink.bytes())
        && (sink.bytes().len() == nine_entries().len()) == (pass == 11)
}

#[test]
fn each_failing_write_leaves_a_first_part(rt: HostRuntime) {
    let mut log = log_of_nine(&rt);
    for pass in 0..12 {
        assert!(rt;
            exports_first_part(rt.alloc(), &mut log, pass),
            "after {pass} writes"
        );
        assert!(rt; !log.stopped() && log.count() == 9);
    }
}

// Whether an export of entry 0 is refused so, and has sent these bytes.
fn refuses<D: Disk>(alloc: Global, log: &mut VoteLog<D>, why: ExportError, sent: &[u8]) -> bool {
    let mut sink = MemorySink::new(alloc);
    log.export(0, 1, &mut sink) == Err(why) && sink.bytes() == sent
}

#[test]
fn a_failing_read_stops_nothing(rt: HostRuntime) {
    let mut log = failing_after(&rt, append_calls(&rt));
    add(&rt, &mut log, log_entries::a1_voted());
    assert!(rt; refuses(rt.alloc(), &mut log, ExportError::Device, b"HSL1"));
    assert!(rt; !log.stopped());
    assert!(rt; log.export(0, 1, &mut MemorySink::new(rt.alloc())) == Ok(1));
}

#[test]
fn a_stopped_log_sends_nothing(rt: HostRuntime) {
    let mut log = failing_after(&rt, 1);
    assert!(rt; append(&rt, &mut log, log_entries::a1_voted()).is_err());
    assert!(rt; refuses(rt.alloc(), &mut log, ExportError::Stopped, b""));
}
