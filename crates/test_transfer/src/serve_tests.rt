//! Logs that are served. The log, its export and the requests are an independent program's.

ghost use Rattle.blocks.specs.Headers.{IsGenesis};

use base_streams::{Feed, MemoryFeed, MemorySink};
use blocks::{CommitteeView, Header};
use log_format::{Entry, Frames};
use log_server::{ServeError, serve};
use stable_log::{Disk, MemoryDisk};
use std::alloc::Global;
use std::process::Abort;
use test_fixtures::exports::nine_entries;
use test_fixtures::{log_entries, verdicts};
use vote_log::VoteLog;

fn genesis<R: Abort>(rt: &R) -> Header
    ensures { IsGenesis result }
{
    let committee = CommitteeView::parse(verdicts::committee());
    committee.ok().expect(rt, "a committee").genesis()
}

// A log with no entry, on a disk that lets `pass` calls through after `create` and fails the next.
fn failing_after<R: Abort + AllocGlobal>(rt: &R, pass: u32) -> VoteLog<MemoryDisk> {
    let mut disk = MemoryDisk::new(rt.alloc(), Vec::new(rt.alloc())).expect(rt, "memory");
    // `create` makes three calls: length, write, sync
    disk.fuse(pass.saturating_add(3), false);
    let log = VoteLog::create(rt.alloc(), disk, genesis(rt));
    log.ok().expect(rt, "create")
}

// Appends the entry of this text, which has to be legal, and answers whether that went well.
fn appends<R: Abort + AllocGlobal, D: Disk>(rt: &R, log: &mut VoteLog<D>, text: &[u8]) -> bool {
    let entry = Entry::read(rt.alloc(), text).ok().expect(rt, "an entry");
    assert!(rt; log.allows(&entry));
    log.append(&entry).is_ok()
}

/// The log whose export is stored.
pub(crate) fn log_of_nine<R: Abort + AllocGlobal>(rt: &R) -> VoteLog<MemoryDisk> {
    let frames = Frames::of(rt.alloc(), nine_entries()).expect(rt, "memory");
    let mut log = failing_after(rt, u32::MAX);
    for k in 0..frames.len() {
        assert!(rt; appends(rt, &mut log, frames.payload(k)));
    }
    log
}

// A feed of these bytes.
fn feed_of<R: Abort + AllocGlobal>(rt: &R, bytes: &[u8]) -> MemoryFeed {
    MemoryFeed::new(bytes.to_vec(rt.alloc()).expect(rt, "memory"))
}

// Whether a feed is answered so, with these bytes.
fn answers<D: Disk>(
    alloc: Global,
    log: &mut VoteLog<D>,
    feed: &mut MemoryFeed,
    answer: Result<u32, ServeError>,
    bytes: &[u8],
) -> bool {
    let mut sink = MemorySink::new(alloc);
    serve(log, feed, &mut sink) == answer && sink.bytes() == bytes
}

// The request for the whole log.
const ALL: &[u8] = b"HSL1\0\0\0\0\0\0\x10\x01";

#[test]
fn a_log_is_served(rt: HostRuntime) {
    let mut log = log_of_nine(&rt);
    let mut feed = feed_of(&rt, ALL);
    assert!(rt; answers(rt.alloc(), &mut log, &mut feed, Ok(9), nine_entries()));
}

// A request, then another, then what is none, in one feed: each call takes 12 bytes.
#[test]
fn export_at_the_end(rt: HostRuntime) {
    let mut log = log_of_nine(&rt);
    let none: &[u8] = b"HSL1\0\0\0\0\0\0\0\0";
    let mut feed = feed_of(
        &rt,
        b"HSL1\0\0\0\x09\0\0\0\x05HSL1\0\0\0\x03\0\0\0\0HSL9\0\0\0\x09\0\0\0\x05HSL1",
    );
    for answer in [
        Ok(0),
        Ok(0),
        Err(ServeError::BadRequest),
        Err(ServeError::BadRequest),
    ] {
        let bytes = if answer.is_ok() { none } else { b"" };
        assert!(rt;
            answers(rt.alloc(), &mut log, &mut feed, answer, bytes),
            "{answer:?}"
        );
    }
}

#[test]
fn a_request_that_is_cut(rt: HostRuntime) {
    let mut log = log_of_nine(&rt);
    for n in 0..12 {
        let mut feed = feed_of(&rt, ALL.get(..n).expect(&rt, "12 bytes"));
        assert!(rt;
            answers(
                rt.alloc(),
                &mut log,
                &mut feed,
                Err(ServeError::BadRequest),
                b""
            ),
            "{n} bytes"
        );
    }
}

#[test]
fn a_feed_that_fails(rt: HostRuntime) {
    let mut log = log_of_nine(&rt);
    let mut feed = feed_of(&rt, b"HSL9");
    feed.fuse(1, true);
    assert!(rt;
        answers(
            rt.alloc(),
            &mut log,
            &mut feed,
            Err(ServeError::Source),
            b""
        )
    );
}

// Whether a first part of the stored stream is written, where a sink fails after `pass` writes of its eleven: the head,
// nine frames, and the end mark.
fn serves_first_part<D: Disk>(
    alloc: Global,
    log: &mut VoteLog<D>,
    feed: &mut MemoryFeed,
    pass: u32,
) -> bool {
    let mut sink = MemorySink::new(alloc);
    sink.fuse(pass, false);
    let wanted = if pass < 11 {
        Err(ServeError::Sink)
    } else {
        Ok(9)
    };
    serve(log, feed, &mut sink) == wanted
        && nine_entries().starts_with(sink.bytes())
        && (sink.bytes().len() == nine_entries().len()) == (pass == 11)
}

#[test]
fn each_failing_write_leaves_a_first_part(rt: HostRuntime) {
    let mut log = log_of_nine(&rt);
    for pass in 0..12 {
        let mut feed = feed_of(&rt, ALL);
        assert!(rt;
            serves_first_part(rt.alloc(), &mut log, &mut feed, pass),
            "after {pass} writes"
        );
        assert!(rt; !log.stopped() && log.count() == 9);
    }
}

#[test]
fn a_failing_disk(rt: HostRuntime) {
    // `append` makes four calls
    let mut log = failing_after(&rt, 4);
    assert!(rt; appends(&rt, &mut log, log_entries::a1_voted()));
    assert!(rt;
        answers(
            rt.alloc(),
            &mut log,
            &mut feed_of(&rt, ALL),
            Err(ServeError::Device),
            b"HSL1"
        )
    );
    // no read is needed where there is no frame
    let mut feed = feed_of(&rt, b"HSL1\0\0\0\x01\0\0\0\x05");
    assert!(rt;
        answers(
            rt.alloc(),
            &mut log,
            &mut feed,
            Ok(0),
            b"HSL1\0\0\0\0\0\0\0\0"
        )
    );
}

// A request is judged before the log is looked at.
#[test]
fn a_stopped_log(rt: HostRuntime) {
    let mut log = failing_after(&rt, 1);
    assert!(rt; !appends(&rt, &mut log, log_entries::a1_voted()));
    assert!(rt;
        answers(
            rt.alloc(),
            &mut log,
            &mut feed_of(&rt, ALL),
            Err(ServeError::Stopped),
            b""
        )
    );
    assert!(rt;
        answers(
            rt.alloc(),
            &mut log,
            &mut feed_of(&rt, b"HSL9"),
            Err(ServeError::BadRequest),
            b""
        )
    );
}

const NUMBERS: [(ServeError, u8); 6] = [
    (ServeError::Memory, 1),
    (ServeError::Device, 2),
    (ServeError::Sink, 3),
    (ServeError::Source, 4),
    (ServeError::BadRequest, 5),
    (ServeError::Stopped, 6),
];

#[test]
fn refusals_have_their_numbers(rt: HostRuntime) {
    for (error, number) in &NUMBERS {
        assert!(rt; error.number() == *number, "{error:?}");
    }
}
