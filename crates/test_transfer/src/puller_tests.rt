//! Streams that come in pieces. The stored export is an independent program's.

use log_format::{Frames, Status};
use log_transfer::Puller;
use std::alloc::Global;
use test_fixtures::exports::nine_entries;

// Whether a stream that comes in pieces of this size gives so many frames, and ends so, where so many frames were held
// before.
fn pulls(
    alloc: Global,
    held: usize,
    stream: &[u8],
    size: usize,
    count: usize,
    status: Status,
) -> bool {
    let mut puller = Puller::new(alloc, held);
    for piece in stream.chunks(size.max(1)) {
        if puller.feed(piece).is_err() {
            return false;
        }
    }
    puller.frames().len() == count && puller.status() == status
}

#[test]
fn pieces_of_any_size(rt: HostRuntime) {
    for size in [1, 2, 3, 5, 1708, 1709, 15_383, 15_384] {
        assert!(rt;
            pulls(rt.alloc(), 0, nine_entries(), size, 9, Status::Whole),
            "{size}"
        );
    }
}

// A stream, frames held before, frames that it has, and how it ends.
const STREAMS: [(&[u8], usize, usize, Status); 9] = [
    (b"", 0, 0, Status::Cut),
    (b"HSX", 0, 0, Status::Cut),
    (b"HSX1", 0, 0, Status::Broken),
    (b"HSL1\xff\xff\xff\xff", 0, 0, Status::Broken),
    (b"HSL1\0\0\0\x01\x05\0\0\0\x01", 4095, 1, Status::TooLong),
    (b"HSL1\0\0\0\x01\x05\0\0\0", 4095, 1, Status::Cut),
    (
        b"HSL1\0\0\0\x01\x05\0\0\0\0\0\0\0\x02",
        0,
        1,
        Status::Broken,
    ),
    (
        b"HSL1\0\0\0\x01\x05\0\0\0\0\0\0\0\x01",
        4095,
        1,
        Status::Whole,
    ),
    (
        b"HSL1\0\0\0\x01\x05\0\0\0\0\0\0\0\x01HSL1\0\0\0\x01\x05",
        0,
        1,
        Status::Whole,
    ),
];

#[test]
fn streams_in_pieces(rt: HostRuntime) {
    for (stream, held, count, status) in &STREAMS {
        for size in [1, 4, 100] {
            assert!(rt;
                pulls(rt.alloc(), *held, stream, size, *count, *status),
                "{stream:?} {size}"
            );
        }
    }
}

// Whether the frames of a puller are those of the stored export.
fn are_stored(alloc: Global, puller: &Puller) -> bool {
    match Frames::of(alloc, nine_entries()) {
        Ok(all) => puller
            .frames()
            .iter()
            .zip(all.frames())
            .all(|(came, stored)| came.as_bytes() == *stored),
        Err(_) => false,
    }
}

#[test]
fn frames_are_those_of_the_stream(rt: HostRuntime) {
    let mut puller = Puller::new(rt.alloc(), 0);
    for piece in nine_entries().chunks(1000) {
        puller.feed(piece).expect(&rt, "memory");
    }
    assert!(rt; are_stored(rt.alloc(), &puller));
}
