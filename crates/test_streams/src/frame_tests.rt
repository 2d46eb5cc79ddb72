//! Frames of streams, and requests for them. The stored export is an independent program's; what streams of a few
//! bytes hold is worked out by hand, from docs/FORMATS.md.

use log_format::{FrameRequest, Frames, Status};
use std::alloc::{AllocError, Global};
use test_fixtures::exports::nine_entries;

// The stored export has nine frames, each of a length of 4 bytes and a payload of 1,704.
const FRAME: usize = 1708;

// Whether a stream has as many frames, and ends so.
fn has(alloc: Global, text: &[u8], count: usize, status: Status) -> bool {
    match Frames::of(alloc, text) {
        Ok(frames) => frames.frames().len() == count && frames.status() == status,
        Err(_) => false,
    }
}

// A stream of as many frames of one zero byte.
fn small_frames(alloc: Global, count: u32) -> Result<Vec<u8>, AllocError> {
    let mut text = b"HSL1".to_vec(alloc)?;
    for _ in 0..count {
        text.extend_from_slice(b"\0\0\0\x01\0")?;
    }
    text.extend_from_slice(b"\0\0\0\0")?;
    text.extend_from_slice(&count.to_be_bytes())?;
    Ok(text)
}

// A stream of one frame of as many bytes.
fn one_frame(alloc: Global, len: u32) -> Result<Vec<u8>, AllocError> {
    let mut text = b"HSL1".to_vec(alloc)?;
    text.extend_from_slice(&len.to_be_bytes())?;
    text.extend_from_slice(&vec![in alloc; 7u8; len as usize]?)?;
    text.extend_from_slice(b"\0\0\0\0\0\0\0\x01")?;
    Ok(text)
}

// An export that is cut anywhere gives the frames that came whole.
#[test]
fn cut_at_every_byte(rt: HostRuntime) {
    let export = nine_entries();
    for n in 0..export.len() {
        let came = n.saturating_sub(4) / FRAME;
        let frames = if came < 9 { came } else { 9 };
        assert!(rt;
            has(rt.alloc(), &export[..n], frames, Status::Cut),
            "after {n} bytes"
        );
    }
    assert!(rt; has(rt.alloc(), export, 9, Status::Whole));
}

// Each frame is a part of the text, where it stands.
#[test]
fn frames_are_parts_of_the_text(rt: HostRuntime) {
    let export = nine_entries();
    let frames = Frames::of(rt.alloc(), export).expect(&rt, "memory");
    let mut at: usize = 8;
    for payload in frames.frames() {
        assert!(rt;
            export.get(at..at.saturating_add(1704)) == Some(*payload),
            "at {at}"
        );
        at = at.saturating_add(FRAME);
    }
    assert!(rt; at == 8 + 9 * FRAME);
}

// Past the end of a log there are no frames.
#[test]
fn export_at_the_end(rt: HostRuntime) {
    assert!(rt; has(rt.alloc(), b"HSL1\0\0\0\0\0\0\0\0", 0, Status::Whole));
}

// One frame too many, an empty stream, and a length that no frame has.
#[test]
fn hostile_streams(rt: HostRuntime) {
    let many = small_frames(rt.alloc(), 4097).expect(&rt, "memory");
    assert!(rt; has(rt.alloc(), &many, 4096, Status::TooLong));
    assert!(rt; has(rt.alloc(), b"", 0, Status::Cut));
    assert!(rt; has(rt.alloc(), b"HSL1\0\x01\0\x01", 0, Status::Broken));
}

#[test]
fn longest_and_most_frames(rt: HostRuntime) {
    let most = small_frames(rt.alloc(), 4096).expect(&rt, "memory");
    assert!(rt; has(rt.alloc(), &most, 4096, Status::Whole));
    for (len, count, status) in [(65536, 1, Status::Whole), (65537, 0, Status::Broken)] {
        let text = one_frame(rt.alloc(), len).expect(&rt, "memory");
        assert!(rt; has(rt.alloc(), &text, count, status), "{len} bytes");
    }
}

// The magic is judged where four bytes came, and not before.
#[test]
fn the_magic_is_judged_whole(rt: HostRuntime) {
    assert!(rt; has(rt.alloc(), b"HSX", 0, Status::Cut));
    assert!(rt; has(rt.alloc(), b"HSX1", 0, Status::Broken));
}

// Whether the bytes spell the request.
fn spell(bytes: &[u8], request: FrameRequest) -> bool {
    request.to_bytes().as_slice() == bytes && FrameRequest::from_bytes(bytes) == Some(request)
}

// Another magic, a byte less, a byte more.
const NO_REQUESTS: [&[u8]; 3] = [
    b"HSL9\0\0\0\x09\0\0\0\x05",
    b"HSL1\0\0\0\x09\0\0\0",
    b"HSL1\0\0\0\x09\0\0\0\x05\0",
];

#[test]
fn requests_have_twelve_bytes(rt: HostRuntime) {
    assert!(rt;
        spell(
            b"HSL1\0\0\0\x09\0\0\0\x05",
            FrameRequest { first: 9, most: 5 }
        )
    );
    assert!(rt;
        spell(
            b"HSL1\0\0\0\x04\0\0\x0f\xfd",
            FrameRequest {
                first: 4,
                most: 4093
            }
        )
    );
    for bytes in &NO_REQUESTS {
        assert!(rt; FrameRequest::from_bytes(bytes) == None, "{bytes:?}");
    }
}

const NAMES: [(Status, &str); 5] = [
    (Status::Whole, "Whole"),
    (Status::Cut, "Cut"),
    (Status::Broken, "Broken"),
    (Status::TooLong, "TooLong"),
    (Status::Failed, "Failed"),
];

#[test]
fn status_names(rt: HostRuntime) {
    for (status, name) in &NAMES {
        assert!(rt; status.name() == *name, "{name}");
    }
}
