//! Sources that send what no log is. What they give is worked out by hand, from docs/FORMATS.md.

ghost use Rattle.std.specs.Prelude.{◌≡◌, ⊤};
ghost use Rattle.log_transfer.specs.Connections.{ended};

use crate::sources::{has, source_of};
use log_format::Status;
use log_transfer::{Connector, Fault};
use std::alloc::{AllocError, Global};

// A stream, how many frames it has, and how it ends.
const STREAMS: [(&[u8], usize, Status); 9] = [
    (b"", 0, Status::Cut),
    (b"HS", 0, Status::Cut),
    (b"HSX1", 0, Status::Broken),
    (b"HSL1\0\x01\0\x01", 0, Status::Broken),
    (b"HSL1\xff\xff\xff\xff", 0, Status::Broken),
    (b"HSL1\xff\xff\xff\xffHSL1", 0, Status::Broken),
    (b"HSL1\0\0\0\x01\x05\0\0\0\0\0\0\0\x02", 1, Status::Broken),
    (b"HSL1\0\0\0\x01\x05\0\0\0\0\0\0\0\x01", 1, Status::Whole),
    (b"HSL1\0\0\0\x01\x05\0\0\0\0\0\0\0\x01\0", 1, Status::Whole),
];

#[test]
fn hostile_streams(rt: HostRuntime) {
    for (stream, count, status) in &STREAMS {
        let mut source = source_of(&rt, &[(stream, false)]);
        assert!(rt;
            has(rt.alloc(), &mut source, 1, *count, *status),
            "{stream:?}"
        );
    }
}

// Broken and TooLong are final: the source is not asked again.
#[test]
fn a_broken_source_is_not_asked_again(rt: HostRuntime) {
    let whole: &[u8] = b"HSL1\0\0\0\0\0\0\0\0";
    let mut source = source_of(&rt, &[(b"HSX1", false), (whole, false)]);
    assert!(rt; has(rt.alloc(), &mut source, 3, 0, Status::Broken));
    assert!(rt; source.requests().len() == 1);
}

// A stream of as many frames of one byte.
fn small_frames(alloc: Global, count: u32) -> Result<Vec<u8>, AllocError> {
    let mut text = b"HSL1".to_vec(alloc)?;
    for _ in 0..count {
        text.extend_from_slice(b"\0\0\0\x01\0")?;
    }
    text.extend_from_slice(b"\0\0\0\0")?;
    text.extend_from_slice(&count.to_be_bytes())?;
    Ok(text)
}

#[test]
fn most_frames_and_one_more(rt: HostRuntime) {
    for (count, status) in [(4096, Status::Whole), (4097, Status::TooLong)] {
        let text = small_frames(rt.alloc(), count).expect(&rt, "memory");
        let mut source = source_of(&rt, &[(&text, false), (b"", false)]);
        assert!(rt; has(rt.alloc(), &mut source, 3, 4096, status), "{count}");
        assert!(rt; source.requests().len() == 1, "{count}");
    }
}

// Behind 4,095 frames of a first connection there is room for one.
#[test]
fn room_for_one_more(rt: HostRuntime) {
    let most = small_frames(rt.alloc(), 4096).expect(&rt, "memory");
    let cut = most.get(..4 + 4095 * 5).expect(&rt, "4,095 frames");
    for (count, status) in [(1, Status::Whole), (2, Status::TooLong)] {
        let more = small_frames(rt.alloc(), count).expect(&rt, "memory");
        let mut source = source_of(&rt, &[(cut, false), (&more, false)]);
        assert!(rt; has(rt.alloc(), &mut source, 2, 4096, status), "{count}");
    }
}

// Sends frames of one byte without end.
#[derive(Drop)]
struct Endless {
    sent: usize,
    // How many bytes were read since the last connect.
    taken: usize,
}

// The next bytes, where so many were sent.
fn send(sent: &mut usize, buffer: &mut [u8]) {
    for byte in buffer.iter_mut() {
        *byte = match *sent {
            0 => b'H',
            1 => b'S',
            2 => b'L',
            3 => b'1',
            sent if sent % 5 == 2 => 1,
            sent if sent % 5 == 3 => 5,
            _ => 0,
        };
        *sent = sent.wrapping_add(1);
    }
}

impl Connector for Endless {
    ghost gives = { λ s k first most c. ⊤ };

    ghost left = { λ s c. ⊤ };

    ghost asked = { λ s t first most. ⊤ };

    ghost taken = { λ s. s.taken };

    ghost failed = { λ s. 0 };

    ghost reaches = { λ s t. ⊤ };

    ghost allowed = { λ s. 3 };

    fn connect(&mut self, _first: u32, _most: u32) -> Result<(), Fault> {
        self.sent = 0;
        self.taken = 0;
        Ok(())
    }

    fn read(&mut self, buffer: &mut [u8]) -> Result<usize, Fault> {
        send(&mut self.sent, buffer);
        self.taken += buffer.len();
        Ok(buffer.len())
    }

    fn most_tries(&self) -> u8 {
        3
    }

    fn failures(&self) -> u64 {
        0
    }

    ghost some = { λ s. (ended, tt) };

    ghost stays = { λ s. tt };
}

#[test]
fn a_stream_without_end(rt: HostRuntime) {
    assert!(rt;
        has(
            rt.alloc(),
            &mut Endless { sent: 0, taken: 0 },
            3,
            4096,
            Status::TooLong
        )
    );
}
