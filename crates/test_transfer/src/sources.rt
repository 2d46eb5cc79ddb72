//! Sources in memory, made of the stored export of a log of nine entries, which an independent program made.

ghost use Rattle.std.specs.Prelude.{◌≤◌, ◌<◌};
ghost use Rattle.log_transfer.specs.Places.{MayTry};

use log_format::{Frames, Status};
use log_transfer::{Connector, MemoryConnector, Payload, fetch};
use std::alloc::{AllocError, Global};
use std::process::Abort;
use test_fixtures::exports::nine_entries;

// The bytes of each frame of the stored export: a length of 4 bytes and a payload of 1,704.
const FRAME: usize = 1708;

/// Where the fifth frame of the stored export is cut.
pub(crate) const IN_THE_FIFTH: usize = 7540;

/// The stored export, cut there.
pub(crate) fn cut_in_the_fifth() -> &'static [u8] {
    nine_entries().get(..IN_THE_FIFTH).unwrap_or(b"")
}

/// The export of the entries from number `first` on, at most 9.
pub(crate) fn rest_from(alloc: Global, first: usize) -> Result<Vec<u8>, AllocError> {
    let first = first.min(9);
    let mut text = b"HSL1".to_vec(alloc)?;
    text.extend_from_slice(
        nine_entries()
            .get(4 + first * FRAME..4 + 9 * FRAME)
            .unwrap_or(b""),
    )?;
    text.extend_from_slice(b"\0\0\0\0\0\0\0")?;
    text.push((9 - first) as u8)?;
    Ok(text)
}

/// A source of these streams, one for each connection; the flag says whether a read behind it fails.
pub(crate) fn source_of<R: Abort + AllocGlobal>(
    rt: &R,
    streams: &[(&[u8], bool)],
) -> MemoryConnector {
    let mut source = MemoryConnector::new(rt.alloc());
    for (bytes, fails) in streams {
        let bytes = bytes.to_vec(rt.alloc()).expect(rt, "memory");
        source.add(bytes, *fails).expect(rt, "memory");
    }
    source
}

/// The source whose first connection gives the first `cut` bytes of the stored export, and then the end or with `fails`
/// a failing read, and whose second gives the frames behind the whole ones among them.
pub(crate) fn cut_source<R: Abort + AllocGlobal>(
    rt: &R,
    cut: usize,
    fails: bool,
) -> MemoryConnector {
    let first = nine_entries().get(..cut).expect(rt, "within the export");
    let second = rest_from(rt.alloc(), cut.saturating_sub(4) / FRAME).expect(rt, "memory");
    source_of(rt, &[(first, fails), (&second, false)])
}

// Whether these are the first payloads of the stored export.
fn are_first(alloc: Global, frames: &[Payload]) -> bool {
    match Frames::of(alloc, nine_entries()) {
        Ok(all) => {
            frames.len() <= all.len()
                && frames
                    .iter()
                    .zip(all.frames())
                    .all(|(came, stored)| came.as_bytes() == *stored)
        }
        Err(_) => false,
    }
}

/// Whether a source gives so many of the stored export's frames, the first ones, and this status.
pub(crate) fn gives<C: Connector>(
    alloc: Global,
    source: &mut C,
    tries: u8,
    count: usize,
    status: Status,
) -> bool
    requires { MayTry (C.allowed source.old) tries }
{
    match fetch(alloc, source, tries) {
        Ok(came) => came.frames.len() == count
            && came.status == status
            && are_first(alloc, &came.frames),
        Err(_) => false,
    }
}

/// Whether a source gives so many frames, and this status.
pub(crate) fn has<C: Connector>(
    alloc: Global,
    source: &mut C,
    tries: u8,
    count: usize,
    status: Status,
) -> bool
    requires { MayTry (C.allowed source.old) tries }
{
    match fetch(alloc, source, tries) {
        Ok(came) => came.frames.len() == count && came.status == status,
        Err(_) => false,
    }
}
