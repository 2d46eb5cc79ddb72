//! How many connections are kept.

ghost use Rattle.std.specs.Prelude.{◌≡◌};
ghost use Rattle.base_sockets.specs.Rooms.{connections};

use std::alloc::Global;
use std::fs::{File, Files};
use std::io;
use std::io::Read;

/// How many connections a socket keeps at most.
pub const MOST_CONNECTIONS: u64 = 1_024;

/// How many descriptors stay for files and dials.
pub const KEPT_FILES: u64 = 64;

/// How many connections each of these sockets keeps, where the process may have so many files open, of which so many are taken: what
/// is left when 64 stay for files and dials, shared alike, and at most 1,024.
pub fn connections_at(open_files: u64, taken: u64, sockets: u64) -> u64
    ensures { result ≡ connections open_files taken sockets }
{
    let left = open_files.saturating_sub(KEPT_FILES).saturating_sub(taken);
    (left / sockets.max(1)).min(MOST_CONNECTIONS)
}

// What stands before the number in a file of limits, and how much of that is read.
const OPEN_FILES: &str = "Max open files";

const MOST_OF_LIMITS: u64 = 16_384;

/// How many files this process may have open, as /proc/self/limits tells, or 1,024 where it does not.
pub fn most_open_files<F: Files<File = File>>(files: &F, alloc: Global) -> u64 {
    most_open_files_by(files, alloc, "/proc/self/limits")
}

/// How many files a process may have open whose limits this file tells, or 1,024 where it does not.
pub fn most_open_files_by<F: Files<File = File>>(files: &F, alloc: Global, limits: &str) -> u64 {
    match text_of(files, alloc, limits) {
        Ok(text) => open_files_in(&text).unwrap_or(MOST_CONNECTIONS),
        Err(_) => MOST_CONNECTIONS,
    }
}

fn text_of<F: Files<File = File>>(files: &F, alloc: Global, limits: &str) -> io::Result<Vec<u8>> {
    let mut text = Vec::new(alloc);
    let file = File::open(files, limits)?;
    let _length = file.take(MOST_OF_LIMITS).read_to_end(&mut text)?;
    Ok(text)
}

// The first number of the line on open files. It is a word where there is no limit.
fn open_files_in(text: &[u8]) -> Option<u64> {
    let text = str::from_utf8(text).ok()?;
    for line in text.lines() {
        if let Some(rest) = line.strip_prefix(OPEN_FILES) {
            let word = rest.split_ascii_whitespace().next()?;
            return Some(word.parse::<u64>().unwrap_or(u64::MAX));
        }
    }
    None
}
