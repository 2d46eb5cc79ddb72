//! What stands where a file is to be written.

ghost use Rattle.std.specs.Prelude.{◌≡◌, ◌≢◌, IfErr};
ghost use Rattle.program_tool.specs.Occupied.{is_precious};

use crate::fault::Fault;
use lmots::PRIVATE_SEED_LEN;
use lms_tree::PUBLIC_KEY_LEN;
use program_parts::{ProgramFault, is_nothing_at, read_named};
use std::alloc::Global;
use std::fs;
use std::fs::{File, Files};

/// How much of a file is read to see what it is: one byte more than a public key has.
const MOST_OF_A_HEAD: u64 = 57;

// A longer file is no public key.
const _: () = prove!(MOST_OF_A_HEAD == PUBLIC_KEY_LEN as u64 + 1);

/// Sees that a file may be written at the path, in place of one that is there. A seed, a public key, a journal, an export
/// and a verdict stay, and so does what can't be read or is no file: each is the fault of the path.
pub(crate) fn see_place<'a, F: Files<File = File>>(
    files: &F,
    alloc: Global,
    path: &'a str,
) -> Result<(), Fault<'a>>
    ensures { IfErr result (λ fault. fault ≢ ProgramFault.Output) }
{
    let fault = Fault::File(path);
    match is_nothing_at(files, path) {
        Ok(true) => return Ok(()),
        Ok(false) => {}
        Err(error) => return Err(Fault::unless_memory(&error, fault)),
    }
    match fs::symlink_metadata(files, path) {
        Ok(found) if found.is_file() => {}
        Ok(_) => return Err(fault),
        Err(error) => return Err(Fault::unless_memory(&error, fault)),
    }
    if is_precious(&read_named(files, alloc, path, MOST_OF_A_HEAD)?) {
        return Err(fault);
    }
    Ok(())
}

/// Sees that nothing stands at the path, not even a link that leads nowhere.
pub(crate) fn see_new<'a, F: Files<File = File>>(files: &F, path: &'a str) -> Result<(), Fault<'a>>
    ensures { IfErr result (λ fault. fault ≢ ProgramFault.Output) }
{
    match is_nothing_at(files, path) {
        Ok(true) => Ok(()),
        Ok(false) => Err(Fault::File(path)),
        Err(error) => Err(Fault::unless_memory(&error, Fault::File(path))),
    }
}

// Whether a file that begins so holds what may not be lost.
fn is_precious(bytes: &[u8]) -> bool
    ensures { result ≡ is_precious bytes.now }
{
    bytes.len() == PRIVATE_SEED_LEN
        || (bytes.len() == PUBLIC_KEY_LEN && bytes.starts_with(b"\0\0\0\x06\0\0\0\x04"))
        || bytes.starts_with(b"HSJ1")
        || bytes.starts_with(b"HSL1")
        || bytes.starts_with(b"HSX1")
        || bytes.starts_with(b"HSX2")
}
