//! The first bytes of a file or a stream.

ghost use Rattle.std.specs.Prelude.{◌≡◌, ◌≤◌, IfOk, IfSome, length, take};

use crate::fault::InputFault;
use std::alloc::Global;
use std::fs::{File, Files};
use std::io::Read;

/// The first bytes of the file at `path`, `most` of them at most. What lies behind is not read.
pub fn read_file<F: Files<File = File>>(
    rt: &F,
    alloc: Global,
    path: &str,
    most: u64,
) -> Result<Vec<u8>, InputFault>
    ensures { IfOk result (λ bytes. length bytes.items ≤ most) }
{
    match File::open(rt, path) {
        Ok(file) => read_at_most(alloc, file, most),
        Err(error) => Err(InputFault::of(&error)),
    }
}

/// The first bytes of a stream, `most` of them at most: all of them where it has no more. What lies behind is not read.
pub fn read_at_most<R: Read + Drop>(
    alloc: Global,
    stream: R,
    most: u64,
) -> Result<Vec<u8>, InputFault>
    ensures first { IfOk result (λ bytes.
        IfSome (R.remaining stream) (λ rest. bytes.items ≡ take most rest)) }
    ensures few { IfOk result (λ bytes. length bytes.items ≤ most) }
{
    let mut bytes = Vec::new(alloc);
    match stream.take(most).read_to_end(&mut bytes) {
        Ok(_) => {
            // For the proof: no more came.
            bytes.truncate(most as usize);
            Ok(bytes)
        }
        Err(error) => Err(InputFault::of(&error)),
    }
}
