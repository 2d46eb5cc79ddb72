//! The names of the files, and the bytes of the first.

ghost use Rattle.std.specs.Prelude.{◌≡◌, IfOk};
ghost use Rattle.replica_files.specs.PutBackFiles.{put_back_text};

use base_wire::append;
use blocks::Header;
use certificates::Certificate;
use std::alloc::{AllocError, Global};

/// The name of the file that says that the log of a replica's folder was put back to a backup.
pub const PUT_BACK: &str = "put-back";

/// The name of the one that says that a disk failed under the desk of a replica's folder: an operator removes it.
pub const DISK_FAILED: &str = "disk-failed";

/// What is written down where the block of this header came with this certificate, which has a vote that the log, of so many
/// entries, lacks: docs/FORMATS.md lays it out. `AllocError` where memory was refused.
pub fn put_back_text(
    alloc: Global,
    entries: u32,
    header: &Header,
    certificate: &Certificate,
) -> Result<Vec<u8>, AllocError>
    ensures { IfOk result (λ text. text.items
        ≡ put_back_text entries header.now certificate.now) }
{
    let mut text = Vec::new(alloc);
    append(&mut text, b"HSP1")?;
    append(&mut text, &entries.to_be_bytes())?;
    append(&mut text, &header.to_bytes())?;
    append(&mut text, &certificate.write(alloc)?)?;
    Ok(text)
}
