//! Up to which view blocks are certified in a log.

ghost use Rattle.std.specs.Prelude.{◌≡◌, ◌↔◌, drop, IfOk, IsTrue};
ghost use Rattle.certificates.specs.BlockChecks.{IsChecked};
ghost use Rattle.signer_answers.specs.Greatest.{FrameCertifies, IsCovered, IsGreatest, IsIn};

use blocks::CommitteeView;
use certificates::{Certificate, LmsVerifier, check_block};
use log_format::{Entry, EntryRefusal, Frames};
use std::alloc::{AllocError, Global};

// The same certificate once more.
fn copy_of(alloc: Global, certificate: &Certificate) -> Result<Certificate, AllocError>
    ensures { IfOk result (λ copy. copy ≡ certificate.now) }
{
    let text = certificate.write(alloc)?;
    match Certificate::read(alloc, &text) {
        Ok(copy) => Ok(copy),
        Err(_) => Err(AllocError),
    }
}

// Whether the entry's block would be taken with its certificate.
fn is_checked(alloc: Global, committee: &CommitteeView, entry: &Entry) -> Result<bool, AllocError>
    ensures { IfOk result (λ yes.
        IsTrue yes ↔ IsChecked committee.now entry.now.block entry.now.certificate) }
{
    let copy = copy_of(alloc, entry.certificate())?;
    let header = *entry.block();
    Ok(check_block(committee, &LmsVerifier, header, copy).is_ok())
}

// Whether a view is at most this one.
fn is_covered(greatest: Option<u64>, view: u64) -> bool
    ensures { IsTrue result ↔ IsCovered greatest view }
{
    match greatest {
        Some(greatest) => view <= greatest,
        None => false,
    }
}

// With what one frame certifies. Its certificate is checked only where its view is greater.
fn with_frame(
    alloc: Global,
    committee: &CommitteeView,
    frame: &[u8],
    greatest: Option<u64>,
) -> Result<Option<u64>, AllocError>
    ensures { IfOk result (IsGreatest (FrameCertifies committee.now frame.now) greatest) }
{
    let entry = match Entry::read(alloc, frame) {
        Ok(entry) => entry,
        Err(EntryRefusal::Memory) => return Err(AllocError),
        Err(_) => return Ok(greatest),
    };
    let view = entry.certificate().view();
    if is_covered(greatest, view) || !is_checked(alloc, committee, &entry)? {
        return Ok(greatest);
    }
    Ok(Some(view))
}

/// The greatest of this view and of the views of blocks that entries of a log certify: of the frames from `from` on, counted
/// from 0, each that spells an entry whose certificate is good, under the committee and on the parent of the entry's block. A
/// header alone counts for nothing. It goes from the last frame to the first, so that of a log whose views rise one certificate
/// is checked. Memory is refused where an entry could not be read.
pub fn greatest_certified(
    alloc: Global,
    committee: &CommitteeView,
    frames: &Frames,
    from: usize,
    before: Option<u64>,
) -> Result<Option<u64>, AllocError>
    ensures { IfOk result
        (IsGreatest (IsIn (FrameCertifies committee.now) (drop from frames.now.frames)) before) }
{
    let mut greatest = before;
    let mut k = frames.len();
    while k > from {
        k -= 1;
        greatest = with_frame(alloc, committee, frames.payload(k), greatest)?;
    }
    Ok(greatest)
}
