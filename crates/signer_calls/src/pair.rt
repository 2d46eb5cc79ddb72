//! A body that spells a renewal and a file.

ghost use Rattle.std.specs.Prelude.{◌≡◌, ◌≤◌, IfOk, MatchOption, drop, length, slice_range};
ghost use Rattle.signer_calls.specs.Pairs.{SpellsNoPair, SpellsPair};

use crate::call::Renewing;
use base_wire::u32_at;
use bytes::Bytes;
use std::alloc::AllocError;

/// Where the renewal of a body begins: the four bytes before it are its length.
const RENEWAL_AT: usize = 4;

// The renewal and the file that a body spells.
pub(crate) fn pair_in(body: &Bytes) -> Result<Option<Renewing>, AllocError>
    ensures { IfOk result (λ pair. MatchOption pair (SpellsNoPair body.now) (λ pair.
        SpellsPair body.now pair.renewal pair.file)) }
{
    let Some(at) = file_in(body.as_slice()) else {
        return Ok(None);
    };
    let renewal = body.slice(RENEWAL_AT..at)?;
    let file = body.slice(at..)?;
    Ok(Some(Renewing { renewal, file }))
}

// Where the file of a body begins: behind the renewal.
fn file_in(body: &[u8]) -> Option<usize>
    ensures { MatchOption result (SpellsNoPair body.now) (λ at. (4 ≤ at) × (at ≤ length body.now)
        × SpellsPair body.now (slice_range body.now 4 at) (drop at body.now)) }
{
    if body.len() < RENEWAL_AT {
        return None;
    }
    let length = u32_at(body, 0) as usize;
    if body.len() - RENEWAL_AT < length {
        return None;
    }
    Some(RENEWAL_AT + length)
}
