//! Ids as hex digits.

ghost use Rattle.std.specs.Prelude.{◌≡◌, IfOk, string_bytes};
ghost use Rattle.audit_picture.specs.Digits.{short_id, whole_id};

use blocks::Id;
use std::alloc::{AllocError, Global};

/// All 64 digits.
pub(crate) fn full(alloc: Global, id: &Id) -> Result<String, AllocError>
    ensures { IfOk result (λ digits. string_bytes digits ≡ whole_id id.now) }
{
    hex::encode(alloc, &id[..])
}

/// The first 8 digits.
pub(crate) fn short(alloc: Global, id: &Id) -> Result<String, AllocError>
    ensures { IfOk result (λ digits. string_bytes digits ≡ short_id id.now) }
{
    hex::encode(alloc, &id[..4])
}
