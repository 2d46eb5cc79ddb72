//! Key ids as digits, added to a text.

ghost use Rattle.std.specs.Prelude.{◌≡◌, ◌++◌, OnOk};
ghost use Rattle.hex.specs.Hex.{encode_lower};

use base_wire::append;
use std::alloc::AllocError;

/// Adds the hex digits of a key's id.
pub(crate) fn put_key_id(text: &mut Vec<u8>, id: &[u8; 16]) -> Result<(), AllocError>
    ensures { OnOk result (text.new.items ≡ text.old.items ++ encode_lower id.now) }
{
    let mut digits = [0; 32];
    let _ = hex::encode_to_slice(&id[..], &mut digits);
    append(text, &digits)
}
