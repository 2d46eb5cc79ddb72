//! Numbers and ids as digits.

ghost use Rattle.std.specs.Prelude.{◌≡◌, ◌<◌, ◌^◌, ◌++◌, ℕ, IfNone, IfSome, OnErr, OnOk, decimal};
ghost use Rattle.hex.specs.Hex.{encode_lower};
ghost use Rattle.base_text.specs.Printed.{spoken};

use base_wire::{append, array_at};
use blocks::Id;
use itoa::{Buffer, Integer};
use std::alloc::AllocError;
use std::str::from_utf8;

/// Adds a number in decimal. Where memory is refused the text is as it was.
pub fn put_number<I: Integer>(text: &mut Vec<u8>, number: I) -> Result<(), AllocError>
    ensures ok { OnOk result (text.new.items ≡ text.old.items ++ I.text number) }
    ensures err { OnErr result (text.new.items ≡ text.old.items) }
{
    append(text, Buffer::new().format(number).as_bytes())
}

/// Adds the 64 hex digits of an id, or of another 32 bytes. Where memory is refused the text is as it was.
pub fn put_id(text: &mut Vec<u8>, id: &Id) -> Result<(), AllocError>
    ensures ok { OnOk result (text.new.items ≡ text.old.items ++ encode_lower id.now) }
    ensures err { OnErr result (text.new.items ≡ text.old.items) }
{
    append(text, &id_digits(id))
}

/// Adds the digits of an id in sixteen groups of four, each behind a blank, to be read aloud. Where memory is refused a first part
/// was added.
#[tactic(auto, unfolding(crate::specs::Printed::spoken))]
pub fn put_spoken(text: &mut Vec<u8>, id: &Id) -> Result<(), AllocError>
    ensures { OnOk result (text.new.items ≡ text.old.items ++ spoken id.now 16) }
{
    for k in 0..id.len() / 2 {
        append(text, b" ")?;
        put_group(text, &array_at(&id[..], 2 * k))?;
    }
    Ok(())
}

fn put_group(text: &mut Vec<u8>, bytes: &[u8; 2]) -> Result<(), AllocError>
    ensures { OnOk result (text.new.items ≡ text.old.items ++ encode_lower bytes.now) }
{
    let mut digits = [0; 4];
    let _ = hex::encode_to_slice(&bytes[..], &mut digits);
    append(text, &digits)
}

/// The 64 hex digits of an id.
pub fn id_digits(id: &Id) -> [u8; 64]
    ensures { result ≡ encode_lower id.now }
{
    let mut digits = [0; 64];
    let _ = hex::encode_to_slice(&id[..], &mut digits);
    digits
}

/// The number of 64 bits that is printed so: digits alone, and no leading zero.
pub fn number_in(digits: &[u8]) -> Option<u64>
    ensures some { IfSome result (λ number. digits.now ≡ decimal number) }
    ensures none { IfNone result ((number : ℕ) → number < 2 ^ 64 → digits.now ≡ decimal number
        → ⊥) }
{
    let Ok(text) = from_utf8(digits) else {
        return None;
    };
    let Ok(number) = text.parse::<u64>() else {
        return None;
    };
    if Buffer::new().format(number) != text {
        return None;
    }
    Some(number)
}
