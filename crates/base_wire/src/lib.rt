//! Fields at fixed places in a text of bytes, read and written in place, numbers with the highest byte first; how
//! long a log and its payloads may be; the numbers of a replica's keys; and in `specs/` the words for refusals in their
//! order. Needs no threads, files or network.
#![tactic(auto)]

mod key_number;
mod limits;

ghost use Rattle.std.specs.Prelude.{◌≡◌, ◌+◌, ◌≤◌, ◌++◌, length, take, drop, OnErr, OnOk};
ghost use Rattle.base_wire.specs.Pieces.{piece, number_at};

use byteorder::{BigEndian, ByteOrder};
pub use key_number::KeyNumber;
pub use limits::{LONGEST_PAYLOAD, MOST_ENTRIES, MOST_KEYS, limits_are_those_of_the_formats};
use std::alloc::AllocError;

/// The number in the two bytes from place `at` on, which must be there.
#[tactic(auto, unfolding(crate::specs::Pieces::number_at))]
pub fn u16_at(bytes: &[u8], at: usize) -> u16
    requires { at + 2 ≤ length bytes.now }
    ensures { result ≡ number_at 2 bytes.now at }
{
    BigEndian::read_u16(&bytes[at..at + 2])
}

/// The number in the four bytes from place `at` on, which must be there.
#[tactic(auto, unfolding(crate::specs::Pieces::number_at))]
pub fn u32_at(bytes: &[u8], at: usize) -> u32
    requires { at + 4 ≤ length bytes.now }
    ensures { result ≡ number_at 4 bytes.now at }
{
    BigEndian::read_u32(&bytes[at..at + 4])
}

/// The number in the eight bytes from place `at` on, which must be there.
#[tactic(auto, unfolding(crate::specs::Pieces::number_at))]
pub fn u64_at(bytes: &[u8], at: usize) -> u64
    requires { at + 8 ≤ length bytes.now }
    ensures { result ≡ number_at 8 bytes.now at }
{
    BigEndian::read_u64(&bytes[at..at + 8])
}

/// The `N` bytes from place `at` on, which must be there.
pub fn array_at<const N: usize>(bytes: &[u8], at: usize) -> [u8; N]
    requires { at + N ≤ length bytes.now }
    ensures { result ≡ piece N bytes.now at }
{
    let mut array = [0; N];
    array.copy_from_slice(&bytes[at..at + N]);
    array
}

/// Writes `piece` from place `at` on, where there must be room for it. The bytes before and behind it
/// stay.
pub fn put(bytes: &mut [u8], at: usize, piece: &[u8])
    requires { at + length piece.now ≤ length bytes.old }
    ensures written { take (at + length piece.now) bytes.new ≡ take at bytes.old ++ piece.now }
    ensures rest { drop (at + length piece.now) bytes.new ≡ drop (at + length piece.now) bytes.old }
{
    bytes[at..at + piece.len()].copy_from_slice(piece);
}

/// Adds a piece at the end of a text. Where memory is refused the text is as it was.
pub fn append(text: &mut Vec<u8>, piece: &[u8]) -> Result<(), AllocError>
    ensures ok { OnOk result (text.new.items ≡ text.old.items ++ piece.now) }
    ensures err { OnErr result (text.new.items ≡ text.old.items) }
{
    text.extend_from_slice(piece)?;
    Ok(())
}
