//! The functions of SHA-256 on words (FIPS 180-4, sections 3.2 and 4.1.2), in each of eight lanes.

ghost use Rattle.std.specs.Prelude.{◌≡◌, ℕ, ◌<◌, ◌/◌, ◌*◌, ◌%◌, ◌^◌, slice_index};
ghost use Rattle.std.specs.Int.{byte_at, rotate_right, w32};
ghost use Rattle.std.specs.Int.Bits.{bit_xor};
ghost use Rattle.sha2.specs.Sha256.{add32, big_sigma0, big_sigma1, ch, maj, small_sigma0, small_sigma1};

use std::simd::u32x8;

#[inline(always)]
pub(crate) fn add(x: u32x8, y: u32x8) -> u32x8
    ensures { (l : ℕ) → l < 8 → slice_index result l ≡ add32 (slice_index x l) (slice_index y l) }
{
    x + y
}

#[inline(always)]
fn xor(x: u32x8, y: u32x8) -> u32x8
    ensures { (l : ℕ) → l < 8 → slice_index result l ≡ bit_xor (slice_index x l) (slice_index y l) }
{
    x ^ y
}

#[inline(always)]
fn rotate(x: u32x8, n: u32) -> u32x8
    requires { (0 < n) × (n < 32) }
    ensures { (l : ℕ) → l < 8 → slice_index result l ≡ rotate_right w32 (slice_index x l) n }
{
    (x >> u32x8::splat(n)) | (x << u32x8::splat(32 - n))
}

#[inline(always)]
fn shift(x: u32x8, n: u32) -> u32x8
    requires { n < 32 }
    ensures { (l : ℕ) → l < 8 → slice_index result l ≡ slice_index x l / 2 ^ n }
{
    x >> u32x8::splat(n)
}

/// The last three bytes of each word, one place higher.
#[inline(always)]
pub(crate) fn last_bytes(x: u32x8) -> u32x8
    ensures { (l : ℕ) → l < 8 → slice_index result l ≡ slice_index x l * 256 % 2 ^ 32 }
{
    x << u32x8::splat(8)
}

/// The first byte of each word.
#[inline(always)]
pub(crate) fn first_byte(x: u32x8) -> u32x8
    ensures { (l : ℕ) → l < 8 → slice_index result l ≡ byte_at 3 (slice_index x l) }
{
    x >> u32x8::splat(24)
}

#[inline(always)]
pub(crate) fn ch(x: u32x8, y: u32x8, z: u32x8) -> u32x8
    ensures { (l : ℕ) → l < 8
        → slice_index result l ≡ ch (slice_index x l) (slice_index y l) (slice_index z l) }
{
    (x & y) ^ (!x & z)
}

// In one operation less than the standard has: `x ^ y` is also the `y ^ z` of the next round.
#[inline(always)]
pub(crate) fn maj(x: u32x8, y: u32x8, z: u32x8) -> u32x8
    ensures { (l : ℕ) → l < 8
        → slice_index result l ≡ maj (slice_index x l) (slice_index y l) (slice_index z l) }
{
    y ^ ((x ^ y) & (y ^ z))
}

// Rotations one inside the other, here and below: each overwrites what it rotates, which spares a processor without AVX copies.
#[inline(always)]
pub(crate) fn big_sigma0(x: u32x8) -> u32x8
    ensures { (l : ℕ) → l < 8 → slice_index result l ≡ big_sigma0 (slice_index x l) }
{
    xor(rotate(xor(x, rotate(x, 11)), 2), rotate(x, 22))
}

#[inline(always)]
pub(crate) fn big_sigma1(x: u32x8) -> u32x8
    ensures { (l : ℕ) → l < 8 → slice_index result l ≡ big_sigma1 (slice_index x l) }
{
    rotate(xor(x, rotate(xor(x, rotate(x, 14)), 5)), 6)
}

#[inline(always)]
pub(crate) fn small_sigma0(x: u32x8) -> u32x8
    ensures { (l : ℕ) → l < 8 → slice_index result l ≡ small_sigma0 (slice_index x l) }
{
    xor(xor(rotate(x, 7), rotate(x, 18)), shift(x, 3))
}

#[inline(always)]
pub(crate) fn small_sigma1(x: u32x8) -> u32x8
    ensures { (l : ℕ) → l < 8 → slice_index result l ≡ small_sigma1 (slice_index x l) }
{
    xor(xor(rotate(x, 17), rotate(x, 19)), shift(x, 10))
}
