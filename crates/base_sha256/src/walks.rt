//! Chains, eight at once. Their values stay in their lanes from step to step.

ghost use Rattle.std.specs.Prelude.{◌≡◌, ℕ, ◌+◌, ◌*◌, ◌<◌, ◌≤◌, ◌%◌, ◌^◌, ◌++◌, slice_index, slice_index_or, length, List, [], ◌∷◌};
ghost use Rattle.std.specs.Int.{byte_at};
ghost use Rattle.sha2.specs.Sha256.{add32, digest_bytes, padded_message, word_at};
ghost use Rattle.base_sha256.specs.Chains.{chain_step, chain_steps};
ghost use Rattle.base_sha256.specs.Lanes.{AreWordsOf, IsAfterFive, IsFront, IsRest, lane, straddling_word};

use crate::compression::{compress, five_rounds};
use crate::words::{add, first_byte, last_bytes};
use std::simd::u32x8;

/// The length of what a step hashes, in bits: a prefix, the number of the step, and a value.
const BITS: u32 = 8 * (22 + 1 + 32);

// ---- the words of prefixes and values

#[inline(always)]
fn word(bytes: &[u8], at: usize) -> u32
    requires { at + 4 ≤ length bytes.now }
    ensures { result ≡ word_at bytes.now at }
{
    u32::from_be_bytes([bytes[at], bytes[at + 1], bytes[at + 2], bytes[at + 3]])
}

#[inline(always)]
fn prefix_words(prefixes: &[[u8; 22]; 8], k: usize) -> u32x8
    requires { k < 5 }
    ensures { (l : ℕ) → l < 8
        → slice_index result l ≡ word_at (slice_index_or prefixes.now l []) (4 * k) }
{
    u32x8::from_array([
        word(&prefixes[0], 4 * k),
        word(&prefixes[1], 4 * k),
        word(&prefixes[2], 4 * k),
        word(&prefixes[3], 4 * k),
        word(&prefixes[4], 4 * k),
        word(&prefixes[5], 4 * k),
        word(&prefixes[6], 4 * k),
        word(&prefixes[7], 4 * k),
    ])
}

#[inline(always)]
fn prefix_rest(prefix: &[u8; 22]) -> u32
    ensures { IsRest result prefix.now }
{
    u32::from_be_bytes([prefix[20], prefix[21], 0, 0])
}

#[inline(always)]
fn prefix_rests(prefixes: &[[u8; 22]; 8]) -> u32x8
    ensures { (l : ℕ) → l < 8 → IsRest (slice_index result l) (slice_index_or prefixes.now l []) }
{
    u32x8::from_array([
        prefix_rest(&prefixes[0]),
        prefix_rest(&prefixes[1]),
        prefix_rest(&prefixes[2]),
        prefix_rest(&prefixes[3]),
        prefix_rest(&prefixes[4]),
        prefix_rest(&prefixes[5]),
        prefix_rest(&prefixes[6]),
        prefix_rest(&prefixes[7]),
    ])
}

// The first six words of all blocks of the chains, but for the last two bytes of the sixth.
#[inline(always)]
fn fronts(prefixes: &[[u8; 22]; 8]) -> [u32x8; 6]
    ensures { (l : ℕ) → l < 8 → IsFront (lane l result) (slice_index_or prefixes.now l []) }
{
    [
        prefix_words(prefixes, 0),
        prefix_words(prefixes, 1),
        prefix_words(prefixes, 2),
        prefix_words(prefixes, 3),
        prefix_words(prefixes, 4),
        prefix_rests(prefixes),
    ]
}

#[inline(always)]
fn value_words(values: &[[u8; 32]; 8], k: usize) -> u32x8
    requires { k < 8 }
    ensures { (l : ℕ) → l < 8
        → slice_index result l ≡ word_at (slice_index_or values.now l []) (4 * k) }
{
    u32x8::from_array([
        word(&values[0], 4 * k),
        word(&values[1], 4 * k),
        word(&values[2], 4 * k),
        word(&values[3], 4 * k),
        word(&values[4], 4 * k),
        word(&values[5], 4 * k),
        word(&values[6], 4 * k),
        word(&values[7], 4 * k),
    ])
}

fn are_bytes(bytes: &[u8])
    ensures { (i : ℕ) → slice_index bytes.now i < 256 }
{
    // For the proof: each item of a text is a byte.
    let _length = bytes.len();
}

fn is_value(value: &[u8; 32])
    ensures long { length value.now ≡ 32 }
    ensures bytes { (i : ℕ) → slice_index value.now i < 256 }
{
    are_bytes(value);
}

fn are_values(values: &[[u8; 32]; 8])
    ensures long { (l : ℕ) → l < 8 → length (slice_index_or values.now l []) ≡ 32 }
    ensures bytes { (l : ℕ) → l < 8 → (i : ℕ) → slice_index (slice_index_or values.now l []) i
        < 256 }
{
    is_value(&values[0]);
    is_value(&values[1]);
    is_value(&values[2]);
    is_value(&values[3]);
    is_value(&values[4]);
    is_value(&values[5]);
    is_value(&values[6]);
    is_value(&values[7]);
}

// The values, each in its lane.
#[inline(always)]
fn load(values: &[[u8; 32]; 8]) -> [u32x8; 8]
    ensures { (l : ℕ) → l < 8 → digest_bytes (lane l result) 8 ≡ slice_index_or values.now l [] }
{
    are_values(values);
    [
        value_words(values, 0),
        value_words(values, 1),
        value_words(values, 2),
        value_words(values, 3),
        value_words(values, 4),
        value_words(values, 5),
        value_words(values, 6),
        value_words(values, 7),
    ]
}

// The value in one lane.
#[inline(always)]
fn store(v: &[u32x8; 8], l: usize) -> [u8; 32]
    requires { l < 8 }
    ensures { result ≡ digest_bytes (lane l v.now) 8 }
{
    let mut value = [0; 32];
    'words: for k in 0..8 {
        let lanes = v[k].to_array();
        value[4 * k..4 * k + 4].copy_from_slice(&lanes[l].to_be_bytes());
    }
    value
}

// ---- one step

// A value stands behind 23 bytes, so each of its words lies in two words of the block.
#[inline(always)]
fn straddling(high: u32x8, low: u32x8) -> u32x8
    ensures { (l : ℕ) → l < 8
        → slice_index result l ≡ straddling_word (slice_index high l) (slice_index low l) }
{
    add(last_bytes(high), first_byte(low))
}

#[inline(always)]
fn behind_prefix(rest: u32x8, j: u32x8, value: u32x8) -> u32x8
    ensures { (l : ℕ) → l < 8
        → slice_index result l ≡ add32 (add32 (slice_index rest l) (slice_index j l * 256 % 2 ^ 32))
        (byte_at 3 (slice_index value l)) }
{
    add(add(rest, last_bytes(j)), first_byte(value))
}

#[inline(always)]
fn before_padding(value: u32x8) -> u32x8
    ensures { (l : ℕ) → l < 8
        → slice_index result l ≡ add32 (slice_index value l * 256 % 2 ^ 32) 0x80 }
{
    add(last_bytes(value), u32x8::splat(0x80))
}

// What step `j` of each chain hashes, with its padding.
#[inline(always)]
fn block(front: &[u32x8; 6], j: u32x8, v: &[u32x8; 8]) -> [u32x8; 16]
    ensures { (l : ℕ) → l < 8 → (prefix : List ℕ) → IsFront (lane l front.now) prefix
        → slice_index j l < 256 → AreWordsOf (lane l result)
        (padded_message (prefix ++ slice_index j l ∷ [] ++ digest_bytes (lane l v.now) 8)) }
{
    [
        front[0],
        front[1],
        front[2],
        front[3],
        front[4],
        behind_prefix(front[5], j, v[0]),
        straddling(v[0], v[1]),
        straddling(v[1], v[2]),
        straddling(v[2], v[3]),
        straddling(v[3], v[4]),
        straddling(v[4], v[5]),
        straddling(v[5], v[6]),
        straddling(v[6], v[7]),
        before_padding(v[7]),
        u32x8::splat(0),
        u32x8::splat(BITS),
    ]
}

#[inline(always)]
fn step(front: &[u32x8; 6], after_five: &[u32x8; 8], j: u32x8, v: &[u32x8; 8]) -> [u32x8; 8]
    ensures { (l : ℕ) → l < 8 → (prefix : List ℕ) → IsFront (lane l front.now) prefix
        → IsAfterFive (lane l after_five.now) (lane l front.now) → slice_index j l < 256
        → digest_bytes (lane l result) 8
        ≡ chain_step prefix (slice_index j l) (digest_bytes (lane l v.now) 8) }
{
    let block = block(front, j, v);
    compress(&block, after_five)
}

// ---- walks

fn in_lanes(numbers: &[u8; 8]) -> u32x8
    ensures { (l : ℕ) → l < 8 → slice_index result l ≡ slice_index numbers.now l }
{
    let [a, b, c, d, e, f, g, h] = *numbers;
    u32x8::from_array([
        u32::from(a),
        u32::from(b),
        u32::from(c),
        u32::from(d),
        u32::from(e),
        u32::from(f),
        u32::from(g),
        u32::from(h),
    ])
}

/// Walks eight chains by `count` steps each: chain `l` from the value `starts[l]`, by the steps `from[l]` to
/// `from[l] + count - 1`, which must be at most 255. A step hashes 55 bytes: the chain's prefix, the number of the step in
/// one byte, and the value (RFC 8554, section 4.3). Takes no memory.
pub fn walk_eight(
    prefixes: &[[u8; 22]; 8],
    from: &[u8; 8],
    count: u8,
    starts: &[[u8; 32]; 8],
) -> [[u8; 32]; 8]
    requires { (l : ℕ) → l < 8 → slice_index from.now l + count ≤ 256 }
    ensures { (l : ℕ) → l < 8
        → slice_index_or result l [] ≡ chain_steps (slice_index_or prefixes.now l [])
        (slice_index from.now l) (slice_index from.now l + count) (slice_index_or starts.now l []) }
{
    let front = fronts(prefixes);
    let after_five = five_rounds(&front);
    let first = in_lanes(from);
    let mut v = load(starts);
    'steps: for t in 0..count {
        let j = add(first, u32x8::splat(u32::from(t)));
        let next = step(&front, &after_five, j, &v);
        v = next;
    }
    [
        store(&v, 0),
        store(&v, 1),
        store(&v, 2),
        store(&v, 3),
        store(&v, 4),
        store(&v, 5),
        store(&v, 6),
        store(&v, 7),
    ]
}
