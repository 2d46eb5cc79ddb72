//! The payloads of a journal's bytes, read in place.

ghost use Rattle.std.specs.Prelude.{◌≡◌, ◌≢◌, ◌↔◌, ◌<◌, ◌≤◌, ℕ, List, [], true, IfOk, IsTrue, MatchOption, length, slice_index_or, take};
ghost use Rattle.base_wire.specs.Payloads.{IsPayload};
ghost use Rattle.base_wire.specs.declared.limits.TheConstants.{MOST_ENTRIES};
ghost use Rattle.log_format.specs.Fronts.{IsFrame};
ghost use Rattle.stable_log.specs.Image.{StandsFor, magic};
ghost use Rattle.log_export.specs.Splits.{AreIndices, AreJournalPayloads, IsAtGate, IsFrontOf};

use base_wire::{LONGEST_PAYLOAD, MOST_ENTRIES, u32_at};
use std::alloc::{AllocError, Global};
use std::marker::Model;

// What stands in front of the first gate.
const MAGIC: &[u8; 8] = b"HSJ1\0\0\0\0";

// What stands in front of each payload: a gate, and the payload's length.
const ENTRY_HEAD: usize = 5;

/// How many bytes a journal has at most, up to the gate behind its last payload.
pub const MOST_OF_A_JOURNAL: u64 = 268_455_945;

const _: () = prove!(
    MOST_OF_A_JOURNAL == (8 + MOST_ENTRIES * (ENTRY_HEAD + LONGEST_PAYLOAD) + 1) as u64
);

/// The payloads of a journal, each a part of its bytes, and whether the journal ends behind them.
#[derive(Drop)]
pub struct JournalFront<'a> {
    payloads: Vec<&'a [u8]>,
    is_whole: bool,
}

impl<'a> Model for JournalFront<'a> {
    ghost use Rattle.std.specs.Prelude.{map};
    ghost use Rattle.log_export.specs.Splits.{AreJournalPayloads, JournalReading};

    ghost Value = { JournalReading };

    ghost view = { λ f. record {
      payloads = map (λ p. p.now) f.payloads.items;
      whole = f.is_whole;
    } };

    ghost invariant = { λ f. AreJournalPayloads (map (λ p. p.now) f.payloads.items) };
}

impl<'a> JournalFront<'a> {
    /// How many payloads there are, at most 4,096.
    pub fn count(&self) -> usize
        ensures value { result ≡ length self.now.payloads }
        ensures sound { AreJournalPayloads self.now.payloads }
    {
        self.payloads.len()
    }

    /// Payload `k`, counted from 0, which must be below `count`.
    pub fn payload(&self, k: usize) -> &'a [u8]
        requires { k < length self.now.payloads }
        ensures value { result.now ≡ slice_index_or self.now.payloads k [] }
        ensures size { IsPayload result.now }
    {
        // For the proof: a journal may have these payloads.
        let _count = self.count();
        self.payloads[k]
    }

    /// Whether these are the indices of one-time keys that were taken: there is a payload, and each has four bytes.
    pub fn are_indices(&self) -> bool
        ensures { IsTrue result ↔ AreIndices self.now.payloads }
    {
        for k in 0..self.count() {
            if self.payload(k).len() != 4 {
                return false;
            }
        }
        self.count() > 0
    }

    /// Whether the journal ends behind them. Else it is damaged there.
    pub fn is_whole(&self) -> bool
        ensures { result ≡ self.now.whole }
    {
        self.is_whole
    }
}

// What stands at a gate.
enum Gate<'a> {
    // The gate is not open: the journal ends.
    Closed,
    // A payload, and what stands behind it.
    Entry(&'a [u8], &'a [u8]),
    // Neither.
    Damaged,
}

// The payload behind its length, and what stands behind it.
fn payload_of<'a>(text: &'a [u8]) -> Option<(&'a [u8], &'a [u8])>
    ensures { MatchOption result ((payload behind : List ℕ) → IsFrame text.now payload behind → ⊥)
        (λ found. IsFrame text.now found.0.now found.1.now) }
{
    if text.len() < 4 {
        return None;
    }
    let len = u32_at(text, 0) as usize;
    if len == 0 || len > LONGEST_PAYLOAD {
        return None;
    }
    if text.len() - 4 < len {
        return None;
    }
    Some((&text[4..4 + len], &text[4 + len..]))
}

// What stands at a gate, behind `count` payloads.
fn gate_of<'a>(rest: &'a [u8], count: usize) -> Gate<'a>
    requires { count ≤ MOST_ENTRIES }
    ensures { IsAtGate count rest.now result }
{
    if rest.is_empty() {
        return Gate::Damaged;
    }
    if rest[0] != 1 {
        return Gate::Closed;
    }
    if count == MOST_ENTRIES {
        return Gate::Damaged;
    }
    match payload_of(&rest[1..]) {
        Some((payload, behind)) => Gate::Entry(payload, behind),
        None => Gate::Damaged,
    }
}

/// The payloads of a journal's bytes, up to its end or to the first damage; None where they don't begin as a journal does.
/// Bytes that follow a gate that is not open do not count. No payload is copied or judged. Memory is refused where the list
/// could not grow.
pub fn read_front<'a>(
    alloc: Global,
    bytes: &'a [u8],
) -> Result<Option<JournalFront<'a>>, AllocError>
    ensures front { IfOk result (λ found. MatchOption found (take 8 bytes.now ≢ magic)
        (IsFrontOf bytes.now)) }
    ensures stands { IfOk result (λ found. MatchOption found (take 8 bytes.now ≢ magic)
        (λ f. f.whole ≡ true → StandsFor bytes.now f.payloads)) }
{
    if !bytes.starts_with(MAGIC) {
        return Ok(None);
    }
    let mut payloads = Vec::new(alloc);
    let mut rest = &bytes[8..];
    loop {
        match gate_of(rest, payloads.len()) {
            Gate::Closed => {
                return Ok(Some(JournalFront {
                    payloads,
                    is_whole: true,
                }));
            }
            Gate::Entry(payload, behind) => {
                payloads.push(payload)?;
                rest = behind;
            }
            Gate::Damaged => {
                return Ok(Some(JournalFront {
                    payloads,
                    is_whole: false,
                }));
            }
        }
    }
}
