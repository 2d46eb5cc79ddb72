//! The statement of the next keys of a slot.

ghost use Rattle.std.specs.Prelude.{◌≡◌, ◌≤◌, ◌<◌, ◌++◌, ◌∷◌, [], ℕ, codes, length, take};
ghost use Rattle.byteorder.specs.Endian.{big_bytes};
ghost use Rattle.blocks.specs.Committees.{n_of};
ghost use Rattle.handover_keys.specs.NextKeys.{next_keys_text};
ghost use Rattle.handover_renewals.specs.Slots.{slot_statement};

use base_wire::{MOST_KEYS, put};
use blocks::{CommitteeView, Id};
use handover_keys::NEXT_KEYS_HEAD_LEN;
use lms_tree::PUBLIC_KEY_LEN;
use std::marker::Model;

// The length of the longest statement of next keys, in bytes.
const LONGEST_STATEMENT: usize = NEXT_KEYS_HEAD_LEN + MOST_KEYS as usize * PUBLIC_KEY_LEN;

// A statement of next keys that stands in no memory of its own. Contracts see its bytes.
#[derive(Drop)]
pub(crate) struct SlotStatement {
    bytes: [u8; LONGEST_STATEMENT],
    len: usize,
}

impl Model for SlotStatement {
    ghost use Rattle.std.specs.Prelude.{◌≤◌, ℕ, List, take};

    ghost Value = { List ℕ };

    ghost view = { λ s. take s.len s.bytes };

    ghost invariant = { λ s. s.len ≤ 263 };
}

// Writes what stands before the keys.
fn put_head(bytes: &mut [u8], chain: &Id, s: u16, count: u8)
    requires { 39 ≤ length bytes.old }
    ensures { take 39 bytes.new
        ≡ codes "HSE1" ++ (chain.now ++ (big_bytes 2 s ++ count ∷ [])) }
{
    put(bytes, 0, b"HSE1");
    put(bytes, 4, chain);
    put(bytes, 36, &s.to_be_bytes());
    put(bytes, 38, &[count]);
}

impl SlotStatement {
    // The statement that the next keys of slot `s`, behind the committee of this chain, are those that it has in this committee.
    pub(crate) fn of(chain: &Id, committee: &CommitteeView, s: u16) -> SlotStatement
        requires { s < n_of committee.now }
        ensures { result ≡ next_keys_text (slot_statement chain.now committee.now s) }
    {
        let count = committee.keys(s);
        let mut bytes = [0; LONGEST_STATEMENT];
        put_head(&mut bytes, chain, s, count);
        for k in 0..count {
            let at = NEXT_KEYS_HEAD_LEN + PUBLIC_KEY_LEN * k as usize;
            put(&mut bytes, at, &committee.key(s, k).to_bytes());
        }
        let len = NEXT_KEYS_HEAD_LEN + PUBLIC_KEY_LEN * count as usize;
        SlotStatement { bytes, len }
    }

    pub(crate) fn as_bytes(&self) -> &[u8]
        ensures { result.now ≡ self.now }
    {
        &self.bytes[..self.len]
    }
}
