//! Keys of the next committee that a committee before it has.

ghost use Rattle.std.specs.Prelude.{◌≡◌, ◌<◌, ◌↔◌, ◌∷◌, [], IfSome, IsTrue, MatchOption};
ghost use Rattle.base_wire.specs.declared.limits.TheConstants.{MOST_KEYS};
ghost use Rattle.blocks.specs.CommitteeReading.{key_number};
ghost use Rattle.blocks.specs.Committees.{has_many_keys, keys_of, n_of};
ghost use Rattle.handover_blocks.specs.OldKeys.{AreNewKeys, IsFirstOldKeyOf, IsKeyOf, IsKeyOfReplica};
ghost use Rattle.handover_steps.specs.Least.{IsLeast, lesser};
ghost use Rattle.handover_steps.specs.Successors.{IsChangedByAQuorum, IsExempt, IsTakenNumber, files_of};

use crate::file_slots::{is_changed_by_a_quorum, is_kept};
use base_wire::MOST_KEYS;
use blocks::CommitteeView;
use lms_tree::PublicKey;

// Whether replica `r` has this key.
fn has_key(committee: &CommitteeView, r: u16, key: &PublicKey) -> bool
    requires { r < n_of committee.now }
    ensures { IsTrue result ↔ IsKeyOfReplica committee.now r key.now }
{
    for k in 0..committee.keys(r) {
        if committee.key(r, k) == *key {
            return true;
        }
    }
    false
}

// Whether some replica has it.
fn is_key_of(committee: &CommitteeView, key: &PublicKey) -> bool
    ensures { IsTrue result ↔ IsKeyOf committee.now key.now }
{
    for r in 0..committee.n() {
        if has_key(committee, r, key) {
            return true;
        }
    }
    false
}

// The first key of a slot of the new committee that a committee before it has.
fn first_of_slot(before: &CommitteeView, new: &CommitteeView, slot: u16) -> Option<u8>
    requires { slot < n_of new.now }
    ensures first { MatchOption result (AreNewKeys before.now new.now slot (keys_of new.now slot))
        (IsFirstOldKeyOf before.now new.now slot) }
    ensures few { IfSome result (λ k. k < MOST_KEYS) }
{
    for k in 0..new.keys(slot) {
        if is_key_of(before, &new.key(slot, k)) {
            return Some(k);
        }
    }
    None
}

// Whether the format has room for several keys of a replica.
fn has_many_keys(bytes: &[u8]) -> bool
    ensures { result ≡ has_many_keys bytes.now }
{
    bytes.starts_with(b"HSC3")
}

// The number of key `k` of a slot among all keys, as docs/REFUSALS.md counts them.
fn key_number(committee: &CommitteeView, slot: u16, k: u8) -> u16
    requires known { slot < n_of committee.now }
    requires has { k < MOST_KEYS }
    ensures { result ≡ key_number committee.now slot k }
{
    let _few = committee.n();
    let room = if has_many_keys(committee.bytes()) {
        u16::from(MOST_KEYS)
    } else {
        1
    };
    room * slot + u16::from(k)
}

// Whether the slot is exempt; `spares` says whether kept slots are.
fn is_exempt(old: &CommitteeView, new: &CommitteeView, spares: bool, slot: u16) -> bool
    requires { IsTrue spares ↔ IsChangedByAQuorum old.now new.now }
    ensures { IsTrue result ↔ IsExempt old.now new.now slot }
{
    spares && is_kept(old, new, slot)
}

// The least number of a key that a committee before has, but for slots that are exempt.
fn least_of(
    before: &CommitteeView,
    old: &CommitteeView,
    new: &CommitteeView,
    spares: bool,
) -> Option<u16>
    requires { IsTrue spares ↔ IsChangedByAQuorum old.now new.now }
    ensures { IsLeast (IsTakenNumber (before.now ∷ []) old.now new.now) result }
{
    let _is_committee = before.bytes();
    for slot in 0..new.n() {
        if is_exempt(old, new, spares, slot) {
            continue;
        }
        if let Some(k) = first_of_slot(before, new, slot) {
            return Some(key_number(new, slot, k));
        }
    }
    None
}

// The same of the committee of a file, if it is one's.
fn least_of_file(file: &[u8], old: &CommitteeView, new: &CommitteeView, spares: bool) -> Option<u16>
    requires { IsTrue spares ↔ IsChangedByAQuorum old.now new.now }
    ensures { IsLeast (IsTakenNumber (file.now ∷ []) old.now new.now) result }
{
    match CommitteeView::parse(file) {
        Ok(before) => least_of(&before, old, new, spares),
        Err(_) => None,
    }
}

// The lesser of two numbers, where there are two, else the one that there is.
fn lesser(a: Option<u16>, b: Option<u16>) -> Option<u16>
    ensures { result ≡ lesser a b }
{
    match (a, b) {
        (Some(x), Some(y)) => Some(x.min(y)),
        (Some(x), None) => Some(x),
        (None, y) => y,
    }
}

/// The least number of a key of the new committee that the old one has or one of the earlier ones, whose files these are, but
/// for slots that are exempt.
pub(crate) fn least_taken(
    earlier: &[Vec<u8>],
    old: &CommitteeView,
    new: &CommitteeView,
) -> Option<u16>
    ensures { IsLeast (IsTakenNumber (old.now ∷ files_of earlier.now) old.now new.now) result }
{
    let spares = is_changed_by_a_quorum(old, new);
    let first = old.again();
    let mut least = least_of(&first, old, new, spares);
    for file in earlier {
        least = lesser(least, least_of_file(file, old, new, spares));
    }
    least
}
