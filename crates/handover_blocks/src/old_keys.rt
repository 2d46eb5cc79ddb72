//! Keys of the new committee that are keys of the old one.

ghost use Rattle.std.specs.Prelude.{◌≡◌, ◌<◌, ◌↔◌, IfSome, IsTrue, MatchOption};
ghost use Rattle.base_wire.specs.declared.limits.TheConstants.{MOST_KEYS};
ghost use Rattle.blocks.specs.CommitteeReading.{key_number};
ghost use Rattle.blocks.specs.Committees.{has_many_keys, keys_of, n_of};
ghost use Rattle.handover_blocks.specs.OldKeys.{AreNewKeys, HaveNoCommonKey, IsFirstOldKey, IsFirstOldKeyOf, IsKeyOf, IsKeyOfReplica};

use base_wire::MOST_KEYS;
use blocks::CommitteeView;
use lms_tree::PublicKey;

// Whether replica `r` has this key.
fn has_key(committee: &CommitteeView, r: u16, key: &PublicKey) -> bool
    requires { r < n_of committee.now }
    ensures { IsTrue result ↔ IsKeyOfReplica committee.now r key.now }
{
    for k in 0..committee.keys(r) {
        if committee.key(r, k) == *key {
            return true;
        }
    }
    false
}

// Whether some replica has it.
fn is_key_of(committee: &CommitteeView, key: &PublicKey) -> bool
    ensures { IsTrue result ↔ IsKeyOf committee.now key.now }
{
    for r in 0..committee.n() {
        if has_key(committee, r, key) {
            return true;
        }
    }
    false
}

// The first key of replica `r` of the new committee that is one of the old.
fn first_old_key_of(old: &CommitteeView, new: &CommitteeView, r: u16) -> Option<u8>
    requires { r < n_of new.now }
    ensures first { MatchOption result (AreNewKeys old.now new.now r (keys_of new.now r))
        (IsFirstOldKeyOf old.now new.now r) }
    ensures few { IfSome result (λ k. k < MOST_KEYS) }
{
    for k in 0..new.keys(r) {
        if is_key_of(old, &new.key(r, k)) {
            return Some(k);
        }
    }
    None
}

// Whether the format has room for several keys of a replica.
fn has_many_keys(bytes: &[u8]) -> bool
    ensures { result ≡ has_many_keys bytes.now }
{
    bytes.starts_with(b"HSC3")
}

// The number of key `k` of replica `r` among all keys, as docs/REFUSALS.md counts them.
fn key_number(committee: &CommitteeView, r: u16, k: u8) -> u16
    requires known { r < n_of committee.now }
    requires has { k < MOST_KEYS }
    ensures { result ≡ key_number committee.now r k }
{
    let _few = committee.n();
    let room = if has_many_keys(committee.bytes()) {
        u16::from(MOST_KEYS)
    } else {
        1
    };
    room * r + u16::from(k)
}

/// The number of the first key of the new committee that is a key of the old one.
pub fn first_old_key(old: &CommitteeView, new: &CommitteeView) -> Option<u16>
    ensures { MatchOption result (HaveNoCommonKey old.now new.now)
        (IsFirstOldKey old.now new.now) }
{
    for r in 0..new.n() {
        if let Some(k) = first_old_key_of(old, new, r) {
            return Some(key_number(new, r, k));
        }
    }
    None
}
