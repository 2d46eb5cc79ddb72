//! The slots of a committee beside those of another.

ghost use Rattle.std.specs.Prelude.{◌≡◌, ◌<◌};
ghost use Rattle.std.specs.Str.{bytes_eq};
ghost use Rattle.blocks.specs.Committees.{n_of, key_at, keys_of};
ghost use Rattle.handover_renewals.specs.Renewing.{AllSlots, HasCount};
ghost use Rattle.handover_renewals.specs.Slots.{AreSlotsOf, is_kept};

use blocks::CommitteeView;

/// The slots of a committee that are new beside those of another: that have other keys.
#[derive(Clone, Copy, Debug, PartialEq, Eq)]
pub struct Slots {
    /// How many there are.
    pub count: u16,
    /// How much they weigh together.
    pub weight: u64,
}

// Whether key `k` of a slot is the same in both.
fn is_same_key(old: &CommitteeView, new: &CommitteeView, s: u16, k: u8) -> bool
    requires old_slot { s < n_of old.now }
    requires new_slot { s < n_of new.now }
    requires old_key { k < keys_of old.now s }
    requires new_key { k < keys_of new.now s }
    ensures { result ≡ bytes_eq (key_at old.now s k) (key_at new.now s k) }
{
    old.key(s, k).to_bytes() == new.key(s, k).to_bytes()
}

/// Whether slot `s`, which both committees must have, with as many keys in both, has the same keys in both.
#[tactic(auto, using(crate::proofs::SlotLaws::same_none, crate::proofs::SlotLaws::same_more, crate::proofs::SlotLaws::same_less))]
pub fn is_kept(old: &CommitteeView, new: &CommitteeView, s: u16) -> bool
    requires old_has { s < n_of old.now }
    requires new_has { s < n_of new.now }
    requires count { HasCount old.now new.now s }
    ensures { result ≡ is_kept old.now new.now s }
{
    for k in 0..old.keys(s) {
        if !is_same_key(old, new, s, k) {
            return false;
        }
    }
    true
}

// The slots that are not kept.
pub(crate) fn slots_of(old: &CommitteeView, new: &CommitteeView) -> Slots
    requires size { n_of new.now ≡ n_of old.now }
    requires counts { AllSlots old.now (HasCount old.now new.now) }
    ensures { AreSlotsOf old.now new.now result }
{
    let mut slots = Slots {
        count: 0,
        weight: 0,
    };
    for s in 0..old.n() {
        if !is_kept(old, new, s) {
            slots.count += 1;
            slots.weight += u64::from(old.weight(s));
        }
    }
    slots
}
