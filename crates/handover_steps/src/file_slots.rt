//! The slots of a committee that the next one keeps.

ghost use Rattle.std.specs.Prelude.{◌≡◌, ◌↔◌, IsFalse, IsTrue};
ghost use Rattle.handover_steps.specs.Successors.{IsChangedByAQuorum, IsChangedWeight, IsKept};

use blocks::CommitteeView;

/// Whether both committees have replica `slot`, with the same keys in the same order.
pub(crate) fn is_kept(old: &CommitteeView, new: &CommitteeView, slot: u16) -> bool
    ensures { IsTrue result ↔ IsKept old.now new.now slot }
{
    if slot >= old.n() || slot >= new.n() {
        return false;
    }
    if old.keys(slot) != new.keys(slot) {
        return false;
    }
    for k in 0..old.keys(slot) {
        if old.key(slot, k) != new.key(slot, k) {
            return false;
        }
    }
    true
}

// How much the slots of the old committee that are not kept weigh together.
fn changed_weight(old: &CommitteeView, new: &CommitteeView) -> u64
    ensures { IsChangedWeight old.now new.now result }
{
    old.weight_of(
        |slot| -> bool
            ensures { IsFalse result ↔ IsKept old.entry.now new.entry.now slot }
        { !is_kept(old, new, slot) },
    )
}

/// Whether they weigh a quorum of it.
pub(crate) fn is_changed_by_a_quorum(old: &CommitteeView, new: &CommitteeView) -> bool
    ensures { IsTrue result ↔ IsChangedByAQuorum old.now new.now }
{
    old.quorum() <= changed_weight(old, new)
}
