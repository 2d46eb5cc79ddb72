//! What each slot is.

ghost use Rattle.std.specs.Prelude.{◌≡◌, ◌<◌, ◌↔◌, IfOk, IsTrue};
ghost use Rattle.blocks.specs.Committees.{n_of};
ghost use Rattle.handover_steps.specs.Steps.{AreKinds, IsKindBy};
ghost use Rattle.handover_renewals.specs.SlotKinds.{IsKeptSlot};

use blocks::CommitteeView;
use handover_renewals::{Renewal, SlotKind, is_kept, slot_kind};
use std::alloc::{AllocError, Global};

// Whether the old committee has the slot too, with the same keys.
fn is_kept_slot(old: &CommitteeView, new: &CommitteeView, slot: u16) -> bool
    requires { slot < n_of new.now }
    ensures { IsTrue result ↔ IsKeptSlot old.now new.now slot }
{
    slot < old.n() && new.keys(slot) == old.keys(slot) && is_kept(old, new, slot)
}

// What the slot is by the renewal, if there is one.
fn kind_of(
    old: &CommitteeView,
    new: &CommitteeView,
    renewal: &Option<Renewal>,
    slot: u16,
) -> SlotKind
    requires { slot < n_of new.now }
    ensures { IsKindBy old.now new.now renewal.now slot result }
{
    match renewal {
        Some(renewal) => slot_kind(old, new, renewal, slot),
        None if is_kept_slot(old, new, slot) => SlotKind::Kept,
        None => SlotKind::ByHand,
    }
}

/// What each slot of the new committee is.
pub(crate) fn kinds_of(
    alloc: Global,
    old: &CommitteeView,
    new: &CommitteeView,
    renewal: &Option<Renewal>,
) -> Result<Vec<SlotKind>, AllocError>
    ensures { IfOk result (λ kinds. AreKinds old.now new.now renewal.now (n_of new.now) kinds.items) }
{
    let mut kinds = Vec::new(alloc);
    for slot in 0..new.n() {
        kinds.push(kind_of(old, new, renewal, slot))?;
    }
    Ok(kinds)
}
