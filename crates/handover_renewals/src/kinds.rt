//! What a slot of a committee is beside the committee before it.

ghost use Rattle.std.specs.Prelude.{◌<◌, ◌↔◌, IsTrue};
ghost use Rattle.blocks.specs.Committees.{n_of};
ghost use Rattle.handover_renewals.specs.Renewing.{HasCount};
ghost use Rattle.handover_renewals.specs.SlotKinds.{IsRenewedSlot, IsSlotKind};

use crate::format::Renewal;
use crate::judging::{has_bound_ids, unsigned_by};
use crate::slots::is_kept;
use blocks::CommitteeView;

/// What a slot of a new committee, the place of a replica, is beside the committee before it.
#[derive(Clone, Copy, Debug, PartialEq, Eq)]
pub enum SlotKind {
    /// It has the same keys.
    Kept,
    /// It has as many keys, not the same, all with bound ids, and the renewal has a good signature of their statement.
    New,
    /// It is neither of these.
    ByHand,
}

// Whether a slot that both committees have, with as many keys, is a new one.
fn is_renewed(old: &CommitteeView, new: &CommitteeView, renewal: &Renewal, s: u16) -> bool
    requires place { s < n_of old.now }
    requires still { s < n_of new.now }
    requires count { HasCount old.now new.now s }
    ensures { IsTrue result ↔ IsRenewedSlot old.now new.now renewal.now s }
{
    if is_kept(old, new, s) || !has_bound_ids(old, new, s) {
        return false;
    }
    unsigned_by(old, new, renewal, s).is_none()
}

/// What slot `s`, which the new committee must have, is beside the old one, by this renewal. Whether the renewal names these two committees
/// is not looked at; the statement that is signed names the chain of the old one. It takes no memory, and costs one signature check at the
/// most.
pub fn slot_kind(old: &CommitteeView, new: &CommitteeView, renewal: &Renewal, s: u16) -> SlotKind
    requires { s < n_of new.now }
    ensures { IsSlotKind result old.now new.now renewal.now s }
{
    if s >= old.n() || new.keys(s) != old.keys(s) {
        return SlotKind::ByHand;
    }
    if is_kept(old, new, s) {
        SlotKind::Kept
    } else if is_renewed(old, new, renewal, s) {
        SlotKind::New
    } else {
        SlotKind::ByHand
    }
}
