//! A renewal: its file, and the lines that say what it says of the new committee.

ghost use Rattle.std.specs.Prelude.{◌≡◌, ◌++◌, List, ℕ, IfErr, IfOk, OnOk, IsSome};
ghost use Rattle.blocks.specs.Committees.{n_of};
ghost use Rattle.program_follow.specs.Faults.{IsRenewalFault};
ghost use Rattle.program_follow.specs.RenewalLines.{AreLinesOn, AreRenewalLines, AreSlotLines, IsReadAt, IsRenewsLine, kind_text, named_text, renews_line, renews_not_line, slot_line, slot_text};
ghost use Rattle.program_follow.specs.Words.{path_in};

use crate::fault::{Fault, FollowFault};
use base_text::put_number;
use base_wire::append;
use blocks::CommitteeView;
use handover_renewals::{Renewal, RenewalFormRefusal, RenewalRefusal, SlotKind, renews, slot_kind};
use program_parts::{ProgramFault, read_named};
use std::alloc::{AllocError, Global};
use std::fs::{File, Files};

// How much of a renewal's file is read, in bytes: one more than the longest has.
const MOST_OF_A_RENEWAL: u64 = 45_184;

/// The renewal at this path, if there is to be one.
pub(crate) fn read_renewal<'a, F: Files<File = File>>(
    files: &F,
    alloc: Global,
    path: Option<&'a str>,
) -> Result<Option<Renewal>, Fault<'a>>
    ensures read { IfOk result (IsReadAt (path_in path.entry)) }
    ensures refused { IfErr result (IsRenewalFault (path_in path.entry)) }
{
    let Some(path) = path else {
        return Ok(None);
    };
    let bytes = read_named(files, alloc, path, MOST_OF_A_RENEWAL)?;
    match Renewal::read(alloc, &bytes) {
        Ok(renewal) => Ok(Some(renewal)),
        Err(RenewalFormRefusal::Memory) => Err(ProgramFault::Memory),
        Err(refusal) => Err(ProgramFault::Own(FollowFault::Renewal(refusal))),
    }
}

fn kind_text(kind: SlotKind) -> &'static [u8]
    ensures { result.now ≡ kind_text kind }
{
    match kind {
        SlotKind::New => b"new",
        SlotKind::Kept => b"kept",
        SlotKind::ByHand => b"by hand",
    }
}

// Adds `slot S KIND`.
#[tactic(auto, unfolding(crate::specs::RenewalLines::slot_line))]
fn put_slot(text: &mut Vec<u8>, s: u16, kind: SlotKind) -> Result<(), AllocError>
    ensures { OnOk result (text.new.items ≡ text.old.items ++ slot_line s kind) }
{
    append(text, b"slot ")?;
    put_number(text, s)?;
    append(text, b" ")?;
    append(text, kind_text(kind))?;
    append(text, b"\n")
}

// The lines of the slots of the new committee.
fn slots_text(
    alloc: Global,
    old: &CommitteeView,
    new: &CommitteeView,
    renewal: &Renewal,
) -> Result<Vec<u8>, AllocError>
    ensures { IfOk result (λ text.
        AreSlotLines old.now new.now renewal.now (n_of new.now) text.items) }
{
    let mut text = Vec::new(alloc);
    for s in 0..new.n() {
        put_slot(&mut text, s, slot_kind(old, new, renewal, s))?;
    }
    Ok(text)
}

// Adds `renews new S of W`.
#[tactic(auto, unfolding(crate::specs::RenewalLines::renews_line))]
fn put_renews(text: &mut Vec<u8>, weight: u64, total: u64) -> Result<(), AllocError>
    ensures { OnOk result (text.new.items ≡ text.old.items ++ renews_line weight total) }
{
    append(text, b"renews new ")?;
    put_number(text, weight)?;
    append(text, b" of ")?;
    put_number(text, total)?;
    append(text, b"\n")
}

// Adds a space and the slot, if there is one.
#[tactic(auto, unfolding(crate::specs::RenewalLines::slot_text))]
fn put_refused_slot(text: &mut Vec<u8>, slot: Option<u16>) -> Result<(), AllocError>
    ensures { OnOk result (text.new.items ≡ text.old.items ++ slot_text slot) }
{
    if let Some(slot) = slot {
        append(text, b" ")?;
        put_number(text, slot)?;
    }
    Ok(())
}

// Adds `N NAME`.
#[tactic(auto, unfolding(crate::specs::RenewalLines::named_text))]
fn put_named(text: &mut Vec<u8>, refusal: RenewalRefusal) -> Result<(), AllocError>
    ensures { OnOk result (text.new.items ≡ text.old.items ++ named_text refusal) }
{
    put_number(text, refusal.number())?;
    append(text, b" ")?;
    append(text, refusal.name().as_bytes())
}

// Adds `renews not: N NAME SLOT`, with this slot.
#[tactic(auto, unfolding(crate::specs::RenewalLines::renews_not_line))]
fn put_renews_not(
    text: &mut Vec<u8>,
    refusal: RenewalRefusal,
    slot: Option<u16>,
) -> Result<(), AllocError>
    ensures { OnOk result (text.new.items ≡ text.old.items ++ renews_not_line refusal slot) }
{
    append(text, b"renews not: ")?;
    put_named(text, refusal)?;
    put_refused_slot(text, slot)?;
    append(text, b"\n")
}

// The lines on a renewal.
fn lines_on(
    alloc: Global,
    old: &CommitteeView,
    new: &CommitteeView,
    renewal: &Renewal,
) -> Result<Vec<u8>, AllocError>
    ensures { IfOk result (λ text. AreRenewalLines old.now new.now renewal.now text.items) }
{
    let mut text = slots_text(alloc, old, new, renewal)?;
    match renews(old, new, renewal) {
        Ok(slots) => put_renews(&mut text, slots.weight, old.total())?,
        Err(refusal) => put_renews_not(&mut text, refusal, refusal.slot())?,
    }
    Ok(text)
}

/// The lines that say what a renewal, if there is one, says of the new committee: of each of its slots, and of the whole.
pub(crate) fn renewal_text(
    alloc: Global,
    old: &CommitteeView,
    new: &CommitteeView,
    renewal: &Option<Renewal>,
) -> Result<Vec<u8>, AllocError>
    ensures { IfOk result (λ text. AreLinesOn old.now new.now renewal.now text.items) }
{
    match renewal {
        Some(renewal) => lines_on(alloc, old, new, renewal),
        None => Ok(Vec::new(alloc)),
    }
}
