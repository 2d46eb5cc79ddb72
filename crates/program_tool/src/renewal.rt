//! `hs_tool renewal COMMITTEE FILE RENEWAL ENDORSEMENT..`: the next committee's file and the renewal, made of endorsements in files.

ghost use Rattle.std.specs.Prelude.{◌≡◌, ◌≢◌, ◌++◌, IfErr, IfOk, OnOk, length};
ghost use Rattle.blocks.specs.Committees.{n_of};
ghost use Rattle.handover_renewals.specs.Renewing.{AllSlots, HasCount};
ghost use Rattle.handover_renewals.specs.Endorsed.{texts_of};
ghost use Rattle.handover_renewals.specs.Making.{IsRenewalMade};
ghost use Rattle.handover_renewals.specs.Refusals.{IsMakingRefusal};
ghost use Rattle.handover_renewals.specs.declared.making.MakingRefusal.{MakingRefusal as RefusalValue};
ghost use Rattle.program_parts.specs.Writes.{CountsWrites};
ghost use Rattle.program_tool.specs.Renewals.{IsRenewalPrinted, made_lines as text_of_made, making_fault, renews_line, slot_line, slot_lines as text_of_slots, slot_word};

use crate::fault::{Fault, fault_of_making};
use crate::occupied::see_new;
use base_streams::{Sink, write_all};
use base_text::{put_id, put_number};
use base_wire::append;
use blocks::{CommitteeView, Id};
use handover_blocks::handover_payload;
use handover_renewals::{Made, compose, is_kept};
use program_parts::{ProgramFault, parse_committee, read_committee, read_named, store_new};
use std::alloc::{AllocError, Global};
use std::fs::{File, Files};

// How much of an endorsement's file is read, in bytes: one more than the longest has.
const MOST_OF_AN_ENDORSEMENT: u64 = 1_717;

// All may read what is made.
const FILE_MODE: u32 = 0o644;

/// Makes the next committee's file and the renewal by which it renews the committee of the file at `committee` of the endorsements in
/// these files, as `compose` does, in new files at `file` and `path`. Prints for each slot whether it is new or kept, and last the
/// payload of the block that hands over, and how much the new slots weigh of all. In this order: `committee` that can't be read, or
/// is no committee, an endorsement that can't be read, what `compose` refuses, `file` or `path` that is there already. After a fault of
/// `path`, `file` may be there; after `Output` both are.
pub fn renewal<'a, F: Files<File = File>, W: Sink>(
    rt: &F,
    alloc: Global,
    committee: &'a str,
    file: &'a str,
    path: &'a str,
    endorsements: &[&'a str],
    out: &mut W,
) -> Result<(), Fault<'a>>
    ensures printed { OnOk result (IsRenewalPrinted (length endorsements.now) (W.text out.old)
        (W.text out.new)) }
    ensures counted { CountsWrites result (W.failed out.old) (W.failed out.new) }
{
    let bytes = read_committee(rt, alloc, committee)?;
    let old = parse_committee(&bytes)?;
    let texts = read_each(rt, alloc, endorsements)?;
    let made = made_of(alloc, &old, &texts)?;
    let lines = made_lines(alloc, &old, &made)?;
    store_both(rt, alloc, file, path, &made)?;
    match write_all(out, &lines) {
        Ok(()) => Ok(()),
        Err(_) => Err(Fault::Output),
    }
}

// The bytes of each file.
fn read_each<'a, F: Files<File = File>>(
    rt: &F,
    alloc: Global,
    paths: &[&'a str],
) -> Result<Vec<Vec<u8>>, Fault<'a>>
    ensures many { IfOk result (λ texts. length texts.items ≡ length paths.now) }
    ensures fault { IfErr result (λ fault. fault ≢ ProgramFault.Output) }
{
    let mut texts = Vec::new(alloc);
    for path in paths {
        texts.push(read_named(rt, alloc, path, MOST_OF_AN_ENDORSEMENT)?)?;
    }
    Ok(texts)
}

// What these endorsements make.
fn made_of<'a>(
    alloc: Global,
    old: &CommitteeView,
    endorsements: &[Vec<u8>],
) -> Result<Made, Fault<'a>>
    ensures made { IfOk result (IsRenewalMade old.now (texts_of endorsements.now)) }
    ensures refused { IfErr result (λ fault. (refusal : RefusalValue)
        × IsMakingRefusal refusal old.now (texts_of endorsements.now)
        × (fault ≡ making_fault refusal)) }
    ensures fault { IfErr result (λ fault. fault ≢ ProgramFault.Output) }
{
    match compose(alloc, old, endorsements) {
        Ok(made) => Ok(made),
        Err(refusal) => Err(fault_of_making(refusal)),
    }
}

// The lines of what was made.
fn made_lines<'a>(alloc: Global, old: &CommitteeView, made: &Made) -> Result<Vec<u8>, Fault<'a>>
    requires size { n_of made.now.committee.items ≡ n_of old.now }
    requires counts { AllSlots old.now (HasCount old.now made.now.committee.items) }
    ensures text { IfOk result (λ text. text.items ≡ text_of_made old.now made.now) }
    ensures fault { IfErr result (λ fault. fault ≢ ProgramFault.Output) }
{
    let new = parse_committee(&made.committee)?;
    let mut text = slot_lines(alloc, old, &new)?;
    let payload = handover_payload(&made.committee);
    put_renews(&mut text, &payload, made.slots.weight, old.total())?;
    Ok(text)
}

// A line of each slot.
#[tactic(auto, using(crate::proofs::RenewedSlots::no_slots, crate::proofs::RenewedSlots::slots_more))]
fn slot_lines(
    alloc: Global,
    old: &CommitteeView,
    new: &CommitteeView,
) -> Result<Vec<u8>, AllocError>
    requires size { n_of new.now ≡ n_of old.now }
    requires counts { AllSlots old.now (HasCount old.now new.now) }
    ensures { IfOk result (λ text. text.items ≡ text_of_slots old.now new.now (n_of old.now)) }
{
    let mut text = Vec::new(alloc);
    for s in 0..old.n() {
        put_slot(&mut text, s, is_kept(old, new, s))?;
    }
    Ok(text)
}

fn slot_word(kept: bool) -> &'static [u8]
    ensures { result.now ≡ slot_word kept }
{
    if kept { b"kept" } else { b"new" }
}

// Adds `slot S new`, or `slot S kept`.
#[tactic(auto, unfolding(crate::specs::Renewals::slot_line))]
fn put_slot(text: &mut Vec<u8>, s: u16, kept: bool) -> Result<(), AllocError>
    ensures { OnOk result (text.new.items ≡ text.old.items ++ slot_line s kept) }
{
    append(text, b"slot ")?;
    put_number(text, s)?;
    append(text, b" ")?;
    append(text, slot_word(kept))?;
    append(text, b"\n")
}

// Adds `renews PAYLOAD new S of W`.
#[tactic(auto, unfolding(crate::specs::Renewals::renews_line))]
fn put_renews(text: &mut Vec<u8>, payload: &Id, weight: u64, total: u64) -> Result<(), AllocError>
    ensures { OnOk result (text.new.items
        ≡ text.old.items ++ renews_line payload.now weight total) }
{
    append(text, b"renews ")?;
    put_id(text, payload)?;
    append(text, b" new ")?;
    put_number(text, weight)?;
    append(text, b" of ")?;
    put_number(text, total)?;
    append(text, b"\n")
}

// Writes both to new files.
fn store_both<'a, F: Files<File = File>>(
    rt: &F,
    alloc: Global,
    file: &'a str,
    path: &'a str,
    made: &Made,
) -> Result<(), Fault<'a>>
    ensures { IfErr result (λ fault. fault ≢ ProgramFault.Output) }
{
    see_new(rt, file)?;
    see_new(rt, path)?;
    store(rt, alloc, file, &made.committee)?;
    store(rt, alloc, path, &made.renewal)
}

// Writes the bytes to a new file.
fn store<'a, F: Files<File = File>>(
    rt: &F,
    alloc: Global,
    path: &'a str,
    bytes: &[u8],
) -> Result<(), Fault<'a>>
    ensures { IfErr result (λ fault. fault ≢ ProgramFault.Output) }
{
    match store_new(rt, alloc, path, FILE_MODE, bytes) {
        Ok(()) => Ok(()),
        Err(error) => Err(Fault::unless_memory(&error, Fault::File(path))),
    }
}
