//! Entries in the form from before votes named their keys: how they become entries of today.

ghost use Rattle.std.specs.Prelude.{◌≡◌, ◌+◌, ◌*◌, ◌≤◌, ◌↔◌, ◌++◌, ◌⊎◌, true, None, length, drop, IfErr, IfOk, IfSome, IsTrue, OnOk, slice_index};
ghost use Rattle.log_format.specs.EntryText.{Entry as EntryValue};
ghost use Rattle.vote_log.specs.OldEntries.{IsOldEntryOf};
ghost use Rattle.vote_log.specs.declared.old_entry.TheConstants.{OLD_ENDORSEMENT_LEN};
ghost use Rattle.vote_log.specs.Renewing.{HasOldForm, IsOldKind, IsOldWhole, is_old_voted, old_place, renewed, renewed_certificate, renewed_endorsement, renewed_endorsements, renewed_kind, renewed_own};

use crate::{Entry, EntryRefusal, LogError};
use base_wire::{append, u16_at};
use blocks::HEADER_LEN;
use certificates::CERTIFICATE_HEAD_LEN;
use lms_tree::SIGNATURE_LEN;
use std::alloc::{AllocError, Global};

/// The first byte of an old entry with the replica's own vote.
const OLD_VOTED: u8 = 1;

/// The first byte of an old entry without one.
const OLD_RAISED: u8 = 2;

/// The first byte of an entry of today with the replica's own vote.
const VOTED: u8 = 3;

/// The first byte of an entry of today without one.
const RAISED: u8 = 4;

/// Where the own vote begins, and where the certificate does in an entry without one.
const VOTE_AT: usize = 1 + 2 * HEADER_LEN;

/// The length of an old own vote: the view, the block's id and the signature.
pub(crate) const OLD_VOTE_LEN: usize = 8 + 32 + SIGNATURE_LEN;

/// Where the certificate begins behind an own vote.
pub(crate) const BEHIND_VOTE: usize = VOTE_AT + OLD_VOTE_LEN;

/// The length of an entry of an old certificate: the number of a replica, and a signature.
pub(crate) const OLD_ENDORSEMENT_LEN: usize = 2 + SIGNATURE_LEN;

/// The number of the key that stands for each vote of an old entry.
const KEY: u8 = 0;

// Whether the own vote stands in the entry, where the first byte is a kind of the old form.
fn is_voted(bytes: &[u8]) -> Option<bool>
    ensures some { IfSome result (λ voted. (is_old_voted bytes.now ≡ voted)
        × IsOldKind (slice_index bytes.now 0)) }
    ensures none { result ≡ None → IsOldKind (slice_index bytes.now 0) → ⊥ }
{
    match bytes.first() {
        Some(&OLD_VOTED) => Some(true),
        Some(&OLD_RAISED) => Some(false),
        _ => None,
    }
}

fn certificate_place(voted: bool) -> usize
    ensures { result ≡ old_place voted }
{
    if voted { BEHIND_VOTE } else { VOTE_AT }
}

// Whether the bytes are as many as an old certificate has of as many entries as they name.
fn is_whole(rest: &[u8]) -> bool
    ensures { IsTrue result ↔ IsOldWhole rest.now }
{
    if rest.len() < CERTIFICATE_HEAD_LEN {
        return false;
    }
    rest.len() == CERTIFICATE_HEAD_LEN + OLD_ENDORSEMENT_LEN * u16_at(rest, 40) as usize
}

// Whether a whole old certificate begins at this place.
fn has_certificate(bytes: &[u8], at: usize) -> bool
    ensures whole { IsTrue result ↔ IsOldWhole (drop at bytes.now) }
    ensures long { IsTrue result → at + 42 ≤ length bytes.now }
{
    if bytes.len() < at {
        return false;
    }
    is_whole(&bytes[at..])
}

// The first byte in the form of today.
fn kind_of(voted: bool) -> u8
    ensures { result ≡ renewed_kind voted }
{
    if voted { VOTED } else { RAISED }
}

// Adds the own vote, if there is one, behind the number of its key.
fn put_own_vote(text: &mut Vec<u8>, voted: bool, bytes: &[u8]) -> Result<(), AllocError>
    requires { old_place voted ≤ length bytes.now }
    ensures { OnOk result (text.new.items ≡ text.old.items ++ renewed_own voted bytes.now) }
{
    if voted {
        append(text, &[KEY])?;
        append(text, &bytes[VOTE_AT..BEHIND_VOTE])?;
    }
    Ok(())
}

// Adds an entry of a certificate: the number of the replica, that of its key, and the signature.
fn put_endorsement(text: &mut Vec<u8>, old: &[u8]) -> Result<(), AllocError>
    requires { 2 ≤ length old.now }
    ensures { OnOk result (text.new.items ≡ text.old.items ++ renewed_endorsement old.now) }
{
    append(text, &old[..2])?;
    append(text, &[KEY])?;
    append(text, &old[2..])
}

// Adds so many entries of a certificate.
fn put_endorsements(text: &mut Vec<u8>, old: &[u8], count: usize) -> Result<(), AllocError>
    requires { length old.now ≡ OLD_ENDORSEMENT_LEN * count }
    ensures { OnOk result (text.new.items ≡ text.old.items ++ renewed_endorsements old.now count) }
{
    for k in 0..count {
        let at = OLD_ENDORSEMENT_LEN * k;
        put_endorsement(text, &old[at..at + OLD_ENDORSEMENT_LEN])?;
    }
    Ok(())
}

fn put_certificate(text: &mut Vec<u8>, rest: &[u8]) -> Result<(), AllocError>
    requires { IsOldWhole rest.now }
    ensures { OnOk result (text.new.items ≡ text.old.items ++ renewed_certificate rest.now) }
{
    append(text, &rest[..CERTIFICATE_HEAD_LEN])?;
    put_endorsements(
        text,
        &rest[CERTIFICATE_HEAD_LEN..],
        u16_at(rest, 40) as usize,
    )?;
    Ok(())
}

// The bytes in the form of today, with key 0 at each vote; none where the kind or the length is not one of the old
// form.
fn renewed(alloc: Global, bytes: &[u8]) -> Result<Option<Vec<u8>>, AllocError>
    ensures some { IfOk result (λ o. IfSome o (λ text. HasOldForm bytes.now
        × (text.items ≡ renewed bytes.now))) }
    ensures none { IfOk result (λ o. o ≡ None → HasOldForm bytes.now → ⊥) }
{
    let Some(voted) = is_voted(bytes) else {
        return Ok(None);
    };
    let at = certificate_place(voted);
    if !has_certificate(bytes, at) {
        return Ok(None);
    }
    let mut text = Vec::new(alloc);
    append(&mut text, &[kind_of(voted)])?;
    append(&mut text, &bytes[1..VOTE_AT])?;
    put_own_vote(&mut text, voted, bytes)?;
    put_certificate(&mut text, &bytes[at..])?;
    Ok(Some(text))
}

/// The entry that the bytes spell in the old form, with key 0 at each vote; none where they spell none. The only
/// refusal is `Memory`.
pub(crate) fn read_old(alloc: Global, bytes: &[u8]) -> Result<Option<Entry>, LogError>
    // What is read is spelled so.
    ensures found { IfOk result (λ o. IfSome o (IsOldEntryOf bytes.now)) }

    // What is spelled so is read, unless memory is refused.
    ensures only { IfOk result (λ o. o ≡ None → (e : EntryValue) → IsOldEntryOf bytes.now e → ⊥) }

    ensures refused { IfErr result (λ e. e ≡ LogError.Memory) }
{
    let Some(text) = renewed(alloc, bytes)? else {
        return Ok(None);
    };
    match Entry::read(alloc, &text) {
        Ok(entry) => Ok(Some(entry)),
        Err(EntryRefusal::Memory) => Err(LogError::Memory),
        Err(_) => Ok(None),
    }
}
