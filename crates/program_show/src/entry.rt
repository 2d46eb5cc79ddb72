//! Entries of a log as lines.

ghost use Rattle.std.specs.Prelude.{◌≡◌, ◌≢◌, ◌↔◌, ◌++◌, ◌∷◌, [], IsTrue, OnOk, decimal};
ghost use Rattle.hex.specs.Hex.{encode_lower};
ghost use Rattle.blocks.specs.Headers.{Header as HeaderValue, header_id};
ghost use Rattle.log_format.specs.EntryReading.{entry_refusal_number};
ghost use Rattle.log_format.specs.EntryText.{own_of};
ghost use Rattle.program_show.specs.Entries.{AreVoterParts, IsEntryLine, IsOwnPart, IsOwnVoteBy, IsPayloadShown, IsSigner, IsVotePart, act_name, own_key_part, signer_mark, signer_text};
ghost use Rattle.program_show.specs.Lines.{entry_front, parent_part, refused_entry_line, voter_part};
ghost use Rattle.program_show.specs.Marks.{IsMark, mark_text};
ghost use Rattle.program_show.specs.Names.{entry_refusal_name};
ghost use Rattle.program_show.specs.Series.{AddsText};

use crate::block::put_block;
use crate::mark::{Mark, mark_of, put_key_part};
use crate::names::entry_refusal_name;
use base_text::{put_id, put_number};
use base_wire::{append, u32_at};
use blocks::Header;
use certificates::{Certificate, CommitteeView, SignedVote, check_vote};
use log_format::{Entry, EntryRefusal};
use std::alloc::{AllocError, Global};

/// Adds what is shown of payload `k` of a log, and the marks of its signatures. An error is want of memory.
pub(crate) fn put_payload(
    alloc: Global,
    text: &mut Vec<u8>,
    marks: &mut Vec<Mark>,
    committee: &Option<CommitteeView>,
    k: usize,
    payload: &[u8],
) -> Result<(), AllocError>
    ensures { OnOk result (AddsText text.old.items text.new.items marks.old.items marks.new.items
        (IsPayloadShown committee.now k payload.now)) }
{
    match Entry::read(alloc, payload) {
        Ok(entry) => {
            put_entry(text, marks, committee, k, &entry)?;
            put_block(text, entry.block())
        }
        Err(refusal) => put_refusal(text, k, refusal),
    }
}

// Adds the line of a payload that is no entry, unless that is want of memory.
fn put_refusal(text: &mut Vec<u8>, k: usize, refusal: EntryRefusal) -> Result<(), AllocError>
    ensures text { OnOk result (text.new.items ≡ text.old.items
        ++ refused_entry_line k (entry_refusal_number refusal) (entry_refusal_name refusal)) }
    ensures not_memory { OnOk result (refusal ≢ EntryRefusal.Memory) }
{
    match refusal {
        EntryRefusal::Memory => Err(AllocError),
        _ => put_refused_entry(text, k, refusal),
    }
}

#[tactic(auto, unfolding(crate::specs::Lines::refused_entry_line))]
fn put_refused_entry(text: &mut Vec<u8>, k: usize, refusal: EntryRefusal) -> Result<(), AllocError>
    ensures { OnOk result (text.new.items ≡ text.old.items
        ++ refused_entry_line k (entry_refusal_number refusal) (entry_refusal_name refusal)) }
{
    append(text, b"entry ")?;
    put_number(text, k)?;
    append(text, b" refused ")?;
    put_number(text, refusal.number())?;
    append(text, b" ")?;
    append(text, entry_refusal_name(refusal).as_bytes())?;
    append(text, b"\n")
}

// Adds the line of entry `k`.
fn put_entry(
    text: &mut Vec<u8>,
    marks: &mut Vec<Mark>,
    committee: &Option<CommitteeView>,
    k: usize,
    entry: &Entry,
) -> Result<(), AllocError>
    ensures { OnOk result (AddsText text.old.items text.new.items marks.old.items marks.new.items
        (IsEntryLine committee.now k entry.now)) }
{
    // The number of the replica is not in the entry, so any number does.
    let own = entry.vote(0);
    put_front(text, k, act_name(&own), entry.block())?;
    put_own(text, marks, committee, entry, &own)?;
    put_parent(text, entry.block())?;
    put_voters(text, marks, committee, entry.certificate())?;
    append(text, b"\n")
}

// Whether the replica voted, in a word.
fn act_name(own: &Option<SignedVote>) -> &'static str
    ensures { result.now ≡ act_name (own_of own.now) }
{
    match own {
        Some(_) => "vote",
        None => "lock",
    }
}

#[tactic(auto, unfolding(crate::specs::Lines::entry_front))]
fn put_front(text: &mut Vec<u8>, k: usize, act: &str, block: &Header) -> Result<(), AllocError>
    ensures { OnOk result (text.new.items ≡ text.old.items ++ entry_front k act.now block.now) }
{
    append(text, b"entry ")?;
    put_number(text, k)?;
    append(text, b" ")?;
    append(text, act.as_bytes())?;
    append(text, b" view ")?;
    put_number(text, block.view)?;
    append(text, b" id ")?;
    put_id(text, &block.id())
}

#[tactic(auto, unfolding(crate::specs::Lines::parent_part))]
fn put_parent(text: &mut Vec<u8>, block: &Header) -> Result<(), AllocError>
    ensures { OnOk result (text.new.items ≡ text.old.items ++ parent_part block.now) }
{
    append(text, b" parent ")?;
    put_number(text, block.parent_view)?;
    append(text, b" ")?;
    put_id(text, &block.parent)?;
    append(text, b" voters")
}

// Whether the own vote is a good vote of the replica.
fn is_own_vote_by(committee: &CommitteeView, entry: &Entry, replica: u16) -> bool
    ensures { IsTrue result ↔ IsOwnVoteBy committee.now entry.now replica }
{
    match entry.vote(replica) {
        Some(vote) => check_vote(committee, &vote).is_ok(),
        None => false,
    }
}

// The least replica that signed the own vote.
fn signer_of(committee: &CommitteeView, entry: &Entry) -> Option<u16>
    ensures { IsSigner committee.now entry.now result }
{
    for r in 0..committee.n() {
        if is_own_vote_by(committee, entry, r) {
            return Some(r);
        }
    }
    None
}

// Adds what is shown of the own vote, if there is one: its key and index, and with a committee its signer.
fn put_own(
    text: &mut Vec<u8>,
    marks: &mut Vec<Mark>,
    committee: &Option<CommitteeView>,
    entry: &Entry,
    own: &Option<SignedVote>,
) -> Result<(), AllocError>
    ensures { OnOk result (AddsText text.old.items text.new.items marks.old.items marks.new.items
        (IsOwnPart committee.now entry.now (own_of own.now))) }
{
    match (own, committee) {
        (None, _) => Ok(()),
        (Some(own), None) => put_own_key(text, own),
        (Some(own), Some(committee)) => {
            put_own_key(text, own)?;
            put_signer(text, marks, signer_of(committee, entry))
        }
    }
}

fn put_own_key(text: &mut Vec<u8>, own: &SignedVote) -> Result<(), AllocError>
    ensures { OnOk result (text.new.items ≡ text.old.items
        ++ own_key_part (record { key = own.now.key; signature = own.now.signature })) }
{
    put_key_part(text, own.key, u32_at(&own.signature, 0))
}

fn put_signer(
    text: &mut Vec<u8>,
    marks: &mut Vec<Mark>,
    signer: Option<u16>,
) -> Result<(), AllocError>
    ensures text { OnOk result (text.new.items ≡ text.old.items ++ signer_text signer) }
    ensures marks { OnOk result (marks.new.items ≡ marks.old.items ++ signer_mark signer ∷ []) }
{
    match signer {
        Some(replica) => {
            append(text, b" by ")?;
            put_number(text, replica)?;
            put_mark(marks, Mark::Good)
        }
        None => {
            append(text, b" by none")?;
            put_mark(marks, Mark::Bad)
        }
    }
}

fn put_mark(marks: &mut Vec<Mark>, mark: Mark) -> Result<(), AllocError>
    ensures { OnOk result (marks.new.items ≡ marks.old.items ++ mark ∷ []) }
{
    marks.push(mark)?;
    Ok(())
}

// Adds the voters of a certificate.
fn put_voters(
    text: &mut Vec<u8>,
    marks: &mut Vec<Mark>,
    committee: &Option<CommitteeView>,
    certificate: &Certificate,
) -> Result<(), AllocError>
    ensures { OnOk result (AddsText text.old.items text.new.items marks.old.items marks.new.items
        (AreVoterParts committee.now certificate.now)) }
{
    for k in 0..certificate.count() {
        put_voter(text, marks, committee, &certificate.vote(k))?;
    }
    Ok(())
}

// Adds the number of another replica that voted, and the mark of its vote.
fn put_voter(
    text: &mut Vec<u8>,
    marks: &mut Vec<Mark>,
    committee: &Option<CommitteeView>,
    vote: &SignedVote,
) -> Result<(), AllocError>
    ensures { OnOk result (AddsText text.old.items text.new.items marks.old.items marks.new.items
        (IsVotePart committee.now vote.now)) }
{
    let mark = mark_of(
        committee,
        vote.replica,
        vote.key,
        &vote.ballot(),
        &vote.signature,
    );
    put_number_of_voter(text, vote.replica, mark)?;
    put_mark(marks, mark)
}

#[tactic(auto, unfolding(crate::specs::Lines::voter_part))]
fn put_number_of_voter(text: &mut Vec<u8>, replica: u16, mark: Mark) -> Result<(), AllocError>
    ensures { OnOk result (text.new.items ≡ text.old.items ++ voter_part replica mark) }
{
    append(text, b" ")?;
    put_number(text, replica)?;
    append(text, mark.word().as_bytes())
}
