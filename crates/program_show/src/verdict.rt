//! Verdicts as lines.

ghost use Rattle.std.specs.Prelude.{◌≡◌, ◌+◌, ◌++◌, ◌≤◌, ◌∷◌, [], IfOk, IfSome, OnOk, decimal, length};
ghost use Rattle.hex.specs.Hex.{encode_lower};
ghost use Rattle.verdict_format.specs.VerdictReading.{IsReadableVerdict};
ghost use Rattle.verdict_format.specs.Verdicts.{headers_in, verdict_kind_in, replica_in};
ghost use Rattle.verdict_format.specs.declared.verdict.TheConstants.{LATER_SIGNATURE_AT};
ghost use Rattle.program_show.specs.Files.{IsWholeOrElse, IsNoVerdictText, IsVerdictText};
ghost use Rattle.program_show.specs.Lines.{good_count_line, header_line, headers_lines, rule_line, verdict_lines, vote_line};
ghost use Rattle.program_show.specs.Marks.{IsMark, mark_text};

use crate::committee::put_chain;
use crate::mark::{Mark, mark_of, put_count, put_key_part};
use crate::names::{put_refused, verdict_refusal_name};
use crate::page::Page;
use base_text::{put_id, put_number};
use base_wire::{append, u32_at};
use blocks::Header;
use certificates::CommitteeView;
use std::alloc::{AllocError, Global};
use verdict_format::{EARLIER_SIGNATURE_AT, LATER_SIGNATURE_AT, Shown, VerdictView, VoteView};

/// What is shown of a file that begins as a verdict.
pub(crate) fn verdict_page(
    alloc: Global,
    committee: &Option<CommitteeView>,
    bytes: &[u8],
) -> Result<Page, AllocError>
    ensures { IfOk result (λ p.
        IsWholeOrElse (IsVerdictText committee.now bytes.now p.text.items)
        (IsNoVerdictText bytes.now p.text.items) p.is_whole) }
{
    let mut text = Vec::new(alloc);
    match VerdictView::parse(bytes) {
        Ok(verdict) => {
            let first = mark_in(committee, &verdict, &verdict.earlier());
            let second = mark_in(committee, &verdict, &verdict.later());
            put_verdict(&mut text, bytes, &verdict, first, second)?;
            put_count(&mut text, committee, &[first, second])?;
            Ok(Page {
                text,
                is_whole: true,
            })
        }
        Err(refusal) => {
            let name = verdict_refusal_name(refusal);
            put_refused(&mut text, b"verdict", refusal.number(), name.as_bytes())?;
            Ok(Page {
                text,
                is_whole: false,
            })
        }
    }
}

// The mark of a vote of the accused replica.
fn mark_in(committee: &Option<CommitteeView>, verdict: &VerdictView, vote: &VoteView) -> Mark
    ensures { IsMark committee.now (record {
      replica = replica_in verdict.now;
      view = vote.now.view;
      id = vote.now.id;
      key = vote.now.key;
      signature = vote.now.signature.now;
    }) result }
{
    mark_of(
        committee,
        verdict.replica(),
        vote.key,
        &vote.ballot(),
        vote.signature,
    )
}

// Adds the lines of a verdict whose votes have these marks.
fn put_verdict(
    text: &mut Vec<u8>,
    bytes: &[u8],
    verdict: &VerdictView,
    first: Mark,
    second: Mark,
) -> Result<(), AllocError>
    requires same { verdict.now ≡ bytes.now }
    requires long { LATER_SIGNATURE_AT + 4 ≤ length bytes.now }
    ensures { OnOk result (text.new.items ≡ text.old.items
        ++ verdict_lines bytes.now first second) }
{
    put_rule(text, verdict.rule().number(), verdict.replica())?;
    put_chain(text, &verdict.chain())?;
    put_vote(
        text,
        b"first",
        &verdict.earlier(),
        u32_at(bytes, EARLIER_SIGNATURE_AT),
        first,
    )?;
    put_vote(
        text,
        b"second",
        &verdict.later(),
        u32_at(bytes, LATER_SIGNATURE_AT),
        second,
    )?;
    put_shown(text, verdict)
}

#[tactic(auto, unfolding(crate::specs::Lines::rule_line))]
fn put_rule(text: &mut Vec<u8>, rule: u8, replica: u16) -> Result<(), AllocError>
    ensures { OnOk result (text.new.items ≡ text.old.items ++ rule_line rule replica) }
{
    append(text, b"verdict rule ")?;
    put_number(text, rule)?;
    append(text, b" replica ")?;
    put_number(text, replica)?;
    append(text, b"\n")
}

#[tactic(auto, unfolding(crate::specs::Lines::vote_line))]
fn put_vote(
    text: &mut Vec<u8>,
    place: &[u8],
    vote: &VoteView,
    index: u32,
    mark: Mark,
) -> Result<(), AllocError>
    ensures { OnOk result (text.new.items ≡ text.old.items
        ++ vote_line place.now vote.now.view vote.now.id vote.now.key index mark) }
{
    append(text, b"vote ")?;
    append(text, place)?;
    append(text, b" view ")?;
    put_number(text, vote.view)?;
    append(text, b" id ")?;
    put_id(text, &vote.id)?;
    put_key_part(text, vote.key, index)?;
    append(text, mark.word().as_bytes())?;
    append(text, b"\n")
}

// Adds the headers of a lock violation, if they are readable.
fn put_shown(text: &mut Vec<u8>, verdict: &VerdictView) -> Result<(), AllocError>
    ensures { OnOk result (text.new.items
        ≡ text.old.items ++ headers_lines (verdict_kind_in verdict.now) (headers_in verdict.now)) }
{
    match &verdict.shown() {
        None => append(text, b"headers unreadable\n"),
        Some(Shown::DoubleVote) => Ok(()),
        Some(Shown::LockViolation(headers)) => {
            put_header(text, b"first", &headers.earlier)?;
            put_header(text, b"parent", &headers.parent)?;
            put_header(text, b"second", &headers.later)
        }
    }
}

#[tactic(auto, unfolding(crate::specs::Lines::header_line))]
fn put_header(text: &mut Vec<u8>, place: &[u8], header: &Header) -> Result<(), AllocError>
    ensures { OnOk result (text.new.items ≡ text.old.items ++ header_line place.now header.now) }
{
    append(text, b"header ")?;
    append(text, place)?;
    append(text, b" view ")?;
    put_number(text, header.view)?;
    append(text, b" id ")?;
    put_id(text, &header.id())?;
    append(text, b" parent ")?;
    put_number(text, header.parent_view)?;
    append(text, b" ")?;
    put_id(text, &header.parent)?;
    append(text, b"\n")
}
