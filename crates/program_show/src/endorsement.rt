//! Endorsements of next keys as lines.

ghost use Rattle.std.specs.Prelude.{◌≡◌, ◌++◌, IfOk, OnOk, decimal};
ghost use Rattle.hex.specs.Hex.{encode_lower};
ghost use Rattle.handover_keys.specs.NextKeys.{count_in};
ghost use Rattle.program_show.specs.EndorsementLines.{IsEndorsementText, IsNoEndorsementText, endorsement_line, endorsement_lines, next_key_line, next_key_lines};
ghost use Rattle.program_show.specs.Files.{IsWholeOrElse};

use crate::committee::put_chain;
use crate::digits::put_key_id;
use crate::mark::put_unchecked;
use crate::names::{next_keys_refusal_name, put_refused};
use crate::page::Page;
use base_text::{put_id, put_number};
use base_wire::append;
use handover_keys::{EndorsementView, NextKeysView};
use lms_tree::PublicKey;
use std::alloc::{AllocError, Global};

/// What is shown of a file that begins as an endorsement.
pub(crate) fn endorsement_page(alloc: Global, bytes: &[u8]) -> Result<Page, AllocError>
    ensures { IfOk result (λ p.
        IsWholeOrElse (IsEndorsementText bytes.now p.text.items)
        (IsNoEndorsementText bytes.now p.text.items) p.is_whole) }
{
    let mut text = Vec::new(alloc);
    match EndorsementView::parse(bytes) {
        Ok(endorsement) => {
            put_endorsement(&mut text, &endorsement)?;
            Ok(Page {
                text,
                is_whole: true,
            })
        }
        Err(refusal) => {
            let name = next_keys_refusal_name(refusal);
            put_refused(&mut text, b"endorsement", refusal.number(), name.as_bytes())?;
            Ok(Page {
                text,
                is_whole: false,
            })
        }
    }
}

// Adds the lines of an endorsement.
fn put_endorsement(text: &mut Vec<u8>, endorsement: &EndorsementView) -> Result<(), AllocError>
    ensures { OnOk result (text.new.items ≡ text.old.items ++ endorsement_lines endorsement.now) }
{
    let statement = endorsement.statement();
    put_front(
        text,
        statement.replica(),
        statement.count(),
        endorsement.key(),
    )?;
    put_chain(text, &statement.chain())?;
    put_next_keys(text, &statement)?;
    put_unchecked(text, 1)
}

#[tactic(auto, unfolding(crate::specs::EndorsementLines::endorsement_line))]
fn put_front(text: &mut Vec<u8>, replica: u16, keys: u8, key: u8) -> Result<(), AllocError>
    ensures { OnOk result (text.new.items ≡ text.old.items ++ endorsement_line replica keys key) }
{
    append(text, b"endorsement replica ")?;
    put_number(text, replica)?;
    append(text, b" keys ")?;
    put_number(text, keys)?;
    append(text, b" signed by key ")?;
    put_number(text, key)?;
    append(text, b"\n")
}

// Adds the next keys of a statement.
fn put_next_keys(text: &mut Vec<u8>, statement: &NextKeysView) -> Result<(), AllocError>
    ensures { OnOk result (text.new.items ≡ text.old.items
        ++ next_key_lines statement.now (count_in statement.now)) }
{
    for k in 0..statement.count() {
        put_next_key(text, k, &statement.key(k))?;
    }
    Ok(())
}

#[tactic(auto, unfolding(crate::specs::EndorsementLines::next_key_line))]
fn put_next_key(text: &mut Vec<u8>, k: u8, key: &PublicKey) -> Result<(), AllocError>
    ensures { OnOk result (text.new.items ≡ text.old.items
        ++ next_key_line k key.now.key_id key.now.root) }
{
    append(text, b"next key ")?;
    put_number(text, k)?;
    append(text, b" id ")?;
    put_key_id(text, &key.key_id)?;
    append(text, b" root ")?;
    put_id(text, &key.root)?;
    append(text, b"\n")
}
