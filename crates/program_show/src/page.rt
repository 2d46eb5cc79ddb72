//! A file as lines.

ghost use Rattle.std.specs.Prelude.{◌≡◌, IfOk, is_ok, length, take, true};
ghost use Rattle.blocks.specs.CommitteeReading.{committee_in};
ghost use Rattle.program_show.specs.Files.{IsWholeOrElse, IsKeyText, IsShown, IsUnknownText};
ghost use Rattle.program_show.specs.Lines.{committee_file, seed_line};

use crate::committee::{put_committee, put_key, put_refused_committee, put_seed};
use crate::endorsement::endorsement_page;
use crate::kind::{Kind, kind_of};
use crate::log::{export_page, indices_page, journal_page};
use crate::renewal::renewal_page;
use crate::verdict::verdict_page;
use base_text::refusal_text;
use base_wire::append;
use certificates::CommitteeView;
use lms_tree::PublicKey;
use std::alloc::{AllocError, Global};

/// What is shown of a file.
#[derive(Drop)]
pub struct Page {
    /// Its lines, each with a line feed.
    pub text: Vec<u8>,
    /// Whether the file is one of a kind that there is. A log may end anyhow, and its entries be unreadable.
    pub is_whole: bool,
}

/// What is shown of a file with these bytes, as docs/hs_show.md lays it out; with a committee also which of the
/// signatures in it are good. Of 48 bytes only the first 16 are looked at. An error is want of memory.
pub fn show(
    alloc: Global,
    committee: &Option<CommitteeView>,
    bytes: Vec<u8>,
) -> Result<Page, AllocError>
    ensures shown { IfOk result (λ p. IsShown committee.now bytes.items p.text.items p.is_whole) }

    // Nothing of a seed is shown: the text of 48 bytes is that of their first 16.
    ensures secret { length bytes.items ≡ 48
        → IfOk result (λ p. p.text.items ≡ seed_line (take 16 bytes.items)) }
{
    match kind_of(&bytes) {
        Kind::Seed => seed_page(alloc, &bytes),
        Kind::Committee => committee_page(alloc, &bytes),
        Kind::Verdict => verdict_page(alloc, committee, &bytes),
        Kind::Export => export_page(alloc, committee, &bytes),
        Kind::Endorsement => endorsement_page(alloc, &bytes),
        Kind::Renewal => renewal_page(alloc, &bytes),
        Kind::Journal => journal_page(alloc, committee, bytes),
        Kind::Indices => indices_page(alloc, bytes),
        Kind::Other => other_page(alloc, &bytes),
    }
}

fn seed_page(alloc: Global, bytes: &[u8]) -> Result<Page, AllocError>
    requires { length bytes.now ≡ 48 }
    ensures { IfOk result (λ p. (p.text.items ≡ seed_line bytes.now) × (p.is_whole ≡ true)) }
{
    let mut text = Vec::new(alloc);
    put_seed(&mut text, bytes)?;
    Ok(Page {
        text,
        is_whole: true,
    })
}

fn committee_page(alloc: Global, bytes: &[u8]) -> Result<Page, AllocError>
    ensures { IfOk result (λ p. (p.text.items ≡ committee_file (committee_in bytes.now))
        × (p.is_whole ≡ is_ok (committee_in bytes.now))) }
{
    let mut text = Vec::new(alloc);
    match CommitteeView::parse(bytes) {
        Ok(committee) => {
            put_committee(&mut text, &committee)?;
            Ok(Page {
                text,
                is_whole: true,
            })
        }
        Err(refusal) => {
            put_refused_committee(&mut text, refusal_text(refusal).as_bytes())?;
            Ok(Page {
                text,
                is_whole: false,
            })
        }
    }
}

// A public key, or a file of no kind.
fn other_page(alloc: Global, bytes: &[u8]) -> Result<Page, AllocError>
    ensures { IfOk result (λ p.
        IsWholeOrElse (IsKeyText bytes.now p.text.items)
        (IsUnknownText bytes.now p.text.items) p.is_whole) }
{
    let mut text = Vec::new(alloc);
    match PublicKey::parse(bytes) {
        Ok(key) => {
            put_key(&mut text, &key)?;
            Ok(Page {
                text,
                is_whole: true,
            })
        }
        Err(_) => {
            append(&mut text, b"unknown\n")?;
            Ok(Page {
                text,
                is_whole: false,
            })
        }
    }
}
