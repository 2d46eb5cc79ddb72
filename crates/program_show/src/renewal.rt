//! Renewals as lines.

ghost use Rattle.std.specs.Prelude.{◌≡◌, ◌≢◌, ◌++◌, IfOk, OnOk, codes, decimal, is_ok, length};
ghost use Rattle.hex.specs.Hex.{encode_lower};
ghost use Rattle.handover_renewals.specs.RenewalReading.{form_refusal_number, renewal_in};
ghost use Rattle.program_show.specs.Lines.{shown_refusal_line};
ghost use Rattle.program_show.specs.Names.{renewal_refusal_name};
ghost use Rattle.program_show.specs.RenewalLines.{next_committee_line, renewal_file, renewal_line, renewal_lines, signature_line, signature_lines};

use crate::committee::put_chain;
use crate::mark::put_unchecked;
use crate::names::{put_refused, renewal_refusal_name};
use crate::page::Page;
use base_text::{put_id, put_number};
use base_wire::append;
use blocks::Id;
use certificates::Certificate;
use handover_renewals::{Renewal, RenewalFormRefusal};
use std::alloc::{AllocError, Global};

/// What is shown of a file that begins as a renewal.
pub(crate) fn renewal_page(alloc: Global, bytes: &[u8]) -> Result<Page, AllocError>
    ensures { IfOk result (λ p. (p.text.items ≡ renewal_file (renewal_in bytes.now))
        × (p.is_whole ≡ is_ok (renewal_in bytes.now))) }
{
    let mut text = Vec::new(alloc);
    match Renewal::read(alloc, bytes) {
        Ok(renewal) => {
            put_renewal(&mut text, &renewal)?;
            Ok(Page {
                text,
                is_whole: true,
            })
        }
        Err(refusal) => {
            put_refusal(&mut text, refusal)?;
            Ok(Page {
                text,
                is_whole: false,
            })
        }
    }
}

// Adds the line of bytes that are no renewal, unless that is want of memory.
fn put_refusal(text: &mut Vec<u8>, refusal: RenewalFormRefusal) -> Result<(), AllocError>
    ensures text { OnOk result (text.new.items ≡ text.old.items
        ++ shown_refusal_line (codes "renewal") (form_refusal_number refusal) (renewal_refusal_name refusal)) }
    ensures not_memory { OnOk result (refusal ≢ RenewalFormRefusal.Memory) }
{
    match refusal {
        RenewalFormRefusal::Memory => Err(AllocError),
        _ => put_refused(
            text,
            b"renewal",
            refusal.number(),
            renewal_refusal_name(refusal).as_bytes(),
        ),
    }
}

// Adds the lines of a renewal.
fn put_renewal(text: &mut Vec<u8>, renewal: &Renewal) -> Result<(), AllocError>
    ensures { OnOk result (text.new.items ≡ text.old.items ++ renewal_lines renewal.now) }
{
    let certificate = renewal.certificate();
    put_front(text, certificate.count())?;
    put_chain(text, renewal.chain())?;
    put_next_committee(text, renewal.file())?;
    put_signatures(text, certificate)?;
    put_unchecked(text, certificate.count())
}

#[tactic(auto, unfolding(crate::specs::RenewalLines::renewal_line))]
fn put_front(text: &mut Vec<u8>, count: usize) -> Result<(), AllocError>
    ensures { OnOk result (text.new.items ≡ text.old.items ++ renewal_line count) }
{
    append(text, b"renewal signatures ")?;
    put_number(text, count)?;
    append(text, b"\n")
}

#[tactic(auto, unfolding(crate::specs::RenewalLines::next_committee_line))]
fn put_next_committee(text: &mut Vec<u8>, digest: &Id) -> Result<(), AllocError>
    ensures { OnOk result (text.new.items ≡ text.old.items ++ next_committee_line digest.now) }
{
    append(text, b"next committee sha256 ")?;
    put_id(text, digest)?;
    append(text, b"\n")
}

// Adds who signed, and by which of its keys.
fn put_signatures(text: &mut Vec<u8>, certificate: &Certificate) -> Result<(), AllocError>
    ensures { OnOk result (text.new.items ≡ text.old.items
        ++ signature_lines certificate.now (length certificate.now.entries)) }
{
    for k in 0..certificate.count() {
        let vote = certificate.vote(k);
        put_signature(text, vote.replica, vote.key)?;
    }
    Ok(())
}

#[tactic(auto, unfolding(crate::specs::RenewalLines::signature_line))]
fn put_signature(text: &mut Vec<u8>, replica: u16, key: u8) -> Result<(), AllocError>
    ensures { OnOk result (text.new.items ≡ text.old.items ++ signature_line replica key) }
{
    append(text, b"signature replica ")?;
    put_number(text, replica)?;
    append(text, b" key ")?;
    put_number(text, key)?;
    append(text, b"\n")
}
