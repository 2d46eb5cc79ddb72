//! Refusals as they are printed: a number and a name.

ghost use Rattle.std.specs.Prelude.{◌≡◌, ◌++◌, OnOk, decimal};
ghost use Rattle.program_show.specs.Lines.{shown_refusal_line};
ghost use Rattle.program_show.specs.Names.{entry_refusal_name, next_keys_refusal_name, renewal_refusal_name, verdict_refusal_name};

use base_text::put_number;
use base_wire::append;
use handover_keys::NextKeysRefusal;
use handover_renewals::RenewalFormRefusal;
use log_format::EntryRefusal;
use std::alloc::AllocError;
use verdict_format::VerdictRefusal;

/// The name of a verdict's refusal.
pub(crate) fn verdict_refusal_name(refusal: VerdictRefusal) -> &'static str
    ensures { result.now ≡ verdict_refusal_name refusal }
{
    match refusal {
        VerdictRefusal::Short => "Short",
        VerdictRefusal::Magic => "Magic",
        VerdictRefusal::Kind => "Kind",
        VerdictRefusal::Length => "Length",
    }
}

/// The name of an entry's refusal.
pub(crate) fn entry_refusal_name(refusal: EntryRefusal) -> &'static str
    ensures { result.now ≡ entry_refusal_name refusal }
{
    match refusal {
        EntryRefusal::Memory => "Memory",
        EntryRefusal::Length => "Length",
        EntryRefusal::Kind => "Kind",
        EntryRefusal::Header => "Header",
        EntryRefusal::Parent => "Parent",
        EntryRefusal::OwnVote => "OwnVote",
        EntryRefusal::Certificate => "Certificate",
    }
}

/// The name of a refusal of the statement in an endorsement.
pub(crate) fn next_keys_refusal_name(refusal: NextKeysRefusal) -> &'static str
    ensures { result.now ≡ next_keys_refusal_name refusal }
{
    match refusal {
        NextKeysRefusal::Short => "Short",
        NextKeysRefusal::Magic => "Magic",
        NextKeysRefusal::Count => "Count",
        NextKeysRefusal::Length => "Length",
        NextKeysRefusal::Key => "Key",
    }
}

/// The name of a renewal's refusal.
pub(crate) fn renewal_refusal_name(refusal: RenewalFormRefusal) -> &'static str
    ensures { result.now ≡ renewal_refusal_name refusal }
{
    match refusal {
        RenewalFormRefusal::Memory => "Memory",
        RenewalFormRefusal::Short => "Short",
        RenewalFormRefusal::Magic => "Magic",
        RenewalFormRefusal::View => "View",
        RenewalFormRefusal::Length => "Length",
        RenewalFormRefusal::Order => "Order",
        RenewalFormRefusal::Count => "Count",
    }
}

/// Adds the line that says why a file that begins as one of a kind is none.
#[tactic(auto, unfolding(crate::specs::Lines::shown_refusal_line))]
pub(crate) fn put_refused(
    text: &mut Vec<u8>,
    kind: &[u8],
    number: u8,
    name: &[u8],
) -> Result<(), AllocError>
    ensures { OnOk result (text.new.items ≡ text.old.items
        ++ shown_refusal_line kind.now number name.now) }
{
    append(text, b"refused ")?;
    append(text, kind)?;
    append(text, b" ")?;
    put_number(text, number)?;
    append(text, b" ")?;
    append(text, name)?;
    append(text, b"\n")
}
