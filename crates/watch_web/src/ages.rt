//! How long ago, in words.

ghost use Rattle.std.specs.Prelude.{◌≡◌, ◌++◌, OnOk, decimal};
ghost use Rattle.watch_web.specs.Ages.{age_text, for_text, span_text};

use base_text::put_number;
use base_wire::append;
use std::alloc::AllocError;

// So many of a unit.
fn put_units(text: &mut Vec<u8>, count: u64, unit: &[u8]) -> Result<(), AllocError>
    ensures { OnOk result (text.new.items ≡ text.old.items ++ (decimal count ++ unit.now)) }
{
    put_number(text, count)?;
    append(text, unit)
}

// So many seconds, in the unit that is read at a glance.
#[tactic(auto, unfolding(crate::specs::Ages::span_text))]
fn put_span(text: &mut Vec<u8>, seconds: u64) -> Result<(), AllocError>
    ensures { OnOk result (text.new.items ≡ text.old.items ++ span_text seconds) }
{
    if seconds < 120 {
        return put_units(text, seconds, b" s");
    }
    if seconds < 7_200 {
        return put_units(text, seconds / 60, b" min");
    }
    if seconds < 172_800 {
        return put_units(text, seconds / 3_600, b" h");
    }
    put_units(text, seconds / 86_400, b" days")
}

/// How long ago something was, at this second.
#[tactic(auto, unfolding(crate::specs::Ages::age_text))]
pub(crate) fn put_age(text: &mut Vec<u8>, at: u64, second: u64) -> Result<(), AllocError>
    ensures { OnOk result (text.new.items ≡ text.old.items ++ age_text at second) }
{
    if at == 0 {
        return append(text, b"never");
    }
    put_span(text, second.saturating_sub(at))?;
    append(text, b" ago")
}

/// For how long something holds, at this second.
#[tactic(auto, unfolding(crate::specs::Ages::for_text))]
pub(crate) fn put_for(text: &mut Vec<u8>, since: u64, second: u64) -> Result<(), AllocError>
    ensures { OnOk result (text.new.items ≡ text.old.items ++ for_text since second) }
{
    if since == 0 {
        return append(text, b", since this watch began");
    }
    append(text, b", for ")?;
    put_span(text, second.saturating_sub(since))
}
