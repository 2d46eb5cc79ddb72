//! The names of what is answered.

ghost use Rattle.std.specs.Prelude.{◌≡◌, List, ℕ, Option as OptionValue, Some as SomeValue, None as NoneValue, MatchOption};
ghost use Rattle.program_answers.specs.Naming.{answer_name, committee_name, IsNamed, IsWritten, RefusalsHaveTheirNames, verdict_name, version_text};

/// The version of this library: that of the file VERSION.
const VERSION: &str = "0.9.0";

// The name of an answer that is no minus.
#[tactic(auto, unfolding(crate::specs::Naming::verdict_name))]
fn verdict_name(number: u32) -> Option<&'static str>
    ensures { MatchOption result (verdict_name number ≡ NoneValue) (λ name. verdict_name number ≡ SomeValue name.now) }
{
    match number {
        0 => Some("Accepted"),
        1 => Some("Short"),
        2 => Some("Magic"),
        3 => Some("Kind"),
        4 => Some("Length"),
        5 => Some("Chain"),
        6 => Some("Replica"),
        7 => Some("HeaderMismatch"),
        8 => Some("NoRuleBroken"),
        9 => Some("SignatureE"),
        10 => Some("SignatureW"),
        11 => Some("KeyNumber"),
        _ => None,
    }
}

// .. of minus this.
#[tactic(auto, unfolding(crate::specs::Naming::committee_name))]
fn committee_name(number: u32) -> Option<&'static str>
    ensures { MatchOption result (committee_name number ≡ NoneValue) (λ name. committee_name number ≡ SomeValue name.now) }
{
    match number {
        1 => Some("Length"),
        2 => Some("Magic"),
        3 => Some("Size"),
        4 => Some("Key"),
        5 => Some("SameKey"),
        6 => Some("Weight"),
        7 => Some("KeyCount"),
        _ => None,
    }
}

fn name_of(answer: i32) -> Option<&'static str>
    ensures { MatchOption result (answer_name answer ≡ NoneValue) (λ name. answer_name answer ≡ SomeValue name.now) }
{
    if answer < 0 {
        committee_name(answer.unsigned_abs())
    } else {
        verdict_name(answer.unsigned_abs())
    }
}

// Puts a text at the front of what is written, where there is room. Answers its length, or else 0.
fn put(text: &str, written: &mut [u8]) -> usize
    ensures { IsWritten text.now written.old written.new result }
{
    let bytes = text.as_bytes();
    if bytes.len() > written.len() {
        return 0;
    }
    written[..bytes.len()].copy_from_slice(bytes);
    bytes.len()
}

/// Writes the name of what `judge` or `show_committee` answered to the front of `name`, as docs/REFUSALS.md has it, and answers
/// its length. Answers 0, and then `name` is left as it was, for a number that has no name, and where there is no room.
pub fn write_name(answer: i32, name: &mut [u8]) -> usize
    ensures { IsNamed answer name.old name.new result }
{
    match name_of(answer) {
        Some(text) => put(text, name),
        None => 0,
    }
}

/// Writes the version of this library, as `0.9.0`, to the front of `version`, and answers its length. Answers 0, and then `version` is
/// left as it was, where there is no room.
pub fn write_version(version: &mut [u8]) -> usize
    ensures { IsWritten version_text version.old version.new result }
{
    put(VERSION, version)
}

/// The law that the number of each refusal has the name that the checker, or docs/REFUSALS.md, gives it.
pub fn refusals_have_their_names()
    ensures { RefusalsHaveTheirNames }
{}
