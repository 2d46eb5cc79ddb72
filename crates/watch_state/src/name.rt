//! The name of a part.

ghost use Rattle.std.specs.Prelude.{◌≡◌, ◌↔◌, ◌<◌, ◌^◌, ◌++◌, ◌∷◌, ℕ, List, Some, IfNone, IfOk, IfSome, IsTrue, MatchOption, decimal};
ghost use Rattle.std.specs.List.{Contains};
ghost use Rattle.hex.specs.Hex.{encode_lower};
ghost use Rattle.watch_state.specs.Names.{IsDigest, IsPartName, name_text};

use crate::digest::LogDigest;
use base_text::{number_in, put_id, put_number};
use base_wire::append;
use std::alloc::{AllocError, Global};

// How many hexadecimal digits a digest has.
const DIGITS: usize = 64;

/// Where the frames of a part stand, by which it is named. Names are in order by their fields.
#[derive(Clone, Copy, Debug, PartialEq, Eq, PartialOrd, Ord)]
pub struct PartName {
    /// The replica whose log it is said to be.
    pub replica: u16,
    /// Which of the sources of that replica, from 0, in the order in which they are named.
    pub source: u16,
    /// Which of the logs of that source, from 0.
    pub log: u16,
    /// How many frames of the log stand in front of it.
    pub place: u16,
    /// What those digest to.
    pub front: LogDigest,
}

/// A part, and how many bytes its file has. Parts are in order by their names.
#[derive(Clone, Copy, Debug, PartialEq, Eq, PartialOrd, Ord)]
pub struct PartFile {
    /// Its name.
    pub name: PartName,
    /// How many bytes its file has.
    pub bytes: u64,
}

impl PartName {
    /// The name of its file. `AllocError` where memory was refused.
    #[tactic(auto, unfolding(crate::specs::Names::name_text))]
    pub fn text(&self, alloc: Global) -> Result<Vec<u8>, AllocError>
        ensures { IfOk result (λ text. text.items ≡ name_text self.now) }
    {
        let mut text = Vec::new(alloc);
        put_number(&mut text, self.replica)?;
        append(&mut text, b"-")?;
        put_number(&mut text, self.source)?;
        append(&mut text, b"-")?;
        put_number(&mut text, self.log)?;
        append(&mut text, b"-")?;
        put_number(&mut text, self.place)?;
        append(&mut text, b"-")?;
        put_id(&mut text, &self.front)?;
        append(&mut text, b".hsl")?;
        Ok(text)
    }

    /// Whether it is a part of this source of the replica.
    pub fn is_of(&self, replica: u16, source: u16) -> bool
        ensures { IsTrue result ↔ (self.now.replica ≡ replica) × (self.now.source ≡ source) }
    {
        self.replica == replica && self.source == source
    }

    /// The part that is named so; none where the text is no name of a part. `AllocError` where memory was refused.
    pub fn of(alloc: Global, text: &[u8]) -> Result<Option<PartName>, AllocError>
        ensures only { IfOk result (λ found. IfSome found (λ name. text.now ≡ name_text name)) }
        ensures each { IfOk result (λ found. (name : PartName) → IsPartName name
            → text.now ≡ name_text name → found ≡ Some name) }
    {
        let Some(name) = fields_in(text) else {
            return Ok(None);
        };
        // The digest may be in upper case, and the end was not looked at.
        if name.text(alloc)?.as_slice() != text {
            return Ok(None);
        }
        Ok(Some(name))
    }
}

// The fields that stand between hyphens: of a name its own.
fn fields_in(text: &[u8]) -> Option<PartName>
    ensures { (name : PartName) → IsPartName name → text.now ≡ name_text name
        → result ≡ Some name }
{
    let (replica, text) = number_before(text)?;
    let (source, text) = number_before(text)?;
    let (log, text) = number_before(text)?;
    let (place, text) = number_before(text)?;
    let front = digest_before(text)?;
    Some(PartName {
        replica,
        source,
        log,
        place,
        front,
    })
}

// The number in front of the first hyphen, and what stands behind that.
fn number_before(text: &[u8]) -> Option<(u16, &[u8])>
    ensures { (number : ℕ) (rest : List ℕ) → number < 2 ^ 16
        → text.now ≡ decimal number ++ 45 ∷ rest
        → MatchOption result ⊥ (λ found. (found.0 ≡ number) × (found.1.now ≡ rest)) }
{
    let (digits, rest) = cut(text)?;
    Some((small_number_in(digits)?, rest))
}

// What stands before the first hyphen, and what stands behind it.
fn cut(text: &[u8]) -> Option<(&[u8], &[u8])>
    ensures none { IfNone result (Contains text.now 45 → ⊥) }
    ensures some { IfSome result (λ parts. (text.now ≡ parts.0.now ++ 45 ∷ parts.1.now)
        × (Contains parts.0.now 45 → ⊥)) }
{
    let at = text.iter().position(|byte| *byte == b'-')?;
    Some((&text[..at], &text[at + 1..]))
}

// The number of 16 bits that is printed so.
fn small_number_in(digits: &[u8]) -> Option<u16>
    ensures some { IfSome result (λ number. digits.now ≡ decimal number) }
    ensures none { IfNone result ((number : ℕ) → number < 2 ^ 16 → digits.now ≡ decimal number
        → ⊥) }
{
    let number = number_in(digits)?;
    if number > u64::from(u16::MAX) {
        return None;
    }
    Some(number as u16)
}

// The digest whose digits stand in front, be they lower case or not.
fn digest_before(text: &[u8]) -> Option<LogDigest>
    ensures { (front rest : List ℕ) → IsDigest front → text.now ≡ encode_lower front ++ rest
        → result ≡ Some front }
{
    let mut front = [0; 32];
    hex::decode_to_slice(text.get(..DIGITS)?, &mut front).ok()?;
    Some(front)
}
