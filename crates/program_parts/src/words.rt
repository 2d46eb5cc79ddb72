//! Words of command lines that more than one program reads.

ghost use Rattle.std.specs.Prelude.{◌↔◌, ℕ, IsTrue, MatchOption};
ghost use Rattle.program_parts.specs.Words.{HasNoColonFrom, IsAddress, IsHost, IsLastColon, IsPort, SpellsNumber, SpellsOrigin, SpellsSource};
ghost use Rattle.program_parts.specs.declared.words.Origin.{Origin as OriginValue};
ghost use Rattle.program_parts.specs.declared.words.SourceWord.{SourceWord as SourceValue};

use base_text::number_in;

/// The number below 65,536 that a word spells in its one spelling: digits alone, and no leading zero.
pub fn number(word: &str) -> Option<u16>
    ensures { MatchOption result ((n : ℕ) → SpellsNumber word.now n → ⊥)
        (λ n. SpellsNumber word.now n) }
{
    let number = number_in(word.as_bytes())?;
    if number > u64::from(u16::MAX) {
        return None;
    }
    Some(number as u16)
}

/// Where a replica's log comes from.
#[derive(Clone, Copy, Debug)]
pub struct SourceWord<'a> {
    pub replica: u16,
    pub origin: Origin<'a>,
}

/// What a log is read from.
#[derive(Clone, Copy, Debug)]
pub enum Origin<'a> {
    /// The path of a file.
    File(&'a str),
    /// The address of a server: a host and a port, as `127.0.0.1:7000`, `[::1]:7000` or `replica-2:7000`.
    Tcp(&'a str),
}

impl<'a> SourceWord<'a> {
    /// What `R=file:PATH` or `R=tcp:ADDRESS` says.
    pub fn of(word: &'a str) -> Option<SourceWord<'a>>
        ensures { MatchOption result ((source : SourceValue) → SpellsSource word.entry.now source → ⊥)
            (λ source. SpellsSource word.entry.now source) }
    {
        let (replica, origin) = word.split_once('=')?;
        Some(SourceWord {
            replica: number(replica)?,
            origin: Origin::of(origin)?,
        })
    }
}

impl<'a> Origin<'a> {
    fn of(text: &'a str) -> Option<Origin<'a>>
        ensures { MatchOption result ((origin : OriginValue) → SpellsOrigin text.entry.now origin → ⊥)
            (λ origin. SpellsOrigin text.entry.now origin) }
    {
        if let Some(path) = text.strip_prefix("file:") {
            return (!path.is_empty()).then_some(Origin::File(path));
        }
        let address = text.strip_prefix("tcp:")?;
        is_address(address.as_bytes()).then_some(Origin::Tcp(address))
    }
}

// Whether these are a host and a port, with a colon between them: the last one.
fn is_address(text: &[u8]) -> bool
    ensures { IsTrue result ↔ IsAddress text.now }
{
    match last_colon(text) {
        Some(colon) => is_host(&text[..colon]) && is_port(&text[colon + 1..]),
        None => false,
    }
}

fn last_colon(text: &[u8]) -> Option<usize>
    ensures { MatchOption result (HasNoColonFrom text.now 0) (IsLastColon text.now) }
{
    let mut end = text.len();
    while end > 0 {
        end -= 1;
        if text[end] == b':' {
            return Some(end);
        }
    }
    None
}

// A host that has a colon, as `[::1]`, stands in brackets.
fn is_host(host: &[u8]) -> bool
    ensures { IsTrue result ↔ IsHost host.now }
{
    if host.is_empty() {
        return false;
    }
    if last_colon(host).is_none() {
        return true;
    }
    host[0] == b'[' && host[host.len() - 1] == b']'
}

fn is_port(port: &[u8]) -> bool
    ensures { IsTrue result ↔ IsPort port.now }
{
    let Some(number) = number_in(port) else {
        return false;
    };
    if number < 1 || number > u64::from(u16::MAX) {
        return false;
    }
    true
}
