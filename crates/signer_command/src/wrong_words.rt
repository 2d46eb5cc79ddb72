//! Which word of the command line is wrong.

ghost use Rattle.std.specs.Prelude.{◌≡◌, ◌↔◌, IsTrue};
ghost use Rattle.signer_command.specs.WrongWords.{IsFirstWrong, IsGood, IsPlain, IsValue, is_dashed, is_place, is_switch, next_awaited, takes_of, word_in, next_named};

use base_text::number_in;
use program_parts::{SourceWord, number};
use signer_calls::id_in;

/// What an option takes.
#[derive(Clone, Copy)]
pub(crate) enum Takes {
    /// `unix:PATH` or `tcp:ADDRESS`.
    Place,
    /// A name, a path or an address.
    Name,
    /// 1 to 64.
    Sessions,
    /// A number below 2^64.
    View,
    /// A number below 65,536.
    Count,
    /// An id.
    Chain,
    /// A source.
    Source,
}

/// What is named by its place alone.
#[derive(Clone, Copy)]
pub(crate) enum Named {
    Committee,
    Replica,
    Folder,
    /// Nothing more.
    Nothing,
}

/// What the next word is to be.
#[derive(Clone, Copy)]
pub(crate) enum Awaited {
    /// What is named next, or an option.
    Word(Named),
    /// What an option takes; behind it this is named next.
    Value(Takes, Named),
}

/// The first word that is wrong by itself, if one is: not what its option takes, no option that there is, no number where one is to be,
/// empty, or one too many.
pub(crate) fn first_wrong<'a>(words: &'a [String]) -> Option<&'a str>
    ensures { IsFirstWrong (Awaited.Word Named.Committee) words.now (word_in result) }
{
    let mut left = words;
    let mut awaited = Awaited::Word(Named::Committee);
    while let [word, rest @ ..] = left {
        if !is_good(awaited, word.as_str()) {
            return Some(word.as_str());
        }
        awaited = next_awaited(awaited, word.as_str());
        left = rest;
    }
    None
}

fn is_good(awaited: Awaited, word: &str) -> bool
    ensures { IsTrue result ↔ IsGood awaited word.now }
{
    match awaited {
        Awaited::Value(takes, _) => is_value(takes, word),
        Awaited::Word(named) => is_switch(word)
            || takes_of(word).is_some()
            || is_plain(named, word),
    }
}

fn next_awaited(awaited: Awaited, word: &str) -> Awaited
    ensures { result ≡ next_awaited awaited word.now }
{
    match awaited {
        Awaited::Value(_, named) => Awaited::Word(named),
        Awaited::Word(named) => {
            if is_switch(word) {
                return awaited;
            }
            match takes_of(word) {
                Some(takes) => Awaited::Value(takes, named),
                None => Awaited::Word(named.next()),
            }
        }
    }
}

impl Named {
    fn next(self) -> Named
        ensures { result ≡ next_named self }
    {
        match self {
            Named::Committee => Named::Replica,
            Named::Replica => Named::Folder,
            Named::Folder | Named::Nothing => Named::Nothing,
        }
    }
}

fn is_switch(word: &str) -> bool
    ensures { result ≡ is_switch word.now }
{
    word == "--group" || word == "--while-input" || word == "--verbose" || word == "--renew"
}

fn takes_of(word: &str) -> Option<Takes>
    ensures { result ≡ takes_of word.now }
{
    if word == "--listen" {
        Some(Takes::Place)
    } else if word == "--ask" {
        Some(Takes::Source)
    } else if word == "--sessions" {
        Some(Takes::Sessions)
    } else if word == "--furthest" {
        Some(Takes::View)
    } else if word == "--keep" {
        Some(Takes::Count)
    } else if word == "--compared" {
        Some(Takes::Chain)
    } else if word == "--read" || word == "--serve" || word == "--successor" || word == "--host" {
        Some(Takes::Name)
    } else {
        None
    }
}

fn is_dashed(word: &str) -> bool
    ensures { result ≡ is_dashed word.now }
{
    word.len() > 1 && word.starts_with("-")
}

// Whether the word is what is named next.
fn is_plain(named: Named, word: &str) -> bool
    ensures { IsTrue result ↔ IsPlain named word.now }
{
    match named {
        Named::Committee | Named::Folder => !word.is_empty() && !is_dashed(word),
        Named::Replica => number(word).is_some(),
        Named::Nothing => false,
    }
}

fn is_value(takes: Takes, word: &str) -> bool
    ensures { IsTrue result ↔ IsValue takes word.now }
{
    match takes {
        Takes::Place => is_place(word),
        Takes::Name => !word.is_empty() && !is_dashed(word),
        Takes::Sessions => match number(word) {
            Some(count) => 1 <= count && count <= 64,
            None => false,
        },
        Takes::View => number_in(word.as_bytes()).is_some(),
        Takes::Count => number(word).is_some(),
        Takes::Chain => id_in(word.as_bytes()).is_some(),
        Takes::Source => SourceWord::of(word).is_some(),
    }
}

fn is_place(word: &str) -> bool
    ensures { result ≡ is_place word.now }
{
    (word.starts_with("unix:") && word.len() > 5) || (word.starts_with("tcp:") && word.len() > 4)
}
