//! The words of the command line.

ghost use Rattle.std.specs.Prelude.{◌≡◌, ◌≢◌, ℕ, IfErr, IfOk, MatchOption, option_map};
ghost use Rattle.program_draw.specs.Words.{AreSources, AskFor, IsFirstBad, IsWordsFault, SpellsFile, SpellsNoFile, first_wrong, is_path};

use crate::fault::{DrawFault, Fault};
use program_parts::{Origin, ProgramFault, SourceFault, SourceWord};
use std::alloc::Global;

/// What the words ask for.
#[derive(Drop)]
pub(crate) enum Words<'a> {
    /// How the program is called.
    Usage,
    /// A picture of what these sources show under the committee of this file.
    Picture {
        committee: &'a str,
        sources: Vec<SourceFile<'a>>,
    },
}

/// A file that holds the log of a replica.
#[derive(Clone, Copy, Debug)]
pub(crate) struct SourceFile<'a> {
    pub replica: u16,
    pub path: &'a str,
}

impl<'a> SourceFile<'a> {
    // What `R=file:PATH` says.
    fn of(word: &'a str) -> Option<SourceFile<'a>>
        ensures { MatchOption result (SpellsNoFile word.entry.now)
            (λ source. SpellsFile word.entry.now source.replica source.path.now) }
    {
        let source = SourceWord::of(word)?;
        match source.origin {
            Origin::File(path) => Some(SourceFile {
                replica: source.replica,
                path,
            }),
            Origin::Tcp(_) => None,
        }
    }
}

/// Reads `COMMITTEE SOURCE..`, without the program's name, or no words. Neither the committee's path nor a source is empty or
/// begins with `-`: the first word that is so is named. Where a source is missing they are refused as usage. The first
/// source that is not as written is told by its number, from 0.
pub(crate) fn read_words<'a>(alloc: Global, words: &'a [String]) -> Result<Words<'a>, Fault<'a>>
    ensures read { IfOk result (AskFor words.now) }
    ensures refused { IfErr result (IsWordsFault words.now) }
{
    let [committee, rest @ ..] = words else {
        return Ok(Words::Usage);
    };
    if let Some(word) = first_wrong(words) {
        return Err(ProgramFault::Own(DrawFault::Word(word)));
    }
    if rest.is_empty() {
        return Err(ProgramFault::Usage);
    }
    let committee = committee.as_str();
    let sources = read_sources(alloc, rest)?;
    Ok(Words::Picture { committee, sources })
}

fn is_path(word: &str) -> bool
    ensures { result ≡ is_path word.now }
{
    match word.as_bytes() {
        [] => false,
        [first, ..] => *first != b'-',
    }
}

// The first of these that is no path; no source begins with `-`.
#[tactic(auto, unfolding(crate::specs::Words::first_wrong))]
fn first_wrong<'a>(words: &'a [String]) -> Option<&'a str>
    ensures { option_map (λ w. w.now) result ≡ first_wrong words.now }
{
    let mut left = words;
    while let [word, rest @ ..] = left {
        if !is_path(word.as_str()) {
            return Some(word.as_str());
        }
        left = rest;
    }
    None
}

fn read_sources<'a>(alloc: Global, words: &'a [String]) -> Result<Vec<SourceFile<'a>>, Fault<'a>>
    ensures read { IfOk result (λ sources. AreSources words.now sources.items) }
    ensures refused { IfErr result (λ fault. fault ≢ ProgramFault.Memory
        → (i : ℕ) × (fault ≡ ProgramFault.Own (DrawFault.Sources (SourceFault.Word i))) × IsFirstBad words.now i) }
{
    let mut sources = Vec::new(alloc);
    for (i, word) in words.iter().enumerate() {
        match SourceFile::of(word) {
            Some(source) => sources.push(source)?,
            None => {
                let fault = SourceFault::Word(i);
                return Err(ProgramFault::Own(DrawFault::Sources(fault)));
            }
        }
    }
    Ok(sources)
}
