//! The words of the command line.

ghost use Rattle.std.specs.Prelude.{◌≡◌, ◌≢◌, ◌↔◌, ℕ, IfErr, IfOk, IsTrue, Some};
ghost use Rattle.program_follow.specs.LineageWords.{AreSources, AskForLineage, AskToFetch, IsFetchFault, IsFirstBad, IsWordsFault, NameLineage, first_wrong, is_path, or_else, word_in, wrong_behind, wrong_path, wrong_word};

use crate::lineage_fault::{Fault, LineageFault};
use program_parts::{ProgramFault, SourceWord};
use std::alloc::Global;

/// What the words ask for.
#[derive(Drop)]
pub(crate) struct LineageWords<'a> {
    /// The path of the file of the committee that the lineage begins with.
    pub root: &'a str,
    /// The folder of the lineage.
    pub dir: &'a str,
    /// Who is asked for what comes next. Those that are files have nothing of it.
    pub sources: Vec<SourceWord<'a>>,
}

/// Whether the second word is `--lineage`.
pub fn asks_for_lineage(words: &[String]) -> bool
    ensures { IsTrue result ↔ NameLineage words.now }
{
    match words {
        [_, form, ..] => form.as_str() == "--lineage",
        _ => false,
    }
}

/// Reads `C0 --lineage DIR [--fetch SOURCE..]`, of which the second word was looked at. No path is empty or begins with `-`; the first word
/// that is not so is named, and one behind DIR that is not `--fetch`. Where there is no DIR, or no source after `--fetch`, they are
/// refused as usage. The first source that is not as written is told by its number, from 0.
pub(crate) fn read_words<'a>(
    alloc: Global,
    words: &'a [String],
) -> Result<LineageWords<'a>, Fault<'a>>
    ensures read { IfOk result (λ w.
        AskForLineage words.now w.root.now w.dir.now w.sources.items) }
    ensures refused { IfErr result (IsWordsFault words.now) }
{
    if let Some(word) = wrong_word(words) {
        return Err(ProgramFault::Own(LineageFault::Word(word)));
    }
    let [root, _form, dir, behind @ ..] = words else {
        return Err(ProgramFault::Usage);
    };
    let sources = read_fetch(alloc, behind)?;
    Ok(LineageWords {
        root: root.as_str(),
        dir: dir.as_str(),
        sources,
    })
}

// ---- which word is wrong

fn is_path(word: &str) -> bool
    ensures { result ≡ is_path word.now }
{
    match word.as_bytes().first() {
        Some(first) => *first != b'-',
        None => false,
    }
}

// The word, if it is no path.
fn wrong_path(word: &str) -> Option<&str>
    ensures { word_in result ≡ wrong_path word.now }
{
    if is_path(word) { None } else { Some(word) }
}

// The first of these that is none.
#[tactic(auto, unfolding(crate::specs::LineageWords::first_wrong))]
fn first_wrong<'a>(words: &'a [String]) -> Option<&'a str>
    ensures { word_in result ≡ first_wrong words.now }
{
    let mut left = words;
    while let [word, rest @ ..] = left {
        if !is_path(word.as_str()) {
            return Some(word.as_str());
        }
        left = rest;
    }
    None
}

// Of those behind the folder.
fn wrong_behind<'a>(words: &'a [String]) -> Option<&'a str>
    ensures { word_in result ≡ wrong_behind words.now }
{
    match words {
        [] => None,
        [name, sources @ ..] if name.as_str() == "--fetch" => first_wrong(sources),
        [name, ..] => Some(name.as_str()),
    }
}

// The first of the two.
fn or_else<'a>(word: Option<&'a str>, other: Option<&'a str>) -> Option<&'a str>
    ensures { word_in result ≡ or_else (word_in word.entry) (word_in other.entry) }
{
    match word {
        Some(_) => word,
        None => other,
    }
}

fn wrong_word<'a>(words: &'a [String]) -> Option<&'a str>
    ensures { word_in result ≡ wrong_word words.now }
{
    match words {
        [] => None,
        [root] => wrong_path(root.as_str()),
        [root, _form] => wrong_path(root.as_str()),
        [root, _form, dir, behind @ ..] => {
            let later = or_else(wrong_path(dir.as_str()), wrong_behind(behind));
            or_else(wrong_path(root.as_str()), later)
        }
    }
}

// ---- sources

// The sources behind `--fetch`, if it is there.
fn read_fetch<'a>(alloc: Global, words: &'a [String]) -> Result<Vec<SourceWord<'a>>, Fault<'a>>
    ensures read { IfOk result (λ sources. AskToFetch words.now sources.items) }
    ensures refused { IfErr result (IsFetchFault words.now) }
{
    match words {
        [] => Ok(Vec::new(alloc)),
        [_name] => Err(ProgramFault::Usage),
        [_name, sources @ ..] => read_sources(alloc, sources),
    }
}

fn read_sources<'a>(alloc: Global, words: &'a [String]) -> Result<Vec<SourceWord<'a>>, Fault<'a>>
    ensures read { IfOk result (λ sources. AreSources words.now sources.items) }
    ensures refused { IfErr result (λ fault. fault ≢ ProgramFault.Memory
        → (i : ℕ) × (fault ≡ ProgramFault.Own (LineageFault.Source i)) × IsFirstBad words.now i) }
{
    let mut sources = Vec::with_capacity(alloc, words.len())?;
    for (i, word) in words.iter().enumerate() {
        match SourceWord::of(word) {
            Some(source) => sources.push(source)?,
            None => return Err(ProgramFault::Own(LineageFault::Source(i))),
        }
    }
    Ok(sources)
}
