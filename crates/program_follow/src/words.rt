//! The words of the command line.

ghost use Rattle.std.specs.Prelude.{◌≡◌, ◌≢◌, ◌↔◌, ℕ, IfErr, IfOk, IsTrue};
ghost use Rattle.program_follow.specs.Words.{AreSources, AskFor, IsFirstBad, IsWordsFault, before_proof, before_renewal, ends_with, first_wrong, is_path, light_of, or_else, path_behind, path_in, proof_of, renewal_of, words_before, wrong_path, wrong_word};

use crate::fault::{Fault, FollowFault};
use program_parts::{ProgramFault, SourceFault, SourceWord};
use std::alloc::Global;

/// What the words ask for.
#[derive(Drop)]
pub(crate) enum Words<'a> {
    /// How the program is called.
    Usage,
    /// One step.
    Step(Step<'a>),
}

/// From one committee to the next.
#[derive(Drop)]
pub(crate) struct Step<'a> {
    /// The path of the file of the committee that may have handed over.
    pub old: &'a str,
    /// The path of the file of the committee that is to come next.
    pub new: &'a str,
    /// The logs of the old committee's replicas.
    pub sources: Vec<SourceWord<'a>>,
    /// The path of a renewal, if one is judged.
    pub renewal: Option<&'a str>,
    /// The path that the proof goes to, if one is asked for.
    pub proof: Option<&'a str>,
    /// The path that the light proof goes to, if one is asked for.
    pub light: Option<&'a str>,
}

/// Reads `OLD NEW SOURCE.. [--renewal FILE] [--proof OUT] [--light OUT]`, without the program's name, or no words. No path and no source is
/// empty or begins with `-`: the first word that is so is named. Where NEW or a source is missing they are refused as usage. The first
/// source that is not as written is told by its number, from 0.
pub(crate) fn read_words<'a>(alloc: Global, words: &'a [String]) -> Result<Words<'a>, Fault<'a>>
    ensures read { IfOk result (AskFor words.now) }
    ensures refused { IfErr result (IsWordsFault words.now) }
{
    if words.is_empty() {
        return Ok(Words::Usage);
    }
    if let Some(word) = wrong_word(words) {
        return Err(ProgramFault::Own(FollowFault::Word(word)));
    }
    let [old, new, sources @ ..] = before_renewal(words) else {
        return Err(ProgramFault::Usage);
    };
    if sources.is_empty() {
        return Err(ProgramFault::Usage);
    }
    Ok(Words::Step(Step {
        old: old.as_str(),
        new: new.as_str(),
        sources: read_sources(alloc, sources)?,
        renewal: renewal_of(words),
        proof: proof_of(words),
        light: light_of(words),
    }))
}

// Whether this name stands before the last word.
fn ends_with(words: &[String], name: &str) -> bool
    ensures { IsTrue result ↔ IsTrue (ends_with name.now words.now) }
{
    words.len() >= 2 && words[words.len() - 2].as_str() == name
}

// The last word, behind it.
fn path_behind<'a>(words: &'a [String], name: &str) -> Option<&'a str>
    ensures { path_in result ≡ path_behind name.now words.now }
{
    if ends_with(words, name) {
        Some(words[words.len() - 1].as_str())
    } else {
        None
    }
}

// The words before it.
fn words_before<'a>(words: &'a [String], name: &str) -> &'a [String]
    ensures { result.now ≡ words_before name.now words.now }
{
    if ends_with(words, name) {
        &words[..words.len() - 2]
    } else {
        words
    }
}

// The words before the names of both proofs' paths.
fn before_proof<'a>(words: &'a [String]) -> &'a [String]
    ensures { result.now ≡ before_proof words.now }
{
    words_before(words_before(words, "--light"), "--proof")
}

// The path of the renewal, which stands before these names.
#[tactic(auto, unfolding(crate::specs::Words::renewal_of))]
fn renewal_of<'a>(words: &'a [String]) -> Option<&'a str>
    ensures { path_in result ≡ renewal_of words.now }
{
    path_behind(before_proof(words), "--renewal")
}

// The path of the proof, which stands before the name of the light proof's.
#[tactic(auto, unfolding(crate::specs::Words::proof_of))]
fn proof_of<'a>(words: &'a [String]) -> Option<&'a str>
    ensures { path_in result ≡ proof_of words.now }
{
    path_behind(words_before(words, "--light"), "--proof")
}

// The path of the light proof.
#[tactic(auto, unfolding(crate::specs::Words::light_of))]
fn light_of<'a>(words: &'a [String]) -> Option<&'a str>
    ensures { path_in result ≡ light_of words.now }
{
    path_behind(words, "--light")
}

// The words before all three.
#[tactic(auto, unfolding(crate::specs::Words::before_renewal))]
fn before_renewal<'a>(words: &'a [String]) -> &'a [String]
    ensures { result.now ≡ before_renewal words.now }
{
    words_before(before_proof(words), "--renewal")
}

// ---- which word is wrong

fn is_path(word: &str) -> bool
    ensures { result ≡ is_path word.now }
{
    match word.as_bytes().first() {
        Some(first) => *first != b'-',
        None => false,
    }
}

// The first of these that is no path.
#[tactic(auto, unfolding(crate::specs::Words::first_wrong))]
fn first_wrong<'a>(words: &'a [String]) -> Option<&'a str>
    ensures { path_in result ≡ first_wrong words.now }
{
    let mut left = words;
    while let [word, rest @ ..] = left {
        if !is_path(word.as_str()) {
            return Some(word.as_str());
        }
        left = rest;
    }
    None
}

// The path, if there is one and it is none.
fn wrong_path<'a>(path: Option<&'a str>) -> Option<&'a str>
    ensures { path_in result ≡ wrong_path (path_in path.entry) }
{
    match path {
        Some(word) if !is_path(word) => Some(word),
        _ => None,
    }
}

// The first of the two.
fn or_else<'a>(word: Option<&'a str>, other: Option<&'a str>) -> Option<&'a str>
    ensures { path_in result ≡ or_else (path_in word.entry) (path_in other.entry) }
{
    match word {
        Some(_) => word,
        None => other,
    }
}

// Of all words.
fn wrong_word<'a>(words: &'a [String]) -> Option<&'a str>
    ensures { path_in result ≡ wrong_word words.now }
{
    let last = or_else(wrong_path(proof_of(words)), wrong_path(light_of(words)));
    let paths = or_else(wrong_path(renewal_of(words)), last);
    or_else(first_wrong(before_renewal(words)), paths)
}

// ---- sources

fn read_sources<'a>(alloc: Global, words: &'a [String]) -> Result<Vec<SourceWord<'a>>, Fault<'a>>
    ensures read { IfOk result (λ sources. AreSources words.now sources.items) }
    ensures refused { IfErr result (λ fault. fault ≢ ProgramFault.Memory
        → (i : ℕ) × (fault ≡ ProgramFault.Own (FollowFault.Sources (SourceFault.Word i)))
        × IsFirstBad words.now i) }
{
    let mut sources = Vec::with_capacity(alloc, words.len())?;
    for (i, word) in words.iter().enumerate() {
        match SourceWord::of(word) {
            Some(source) => sources.push(source)?,
            None => {
                let fault = SourceFault::Word(i);
                return Err(ProgramFault::Own(FollowFault::Sources(fault)));
            }
        }
    }
    Ok(sources)
}
