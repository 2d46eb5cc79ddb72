//! The words of the command line.

ghost use Rattle.std.specs.Prelude.{◌≡◌, ◌⊎◌, ◌↔◌, ◌++◌, IfErr, IfOk, IfSome, IsNone, IsTrue, OnOk, option_map};
ghost use Rattle.std.specs.List.{All, Contains};
ghost use Rattle.program_show.specs.Parts.{AreParts, IsCut, IsPlaceOfOption};
ghost use Rattle.program_show.specs.Words.{AskFor, IsPath, IsUsage, option_word, paths_in, texts};

use program_parts::{NoFault, ProgramFault};
use std::alloc::{AllocError, Global};

/// What the words ask for: files to show, and a committee to ask whether signatures are good.
#[derive(Drop)]
pub(crate) struct Words<'a> {
    pub files: Vec<&'a str>,
    pub committee: Option<&'a str>,
}

/// Reads `FILE.. [--committee C]`, without the program's name. The option may stand anywhere, once. A path is not
/// empty and begins with no `-`. Refused as usage where they are not so, before any memory is asked for.
pub(crate) fn read_words<'a>(
    alloc: Global,
    words: &'a [String],
) -> Result<Words<'a>, ProgramFault<'a, NoFault>>
    ensures read { IfOk result (λ asked. AskFor words.now (paths_in asked.files.items)
        (option_map (λ c. c.now) asked.committee)) }
    ensures refused { IfErr result (λ fault.
        ((fault ≡ ProgramFault.Usage) × IsUsage words.now)
        ⊎ ((fault ≡ ProgramFault.Memory) × (IsUsage words.now → ⊥))) }
{
    let Some(parts) = parts_of(words) else {
        return Err(ProgramFault::Usage);
    };
    Ok(Words {
        files: files_of(alloc, &parts)?,
        committee: parts.committee,
    })
}

// The words before `--committee`, the path behind it, and the words behind that.
#[derive(Clone, Copy)]
struct Parts<'a> {
    front: &'a [String],
    committee: Option<&'a str>,
    behind: &'a [String],
}

// The parts of words that are as written.
fn parts_of<'a>(words: &'a [String]) -> Option<Parts<'a>>
    ensures none { IsNone result → IsUsage words.now }
    ensures some { IfSome result (λ parts. AreParts words.now parts.front.now
        (option_map (λ c. c.now) parts.committee) parts.behind.now) }
{
    let parts = cut(words)?;
    if parts.front.is_empty() && parts.behind.is_empty() {
        return None;
    }
    if !are_paths(parts.front) {
        return None;
    }
    if !are_paths(parts.behind) {
        return None;
    }
    Some(parts)
}

// The parts, whatever stands before and behind the committee's path.
fn cut<'a>(words: &'a [String]) -> Option<Parts<'a>>
    ensures none { IsNone result → IsUsage words.now }
    ensures some { IfSome result (λ parts. IsCut words.now parts.front.now
        (option_map (λ c. c.now) parts.committee) parts.behind.now) }
{
    let Some(at) = place_of_option(words) else {
        return Some(Parts {
            front: words,
            committee: None,
            behind: &[],
        });
    };
    let [path, behind @ ..] = &words[at + 1..] else {
        return None;
    };
    let path = path.as_str();
    if !is_path(path) {
        return None;
    }
    Some(Parts {
        front: &words[..at],
        committee: Some(path),
        behind,
    })
}

fn place_of_option(words: &[String]) -> Option<usize>
    ensures none { IsNone result → Contains (texts words.now) option_word → ⊥ }
    ensures some { IfSome result (IsPlaceOfOption words.now) }
{
    for (i, word) in words.iter().enumerate() {
        if word.as_str() == "--committee" {
            return Some(i);
        }
    }
    None
}

fn are_paths(words: &[String]) -> bool
    ensures { IsTrue result ↔ All IsPath (texts words.now) }
{
    for word in words {
        if !is_path(word.as_str()) {
            return false;
        }
    }
    true
}

fn is_path(word: &str) -> bool
    ensures { IsTrue result ↔ IsPath word.now }
{
    match word.as_bytes() {
        [] => false,
        [first, ..] => *first != b'-',
    }
}

fn files_of<'a>(alloc: Global, parts: &Parts<'a>) -> Result<Vec<&'a str>, AllocError>
    ensures { IfOk result (λ files. paths_in files.items
        ≡ texts parts.now.front.now ++ texts parts.now.behind.now) }
{
    let mut files = Vec::new(alloc);
    put_files(&mut files, parts.front)?;
    put_files(&mut files, parts.behind)?;
    Ok(files)
}

fn put_files<'a>(files: &mut Vec<&'a str>, words: &'a [String]) -> Result<(), AllocError>
    ensures { OnOk result (paths_in files.new.items
        ≡ paths_in files.old.items ++ texts words.now) }
{
    for word in words {
        files.push(word.as_str())?;
    }
    Ok(())
}
