//! A line of a script that runs a program.

use std::alloc::{AllocError, Global};

/// What a line asks for: a program's name and words, and where its streams come from and go to.
#[derive(Drop)]
pub(crate) struct Line<'a> {
    pub name: &'a str,
    pub words: Vec<String>,
    /// The file that stands on standard input.
    pub input: Option<&'a str>,
    /// Whether standard output takes nothing.
    pub is_full: bool,
}

/// Reads `NAME WORD.. [< FILE] [> full]`. The word `''` is the empty one, and `^J` in a word a line feed.
pub(crate) fn line_of<'a>(alloc: Global, parts: &[&'a str]) -> Result<Line<'a>, AllocError> {
    let (parts, is_full) = match parts {
        [front @ .., ">", "full"] => (front, true),
        _ => (parts, false),
    };
    let (parts, input) = match parts {
        [front @ .., "<", path] => (front, Some(*path)),
        _ => (parts, None),
    };
    let (name, words) = match parts {
        [name, words @ ..] => (*name, words),
        [] => ("", parts),
    };
    Ok(Line {
        name,
        words: strings(alloc, words)?,
        input,
        is_full,
    })
}

fn strings(alloc: Global, words: &[&str]) -> Result<Vec<String>, AllocError> {
    let mut all = Vec::new(alloc);
    for word in words {
        let word = if *word == "''" { "" } else { *word };
        all.push(word.replace(alloc, "^J", "\n")?)?;
    }
    Ok(all)
}
