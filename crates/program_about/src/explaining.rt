//! What a printed line means.

ghost use Rattle.std.specs.Prelude.{◌≡◌, ◌++◌, IfOk, OnOk};
ghost use Rattle.program_about.specs.Explaining.{AreSaid, IsSaid, said};

use crate::table::table;
use base_wire::append;
use std::alloc::AllocError;

// How many words may stand in front of a line: a time, `round` and its number, `committee` and its number; or a path.
const MOST_WORDS_IN_FRONT: usize = 5;

/// Adds what the table says of a line as it was printed: for each row that fits it which programs print it, what it means and what to
/// do. If none does, of the line without its first word, its first two, and so on. Answers whether there is such a row. Memory is
/// all that can fail, and then a first part was added.
pub(crate) fn put_explanations(text: &mut Vec<u8>, printed: &str) -> Result<bool, AllocError>
    ensures { IfOk result (λ is_known. AreSaid text.old.items text.new.items is_known) }
{
    put_behind(text, printed, MOST_WORDS_IN_FRONT)
}

// The same where so many words may stand in front.
fn put_behind(text: &mut Vec<u8>, printed: &str, most: usize) -> Result<bool, AllocError>
    ensures { IfOk result (λ is_known. AreSaid text.old.items text.new.items is_known) }
{
    if put_rows(text, printed)? {
        return Ok(true);
    }
    if most == 0 {
        return Ok(false);
    }
    match printed.split_once(' ') {
        Some((_, rest)) => put_behind(text, rest, most - 1),
        None => Ok(false),
    }
}

// Adds what the table says of a line, and answers whether it says something.
#[tactic(auto, using(crate::proofs::Sayings::said_no_more))]
fn put_rows(text: &mut Vec<u8>, line: &str) -> Result<bool, AllocError>
    ensures { IfOk result (λ is_known. AreSaid text.old.items text.new.items is_known) }
{
    let mut is_known = false;
    for row in table().split('\n') {
        if put_row(text, row, line)? {
            is_known = true;
        }
    }
    Ok(is_known)
}

// Adds what a row says, if it fits the line, and answers whether it does.
fn put_row(text: &mut Vec<u8>, row: &str, line: &str) -> Result<bool, AllocError>
    ensures { IfOk result (λ is_said. IsSaid text.old.items text.new.items is_said) }
{
    let Some((programs, rest)) = row.split_once(" | ") else {
        return Ok(false);
    };
    let Some((form, rest)) = rest.split_once(" | ") else {
        return Ok(false);
    };
    let Some((meaning, advice)) = rest.split_once(" | ") else {
        return Ok(false);
    };
    if !fits(form, line) {
        return Ok(false);
    }
    put_said(text, programs, meaning, advice)?;
    Ok(true)
}

#[tactic(auto, unfolding(crate::specs::Explaining::said))]
fn put_said(
    text: &mut Vec<u8>,
    programs: &str,
    meaning: &str,
    advice: &str,
) -> Result<(), AllocError>
    ensures { OnOk result (text.new.items ≡ text.old.items
        ++ said programs.now meaning.now advice.now) }
{
    append(text, programs.as_bytes())?;
    append(text, b": ")?;
    append(text, meaning.as_bytes())?;
    append(text, b"\n  ")?;
    append(text, advice.as_bytes())?;
    append(text, b"\n")
}

// Whether a line has the form: word by word, and behind a word that ends in `..` any words.
fn fits(form: &str, line: &str) -> bool {
    let mut words = line.split(' ');
    for place in form.split(' ') {
        let Some(word) = words.next() else {
            return false;
        };
        if place.ends_with("..") {
            return true;
        }
        if !takes(place, word) {
            return false;
        }
    }
    words.next().is_none()
}

// Whether a word of a form takes this one: `=WORD` takes WORD alone, also where that is in capitals.
fn takes(place: &str, word: &str) -> bool {
    match place.strip_prefix("=") {
        Some(exact) => exact == word,
        None => place == word || stands_before_a_comma(place, word) || stands_for(place, word),
    }
}

// Whether both end in a comma, and the word of the form stands for what is before it.
fn stands_before_a_comma(place: &str, word: &str) -> bool {
    match (place.strip_suffix(","), word.strip_suffix(",")) {
        (Some(place), Some(word)) => stands_for(place, word),
        _ => false,
    }
}

// Whether a word of a form stands for this one: one in capitals for any, and where it is one letter for a number.
fn stands_for(place: &str, word: &str) -> bool {
    let in_capitals = place.bytes().all(|byte| byte.is_ascii_uppercase());
    in_capitals && (place.len() > 1 || is_number(word))
}

fn is_number(word: &str) -> bool {
    !word.is_empty() && word.bytes().all(|byte| byte.is_ascii_digit())
}
