//! How a watch is called.

ghost use Rattle.std.specs.Prelude.{◌≡◌, ◌≢◌, ◌≤◌, IfErr, IfOk, IfSome, length};

use crate::fault::{Fault, WatchFault};
use base_text::number_in;
use clap::error::ErrorKind;
use clap::{Arg, ArgAction, ArgMatches, Command as Grammar, Error};
use program_parts::{Origin, ProgramFault, SourceFault, SourceWord, number};
use std::alloc::{AllocError, Global};

/// How many sources a watch has at most.
pub const MOST_SOURCES: usize = 64;

/// The option with which standard input is read to its end.
pub const READS_INPUT: &str = "--until-input-ends";

/// How many milliseconds lie between two rounds of a source, where nothing is said.
const EVERY: u32 = 1_000;

/// After how many seconds all of a log is read anew, where nothing is said, and at most.
const REREAD: u64 = 3_600;

const MOST_REREAD: u64 = 86_400;

/// What the words ask for.
#[derive(Drop)]
pub(crate) struct Words<'a> {
    pub committee: &'a str,
    pub folder: &'a str,
    pub sources: Vec<SourceWord<'a>>,
    /// The words of the sources, as they were given.
    pub source_words: Vec<&'a str>,
    /// How many milliseconds lie between two rounds of a source.
    pub every: u32,
    /// After how many seconds all of a log is read anew.
    pub reread: u64,
    pub until_culprit: bool,
    pub until_input_ends: bool,
    /// Where what the watch knows is told over HTTP, if it is.
    pub listen: Option<&'a str>,
    /// The names that a `Host` may have there, besides `localhost` and addresses.
    pub hosts: Vec<String>,
    /// The name that its page has; that of the machine where none is said.
    pub name: Option<&'a str>,
    /// Where what is read is kept, if it is.
    pub state: Option<&'a str>,
    /// How many bytes may stand there in all.
    pub keep_most: u64,
    /// Whether it goes over with the ledger.
    pub lineage: bool,
}

/// Of which source what was kept is given out, and where.
#[derive(Clone, Copy, Debug)]
pub(crate) struct ExportWords<'a> {
    pub replica: u16,
    /// Which of the sources of that replica it is, from 0.
    pub source: u16,
    /// The folder that gets a file for each log.
    pub folder: &'a str,
    /// Where it was kept.
    pub state: &'a str,
}

/// What there is to do.
#[derive(Drop)]
pub(crate) enum Task<'a> {
    Watch(Words<'a>),
    Export(ExportWords<'a>),
}

/// Reads the words, without the program's name. Refused as usage where they are not written as docs/hs_watch.md says, with the first
/// word that is wrong where one can be named, and else for the first source that is not.
pub(crate) fn read_words<'a>(alloc: Global, words: &'a [String]) -> Result<Task<'a>, Fault<'a>>
    ensures refused { IfErr result (λ fault. fault ≢ ProgramFault.Output) }
{
    match task_in(alloc, words) {
        Err(ProgramFault::Usage) => match wrong_word(words) {
            Some(word) => Err(Fault::Own(WatchFault::Word(word))),
            None => Err(ProgramFault::Usage),
        },
        read => read,
    }
}

fn task_in<'a>(alloc: Global, words: &'a [String]) -> Result<Task<'a>, Fault<'a>>
    ensures refused { IfErr result (λ fault. fault ≢ ProgramFault.Output) }
{
    // `clap` would pass over it.
    if words.iter().any(|word| word.as_str() == "--") {
        return Err(ProgramFault::Usage);
    }
    match parsed(alloc, words) {
        Ok(matches) if is_set(&matches, "export") => exported(&matches),
        Ok(matches) => match given(alloc, &matches) {
            Ok(words) => Ok(Task::Watch(words)),
            Err(fault) => Err(fault),
        },
        Err(error) if error.kind() == ErrorKind::OutOfMemory => Err(ProgramFault::Memory),
        Err(_) => Err(ProgramFault::Usage),
    }
}

fn parsed<'a>(alloc: Global, words: &'a [String]) -> Result<ArgMatches<'a>, Error> {
    let grammar = Grammar::new(alloc, "hs_watch").no_binary_name(true);
    with_switches(alloc, with_places(alloc, grammar)?)?.try_get_matches_from(words)
}

fn with_places<'a>(alloc: Global, grammar: Grammar<'a>) -> Result<Grammar<'a>, AllocError> {
    let sources = Arg::new(alloc, "SOURCE")
        .num_args(0..)
        .action(ArgAction::Append);
    grammar
        .arg(Arg::new(alloc, "COMMITTEE").required(true))?
        .arg(Arg::new(alloc, "OUTDIR").required(true))?
        .arg(sources)
}

fn with_switches<'a>(alloc: Global, grammar: Grammar<'a>) -> Result<Grammar<'a>, AllocError> {
    let host = Arg::new(alloc, "HOST")
        .long("host")
        .action(ArgAction::Append);
    grammar
        .arg(Arg::new(alloc, "SECONDS").long("every"))?
        .arg(Arg::new(alloc, "REREAD").long("reread"))?
        .arg(Arg::new(alloc, "ADDRESS").long("listen"))?
        .arg(Arg::new(alloc, "DIR").long("state"))?
        .arg(Arg::new(alloc, "BYTES").long("keep-most"))?
        .arg(Arg::new(alloc, "NAME").long("name"))?
        .arg(host)?
        .arg(switch(alloc, "export"))?
        .arg(switch(alloc, "lineage"))?
        .arg(switch(alloc, "until-culprit"))?
        .arg(switch(alloc, "until-input-ends"))
}

fn switch<'a>(alloc: Global, name: &'a str) -> Arg<'a> {
    Arg::new(alloc, name).long(name).action(ArgAction::SetTrue)
}

// The options that go with `--state` alone where what was kept is given out.
const NOT_OF_AN_EXPORT: [&str; 6] = ["SECONDS", "REREAD", "ADDRESS", "BYTES", "NAME", "HOST"];

const WATCH_SWITCHES: [&str; 3] = ["until-culprit", "until-input-ends", "lineage"];

// `R-I OUT`, with nothing beside them but where it was kept.
fn exported<'a>(matches: &ArgMatches<'a>) -> Result<Task<'a>, Fault<'a>>
    ensures refused { IfErr result (λ fault. fault ≢ ProgramFault.Output) }
{
    let (Some(source), Some(folder), Some(state)) = (
        matches.get_str("COMMITTEE"),
        matches.get_str("OUTDIR"),
        matches.get_str("DIR"),
    ) else {
        return Err(ProgramFault::Usage);
    };
    let has_more = NOT_OF_AN_EXPORT
        .iter()
        .any(|name| matches.get_strs(name).is_some());
    let is_watch = WATCH_SWITCHES.iter().any(|name| is_set(matches, name));
    if has_more || is_watch || !matches.get_strs("SOURCE").unwrap_or(&[]).is_empty() {
        return Err(ProgramFault::Usage);
    }
    match source_in(source) {
        Some((replica, source)) if !folder.is_empty() && !state.is_empty() => {
            Ok(Task::Export(ExportWords {
                replica,
                source,
                folder,
                state,
            }))
        }
        _ => Err(ProgramFault::Usage),
    }
}

// `R-I`: a replica, and which of its sources.
fn source_in(word: &str) -> Option<(u16, u16)> {
    let (replica, source) = word.split_once('-')?;
    Some((number(replica)?, number(source)?))
}

fn given<'a>(alloc: Global, matches: &ArgMatches<'a>) -> Result<Words<'a>, Fault<'a>>
    ensures refused { IfErr result (λ fault. fault ≢ ProgramFault.Output) }
{
    let (Some(committee), Some(folder), Some(every), Some(reread), Some(keep_most)) = (
        matches.get_str("COMMITTEE"),
        matches.get_str("OUTDIR"),
        every_in(matches.get_str("SECONDS")),
        reread_in(matches.get_str("REREAD")),
        keep_most_in(matches.get_str("BYTES")),
    ) else {
        return Err(ProgramFault::Usage);
    };
    let sources = matches.get_strs("SOURCE").unwrap_or(&[]);
    if committee.is_empty()
        || folder.is_empty()
        || sources.is_empty()
        || sources.len() > MOST_SOURCES
    {
        return Err(ProgramFault::Usage);
    }
    let words = Words {
        committee,
        folder,
        sources: sources_in(alloc, sources)?,
        source_words: sources.to_vec(alloc)?,
        every,
        reread,
        until_culprit: is_set(matches, "until-culprit"),
        until_input_ends: is_set(matches, "until-input-ends"),
        listen: matches.get_str("ADDRESS"),
        hosts: hosts_in(alloc, matches)?,
        name: matches.get_str("NAME"),
        state: matches.get_str("DIR"),
        keep_most,
        lineage: is_set(matches, "lineage"),
    };
    if words.state.is_none() && matches.get_str("BYTES").is_some() {
        return Err(ProgramFault::Usage);
    }
    judged(words)
}

// The place for HTTP is not empty, and where there is none no host is named, nor the watch itself; its name and the folder of what is
// kept are not empty.
fn judged<'a>(words: Words<'a>) -> Result<Words<'a>, Fault<'a>>
    ensures refused { IfErr result (λ fault. fault ≢ ProgramFault.Output) }
{
    if words.state == Some("") {
        return Err(ProgramFault::Usage);
    }
    if words.listen == Some("") || words.name == Some("") {
        return Err(ProgramFault::Usage);
    }
    if words.listen.is_none() && (!words.hosts.is_empty() || words.name.is_some()) {
        return Err(ProgramFault::Usage);
    }
    match file_in_lineage(&words) {
        Some(word) => Err(Fault::Own(WatchFault::Word(word))),
        None => Ok(words),
    }
}

// A file is of one committee: the first word that names one where the watch is to go over.
fn file_in_lineage<'a>(words: &Words<'a>) -> Option<&'a str> {
    if !words.lineage {
        return None;
    }
    for (word, source) in words.source_words.iter().zip(words.sources.iter()) {
        if let Origin::File(_) = source.origin {
            return Some(*word);
        }
    }
    None
}

// The names, in lower case, as the names in requests are compared.
fn hosts_in<'a>(alloc: Global, matches: &ArgMatches<'a>) -> Result<Vec<String>, Fault<'a>>
    ensures refused { IfErr result (λ fault. fault ≢ ProgramFault.Output) }
{
    let mut hosts = Vec::new(alloc);
    for name in matches.get_strs("HOST").unwrap_or(&[]) {
        if name.is_empty() {
            return Err(ProgramFault::Usage);
        }
        hosts.push(name.to_ascii_lowercase(alloc)?)?;
    }
    Ok(hosts)
}

fn is_set(matches: &ArgMatches<'_>, name: &str) -> bool {
    matches.get_str(name) == Some("true")
}

// The sources that the words name. The first word that is not as written is the fault, counted from 0.
fn sources_in<'a>(alloc: Global, words: &[&'a str]) -> Result<Vec<SourceWord<'a>>, Fault<'a>>
    ensures refused { IfErr result (λ fault. fault ≢ ProgramFault.Output) }
{
    let mut sources = Vec::new(alloc);
    for (i, word) in words.iter().enumerate() {
        match SourceWord::of(word) {
            Some(source) => sources.push(source)?,
            None => return Err(Fault::Own(WatchFault::Sources(SourceFault::Word(i)))),
        }
    }
    Ok(sources)
}

fn every_in(word: Option<&str>) -> Option<u32>
    ensures { IfSome result (λ every. (100 ≤ every) × (every ≤ 3600000)) }
{
    let every = match word {
        Some(word) => milliseconds_in(word)?,
        None => u64::from(EVERY),
    };
    if every < 100 || every > 3_600_000 {
        return None;
    }
    Some(every as u32)
}

fn reread_in(word: Option<&str>) -> Option<u64>
    ensures { IfSome result (λ reread. (1 ≤ reread) × (reread ≤ 86400)) }
{
    let reread = match word {
        Some(word) => number_in(word.as_bytes())?,
        None => REREAD,
    };
    if reread < 1 || reread > MOST_REREAD {
        return None;
    }
    Some(reread)
}

// How many bytes may be kept: without a word as many as there may be.
fn keep_most_in(word: Option<&str>) -> Option<u64> {
    match word {
        Some(word) => number_in(word.as_bytes()),
        None => Some(u64::MAX),
    }
}

// So many seconds as milliseconds: a number, and behind a point one to three digits, if there is one.
fn milliseconds_in(word: &str) -> Option<u64> {
    let Some((whole, part)) = word.split_once('.') else {
        return number_in(word.as_bytes())?.checked_mul(1_000);
    };
    let whole = number_in(whole.as_bytes())?.checked_mul(1_000)?;
    whole.checked_add(thousandths(part.as_bytes())?)
}

// The thousandths that one to three digits behind a point stand for.
fn thousandths(digits: &[u8]) -> Option<u64> {
    if digits.is_empty() || digits.len() > 3 {
        return None;
    }
    let mut worth: u64 = 100;
    let mut sum: u64 = 0;
    for digit in digits {
        if !digit.is_ascii_digit() {
            return None;
        }
        let value = u64::from(digit.saturating_sub(b'0'));
        sum = sum.saturating_add(value.saturating_mul(worth));
        worth /= 10;
    }
    Some(sum)
}

// ---- which word is wrong

// The options behind which a word stands.
const VALUED: [&str; 7] = [
    "--every",
    "--reread",
    "--listen",
    "--host",
    "--name",
    "--state",
    "--keep-most",
];

const SWITCHES: [&str; 4] = [
    "--until-culprit",
    "--until-input-ends",
    "--lineage",
    "--export",
];

// Whether this word may stand behind this option.
fn is_value(option: &str, word: &str) -> bool {
    match option {
        "--every" => every_in(Some(word)).is_some(),
        "--reread" => reread_in(Some(word)).is_some(),
        "--keep-most" => keep_most_in(Some(word)).is_some(),
        _ => !word.is_empty() && !word.starts_with("-"),
    }
}

// The first word that is wrong by itself: one that begins with `-` and is no option, one that is empty, or one that may not stand
// behind its option. Where a word is missing, or two do not go together, none is.
fn wrong_word<'a>(words: &'a [String]) -> Option<&'a str> {
    let mut option = "";
    for word in words {
        let word = word.as_str();
        if !option.is_empty() {
            if !is_value(option, word) {
                return Some(word);
            }
            option = "";
        } else if VALUED.iter().any(|name| *name == word) {
            option = word;
        } else if !SWITCHES.iter().any(|name| *name == word) && !is_plain(word) {
            return Some(word);
        }
    }
    None
}

// Whether it is no option, or one with its value.
fn is_plain(word: &str) -> bool {
    match word.split_once('=') {
        Some((option, value)) if VALUED.iter().any(|name| *name == option) => {
            is_value(option, value)
        }
        _ => !word.is_empty() && !word.starts_with("-"),
    }
}
