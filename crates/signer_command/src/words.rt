//! How a signer is called.

ghost use Rattle.std.specs.Prelude.{◌≡◌, ◌≢◌, ◌≤◌, IfErr, MatchOption};
ghost use Rattle.signer_command.specs.WordFaults.{IsUsageFault, IsWordsFault};

use crate::fault::{Fault, SignerFault};
use crate::wrong_words::first_wrong;
use base_text::number_in;
use blocks::Id;
use clap::error::ErrorKind;
use clap::{Arg, ArgAction, ArgMatches, Command as Grammar, Error};
use program_parts::{ProgramFault, SourceWord, number};
use signer_calls::id_in;
use std::alloc::{AllocError, Global};

/// How far above the vote view a view may lie, where nothing is said.
const FURTHEST: u64 = 4096;

/// How many sources are asked at most.
const MOST_SOURCES: usize = 64;

/// Where calls are taken.
#[derive(Clone, Copy, Debug)]
pub(crate) enum Where<'a> {
    /// At a Unix socket in the replica's folder, where nothing is said.
    Folder,
    /// At a Unix socket at this path.
    Unix(&'a str),
    /// At this address of the machine itself.
    Tcp(&'a str),
}

/// How many connections are answered at once: 1 to 64.
#[derive(Clone, Copy, Debug)]
pub(crate) struct Sessions {
    count: u8,
    pub ghost least: { 1 ≤ count },
    pub ghost most: { count ≤ 64 },
}

impl Sessions {
    /// So many, where they are 1 to 64.
    pub fn of(count: u16) -> Option<Sessions>
        ensures { MatchOption result (1 ≤ count → count ≤ 64 → ⊥) (λ s. s.count ≡ count) }
    {
        if count < 1 || count > 64 {
            return None;
        }
        Some(Sessions { count: count as u8 })
    }

    /// How many they are.
    pub fn count(self) -> u8
        ensures value { result ≡ self.count }
        ensures least { 1 ≤ result }
        ensures most { result ≤ 64 }
    {
        self.count
    }
}

/// What the words ask for.
#[derive(Drop)]
pub(crate) struct Words<'a> {
    pub committee: &'a str,
    pub replica: u16,
    pub folder: &'a str,
    pub listen: Where<'a>,
    pub read: Option<&'a str>,
    pub serve: Option<&'a str>,
    pub successor: Option<&'a str>,
    /// Where logs of others come from, which are asked for votes of this replica.
    pub sources: Vec<SourceWord<'a>>,
    pub sessions: Sessions,
    pub furthest: u64,
    pub hosts: Vec<String>,
    pub group: bool,
    pub while_input: bool,
    pub verbose: bool,
    /// Whether it goes over from one committee to the next.
    pub renew: bool,
    /// How many of the last chains that it left keep their logs, where not all do.
    pub keep: Option<u16>,
    /// The newest chain, as it was compared with somebody.
    pub compared: Option<Id>,
}

/// Reads the words, without the program's name. Where they are not written as docs/hs_signer.md says they are refused by the first that is
/// wrong by itself, and as usage where none is.
pub(crate) fn read_words<'a>(alloc: Global, words: &'a [String]) -> Result<Words<'a>, Fault<'a>>
    ensures refused { IfErr result (IsWordsFault words.now) }
    ensures output { IfErr result (λ fault. fault ≢ ProgramFault.Output) }
{
    match try_read(alloc, words) {
        Ok(asked) => Ok(asked),
        Err(ProgramFault::Memory) => Err(ProgramFault::Memory),
        Err(_) => Err(usage_fault(words)),
    }
}

fn usage_fault<'a>(words: &'a [String]) -> Fault<'a>
    ensures value { IsUsageFault words.now result }
    ensures output { result ≢ ProgramFault.Output }
{
    match first_wrong(words) {
        Some(word) => ProgramFault::Own(SignerFault::Word(word)),
        None => ProgramFault::Usage,
    }
}

fn try_read<'a>(alloc: Global, words: &'a [String]) -> Result<Words<'a>, Fault<'a>>
    ensures { IfErr result (λ fault. fault ≢ ProgramFault.Output) }
{
    // `clap` would pass over it.
    if words.iter().any(|word| word.as_str() == "--") {
        return Err(ProgramFault::Usage);
    }
    match parsed(alloc, words) {
        Ok(matches) => given(alloc, &matches),
        Err(error) if error.kind() == ErrorKind::OutOfMemory => Err(ProgramFault::Memory),
        Err(_) => Err(ProgramFault::Usage),
    }
}

fn parsed<'a>(alloc: Global, words: &'a [String]) -> Result<ArgMatches<'a>, Error> {
    let grammar = Grammar::new(alloc, "hs_signer").no_binary_name(true);
    let grammar = with_values(alloc, with_places(alloc, grammar)?)?;
    with_switches(alloc, grammar)?.try_get_matches_from(words)
}

fn with_places<'a>(alloc: Global, grammar: Grammar<'a>) -> Result<Grammar<'a>, AllocError> {
    grammar
        .arg(Arg::new(alloc, "COMMITTEE").required(true))?
        .arg(Arg::new(alloc, "R").required(true))?
        .arg(Arg::new(alloc, "DIR").required(true))
}

fn with_values<'a>(alloc: Global, grammar: Grammar<'a>) -> Result<Grammar<'a>, AllocError> {
    let host = Arg::new(alloc, "HOST")
        .long("host")
        .action(ArgAction::Append);
    let source = Arg::new(alloc, "SOURCE")
        .long("ask")
        .action(ArgAction::Append);
    grammar
        .arg(Arg::new(alloc, "WHERE").long("listen"))?
        .arg(Arg::new(alloc, "READ").long("read"))?
        .arg(Arg::new(alloc, "SERVE").long("serve"))?
        .arg(Arg::new(alloc, "FILE").long("successor"))?
        .arg(Arg::new(alloc, "N").long("sessions"))?
        .arg(Arg::new(alloc, "D").long("furthest"))?
        .arg(Arg::new(alloc, "KEEP").long("keep"))?
        .arg(Arg::new(alloc, "ID").long("compared"))?
        .arg(source)?
        .arg(host)
}

fn with_switches<'a>(alloc: Global, grammar: Grammar<'a>) -> Result<Grammar<'a>, AllocError> {
    grammar
        .arg(switch(alloc, "group"))?
        .arg(switch(alloc, "while-input"))?
        .arg(switch(alloc, "verbose"))?
        .arg(switch(alloc, "renew"))
}

fn switch<'a>(alloc: Global, name: &'a str) -> Arg<'a> {
    Arg::new(alloc, name).long(name).action(ArgAction::SetTrue)
}

fn given<'a>(alloc: Global, matches: &ArgMatches<'a>) -> Result<Words<'a>, Fault<'a>>
    ensures { IfErr result (λ fault. fault ≢ ProgramFault.Output) }
{
    let (Some(committee), Some(replica), Some(folder)) = (
        matches.get_str("COMMITTEE"),
        matches.get_str("R"),
        matches.get_str("DIR"),
    ) else {
        return Err(ProgramFault::Usage);
    };
    let (Some(replica), Some(sessions), Some(furthest)) = (
        number(replica),
        sessions_in(matches.get_str("N")),
        furthest_in(matches.get_str("D")),
    ) else {
        return Err(ProgramFault::Usage);
    };
    let words = Words {
        committee,
        replica,
        folder,
        listen: listen_in(matches.get_str("WHERE"))?,
        read: matches.get_str("READ"),
        serve: matches.get_str("SERVE"),
        successor: matches.get_str("FILE"),
        sources: sources_in(alloc, matches)?,
        sessions,
        furthest,
        hosts: hosts_in(alloc, matches)?,
        group: is_set(matches, "group"),
        while_input: is_set(matches, "while-input"),
        verbose: is_set(matches, "verbose"),
        renew: is_set(matches, "renew"),
        keep: keep_in(matches.get_str("KEEP"))?,
        compared: compared_in(matches.get_str("ID"))?,
    };
    judged(words)
}

// No place and no path is empty, and the ledger's group is let in at a path that was named alone: the replica's folder is its own. Who
// goes over asks others in each chain. Logs go only of chains that were left, and only a lineage is compared.
fn judged<'a>(words: Words<'a>) -> Result<Words<'a>, Fault<'a>>
    ensures { IfErr result (λ fault. fault ≢ ProgramFault.Output) }
{
    let is_empty = |place: Option<&str>| place == Some("");
    let has_path = matches!(words.listen, Where::Unix(_));
    if words.committee.is_empty() || words.folder.is_empty() || (words.group && !has_path) {
        return Err(ProgramFault::Usage);
    }
    if is_empty(words.read) || is_empty(words.serve) || is_empty(words.successor) {
        return Err(ProgramFault::Usage);
    }
    let is_of_lineage = words.keep.is_some() || words.compared.is_some();
    if (words.renew && words.sources.is_empty()) || (is_of_lineage && !words.renew) {
        return Err(ProgramFault::Usage);
    }
    Ok(words)
}

fn is_set(matches: &ArgMatches<'_>, name: &str) -> bool {
    matches.get_str(name) == Some("true")
}

fn sessions_in(word: Option<&str>) -> Option<Sessions> {
    Sessions::of(number(word.unwrap_or("16"))?)
}

fn furthest_in(word: Option<&str>) -> Option<u64> {
    match word {
        Some(word) => number_in(word.as_bytes()),
        None => Some(FURTHEST),
    }
}

fn keep_in<'a>(word: Option<&str>) -> Result<Option<u16>, Fault<'a>>
    ensures { IfErr result (λ fault. fault ≢ ProgramFault.Output) }
{
    let Some(word) = word else {
        return Ok(None);
    };
    match number(word) {
        Some(count) => Ok(Some(count)),
        None => Err(ProgramFault::Usage),
    }
}

fn compared_in<'a>(word: Option<&str>) -> Result<Option<Id>, Fault<'a>>
    ensures { IfErr result (λ fault. fault ≢ ProgramFault.Output) }
{
    let Some(word) = word else {
        return Ok(None);
    };
    match id_in(word.as_bytes()) {
        Some(id) => Ok(Some(id)),
        None => Err(ProgramFault::Usage),
    }
}

fn listen_in<'a>(word: Option<&'a str>) -> Result<Where<'a>, Fault<'a>>
    ensures { IfErr result (λ fault. fault ≢ ProgramFault.Output) }
{
    let Some(word) = word else {
        return Ok(Where::Folder);
    };
    if let Some(path) = word.strip_prefix("unix:") {
        return named(path, Where::Unix(path));
    }
    match word.strip_prefix("tcp:") {
        Some(address) => named(address, Where::Tcp(address)),
        None => Err(ProgramFault::Usage),
    }
}

fn named<'a>(name: &str, place: Where<'a>) -> Result<Where<'a>, Fault<'a>>
    ensures { IfErr result (λ fault. fault ≢ ProgramFault.Output) }
{
    if name.is_empty() {
        return Err(ProgramFault::Usage);
    }
    Ok(place)
}

// The sources that are asked.
fn sources_in<'a>(alloc: Global, matches: &ArgMatches<'a>) -> Result<Vec<SourceWord<'a>>, Fault<'a>>
    ensures { IfErr result (λ fault. fault ≢ ProgramFault.Output) }
{
    let mut sources = Vec::new(alloc);
    let words = matches.get_strs("SOURCE").unwrap_or(&[]);
    if words.len() > MOST_SOURCES {
        return Err(ProgramFault::Usage);
    }
    for word in words {
        match SourceWord::of(word) {
            Some(source) => sources.push(source)?,
            None => return Err(ProgramFault::Usage),
        }
    }
    Ok(sources)
}

// The names, in lower case, as the names in calls are compared.
fn hosts_in<'a>(alloc: Global, matches: &ArgMatches<'a>) -> Result<Vec<String>, Fault<'a>>
    ensures { IfErr result (λ fault. fault ≢ ProgramFault.Output) }
{
    let mut hosts = Vec::new(alloc);
    for name in matches.get_strs("HOST").unwrap_or(&[]) {
        if name.is_empty() {
            return Err(ProgramFault::Usage);
        }
        hosts.push(name.to_ascii_lowercase(alloc)?)?;
    }
    Ok(hosts)
}
