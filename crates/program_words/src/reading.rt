//! From words to what they ask for.

ghost use Rattle.std.specs.Prelude.{◌≡◌, ◌≢◌, ◌≤◌, ◌<◌, ◌^◌, [], ℕ, IfErr, IfOk, IfSome, MatchOption, None, Ok, decimal, false, true};
ghost use Rattle.program_parts.specs.Words.{SpellsNumber};
ghost use Rattle.program_words.specs.Commands.{AreNextKeysAsked, HasItsCounts, IsAskedBy, IsCountAsked, IsWeighted};
ghost use Rattle.program_words.specs.declared.command.Command.{Command as CommandValue};

use crate::command::{
    AuditWishes, Command, KeyCount, Requests, SeedWord, Service, Strictness, Tries,
    WeightedReplica, Workers,
};
use crate::grammar::parsed;
use base_text::number_in;
use base_wire::{KeyNumber, MOST_KEYS};
use clap::ArgMatches;
use clap::error::ErrorKind;
use program_parts::number;
use std::alloc::{AllocError, AllocFailed, Global};

/// Why words ask for nothing.
#[derive(Clone, Copy, Debug)]
pub enum WordsFault {
    /// They are not written as docs/hs_tool.md says.
    Usage,
    /// Memory was refused.
    Memory,
}

impl From<AllocError> for WordsFault {
    ghost use Rattle.program_words.specs.declared.reading.WordsFault.TheVariants.{Memory};

    ghost from_gives = { λ _ fault. fault ≡ Memory };

    fn from(_error: AllocError) -> WordsFault {
        WordsFault::Memory
    }
}

impl<T: Drop> From<AllocFailed<T>> for WordsFault {
    ghost use Rattle.program_words.specs.declared.reading.WordsFault.TheVariants.{Memory};

    ghost from_gives = { λ _ fault. fault ≡ Memory };

    fn from(_refused: AllocFailed<T>) -> WordsFault {
        WordsFault::Memory
    }
}

/// Reads the words, without the program's name. Refused as usage where they are not written as
/// docs/hs_tool.md says.
pub fn read_words<'a>(alloc: Global, words: &'a [String]) -> Result<Command<'a>, WordsFault>
    ensures asked { IfOk result (IsAskedBy words.now) }
    ensures usage { words.now ≡ [] → result ≡ Ok Command.Usage }
{
    if words.is_empty() {
        return Ok(Command::Usage);
    }
    // `clap` would pass over it.
    if words.iter().any(|word| word.as_str() == "--") {
        return Err(WordsFault::Usage);
    }
    match parsed(alloc, words) {
        Ok(matches) => command(alloc, &matches),
        Err(error) if error.kind() == ErrorKind::OutOfMemory => Err(WordsFault::Memory),
        Err(_) => Err(WordsFault::Usage),
    }
}

fn command<'a>(alloc: Global, matches: &ArgMatches<'a>) -> Result<Command<'a>, WordsFault>
    ensures asked { IfOk result (λ command. command ≢ Command.Usage) }
    ensures counts { IfOk result HasItsCounts }
{
    match matches.subcommand() {
        Some(("keygen", given)) => keygen(given),
        Some(("committee", given)) => committee(alloc, given),
        Some(("weighted", given)) => weighted(alloc, given),
        Some(("replica", given)) => replica(given),
        Some(("audit", given)) => audit(alloc, given),
        Some(("migrate", given)) => migrate(given),
        Some(("export", given)) => export(given),
        Some(("renewal", given)) => renewal(alloc, given),
        _ => Err(WordsFault::Usage),
    }
}

// The next keys behind a committee, or the key of a seed.
fn keygen<'a>(given: &ArgMatches<'a>) -> Result<Command<'a>, WordsFault>
    ensures asked { IfOk result (λ command. command ≢ Command.Usage) }
    ensures counts { IfOk result HasItsCounts }
{
    let Some((seed, folder)) = seed_and_folder(given) else {
        return Err(WordsFault::Usage);
    };
    if folder.is_empty() {
        return Err(WordsFault::Usage);
    }
    let (key, keys) = (given.get_str("K"), given.get_str("KEYS"));
    match (given.get_strs("BEHIND"), keys) {
        (Some([committee, replica]), _) => next_keys(seed, folder, committee, replica, key, keys),
        (None, None) => Ok(Command::Keygen {
            seed,
            folder,
            key: key_number(key)?,
        }),
        _ => Err(WordsFault::Usage),
    }
}

// COMMITTEE, and R below 65,536. The seeds are drawn, and the keys have the numbers from 0 on: `--random` alone, and no `--key`.
fn next_keys<'a>(
    seed: SeedWord<'a>,
    folder: &'a str,
    committee: &'a str,
    replica: &str,
    key: Option<&str>,
    keys: Option<&str>,
) -> Result<Command<'a>, WordsFault>
    ensures asked { IfOk result (AreNextKeysAsked seed.entry folder.entry committee.entry replica.now
        key.entry keys.entry) }
    ensures refused { IfErr result (λ fault. (fault ≡ WordsFault.Usage)
        × ((command : CommandValue) → AreNextKeysAsked seed.entry folder.entry committee.entry replica.now
        key.entry keys.entry command → ⊥)) }
{
    let (SeedWord::Random, None) = (seed, key) else {
        return Err(WordsFault::Usage);
    };
    if committee.is_empty() {
        return Err(WordsFault::Usage);
    }
    let Some(replica) = number(replica) else {
        return Err(WordsFault::Usage);
    };
    Ok(Command::NextKeys {
        folder,
        committee,
        replica,
        count: key_count(keys)?,
    })
}

// SEED and DIR, or one word that says where the seed comes from, and DIR.
fn seed_and_folder<'a>(given: &ArgMatches<'a>) -> Option<(SeedWord<'a>, &'a str)> {
    let words = given.get_strs("WORD")?;
    match (words, given.get_flag("random"), given.get_flag("stdin")) {
        ([seed, folder], false, false) => Some((SeedWord::Digits(seed), folder)),
        ([folder], true, false) => Some((SeedWord::Random, folder)),
        ([folder], false, true) => Some((SeedWord::Stdin, folder)),
        _ => None,
    }
}

// Where no number is said, the key is the first one; a number that is said is one of a further key.
fn key_number(word: Option<&str>) -> Result<KeyNumber, WordsFault> {
    let Some(word) = word else {
        return Ok(KeyNumber::Zero);
    };
    match number(word) {
        Some(1) => Ok(KeyNumber::One),
        Some(2) => Ok(KeyNumber::Two),
        Some(3) => Ok(KeyNumber::Three),
        _ => Err(WordsFault::Usage),
    }
}

// How many keys a word says, if it is said: 1 to 4.
fn key_count(word: Option<&str>) -> Result<Option<KeyCount>, WordsFault>
    ensures asked { IfOk result (IsCountAsked word.entry) }
    ensures refused { IfErr result (λ fault. (fault ≡ WordsFault.Usage)
        × MatchOption word.entry ⊥ (λ w. (n : ℕ) → 1 ≤ n → n ≤ 4 → SpellsNumber w.now n → ⊥)) }
{
    let Some(word) = word else {
        return Ok(None);
    };
    match keys(word) {
        Some(count) => Ok(Some(count)),
        None => Err(WordsFault::Usage),
    }
}

// F of 1 to 10, and 3F + 1 key files.
fn committee<'a>(alloc: Global, given: &ArgMatches<'a>) -> Result<Command<'a>, WordsFault>
    ensures asked { IfOk result (λ command. command ≢ Command.Usage) }
    ensures counts { IfOk result HasItsCounts }
{
    let (Some(f), Some(out), Some(keys)) = (
        given.get_str("F"),
        given.get_str("OUT"),
        given.get_strs("KEY"),
    ) else {
        return Err(WordsFault::Usage);
    };
    let Some(f) = faulty(f) else {
        return Err(WordsFault::Usage);
    };
    if keys.len() != 3 * f as usize + 1 || out.is_empty() || has_empty(keys) {
        return Err(WordsFault::Usage);
    }
    Ok(Command::Committee {
        f,
        out,
        keys: keys.to_vec(alloc)?,
    })
}

// 4 to 31 replicas, each with its weight and its key files.
fn weighted<'a>(alloc: Global, given: &ArgMatches<'a>) -> Result<Command<'a>, WordsFault>
    ensures asked { IfOk result (λ command. command ≢ Command.Usage) }
    ensures counts { IfOk result HasItsCounts }
{
    let (Some(out), Some(words)) = (given.get_str("OUT"), given.get_strs("KEY")) else {
        return Err(WordsFault::Usage);
    };
    if out.is_empty() || !(4..=31).contains(&words.len()) {
        return Err(WordsFault::Usage);
    }
    let mut replicas = Vec::new(alloc);
    for word in words {
        replicas.push(weighted_replica(alloc, word)?)?;
    }
    Ok(Command::Weighted { out, replicas })
}

// What `WEIGHT=PATH,PATH..` says. The first `=` ends the weight, so a path may have one, but it can have no comma.
fn weighted_replica<'a>(alloc: Global, word: &'a str) -> Result<WeightedReplica<'a>, WordsFault>
    ensures { IfOk result IsWeighted }
{
    let Some((digits, list)) = word.split_once('=') else {
        return Err(WordsFault::Usage);
    };
    let Some(weight) = weight(digits) else {
        return Err(WordsFault::Usage);
    };
    let mut paths = Vec::new(alloc);
    for path in list.split(',') {
        if path.is_empty() || paths.len() == MOST_KEYS as usize {
            return Err(WordsFault::Usage);
        }
        paths.push(path)?;
    }
    // For the proof: what is split has a piece at least.
    if paths.is_empty() {
        return Err(WordsFault::Usage);
    }
    Ok(WeightedReplica { weight, paths })
}

// R below 65,536; one worker, and one request, where no number is said.
fn replica<'a>(given: &ArgMatches<'a>) -> Result<Command<'a>, WordsFault>
    ensures asked { IfOk result (λ command. command ≢ Command.Usage) }
    ensures counts { IfOk result HasItsCounts }
{
    let (Some(committee), Some(replica), Some(folder)) = (
        given.get_str("COMMITTEE"),
        given.get_str("R"),
        given.get_str("DIR"),
    ) else {
        return Err(WordsFault::Usage);
    };
    if committee.is_empty() || folder.is_empty() {
        return Err(WordsFault::Usage);
    }
    let (Some(replica), Some(workers), Some(requests)) = (
        number(replica),
        workers(given.get_str("W").unwrap_or("1")),
        requests(given.get_str("N").unwrap_or("1")),
    ) else {
        return Err(WordsFault::Usage);
    };
    Ok(Command::Replica {
        committee,
        replica,
        folder,
        workers,
        service: service(given.get_str("ADDRESS"), requests)?,
    })
}

// Where no address is said, nothing is served, whatever the number of requests.
fn service<'a>(
    address: Option<&'a str>,
    requests: Requests,
) -> Result<Option<Service<'a>>, WordsFault> {
    match address {
        Some("") => Err(WordsFault::Usage),
        Some(address) => Ok(Some(Service { address, requests })),
        None => Ok(None),
    }
}

// None or more sources, and three tries where no number is said. What a source's word says is not judged here.
fn audit<'a>(alloc: Global, given: &ArgMatches<'a>) -> Result<Command<'a>, WordsFault>
    ensures asked { IfOk result (λ command. command ≢ Command.Usage) }
    ensures counts { IfOk result HasItsCounts }
{
    let (Some(committee), Some(folder)) = (given.get_str("COMMITTEE"), given.get_str("OUTDIR"))
    else {
        return Err(WordsFault::Usage);
    };
    if committee.is_empty() || folder.is_empty() {
        return Err(WordsFault::Usage);
    }
    let Some(tries) = tries(given.get_str("T").unwrap_or("3")) else {
        return Err(WordsFault::Usage);
    };
    let sources = match given.get_strs("SOURCE") {
        Some(sources) => sources.to_vec(alloc)?,
        None => Vec::new(alloc),
    };
    Ok(Command::Audit {
        committee,
        folder,
        sources,
        tries,
        wishes: wishes(given)?,
    })
}

fn wishes<'a>(given: &ArgMatches<'a>) -> Result<AuditWishes<'a>, WordsFault> {
    Ok(AuditWishes {
        strictness: strictness(given.get_flag("strict"), given.get_flag("strict-all")),
        tells_why: given.get_flag("why"),
        keep: path(given.get_str("KEPT"))?,
        json: path(given.get_str("REPORT"))?,
        time: time(given.get_str("N"))?,
    })
}

// The time that a word says, if it is said: a number below 2^64, in one spelling.
fn time<'a>(word: Option<&'a str>) -> Result<Option<u64>, WordsFault>
    ensures { IfOk result (λ time. MatchOption word.entry (time ≡ None)
        (λ w. IfSome time (λ n. w.now ≡ decimal n))) }
{
    let Some(word) = word else {
        return Ok(None);
    };
    match number_in(word.as_bytes()) {
        Some(time) => Ok(Some(time)),
        None => Err(WordsFault::Usage),
    }
}

// The path that a word says, if it is said. It may not be empty.
fn path<'a>(word: Option<&'a str>) -> Result<Option<&'a str>, WordsFault>
    ensures same { IfOk result (λ path. path ≡ word.entry) }
    ensures some { IfOk result (λ path. IfSome path (λ w. w.now ≢ [])) }
    ensures refused { IfErr result (λ _. MatchOption word.entry ⊥ (λ w. w.now ≡ [])) }
{
    match word {
        Some("") => Err(WordsFault::Usage),
        _ => Ok(word),
    }
}

fn strictness(quorum: bool, all: bool) -> Strictness
    ensures all { all ≡ true → result ≡ Strictness.All }
    ensures quorum { quorum ≡ true → all ≡ false → result ≡ Strictness.Quorum }
    ensures lax { quorum ≡ false → all ≡ false → result ≡ Strictness.Lax }
{
    match (quorum, all) {
        (_, true) => Strictness::All,
        (true, false) => Strictness::Quorum,
        (false, false) => Strictness::Lax,
    }
}

fn migrate<'a>(given: &ArgMatches<'a>) -> Result<Command<'a>, WordsFault>
    ensures asked { IfOk result (λ command. command ≢ Command.Usage) }
    ensures counts { IfOk result HasItsCounts }
{
    let (Some(old), Some(new), Some(committee)) = (
        given.get_str("OLD"),
        given.get_str("NEW"),
        given.get_str("COMMITTEE"),
    ) else {
        return Err(WordsFault::Usage);
    };
    if old.is_empty() || new.is_empty() || committee.is_empty() {
        return Err(WordsFault::Usage);
    }
    Ok(Command::Migrate {
        old,
        new,
        committee,
    })
}

fn export<'a>(given: &ArgMatches<'a>) -> Result<Command<'a>, WordsFault>
    ensures asked { IfOk result (λ command. command ≢ Command.Usage) }
    ensures counts { IfOk result HasItsCounts }
{
    let (Some(log), Some(out)) = (given.get_str("LOG"), given.get_str("OUT")) else {
        return Err(WordsFault::Usage);
    };
    if log.is_empty() || out.is_empty() {
        return Err(WordsFault::Usage);
    }
    Ok(Command::Export { log, out })
}

// Two files that are not one, and 1 to 31 endorsements.
fn renewal<'a>(alloc: Global, given: &ArgMatches<'a>) -> Result<Command<'a>, WordsFault>
    ensures asked { IfOk result (λ command. command ≢ Command.Usage) }
    ensures counts { IfOk result HasItsCounts }
{
    let (Some(committee), Some(file), Some(renewal), Some(endorsements)) = (
        given.get_str("COMMITTEE"),
        given.get_str("FILE"),
        given.get_str("RENEWAL"),
        given.get_strs("ENDORSEMENT"),
    ) else {
        return Err(WordsFault::Usage);
    };
    if committee.is_empty() || file.is_empty() || renewal.is_empty() || file == renewal {
        return Err(WordsFault::Usage);
    }
    if !(1..=31).contains(&endorsements.len()) || has_empty(endorsements) {
        return Err(WordsFault::Usage);
    }
    Ok(Command::Renewal {
        committee,
        file,
        renewal,
        endorsements: endorsements.to_vec(alloc)?,
    })
}

fn has_empty(words: &[&str]) -> bool {
    words.iter().any(|word| word.is_empty())
}

// 1 to 2^32 - 1, in its one spelling.
fn weight(word: &str) -> Option<u32>
    ensures { MatchOption result ((n : ℕ) → 1 ≤ n → n < 2 ^ 32 → word.now ≡ decimal n → ⊥)
        (λ n. (1 ≤ n) × (word.now ≡ decimal n)) }
{
    let weight = number_in(word.as_bytes())?;
    if weight < 1 || weight > u64::from(u32::MAX) {
        return None;
    }
    Some(weight as u32)
}

// 1 to 10.
fn faulty(word: &str) -> Option<u16>
    ensures { MatchOption result ((f : ℕ) → 1 ≤ f → f ≤ 10 → SpellsNumber word.now f → ⊥)
        (λ f. (1 ≤ f) × (f ≤ 10) × SpellsNumber word.now f) }
{
    let f = number(word)?;
    if f < 1 || f > 10 {
        return None;
    }
    Some(f)
}

fn workers(word: &str) -> Option<Workers>
    ensures { MatchOption result ((n : ℕ) → 1 ≤ n → n ≤ 8 → SpellsNumber word.now n → ⊥)
        (λ w. SpellsNumber word.now w.count) }
{
    Workers::of(number(word)?)
}

fn keys(word: &str) -> Option<KeyCount>
    ensures { MatchOption result ((n : ℕ) → 1 ≤ n → n ≤ 4 → SpellsNumber word.now n → ⊥)
        (λ k. SpellsNumber word.now k.count) }
{
    KeyCount::of(number(word)?)
}

fn tries(word: &str) -> Option<Tries>
    ensures { MatchOption result ((n : ℕ) → 1 ≤ n → n ≤ 3 → SpellsNumber word.now n → ⊥)
        (λ t. SpellsNumber word.now t.count) }
{
    Tries::of(number(word)?)
}

fn requests(word: &str) -> Option<Requests>
    ensures { MatchOption result ((n : ℕ) → 1 ≤ n → n ≤ 1000 → SpellsNumber word.now n → ⊥)
        (λ r. SpellsNumber word.now r.count) }
{
    Requests::of(number(word)?)
}
