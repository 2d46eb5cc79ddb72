//! What the words of a command line ask for.

ghost use Rattle.std.specs.Prelude.{◌≡◌, ◌≤◌, MatchOption};

use base_wire::KeyNumber;

/// What the words ask for.
#[derive(Debug, Drop)]
pub enum Command<'a> {
    /// No words: print how the tool is called.
    Usage,
    /// `keygen SEED DIR [--key K]`; `--random` or `--stdin` may stand in place of SEED
    Keygen {
        seed: SeedWord<'a>,
        folder: &'a str,
        key: KeyNumber,
    },
    /// `keygen --random DIR --behind COMMITTEE R [--keys K]`
    NextKeys {
        folder: &'a str,
        committee: &'a str,
        replica: u16,
        /// As many as the replica has in the committee where no number is said.
        count: Option<KeyCount>,
    },
    /// `committee F OUT KEY..`
    Committee {
        f: u16,
        out: &'a str,
        keys: Vec<&'a str>,
    },
    /// `weighted OUT WEIGHT=PATH,PATH.. ..`
    Weighted {
        out: &'a str,
        replicas: Vec<WeightedReplica<'a>>,
    },
    /// `replica COMMITTEE R DIR [--workers W] [--serve ADDRESS] [--requests N]`
    Replica {
        committee: &'a str,
        replica: u16,
        folder: &'a str,
        workers: Workers,
        service: Option<Service<'a>>,
    },
    /// `audit COMMITTEE OUTDIR SOURCE.. [--tries T] [--strict] [--strict-all] [--why] [--keep KEPT] [--json REPORT]`
    Audit {
        committee: &'a str,
        folder: &'a str,
        sources: Vec<&'a str>,
        tries: Tries,
        wishes: AuditWishes<'a>,
    },
    /// `migrate OLD NEW COMMITTEE`
    Migrate {
        old: &'a str,
        new: &'a str,
        committee: &'a str,
    },
    /// `export LOG OUT`
    Export {
        log: &'a str,
        out: &'a str,
    },
    /// `renewal COMMITTEE FILE RENEWAL ENDORSEMENT..`
    Renewal {
        committee: &'a str,
        file: &'a str,
        renewal: &'a str,
        endorsements: Vec<&'a str>,
    },
}

/// Where the seed of a key comes from.
#[derive(Clone, Copy, Debug)]
pub enum SeedWord<'a> {
    /// These digits.
    Digits(&'a str),
    /// The system's random source.
    Random,
    /// The digits that stand on the standard input.
    Stdin,
}

/// How many keys a replica gets: 1 to 4.
#[derive(Clone, Copy, Debug)]
pub struct KeyCount {
    count: u8,
    pub ghost least: { 1 ≤ count },
    pub ghost most: { count ≤ 4 },
}

impl KeyCount {
    /// So many keys, where they are 1 to 4.
    pub fn of(count: u16) -> Option<KeyCount>
        ensures { MatchOption result (1 ≤ count → count ≤ 4 → ⊥) (λ k. k.count ≡ count) }
    {
        if count < 1 || count > 4 {
            return None;
        }
        Some(KeyCount { count: count as u8 })
    }

    /// How many they are.
    pub fn count(self) -> u8
        ensures value { result ≡ self.count }
        ensures least { 1 ≤ result }
        ensures most { result ≤ 4 }
    {
        self.count
    }
}

/// A replica that has a weight, by the files of its keys.
#[derive(Debug, Drop)]
pub struct WeightedReplica<'a> {
    /// At least 1.
    pub weight: u32,
    /// One to four paths.
    pub paths: Vec<&'a str>,
}

/// Where a replica hands out its log when its work is done, and how often.
#[derive(Clone, Copy, Debug)]
pub struct Service<'a> {
    /// The address to listen on.
    pub address: &'a str,
    pub requests: Requests,
}

/// How many workers a replica has: 1 to 8.
#[derive(Clone, Copy, Debug)]
pub struct Workers {
    count: u8,
    pub ghost least: { 1 ≤ count },
    pub ghost most: { count ≤ 8 },
}

impl Workers {
    /// So many workers, where they are 1 to 8.
    pub fn of(count: u16) -> Option<Workers>
        ensures { MatchOption result (1 ≤ count → count ≤ 8 → ⊥) (λ w. w.count ≡ count) }
    {
        if count < 1 || count > 8 {
            return None;
        }
        Some(Workers { count: count as u8 })
    }

    /// How many they are.
    pub fn count(self) -> u8
        ensures value { result ≡ self.count }
        ensures least { 1 ≤ result }
        ensures most { result ≤ 8 }
    {
        self.count
    }
}

/// How many connections a source of an audit may take: 1 to 3.
#[derive(Clone, Copy, Debug)]
pub struct Tries {
    count: u8,
    pub ghost least: { 1 ≤ count },
    pub ghost most: { count ≤ 3 },
}

impl Tries {
    /// So many tries, where they are 1 to 3.
    pub fn of(count: u16) -> Option<Tries>
        ensures { MatchOption result (1 ≤ count → count ≤ 3 → ⊥) (λ t. t.count ≡ count) }
    {
        if count < 1 || count > 3 {
            return None;
        }
        Some(Tries { count: count as u8 })
    }

    /// How many they are.
    pub fn count(self) -> u8
        ensures value { result ≡ self.count }
        ensures least { 1 ≤ result }
        ensures most { result ≤ 3 }
    {
        self.count
    }
}

/// Which sources of an audit have to be sound, so that it ends as one that found no culprit.
#[derive(Clone, Copy, Debug, PartialEq, Eq)]
pub enum Strictness {
    /// None.
    Lax,
    /// Those of a quorum.
    Quorum,
    /// Those of a quorum, and every other.
    All,
}

/// What else an audit is asked for.
#[derive(Clone, Copy, Debug)]
pub struct AuditWishes<'a> {
    pub strictness: Strictness,
    /// Whether it says why a source is not sound, and where the verdicts are.
    pub tells_why: bool,
    /// The folder that it makes for what it reads.
    pub keep: Option<&'a str>,
    /// The file to which it writes its report for programs.
    pub json: Option<&'a str>,
    /// The time that its report for programs tells, in seconds since 1970, if it is not to be the clock's.
    pub time: Option<u64>,
}

/// How many requests are served: 1 to 1,000.
#[derive(Clone, Copy, Debug)]
pub struct Requests {
    count: u16,
    pub ghost least: { 1 ≤ count },
    pub ghost most: { count ≤ 1000 },
}

impl Requests {
    /// So many requests, where they are 1 to 1,000.
    pub fn of(count: u16) -> Option<Requests>
        ensures { MatchOption result (1 ≤ count → count ≤ 1000 → ⊥) (λ r. r.count ≡ count) }
    {
        if count < 1 || count > 1000 {
            return None;
        }
        Some(Requests { count })
    }

    /// How many they are.
    pub fn count(self) -> u16
        ensures value { result ≡ self.count }
        ensures least { 1 ≤ result }
        ensures most { result ≤ 1000 }
    {
        self.count
    }
}
