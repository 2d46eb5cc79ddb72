//! Which ledger is made.

/// The least number of replicas of a committee.
pub(crate) const FEWEST: u8 = 4;

/// The greatest number of entries of a log.
pub(crate) const LOG_ENTRIES: u16 = 4_096;

/// How many blocks each branch of a fork has: three that commit its first, and one that shows the third's certificate.
pub(crate) const BRANCH: u16 = 4;

/// How many full logs one replica hands out at most.
const LOGS_OF_ONE: u16 = 4;

/// What a ledger is like.
#[derive(Clone, Copy)]
pub(crate) enum Kind {
    /// One chain, for whose blocks all replicas vote.
    Honest,
    /// One chain, and behind it two branches of four blocks each, with commits that conflict.
    Forked,
    /// Blocks that all stand on genesis, and logs of one replica that votes for each.
    Flat,
    /// The log of one replica that has the same entry again and again, on a parent whose certificate has no good vote.
    Copied,
}

impl Kind {
    fn read(word: &str) -> Option<Kind> {
        match word {
            "honest" => Some(Kind::Honest),
            "forked" => Some(Kind::Forked),
            "flat" => Some(Kind::Flat),
            "copied" => Some(Kind::Copied),
            _ => None,
        }
    }

    // The greatest number of blocks of such a ledger.
    fn most_blocks(self) -> u16 {
        match self {
            Kind::Honest | Kind::Copied => LOG_ENTRIES,
            Kind::Forked => LOG_ENTRIES - BRANCH,
            Kind::Flat => LOGS_OF_ONE * LOG_ENTRIES,
        }
    }

    pub fn name(self) -> &'static str {
        match self {
            Kind::Honest => "honest",
            Kind::Forked => "forked",
            Kind::Flat => "flat",
            Kind::Copied => "copied",
        }
    }
}

/// A ledger that is to be made.
#[derive(Clone, Copy)]
pub(crate) struct Plan {
    pub kind: Kind,
    /// How many replicas the committee has.
    pub replicas: u8,
    /// How many blocks stand on the chain or on genesis, or how often the entry is copied.
    pub blocks: u16,
}

impl Plan {
    /// The ledger that the words name.
    pub fn read(words: &[String]) -> Option<Plan> {
        let [kind, replicas, blocks] = words else {
            return None;
        };
        let kind = Kind::read(kind)?;
        let replicas = replicas.parse::<u8>().ok()?;
        let blocks = blocks.parse::<u16>().ok()?;
        (1..=kind.most_blocks()).contains(&blocks).then_some(Plan {
            kind,
            replicas,
            blocks,
        })
    }
}
