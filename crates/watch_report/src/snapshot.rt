//! What a watch knew at one moment.

ghost use Rattle.std.specs.Prelude.{◌≡◌};
ghost use Rattle.std.specs.List.{list_any};
ghost use Rattle.blocks.specs.Weights.{weight_of};
ghost use Rattle.watch_report.specs.Sources.{has_bad_votes, is_back};
ghost use Rattle.watch_report.specs.Standings.{answering_of, is_watched, reading_of, standing_of, unwatched_of};

use crate::proved::ProvedVerdict;
use crate::source::SourceSeen;
use blocks::{Ballot, Id};

/// Two committed blocks of which neither is the other's ancestor.
#[derive(Clone, Copy, Debug, PartialEq, Eq)]
pub struct Fork {
    /// The id of the lower one.
    pub first: Id,
    /// The id of the other one.
    pub second: Id,
}

/// A replica that broke a rule.
#[derive(Drop)]
pub struct Culprit {
    /// Its verdict, which tells its number.
    pub verdict: ProvedVerdict,
    /// How much the replica counts.
    pub weight: u64,
    /// Where the verdict's file is, or is to be.
    pub path: String,
    /// It could not be stored there yet.
    pub is_unstored: bool,
    /// Since when it is known.
    pub since: u64,
}

/// What a watch knew at one moment. Times are seconds since 1970.
#[derive(Drop)]
pub struct Snapshot {
    /// The name of the watch, of its machine where none was said.
    pub name: String,
    /// The folder of its verdicts.
    pub folder: String,
    /// When the watch began.
    pub started: u64,
    /// The number of its last round.
    pub round: u64,
    /// When that was.
    pub stamped: u64,
    /// How many milliseconds the rounds took so far, but for what they publish.
    pub took: u64,
    /// After how many milliseconds a source is asked again.
    pub every: u32,
    /// The number of the committee: the first one has 0.
    pub committee: u64,
    /// Whether the watch goes over with the ledger.
    pub goes_over: bool,
    /// How many culprits the committees before have.
    pub earlier_culprits: u64,
    /// The chain's id.
    pub chain: Id,
    /// How many replicas the committee has.
    pub replicas: u16,
    /// Something could not be stored.
    pub is_unstored: bool,
    /// Since when.
    pub unstored_since: u64,
    /// How many lines were dropped, since nobody took them.
    pub lines_lost: u64,
    /// How many files with parts of logs were kept when the watch began.
    pub kept: u64,
    /// How many of them were read.
    pub kept_read: u64,
    /// How many bytes the files with parts of logs have, 0 where none are kept.
    pub state_bytes: u64,
    /// How many they may have, 0 where there is no bound.
    pub state_bytes_max: u64,
    /// The sources, in the order in which they are named.
    pub sources: Vec<SourceSeen>,
    /// The greatest view of a block for which a quorum voted, 0 where there is none.
    pub certified: u64,
    /// The last commits, by rising view and id.
    pub commits: Vec<Ballot>,
    /// How many commits there are in all.
    pub commit_count: u64,
    /// The first two commits that conflict.
    pub conflict: Option<Fork>,
    /// Since when it is known that commits conflict.
    pub conflict_since: u64,
    /// It is proved that the committee handed its ledger over.
    pub has_handover: bool,
    /// The culprits, in the order in which they were found.
    pub culprits: Vec<Culprit>,
    /// How much the culprits count together.
    pub weight: u64,
    /// How much all replicas count together.
    pub total: u64,
    /// The picture of the last audit, as SVG; none before the first one.
    pub picture: Option<String>,
}

/// The worst that holds of what a watch knew.
#[derive(Clone, Copy, Debug, PartialEq, Eq)]
pub enum Standing {
    /// Two commits conflict.
    Conflict,
    /// There are culprits.
    Culprits,
    /// A source's log went back, and what it had was not given again.
    WentBack,
    /// A source was set aside.
    SetAside,
    /// A source gave one log too many.
    Beyond,
    /// Votes of a source are not good.
    BadVotes,
    /// Something could not be stored.
    NotStored,
    /// What was kept when the watch began is still read.
    ReadingKept,
    /// No source answers.
    NothingRead,
    /// Some sources answer, and not all.
    SomeAnswer,
    /// All sources answer, and of some replicas no source is named.
    Unwatched,
    /// All sources answer.
    AllAnswer,
}

impl Snapshot {
    /// How many of the sources answer at this second.
    pub fn answering(&self, second: u64) -> usize
        ensures { result ≡ answering_of self.now second }
    {
        let every = self.every;
        self.sources
            .iter()
            .filter(|source| source.answers(every, second))
            .count()
    }

    /// Whether a source is named for a replica.
    pub fn is_watched(&self, replica: u16) -> bool
        ensures { result ≡ is_watched self.now.sources.items replica }
    {
        self.sources.iter().any(|source| source.replica == replica)
    }

    /// Of how many of the committee's replicas no source is named.
    pub fn unwatched(&self) -> u16
        ensures { result ≡ unwatched_of self.now }
    {
        let mut count: u16 = 0;
        for replica in 0..self.replicas {
            if !self.is_watched(replica) {
                count += 1;
            }
        }
        count
    }

    fn has_gone_back(&self, second: u64) -> bool
        ensures { result ≡ list_any (is_back second) self.now.sources.items }
    {
        self.sources.iter().any(|source| source.is_back(second))
    }

    fn has_bad_votes(&self) -> bool
        ensures { result ≡ list_any has_bad_votes self.now.sources.items }
    {
        self.sources.iter().any(|source| source.has_bad_votes())
    }

    fn has_aside(&self) -> bool
        ensures { result ≡ list_any (λ o. o.is_aside) self.now.sources.items }
    {
        self.sources.iter().any(|source| source.is_aside)
    }

    fn has_beyond(&self) -> bool
        ensures { result ≡ list_any (λ o. o.is_beyond) self.now.sources.items }
    {
        self.sources.iter().any(|source| source.is_beyond)
    }

    /// The worst that holds of it at this second.
    #[tactic(auto, unfolding(crate::specs::Standings::standing_of))]
    pub fn standing(&self, second: u64) -> Standing
        ensures { result ≡ standing_of self.now second }
    {
        if self.conflict.is_some() {
            return Standing::Conflict;
        }
        if !self.culprits.is_empty() {
            return Standing::Culprits;
        }
        if self.has_gone_back(second) {
            return Standing::WentBack;
        }
        if self.has_aside() {
            return Standing::SetAside;
        }
        if self.has_beyond() {
            return Standing::Beyond;
        }
        if self.has_bad_votes() {
            return Standing::BadVotes;
        }
        self.reading(second)
    }

    // .. where nothing is wrong with what came.
    #[tactic(auto, unfolding(crate::specs::Standings::reading_of))]
    fn reading(&self, second: u64) -> Standing
        ensures { result ≡ reading_of self.now second }
    {
        let answering = self.answering(second);
        if self.is_unstored {
            return Standing::NotStored;
        }
        if self.kept_read < self.kept {
            return Standing::ReadingKept;
        }
        if answering == 0 {
            return Standing::NothingRead;
        }
        if answering < self.sources.len() {
            return Standing::SomeAnswer;
        }
        if 0 < self.unwatched() {
            return Standing::Unwatched;
        }
        Standing::AllAnswer
    }
}
