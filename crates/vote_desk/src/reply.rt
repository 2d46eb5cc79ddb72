//! What a desk answers to a block.

use blocks::Id;
use certificates::SignedVote;

/// A released vote. Its entry is on the disk before this value exists.
#[derive(Clone, Copy, Debug, PartialEq, Eq)]
pub struct Receipt {
    /// The number of its entry in the log, from 0.
    pub number: u32,
    /// The vote.
    pub vote: SignedVote,
}

/// What the replica did with a block.
#[derive(Clone, Copy, Debug, PartialEq, Eq)]
pub enum Answer {
    /// It voted for the block, and the vote is stored.
    Voted(Receipt),
    /// It raised its lock without a vote, and that is stored.
    Raised,
    /// It holds the block, and did and stored nothing more.
    Held,
}

/// What the replica did with a block, and what the block commits.
#[derive(Clone, Copy, Debug, PartialEq, Eq)]
pub struct Reply {
    /// What it did.
    pub act: Answer,
    /// The id of the block that this one commits, if it commits one.
    pub committed: Option<Id>,
}
