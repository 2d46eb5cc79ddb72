//! What a core does with a block.

use blocks::{Header, Id, NamedHeader};

/// What a replica does with a block.
#[derive(Clone, Copy, Debug, PartialEq, Eq)]
pub enum Act {
    /// It votes for it, and raises its lock where the parent's parent is younger than the lock.
    Vote,
    /// It raises its lock to the parent's parent, without a vote.
    Raise,
    /// Neither: the block is held and no more.
    Pass,
}

/// What a core does with a block, and what is committed by it.
#[derive(Clone, Copy, Debug, PartialEq, Eq)]
pub struct Plan {
    /// What it does.
    pub act: Act,
    /// The block, beside its id.
    pub block: NamedHeader,
    /// The block's parent.
    pub parent: Header,
    /// The id of the block that the certificate on the parent commits.
    pub committed: Option<Id>,
}
