//! What a replica stores of a vote or a raised lock.

use blocks::Header;
use std::marker::Model;

/// What a replica stores of a vote, or of a lock that it raised without a vote: the block, the block's
/// parent, and which of the two it was.
#[derive(Clone, Copy, Debug, PartialEq, Eq)]
pub struct Stored {
    /// Whether it voted for the block.
    pub voted: bool,
    /// The block.
    pub block: Header,
    /// The block's parent.
    pub parent: Header,
}

impl Model for Stored {
    ghost use Rattle.blocks.specs.Replica.{Stored as StoredValue};

    ghost Value = { StoredValue };

    ghost view = { λ x. record { voted = x.voted; block = x.block; parent = x.parent } };

    ghost inverse = { λ x. record { voted = x.voted; block = x.block; parent = x.parent } };
}
