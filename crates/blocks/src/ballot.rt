//! What a vote is on.

ghost use Rattle.std.specs.Prelude.{◌≡◌};
ghost use Rattle.blocks.specs.Replica.{ballot_on};

use crate::header::{Id, NamedHeader};

/// What a vote is on: a block, by its view and its id.
#[derive(Clone, Copy, Debug, PartialEq, Eq)]
pub struct Ballot {
    /// The block's view.
    pub view: u64,
    /// The block's id.
    pub id: Id,
}

impl Ballot {
    /// What a vote for this block is on.
    pub fn on(block: &NamedHeader) -> Ballot
        ensures { result ≡ ballot_on block.now }
    {
        Ballot {
            view: block.header().view,
            id: *block.id(),
        }
    }
}
