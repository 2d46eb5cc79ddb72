//! What a caller is told of a request.

use blocks::{Ballot, Id};
use replica_requests::Outcome;
use vote_desk::Receipt;
use vote_log::LogError;

/// What a caller is told of a request.
#[derive(Drop)]
pub enum Told {
    /// What came of it.
    Came(Outcome),
    /// The block is held, and the log has this replica's vote for it: that vote once more, with its number, and the block that
    /// is committed. It is no new vote.
    Again(Receipt, Option<Id>),
    /// Nothing was delivered: what the log has in the view of the block's certificate can't be read, by `Device` or `BadEntry`, or is
    /// a vote on what the certificate is on that is not good, by `BadEntry`. The desk runs.
    Unread(LogError),
    /// Nothing was done: a certificate on what this names has a vote of the replica that its log lacks.
    PutBack(Ballot),
    /// Nothing was done: logs of others are still asked for votes of this replica.
    Asking,
}
