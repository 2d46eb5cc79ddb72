//! The bytes of verdicts. Needs no threads, files or network.
#![tactic(auto)]

mod parts;
mod verdict;

pub use parts::{BoundVote, Shown, VerdictParts, VotedHeaders, write_verdict};
pub use verdict::{
    EARLIER_SIGNATURE_AT, LATER_SIGNATURE_AT, Rule, VerdictRefusal, VerdictView, VoteView,
};
