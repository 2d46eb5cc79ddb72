//! Votes that were found good, remembered by who calls a desk, and the signatures of a certificate that are checked side by side.
//! Calls may wait for the memory's lock, and start threads where they are given a runtime with `Threads`.
#![tactic(auto)]

mod checking;
mod claim;
mod known;
mod memory;

pub use checking::{Checker, SideBySide};
pub use claim::{Claim, GoodVote};
pub use known::Known;
pub use memory::{GoodVotes, MOST_REMEMBERED};
