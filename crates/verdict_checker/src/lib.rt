//! Judges whether a verdict proves that a replica broke a voting rule. Needs no threads, files or network.
#![tactic(auto)]

mod checker;
mod refusal;

pub use certificates::CommitteeView;
pub use checker::{Finding, check};
pub use refusal::Refusal;
