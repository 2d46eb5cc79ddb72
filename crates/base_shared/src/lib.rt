//! Values that stand in memory once while several lists and threads hold them. Needs no threads, files or network.
#![tactic(auto)]

mod shared;

pub use shared::Shared;
