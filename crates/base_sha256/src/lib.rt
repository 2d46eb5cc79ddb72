//! Hash chains of SHA-256, eight at a time, each in one lane of a vector. Needs no threads, files or network.
#![tactic(auto)]

mod compression;
mod constants;
mod walks;
mod words;

pub use walks::walk_eight;
