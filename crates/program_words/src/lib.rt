//! The words of the operator's command line. No other crate of this repository knows `clap`. Needs no threads, files or
//! network.
#![tactic(auto)]

mod command;
mod grammar;
mod reading;

pub use command::{
    AuditWishes, Command, KeyCount, Requests, SeedWord, Service, Strictness, Tries,
    WeightedReplica, Workers,
};
pub use reading::{WordsFault, read_words};
