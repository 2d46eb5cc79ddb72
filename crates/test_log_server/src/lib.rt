//! Tests of a log that is served over the loopback: what no clause says, and bytes of an independent program.
#![tactic(auto)]

#[cfg(test)]
mod loopback_tests;
#[cfg(test)]
mod stored_log;
