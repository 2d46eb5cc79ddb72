//! Tests of one-time and tree signatures against stored ones of other programs.
#![tactic(auto)]

#[cfg(test)]
mod one_time_tests;
#[cfg(test)]
mod tree_tests;
#[cfg(test)]
mod vectors;
