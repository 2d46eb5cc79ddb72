//! Tests of index stores: what no clause says.
#![tactic(auto)]

#[cfg(test)]
mod index_tests;
