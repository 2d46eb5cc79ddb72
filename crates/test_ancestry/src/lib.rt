//! Tests of ancestry: what no clause says, and bytes of an independent program.
#![tactic(auto)]

#[cfg(test)]
mod ancestry_tests;
