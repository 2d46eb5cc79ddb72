//! Tests of headers and committees, with ids and roots of an independent program.
#![tactic(auto)]

#[cfg(test)]
mod header_tests;
#[cfg(test)]
mod multikey_tests;
#[cfg(test)]
mod weight_tests;
