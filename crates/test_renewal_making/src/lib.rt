//! Tests of renewals that are made of endorsements, against stored ones of another program.
#![tactic(auto)]

#[cfg(test)]
mod making_tests;
#[cfg(test)]
mod stored;
