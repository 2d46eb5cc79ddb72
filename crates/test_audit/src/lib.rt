//! Tests of evidence and of what is searched for in it: what no clause says, and bytes of an independent program.
#![tactic(auto)]

#[cfg(test)]
mod commit_tests;
#[cfg(test)]
mod evidence_tests;
#[cfg(test)]
mod fork_tests;
#[cfg(test)]
mod offence_tests;
#[cfg(test)]
mod pair_tests;
#[cfg(test)]
mod sources;
#[cfg(test)]
mod weight_tests;
