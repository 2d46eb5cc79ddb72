//! Tests of audits from their sources: bytes of an independent program, failures in turn, sources that overlap, how often a
//! vote is checked, and that checks are split among threads.
#![tactic(auto)]

#[cfg(test)]
mod check_tests;
#[cfg(test)]
mod fault_tests;
#[cfg(test)]
mod overlap_tests;
#[cfg(test)]
mod report_tests;
#[cfg(test)]
mod sources;
#[cfg(test)]
mod split_tests;
