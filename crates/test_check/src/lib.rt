//! Tests of `program_check`: each byte of a verdict counts, and a file is read up to its limit. The committee and the
//! verdicts are stored bytes of an independent program.
#![tactic(auto)]

#[cfg(test)]
mod byte_tests;
#[cfg(test)]
mod file_tests;
