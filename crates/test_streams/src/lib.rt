//! Tests of streams and exports: what no clause says, and bytes of an independent program.
#![tactic(auto)]

#[cfg(test)]
mod frame_tests;
#[cfg(test)]
mod stream_tests;
