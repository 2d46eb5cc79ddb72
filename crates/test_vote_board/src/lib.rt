//! Tests of the board: how often a vote is checked, and two threads that ask for one vote at the same time. Each runs over
//! votes of an independent program.
#![tactic(auto)]

#[cfg(test)]
mod overlaps;
#[cfg(test)]
mod repeats;
#[cfg(test)]
mod votes;
