//! Tests of disks, journals and word stores: what no clause says.
#![tactic(auto)]

#[cfg(test)]
mod disk_tests;
#[cfg(test)]
mod journal_tests;
#[cfg(test)]
mod order_tests;
#[cfg(test)]
mod word_tests;
