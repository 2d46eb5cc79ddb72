//! Tests of entries, logs and their exports: what no clause says, and bytes of an independent program.
#![tactic(auto)]

#[cfg(test)]
mod entry_tests;
#[cfg(test)]
mod export_tests;
#[cfg(test)]
mod limit_tests;
#[cfg(test)]
mod log_tests;
#[cfg(test)]
mod migration_tests;
#[cfg(test)]
mod old_logs;
