//! Tests of sources that break off, lie or fail, and of a log that is served: what no clause says, and bytes of an
//! independent program.
#![tactic(auto)]

#[cfg(test)]
mod budget_tests;
#[cfg(test)]
mod connector_tests;
#[cfg(test)]
mod dial_tests;
#[cfg(test)]
mod fetch_tests;
#[cfg(test)]
mod hostile_tests;
#[cfg(test)]
mod puller_tests;
#[cfg(test)]
mod serve_tests;
#[cfg(test)]
mod served_source;
#[cfg(test)]
mod sources;
#[cfg(test)]
mod watched_tests;
