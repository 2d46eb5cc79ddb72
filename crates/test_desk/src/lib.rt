//! Tests of the desk: worked runs over blocks, certificates and logs of an independent program, calls that overlap in threads,
//! refusals, limits, further keys, and crashes.
#![tactic(auto)]

#[cfg(test)]
mod crash_runs;
#[cfg(test)]
mod endorsements;
#[cfg(test)]
mod further_keys;
#[cfg(test)]
mod limits;
#[cfg(test)]
mod live_calls;
#[cfg(test)]
mod overlaps;
#[cfg(test)]
mod refusals;
#[cfg(test)]
mod replicas;
#[cfg(test)]
mod worked_runs;
