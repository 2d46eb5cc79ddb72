//! Tests of patient sockets: what becomes of connections and streams over the loopback, and how many files may be open.
#![tactic(auto)]

#[cfg(test)]
mod crowd_tests;
#[cfg(test)]
mod room_tests;
#[cfg(test)]
mod stream_tests;
