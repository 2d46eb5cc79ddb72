//! Tests of a replica's files, lines and run: the files that keygen makes in a folder in memory, and each of its faults, with a
//! seed that is that of replica 2 of the fixtures, and public keys that are the stored bytes of an independent program; lines of
//! an independent program, each form of a line, and both sides of each limit; disks that fail under a run, and a lock that is held.
#![tactic(auto)]

#[cfg(test)]
mod failing_disks;
#[cfg(test)]
mod keygen_tests;
#[cfg(test)]
mod lock;
#[cfg(test)]
mod reading_tests;
#[cfg(test)]
mod stored;
#[cfg(test)]
mod writing_tests;
