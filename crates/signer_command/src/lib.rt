//! A replica that answers calls over HTTP: the words of its command line, its folder and its desk, where it listens, and threads
//! that take connections: those of the ledger one at a time, with a session each, those of readers and auditors many at a time.
//! Others ask for the logs of other replicas. Needs threads that wait for one lock, sockets and a clock.
#![tactic(auto)]

mod announcing;
mod asking;
mod dialing;
mod fault;
mod fitness;
mod handing_out;
mod heard;
mod home;
mod lineage;
mod link;
mod listening;
mod making;
mod marks;
mod next;
mod notes;
mod outrunning;
mod over;
mod pace;
mod past;
mod pool;
mod program;
mod reading;
mod seeds;
mod socket_file;
mod stay;
mod staying;
mod step_file;
mod successor;
mod words;
mod wrong_words;

pub use fault::{Fault, SignerFault};
pub use program::{DONE, REFUSED, SignerHost, run_signer};
