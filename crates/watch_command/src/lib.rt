//! An auditor that watches the logs of a running ledger's replicas: its words, its sources, the threads that read them, one
//! that collects and audits, the verdicts' files and the lines. Needs threads that wait, sockets and a clock.
#![tactic(auto)]

mod draft;
mod exporting;
mod fault;
mod following;
mod gone_over;
mod next;
mod next_asking;
mod patience;
mod program;
mod publishing;
mod queue;
mod reader;
mod restoring;
mod rounds;
mod runtime;
mod serving;
mod shop;
mod since;
mod verdict_files;
mod words;

pub use fault::{Fault, FolderFile, WatchFault};
pub use program::{CULPRITS, DONE, WatchHost, run_watch};
pub use program_parts::FAULT;
pub use words::{MOST_SOURCES, READS_INPUT};
