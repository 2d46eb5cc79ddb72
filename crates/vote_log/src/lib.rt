//! A replica's log on a disk: what it stores of its votes and of its raised locks, and how that goes out. Needs no
//! threads or network.
#![tactic(auto)]

mod export;
mod export_error;
mod log;
mod log_error;
mod migration;
mod old_entry;
mod reading;

pub use base_streams::{Fault, Feed, MemoryFeed, MemorySink, Sink, StdFeed, StdSink};
pub use base_wire::MOST_ENTRIES;
pub use export_error::ExportError;
pub use log::VoteLog;
pub use log_error::LogError;
pub use log_format::{Entry, EntryRefusal, Frames, Status, entries_have_one_spelling};
pub use migration::migrate;
