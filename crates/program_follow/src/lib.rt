//! From a committee to the next ones, from words, folders and servers to lines: one step, by an audit of the old committee's logs;
//! or a lineage, step by step, from its first committee's file. Needs threads that wait, and sockets; files and streams are handed
//! in.
#![tactic(auto)]

mod fault;
mod fetching;
mod finding;
mod following;
mod host;
mod lineage;
mod lineage_fault;
mod lineage_words;
mod lines;
mod place;
mod program;
mod proving;
mod reading;
mod renewing;
mod sources;
mod words;

pub use fault::FollowFault;
pub use following::{Following, follow};
pub use lineage::run_lineage;
pub use lineage_fault::LineageFault;
pub use lineage_words::asks_for_lineage;
pub use program::{CONFLICT, FOLLOWS, FOLLOWS_NOT, run_follow};
