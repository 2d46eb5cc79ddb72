//! The commands of the operator's tool, over handed-in words, files, streams and a runtime. Needs threads that wait, and
//! sockets.
#![tactic(auto)]

mod audit;
mod committee;
mod export;
mod fault;
mod handed_over;
mod host;
mod keep;
mod keygen;
mod keys_behind;
mod migrate;
mod occupied;
mod progress;
mod renewal;
mod replica;
mod report_file;
mod seeds;
mod sources;
mod stored;
mod strict;
mod tool;
mod why;

pub use audit_run::{Note, Reason, Stranger};
pub use fault::{Fault, FolderFile, ToolFault};
pub use host::ToolHost;
pub use program_parts::FAULT;
pub use stored::{Extras, StoreFault, StoreFiles, SystemFiles};
pub use tool::{CULPRITS, DONE, TOO_FEW_SOUND, run_tool};
