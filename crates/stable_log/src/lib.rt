//! An append-only journal whose payloads survive a crash at any moment, over a disk that may fail. Needs no threads
//! or network.
#![tactic(auto)]

mod calls;
mod disk;
mod error;
mod file_disk;
mod journal;
mod laws;
mod memory_disk;
mod reading;

pub use base_streams::Fault;
pub use disk::Disk;
pub use error::JournalError;
pub use file_disk::FileDisk;
pub use journal::Journal;
pub use laws::an_image_stands_for_one_list;
pub use memory_disk::{Choice, MemoryDisk};
