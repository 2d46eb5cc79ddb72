//! The export of what the bytes of a journal stand for, whether or not its entries are legal. Needs no threads, files or
//! network.
#![tactic(auto)]

mod sending;
mod splitting;

pub use sending::{begin_export, end_export, send_export, send_frame};
pub use splitting::{JournalFront, MOST_OF_A_JOURNAL, read_front};
