//! The block by which evidence proves that a committee handed its ledger over, and the line that says how many commits are above
//! it. Needs no threads, files or network.
#![tactic(auto)]

mod after;
mod block;
mod first;
mod search;
mod text;

pub use after::commits_after;
pub use block::{handover_in, handover_of};
pub use first::first_handover;
pub use search::first_in_chain;
pub use text::{handover_text, put_after, put_handover};
