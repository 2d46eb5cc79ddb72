//! The one-time indices of one to four keys, each handed out at most once, also over crashes. Needs no threads, files
//! or network.
#![tactic(auto)]

mod error;
mod index;
mod store;

pub use error::IndexError;
pub use index::{key_of, q_of};
pub use store::{INDICES, INDICES_PER_RESERVATION, IndexStore, indices_are_those_of_the_format};
