//! The desk of a replica: many sessions hand in blocks and timeouts, one after the other, and each vote and each raised
//! lock is stored before it is answered. README.md says what a desk keeps and what is proved of it. Calls that take the
//! lock may wait; needs no threads, files or network of its own.
#![tactic(auto)]

mod closing;
mod delivery;
mod desk;
mod desk_error;
mod endorsing;
mod holding;
mod laws;
mod naming;
mod opening;
mod parts;
mod planned_block;
mod receipts;
mod reply;
mod seal;
mod session;
mod signing;
mod sparing;
mod start_error;
mod state;
mod storing;
mod votes;

pub use closing::close_on;
pub use delivery::{deliver_on, deliver_unvoted_on, timeout_on};
pub use desk::{Desk, MOST_FRAMES_AT_ONCE};
pub use desk_error::DeskError;
pub use endorsing::endorse_on;
pub use holding::hold_on;
pub use laws::what_is_found_was_released;
pub use naming::DeskNaming;
pub use parts::{Closed, DeskStatus, Left, Parts};
pub use reply::{Answer, Receipt, Reply};
pub use seal::Seal;
pub use session::Session;
pub use signing::indices_are_leaves;
pub use sparing::deliver_sparing_on;
pub use start_error::StartError;
pub use state::DeskState;
