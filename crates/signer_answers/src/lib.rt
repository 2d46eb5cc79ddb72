//! What a signer answers to a block or a timeout. It votes for a block that hands the ledger over only if the next committee is
//! approved, and delivers no block whose certificate shows that its log was put back to a backup. It may look through others' logs
//! for what shows that, before it takes blocks. Calls may wait for the desk's lock; needs no threads, files or network.
#![tactic(auto)]

mod answering;
mod approver;
mod caller;
mod enough;
mod found;
mod gate;
mod giving_up;
mod greatest;
mod guard;
mod heard;
mod keeper;
mod laws;
mod looking;
mod office;
mod opened;
mod other_chain;
mod put_back;
mod renewed;
mod shown;
mod sparing;
mod told;

pub use answering::answer;
pub use approver::{Approver, NextFault, NextKeys, NoSuccessor, OverFault, Progress};
pub use caller::Caller;
pub use enough::{are_enough, can_be_enough};
pub use gate::Gate;
pub use greatest::greatest_certified;
pub use heard::Heard;
pub use keeper::Keeper;
pub use laws::a_forgotten_vote_is_not_the_callers;
pub use looking::look_through;
pub use office::Office;
pub use opened::Opened;
pub use other_chain::is_of_other_chain;
pub use put_back::PutBack;
pub use renewed::{MOST_RENEWED, Renewed};
pub use shown::Shown;
pub use sparing::{Reserve, last_spare, ordinary_spare, reserve_of};
pub use told::Told;
