//! A replica that answers calls over HTTP as they come: what a call asks for, what the desk answers to it, and the response
//! that says so. Calls may wait for the desk's lock; no sockets or threads of its own.
#![tactic(auto)]

mod approving;
mod commits;
mod crossing;
mod endorsing;
mod going;
mod halt;
mod health;
mod joining;
mod judging;
mod laws;
mod metrics;
mod names;
mod proving;
mod put_back;
mod reception;
mod refusing;
mod renewing;
mod serving;
mod signer;
mod sources;
mod status;
mod tallies;
mod telling;
mod witness;
mod writing;

pub use commits::Commits;
pub use laws::each_is_counted_once;
pub use put_back::{LONGEST_LINE, put_back_line};
pub use reception::Reception;
pub use serving::serve_calls;
pub use signer::Signer;
pub use signer_answers::{
    Approver, Caller, Gate, Heard, Keeper, NextFault, NextKeys, NoSuccessor, Office, OverFault,
    Progress, PutBack, Renewed, look_through,
};
pub use signer_calls::{CallRefusal, Rules};
pub use sources::Sources;
pub use tallies::{Numbers, Tallies};
pub use witness::{Event, NoWitness, Seen, Witness};
