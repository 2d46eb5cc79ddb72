//! Runs a replica over lines of input: opens what its folder stores, deals the lines to workers in threads of their own,
//! and prints what came of each. Needs threads that wait for one lock; files and streams are handed in.
#![tactic(auto)]

mod dealing;
mod fault;
mod folder;
mod outrunning;
mod program;
mod staying;
mod worker;

pub use fault::{ReplicaFault, ReplicaFile};
pub use folder::{ReplicaFolder, Stores};
pub use program::{ReplicaEnd, run_replica};
pub use staying::{Ending, StayEnd, stay};
