//! What evidence proves: commits, the first two of them that conflict, culprits, and that a conflict accuses more than a
//! third. Needs no threads, files or network.
#![tactic(auto)]

mod by_ballot;
mod by_parent;
mod certified;
mod commits;
mod conflicts;
mod laws;
mod same;

pub use commits::{certified_chains, proved_commits};
pub use conflicts::{ConflictingCommits, first_conflict};
pub use laws::{
    a_conflict_accuses_more_than_a_third, a_culprit_has_one_named_pair,
    a_quorum_of_once_is_two_f_plus_one, a_third_is_more_than_f, evidence_names_each_header_once,
};
