//! Blocks of a chained HotStuff committee: their headers, the committee's keys, and the voting rules with what is
//! proved of them. Needs no threads, files or network.
#![tactic(auto)]

mod ballot;
mod committee;
mod header;
mod laws;

pub use ballot::Ballot;
pub use committee::{
    CommitteeRefusal, CommitteeView, Member, write_committee, write_multikey_committee,
    write_weighted_committee,
};
pub use header::{HEADER_LEN, Header, HeaderRefusal, Id, NamedHeader};
pub use laws::{
    a_block_has_one_chain, a_life_is_a_run, a_raise_without_a_vote_is_stored,
    a_raised_lock_survives_a_restart, a_replica_votes_for_three_blocks, a_run_is_a_life,
    a_timeout_is_forgotten_at_a_restart, a_vote_across_a_fork_violates_the_lock,
    no_run_has_a_double_vote, no_run_has_a_lock_violation, rules_look_at_the_parent,
    run_goes_on_from_its_list, stored_list_is_the_history,
};
