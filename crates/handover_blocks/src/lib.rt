//! A committee that hands its ledger over to the next one: which blocks say so, and laws on what evidence proves of them.
//! Needs no threads, files or network.
#![tactic(auto)]

mod block;
mod laws;
mod old_keys;

pub use block::{HANDOVER_MARK, handover_payload, is_handover};
pub use laws::{
    a_first_handover_is_alone, a_handover_stays_proved,
    different_successors_accuse_more_than_a_third, first_handovers_are_one_or_accuse,
    lineages_part_at_one_committee,
};
pub use old_keys::first_old_key;
