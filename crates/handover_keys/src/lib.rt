//! What a replica's present keys sign for its next ones: the statement of the next keys, the ids that bind these to their
//! place, and the endorsement of the statement. Needs no threads, files or network.
#![tactic(auto)]

mod binding;
mod checking;
mod endorsement;
mod laws;
mod statement;

pub use binding::{KeyId, bound_id};
pub use checking::{EndorsementRefusal, check_endorsement};
pub use endorsement::{EndorsementView, SEAL_LEN, write_endorsement};
pub use laws::{an_id_is_bound_to_one_place, next_keys_have_one_spelling, no_statement_is_a_vote};
pub use statement::{NEXT_KEYS_HEAD_LEN, NextKeysRefusal, NextKeysView, write_next_keys};
