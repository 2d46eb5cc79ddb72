//! Which blocks have a chain to genesis among known headers, and which stand in the chain of another. Needs no
//! threads, files or network.
#![tactic(auto)]

mod ancestry;
mod laws;
mod links;
mod positions;

pub use ancestry::{Ancestry, header_of};
pub use laws::{
    an_id_names_one_header, chains_end_in_genesis, genesis_may_stand_among_the_headers,
};
