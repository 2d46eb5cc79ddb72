//! The checker for a web page: what the library's `hs_check` answers, what the page shows of both texts beside it, and what it asks of a
//! lineage's step. It takes no memory, keeps nothing between calls, reads nothing but what it is handed, and asks its host for nothing.
#![tactic(auto)]

mod exported;

pub use exported::{
    hs_check, hs_check_endorsement, hs_check_vote, hs_committee, hs_digest, hs_headers, hs_key,
    hs_verdict,
};
