//! What the checker answers a caller in another language, what a page shows of a committee and of a verdict beside it, and what it
//! asks of a lineage's step: plain numbers and bytes, for the exports of `hs_check_c` and `hs_check_web`. It takes no memory, keeps
//! nothing between calls, and reads nothing but what it is handed.
#![tactic(auto)]

mod judging;
mod naming;
mod showing;
mod voting;

pub use judging::{HsFinding, judge};
pub use naming::{refusals_have_their_names, write_name, write_version};
pub use showing::{
    HsCommittee, HsHeader, HsHeaders, HsKey, HsVerdict, HsVote, show_committee, show_headers,
    show_key, show_verdict,
};
pub use voting::{HsDigest, judge_endorsement, judge_vote, show_digest};
