//! A replica that was put back to a backup of its log: whether it is shown a vote of its own that its log lacks, and laws on what
//! shows it that, and on what it may still be accused of. Needs no threads, files or network.
#![tactic(auto)]

mod forgotten;
mod guard;
mod laws;

pub use forgotten::{first_forgotten_vote, is_forgotten_vote};
pub use guard::{first_foreign_vote, has_foreign_vote, shows_foreign_vote};
pub use laws::{
    a_backup_is_of_a_life, a_culprit_forgot_a_vote, a_later_vote_is_unknown,
    a_life_shows_no_unknown_vote, a_log_shows_no_foreign_vote,
};
