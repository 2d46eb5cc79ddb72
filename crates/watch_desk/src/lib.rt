//! The desk of a watch: what came of its sources, what an audit of it proves, and what of that is new and is told. Needs no
//! files, locks, clock or sockets.
#![tactic(auto)]

mod back;
mod certified;
mod commits;
mod desk;
mod kept;
mod known;
mod laws;
mod lines;
mod news;
mod shown;
mod source;
mod told;
mod votes;

pub use back::{Back, Extent};
pub use desk::{Audited, WatchDesk};
pub use kept::KeptVerdicts;
pub use known::{KnownVerdict, judge_kept};
pub use laws::{a_desk_names_just_the_culprits, nothing_is_told_twice, what_is_served_is_a_proof};
pub use lines::put_news;
pub use news::News;
pub use shown::{Moment, SourcePlace, SourceTimes, VerdictPlace, snapshot_of};
pub use source::{LogKnown, MOST_BAD_VOTES, NewPart, SourceKnown};
pub use told::{Heard, Told};
