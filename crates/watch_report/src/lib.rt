//! What a watch knew at one moment, as a plain value: all that it may say of it to others; and the lines of a watch, with the times
//! in them. Needs no threads, files or network.
#![tactic(auto)]

mod news;
mod proved;
mod snapshot;
mod source;
mod time;
mod times;

pub use news::{
    put_commit, put_conflict, put_kept, put_lost, put_source, put_source_alarm, put_unstored, stamp,
};
pub use proved::{Pair, ProvedVerdict};
pub use snapshot::{Culprit, Fork, Snapshot, Standing};
pub use source::{SourceDigests, SourceSeen, SourceState};
pub use time::utc_text;
pub use times::{is_late, is_old_round, lasts_back, patience_of};
