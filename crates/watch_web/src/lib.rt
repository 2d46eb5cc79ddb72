//! What a watch tells over HTTP, by a snapshot of what it knew, the request, and the second in which it was asked: a page with no script,
//! whose words say all that its colours do, metrics, a report for programs, verdicts and a picture. Needs threads that wait and a clock;
//! streams are handed in.
#![tactic(auto)]

mod ages;
mod answering;
mod holding;
mod lists;
mod metrics;
mod page;
mod report;
mod rows;
mod serving;
mod target;
mod telling;
mod watcher;
mod words;
mod writing;

pub use metrics::Family;
pub use serving::serve_watcher;
pub use target::PageTarget;
pub use watcher::{Watcher, seconds_now};
pub use words::{Level, Shares};
pub use writing::Kind;
