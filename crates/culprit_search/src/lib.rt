//! The audit: what evidence proves, and whom it accuses, with a verdict on each. Needs no threads, files or network.
#![tactic(auto)]

mod auditing;
mod breach;
mod lines;
mod locks;
mod pairs;
mod report;
mod screen;
mod search;
mod verdict;
mod writing;

pub use auditing::{Searched, audit, audit_searched, search_evidence};
pub use report::{Commit, Conflict, Report};
pub use search::verdicts_of;
pub use verdict::Verdict;
pub use writing::{ReportError, write_report};
