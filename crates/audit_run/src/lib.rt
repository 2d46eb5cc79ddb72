//! An audit from the sources of logs to its report: lines, one object of JSON, why the log of a source is not sound, and the logs
//! that were read as files for a later audit. Needs threads.
#![tactic(auto)]

mod laws;
mod lists;
mod parts;
mod reason;
mod report;
mod run;
mod run_error;
mod told;
mod writer;

pub use laws::{a_kept_log_reads_back, what_a_source_gives_can_be_kept, what_is_kept_is_the_log};
pub use reason::{Note, Reason, Stranger};
pub use report::report_of;
pub use run::{Findings, audit_judged, audit_run, audit_run_by, audit_run_of};
pub use run_error::RunError;
pub use told::{AuditTold, SourceTold};
pub use writer::LogWriter;
