//! What came of the logs of replicas so far, however often more comes of each: what they name, which of the votes are good,
//! the evidence of it at any moment and the audit of that, and what becomes of all that evidence proves, as it grows. `Collector::add`
//! takes a runtime with `Threads`.
#![tactic(auto)]

mod auditing;
mod checking;
mod collector;
mod growing;
mod laws;
mod making;
mod part;
mod reports;

pub use auditing::{AuditSoFar, audit_so_far};
pub use collector::Collector;
pub use laws::{
    longer_logs_show_more, what_is_named_falls, what_is_proved_stays,
    what_is_settled_need_not_be_searched,
};
pub use making::{MOST_OF_A_PART, MOST_VOTES_OF_A_PART, PartMaker};
pub use part::Part;
