//! Verdicts as an independent program wrote them, on the evidence of its logs.

use crate::sources::of_logs;
use culprit_search::{Verdict, verdicts_of};
use std::alloc::Global;
use std::test::Fail;
use test_fixtures::{double_vote_logs, fork_logs, verdicts};
use verdict_format::Rule;

// The verdicts on the evidence of these logs.
fn found(alloc: Global, logs: &[(u16, &[u8])]) -> Result<Vec<Verdict>, Fail> {
    let evidence = of_logs(alloc, logs)?;
    Ok(verdicts_of(alloc, &evidence)?)
}

// Whether a verdict has these bytes.
fn is_stored(verdict: &Verdict, bytes: &[u8], length: usize) -> bool {
    verdict.as_bytes() == bytes && bytes.len() == length
}

// Whether a verdict names this rule and this replica, and votes of these views.
fn accuses(verdict: &Verdict, rule: Rule, replica: u16, earlier: u64, later: u64) -> bool {
    verdict.rule() == rule
        && verdict.replica() == replica
        && verdict.earlier_view() == earlier
        && verdict.later_view() == later
}

// Replica 2 votes twice in view 1.
#[test]
fn a_double_vote_is_read(rt: HostRuntime) -> Result<(), Fail> {
    let logs = [
        (2, double_vote_logs::log_of_a1()),
        (2, double_vote_logs::log_of_b1()),
    ];
    let found = found(rt.alloc(), &logs)?;
    assert!(rt; found.len() == 1);
    assert!(rt; is_stored(&found[0], double_vote_logs::verdict(), 3025));
    assert!(rt; accuses(&found[0], Rule::DoubleVote, 2, 1, 1));
    Ok(())
}

// Replicas 1 and 2 vote on both sides of the fork.
#[test]
fn a_lock_violation_is_read(rt: HostRuntime) -> Result<(), Fail> {
    let logs = [(0, fork_logs::log_0()), (3, fork_logs::log_3())];
    let found = found(rt.alloc(), &logs)?;
    assert!(rt; found.len() == 2);
    assert!(rt; is_stored(&found[0], verdicts::lock_violation(), 3277));
    assert!(rt; accuses(&found[0], Rule::LockViolation, 1, 3, 4));
    Ok(())
}

#[test]
fn evidence_without_logs_accuses_nobody(rt: HostRuntime) -> Result<(), Fail> {
    let found = found(rt.alloc(), &[])?;
    assert!(rt; found.is_empty());
    Ok(())
}
