//! Audits under a committee whose replicas weigh 5, 1, 1 and 1, and how much the culprits weigh: bytes of an independent program.

use crate::sources::{of_logs, sources};
use blocks::{CommitteeView, Id};
use culprit_search::{Commit, Conflict, Report, audit};
use parallel_verify::{Evidence, evidence_of};
use std::alloc::Global;
use std::test::Fail;
use test_fixtures::{fork_logs, weights};

// The block of view 1 on one side of the fork.
const A1: Id =
    *b"\x3d\xa1\x07\x70\x4a\xa4\x08\x56\x72\xbf\x9e\x93\x5e\x49\x96\xc4\x9d\x2a\xc7\x7a\xec\x91\xb0\x86\xbb\x4d\xcb\x8d\x45\x77\xc2\x08";

// The block of view 4 on the other side.
const B4: Id =
    *b"\x59\x3b\xf2\x5d\x19\x20\x2c\xd4\x0b\x87\x2c\x36\xff\x66\x93\x2b\xd0\xf9\x27\x84\xfa\xbd\xe6\xe2\xeb\xbf\x66\x28\xc4\x43\x5e\xe9";

// The evidence of what came as the logs of these replicas, under the weights.
fn weighted(alloc: Global, logs: &[(u16, &[u8])]) -> Result<Evidence<'static>, Fail> {
    let committee = CommitteeView::parse(weights::committee()).ok();
    let committee = committee.ok_or("the committee is refused")?;
    let sources = sources(alloc, logs)?;
    let evidence = evidence_of(alloc, &committee, &sources).ok();
    Ok(evidence.ok_or("there is no evidence")?)
}

// What an audit of them under the weights reports.
fn report(alloc: Global, logs: &[(u16, &[u8])]) -> Result<Report, Fail> {
    let evidence = weighted(alloc, logs)?;
    Ok(audit(alloc, &evidence)?)
}

// The weight of the culprits, and that of all replicas where it is told.
fn weights_in(report: &Report) -> (u64, Option<u64>) {
    (report.weight(), report.total())
}

// Whether there is one verdict, and it has these bytes.
fn accuses_once(report: &Report, bytes: &[u8]) -> bool {
    match report.verdicts() {
        [verdict] => verdict.as_bytes() == bytes,
        _ => false,
    }
}

// Replicas 0 and 1 certify the one side, 0 and 2 the other: replica 0 alone voted for both.
#[test]
fn a_weighted_fork(rt: HostRuntime) -> Result<(), Fail> {
    let logs = [(1, weights::log_1()), (2, weights::log_2())];
    let report = report(rt.alloc(), &logs)?;
    let commits = [Commit { view: 1, id: A1 }, Commit { view: 4, id: B4 }];
    assert!(rt; report.commits() == commits.as_slice());
    let conflict = Conflict {
        first: A1,
        second: B4,
    };
    assert!(rt; report.conflict() == Some(conflict));
    assert!(rt; accuses_once(&report, weights::lock_violation()));
    assert!(rt; weights_in(&report) == (5, Some(8)));
    Ok(())
}

// Two votes of a replica that weighs more than a third are no conflict of commits.
#[test]
fn a_heavy_replica_alone(rt: HostRuntime) -> Result<(), Fail> {
    let logs = [(1, weights::log_of_e2()), (2, weights::log_of_f2())];
    let report = report(rt.alloc(), &logs)?;
    assert!(rt; report.commits().is_empty());
    assert!(rt; report.conflict() == None);
    assert!(rt; accuses_once(&report, weights::double_vote()));
    assert!(rt; weights_in(&report) == (5, Some(8)));
    Ok(())
}

// A log that two sources send has each vote twice, and none weighs twice.
#[test]
fn a_replica_named_twice_weighs_once(rt: HostRuntime) -> Result<(), Fail> {
    let (first, second) = (weights::log_of_e2(), weights::log_of_f2());
    let logs = [(1, first), (2, second), (1, second), (1, first)];
    let report = report(rt.alloc(), &logs)?;
    assert!(rt; weights_in(&report) == (5, Some(8)));
    Ok(())
}

#[test]
fn no_culprits_weigh_nothing(rt: HostRuntime) -> Result<(), Fail> {
    let report = report(rt.alloc(), &[])?;
    assert!(rt; report.verdicts().is_empty());
    assert!(rt; weights_in(&report) == (0, Some(8)));
    Ok(())
}

// Of a committee without weights the culprits weigh as many as they are, and no weight of all is told.
#[test]
fn culprits_without_weights_count_once(rt: HostRuntime) -> Result<(), Fail> {
    let alloc = rt.alloc();
    let evidence = of_logs(alloc, &[(0, fork_logs::log_0()), (3, fork_logs::log_3())])?;
    let report = audit(alloc, &evidence)?;
    assert!(rt; report.verdicts().len() == 2);
    assert!(rt; weights_in(&report) == (2, None));
    Ok(())
}
