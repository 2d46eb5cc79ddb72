//! Evidence of stored entries, under the stored committee: bytes of an independent program.

use crate::sources::{committee, of_logs, report, shows, stream};
use log_format::Status;
use parallel_verify::Evidence;
use std::alloc::Global;
use std::test::Fail;
use test_fixtures::log_entries;

#[test]
fn no_sources(rt: HostRuntime) -> Result<(), Fail> {
    let genesis = committee()?.genesis();
    let evidence = of_logs(rt.alloc(), &[])?;
    assert!(rt; evidence.headers().len() == 1 && *evidence.headers()[0].header() == genesis);
    assert!(rt; evidence.votes().is_empty() && evidence.sources().is_empty());
    Ok(())
}

// The certificate of A1 stands in the entry of A2, with the vote of replica 0 that the entry of A1 has too.
#[test]
fn two_logs_are_joined(rt: HostRuntime) -> Result<(), Fail> {
    let alloc = rt.alloc();
    let both = stream(alloc, &[log_entries::a1_voted(), log_entries::a2_voted()])?;
    let second = stream(alloc, &[log_entries::a2_voted()])?;
    let evidence = of_logs(alloc, &[(0, &both), (0, &second)])?;
    let votes = [(0, 1), (0, 2), (1, 1), (2, 1)];
    let reports = [
        report(0, Status::Whole, 2, 2),
        report(0, Status::Whole, 1, 1),
    ];
    shows(&rt, alloc, &evidence, &[0, 1, 2], &votes, &reports)
}

// The evidence of one entry, as the log of a replica.
fn of_entry(alloc: Global, replica: u16, entry: &[u8]) -> Result<Evidence<'static>, Fail> {
    let log = stream(alloc, &[entry])?;
    of_logs(alloc, &[(replica, &log)])
}

#[test]
fn an_entry_with_a_wrong_parent_shows_nothing(rt: HostRuntime) -> Result<(), Fail> {
    let alloc = rt.alloc();
    let evidence = of_entry(alloc, 0, log_entries::c5_of_wrong_parent_view())?;
    let reports = [report(0, Status::Whole, 1, 0)];
    shows(&rt, alloc, &evidence, &[0], &[], &reports)
}

// The entry of A2 with a byte of the second signature of its certificate turned.
fn turned(alloc: Global) -> Result<Vec<u8>, Fail> {
    let mut entry = log_entries::a2_voted().to_vec(alloc)?;
    let byte = entry.get_mut(1662 + 42 + 1455 + 3 + 100);
    *byte.ok_or("no such byte")? ^= 1;
    Ok(entry)
}

// It comes as the log of a replica that did not sign its own vote.
#[test]
fn bad_votes_are_left_out_alone(rt: HostRuntime) -> Result<(), Fail> {
    let alloc = rt.alloc();
    let entry = turned(alloc)?;
    let evidence = of_entry(alloc, 3, &entry)?;
    let reports = [report(3, Status::Whole, 1, 1)];
    shows(
        &rt,
        alloc,
        &evidence,
        &[0, 1, 2],
        &[(0, 1), (2, 1)],
        &reports,
    )
}
