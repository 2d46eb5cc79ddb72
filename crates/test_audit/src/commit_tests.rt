//! Commits of evidence from blocks and certificates of an independent program, under the stored committee.

use crate::sources::{of_logs, stream, views};
use audit_commits::{certified_chains, first_conflict, proved_commits};
use blocks::NamedHeader;
use parallel_verify::Evidence;
use std::alloc::Global;
use std::test::Fail;
use test_fixtures::{certificates, core_blocks};

// A block that raised the lock without a vote: its header, its parent's, and the parent's certificate.
type Raised = [&'static [u8]; 3];

// The entry of such a block.
fn entry(alloc: Global, raised: &Raised) -> Result<Vec<u8>, Fail> {
    let mut entry = vec![in alloc; 4u8]?;
    for piece in raised {
        entry.extend_from_slice(piece)?;
    }
    Ok(entry)
}

// A log with these blocks.
fn log(alloc: Global, blocks: &[Raised]) -> Result<Vec<u8>, Fail> {
    let mut entries = Vec::new(alloc);
    for raised in blocks {
        entries.push(entry(alloc, raised)?)?;
    }
    let mut payloads: Vec<&[u8]> = Vec::new(alloc);
    for entry in &entries {
        payloads.push(entry)?;
    }
    stream(alloc, &payloads)
}

// The commits that evidence proves, where no two of them conflict.
fn commits(alloc: Global, evidence: &Evidence) -> Result<Vec<NamedHeader>, Fail> {
    let chains = certified_chains(alloc, evidence)?;
    let commits = proved_commits(alloc, &chains)?;
    if first_conflict(&chains, &commits).is_some() {
        return Err("commits conflict".into());
    }
    Ok(commits)
}

// The views of the commits that logs of these replicas prove.
fn committed(alloc: Global, logs: &[(u16, &[u8])]) -> Result<Vec<u64>, Fail> {
    let evidence = of_logs(alloc, logs)?;
    let commits = commits(alloc, &evidence)?;
    views(alloc, &commits)
}

fn a1() -> Raised {
    [
        certificates::header_a2(),
        core_blocks::a1(),
        core_blocks::certificate_of_a1(),
    ]
}

fn a2() -> Raised {
    [
        core_blocks::a3(),
        certificates::header_a2(),
        core_blocks::certificate_of_a2(),
    ]
}

fn a3() -> Raised {
    [
        core_blocks::a4(),
        core_blocks::a3(),
        core_blocks::certificate_of_a3(),
    ]
}

fn w4() -> Raised {
    [
        core_blocks::x5(),
        core_blocks::w4(),
        core_blocks::certificate_of_w4(),
    ]
}

fn x5() -> Raised {
    [
        core_blocks::x6(),
        core_blocks::x5(),
        core_blocks::certificate_of_x5(),
    ]
}

#[test]
fn no_sources_prove_no_commit(rt: HostRuntime) -> Result<(), Fail> {
    let views = committed(rt.alloc(), &[])?;
    assert!(rt; views.is_empty());
    Ok(())
}

// A1, A2 and A3 are certified in the views 1, 2 and 3, and W4 and X5 beside them in 4 and 5.
#[test]
fn three_certified_blocks_commit_the_first(rt: HostRuntime) -> Result<(), Fail> {
    let chain = log(rt.alloc(), &[a1(), a2(), a3()])?;
    let beside = log(rt.alloc(), &[w4(), x5()])?;
    let views = committed(rt.alloc(), &[(0, &chain), (0, &beside)])?;
    assert!(rt; views.as_slice() == [1].as_slice());
    Ok(())
}

#[test]
fn two_certified_blocks_commit_nothing(rt: HostRuntime) -> Result<(), Fail> {
    let two = log(rt.alloc(), &[a1(), a2()])?;
    let views = committed(rt.alloc(), &[(0, &two)])?;
    assert!(rt; views.is_empty());
    Ok(())
}
