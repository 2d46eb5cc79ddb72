//! Evidence of a fork, and votes that are verified together: bytes of an independent program.

use crate::sources::{committee, gathered, report, shows, sources, stream};
use audit_evidence::{Anew, Gathered, SourceLog};
use base_shared::Shared;
use blocks::NamedHeader;
use certificates::SignedVote;
use log_format::{Frames, Status};
use parallel_verify::{Evidence, SourceReport, SourceText, verify_all};
use std::alloc::Global;
use std::test::Fail;
use test_fixtures::{fork_logs, log_entries};
use vote_log::Entry;

// The logs of replicas 0 and 3.
fn fork(alloc: Global) -> Result<Vec<SourceText>, Fail> {
    sources(alloc, &[(0, fork_logs::log_0()), (3, fork_logs::log_3())])
}

fn of_fork(alloc: Global) -> Result<Evidence<'static>, Fail> {
    let fork = fork(alloc)?;
    gathered(alloc, &fork)
}

// What comes of the two logs.
fn reports() -> [SourceReport; 2] {
    [
        report(0, Status::Whole, 4, 4),
        report(3, Status::Whole, 4, 4),
    ]
}

// The replicas and views of the votes: replicas 1 and 2 signed the certificates of both sides.
const VOTES: [(u16, u64); 20] = [
    (0, 1),
    (0, 2),
    (0, 3),
    (0, 7),
    (1, 1),
    (1, 2),
    (1, 3),
    (1, 4),
    (1, 5),
    (1, 6),
    (2, 1),
    (2, 2),
    (2, 3),
    (2, 4),
    (2, 5),
    (2, 6),
    (3, 4),
    (3, 5),
    (3, 6),
    (3, 8),
];

// Genesis, four blocks of the one branch, and four of the other.
#[test]
fn a_fork_is_in_evidence(rt: HostRuntime) -> Result<(), Fail> {
    let alloc = rt.alloc();
    let evidence = of_fork(alloc)?;
    let views = [0, 1, 2, 3, 4, 5, 6, 7, 8];
    shows(&rt, alloc, &evidence, &views, &VOTES, &reports())
}

// What one log shows.
fn alone(alloc: Global, replica: u16, text: &'static [u8]) -> Result<Gathered<'static>, Fail> {
    let committee = committee()?;
    let mut gathered = Gathered::new(alloc, &committee)?;
    let log = SourceLog {
        replica,
        frames: Frames::of(alloc, text)?,
    };
    let report = gathered.add_log(alloc, &Anew { alloc }, &log).ok();
    let _ = report.ok_or("the log is refused")?;
    Ok(gathered)
}

// What two logs show that were gathered apart.
fn merged(alloc: Global) -> Result<Gathered<'static>, Fail> {
    let mut both = alone(alloc, 0, fork_logs::log_0())?;
    let (headers, votes, certificates) = alone(alloc, 3, fork_logs::log_3())?.into_parts(alloc)?;
    let outcome = both.merge(&headers, &votes, &certificates).ok();
    outcome.ok_or("the logs are refused")?;
    Ok(both)
}

#[test]
fn logs_gathered_apart_are_merged(rt: HostRuntime) -> Result<(), Fail> {
    let alloc = rt.alloc();
    let evidence = of_fork(alloc)?;
    let (headers, _votes, _certificates) = merged(alloc)?.into_parts(alloc)?;
    assert!(rt; are_headers(&headers, evidence.headers()));
    let listing = merged(alloc)?.in_order(alloc)?;
    assert!(rt; listing.votes() == evidence.votes());
    Ok(())
}

// Whether these are the headers.
fn are_headers(shared: &[Shared<NamedHeader>], headers: &[NamedHeader]) -> bool {
    if shared.len() != headers.len() {
        return false;
    }
    for k in 0..headers.len() {
        if *shared[k].get() != headers[k] {
            return false;
        }
    }
    true
}

// A log of one frame too many.
fn too_long(alloc: Global) -> Result<SourceText, Fail> {
    let payload: &[u8] = &[0];
    let payloads = vec![in alloc; payload; 4097]?;
    let text = stream(alloc, &payloads)?;
    Ok(SourceText { replica: 1, text })
}

// The evidence of the fork, and of three logs beside it: one frame too many, no bytes at all, and a length
// that no frame has.
fn with_hostile(alloc: Global) -> Result<Evidence<'static>, Fail> {
    let mut logs = fork(alloc)?;
    logs.push(too_long(alloc)?)?;
    for source in sources(alloc, &[(2, b""), (1, b"HSL1\x00\x01\x00\x01")])? {
        logs.push(source)?;
    }
    gathered(alloc, &logs)
}

fn is_same(first: &Evidence, second: &Evidence) -> bool {
    first.headers() == second.headers() && first.votes() == second.votes()
}

#[test]
fn hostile_sources_change_nothing(rt: HostRuntime) -> Result<(), Fail> {
    let honest = of_fork(rt.alloc())?;
    let evidence = with_hostile(rt.alloc())?;
    assert!(rt; is_same(&evidence, &honest));
    let [first, second] = reports();
    let reports = [
        first,
        second,
        report(1, Status::TooLong, 4096, 0),
        report(2, Status::Cut, 0, 0),
        report(1, Status::Broken, 0, 0),
    ];
    assert!(rt; evidence.sources() == reports.as_slice());
    Ok(())
}

// The own vote of the stored entry for A1, taken as that of a replica.
fn vote_of(alloc: Global, replica: u16) -> Result<SignedVote, Fail> {
    let entry = Entry::read(alloc, log_entries::a1_voted()).ok();
    Ok(entry.ok_or("no entry")?.vote(replica).ok_or("no vote")?)
}

// Replica 0 signed the vote, and replica 1 did not.
#[test]
fn votes_are_judged_one_by_one(rt: HostRuntime) -> Result<(), Fail> {
    let alloc = rt.alloc();
    let committee = committee()?;
    let signed = vote_of(alloc, 0)?;
    let unsigned = vote_of(alloc, 1)?;
    let none = verify_all(&rt, alloc, &committee, &[])?;
    assert!(rt; none.is_empty());
    let answers = verify_all(&rt, alloc, &committee, &[signed, unsigned, signed])?;
    assert!(rt; answers.as_slice() == [true, false, true].as_slice());
    Ok(())
}
