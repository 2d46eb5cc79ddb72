//! Logs as they are sent, and evidence from them, under the stored committee.

use blocks::{CommitteeView, NamedHeader};
use log_format::Status;
use parallel_verify::{Evidence, SourceReport, SourceText, evidence_of};
use std::alloc::Global;
use std::process::Abort;
use std::test::Fail;
use test_fixtures::verdicts;

/// The stored committee.
pub fn committee() -> Result<CommitteeView<'static>, Fail> {
    let committee = CommitteeView::parse(verdicts::committee()).ok();
    Ok(committee.ok_or("the committee is refused")?)
}

// Adds a number of four bytes, the highest first.
fn put_number(text: &mut Vec<u8>, n: usize) -> Result<(), Fail> {
    let n = u32::try_from(n).ok().ok_or("too great")?;
    text.extend_from_slice(&n.to_be_bytes())?;
    Ok(())
}

fn put_frame(text: &mut Vec<u8>, payload: &[u8]) -> Result<(), Fail> {
    put_number(text, payload.len())?;
    text.extend_from_slice(payload)?;
    Ok(())
}

/// The stream in which these payloads go out.
pub fn stream(alloc: Global, payloads: &[&[u8]]) -> Result<Vec<u8>, Fail> {
    let mut text = b"HSL1".to_vec(alloc)?;
    for payload in payloads {
        put_frame(&mut text, payload)?;
    }
    put_number(&mut text, 0)?;
    put_number(&mut text, payloads.len())?;
    Ok(text)
}

/// What came as the logs of these replicas.
pub fn sources(alloc: Global, logs: &[(u16, &[u8])]) -> Result<Vec<SourceText>, Fail> {
    let mut sources = Vec::new(alloc);
    for (replica, text) in logs {
        let text = text.to_vec(alloc)?;
        sources.push(SourceText {
            replica: *replica,
            text,
        })?;
    }
    Ok(sources)
}

/// The evidence of these sources.
pub fn gathered(alloc: Global, sources: &[SourceText]) -> Result<Evidence<'static>, Fail> {
    let committee = committee()?;
    let evidence = evidence_of(alloc, &committee, sources).ok();
    Ok(evidence.ok_or("there is no evidence")?)
}

/// The evidence of what came as the logs of these replicas.
pub fn of_logs(alloc: Global, logs: &[(u16, &[u8])]) -> Result<Evidence<'static>, Fail> {
    let sources = sources(alloc, logs)?;
    gathered(alloc, &sources)
}

pub fn report(replica: u16, status: Status, frames: usize, entries: usize) -> SourceReport {
    SourceReport {
        replica,
        status,
        frames,
        entries,
    }
}

/// The views of the headers, rising.
pub fn views(alloc: Global, headers: &[NamedHeader]) -> Result<Vec<u64>, Fail> {
    let mut all = Vec::new(alloc);
    for named in headers {
        all.push(named.header().view)?;
    }
    all.sort_unstable();
    Ok(all)
}

// The replicas and views of the votes, in order.
fn ballots(alloc: Global, evidence: &Evidence) -> Result<Vec<(u16, u64)>, Fail> {
    let mut all = Vec::new(alloc);
    for vote in evidence.votes() {
        let vote = vote.get();
        all.push((vote.replica, vote.view))?;
    }
    Ok(all)
}

/// Asserts the views of the headers, the replicas and views of the votes, and what came of each source.
pub fn shows<R: Abort>(
    rt: &R,
    alloc: Global,
    evidence: &Evidence,
    of_headers: &[u64],
    of_votes: &[(u16, u64)],
    of_sources: &[SourceReport],
) -> Result<(), Fail> {
    let views = views(alloc, evidence.headers())?;
    let ballots = ballots(alloc, evidence)?;
    assert!(rt; views.as_slice() == of_headers);
    assert!(rt; ballots.as_slice() == of_votes);
    assert!(rt; evidence.sources() == of_sources);
    Ok(())
}
