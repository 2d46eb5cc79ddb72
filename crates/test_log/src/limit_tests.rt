//! A log at its greatest length.

use crate::entry_tests::entry_of;
use crate::log_tests::{new_log, recovered};
use blocks::{CommitteeView, Header};
use certificates::{Certificate, LmsVerifier, check_block};
use stable_log::Disk;
use std::alloc::Global;
use std::process::Abort;
use test_fixtures::verdicts;
use vote_log::{Entry, Frames, LogError, MemorySink, Status, VoteLog};

// The certificate of genesis: view 0, its id, and no votes.
fn genesis_certificate(alloc: Global, genesis: &Header) -> Option<Certificate> {
    let mut text = [0; 8].to_vec(alloc).ok()?;
    text.extend_from_slice(&genesis.id()).ok()?;
    text.extend_from_slice(&[0, 0]).ok()?;
    Certificate::read(alloc, &text).ok()
}

// An entry with a vote for a block of this view on genesis. Its signature is none: a log does not look at it.
fn vote_on_genesis<R: Abort + AllocGlobal>(rt: &R, view: u64) -> Entry {
    assert!(rt; 0 < view);
    let committee = CommitteeView::parse(verdicts::committee());
    let committee = committee.ok().expect(rt, "a committee");
    let genesis = committee.genesis();
    let certificate = genesis_certificate(rt.alloc(), &genesis).expect(rt, "a certificate");
    let header = Header {
        view,
        parent_view: 0,
        parent: genesis.id(),
        payload: [0; 32],
    };
    let block = check_block(&committee, &LmsVerifier, header, certificate);
    entry_of(
        rt,
        block.ok().expect(rt, "a good block"),
        genesis,
        [0; 1452],
    )
}

// What a log answers to one vote more, in this view.
fn append_vote<R: Abort + AllocGlobal, D: Disk>(
    rt: &R,
    log: &mut VoteLog<D>,
    view: u64,
) -> Result<(), LogError> {
    let entry = vote_on_genesis(rt, view);
    assert!(rt; log.allows(&entry));
    log.append(&entry)
}

// Adds votes in the views up to this one, from 1 on.
fn fill<R: Abort + AllocGlobal, D: Disk>(rt: &R, log: &mut VoteLog<D>, until: u64) {
    for view in 1..=until {
        assert!(rt; append_vote(rt, log, view) == Ok(()));
    }
}

// Whether the export of a whole log has so many frames and is whole.
fn exports_all<D: Disk>(alloc: Global, log: &mut VoteLog<D>, count: u32) -> bool {
    let mut sink = MemorySink::new(alloc);
    if log.export(0, u32::MAX, &mut sink) != Ok(count) {
        return false;
    }
    match Frames::of(alloc, sink.bytes()) {
        Ok(frames) => frames.len() == count as usize && frames.status() == Status::Whole,
        Err(_) => false,
    }
}

#[test]
fn a_log_fills_up_after_a_restart(rt: HostRuntime) {
    let mut log = new_log(&rt);
    fill(&rt, &mut log, 4095);
    let mut log = recovered(&rt, log.into_disk());
    assert!(rt; log.count() == 4095);
    assert!(rt; append_vote(&rt, &mut log, 4096) == Ok(()));
    assert!(rt; append_vote(&rt, &mut log, 4097) == Err(LogError::Full));
    assert!(rt; exports_all(rt.alloc(), &mut log, 4096));
}
