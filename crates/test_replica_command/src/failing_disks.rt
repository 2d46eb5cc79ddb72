//! Disks that fail under a replica.

ghost use Rattle.std.specs.Prelude.{◌<◌};

use base_streams::MemorySink;
use blocks::{CommitteeView, Header};
use certificates::Certificate;
use key_index_store::IndexStore;
use lmots::PrivateSeed;
use lms_tree::SigningTree;
use replica_command::{Ending, ReplicaFault, StayEnd, stay};
use replica_requests::{LineRequest, Request};
use stable_log::MemoryDisk;
use std::alloc::Global;
use std::marker::Brand;
use std::process::Abort;
use std::sync::Wait;
use std::sync::ledger::Blank;
use std::test::Fail;
use std::thread::Threads;
use test_fixtures::{certificates as texts, verdicts};
use vote_desk::Parts;
use vote_log::VoteLog;

// How many calls of a disk make a store on it.
const CALLS_OF_CREATE: u32 = 3;

// A disk on which a store can be made, and which fails once after so many calls more.
fn disk<R: Abort>(rt: &R, alloc: Global, calls: Option<u32>) -> MemoryDisk {
    let mut disk = MemoryDisk::new(alloc, Vec::new(alloc))
        .ok()
        .expect(rt, "a disk");
    if let Some(calls) = calls {
        disk.fuse(calls.saturating_add(CALLS_OF_CREATE), false);
    }
    disk
}

// The parts of a new replica 0, whose disks fail after so many calls.
fn parts<R: Abort>(
    rt: &R,
    alloc: Global,
    committee: &CommitteeView,
    index_calls: Option<u32>,
    log_calls: Option<u32>,
) -> Parts<MemoryDisk> {
    let secret = PrivateSeed {
        key_id: [0; 16],
        seed: [16; 32],
    };
    let index = IndexStore::create(alloc, disk(rt, alloc, index_calls), 1).ok();
    let log = VoteLog::create(alloc, disk(rt, alloc, log_calls), committee.genesis()).ok();
    let tree = SigningTree::generate(alloc, secret)
        .ok()
        .expect(rt, "a key");
    Parts {
        trees: vec![in alloc; tree].ok().expect(rt, "memory"),
        index: index.expect(rt, "an index store"),
        log: log.expect(rt, "a log"),
    }
}

// To deliver the block of this view on genesis.
fn block<R: Abort>(rt: &R, alloc: Global, committee: &CommitteeView, view: u64) -> LineRequest
    requires { 0 < view }
{
    let header = Header {
        view,
        parent_view: 0,
        parent: committee.chain(),
        payload: [0; 32],
    };
    let certificate = Certificate::read(alloc, texts::of_genesis()).ok();
    LineRequest::Asked(Request::Block(header, certificate.expect(rt, "a certificate")))
}

// Three blocks, all on genesis, and a timeout.
fn requests<R: Abort>(rt: &R, alloc: Global, committee: &CommitteeView) -> Vec<LineRequest> {
    let mut all = Vec::new(alloc);
    for view in 1..4 {
        let added = all.push(block(rt, alloc, committee, view)).is_ok();
        assert!(rt; added);
    }
    let added = all.push(LineRequest::Asked(Request::Timeout(9))).is_ok();
    assert!(rt; added);
    all
}

// What one worker of replica 0 prints.
fn run<R: Threads + Wait + Sync>(
    rt: &R,
    alloc: Global,
    committee: &CommitteeView,
    parts: Parts<MemoryDisk>,
    requests: Vec<LineRequest>,
    out: &mut MemorySink,
) -> Result<StayEnd<MemoryDisk>, ReplicaFault> {
    stay::<Brand, R, MemoryDisk, MemorySink>(
        rt,
        alloc,
        Blank::new(1),
        committee,
        0,
        parts,
        1,
        requests,
        out,
    )
}

fn committee<R: Abort>(rt: &R) -> CommitteeView<'static> {
    let committee = CommitteeView::parse(verdicts::committee()).ok();
    committee.expect(rt, "a committee")
}

// Runs a replica whose disks fail after so many calls, and answers how that ended, and what it printed.
fn printed<R: Threads + Wait + Sync + Abort>(
    rt: &R,
    alloc: Global,
    index_calls: Option<u32>,
    log_calls: Option<u32>,
) -> (Ending, MemorySink) {
    let committee = committee(rt);
    let parts = parts(rt, alloc, &committee, index_calls, log_calls);
    let requests = requests(rt, alloc, &committee);
    let mut out = MemorySink::new(alloc);
    let end = run(rt, alloc, &committee, parts, requests, &mut out);
    (end.ok().expect(rt, "a stay").ending, out)
}

// The log's disk fails in the second vote: the first one stays released, and nothing is answered behind it.
#[test]
fn a_log_that_fails_stops_the_replica(rt: HostRuntime) -> Result<(), Fail> {
    let (ending, out) = printed(&rt, rt.alloc(), None, Some(6));
    assert!(rt; ending == Ending::Stopped);
    assert!(rt; out.bytes().starts_with(b"voted 0 0000000000000000000"));
    assert!(rt;
        out.bytes()
            .ends_with(b"\ndesk 5\ndesk 6\ndesk 6\nclosed 1\n")
    );
    Ok(())
}

// The index disk fails in the first vote.
#[test]
fn an_index_store_that_fails_stops_the_replica(rt: HostRuntime) -> Result<(), Fail> {
    let (ending, out) = printed(&rt, rt.alloc(), Some(1), None);
    assert!(rt; ending == Ending::Stopped);
    let expected = b"desk 5\ndesk 6\ndesk 6\ndesk 6\nclosed 0\n".as_slice();
    assert!(rt; out.bytes() == expected);
    Ok(())
}

// Nothing fails, once: the replica is not stopped.
#[test]
fn disks_that_hold_do_not_stop_the_replica(rt: HostRuntime) -> Result<(), Fail> {
    let (ending, out) = printed(&rt, rt.alloc(), None, None);
    assert!(rt; ending == Ending::Done);
    assert!(rt; out.bytes().ends_with(b"\ntimeout 9\nclosed 3\n"));
    Ok(())
}
