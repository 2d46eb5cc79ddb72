//! What a desk is not opened with, and sessions that are kept back.

ghost use Rattle.std.specs.Prelude.{◌≡◌};
ghost use Rattle.blocks.specs.Headers.{IsGenesis};

use crate::replicas::{Block, checked_by, committee, new_disk, new_log, new_parts};
use blocks::{CommitteeView, Header};
use certificates::LmsVerifier;
use stable_log::MemoryDisk;
use std::alloc::Global;
use std::marker::Brand;
use std::process::Abort;
use std::sync::Wait;
use std::sync::ledger::Blank;
use test_fixtures::log_entries;
use vote_desk::{Desk, DeskError, DeskNaming, Parts, StartError};
use vote_log::{Entry, VoteLog};

// Why a desk with two sessions is not opened, and the parts; none where it is opened.
fn starts<N: DeskNaming>(
    alloc: Global,
    blank: Blank,
    committee: &CommitteeView,
    replica: u16,
    parts: Parts<MemoryDisk>,
) -> Option<(StartError, Parts<MemoryDisk>)>
    requires name { blank.name ≡ N.name }
    requires ledger { (blank.parts ≡ N.parts) × (N.parts ≡ 2) }
    requires committee { committee.now ≡ N.committee }
    requires replica { replica ≡ N.replica }
    requires opening { parts.log.steps ≡ N.opening }
{
    Desk::<N, MemoryDisk>::start(alloc, blank, committee, replica, parts, 2).err()
}

// Asserts how a desk of this replica is refused, and gives the parts back.
fn refused<R: Abort + AllocGlobal>(
    rt: &R,
    replica: u16,
    parts: Parts<MemoryDisk>,
    want: StartError,
) -> Parts<MemoryDisk> {
    let committee = committee(rt);
    let refused = starts::<Brand>(rt.alloc(), Blank::new(2), &committee, replica, parts);
    let (refusal, parts) = refused.expect(rt, "a refusal");
    assert!(rt; refusal == want);
    parts
}

// The genesis of another chain.
fn other_genesis() -> Header
    ensures { IsGenesis result }
{
    Header {
        view: 0,
        parent_view: 0,
        parent: [0; 32],
        payload: [1; 32],
    }
}

fn log_of_another_chain<R: Abort + AllocGlobal>(rt: &R) -> VoteLog<MemoryDisk> {
    let log = VoteLog::create(rt.alloc(), new_disk(rt), other_genesis()).ok();
    log.expect(rt, "a log")
}

// The parts with another log.
fn with_log(parts: Parts<MemoryDisk>, log: VoteLog<MemoryDisk>) -> Parts<MemoryDisk> {
    let Parts {
        trees,
        index,
        log: _,
    } = parts;
    Parts { trees, index, log }
}

// A log whose disk fails from now on.
fn failing_log<R: Abort + AllocGlobal>(rt: &R) -> VoteLog<MemoryDisk> {
    let calls = new_log(rt, new_disk(rt)).into_disk().calls();
    let mut disk = new_disk(rt);
    disk.fuse(u32::try_from(calls).unwrap_or(u32::MAX), false);
    new_log(rt, disk)
}

// A log whose disk failed in an append.
fn stopped_log<R: Abort + AllocGlobal>(rt: &R) -> VoteLog<MemoryDisk> {
    let mut log = failing_log(rt);
    let entry = Entry::read(rt.alloc(), log_entries::a1_voted()).ok();
    let entry = entry.expect(rt, "an entry");
    if log.allows(&entry) {
        let _ = log.append(&entry);
    }
    log
}

#[test]
fn desk_refusals(rt: HostRuntime) {
    let mut parts = new_parts(&rt);
    for (replica, why) in [(1, StartError::WrongKey), (4, StartError::UnknownReplica)] {
        parts = refused(&rt, replica, parts, why);
    }
    let parts = with_log(parts, log_of_another_chain(&rt));
    let parts = refused(&rt, 0, parts, StartError::WrongChain);
    let parts = with_log(parts, stopped_log(&rt));
    refused(&rt, 0, parts, StartError::Stopped);
}

// A desk of two sessions, one of which gets a receipt and is kept back: how closing is refused, and the parts.
fn withholds<N: DeskNaming, R: Wait + AllocGlobal>(
    rt: &R,
    blank: Blank,
    committee: &CommitteeView,
    parts: Parts<MemoryDisk>,
) -> Option<(DeskError, Parts<MemoryDisk>)>
    requires name { blank.name ≡ N.name }
    requires ledger { (blank.parts ≡ N.parts) × (N.parts ≡ 2) }
    requires committee { committee.now ≡ N.committee }
    requires replica { 0 ≡ N.replica }
    requires opening { parts.log.steps ≡ N.opening }
{
    let started = Desk::<N, MemoryDisk>::start(rt.alloc(), blank, committee, 0, parts, 2);
    let (desk, mut sessions) = started.ok()?;
    let mut kept = sessions.pop()?;
    let block = checked_by(rt.alloc(), &LmsVerifier, committee, Block::OnGenesis(1))?;
    let _ = desk.deliver(rt, &mut kept, block);
    desk.close(rt.alloc(), sessions).err()
}

#[test]
fn withheld_receipt(rt: HostRuntime) {
    let committee = committee(&rt);
    let parts = new_parts(&rt);
    let refused = withholds::<Brand, HostRuntime>(&rt, Blank::new(2), &committee, parts);
    let (refusal, parts) = refused.expect(&rt, "a refusal");
    assert!(rt; refusal == DeskError::ReceiptMismatch && parts.log.count() == 1);
}
