//! A log whose export is stored. An independent program made it.

ghost use Rattle.blocks.specs.Headers.{IsGenesis};

use blocks::{CommitteeView, Header};
use log_format::{Entry, Frames};
use stable_log::MemoryDisk;
use std::process::Abort;
use test_fixtures::exports::nine_entries;
use test_fixtures::verdicts;
use vote_log::VoteLog;

fn genesis<R: Abort>(rt: &R) -> Header
    ensures { IsGenesis result }
{
    let committee = CommitteeView::parse(verdicts::committee());
    committee.ok().expect(rt, "a committee").genesis()
}

// A log with no entry.
fn empty_log<R: Abort + AllocGlobal>(rt: &R) -> VoteLog<MemoryDisk> {
    let disk = MemoryDisk::new(rt.alloc(), Vec::new(rt.alloc())).expect(rt, "memory");
    let log = VoteLog::create(rt.alloc(), disk, genesis(rt));
    log.ok().expect(rt, "create")
}

// Appends the entry of this text, which has to be legal, and answers whether that went well.
fn appends<R: Abort + AllocGlobal>(rt: &R, log: &mut VoteLog<MemoryDisk>, text: &[u8]) -> bool {
    let entry = Entry::read(rt.alloc(), text).ok().expect(rt, "an entry");
    assert!(rt; log.allows(&entry));
    log.append(&entry).is_ok()
}

/// The log of nine entries whose export is stored.
pub(crate) fn log_of_nine<R: Abort + AllocGlobal>(rt: &R) -> VoteLog<MemoryDisk> {
    let frames = Frames::of(rt.alloc(), nine_entries()).expect(rt, "memory");
    let mut log = empty_log(rt);
    for k in 0..frames.len() {
        assert!(rt; appends(rt, &mut log, frames.payload(k)));
    }
    log
}
