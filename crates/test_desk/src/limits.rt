//! What a replica does at its limits: 1,024 votes of a key, 4,096 entries of a log, and 65,536 headers.

use crate::replicas::{
    Block, Step, committee, found_on, new_disk, new_keys, new_parts, new_store, on_genesis, stay,
};
use blocks::{CommitteeView, Header};
use lms_tree::SigningTree;
use replica_core::CoreRefusal;
use stable_log::MemoryDisk;
use std::alloc::{AllocError, Global};
use std::process::Abort;
use test_fixtures::certificates as texts;
use vote_desk::{Closed, DeskError, Parts};

// Whether the log has so many entries, and the key so many indices left.
fn has_left(parts: &Parts<MemoryDisk>, entries: usize, indices: u32) -> bool {
    parts.log.count() == entries && parts.index.left() == indices
}

// Whether 1,024 votes were released, and no more.
fn gave_1024_votes(closed: &Closed<MemoryDisk>) -> bool {
    closed.receipts.len() == 1024
        && closed.core.vote_view() == 1024
        && has_left(&closed.parts, 1024, 0)
}

const SPENDING: [Step; 3] = [
    Step::VotesForAll(1024),
    Step::Refuses(Block::OnGenesis(1025), DeskError::KeySpent),
    Step::Refuses(Block::OnGenesis(1025), DeskError::KeySpent),
];

// The key's 1,024 indices are given, and the next vote is refused, each time.
#[test]
fn key_is_spent_after_1024_votes(rt: HostRuntime) {
    let closed = stay(&rt, new_parts(&rt), &SPENDING);
    assert!(rt; gave_1024_votes(&closed));
}

// The entry of a vote for the block of this view on genesis. No signature in a log is checked.
fn push_entry(bytes: &mut Vec<u8>, genesis: &Header, block: &Header) -> Result<(), AllocError> {
    let (header, parent) = (block.to_bytes(), genesis.to_bytes());
    let (view, id, signature) = (block.view.to_be_bytes(), block.id(), [0; 1452]);
    let pieces: [&[u8]; 8] = [
        b"\x01\x00\x00\x06\xa8\x03",
        &header,
        &parent,
        b"\x00",
        &view,
        &id,
        &signature,
        texts::of_genesis(),
    ];
    for piece in pieces {
        bytes.extend_from_slice(piece)?;
    }
    Ok(())
}

// The bytes of a log of votes of the views from 1 to this one on genesis.
fn log_of_votes(
    alloc: Global,
    committee: &CommitteeView,
    last: u64,
) -> Result<Vec<u8>, AllocError> {
    let genesis = committee.genesis();
    let mut bytes = b"HSJ1\x00\x00\x00\x00".to_vec(alloc)?;
    for view in 1..=last {
        push_entry(&mut bytes, &genesis, &on_genesis(committee, view))?;
    }
    bytes.push(0)?;
    Ok(bytes)
}

/// A new replica but for its log, which has votes of the views from 1 to this one on genesis.
pub(crate) fn parts_with_votes<R: Abort + AllocGlobal>(
    rt: &R,
    trees: Vec<SigningTree>,
    last: u64,
) -> Parts<MemoryDisk> {
    let bytes = log_of_votes(rt.alloc(), &committee(rt), last).expect(rt, "memory");
    let disk = MemoryDisk::new(rt.alloc(), bytes).expect(rt, "memory");
    let index = new_store(rt, new_disk(rt)).into_disk();
    found_on(rt, trees, index, disk)
}

const FULL_LOG: [Step; 4] = [
    Step::Refuses(Block::OnGenesis(4097), DeskError::LogFull),
    Step::Holds(Block::OnGenesis(1)),
    Step::OnlyHolds(Block::OnGenesis(4097)),
    Step::Refuses(Block::OnGenesis(4097), DeskError::LogFull),
];

// A full log refuses a vote, and no index is drawn for it; a block that is only held is not refused, whether the replica would
// vote for it or not.
#[test]
fn log_is_full_at_4096_entries(rt: HostRuntime) {
    let parts = parts_with_votes(&rt, new_keys(&rt), 4096);
    let closed = stay(&rt, parts, &FULL_LOG);
    assert!(rt; has_left(&closed.parts, 4096, 1024));
}

const FULL_TREE: [Step; 4] = [
    Step::TimesOut(100_000),
    Step::HoldsAll(65_535),
    Step::Refuses(
        Block::OnGenesis(65_536),
        DeskError::Core(CoreRefusal::TreeFull),
    ),
    Step::Holds(Block::OnGenesis(1)),
];

// Beside genesis 65,535 blocks are held. One more is refused, and one that is held is delivered again.
#[test]
fn tree_is_full_at_65536_headers(rt: HostRuntime) {
    let closed = stay(&rt, new_parts(&rt), &FULL_TREE);
    assert!(rt; closed.parts.log.count() == 0);
}
