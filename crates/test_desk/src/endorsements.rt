//! Statements of next keys that a desk signs between its votes.

use crate::replicas::{Block, Step, new_parts, stay};
use blocks::CommitteeView;
use handover_keys::{NextKeysView, write_next_keys};
use lms_tree::verify;
use stable_log::MemoryDisk;
use std::process::Abort;
use std::sync::Wait;
use vote_desk::{Desk, DeskNaming};

/// Whether a statement of next keys is signed with the replica's first key, under this index.
pub(crate) fn endorses<N: DeskNaming, R: Wait + AllocGlobal>(
    rt: &R,
    desk: &Desk<N, MemoryDisk>,
    committee: &CommitteeView,
    index: u32,
) -> bool {
    if committee.n() == 0 {
        return false;
    }
    // For the proof: each replica has a key.
    let _count = committee.keys(0);
    let keys = [committee.key(0, 0)];
    let Ok(bytes) = write_next_keys(rt.alloc(), &committee.chain(), 0, &keys) else {
        return false;
    };
    let Ok(statement) = NextKeysView::parse(&bytes) else {
        return false;
    };
    match desk.endorse(rt, &statement) {
        Ok(seal) => {
            seal.key == 0
                && seal.signature.starts_with(&index.to_be_bytes())
                && verify(&keys[0], &bytes, &seal.signature).is_ok()
        }
        Err(_) => false,
    }
}

const BETWEEN_VOTES: [Step; 4] = [
    Step::Votes(Block::A1, 0),
    Step::Endorses(1),
    Step::Endorses(2),
    Step::Votes(Block::A2, 1),
];

// Each statement that is signed uses up one index, and adds nothing to the log.
#[test]
fn a_statement_is_signed_between_votes(rt: HostRuntime) {
    let closed = stay(&rt, new_parts(&rt), &BETWEEN_VOTES);
    assert!(rt; closed.parts.index.left() == 1020);
    assert!(rt; closed.parts.log.count() == 2);
}
