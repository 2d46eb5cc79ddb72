//! Worked runs of replica 0. What each stay leaves in the log is compared, by the digest of the disk's bytes, with the log
//! of an independent program that made them from the formats of docs/FORMATS.md and the seeds that `test_fixtures::keys` names.

use crate::replicas::{Block, Step, new_parts, restarted, stay};
use replica_core::CoreRefusal;
use std::process::Abort;
use std::sync::Wait;
use vote_desk::DeskError;

const LOG_WITH_A_RAISED_LOCK: &[u8; 32] =
    b"\x3a\x05\xcc\xe8\x10\x2f\x89\xff\x37\x91\x88\x95\xc1\x9b\x5b\xad\x57\x71\xd4\x67\x59\x4f\xb6\xf4\xb8\x89\x03\x74\x03\xf7\x4a\x93";

const LOG_OF_A1_AND_A3: &[u8; 32] =
    b"\x7a\x5d\x71\x45\x75\xaf\xf0\x3b\xbf\x6a\x4f\x83\x62\x4d\x2f\x60\x72\x5d\x1d\x85\x06\x85\x93\xf1\x66\x0c\x04\x22\x1f\xe2\x0c\xf5";

const LOG_OF_A1_A3_AND_F5: &[u8; 32] =
    b"\xa4\x37\x5e\x1a\x51\x5a\x19\xf2\xa8\xfe\x6d\x2b\xc9\x06\xf0\x2a\x7d\x82\x40\x4e\x35\x7e\x72\xe2\x13\xf6\xae\x3d\xb9\xbc\xfb\xaa";

const LOG_OF_A1_TO_A4: &[u8; 32] =
    b"\xfd\x47\x23\x28\xab\xd0\x4a\xc4\x2f\xe4\x9d\x02\xc4\xab\xec\xae\x83\x4b\x79\x99\x9e\x21\x0d\x58\x19\x7e\xd3\x6e\x66\x2a\x2b\xfc";

const LOG_WITH_A_RAISE_AND_NO_VOTE: &[u8; 32] =
    b"\xa3\x76\x41\x56\x31\x08\x5d\x3c\xad\xd1\x51\x35\xb9\x55\x43\xaf\xda\xf3\x3d\x86\x21\xb3\xda\x09\x16\x38\x66\x8a\xd9\x30\x1f\x77";

// One stay at a desk, and the digest of the log that it leaves.
#[derive(Clone, Copy)]
struct Stay {
    steps: &'static [Step],
    log: &'static [u8; 32],
}

// The stays of a new replica, one after the other.
fn lives<R: Wait + Abort + AllocGlobal>(rt: &R, stays: &[Stay]) {
    let mut parts = new_parts(rt);
    for next in stays {
        parts = restarted(rt, stay(rt, parts, next.steps).parts, next.log);
    }
}

const RAISED_LOCK: [Stay; 2] = [
    Stay {
        steps: &[
            Step::Votes(Block::A1, 0),
            Step::Votes(Block::A2, 1),
            Step::Votes(Block::A3, 2),
            Step::Holds(Block::W4),
            Step::TimesOut(9),
            Step::Holds(Block::X5),
            Step::Raises(Block::X6),
        ],
        log: LOG_WITH_A_RAISED_LOCK,
    },
    Stay {
        steps: &[
            Step::Refuses(Block::X6, DeskError::Core(CoreRefusal::UnknownParent)),
            Step::Holds(Block::W4),
        ],
        log: LOG_WITH_A_RAISED_LOCK,
    },
];

// A lock that a block raised without a vote holds after a restart, and a block whose parent was not stored is dropped.
#[test]
fn raised_lock_survives_restart(rt: HostRuntime) {
    lives(&rt, &RAISED_LOCK);
}

const TIMEOUT: [Stay; 2] = [
    Stay {
        steps: &[
            Step::Votes(Block::A1, 0),
            Step::Votes(Block::A3OnA1, 1),
            Step::TimesOut(9),
            Step::Holds(Block::F5),
        ],
        log: LOG_OF_A1_AND_A3,
    },
    Stay {
        steps: &[Step::Votes(Block::F5, 2)],
        log: LOG_OF_A1_A3_AND_F5,
    },
];

// A timeout keeps a replica from voting until it is started again.
#[test]
fn timeout_is_forgotten_at_restart(rt: HostRuntime) {
    lives(&rt, &TIMEOUT);
}

const FOUR_BLOCKS: [Stay; 1] = [Stay {
    steps: &[
        Step::Votes(Block::A1, 0),
        Step::Votes(Block::A2, 1),
        Step::Votes(Block::A3, 2),
        Step::OnlyHoldsAndCommitsA1(Block::A4),
        Step::VotesAndCommitsA1(Block::A4, 3),
    ],
    log: LOG_OF_A1_TO_A4,
}];

// Of four blocks in successive views the last commits the first, when it is held only and when it is voted for.
#[test]
fn a_fourth_block_commits_the_first(rt: HostRuntime) {
    lives(&rt, &FOUR_BLOCKS);
}

const RAISE_WITHOUT_VOTE: [Stay; 2] = [
    Stay {
        steps: &[
            Step::Votes(Block::A1, 0),
            Step::Votes(Block::A2, 1),
            Step::TimesOut(9),
            Step::Raises(Block::A3),
        ],
        log: LOG_WITH_A_RAISE_AND_NO_VOTE,
    },
    Stay {
        steps: &[Step::Holds(Block::Z4), Step::IsLockedOnA1],
        log: LOG_WITH_A_RAISE_AND_NO_VOTE,
    },
];

// A lock that a block raises after a timeout is stored, and holds after a restart.
#[test]
fn raise_without_vote_is_stored(rt: HostRuntime) {
    lives(&rt, &RAISE_WITHOUT_VOTE);
}
