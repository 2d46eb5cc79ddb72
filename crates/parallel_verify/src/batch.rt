//! Votes that are verified together, in as many threads as there are processors.

ghost use Rattle.std.specs.Prelude.{◌≡◌, IfOk};
ghost use Rattle.std.specs.List.{AllZip};
ghost use Rattle.certificates.specs.Votes.{IsAnswerOn};

use crate::{Board, BoardNaming};
use base_shared::Shared;
use blocks::CommitteeView;
use certificates::{SignedVote, Verifier, check_vote};
use rayon::prelude::*;
use std::alloc::{AllocError, Global};
use std::sync::Wait;
use std::thread::Threads;

// Nearly each check costs more than a thread, so that no list of votes is too short to be split.
const LEAST_PIECE: usize = 1;

/// Whether each of the votes is good under the committee, in their order: its replica is one of the committee,
/// and signed the vote's view and id in the committee's chain. The votes are split among as many threads as there are
/// processors; where no thread can be made, the calling one checks them all. Memory is refused where the list of answers,
/// or what the threads need, could not be made.
pub fn verify_all<R: Threads + Sync>(
    rt: &R,
    alloc: Global,
    committee: &CommitteeView,
    votes: &[SignedVote],
) -> Result<Vec<bool>, AllocError>
    ensures { IfOk result (λ answers. AllZip (IsAnswerOn committee.now) votes.now answers.items) }
{
    votes
        .par_iter()
        .with_min_len(LEAST_PIECE)
        .map(
            |vote: &SignedVote| -> bool
                ensures { IsAnswerOn committee.entry.now vote.now result }
            { check_vote(committee, vote).is_ok() },
        )
        .collect(rt, alloc)
}

// Whether each of the votes is good under the committee of the board, in their order. Each is checked by the verifier
// where the board has no answer to it.
pub(crate) fn check_all<N: BoardNaming + Send + Sync, R: Threads + Wait + Sync, V: Verifier + Sync>(
    rt: &R,
    alloc: Global,
    board: &Board<N>,
    verifier: &V,
    votes: &[Shared<SignedVote>],
) -> Result<Vec<bool>, AllocError>
    ensures { IfOk result (λ answers. AllZip (IsAnswerOn N.committee) votes.now answers.items) }
{
    votes
        .par_iter()
        .with_min_len(LEAST_PIECE)
        .map(
            |vote: &Shared<SignedVote>| -> Result<bool, AllocError>
                ensures { IfOk result (IsAnswerOn N.committee vote.now) }
            { board.check_by(rt, verifier, vote) },
        )
        .collect::<Result<Vec<bool>, AllocError>>(rt, alloc)?
}
