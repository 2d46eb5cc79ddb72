//! New votes, checked in as many threads as there are processors.

ghost use Rattle.std.specs.Prelude.{IfOk};
ghost use Rattle.std.specs.List.{AllZip};
ghost use Rattle.certificates.specs.Votes.{IsAnswerOn};

use base_shared::Shared;
use blocks::CommitteeView;
use certificates::{SignedVote, check_vote};
use rayon::prelude::*;
use std::alloc::{AllocError, Global};
use std::thread::Threads;

// Nearly each check costs more than a thread, so that no list of votes is too short to be split.
const LEAST_PIECE: usize = 1;

/// Whether each of the votes is good, in their order.
pub(crate) fn check_new<R: Threads + Sync>(
    rt: &R,
    alloc: Global,
    committee: &CommitteeView,
    votes: &[Shared<SignedVote>],
) -> Result<Vec<bool>, AllocError>
    ensures { IfOk result (λ answers. AllZip (IsAnswerOn committee.now) votes.now answers.items) }
{
    votes
        .par_iter()
        .with_min_len(LEAST_PIECE)
        .map(
            |vote: &Shared<SignedVote>| -> bool
                ensures { IsAnswerOn committee.entry.now vote.now result }
            { check_vote(committee, vote.get()).is_ok() },
        )
        .collect(rt, alloc)
}
