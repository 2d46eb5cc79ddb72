//! Requests dealt to workers in turn, and their outcomes in the order of the requests.

ghost use Rattle.std.specs.Prelude.{IfOk, IfSome, map};
ghost use Rattle.std.specs.List.{All};
ghost use Rattle.replica_command.specs.Dealing.{IsOutcomeAt, IsRequestIn};

use crate::worker::{Asked, Done, Work};
use replica_requests::{LineOutcome, LineRequest};
use std::alloc::{AllocError, Global};
use vote_desk::{DeskNaming, Session};

/// Deals requests to the sessions in turn: the first one to the first session.
pub(crate) fn deal<N: DeskNaming>(
    alloc: Global,
    sessions: Vec<Session<N>>,
    requests: Vec<LineRequest>,
) -> Result<Vec<Work<N>>, AllocError>
    ensures { IfOk result (λ all.
        All (λ work. All (IsRequestIn requests.items) work.requests.items) all.items) }
{
    let mut all = Vec::new(alloc);
    for session in sessions {
        all.push(Work::new(alloc, session))?;
    }
    for (number, request) in requests.into_iter().enumerate() {
        let turn = number.checked_rem(all.len()).unwrap_or(0);
        if let Some(work) = all.get_mut(turn) {
            work.requests.push(Asked { number, request })?;
        }
    }
    Ok(all)
}

/// What came of the request of this number, where it was dealt to a worker in turn.
pub(crate) fn outcome_at<N: DeskNaming>(all: &[Done<N>], number: usize) -> Option<&LineOutcome>
    ensures { IfSome result (λ outcome.
        IsOutcomeAt (map (λ done. done.outcomes.items) all.now) number outcome.now) }
{
    let turn = number.checked_rem(all.len())?;
    let round = number.checked_div(all.len())?;
    let answered = all.get(turn)?.outcomes.get(round)?;
    if answered.number != number {
        return None;
    }
    Some(&answered.outcome)
}
