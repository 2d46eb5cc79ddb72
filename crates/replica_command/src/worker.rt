//! What one worker does.

ghost use Rattle.std.specs.Prelude.{◌≡◌, [], IfOk};
ghost use Rattle.replica_command.specs.LineReceipts.{receipts_after_line};
ghost use Rattle.replica_command.specs.StayAnswers.{IsStayAnswer};
ghost use Rattle.replica_command.specs.Dealing.{AreWorked};

use blocks::CommitteeView;
use certificates::LmsVerifier;
use replica_requests::{LineOutcome, LineRequest, Outcome, answer};
use stable_log::Disk;
use std::alloc::{AllocError, Global};
use std::sync::Wait;
use vote_desk::{Desk, DeskError, DeskNaming, Session};

/// A request, and its number from 0 in the order of the lines.
#[derive(Drop)]
pub(crate) struct Asked {
    pub number: usize,
    pub request: LineRequest,
}

/// What came of the request of this number.
#[derive(Clone, Copy)]
pub(crate) struct Answered {
    pub number: usize,
    pub outcome: LineOutcome,
}

/// A worker's session, and the requests that were dealt to it.
#[derive(Drop)]
pub(crate) struct Work<N: DeskNaming> {
    pub session: Session<N>,
    pub requests: Vec<Asked>,
}

/// A worker's session after its work, and what came of its requests, in their order.
#[derive(Drop)]
pub(crate) struct Done<N: DeskNaming> {
    pub session: Session<N>,
    pub outcomes: Vec<Answered>,
}

impl<N: DeskNaming> Work<N> {
    /// No requests yet.
    pub fn new(alloc: Global, session: Session<N>) -> Work<N>
        ensures { result.requests.items ≡ [] }
    {
        Work {
            session,
            requests: Vec::new(alloc),
        }
    }

    /// Takes the requests to the desk, one after the other. Gives up where memory is refused: what was stored until then
    /// stays.
    pub fn run<T: Wait, D: Disk>(
        self,
        rt: &T,
        alloc: Global,
        desk: &Desk<N, D>,
        committee: &CommitteeView,
    ) -> Result<Done<N>, AllocError>
        requires { committee.now ≡ N.committee }
        ensures { IfOk result (λ done.
            AreWorked D.Disk N.committee N.replica N.opening self.requests.items
            done.session.receipts.items done.outcomes.items) }
    {
        let Work {
            mut session,
            requests,
        } = self;
        let mut outcomes = Vec::with_capacity(alloc, requests.len())?;
        for Asked { number, request } in requests {
            let outcome = answer_unless_starved(rt, desk, committee, &mut session, request)?;
            outcomes.push(Answered { number, outcome })?;
        }
        Ok(Done { session, outcomes })
    }
}

// What comes of a line's request, or that memory was refused. A bad line asks for nothing.
fn answer_unless_starved<N: DeskNaming, T: Wait, D: Disk>(
    rt: &T,
    desk: &Desk<N, D>,
    committee: &CommitteeView,
    session: &mut Session<N>,
    request: LineRequest,
) -> Result<LineOutcome, AllocError>
    requires { committee.now ≡ N.committee }
    ensures answer { IfOk result (IsStayAnswer D.Disk N.committee N.replica N.opening request) }
    ensures receipts { IfOk result (λ outcome.
        session.new.receipts.items ≡ receipts_after_line session.old.receipts.items outcome) }
{
    let LineRequest::Asked(request) = request else {
        return Ok(LineOutcome::BadLine);
    };
    match answer(rt, desk, committee, &LmsVerifier, session, request) {
        Outcome::RefusedByDesk(DeskError::Memory) => Err(AllocError),
        outcome => Ok(LineOutcome::Came(outcome)),
    }
}
