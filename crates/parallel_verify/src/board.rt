//! A memo of checked votes, shared by threads.

ghost use Rattle.std.specs.Prelude.{◌≡◌, ◌↔◌, IfOk, IfSome, IsTrue};
ghost use Rattle.certificates.specs.Votes.{IsAnswerOn, IsGoodVote};

use crate::memo::Memo;
use crate::naming::BoardNaming;
use base_shared::Shared;
use blocks::CommitteeView;
use certificates::{LmsVerifier, SignedVote, Verifier, is_signed_by};
use std::alloc::{AllocError, Global};
use std::sync::{Mutex, Wait};

// Whether the vote is good: its replica is one of the committee, and signed it with the key that it names.
fn is_good<V: Verifier>(verifier: &V, committee: &CommitteeView, vote: &SignedVote) -> bool
    ensures { IsTrue result ↔ IsGoodVote committee.now vote.now }
{
    vote.replica < committee.n()
        && vote.key < committee.keys(vote.replica)
        && is_signed_by(
            verifier,
            committee,
            vote.replica,
            vote.key,
            &vote.ballot(),
            &vote.signature,
        )
}

/// The votes that were posted or checked under a committee, each once, with the answers of those that were checked.
/// Threads share it by reference. It keeps some 1,540 bytes for each different vote, and forgets none.
#[derive(Drop)]
pub struct Board<'a, N: BoardNaming> {
    alloc: Global,
    committee: CommitteeView<'a>,
    // Each grows only. A vote stands in the one of its replica, so that threads seldom wait for one another.
    memo_0: Mutex<Memo<N>>,
    memo_1: Mutex<Memo<N>>,
    memo_2: Mutex<Memo<N>>,
    memo_3: Mutex<Memo<N>>,
    memo_4: Mutex<Memo<N>>,
    memo_5: Mutex<Memo<N>>,
    memo_6: Mutex<Memo<N>>,
    memo_7: Mutex<Memo<N>>,
    ghost named: { committee ≡ N.committee },
}

impl<'a, N: BoardNaming> Board<'a, N> {
    /// A board with no votes yet, for votes under this committee. Takes no memory.
    pub fn new(alloc: Global, committee: CommitteeView<'a>) -> Board<'a, N>
        requires { committee ≡ N.committee }
    {
        Board {
            alloc,
            committee,
            memo_0: Mutex::new(Memo::new(alloc)),
            memo_1: Mutex::new(Memo::new(alloc)),
            memo_2: Mutex::new(Memo::new(alloc)),
            memo_3: Mutex::new(Memo::new(alloc)),
            memo_4: Mutex::new(Memo::new(alloc)),
            memo_5: Mutex::new(Memo::new(alloc)),
            memo_6: Mutex::new(Memo::new(alloc)),
            memo_7: Mutex::new(Memo::new(alloc)),
        }
    }

    // Where the votes of this replica stand.
    fn memo_of(&self, replica: u16) -> &Mutex<Memo<N>> {
        match replica % 8 {
            0 => &self.memo_0,
            1 => &self.memo_1,
            2 => &self.memo_2,
            3 => &self.memo_3,
            4 => &self.memo_4,
            5 => &self.memo_5,
            6 => &self.memo_6,
            _ => &self.memo_7,
        }
    }

    // What is remembered of a vote.
    fn recall<R: Wait>(&self, rt: &R, vote: &Shared<SignedVote>) -> Option<bool>
        ensures { IfSome result (IsAnswerOn N.committee vote.now) }
    {
        self.memo_of(vote.get().replica).lock(rt).recall(vote)
    }

    // Remembers the answer to a vote.
    fn remember<R: Wait>(
        &self,
        rt: &R,
        vote: Shared<SignedVote>,
        is_good: bool,
    ) -> Result<(), AllocError>
        requires { IsAnswerOn N.committee vote is_good }
    {
        self.memo_of(vote.get().replica)
            .lock(rt)
            .remember(vote, is_good)
    }

    /// The vote, which stands in memory once however often it is posted. It is not checked. Where memory is refused no
    /// answer that is remembered is lost.
    pub fn post<R: Wait>(&self, rt: &R, vote: &SignedVote) -> Result<Shared<SignedVote>, AllocError>
        ensures { IfOk result (λ v. v ≡ vote.now) }
    {
        let vote = Shared::new(self.alloc, *vote)?;
        // A copy that is not needed is freed once the lock is given back.
        let posted = self.memo_of(vote.get().replica).lock(rt).post(&vote)?;
        Ok(posted)
    }

    /// Whether the vote is good: its replica is one of the committee, and signed the vote's view and id in the
    /// committee's chain. It is looked up where the vote was checked before; else the vote is checked, while no lock is
    /// held, and the answer is remembered, good or bad. Two threads that ask for one vote at the same time may both check
    /// it. It is looked up as a copy on the heap; where memory is refused no answer is given, and what is remembered stays as it
    /// was.
    pub fn check<R: Wait>(&self, rt: &R, vote: &SignedVote) -> Result<bool, AllocError>
        ensures { IfOk result (IsAnswerOn N.committee vote.now) }
    {
        let vote = Shared::new(self.alloc, *vote)?;
        self.check_by(rt, &LmsVerifier, &vote)
    }

    /// The same as `check`, for a vote that stands in memory already, with signatures checked by this verifier, which a
    /// test may watch.
    pub fn check_by<R: Wait, V: Verifier>(
        &self,
        rt: &R,
        verifier: &V,
        vote: &Shared<SignedVote>,
    ) -> Result<bool, AllocError>
        ensures { IfOk result (IsAnswerOn N.committee vote.now) }
    {
        if let Some(answer) = self.recall(rt, vote) {
            return Ok(answer);
        }
        // The lock is not held here: others look up and remember meanwhile.
        let answer = is_good(verifier, &self.committee, vote.get());
        self.remember(rt, vote.again()?, answer)?;
        Ok(answer)
    }
}
