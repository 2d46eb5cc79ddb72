//! Votes with the answers of their checks.

ghost use Rattle.std.specs.Prelude.{◌≡◌, ◌≢◌, IfOk, IfSome, [], OnErr, OnOk, Some};
ghost use Rattle.certificates.specs.declared.vote.SignedVote.{SignedVote as SignedVoteValue};
ghost use Rattle.certificates.specs.Votes.{IsAnswerOn};
ghost use Rattle.parallel_verify.specs.Answers.{IsPosted, answer_in};

use crate::naming::BoardNaming;
use base_shared::Shared;
use certificates::SignedVote;
use std::alloc::{AllocError, Global};
use std::collections::BTreeMap;
use std::marker::{Model, PhantomData};

/// Votes that were posted, and of those that were checked the answer under the committee that is named. A vote is told by
/// all its fields, its signature too. Contracts see what is remembered of each vote.
#[derive(Drop)]
pub(crate) struct Memo<N: BoardNaming> {
    posted: BTreeMap<Shared<SignedVote>, Option<bool>>,
    named: PhantomData<N>,
}

impl<N: BoardNaming> Model for Memo<N> {
    ghost use Rattle.std.specs.Prelude.{Bool, List, Option};
    ghost use Rattle.certificates.specs.declared.vote.SignedVote.{SignedVote as SignedVoteValue};
    ghost use Rattle.parallel_verify.specs.Answers.{AreAnswers};

    ghost Value = { List (SignedVoteValue × Option Bool) };

    ghost view = { λ m. m.posted.entries };

    ghost invariant = { λ m. AreAnswers N.committee m.posted.entries };
}

impl<N: BoardNaming> Memo<N> {
    // Nothing yet.
    pub(crate) fn new(alloc: Global) -> Memo<N>
        ensures { result ≡ [] }
    {
        Memo {
            posted: BTreeMap::new(alloc),
            named: PhantomData,
        }
    }

    // What is remembered of this vote.
    pub(crate) fn recall(&self, vote: &Shared<SignedVote>) -> Option<bool>
        ensures value { result ≡ answer_in self.now vote.now }
        ensures answer { IfSome result (IsAnswerOn N.committee vote.now) }
    {
        self.posted.get(vote).copied().flatten()
    }

    // The vote, as it was posted first. What is remembered stays, of all votes. Where memory is refused nothing changes.
    pub(crate) fn post(
        &mut self,
        vote: &Shared<SignedVote>,
    ) -> Result<Shared<SignedVote>, AllocError>
        ensures same { IfOk result (λ v. v ≡ vote.now) }
        ensures posted { OnOk result (IsPosted self.new vote.now) }
        ensures answers { (v : SignedVoteValue) → answer_in self.new v ≡ answer_in self.old v }
        ensures err { OnErr result (self.new ≡ self.old) }
    {
        if let Some((held, _)) = self.posted.get_key_value(vote) {
            return held.again();
        }
        let given = vote.again()?;
        self.posted.insert(vote.again()?, None)?;
        Ok(given)
    }

    // Remembers the answer to a vote; what is remembered of others stays. Where memory is refused nothing changes.
    pub(crate) fn remember(
        &mut self,
        vote: Shared<SignedVote>,
        is_good: bool,
    ) -> Result<(), AllocError>
        requires { IsAnswerOn N.committee vote is_good }
        ensures ok { OnOk result (answer_in self.new vote ≡ Some is_good) }
        ensures others { (v : SignedVoteValue) → v ≢ vote
            → answer_in self.new v ≡ answer_in self.old v }
        ensures err { OnErr result (self.new ≡ self.old) }
    {
        self.posted.insert(vote, Some(is_good))?;
        Ok(())
    }
}
