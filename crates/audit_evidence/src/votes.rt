//! Votes in order, each once.

ghost use Rattle.std.specs.Prelude.{◌≡◌, ◌↔◌, [], IfOk, IsTrue, OnOk, OnErr};
ghost use Rattle.std.specs.List.{AllPairs, Contains};
ghost use Rattle.audit_evidence.specs.Gathering.{Gains};
ghost use Rattle.certificates.specs.VoteOrder.{IsLowerVote};

use base_shared::Shared;
use certificates::SignedVote;
use std::alloc::{AllocError, Global};
use std::collections::BTreeSet;
use std::marker::Model;

/// Votes that rise, so that each stands once. Contracts see the list.
#[derive(Drop)]
pub struct VoteSet {
    votes: BTreeSet<Shared<SignedVote>>,
}

impl Model for VoteSet {
    ghost use Rattle.std.specs.Prelude.{List};
    ghost use Rattle.std.specs.BTreeSet.{keys};
    ghost use Rattle.certificates.specs.declared.vote.SignedVote.{SignedVote as SignedVoteValue};

    ghost Value = { List SignedVoteValue };

    ghost view = { λ s. keys s.votes };
}

impl VoteSet {
    /// No votes.
    pub fn new(alloc: Global) -> VoteSet
        ensures { result ≡ [] }
    {
        VoteSet {
            votes: BTreeSet::new(alloc),
        }
    }

    /// Adds a vote, unless it is there. Where memory is refused nothing changes.
    pub fn insert(&mut self, vote: Shared<SignedVote>) -> Result<(), AllocError>
        ensures ok { OnOk result (Gains self.old self.new (λ v. v ≡ vote)) }
        ensures err { OnErr result (self.new ≡ self.old) }
    {
        let _ = self.votes.insert(vote)?;
        Ok(())
    }

    /// Whether the vote is there.
    pub fn contains(&self, vote: &Shared<SignedVote>) -> bool
        ensures { IsTrue result ↔ Contains self.now vote.now }
    {
        self.votes.contains(vote)
    }

    /// The votes, rising, each with one more owner.
    pub fn to_vec(&self, alloc: Global) -> Result<Vec<Shared<SignedVote>>, AllocError>
        ensures votes { IfOk result (λ votes. votes.items ≡ self.now) }
        ensures rising { OnOk result (AllPairs IsLowerVote self.now) }
    {
        let mut votes = Vec::new(alloc);
        for vote in self.votes.iter() {
            votes.push(vote.again()?)?;
        }
        Ok(votes)
    }

    /// The votes, rising.
    pub fn into_vec(self, alloc: Global) -> Result<Vec<Shared<SignedVote>>, AllocError>
        ensures votes { IfOk result (λ votes. votes.items ≡ self) }
        ensures rising { AllPairs IsLowerVote self }
    {
        self.votes.into_iter().collect(alloc)
    }
}
