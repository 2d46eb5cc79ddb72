//! The votes of a certificate.

ghost use Rattle.std.specs.Prelude.{◌≡◌, ◌↔◌, ◌∷◌, ◌++◌, [], IfOk, IsTrue, OnOk};
ghost use Rattle.audit_evidence.specs.NamedVotes.{certificate_votes};

use crate::keeper::VoteKeeper;
use crate::mark::Mark;
use base_shared::Shared;
use blocks::Id;
use certificates::{Certificate, SignedVote};
use std::alloc::{AllocError, Global};
use std::marker::Model;

/// The votes of a certificate, none of which was checked. Logs of many replicas hold one certificate, and then share this.
/// Contracts see the votes.
#[derive(Drop)]
pub struct CertificateVotes {
    block: Id,
    votes: Vec<Shared<SignedVote>>,
}

impl Model for CertificateVotes {
    ghost use Rattle.std.specs.Prelude.{List};
    ghost use Rattle.certificates.specs.declared.vote.SignedVote.{SignedVote as SignedVoteValue};

    ghost Value = { List SignedVoteValue };

    ghost view = { λ c. c.votes.items };
}

// Adds a vote.
fn put(votes: &mut Vec<Shared<SignedVote>>, vote: Shared<SignedVote>) -> Result<(), AllocError>
    ensures { OnOk result (votes.new.items ≡ votes.old.items ++ vote ∷ []) }
{
    votes.push(vote)?;
    Ok(())
}

impl CertificateVotes {
    /// The votes of this certificate in their order, each as the keeper keeps it. Memory is refused where one of them, or the
    /// list, could not be made.
    pub fn of<K: VoteKeeper>(
        alloc: Global,
        keeper: &K,
        certificate: &Certificate,
    ) -> Result<CertificateVotes, AllocError>
        ensures { IfOk result (λ votes. votes ≡ certificate_votes certificate.now) }
    {
        let mut votes = Vec::with_capacity(alloc, certificate.count())?;
        for k in 0..certificate.count() {
            put(&mut votes, keeper.vote(&certificate.vote(k))?)?;
        }
        Ok(CertificateVotes {
            block: *certificate.id(),
            votes,
        })
    }

    // Whether these are the votes of this certificate: as many, each the same in its place.
    fn are_of(&self, certificate: &Certificate) -> bool
        ensures { IsTrue result ↔ (self.now ≡ certificate_votes certificate.now) }
    {
        if self.votes.len() != certificate.count() {
            return false;
        }
        for k in 0..self.votes.len() {
            if !certificate.vote_is(k, self.votes[k].get()) {
                return false;
            }
        }
        true
    }

    // Whether the other has the same votes in the same places.
    fn is(&self, other: &CertificateVotes) -> bool
        ensures { IsTrue result ↔ (self.now ≡ other.now) }
    {
        if self.votes.len() != other.votes.len() {
            return false;
        }
        for k in 0..self.votes.len() {
            if self.votes[k].get() != other.votes[k].get() {
                return false;
            }
        }
        true
    }

    // The id of the block that they are for.
    fn block(&self) -> &Id {
        &self.block
    }

    // The votes.
    fn votes(&self) -> &[Shared<SignedVote>]
        ensures { result.now ≡ self.now }
    {
        &self.votes
    }
}

/// The votes of a certificate as a keeper keeps them, with its mark. Contracts see the votes.
#[derive(Drop)]
pub struct KeptCertificate<M: Mark> {
    votes: Shared<CertificateVotes>,
    mark: M,
}

impl<M: Mark> Model for KeptCertificate<M> {
    ghost use Rattle.std.specs.Prelude.{List};
    ghost use Rattle.certificates.specs.declared.vote.SignedVote.{SignedVote as SignedVoteValue};

    ghost Value = { List SignedVoteValue };

    ghost view = { λ k. k.votes };

    ghost invariant = { λ k. M.marks k.mark k.votes };
}

impl<M: Mark> KeptCertificate<M> {
    /// These votes, which the mark has to mark.
    pub fn new(votes: Shared<CertificateVotes>, mark: M) -> KeptCertificate<M>
        requires { M.marks mark votes }
        ensures { result ≡ votes }
    {
        KeptCertificate { votes, mark }
    }

    /// Whether these are the votes of this certificate: as many, each the same in its place.
    pub fn are_of(&self, certificate: &Certificate) -> bool
        ensures { IsTrue result ↔ (self.now ≡ certificate_votes certificate.now) }
    {
        self.votes.get().are_of(certificate)
    }

    // The id of the block that they are for.
    pub(crate) fn block(&self) -> &Id {
        self.votes.get().block()
    }

    // The votes.
    pub(crate) fn votes(&self) -> &[Shared<SignedVote>]
        ensures { result.now ≡ self.now }
    {
        self.votes.get().votes()
    }

    // Whether the other has the same votes in the same places, which are not compared where both have one mark.
    pub(crate) fn is(&self, other: &KeptCertificate<M>) -> bool
        ensures { IsTrue result ↔ (self.now ≡ other.now) }
    {
        self.mark.is(&other.mark) || self.votes.get().is(other.votes.get())
    }
}
