//! Votes that logs name: single ones, and those of certificates.

ghost use Rattle.std.specs.Prelude.{◌≡◌, ◌∷◌, ◌++◌, [], IfOk, IsTrue, OnErr, OnOk};
ghost use Rattle.std.specs.List.{AllPairs, Contains};
ghost use Rattle.certificates.specs.VoteOrder.{IsLowerVote};
ghost use Rattle.certificates.specs.declared.vote.SignedVote.{SignedVote as SignedVoteValue};
ghost use Rattle.audit_evidence.specs.Gathering.{Gains};
ghost use Rattle.audit_evidence.specs.NamedVotes.{all_votes, joined, AreSame};

use crate::certificate_votes::KeptCertificate;
use crate::mark::Mark;
use crate::votes::VoteSet;
use base_shared::Shared;
use blocks::Id;
use certificates::SignedVote;
use std::alloc::{AllocError, Global};
use std::collections::BTreeMap;
use std::marker::Model;

/// Votes that stand alone, each once, and certificates; one that has the same votes as the first for its block is left out.
/// Contracts see the list of all votes.
#[derive(Drop)]
pub struct NamedVotes<M: Mark> {
    alone: VoteSet,
    certificates: Vec<Shared<KeptCertificate<M>>>,
    // Where the first certificate for each block stands.
    places: BTreeMap<Id, usize>,
}

impl<M: Mark> Model for NamedVotes<M> {
    ghost use Rattle.std.specs.Prelude.{List};
    ghost use Rattle.certificates.specs.declared.vote.SignedVote.{SignedVote as SignedVoteValue};
    ghost use Rattle.audit_evidence.specs.NamedVotes.{all_votes};

    ghost Value = { List SignedVoteValue };

    ghost view = { λ n. all_votes n.alone n.certificates.items };
}

impl<M: Mark> NamedVotes<M> {
    /// No votes.
    pub(crate) fn new(alloc: Global) -> NamedVotes<M>
        ensures { result ≡ [] }
    {
        NamedVotes {
            alone: VoteSet::new(alloc),
            certificates: Vec::new(alloc),
            places: BTreeMap::new(alloc),
        }
    }

    /// Adds a vote, unless it stands alone already. Where memory is refused nothing changes.
    pub(crate) fn insert(&mut self, vote: Shared<SignedVote>) -> Result<(), AllocError>
        ensures { OnOk result (Gains self.old self.new (λ v. v ≡ vote)) }
    {
        self.alone.insert(vote)
    }

    /// Adds the votes of a certificate, unless they are those of the first for its block. Where memory is refused no vote is
    /// added.
    pub(crate) fn insert_certificate(
        &mut self,
        certificate: Shared<KeptCertificate<M>>,
    ) -> Result<(), AllocError>
        ensures { OnOk result (Gains self.old self.new (Contains certificate)) }
    {
        let at = self.places.get(certificate.get().block()).copied();
        if has_same(&self.certificates, at, certificate.get()) {
            return Ok(());
        }
        note_first(
            &mut self.places,
            certificate.get().block(),
            self.certificates.len(),
        )?;
        self.certificates.push(certificate)?;
        Ok(())
    }

    /// The votes that stand alone, rising, and the certificates.
    pub(crate) fn into_parts(
        self,
        alloc: Global,
    ) -> Result<(Vec<Shared<SignedVote>>, Vec<Shared<KeptCertificate<M>>>), AllocError>
        ensures { IfOk result (λ parts. all_votes parts.0.items parts.1.items ≡ self) }
    {
        let NamedVotes {
            alone,
            certificates,
            places: _,
        } = self;
        Ok((alone.into_vec(alloc)?, certificates))
    }

    /// All votes, rising, each once.
    pub(crate) fn into_vec(self, alloc: Global) -> Result<Vec<Shared<SignedVote>>, AllocError>
        ensures votes { IfOk result (λ votes. AreSame votes.items self) }
        ensures rising { IfOk result (λ votes. AllPairs IsLowerVote votes.items) }
    {
        let NamedVotes {
            alone,
            certificates,
            places: _,
        } = self;
        let mut votes = alone;
        for certificate in &certificates {
            add_all(&mut votes, certificate.get().votes())?;
        }
        into_rising(votes, alloc)
    }
}

// Notes where the first certificate for a block is to stand.
fn note_first(places: &mut BTreeMap<Id, usize>, block: &Id, at: usize) -> Result<(), AllocError> {
    if places.get(block).is_none() {
        let _ = places.insert(*block, at)?;
    }
    Ok(())
}

// The votes in order.
fn into_rising(votes: VoteSet, alloc: Global) -> Result<Vec<Shared<SignedVote>>, AllocError>
    ensures votes { IfOk result (λ list. list.items ≡ votes) }
    ensures rising { IfOk result (λ list. AllPairs IsLowerVote list.items) }
{
    votes.into_vec(alloc)
}

// Adds each of these votes, unless it is there.
fn add_all(votes: &mut VoteSet, more: &[Shared<SignedVote>]) -> Result<(), AllocError>
    ensures { OnOk result (Gains votes.old votes.new (Contains more.now)) }
{
    for vote in more {
        votes.insert(vote.again()?)?;
    }
    Ok(())
}

// Whether the certificate at this place, if there is one, has the same votes.
fn has_same<M: Mark>(
    certificates: &[Shared<KeptCertificate<M>>],
    at: Option<usize>,
    certificate: &KeptCertificate<M>,
) -> bool
    ensures { IsTrue result → (v : SignedVoteValue) → Contains certificate.now v → Contains (joined certificates.now) v }
{
    let Some(at) = at else {
        return false;
    };
    let Some(held) = certificates.get(at) else {
        return false;
    };
    certificate.is(held.get())
}
