//! Entries that certify blocks.

ghost use Rattle.std.specs.Prelude.{IfOk, IfSome, OnOk};
ghost use Rattle.std.specs.List.{All};
ghost use Rattle.handover_proof.specs.Proofs.{MayBeAssembled};

use audit_evidence::Evidence;
use base_shared::Shared;
use base_wire::append;
use blocks::{CommitteeView, Header, NamedHeader};
use certificates::{AssembleRefusal, Certificate, SignedVote, assemble};
use std::alloc::{AllocError, Global};

// The first byte of an entry without the replica's own vote.
const RAISED: u8 = 4;

// A vote of this replica on the block, where it has one. Votes rise, so a binary search finds one. That the committee has its
// replica, and that its view is above genesis', is so of each vote of evidence.
fn vote_on(
    committee: &CommitteeView,
    votes: &[Shared<SignedVote>],
    replica: u16,
    block: &NamedHeader,
) -> Option<SignedVote>
    ensures { IfSome result (MayBeAssembled committee.now) }
{
    let wanted = (replica, block.header().view, *block.id());
    let found = votes.binary_search_by_key(&wanted, |vote| {
        let vote = vote.get();
        (vote.replica, vote.view, vote.id)
    });
    let Ok(at) = found else {
        return None;
    };
    let vote = *votes.get(at)?.get();
    if vote.replica < committee.n() && 1 <= vote.view {
        Some(vote)
    } else {
        None
    }
}

// Adds the vote, if there is one.
fn put(
    committee: &CommitteeView,
    votes: &mut Vec<SignedVote>,
    vote: Option<SignedVote>,
) -> Result<(), AllocError>
    requires before { All (MayBeAssembled committee.now) votes.old.items }
    requires vote { IfSome vote (MayBeAssembled committee.now) }
    ensures { OnOk result (All (MayBeAssembled committee.now) votes.new.items) }
{
    if let Some(vote) = vote {
        votes.push(vote)?;
    }
    Ok(())
}

// Votes on the block by rising replicas, one of each, until they weigh as much as a quorum.
fn votes_on(
    alloc: Global,
    evidence: &Evidence,
    block: &NamedHeader,
) -> Result<Vec<SignedVote>, AllocError>
    ensures { IfOk result (λ votes. All (MayBeAssembled evidence.now.committee) votes.items) }
{
    let committee = evidence.committee();
    let quorum = committee.quorum();
    let mut weight = 0u64;
    let mut votes = Vec::new(alloc);
    for replica in 0..committee.n() {
        if weight < quorum {
            let vote = vote_on(&committee, evidence.votes(), replica, block);
            if vote.is_some() {
                weight = weight.saturating_add(u64::from(committee.weight(replica)));
            }
            put(&committee, &mut votes, vote)?;
        }
    }
    Ok(votes)
}

/// The certificate of a quorum's votes on the block. None where there is no quorum. Callers judge what they make of it.
pub fn certificate_on(
    alloc: Global,
    evidence: &Evidence,
    block: &NamedHeader,
) -> Result<Option<Certificate>, AllocError> {
    let votes = votes_on(alloc, evidence, block)?;
    match assemble(alloc, &evidence.committee(), &votes) {
        Ok(certificate) => Ok(Some(certificate)),
        Err(AssembleRefusal::Memory) => Err(AllocError),
        Err(_) => Ok(None),
    }
}

/// The bytes of an entry without an own vote, of a block that names this parent, with a certificate of the parent by the votes of
/// the evidence. None where these are no quorum.
pub(crate) fn entry_on(
    alloc: Global,
    evidence: &Evidence,
    parent: &NamedHeader,
    block: &Header,
) -> Result<Option<Vec<u8>>, AllocError> {
    let Some(certificate) = certificate_on(alloc, evidence, parent)? else {
        return Ok(None);
    };
    let mut entry = Vec::new(alloc);
    entry.push(RAISED)?;
    append(&mut entry, &block.to_bytes())?;
    append(&mut entry, &parent.header().to_bytes())?;
    append(&mut entry, &certificate.write(alloc)?)?;
    Ok(Some(entry))
}
