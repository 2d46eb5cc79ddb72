//! Certificates that are put together from votes.

ghost use Rattle.std.specs.Prelude.{◌≡◌, ◌≢◌, ◌+◌, ◌*◌, ◌<◌, ◌≤◌, ◌↔◌, IsTrue, IfErr, IfOk, IsOk, OnOk, map};
ghost use Rattle.std.specs.List.{All};
ghost use Rattle.std.specs.List.Sorted.{IsNonDecreasingBy, IsPermutation};
ghost use Rattle.blocks.specs.Committees.{n_of};
ghost use Rattle.blocks.specs.Weights.{quorum_of};
ghost use Rattle.certificates.specs.Assembling.{AreAssemblable, AreByDifferent, IsAssembleRefusal, IsAssembled, IsVoteFor, assemble_refusal_number, endorsement_of, votes_weight};
ghost use Rattle.certificates.specs.Certificates.{IsEndorsement};
ghost use Rattle.certificates.specs.declared.assembling.AssembleRefusal.TheVariants.{Memory};

use crate::certificate::{Certificate, Endorsement};
use crate::vote::SignedVote;
use blocks::{Ballot, CommitteeView};
use lms_tree::Signature;
use std::alloc::{AllocError, AllocFailed, Global};

/// Why votes make no certificate, in the order of the tests.
#[derive(Clone, Copy, Debug, PartialEq, Eq)]
pub enum AssembleRefusal {
    /// Memory was refused.
    Memory = 1,
    /// Two votes are for different views or ids.
    Mixed = 2,
    /// The votes weigh less than a quorum, two votes of one replica twice its weight.
    TooFew = 3,
    /// Two votes are by one replica.
    Double = 4,
}

impl AssembleRefusal {
    /// The number of the refusal, which never changes.
    pub fn number(self) -> u8
        ensures { result ≡ assemble_refusal_number self }
    {
        self as u8
    }
}

impl From<AllocError> for AssembleRefusal {
    ghost from_gives = { λ _ refusal. refusal ≡ Memory };

    fn from(_refused: AllocError) -> AssembleRefusal {
        AssembleRefusal::Memory
    }
}

impl<T: Drop> From<AllocFailed<T>> for AssembleRefusal {
    ghost from_gives = { λ _ refusal. refusal ≡ Memory };

    fn from(_refused: AllocFailed<T>) -> AssembleRefusal {
        AssembleRefusal::Memory
    }
}

// Whether each vote is for this block.
fn are_for(votes: &[SignedVote], block: &Ballot) -> bool
    ensures { IsTrue result ↔ All (IsVoteFor block.now.view block.now.id) votes.now }
{
    votes
        .iter()
        .all(|v| v.view == block.view && v.id == block.id)
}

// Whether the votes weigh as much as a quorum. No more are looked at than it takes.
fn weigh_enough(committee: &CommitteeView, votes: &[SignedVote]) -> bool
    requires { All (λ v. v.replica < n_of committee.now) votes.now }
    ensures enough { IsTrue result
        ↔ (quorum_of committee.now ≤ votes_weight committee.now votes.now) }
    ensures few { n_of committee.now ≤ 31 }
{
    let quorum = committee.quorum();
    let mut weight = 0;
    for vote in votes {
        if quorum <= weight {
            return true;
        }
        weight += u64::from(committee.weight(vote.replica));
    }
    quorum <= weight
}

// Whether none of the votes is by this replica.
fn are_by_others(votes: &[SignedVote], replica: u16) -> bool
    ensures { IsTrue result ↔ All (λ v. v.replica ≢ replica) votes.now }
{
    votes.iter().all(|v| v.replica != replica)
}

// Whether no two votes are by one replica. Of more votes than there are replicas no more are looked at than it takes to
// find two.
fn are_by_different(votes: &[SignedVote]) -> bool
    ensures { IsTrue result ↔ AreByDifferent votes.now }
{
    for k in 0..votes.len() {
        if !are_by_others(&votes[..k], votes[k].replica) {
            return false;
        }
    }
    true
}

// An entry of a certificate.
fn endorsement(replica: u16, key: u8, signature: Signature) -> Endorsement
    ensures value { result ≡ record { replica = replica; key = key; signature = signature } }
    ensures fits { IsEndorsement result }
{
    Endorsement {
        replica,
        key,
        signature,
    }
}

// What a certificate keeps of these votes, in their order.
fn endorsements_of(alloc: Global, votes: &[SignedVote]) -> Result<Vec<Endorsement>, AssembleRefusal>
    ensures ok { IfOk result (λ entries. entries.items ≡ map endorsement_of votes.now) }
    ensures fits { IfOk result (λ entries. All IsEndorsement entries.items) }
    ensures err { IfErr result (λ refusal. refusal ≡ AssembleRefusal.Memory) }
{
    let mut entries = Vec::new(alloc);
    for vote in votes {
        entries.push(endorsement(vote.replica, vote.key, vote.signature))?;
    }
    Ok(entries)
}

fn sort_by_replica(entries: &mut Vec<Endorsement>)
    ensures same { IsPermutation entries.old.items entries.new.items }
    ensures sorted { IsNonDecreasingBy (λ e. e.replica) entries.new.items }
{
    entries.sort_unstable_by_key(|e| e.replica);
}

/// The certificate of these votes, sorted by replica, each under the key that it names. Their replicas must be below the
/// committee's n and their views at least 1. Neither the keys nor the signatures are checked: `check_block` does that.
/// Refused in this order: Memory, Mixed, TooFew, Double; Memory comes only where the votes pass each test.
pub fn assemble(
    alloc: Global,
    committee: &CommitteeView,
    votes: &[SignedVote],
) -> Result<Certificate, AssembleRefusal>
    requires known { All (λ v. v.replica < n_of committee.now) votes.now }
    requires after_genesis { All (λ v. 1 ≤ v.view) votes.now }
    // The certificate has just these votes, and they pass each test.
    ensures ok { IfOk result (IsAssembled votes.now) }
    ensures passes { OnOk result (AreAssemblable committee.now votes.now) }
    ensures first_refusal { IfErr result (λ refusal.
        IsAssembleRefusal refusal committee.now votes.now) }
{
    let Some(first) = votes.first() else {
        return Err(AssembleRefusal::TooFew);
    };
    if !are_for(votes, &first.ballot()) {
        return Err(AssembleRefusal::Mixed);
    }
    if !weigh_enough(committee, votes) {
        return Err(AssembleRefusal::TooFew);
    }
    if !are_by_different(votes) {
        return Err(AssembleRefusal::Double);
    }
    let mut entries = endorsements_of(alloc, votes)?;
    sort_by_replica(&mut entries);
    Ok(Certificate::of(first.view, first.id, entries))
}
