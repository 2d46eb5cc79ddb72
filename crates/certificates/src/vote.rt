//! Votes, and when they are good.

ghost use Rattle.std.specs.Prelude.{◌≡◌, ◌<◌, ◌≤◌, ◌↔◌, IsTrue, IsOk, OnOk, IfErr};
ghost use Rattle.lms_tree.specs.Tree.{Verifies};
ghost use Rattle.blocks.specs.Committees.{n_of, keys_of};
ghost use Rattle.certificates.specs.VoteChecks.{IsVoteRefusal, vote_refusal_number};
ghost use Rattle.certificates.specs.Votes.{IsGoodVote, IsSignedBy, ballot_of, vote_text};

use crate::statement::Statement;
use base_wire::put;
use blocks::{Ballot, CommitteeView, Id};
use lms_tree::{PublicKey, SIGNATURE_LEN, Signature, verify};

/// The length in bytes of a vote that leaves its replica to what it stands in: the number of the key, the view, the
/// block's id and the signature.
pub const BOUND_VOTE_LEN: usize = 1 + 8 + 32 + SIGNATURE_LEN;

/// The length of a vote in bytes: the number of its replica, and the rest.
pub const VOTE_LEN: usize = 2 + BOUND_VOTE_LEN;

/// A replica's signed vote for a block. Votes are ordered by replica, view, id, key and signature.
#[derive(Clone, Copy, Debug, PartialEq, Eq, PartialOrd, Ord)]
pub struct SignedVote {
    /// The number of the replica in its committee, from 0.
    pub replica: u16,
    /// The block's view.
    pub view: u64,
    /// The block's id.
    pub id: Id,
    /// The number of the replica's key that signed, from 0.
    pub key: u8,
    /// The LMS signature of the statement under that key (RFC 8554, section 5.4).
    pub signature: Signature,
}

impl SignedVote {
    /// What the vote is on.
    pub fn ballot(&self) -> Ballot
        ensures { result ≡ ballot_of self.now }
    {
        Ballot {
            view: self.view,
            id: self.id,
        }
    }

    /// The bytes of the vote: its replica (2 bytes at 0), its key (1 at 2), its view (8 at 3), its block's id (32 at 11)
    /// and its signature (from 43 on).
    #[tactic(auto, using(base_wire::proofs::Numbers::filled), unfolding(crate::specs::Votes::vote_text))]
    pub fn to_bytes(&self) -> [u8; VOTE_LEN]
        ensures { result ≡ vote_text self.now }
    {
        let mut bytes = [0; VOTE_LEN];
        put(&mut bytes, 0, &self.replica.to_be_bytes());
        put(&mut bytes, 2, &[self.key]);
        put(&mut bytes, 3, &self.view.to_be_bytes());
        put(&mut bytes, 11, &self.id);
        put(&mut bytes, 43, &self.signature);
        bytes
    }
}

/// Why a vote is refused, in the order of the tests.
#[derive(Clone, Copy, Debug, PartialEq, Eq)]
pub enum VoteRefusal {
    /// The committee has no such replica.
    UnknownReplica = 1,
    /// The replica has no key of the vote's number.
    UnknownKey = 3,
    /// The signature is not that key's on the vote's view and id, in the committee's chain.
    Signature = 2,
}

impl VoteRefusal {
    /// The number of the refusal, which never changes.
    pub fn number(self) -> u8
        ensures { result ≡ vote_refusal_number self }
    {
        self as u8
    }
}

/// Checks signatures. What is generic over it can be watched by a test; the answer is always that of
/// RFC 8554, section 5.4.2.
pub trait Verifier {
    /// Whether the signature is one of the message under the key.
    fn verify(&self, key: &PublicKey, message: &[u8], signature: &[u8]) -> bool
        ensures { IsTrue result ↔ Verifies key.now.key_id key.now.root message.now signature.now };
}

/// Checks signatures by `lms_tree::verify`.
#[derive(Clone, Copy, Debug, Default)]
pub struct LmsVerifier;

impl Verifier for LmsVerifier {
    fn verify(&self, key: &PublicKey, message: &[u8], signature: &[u8]) -> bool {
        verify(key, message, signature).is_ok()
    }
}

/// Whether a replica of the committee, which must be below its n, signed a vote on this block of the committee's
/// chain with the key of this number, which must be below the number of its keys. The signature is read in place.
pub fn is_signed_by<V: Verifier>(
    verifier: &V,
    committee: &CommitteeView,
    replica: u16,
    key: u8,
    on: &Ballot,
    signature: &[u8],
) -> bool
    requires known { replica < n_of committee.now }
    requires key { key < keys_of committee.now replica }
    ensures { IsTrue result ↔ IsSignedBy committee.now replica key on.now.view on.now.id
        signature.now }
{
    let statement = Statement {
        chain: committee.chain(),
        view: on.view,
        id: on.id,
    };
    verifier.verify(
        &committee.key(replica, key),
        &statement.to_bytes(),
        signature,
    )
}

/// Checks that a vote is good: its replica is one of the committee, has the key that the vote names, and signed the
/// vote's view and id in the committee's chain with it. Refused in this order: UnknownReplica, UnknownKey, Signature.
pub fn check_vote(committee: &CommitteeView, vote: &SignedVote) -> Result<(), VoteRefusal>
    ensures exact { IsOk result ↔ IsGoodVote committee.now vote.now }
    ensures first_refusal { IfErr result (IsVoteRefusal committee.now vote.now) }
{
    if vote.replica >= committee.n() {
        return Err(VoteRefusal::UnknownReplica);
    }
    if vote.key >= committee.keys(vote.replica) {
        return Err(VoteRefusal::UnknownKey);
    }
    if !is_signed_by(
        &LmsVerifier,
        committee,
        vote.replica,
        vote.key,
        &vote.ballot(),
        &vote.signature,
    ) {
        return Err(VoteRefusal::Signature);
    }
    Ok(())
}
