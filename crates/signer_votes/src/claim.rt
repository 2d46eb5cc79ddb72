//! Votes as their signatures are checked.

ghost use Rattle.std.specs.Prelude.{◌≡◌, ◌↔◌, IfNone, IfSome, IsTrue};
ghost use Rattle.certificates.specs.Votes.{IsGoodVote};
ghost use Rattle.signer_votes.specs.Claims.{IsByMember, IsClaimOf, IsGood, IsGoodOf, IsSame};

use blocks::CommitteeView;
use certificates::{STATEMENT_LEN, SignedVote, Statement};
use lms_tree::{PublicKey, Signature, verify};
use std::marker::Model;

/// A key, what it is said to have signed, and the signature, which nobody checked yet.
#[derive(Clone, Copy, Debug)]
pub struct Claim {
    pub key: PublicKey,
    /// The bytes of the vote's statement.
    pub statement: [u8; STATEMENT_LEN],
    pub signature: Signature,
}

impl Claim {
    /// What a vote claims; None where the committee has no such replica, or the replica no such key.
    pub fn of(committee: &CommitteeView, vote: &SignedVote) -> Option<Claim>
        ensures some { IfSome result (IsClaimOf committee.now vote.now) }
        ensures none { IfNone result (IsByMember committee.now vote.now → ⊥) }
    {
        if vote.replica >= committee.n() || vote.key >= committee.keys(vote.replica) {
            return None;
        }
        let statement = Statement {
            chain: committee.chain(),
            view: vote.view,
            id: vote.id,
        };
        Some(Claim {
            key: committee.key(vote.replica, vote.key),
            statement: statement.to_bytes(),
            signature: vote.signature,
        })
    }

    /// Checks the signature. None where it is not one of the statement under the key.
    pub fn check(&self) -> Option<GoodVote>
        ensures some { IfSome result (λ good. (good ≡ self.now) × IsGood good) }
        ensures none { IfNone result (IsGood self.now → ⊥) }
    {
        if verify(&self.key, &self.statement, &self.signature).is_err() {
            return None;
        }
        Some(GoodVote { claim: *self })
    }
}

/// A claim whose signature is one of its statement under its key (RFC 8554, section 5.4.2).
#[derive(Drop)]
pub struct GoodVote {
    claim: Claim,
}

impl Model for GoodVote {
    ghost use Rattle.signer_votes.specs.Claims.{IsGood};
    ghost use Rattle.signer_votes.specs.declared.claim.Claim.{Claim as ClaimValue};

    ghost Value = { ClaimValue };

    ghost view = { λ g. g.claim };

    ghost invariant = { λ g. IsGood g.claim };
}

impl GoodVote {
    /// A claim that is known to be good.
    pub fn of(claim: Claim) -> GoodVote
        requires { IsGood claim }
        ensures { result ≡ claim }
    {
        GoodVote { claim }
    }

    /// The same vote once more.
    pub fn again(&self) -> GoodVote
        ensures { result ≡ self.now }
    {
        GoodVote { claim: self.claim }
    }

    /// Whether it is on this message under this key by this signature, byte for byte. Then that signature is good.
    pub fn is_of(&self, key: &PublicKey, message: &[u8], signature: &[u8]) -> bool
        ensures same { IsTrue result ↔ IsSame self.now key.now message.now signature.now }
        ensures good { IsTrue result → IsGoodOf key.now message.now signature.now }
    {
        self.claim.statement.as_slice() == message
            && self.claim.signature.as_slice() == signature
            && self.claim.key == *key
    }
}
