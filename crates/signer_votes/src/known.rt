//! The votes of a certificate that are known to be good.

ghost use Rattle.std.specs.Prelude.{◌≡◌, ◌++◌, ◌∷◌, [], IsTrue, OnErr, OnOk};
ghost use Rattle.signer_votes.specs.Claims.{IsGoodOf};

use crate::claim::GoodVote;
use certificates::Verifier;
use lms_tree::{PublicKey, verify};
use std::alloc::{AllocError, Global};

/// Votes that are known to be good. As a verifier it answers for them without a check, and checks all others.
#[derive(Drop)]
pub struct Known {
    votes: Vec<GoodVote>,
}

impl Known {
    /// None is known yet. Takes no memory.
    pub fn new(alloc: Global) -> Known
        ensures { result.votes.items ≡ [] }
    {
        Known {
            votes: Vec::new(alloc),
        }
    }

    /// Adds a vote. AllocError comes where memory is refused; then nothing is added.
    pub fn add(&mut self, vote: GoodVote) -> Result<(), AllocError>
        ensures ok { OnOk result (self.new.votes.items ≡ self.old.votes.items ++ vote ∷ []) }
        ensures err { OnErr result (self.new.votes.items ≡ self.old.votes.items) }
    {
        self.votes.push(vote)?;
        Ok(())
    }

    // Whether this is one of the votes that are known.
    fn has(&self, key: &PublicKey, message: &[u8], signature: &[u8]) -> bool
        ensures { IsTrue result → IsGoodOf key.now message.now signature.now }
    {
        for vote in &self.votes {
            if vote.is_of(key, message, signature) {
                return true;
            }
        }
        false
    }
}

impl Verifier for Known {
    fn verify(&self, key: &PublicKey, message: &[u8], signature: &[u8]) -> bool {
        if self.has(key, message, signature) {
            return true;
        }
        verify(key, message, signature).is_ok()
    }
}
