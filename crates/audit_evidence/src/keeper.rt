//! Where equal votes and headers of several logs stand in memory once.

ghost use Rattle.std.specs.Prelude.{◌≡◌, IfOk};
ghost use Rattle.audit_evidence.specs.NamedVotes.{certificate_votes};

use crate::certificate_votes::{CertificateVotes, KeptCertificate};
use crate::mark::{Mark, Unmarked};
use base_shared::Shared;
use blocks::NamedHeader;
use certificates::{Certificate, SignedVote};
use std::alloc::{AllocError, Global};

/// Keeps votes that logs name. It may hand out one value, shared, for those that are equal.
pub trait VoteKeeper {
    /// This vote. Memory is refused where it, or a place for it, could not be made.
    fn vote(&self, vote: &SignedVote) -> Result<Shared<SignedVote>, AllocError>
        ensures { IfOk result (λ v. v ≡ vote.now) };
}

/// Keeps votes, certificates and headers that logs name. It may hand out one value, shared, for those that are equal.
pub trait Keeper<M: Mark>: VoteKeeper {
    /// The votes of this certificate in their order. Memory is refused where they, or a place for them, could not be made.
    fn certificate(
        &self,
        certificate: &Certificate,
    ) -> Result<Shared<KeptCertificate<M>>, AllocError>
        ensures { IfOk result (λ votes. votes ≡ certificate_votes certificate.now) };

    /// This header. Memory is refused where it, or a place for it, could not be made.
    fn header(&self, header: &NamedHeader) -> Result<Shared<NamedHeader>, AllocError>
        ensures { IfOk result (λ h. h ≡ header.now) };
}

/// Hands out each value anew. Who gathers all logs in one set needs no more: the set drops what it has.
#[derive(Clone, Copy, Drop)]
pub struct Anew {
    /// Where the values stand.
    pub alloc: Global,
}

impl VoteKeeper for Anew {
    fn vote(&self, vote: &SignedVote) -> Result<Shared<SignedVote>, AllocError> {
        Shared::new(self.alloc, *vote)
    }
}

impl Keeper<Unmarked> for Anew {
    fn certificate(
        &self,
        certificate: &Certificate,
    ) -> Result<Shared<KeptCertificate<Unmarked>>, AllocError> {
        let votes = CertificateVotes::of(self.alloc, self, certificate)?;
        let votes = Shared::new(self.alloc, votes)?;
        Shared::new(self.alloc, KeptCertificate::new(votes, Unmarked))
    }

    fn header(&self, header: &NamedHeader) -> Result<Shared<NamedHeader>, AllocError> {
        Shared::new(self.alloc, *header)
    }
}
