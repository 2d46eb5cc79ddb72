//! Where the threads of sources keep what their logs name.

ghost use Rattle.std.specs.Prelude.{◌≡◌, IfOk};

use crate::numbers::{CertificateList, ListNaming, Number, numbered};
use crate::{Board, BoardNaming};
use audit_evidence::{CertificateVotes, Keeper, KeptCertificate, VoteKeeper};
use base_shared::Shared;
use blocks::{Id, NamedHeader};
use certificates::{Certificate, SignedVote};
use std::alloc::{AllocError, Global};
use std::collections::BTreeMap;
use std::sync::{Mutex, Wait};

/// Headers that stand in memory once. Of two different headers of one id the first stays here.
#[derive(Drop)]
pub(crate) struct HeaderShelf {
    alloc: Global,
    headers: BTreeMap<Id, Shared<NamedHeader>>,
}

impl HeaderShelf {
    pub(crate) fn new(alloc: Global) -> HeaderShelf {
        HeaderShelf {
            alloc,
            headers: BTreeMap::new(alloc),
        }
    }

    // This header, as it was kept first.
    fn keep(&mut self, header: &NamedHeader) -> Result<Shared<NamedHeader>, AllocError>
        ensures { IfOk result (λ h. h ≡ header.now) }
    {
        if let Some(held) = self.headers.get(header.id()) {
            if *held.get() == *header {
                return held.again();
            }
            return Shared::new(self.alloc, *header);
        }
        let header = Shared::new(self.alloc, *header)?;
        let _ = self.headers.insert(*header.get().id(), header.again()?)?;
        Ok(header)
    }
}

/// Certificates that stand in memory once. Of different certificates for one block the first stays here.
#[derive(Drop)]
pub(crate) struct CertificateShelf<'n, L: ListNaming> {
    certificates: BTreeMap<Id, Shared<KeptCertificate<Number<'n, L>>>>,
}

impl<'n, L: ListNaming> CertificateShelf<'n, L> {
    pub(crate) fn new(alloc: Global) -> CertificateShelf<'n, L> {
        CertificateShelf {
            certificates: BTreeMap::new(alloc),
        }
    }

    // What is kept for this block.
    fn held(
        &self,
        block: &Id,
    ) -> Result<Option<Shared<KeptCertificate<Number<'n, L>>>>, AllocError> {
        match self.certificates.get(block) {
            Some(held) => Ok(Some(held.again()?)),
            None => Ok(None),
        }
    }

    // Keeps this one, unless there is one for the block.
    fn keep(
        &mut self,
        block: &Id,
        certificate: &Shared<KeptCertificate<Number<'n, L>>>,
    ) -> Result<(), AllocError> {
        if self.certificates.get(block).is_none() {
            let _ = self.certificates.insert(*block, certificate.again()?)?;
        }
        Ok(())
    }
}

/// Where the threads keep what they share: votes on a board, the first header of each id and the first certificate for each block
/// on shelves, and all certificates that were made in a list, which numbers them.
#[derive(Drop)]
pub(crate) struct Keeping<'k, 'n, 'c, N: BoardNaming, L: ListNaming, R: Wait> {
    pub(crate) alloc: Global,
    pub(crate) rt: &'k R,
    pub(crate) board: &'k Board<'c, N>,
    pub(crate) list: &'n CertificateList,
    pub(crate) certificates: &'k Mutex<CertificateShelf<'n, L>>,
    pub(crate) headers: &'k Mutex<HeaderShelf>,
    pub(crate) ghost named: { list.now ≡ L.list },
}

impl<'k, 'n, 'c, N: BoardNaming, L: ListNaming, R: Wait> VoteKeeper
    for Keeping<'k, 'n, 'c, N, L, R> {
    fn vote(&self, vote: &SignedVote) -> Result<Shared<SignedVote>, AllocError> {
        self.board.post(self.rt, vote)
    }
}

impl<'k, 'n, 'c, N: BoardNaming, L: ListNaming, R: Wait> Keeper<Number<'n, L>>
    for Keeping<'k, 'n, 'c, N, L, R> {
    // Votes are compared and copied while no lock is held.
    fn certificate(
        &self,
        certificate: &Certificate,
    ) -> Result<Shared<KeptCertificate<Number<'n, L>>>, AllocError> {
        let block = certificate.id();
        let held = self.certificates.lock(self.rt).held(block)?;
        if let Some(held) = held {
            if held.get().are_of(certificate) {
                return Ok(held);
            }
        }
        let votes = CertificateVotes::of(self.alloc, self, certificate)?;
        let votes = Shared::new(self.alloc, votes)?;
        let made = Shared::new(self.alloc, numbered(self.rt, self.list, votes)?)?;
        self.certificates.lock(self.rt).keep(block, &made)?;
        Ok(made)
    }

    fn header(&self, header: &NamedHeader) -> Result<Shared<NamedHeader>, AllocError> {
        self.headers.lock(self.rt).keep(header)
    }
}
