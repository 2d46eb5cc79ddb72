//! What a desk keeps of its log's having been put back.

ghost use Rattle.std.specs.Prelude.{◌≡◌};
ghost use Rattle.signer_answers.specs.Guards.{WasPutBack};
ghost use Rattle.signer_answers.specs.Showings.{IsOfEither, WasKept};

use crate::keeper::Keeper;
use blocks::{Ballot, Header};
use certificates::Certificate;
use stable_log::Disk;
use std::marker::{Model, PhantomData};
use vote_desk::DeskNaming;

// What the certificate or the vote was on that showed it. It is made behind the keeper's call alone.
#[derive(Drop)]
pub(crate) struct Found<N: DeskNaming, D: Disk, K: Keeper> {
    ballot: Ballot,
    named: PhantomData<N>,
    stored: PhantomData<D>,
    kept: PhantomData<K>,
}

impl<N: DeskNaming, D: Disk, K: Keeper> Model for Found<N, D, K> {
    ghost use Rattle.blocks.specs.declared.ballot.Ballot.{Ballot};
    ghost use Rattle.signer_answers.specs.Guards.{WasPutBack};
    ghost use Rattle.signer_answers.specs.Showings.{WasKept};

    ghost Value = { Ballot };

    ghost view = { λ f. f.ballot };

    ghost invariant = { λ f. WasPutBack D.Disk N.committee N.replica N.opening f.ballot
        × WasKept K.Keeper f.ballot };
}

impl<N: DeskNaming, D: Disk, K: Keeper> Found<N, D, K> {
    // Behind the keeper's call, with the block and the certificate that showed it.
    pub fn new(
        keeper: &K,
        ballot: Ballot,
        header: &Header,
        certificate: &Certificate,
        entries: usize,
    ) -> Found<N, D, K>
        requires found { WasPutBack D.Disk N.committee N.replica N.opening ballot }
        requires on { IsOfEither header.now certificate.now ballot }
        ensures { result ≡ ballot }
    {
        keeper.keep(header, certificate, entries);
        Found {
            ballot,
            named: PhantomData,
            stored: PhantomData,
            kept: PhantomData,
        }
    }

    pub fn ballot(&self) -> Ballot
        ensures value { result ≡ self.now }
        ensures found { WasPutBack D.Disk N.committee N.replica N.opening result }
        ensures kept { WasKept K.Keeper result }
    {
        self.ballot
    }
}
