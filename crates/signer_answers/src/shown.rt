//! What a caller keeps of its having been shown that the log was put back.

ghost use Rattle.std.specs.Prelude.{◌≡◌};
ghost use Rattle.signer_answers.specs.Guards.{WasPutBack};
ghost use Rattle.signer_answers.specs.Showings.{WasKept};

use crate::found::Found;
use crate::keeper::Keeper;
use blocks::Ballot;
use stable_log::Disk;
use std::marker::Model;
use std::sync::{OnceLock, OnceToken};
use vote_desk::DeskNaming;

/// What shows that a log was found to be put back, and that the keeper put it down before. Contracts see the name of the cell
/// that keeps it, and what it was found by.
#[derive(Drop)]
pub struct Shown<'a, N: DeskNaming, D: Disk, K: Keeper> {
    cell: &'a OnceLock<Found<N, D, K>>,
    token: OnceToken<'a, Found<N, D, K>>,
}

impl<'a, N: DeskNaming, D: Disk, K: Keeper> Model for Shown<'a, N, D, K> {
    ghost use Rattle.std.specs.Prelude.{◌≡◌};
    ghost use Rattle.signer_answers.specs.Showings.{Showing};

    ghost Value = { Showing };

    ghost view = { λ s. record { of = s.token.of; ballot = s.token.value } };

    ghost invariant = { λ s. s.token.of ≡ s.cell.now.id };
}

impl<'a, N: DeskNaming, D: Disk, K: Keeper> Shown<'a, N, D, K> {
    pub(crate) fn new(
        cell: &'a OnceLock<Found<N, D, K>>,
        token: OnceToken<'a, Found<N, D, K>>,
    ) -> Shown<'a, N, D, K>
        requires { token.of ≡ cell.now.id }
        ensures { result ≡ record { of = token.entry.of; ballot = token.entry.value } }
    {
        Shown { cell, token }
    }

    /// What the certificate or the vote was on that showed it first.
    pub fn ballot(&self) -> Ballot
        ensures value { result ≡ self.now.ballot }
        ensures found { WasPutBack D.Disk N.committee N.replica N.opening result }
        ensures kept { WasKept K.Keeper result }
    {
        self.cell.value(&self.token).ballot()
    }
}
