//! What shows that a gate is open.

ghost use Rattle.std.specs.Prelude.{◌≡◌};
ghost use Rattle.signer_answers.specs.Hearings.{IsGivenUp};

use crate::giving_up::GivenUp;
use stable_log::Disk;
use std::marker::Model;
use std::sync::{OnceLock, OnceToken};
use vote_desk::DeskNaming;

/// What shows that a gate is open. Contracts see the name of its cell, what was heard when it was opened, and whether this hearing
/// opened it.
#[derive(Drop)]
pub struct Opened<'a, N: DeskNaming, D: Disk> {
    cell: &'a OnceLock<GivenUp<N, D>>,
    token: OnceToken<'a, GivenUp<N, D>>,
    is_first: bool,
}

impl<'a, N: DeskNaming, D: Disk> Model for Opened<'a, N, D> {
    ghost use Rattle.std.specs.Prelude.{◌≡◌};
    ghost use Rattle.signer_answers.specs.Hearings.{Opening};

    ghost Value = { Opening };

    ghost view = { λ o. record { of = o.token.of; heard = o.token.value; is_first = o.is_first } };

    ghost invariant = { λ o. o.token.of ≡ o.cell.now.id };
}

impl<'a, N: DeskNaming, D: Disk> Opened<'a, N, D> {
    pub(crate) fn new(
        cell: &'a OnceLock<GivenUp<N, D>>,
        token: OnceToken<'a, GivenUp<N, D>>,
        is_first: bool,
    ) -> Opened<'a, N, D>
        requires { token.of ≡ cell.now.id }
        ensures { result ≡ record { of = token.entry.of; heard = token.entry.value; is_first = is_first } }
    {
        Opened {
            cell,
            token,
            is_first,
        }
    }

    /// Whether this hearing opened it.
    pub fn is_first(&self) -> bool
        ensures value { result ≡ self.now.is_first }
        ensures heard { IsGivenUp D.Disk N.committee N.replica N.opening self.now.heard }
    {
        self.cell.value(&self.token).heard();
        self.is_first
    }
}
