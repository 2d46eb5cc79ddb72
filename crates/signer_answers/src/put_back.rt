//! Whether a log was found to be put back.

ghost use Rattle.std.specs.Prelude.{◌≡◌, IfSome, IsSome};
ghost use Rattle.signer_answers.specs.Guards.{WasPutBack};
ghost use Rattle.signer_answers.specs.Showings.{IsOfEither};

use crate::found::Found;
use crate::keeper::Keeper;
use crate::shown::Shown;
use blocks::{Ballot, Header};
use certificates::Certificate;
use stable_log::Disk;
use std::sync::{Mutex, OnceLock, Wait};
use vote_desk::DeskNaming;

/// Whether the log of a desk was found to be put back, since the start: one value for all its callers.
#[derive(Drop)]
pub struct PutBack<N: DeskNaming, D: Disk, K: Keeper> {
    turn: Mutex<()>,
    cell: OnceLock<Found<N, D, K>>,
}

impl<N: DeskNaming, D: Disk, K: Keeper> PutBack<N, D, K> {
    /// Not yet.
    pub fn new() -> PutBack<N, D, K> {
        PutBack {
            turn: Mutex::new(()),
            cell: OnceLock::new(),
        }
    }

    /// What the certificate or the vote was on that showed it first, if one did. Who hands in what shows it is always told; who has
    /// nothing to hand in may keep what `look` answers.
    pub fn found<R: Wait>(&self, rt: &R, shown: &Option<Shown<'_, N, D, K>>) -> Option<Ballot>
        ensures found { IfSome result (WasPutBack D.Disk N.committee N.replica N.opening) }
        ensures shown { IsSome shown.now → IsSome result }
    {
        if let Some(shown) = shown {
            return Some(shown.ballot());
        }
        match self.look(rt) {
            Some(shown) => Some(shown.ballot()),
            None => None,
        }
    }

    /// What shows it, if it was found by whatever caller. It may wait while the keeper puts it down.
    pub fn look<R: Wait>(&self, rt: &R) -> Option<Shown<'_, N, D, K>>
        ensures { IfSome result (λ shown. shown.of ≡ self.now.cell.id) }
    {
        let _turn = self.turn.lock(rt);
        match self.cell.witness() {
            Some(token) => Some(Shown::new(&self.cell, token)),
            None => None,
        }
    }

    // It was found, by this certificate or the block of this header, which came together. Where it is for the first time the keeper
    // puts it down, and only then it is told: the lock is held meanwhile, so whoever asks waits for that, and no caller is let
    // past. Answers what shows it.
    pub(crate) fn find<R: Wait>(
        &self,
        rt: &R,
        keeper: &K,
        ballot: Ballot,
        header: &Header,
        certificate: &Certificate,
        entries: usize,
    ) -> Shown<'_, N, D, K>
        requires found { WasPutBack D.Disk N.committee N.replica N.opening ballot }
        requires on { IsOfEither header.now certificate.now ballot }
        ensures { result.of ≡ self.now.cell.id }
    {
        let _turn = self.turn.lock(rt);
        if let Some(token) = self.cell.witness() {
            return Shown::new(&self.cell, token);
        }
        let found = Found::new(keeper, ballot, header, certificate, entries);
        match self.cell.try_insert(rt, found) {
            Ok(token) => Shown::new(&self.cell, token),
            Err((token, _)) => Shown::new(&self.cell, token),
        }
    }
}
