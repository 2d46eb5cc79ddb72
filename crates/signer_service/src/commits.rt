//! The last commit that was told.

ghost use Rattle.std.specs.Prelude.{◌≡◌, IfSome, None};
ghost use Rattle.signer_service.specs.Commits.{IsCommitOf, later_of};

use blocks::Ballot;
use std::marker::{Model, PhantomData};
use std::sync::{Mutex, Wait};
use vote_desk::DeskNaming;

/// The committed block of the greatest view that the callers of one desk were told since the start: one value for all of
/// them.
#[derive(Drop)]
pub struct Commits<N: DeskNaming> {
    last: Mutex<LastCommit<N>>,
}

impl<N: DeskNaming> Commits<N> {
    /// None yet.
    pub fn new() -> Commits<N> {
        Commits {
            last: Mutex::new(LastCommit::new()),
        }
    }

    /// What was told last, by views.
    pub fn last<R: Wait>(&self, rt: &R) -> Option<Ballot>
        ensures { IfSome result (IsCommitOf N.committee) }
    {
        let last = self.last.lock(rt);
        let last = &*last;
        last.ballot()
    }

    // Keeps what is told, if its view is above that of the one before.
    pub(crate) fn note<R: Wait>(&self, rt: &R, ballot: Ballot)
        requires { IsCommitOf N.committee ballot }
    {
        let mut last = self.last.lock(rt);
        let last = &mut *last;
        last.note(ballot);
    }
}

// What was told last, if anything was.
#[derive(Drop)]
struct LastCommit<N: DeskNaming> {
    ballot: Option<Ballot>,
    named: PhantomData<N>,
}

impl<N: DeskNaming> Model for LastCommit<N> {
    ghost use Rattle.std.specs.Prelude.{Option, IfSome};
    ghost use Rattle.blocks.specs.declared.ballot.Ballot.{Ballot};
    ghost use Rattle.signer_service.specs.Commits.{IsCommitOf};

    ghost Value = { Option Ballot };

    ghost view = { λ l. l.ballot };

    ghost invariant = { λ l. IfSome l.ballot (IsCommitOf N.committee) };
}

impl<N: DeskNaming> LastCommit<N> {
    fn new() -> LastCommit<N>
        ensures { result ≡ None }
    {
        LastCommit {
            ballot: None,
            named: PhantomData,
        }
    }

    fn ballot(&self) -> Option<Ballot>
        ensures value { result ≡ self.now }
        ensures told { IfSome result (IsCommitOf N.committee) }
    {
        self.ballot
    }

    fn note(&mut self, ballot: Ballot)
        requires { IsCommitOf N.committee ballot }
        ensures { self.new ≡ later_of self.old ballot }
    {
        let is_later = match &self.ballot {
            Some(before) => before.view < ballot.view,
            None => true,
        };
        if is_later {
            self.ballot = Some(ballot);
        }
    }
}
