//! One caller of a desk.

ghost use Rattle.std.specs.Prelude.{◌≡◌, IfSome, IsSome, None, option_map};
ghost use Rattle.signer_answers.specs.Guards.{WasPutBack};

use crate::keeper::Keeper;
use crate::put_back::PutBack;
use crate::shown::Shown;
use blocks::Ballot;
use stable_log::Disk;
use std::sync::Wait;
use vote_desk::{DeskNaming, Session};

/// One caller of a desk: its session, and what showed it that the log was put back, if something did.
#[derive(Drop)]
pub struct Caller<'a, N: DeskNaming, D: Disk, K: Keeper> {
    /// The receipts of the votes that it was told, and its share of the desk's book.
    pub session: Session<N>,
    /// Once it was shown, it is told of nothing else: see `PutBack::found`.
    pub shown: Option<Shown<'a, N, D, K>>,
}

impl<'a, N: DeskNaming, D: Disk, K: Keeper> Caller<'a, N, D, K> {
    /// It was shown nothing yet.
    pub fn new(session: Session<N>) -> Caller<'a, N, D, K>
        ensures session { result.session ≡ session }
        ensures unshown { result.shown ≡ None }
    {
        Caller {
            session,
            shown: None,
        }
    }

    /// What the certificate or the vote was on that showed that the log was put back, if this caller was shown it, or another one
    /// by now. It has what shows it from then on.
    pub fn look<R: Wait>(&mut self, rt: &R, put_back: &'a PutBack<N, D, K>) -> Option<Ballot>
        ensures found { IfSome result (WasPutBack D.Disk N.committee N.replica N.opening) }
        ensures told { result ≡ option_map (λ s. s.ballot) self.new.shown }
        ensures first { self.old.shown ≡ None → IfSome self.new.shown (λ s. s.of ≡ put_back.now.cell.id) }
        ensures kept { IsSome self.old.shown → self.new.shown ≡ self.old.shown }
        ensures session { self.new.session ≡ self.old.session }
    {
        if self.shown.is_none() {
            self.shown = put_back.look(rt);
        }
        match &self.shown {
            Some(shown) => Some(shown.ballot()),
            None => None,
        }
    }

    /// The session, which the desk wants back when it is closed.
    pub fn into_session(self) -> Session<N>
        ensures { result ≡ self.entry.session }
    {
        let Caller { session, shown: _ } = self;
        session
    }
}
