//! What answers a request.

ghost use Rattle.std.specs.Prelude.{◌≡◌, ◌<◌, IfErr, IfOk, OnErr, length, option_map};
ghost use Rattle.vote_desk.specs.SomeDesk.{IsDeskOf, SomeDesk};
ghost use Rattle.log_handout.specs.Replies.{IsBegun, IsReplyPiece, IsReplyUnmade};

use crate::handout::{Handout, copy_of};
use log_request::{Asked, NO_LOG};
use stable_log::Disk;
use std::alloc::Global;
use std::sync::Wait;
use vote_desk::{Desk, DeskNaming};
use vote_log::ExportError;

/// What answers a request of either kind, and how far that is.
#[derive(Drop)]
pub enum Reply {
    /// The entries that it asks for.
    Log(Handout),
    /// That there is no log of the chain that it names, and whether that was said.
    NoLog(bool),
}

impl Reply {
    /// What answers what is asked: the entries that are asked for, of those that the desk has now, or that its log is not one of the
    /// chain that is named.
    pub fn begin<N: DeskNaming, T: Wait, D: Disk>(rt: &T, desk: &Desk<N, D>, asked: Asked) -> Reply
        ensures { IsBegun (SomeDesk (IsDeskOf D.Disk N.committee N.replica N.opening)) asked result }
    {
        match asked {
            Asked::Frames(request) => Reply::Log(Handout::begin(rt, desk, request)),
            Asked::OtherChain => Reply::NoLog(false),
        }
    }

    /// The next bytes that go out: of a log as of `Handout::next_piece`; else the eight bytes that say that there is none, once. After
    /// an error nothing was made.
    pub fn next_piece<N: DeskNaming, T: Wait, D: Disk>(
        &mut self,
        rt: &T,
        alloc: Global,
        desk: &Desk<N, D>,
        share: u32,
    ) -> Result<Option<Vec<u8>>, ExportError>
        requires { 0 < share }
        ensures made { IfOk result (λ piece.
            IsReplyPiece (SomeDesk (IsDeskOf D.Disk N.committee N.replica N.opening)) D.bytes share
            self.old self.new (option_map (λ v. v.items) piece)) }
        ensures err { OnErr result (self.new ≡ self.old) }
        ensures refused { IfErr result (IsReplyUnmade D.Disk
            (IsDeskOf D.Disk N.committee N.replica N.opening) self.old share) }
    {
        match self {
            Reply::Log(handout) => handout.next_piece(rt, alloc, desk, share),
            Reply::NoLog(true) => Ok(None),
            Reply::NoLog(is_said) => {
                let said = copy_of(alloc, &NO_LOG)?;
                *is_said = true;
                Ok(Some(said))
            }
        }
    }
}
