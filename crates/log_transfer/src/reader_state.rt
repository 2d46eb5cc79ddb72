//! Where a reader of a source stands.

ghost use Rattle.std.specs.Prelude.{◌≡◌, ◌↔◌, IsTrue};
ghost use Rattle.log_transfer.specs.Places.{IsEnd, may_go_on};
ghost use Rattle.log_transfer.specs.Pulls.{first_place, place_behind};

use log_format::Status;

/// How many connections to one source are made at most.
pub const MOST_TRIES: u8 = 3;

// Where a reader of a source stands.
#[derive(Clone, Copy)]
pub struct ReaderState {
    // How many frames came, of all connections.
    pub(crate) held: u32,
    // How many more connections it may make.
    pub(crate) tries: u8,
    // Whether one is open.
    pub(crate) is_open: bool,
    // How many frames came of that one.
    pub(crate) count: u32,
    // How the last one ended; `Failed` before the first.
    pub(crate) last: Status,
}

// Whether a source is asked again behind such a status.
pub(crate) fn may_go_on(status: Status) -> bool
    ensures { result ≡ may_go_on status }
{
    match status {
        Status::Cut | Status::Failed => true,
        Status::Whole | Status::Broken | Status::TooLong => false,
    }
}

impl ReaderState {
    // Before the first connection.
    pub(crate) fn first(tries: u8) -> ReaderState
        ensures { result ≡ first_place tries }
    {
        ReaderState {
            held: 0,
            tries,
            is_open: false,
            count: 0,
            last: Status::Failed,
        }
    }

    // Before the first connection, where so many frames are held already.
    pub(crate) fn behind(held: u32, tries: u8) -> ReaderState
        ensures { result ≡ place_behind held tries }
    {
        ReaderState {
            held,
            tries,
            is_open: false,
            count: 0,
            last: Status::Failed,
        }
    }

    // Whether no more is to come.
    pub(crate) fn is_end(&self) -> bool
        ensures { IsTrue result ↔ IsEnd self.now }
    {
        if self.is_open {
            return false;
        }
        if may_go_on(self.last) {
            return self.tries == 0;
        }
        true
    }
}
