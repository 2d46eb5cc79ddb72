//! Frames of a source, one at a time.

ghost use Rattle.std.specs.Prelude.{◌≡◌, ◌<◌, ◌≤◌, ℕ, [], IfOk, Ok, OnErr, length, take};
ghost use Rattle.log_transfer.specs.Connections.{GivesSome};
ghost use Rattle.log_transfer.specs.Places.{IsCaused, IsEnd, IsPlace, MayTry};
ghost use Rattle.log_transfer.specs.Pulls.{IsStep, first_place, place_behind};
ghost use Rattle.base_wire.specs.declared.limits.TheConstants.{MOST_ENTRIES};
ghost use Rattle.log_transfer.specs.declared.budget.TheConstants.{MOST_OF_A_STREAM};

use crate::connector::Connector;
use crate::error::FetchError;
use crate::failure::Failure;
use crate::reader_state::ReaderState;
use crate::steps::advance;
use base_wire::LONGEST_PAYLOAD;
use log_format::Status;
use std::marker::Model;

/// What `Pull::next` gives.
#[derive(Clone, Copy, Debug, PartialEq, Eq)]
pub enum Step {
    /// A frame, whose payload stands in the vector.
    Frame,
    /// No frame is left, and the last connection ended so.
    End(Status),
}

// The next frame, in `out`.
pub(crate) fn next_frame<C: Connector>(
    connector: &mut C,
    place: &mut ReaderState,
    out: &mut Vec<u8>,
) -> Result<Step, FetchError>
    requires place { IsPlace (C.taken connector.old) place.old }
    ensures ok { IfOk result (IsStep C.Connector
        (record { connector = connector.old; place = place.old })
        (record { connector = connector.new; place = place.new }) out.new.items) }
    ensures ended { IsEnd place.old → (result ≡ Ok (Step.End place.old.last))
        × (connector.new ≡ connector.old) × (place.new ≡ place.old) × (out.new.items ≡ []) }
    ensures state { (s : C) → C.reaches s connector.old → C.reaches s connector.new }
    ensures cause { (before : ℕ) → IsCaused before (C.failed connector.old) place.old
        → IsCaused before (C.failed connector.new) place.new }
    ensures place { IsPlace (C.taken connector.new) place.new }
    ensures most { IfOk result (λ _. C.taken connector.new ≤ MOST_OF_A_STREAM) }
    ensures err { OnErr result ((connector.new ≡ connector.old) × (place.new ≡ place.old)
        × (out.new.items ≡ out.old.items)) }
{
    if place.is_end() {
        out.clear();
        return Ok(Step::End(place.last));
    }
    // All that memory can refuse comes before the first call of the connector.
    out.resize(LONGEST_PAYLOAD, 0)?;
    match advance(connector, place, out.as_mut_slice()) {
        Some(len) => {
            out.truncate(len);
            connector.reached(place.held);
            Ok(Step::Frame)
        }
        None => {
            out.clear();
            Ok(Step::End(place.last))
        }
    }
}

/// The frames of a source, one at a time, over a few connections. Contracts see the connector and where the reader
/// stands.
#[derive(Drop)]
pub struct Pull<C: Connector> {
    connector: C,
    place: ReaderState,
}

impl<C: Connector> Model for Pull<C> {
    ghost use Rattle.log_transfer.specs.Places.{IsPlace};
    ghost use Rattle.log_transfer.specs.Pulls.{Pulling};

    ghost Value = { Pulling C };

    ghost view = { λ p. record { connector = p.connector; place = p.place } };

    ghost invariant = { λ p. IsPlace (C.taken p.connector) p.place };
}

impl<C: Connector> Pull<C> {
    /// Before the first of at most `tries` connections, which must be 1 to 3, and no more than the connector allows.
    /// Nothing is connected yet.
    pub fn new(connector: C, tries: u8) -> Pull<C>
        requires { MayTry (C.allowed connector) tries }
        ensures connector { result.connector ≡ connector }
        ensures place { result.place ≡ first_place tries }
    {
        Pull {
            connector,
            place: ReaderState::first(tries),
        }
    }

    /// The same, where so many frames of the source are held already: only those behind them are asked for.
    pub fn behind(connector: C, held: u32, tries: u8) -> Pull<C>
        requires may { MayTry (C.allowed connector) tries }
        requires few { held ≤ MOST_ENTRIES }
        ensures connector { result.connector ≡ connector }
        ensures place { result.place ≡ place_behind held tries }
    {
        Pull {
            connector,
            place: ReaderState::behind(held, tries),
        }
    }

    /// The next frame: its payload stands in the vector, of 1 to 65,536 bytes. At the end the vector is empty, and
    /// each later call gives the same end without a call of the connector.
    ///
    /// A connection that ends as `Whole`, `Broken` or `TooLong` is the last. Behind `Cut` or `Failed` it connects
    /// again while tries are left, for the frames behind those that came; a frame that came in part is dropped. The
    /// status is that of the last connection, `Failed` only where a call of the connector failed.
    ///
    /// Of each connection `MOST_OF_A_STREAM` bytes are read at most.
    ///
    /// Where memory is refused nothing changed, and the next call goes on with the same frame.
    pub fn next(&mut self, out: &mut Vec<u8>) -> Result<Step, FetchError>
        ensures ok { IfOk result (IsStep C.Connector self.old self.new out.new.items) }
        ensures ended { IsEnd self.old.place → (result ≡ Ok (Step.End self.old.place.last))
            × (self.new ≡ self.old) × (out.new.items ≡ []) }
        ensures state { (s : C) → C.reaches s self.old.connector
            → C.reaches s self.new.connector }
        ensures cause { (before : ℕ) → IsCaused before (C.failed self.old.connector) self.old.place
            → IsCaused before (C.failed self.new.connector) self.new.place }
        ensures place { IsPlace (C.taken self.new.connector) self.new.place }
        ensures most { IfOk result (λ _. C.taken self.new.connector ≤ MOST_OF_A_STREAM) }
        ensures err { OnErr result ((self.new ≡ self.old) × (out.new.items ≡ out.old.items)) }
    {
        next_frame(&mut self.connector, &mut self.place, out)
    }

    /// How many calls of the connector answered a fault, up to 2^64 - 1.
    pub fn failures(&self) -> u64
        ensures count { result ≡ C.failed self.now.connector }
        ensures some { GivesSome (C.left self.now.connector) }
        ensures next { (k f m : ℕ) → GivesSome (C.gives self.now.connector k f m) }
    {
        self.connector.failures()
    }

    /// Why its last call failed, where it did and the connector knows.
    pub fn failure(&self) -> Option<Failure> {
        self.connector.failure()
    }
}
