//! All frames of a source.

ghost use Rattle.std.specs.Prelude.{◌≡◌, ◌<◌, ◌≤◌, ℕ, IfOk, OnErr, OnOk};
ghost use Rattle.log_transfer.specs.Places.{HasCause, IsFetched, MayTry};
ghost use Rattle.log_transfer.specs.declared.budget.TheConstants.{MOST_OF_A_STREAM};

use crate::connector::Connector;
use crate::error::FetchError;
use crate::payload::Payload;
use crate::pull::{Step, next_frame};
use crate::reader_state::ReaderState;
use log_format::Status;
use std::alloc::Global;

/// What came of a source.
#[derive(Drop)]
pub struct Fetched {
    /// The payloads of its whole frames, in order, at most 4,096.
    pub frames: Vec<Payload>,
    /// How its last connection ended.
    pub status: Status,
}

/// All frames of a source, over at most `tries` connections, each asked for those behind the ones that came before.
/// `tries` must be 1 to 3, and no more than the connector allows.
///
/// A connection that ends as `Whole`, `Broken` or `TooLong` is the last. Behind `Cut` or `Failed` it connects again
/// while tries are left; a frame that came in part is dropped. The status is that of the last connection, `Failed`
/// only where a call of the connector failed. Of each connection `MOST_OF_A_STREAM` bytes are read at most. Refused as Memory where memory was refused; what came is then gone.
pub fn fetch<C: Connector>(
    alloc: Global,
    connector: &mut C,
    tries: u8,
) -> Result<Fetched, FetchError>
    requires { MayTry (C.allowed connector.old) tries }
    ensures ok { IfOk result (λ f.
        IsFetched (C.gives connector.old) tries f.frames.items f.status) }
    ensures cause { IfOk result (λ f.
        HasCause (C.failed connector.old) (C.failed connector.new) f.status) }
    ensures state { C.reaches connector.old connector.new }
    ensures most { OnOk result (C.taken connector.new ≤ MOST_OF_A_STREAM) }
    ensures err { OnErr result (C.taken connector.old ≤ MOST_OF_A_STREAM
        → C.taken connector.new ≤ MOST_OF_A_STREAM) }
{
    let mut place = ReaderState::first(tries);
    let mut frames = Vec::new(alloc);
    let mut payload = Vec::new(alloc);
    loop {
        match next_frame(connector, &mut place, &mut payload)? {
            Step::Frame => {
                frames.reserve(1)?;
                frames.push_reserved(Payload::of(alloc, &payload)?);
            }
            Step::End(status) => return Ok(Fetched { frames, status }),
        }
    }
}
