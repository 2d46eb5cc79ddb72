//! What a request asks of a server that has the log of one chain.

ghost use Rattle.std.specs.Prelude.{◌≡◌, Some, IfSome};
ghost use Rattle.log_request.specs.ChainRequests.{IsAskedIn};
ghost use Rattle.log_request.specs.declared.asking.Asked.{Asked as AskedValue};

use crate::request::ChainRequest;
use blocks::Id;
use log_format::FrameRequest;

/// What a server answers that has no log of the chain that a request names, before it closes: `HSL0` and four zero bytes. No
/// export begins so.
pub const NO_LOG: [u8; 8] = *b"HSL0\0\0\0\0";

/// What a request asks of a server that has the log of one chain.
#[derive(Clone, Copy, Debug, PartialEq, Eq)]
pub enum Asked {
    /// These payloads of its log.
    Frames(FrameRequest),
    /// Payloads of the log of another chain.
    OtherChain,
}

/// What these bytes ask of a server that has the log of this chain: a request of 12 bytes names no chain, and asks for what this
/// log has; one of 44 bytes does where it names this chain. None where the bytes are neither.
pub fn asked_in(chain: &Id, bytes: &[u8]) -> Option<Asked>
    // What is read is asked so.
    ensures found { IfSome result (IsAskedIn chain.now bytes.now) }

    // What is asked so is read.
    ensures only { (asked : AskedValue) → IsAskedIn chain.now bytes.now asked
        → result ≡ Some asked }
{
    if let Some(request) = FrameRequest::from_bytes(bytes) {
        return Some(Asked::Frames(request));
    }
    let request = ChainRequest::from_bytes(bytes)?;
    if request.chain != *chain {
        return Some(Asked::OtherChain);
    }
    Some(Asked::Frames(FrameRequest {
        first: request.first,
        most: request.most,
    }))
}
