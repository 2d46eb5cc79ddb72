//! What opens such streams for a `ServerConnector`.

ghost use Rattle.std.specs.Prelude.{◌≡◌};

use crate::server::ChainServer;
use crate::stream::ChainStream;
use log_transfer::Dial;
use std::io;

/// Opens streams to a server that is asked for the log of one chain: what is written to one is a request of 12 bytes, and it asks for the
/// same by 44 bytes that name the chain. A stream that was opened connects once the request is written.
#[derive(Drop)]
pub struct ChainDialer<'s, D> {
    server: &'s ChainServer<D>,
}

impl<'s, D> ChainDialer<'s, D> {
    /// To this server.
    pub fn of(server: &'s ChainServer<D>) -> ChainDialer<'s, D>
        ensures { result.server ≡ server.entry }
    {
        ChainDialer { server }
    }
}

impl<'s, D: Dial> Dial for ChainDialer<'s, D> {
    type Stream = ChainStream<'s, D>;

    ghost tells = { D.tells };

    fn dial(&self) -> io::Result<ChainStream<'s, D>> {
        Ok(ChainStream::to(self.server))
    }
}
