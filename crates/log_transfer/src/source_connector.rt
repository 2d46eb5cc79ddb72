//! A source that is a server or a file.

ghost use Rattle.log_transfer.specs.Sources.{asked_of, gives_of, left_of, number_of, reaches_of, some_of, stays_of};

use crate::connector::Connector;
use crate::failure::Failure;
use crate::file_connector::FileConnector;
use crate::tcp_connector::TcpConnector;
use base_streams::Fault;

/// A server, or a file, each with a connector of its own. It tells what that tells, and may be sent to another thread where
/// both may.
#[derive(Drop)]
pub enum ServerOrFile<S, F> {
    /// A server.
    Tcp(S),
    /// A file.
    File(F),
}

/// A server over TCP, or a file of the system.
///
/// It may be sent to another thread where both handles are `Sync`, and what else they open may be sent too:
/// `R: Net<Stream = TcpStream, Listener = TcpListener> + Clock + Sync`, and `F: Files<File = File> + Sync` with
/// `F::Dir: Send`.
pub type SourceConnector<'a, R, F> = ServerOrFile<TcpConnector<'a, R>, FileConnector<'a, F>>;

impl<S: Connector, F: Connector> Connector for ServerOrFile<S, F> {
    ghost gives = { gives_of S.gives F.gives };

    ghost left = { left_of S.left F.left };

    ghost asked = { asked_of S.asked F.asked };

    ghost taken = { number_of S.taken F.taken };

    ghost failed = { number_of S.failed F.failed };

    ghost reaches = { reaches_of S.reaches F.reaches };

    ghost allowed = { number_of S.allowed F.allowed };

    fn connect(&mut self, first: u32, most: u32) -> Result<(), Fault> {
        match self {
            ServerOrFile::Tcp(server) => server.connect(first, most),
            ServerOrFile::File(file) => file.connect(first, most),
        }
    }

    fn read(&mut self, buffer: &mut [u8]) -> Result<usize, Fault> {
        match self {
            ServerOrFile::Tcp(server) => server.read(buffer),
            ServerOrFile::File(file) => file.read(buffer),
        }
    }

    fn most_tries(&self) -> u8 {
        match self {
            ServerOrFile::Tcp(server) => server.most_tries(),
            ServerOrFile::File(file) => file.most_tries(),
        }
    }

    fn failures(&self) -> u64 {
        match self {
            ServerOrFile::Tcp(server) => server.failures(),
            ServerOrFile::File(file) => file.failures(),
        }
    }

    fn failure(&self) -> Option<Failure> {
        match self {
            ServerOrFile::Tcp(server) => server.failure(),
            ServerOrFile::File(file) => file.failure(),
        }
    }

    fn reached(&self, frames: u32) {
        match self {
            ServerOrFile::Tcp(server) => server.reached(frames),
            ServerOrFile::File(file) => file.reached(frames),
        }
    }

    ghost some = { some_of S.left F.left S.some F.some };

    ghost stays = { stays_of S.reaches F.reaches S.stays F.stays };
}
