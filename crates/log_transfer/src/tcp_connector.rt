//! A server over TCP as a source.

ghost use Rattle.std.specs.Prelude.{◌≡◌, false};

use crate::dial::Dial;
use crate::server_connector::ServerConnector;
use crate::tries::no_connection;
use std::io;
use std::io::ErrorKind;
use std::net::{Net, SocketAddr, TcpStream, ToSocketAddrs};
use std::time::{Clock, Duration};

/// How many seconds a connect to one address may take.
pub const CONNECT_SECONDS: u64 = 10;

/// How many seconds one read or write may wait. A server that serves others first may take some.
pub const WAIT_SECONDS: u64 = 60;

// How many of a host's addresses are tried.
const MOST_ADDRESSES: usize = 4;

/// Opens TCP streams to an address, such as `127.0.0.1:7000` or `replica-2:7000`. What is written to them is not told,
/// since no contract speaks of a socket.
///
/// Opening one fails where each of the host's first four addresses takes over 10 seconds to connect to; a read or write of
/// one fails where it waits over 60. How long the look-up of a host's name takes is not bounded here.
#[derive(Drop)]
pub struct TcpDialer<'a, R> {
    net: &'a R,
    address: &'a str,
}

/// How many seconds pass before a server is asked again; before it is asked a third time three times as many.
pub const PAUSE_SECONDS: u64 = 1;

/// A server over TCP.
pub type TcpConnector<'a, R> = ServerConnector<'a, R, TcpDialer<'a, R>>;

impl<'a, R: Net<Stream = TcpStream> + Clock> ServerConnector<'a, R, TcpDialer<'a, R>> {
    /// The server at an address, such as `127.0.0.1:7000` or `replica-2:7000`, not connected yet, with no failure so
    /// far. Before a second connection it waits so many seconds, and before a third three times as many.
    pub fn new(net: &'a R, address: &'a str, pause: u64) -> TcpConnector<'a, R>
        ensures address { result.dialer.address ≡ address.entry }
        ensures failures { result.failures ≡ 0 }
        ensures pause { result.pause ≡ pause }
    {
        ServerConnector::over(net, TcpDialer::new(net, address)).with_pause(pause)
    }
}

impl<'a, R: Net<Stream = TcpStream>> TcpDialer<'a, R> {
    /// Opens streams to this address. Nothing is opened yet.
    pub fn new(net: &'a R, address: &'a str) -> TcpDialer<'a, R>
        ensures { result.address ≡ address.entry }
    {
        TcpDialer { net, address }
    }

    // Connects to the first of the host's addresses that answers.
    fn connect_to_one(&self) -> io::Result<TcpStream> {
        let timeout = Duration::from_secs(CONNECT_SECONDS);
        let mut last = no_connection();
        let addresses = match self.address.to_socket_addrs(self.net) {
            Ok(addresses) => addresses,
            // so that a look-up that failed is told from what a host answers
            Err(_) => return Err(io::Error::from(ErrorKind::NotFound)),
        };
        for address in addresses.take(MOST_ADDRESSES) {
            match TcpStream::connect_timeout(self.net, &address, timeout) {
                Ok(stream) => return Ok(stream),
                Err(error) => last = error,
            }
        }
        Err(last)
    }
}

impl<'a, R: Net<Stream = TcpStream>> Dial for TcpDialer<'a, R> {
    type Stream = TcpStream;

    ghost tells = { false };

    fn dial(&self) -> io::Result<TcpStream> {
        let stream = self.connect_to_one()?;
        stream.set_read_timeout(Some(Duration::from_secs(WAIT_SECONDS)))?;
        stream.set_write_timeout(Some(Duration::from_secs(WAIT_SECONDS)))?;
        Ok(stream)
    }
}
