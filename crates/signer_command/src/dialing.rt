//! Streams to the servers of other replicas' logs, which are given up where the signer ends.

ghost use Rattle.std.specs.Prelude.{false};

use base_sockets::{PatientStream, dial};
use log_transfer::{CONNECT_SECONDS, Dial};
use std::io;
use std::net::{Net, SocketAddr, TcpStream, ToSocketAddrs};
use std::sync::atomic::AtomicBool;
use std::time::Duration;

/// How many ticks one read or write waits at most, each of a quarter of a second: ten seconds.
const MOST_TICKS: u32 = 40;

/// How many of a host's addresses are tried.
const MOST_ADDRESSES: usize = 4;

/// The first addresses of a server's name.
#[derive(Clone, Copy, Debug)]
pub(crate) struct Addresses {
    found: [SocketAddr; MOST_ADDRESSES],
    count: usize,
}

impl Addresses {
    /// Those that the name has now. An error where it can't be looked up, or has none.
    pub fn of<N: Net>(net: &N, name: &str) -> io::Result<Addresses> {
        let mut found = [SocketAddr::from(([0, 0, 0, 0], 0)); MOST_ADDRESSES];
        let mut count: usize = 0;
        for (at, address) in found.iter_mut().zip(name.to_socket_addrs(net)?) {
            *at = address;
            count = count.saturating_add(1);
        }
        if count == 0 {
            return Err(io::Error::from(io::ErrorKind::NotFound));
        }
        Ok(Addresses { found, count })
    }

    fn as_slice(&self) -> &[SocketAddr] {
        self.found.get(..self.count).unwrap_or(&[])
    }
}

/// Opens streams to the first of these addresses that answers.
#[derive(Drop)]
pub(crate) struct Dialer<'a, N> {
    pub net: &'a N,
    pub addresses: Addresses,
    pub ending: &'a AtomicBool,
}

impl<'a, N: Net<Stream = TcpStream>> Dial for Dialer<'a, N> {
    type Stream = PatientStream<'a>;

    ghost tells = { false };

    fn dial(&self) -> io::Result<PatientStream<'a>> {
        let timeout = Duration::from_secs(CONNECT_SECONDS);
        let addresses = self.addresses.as_slice();
        dial(self.net, addresses, timeout, MOST_TICKS, self.ending)
    }
}
