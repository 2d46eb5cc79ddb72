//! Streams to servers, which are given up where the watch ends.

ghost use Rattle.std.specs.Prelude.{false};

use base_sockets::{PatientStream, dial};
use log_transfer::{CONNECT_SECONDS, Dial, WAIT_SECONDS};
use std::alloc::Global;
use std::io;
use std::net::{Net, SocketAddr, TcpStream, ToSocketAddrs};
use std::sync::atomic::AtomicBool;
use std::time::Duration;

/// How many ticks one read or write waits at most, each of a quarter of a second.
const MOST_TICKS: u32 = 4 * WAIT_SECONDS as u32;

/// How many of a host's addresses are tried.
const MOST_ADDRESSES: usize = 4;

// The addresses that a server's name has now, at most four.
fn addresses_of<N: Net>(alloc: Global, net: &N, name: &str) -> io::Result<Vec<SocketAddr>> {
    let mut addresses = Vec::new(alloc);
    for address in name.to_socket_addrs(net)?.take(MOST_ADDRESSES) {
        addresses.push(address)?;
    }
    Ok(addresses)
}

/// Opens streams to the first address of a server that answers, as an audit does. Its name is looked up for each.
#[derive(Drop)]
pub(crate) struct Dialer<'a, N> {
    pub net: &'a N,
    pub alloc: Global,
    pub name: &'a str,
    pub ending: &'a AtomicBool,
}

impl<'a, N: Net<Stream = TcpStream>> Dial for Dialer<'a, N> {
    type Stream = PatientStream<'a>;

    ghost tells = { false };

    fn dial(&self) -> io::Result<PatientStream<'a>> {
        let timeout = Duration::from_secs(CONNECT_SECONDS);
        let addresses = addresses_of(self.alloc, self.net, self.name)?;
        dial(self.net, &addresses, timeout, MOST_TICKS, self.ending)
    }
}
