//! Sockets that take connections.

use mio::net::TcpListener as OpenListener;
use std::io;
use std::io::ErrorKind;
use std::net::{Net, SocketAddr, TcpListener, ToSocketAddrs};

/// Listens at an address, or at the first of a name's that can be listened at, with the longest queue of connections that the system
/// allows. `accept` does not wait.
pub fn bind<R: Net>(rt: &R, address: &str) -> io::Result<TcpListener> {
    let mut last = io::Error::from(ErrorKind::AddrNotAvailable);
    for address in address.to_socket_addrs(rt)? {
        match bind_one(rt, address) {
            Ok(listener) => return Ok(listener),
            Err(error) => last = error,
        }
    }
    Err(last)
}

/// The same, where each of the addresses is one that only this machine reaches: `PermissionDenied` where one is not. The addresses
/// that were looked at are those that are listened at.
pub fn bind_at_home<R: Net>(rt: &R, address: &str) -> io::Result<TcpListener> {
    let mut got = Err(io::Error::from(ErrorKind::AddrNotAvailable));
    for address in address.to_socket_addrs(rt)? {
        if !address.ip().is_loopback() {
            return Err(io::Error::from(ErrorKind::PermissionDenied));
        }
        if got.is_err() {
            got = bind_one(rt, address);
        }
    }
    got
}

fn bind_one<R: Net>(rt: &R, address: SocketAddr) -> io::Result<TcpListener> {
    Ok(TcpListener::from(OpenListener::bind(rt, address)?))
}
