//! Where callers connect.

ghost use Rattle.std.specs.Prelude.{◌≡◌, IfOk, true};
ghost use Rattle.signer_command.specs.Ruled.{is_heard_over_tcp};

use base_sockets::{bind, bind_at_home, set_ticks};
use std::alloc::Global;
use std::fs::File;
use std::io;
use std::net::{Net, Shutdown, TcpListener, TcpStream};
use std::os::fd::OwnedFd;
use std::os::unix::net::UnixListener;
use std::time::Duration;

/// A socket that takes connections.
#[derive(Drop)]
pub(crate) enum Listener {
    Tcp(TcpListener),
    /// .. and the file whose lock is held for as long as it listens.
    Unix(UnixListener, File),
}

impl Listener {
    /// The next connection, of which a read or a write that waits longer than a tick gives up.
    pub fn accept(&self) -> io::Result<TcpStream> {
        let stream = self.accept_one()?;
        set_ticks(&stream)?;
        Ok(stream)
    }

    // Reads, writes and their limits are those of every socket, so a Unix socket's stream is held as TCP's are.
    fn accept_one(&self) -> io::Result<TcpStream> {
        match self {
            Listener::Tcp(listener) => {
                let (stream, _) = listener.accept()?;
                stream.set_nodelay(true)?;
                Ok(stream)
            }
            Listener::Unix(listener, _) => {
                let (stream, _) = listener.accept()?;
                Ok(TcpStream::from(OwnedFd::from(stream)))
            }
        }
    }

    /// Takes no more connections: each `accept` that waits ends.
    pub fn close(&self) -> io::Result<()> {
        let socket = match self {
            Listener::Tcp(listener) => OwnedFd::from(listener.try_clone()?),
            Listener::Unix(listener, _) => OwnedFd::from(listener.try_clone()?),
        };
        TcpStream::from(socket).shutdown(Shutdown::Both)
    }

    /// From here on an `accept` that has waited for so long gives up.
    pub fn set_patience(&self, patience: Duration) -> io::Result<()> {
        let socket = match self {
            Listener::Tcp(listener) => OwnedFd::from(listener.try_clone()?),
            Listener::Unix(listener, _) => OwnedFd::from(listener.try_clone()?),
        };
        TcpStream::from(socket).set_read_timeout(Some(patience))
    }

    /// Whether any program of this machine, and so a page in a browser, may connect.
    pub fn is_tcp(&self) -> bool
        ensures { result ≡ is_heard_over_tcp self.now }
    {
        matches!(self, Listener::Tcp(_))
    }
}

/// A socket that takes connections, and where it is, as it is printed.
#[derive(Drop)]
pub(crate) struct ListeningSocket {
    pub listener: Listener,
    pub name: String,
}

/// Listens at an address of this machine, for many connections at once: `accept` does not wait. The place is named by the address that
/// it got, behind these words.
pub(crate) fn listen<R: Net<Listener = TcpListener, Stream = TcpStream>>(
    rt: &R,
    alloc: Global,
    words: &str,
    address: &str,
) -> io::Result<ListeningSocket> {
    place_of(alloc, words, bind(rt, address)?)
}

/// The same, where the address is one that only this machine reaches, and `accept` waits.
pub(crate) fn listen_at_home<R: Net<Listener = TcpListener, Stream = TcpStream>>(
    rt: &R,
    alloc: Global,
    words: &str,
    address: &str,
) -> io::Result<ListeningSocket>
    ensures { IfOk result (λ place. is_heard_over_tcp place.listener ≡ true) }
{
    let listener = bind_at_home(rt, address)?;
    listener.set_nonblocking(false)?;
    place_of(alloc, words, listener)
}

fn place_of(alloc: Global, words: &str, listener: TcpListener) -> io::Result<ListeningSocket>
    ensures { IfOk result (λ place. is_heard_over_tcp place.listener ≡ true) }
{
    let got = listener.local_addr()?;
    let name = format!(in alloc; "{words}{got}")?;
    Ok(ListeningSocket {
        listener: Listener::Tcp(listener),
        name,
    })
}
