//! A server on the loopback, and its clients in another thread.

use crate::stored_log::log_of_nine;
use base_streams::MemorySink;
use log_format::Status;
use log_server::{ServiceFault, serve_requests};
use log_transfer::{Payload, TcpConnector, fetch};
use stable_log::MemoryDisk;
use std::alloc::Global;
use std::io;
use std::io::Write;
use std::net::{Net, TcpListener, TcpStream};
use std::test::Fail;
use std::thread::{Threads, join, sleep};
use std::time::{Clock, Duration};
use test_fixtures::exports::nine_entries;
use vote_log::VoteLog;

// A listener on some port, and its address.
fn listen<R: Net<Listener = TcpListener, Stream = TcpStream>>(
    rt: &R,
    alloc: Global,
) -> io::Result<(TcpListener, String)> {
    let listener = TcpListener::bind(rt, "127.0.0.1:0")?;
    let address = format!(in alloc; "{}", listener.local_addr()?)?;
    Ok((listener, address))
}

// An address on which nothing listens any more.
fn free_address<R: Net<Listener = TcpListener, Stream = TcpStream>>(
    rt: &R,
    alloc: Global,
) -> io::Result<String> {
    let (_, address) = listen(rt, alloc)?;
    Ok(address)
}

// Connects, and waits ten seconds for the server to listen.
fn connect<R: Net<Stream = TcpStream> + Clock>(rt: &R, address: &str) -> io::Result<TcpStream> {
    for _ in 0..2_000u32 {
        match TcpStream::connect(rt, address) {
            Ok(stream) => return Ok(stream),
            Err(_) => sleep(rt, Duration::from_millis(5)),
        }
    }
    Err(io::Error::from(io::ErrorKind::TimedOut))
}

// Whether these are the payloads of the stored export, each of which stands behind a length of 4 bytes.
fn are_stored(frames: &[Payload]) -> bool {
    let mut rest = nine_entries().get(4..).unwrap_or(b"");
    for frame in frames {
        let payload = rest.get(4..).unwrap_or(b"");
        let Some(after) = payload.strip_prefix(frame.as_bytes()) else {
            return false;
        };
        rest = after;
    }
    rest == b"\0\0\0\0\0\0\0\x09".as_slice()
}

// Whether a server gives the stored export over one connection.
fn gives_log<R: Net<Stream = TcpStream> + Clock>(rt: &R, alloc: Global, address: &str) -> bool {
    match fetch(alloc, &mut TcpConnector::new(rt, address, 0), 1) {
        Ok(came) => came.status == Status::Whole && are_stored(&came.frames),
        Err(_) => false,
    }
}

// A client that leaves at once, one that sends another magic, and one that fetches the log: whether it is given.
fn ask_three<R: Net<Stream = TcpStream> + Clock>(
    rt: &R,
    alloc: Global,
    address: &str,
) -> io::Result<bool> {
    drop(connect(rt, address)?);
    TcpStream::connect(rt, address)?.write_all(b"HSL9\0\0\0\0\0\0\x10\x01")?;
    Ok(gives_log(rt, alloc, address))
}

// What a server says that is to answer these three, and whether the last is given the log.
fn serve_three<R: Net<Listener = TcpListener, Stream = TcpStream> + Clock + Threads + Sync>(
    rt: &R,
    alloc: Global,
    log: &mut VoteLog<MemoryDisk>,
    out: &mut MemorySink,
) -> io::Result<(Result<(), ServiceFault>, bool)> {
    let address = free_address(rt, alloc)?;
    Ok(join(
        rt,
        || serve_requests(rt, alloc, address.as_str(), 3, log, out),
        || matches!(ask_three(rt, alloc, address.as_str()), Ok(true)),
    ))
}

#[test]
fn three_requests_are_served(rt: HostRuntime) -> Result<(), Fail> {
    let mut log = log_of_nine(&rt);
    let mut out = MemorySink::new(rt.alloc());
    let answered = serve_three(&rt, rt.alloc(), &mut log, &mut out)?;
    assert!(rt; answered == (Ok(()), true));
    assert!(rt; out.bytes() == b"serve fault 5\nserve fault 5\nserved 9\n".as_slice());
    Ok(())
}

// The first line is lost, and the other two clients get no answer.
#[test]
fn a_line_that_is_lost_ends_it(rt: HostRuntime) -> Result<(), Fail> {
    let mut log = log_of_nine(&rt);
    let mut out = MemorySink::new(rt.alloc());
    out.fuse(0, false);
    let answered = serve_three(&rt, rt.alloc(), &mut log, &mut out)?;
    assert!(rt; answered == (Err(ServiceFault::Output), false));
    Ok(())
}

fn is_refused<R: Net<Listener = TcpListener, Stream = TcpStream> + Clock>(
    rt: &R,
    alloc: Global,
    log: &mut VoteLog<MemoryDisk>,
    address: &str,
) -> bool {
    let mut out = MemorySink::new(alloc);
    serve_requests(rt, alloc, address, 1, log, &mut out) == Err(ServiceFault::Listen)
        && out.bytes().is_empty()
}

// No address, one with no port, one with a port over 65,535, and one on which another server listens.
#[test]
fn addresses_that_are_refused(rt: HostRuntime) -> Result<(), Fail> {
    let mut log = log_of_nine(&rt);
    let (listener, taken) = listen(&rt, rt.alloc())?;
    for address in ["", "127.0.0.1", "127.0.0.1:65536", taken.as_str()] {
        assert!(rt; is_refused(&rt, rt.alloc(), &mut log, address), "{address}");
    }
    drop(listener);
    Ok(())
}
