//! Where it is listened, and streams that are given up.

use base_sockets::{PatientStream, bind, bind_at_home, dial};
use std::io;
use std::io::{ErrorKind, Read};
use std::net::{Net, TcpListener, TcpStream};
use std::sync::atomic::{AtomicBool, Ordering};
use std::test::Fail;
use std::time::Duration;

// A listener that only this machine reaches, by a name or, where that has no address, by one.
fn listener_at_home<R: Net>(rt: &R) -> io::Result<TcpListener> {
    match bind_at_home(rt, "localhost:0") {
        Ok(listener) => Ok(listener),
        Err(_) => bind_at_home(rt, "127.0.0.1:0"),
    }
}

fn is_at_home<R: Net>(rt: &R) -> io::Result<bool> {
    let address = listener_at_home(rt)?.local_addr()?;
    Ok(address.ip().is_loopback())
}

// Why it is not listened at an address.
fn refusal_at<R: Net>(rt: &R, address: &str) -> Option<ErrorKind> {
    match bind_at_home(rt, address) {
        Ok(_) => None,
        Err(error) => Some(error.kind()),
    }
}

#[test]
fn listens_at_home_alone(rt: HostRuntime) -> Result<(), Fail> {
    let is_at_home = is_at_home(&rt)?;
    assert!(rt; is_at_home);
    assert!(rt; refusal_at(&rt, "0.0.0.0:0") == Some(ErrorKind::PermissionDenied));
    Ok(())
}

// Why a read gives up.
fn refusal_of_read(stream: &mut PatientStream) -> Option<ErrorKind> {
    let mut byte = [0];
    match stream.read(&mut byte) {
        Ok(_) => None,
        Err(error) => Some(error.kind()),
    }
}

// Why a read of a silent server gives up, and one behind an end.
fn refusals<R: Net<Listener = TcpListener, Stream = TcpStream>>(
    rt: &R,
) -> io::Result<(Option<ErrorKind>, Option<ErrorKind>)> {
    let listener = bind(rt, "127.0.0.1:0")?;
    let ending = AtomicBool::new(false);
    let addresses = [listener.local_addr()?];
    let second = Duration::from_secs(1);
    let mut stream = dial(rt, addresses.as_slice(), second, 2, &ending)?;
    let before = refusal_of_read(&mut stream);
    ending.store(true, Ordering::SeqCst);
    Ok((before, refusal_of_read(&mut stream)))
}

#[test]
fn an_end_ends_a_stream(rt: HostRuntime) -> Result<(), Fail> {
    let (before, behind) = refusals(&rt)?;
    assert!(rt; before == Some(ErrorKind::TimedOut));
    assert!(rt; behind == Some(ErrorKind::ConnectionAborted));
    Ok(())
}
