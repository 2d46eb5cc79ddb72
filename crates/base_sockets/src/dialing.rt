//! Streams to servers, which are given up where an end is called.

use crate::waiting::{Hold, read_held, set_ticks, write_held};
use std::io;
use std::io::{ErrorKind, Read, Write};
use std::net::{Net, SocketAddr, TcpStream};
use std::sync::atomic::{AtomicBool, Ordering};
use std::time::Duration;

/// A stream to a server.
#[derive(Drop)]
pub struct PatientStream<'a> {
    stream: TcpStream,
    ending: &'a AtomicBool,
    ticks: u32,
}

/// Connects to the first of these addresses that answers, each within the timeout. Each read and write of the stream waits for so
/// many ticks, and no longer than until the end is called.
pub fn dial<'a, N: Net<Stream = TcpStream>>(
    net: &N,
    addresses: &[SocketAddr],
    timeout: Duration,
    ticks: u32,
    ending: &'a AtomicBool,
) -> io::Result<PatientStream<'a>> {
    let mut last = io::Error::from(ErrorKind::NotConnected);
    for address in addresses {
        if ending.load(Ordering::SeqCst) {
            break;
        }
        match TcpStream::connect_timeout(net, address, timeout) {
            Ok(stream) => {
                set_ticks(&stream)?;
                return Ok(PatientStream {
                    stream,
                    ending,
                    ticks,
                });
            }
            Err(error) => last = error,
        }
    }
    Err(last)
}

// Until an end is called.
#[derive(Drop)]
struct UntilEnd<'a>(&'a AtomicBool);

impl Hold for UntilEnd<'_> {
    fn look(&self) -> io::Result<()> {
        if self.0.load(Ordering::SeqCst) {
            return Err(io::Error::from(ErrorKind::ConnectionAborted));
        }
        Ok(())
    }
}

impl Read for PatientStream<'_> {
    fn read(&mut self, buffer: &mut [u8]) -> io::Result<usize> {
        read_held(&self.stream, &UntilEnd(self.ending), self.ticks, buffer)
    }
}

impl Write for PatientStream<'_> {
    fn write(&mut self, bytes: &[u8]) -> io::Result<usize> {
        write_held(&self.stream, &UntilEnd(self.ending), self.ticks, bytes)
    }

    fn flush(&mut self) -> io::Result<()> {
        Ok(())
    }
}
