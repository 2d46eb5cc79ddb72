//! Many connections of one socket.

use base_sockets::{Bounds, Next, Rules, Talk, bind, talk_to_all, tick};
use std::alloc::Global;
use std::io::{Read, Write};
use std::net::{Net, SocketAddr, TcpListener, TcpStream};
use std::sync::Wait;
use std::sync::atomic::{AtomicBool, Ordering};
use std::test::Fail;
use std::thread::Threads;
use std::time::{Clock, Duration};
use std::{io, thread};

// Sends back what comes.
#[derive(Drop)]
struct Echo {
    alloc: Global,
}

impl Talk for Echo {
    type Line = Vec<u8>;

    fn begin(&mut self) -> io::Result<Vec<u8>> {
        Ok(Vec::new(self.alloc))
    }

    fn hear(&mut self, line: &mut Vec<u8>, bytes: &[u8]) -> io::Result<()> {
        line.extend_from_slice(bytes)?;
        Ok(())
    }

    fn next(&mut self, line: &mut Vec<u8>, is_full: bool) -> io::Result<Next> {
        if line.is_empty() {
            return Ok(Next::Asks);
        }
        if is_full {
            return Ok(Next::Later);
        }
        let piece = line.as_slice().to_vec(self.alloc)?;
        line.clear();
        Ok(Next::Piece(piece))
    }
}

// A crowd of four.
const RULES: Rules = Rules {
    bounds: Bounds {
        asking: 60_000,
        answering: 60_000,
        whole: 60_000,
    },
    most: 4,
    full: 1 << 20,
};

// What comes back of these bytes.
fn echoed(stream: &mut TcpStream, bytes: &[u8], back: &mut [u8]) -> io::Result<()> {
    stream.set_read_timeout(Some(Duration::from_secs(20)))?;
    stream.write_all(bytes)?;
    stream.read_exact(back)
}

fn connected<R: Net<Stream = TcpStream>>(rt: &R, address: &SocketAddr) -> io::Result<TcpStream> {
    TcpStream::connect(rt, *address)
}

// So many connections of which nothing is heard.
fn silent<R: Net<Stream = TcpStream>>(
    rt: &R,
    alloc: Global,
    address: &SocketAddr,
    count: usize,
) -> io::Result<Vec<TcpStream>> {
    let mut all = Vec::new(alloc);
    for _ in 0..count {
        all.push(connected(rt, address)?)?;
    }
    Ok(all)
}

fn is_closed(stream: &mut TcpStream) -> io::Result<bool> {
    stream.set_read_timeout(Some(tick()))?;
    let mut byte = [0];
    Ok(matches!(stream.read(&mut byte), Ok(0)))
}

// How many of the connections were closed.
fn closed(streams: &mut Vec<TcpStream>) -> io::Result<u32> {
    let mut count: u32 = 0;
    for stream in streams {
        if is_closed(stream)? {
            count = count.saturating_add(1);
        }
    }
    Ok(count)
}

// Whether a new connection is answered.
fn is_answered<R: Net<Stream = TcpStream>>(rt: &R, address: &SocketAddr) -> io::Result<bool> {
    let mut stream = connected(rt, address)?;
    let mut back = [0; 5];
    echoed(&mut stream, b"hello", &mut back)?;
    Ok(back == *b"hello")
}

// A crowd of four that is full of silent ones: whether it answers a fifth, and how many are closed for that.
fn past_silent_ones<R: Net<Stream = TcpStream> + Clock>(
    rt: &R,
    alloc: Global,
    address: &SocketAddr,
) -> io::Result<(bool, u32)> {
    let mut all = silent(rt, alloc, address, 4)?;
    thread::sleep(rt, Duration::from_millis(2_500));
    let is_answered = is_answered(rt, address)?;
    Ok((is_answered, closed(&mut all)?))
}

fn beside<R: Threads + Wait + Clock + Net<Listener = TcpListener, Stream = TcpStream> + Sync>(
    rt: &R,
    alloc: Global,
) -> io::Result<(bool, u32)> {
    let listener = bind(rt, "127.0.0.1:0")?;
    let address = listener.local_addr()?;
    let ending = AtomicBool::new(false);
    let (_, outcome) = thread::join(
        rt,
        || talk_to_all(rt, alloc, &listener, &RULES, &ending, &mut Echo { alloc }),
        || {
            let outcome = past_silent_ones(rt, alloc, &address);
            ending.store(true, Ordering::SeqCst);
            outcome
        },
    );
    outcome
}

#[test]
fn a_silent_one_gives_way(rt: HostRuntime) -> Result<(), Fail> {
    let outcome = beside(&rt, rt.alloc())?;
    assert!(rt; outcome == (true, 1));
    Ok(())
}
