//! Files and a server on the loopback as sources, and a source that is read one frame at a time.

ghost use Rattle.log_transfer.specs.Places.{MayTry};

use crate::serve_tests::log_of_nine;
use crate::sources::{cut_in_the_fifth, gives, has, source_of};
use crate::watched_tests::{SOURCE, Steps};
use base_streams::{StdFeed, StdSink};
use log_format::{REQUEST_LEN, Status};
use log_server::serve;
use log_transfer::{Connector, FileConnector, Pull, SourceConnector, Step, TcpConnector, Watched};
use stable_log::MemoryDisk;
use std::alloc::Global;
use std::fs::{File, Files};
use std::io::{Read, Write};
use std::net::{Net, TcpListener, TcpStream};
use std::process::Abort;
use std::test::Fail;
use std::thread::{Threads, join};
use std::time::{Clock, Duration};
use std::{fs, io};
use test_fixtures::exports::nine_entries;
use vote_log::VoteLog;

#[test]
fn a_file_is_read(rt: HostRuntime) -> Result<(), Fail> {
    fs::write(&rt, "export.hsl", nine_entries())?;
    fs::write(&rt, "cut.hsl", cut_in_the_fifth())?;
    for (path, count, status) in [
        ("export.hsl", 9, Status::Whole),
        ("cut.hsl", 4, Status::Cut),
        ("missing.hsl", 0, Status::Failed),
        (".", 0, Status::Failed),
    ] {
        let mut source: SourceConnector<HostRuntime, HostRuntime> = SourceConnector::File(
            FileConnector::new(&rt, path),
        );
        assert!(rt; gives(rt.alloc(), &mut source, 1, count, status), "{path}");
        assert!(rt;
            (source.failures() == 0) == (status != Status::Failed),
            "{path}"
        );
    }
    Ok(())
}

// Of a file no later part can be asked for.
#[test]
fn a_file_has_one_try(rt: HostRuntime) -> Result<(), Fail> {
    fs::write(&rt, "export.hsl", nine_entries())?;
    let mut source = FileConnector::new(&rt, "export.hsl");
    assert!(rt; source.most_tries() == 1);
    assert!(rt; source.connect(4, 4093).is_err() && source.read(&mut [0; 4]).is_err());
    assert!(rt; source.failures() == 2);
    assert!(rt; source.connect(0, 4097) == Ok(()) && source.read(&mut [0; 4]) == Ok(4));
    Ok(())
}

// What a pull gives of a stream of one frame: the frame, and then the same end twice.
#[test]
fn an_end_is_given_again(rt: HostRuntime) {
    let source = source_of(&rt, &[(b"HSL1\0\0\0\x01\x05\0\0\0\0\0\0\0\x01", false)]);
    let mut pull = Pull::new(source, 3);
    let mut frame = Vec::new(rt.alloc());
    assert!(rt; pull.next(&mut frame) == Ok(Step::Frame) && frame.as_slice() == b"\x05".as_slice());
    for _ in 0..2 {
        assert!(rt; pull.next(&mut frame) == Ok(Step::End(Status::Whole)) && frame.is_empty());
    }
}

// The next connection to a listener that does not block; a fault where none comes in ten seconds.
fn accept<R: Clock>(rt: &R, listener: &TcpListener) -> io::Result<TcpStream> {
    for _ in 0..2_000u32 {
        match listener.accept() {
            Err(error) if error.kind() == io::ErrorKind::WouldBlock => {
                std::thread::sleep(rt, Duration::from_millis(5));
            }
            Err(error) => return Err(error),
            Ok((stream, _)) => return Ok(stream),
        }
    }
    Err(io::Error::from(io::ErrorKind::TimedOut))
}

// Cuts the first answer inside the fifth frame, and serves the second from the log. Answers the first request.
fn serve_two<R: Clock>(
    rt: &R,
    listener: &TcpListener,
    log: &mut VoteLog<MemoryDisk>,
) -> io::Result<[u8; REQUEST_LEN]> {
    let mut request = [0; REQUEST_LEN];
    let mut first = accept(rt, listener)?;
    first.read_exact(&mut request)?;
    first.write_all(cut_in_the_fifth())?;
    drop(first);
    let second = accept(rt, listener)?;
    match serve(log, &mut StdFeed::new(&second), &mut StdSink::new(&second)) {
        Ok(5) => Ok(request),
        _ => Err(io::Error::from(io::ErrorKind::InvalidData)),
    }
}

// Whether a source that is read in a thread of its own gives all nine frames, while the listener serves two connections.
fn comes_whole<
    R: Net<Listener = TcpListener, Stream = TcpStream> + Clock + Threads + Sync,
    C: Connector + Send,
>(
    rt: &R,
    alloc: Global,
    listener: &TcpListener,
    log: &mut VoteLog<MemoryDisk>,
    source: C,
) -> io::Result<bool>
    requires { MayTry (C.allowed source) 3 }
{
    let mut source = source;
    let (request, fetched) = join(
        rt,
        || serve_two(rt, listener, log),
        move || gives(alloc, &mut source, 3, 9, Status::Whole) && source.failures() == 0,
    );
    Ok(fetched && request? == *b"HSL1\0\0\0\0\0\0\x10\x01")
}

// The same of a server on the loopback that is watched. Sockets and files have handles of their own.
fn over_loopback<
    R: Net<Listener = TcpListener, Stream = TcpStream> + Clock + Threads + Sync,
    F: Files<File = File> + Sync,
>(
    rt: &R,
    _files: &F,
    alloc: Global,
    log: &mut VoteLog<MemoryDisk>,
    steps: &Steps,
) -> io::Result<bool>
where
    F::Dir: Send,
{
    let listener = TcpListener::bind(rt, "127.0.0.1:0")?;
    listener.set_nonblocking(true)?;
    let address = format!(in alloc; "{}", listener.local_addr()?)?;
    let source: SourceConnector<R, F> = SourceConnector::Tcp(TcpConnector::new(
        rt,
        address.as_str(),
        0,
    ));
    comes_whole(
        rt,
        alloc,
        &listener,
        log,
        Watched::new(source, steps, SOURCE),
    )
}

#[test]
fn a_server_is_asked_twice(rt: HostRuntime) -> Result<(), Fail> {
    let mut log = log_of_nine(&rt);
    let steps = Steps::new();
    assert!(rt; over_loopback(&rt, &rt, rt.alloc(), &mut log, &steps)?);
    assert!(rt; steps.are(9));
    Ok(())
}

// Port 1 refuses, and the text is no address.
#[test]
fn no_server(rt: HostRuntime) {
    for address in ["127.0.0.1:1", "nowhere"] {
        let mut source = TcpConnector::new(&rt, address, 0);
        assert!(rt;
            has(rt.alloc(), &mut source, 2, 0, Status::Failed),
            "{address}"
        );
        assert!(rt; source.failures() == 2, "{address}");
    }
}
