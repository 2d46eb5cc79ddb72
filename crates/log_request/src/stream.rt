//! A stream to a server that is asked for the log of one chain.

ghost use Rattle.std.specs.Prelude.{◌≡◌, ◌≢◌, ◌<◌, ◌≤◌, false, IfOk, None, length};
ghost use Rattle.std.specs.Io.KnownBytes.{IsAtEnd};
ghost use Rattle.log_request.specs.Naming.{AsksAgain, HandsOn, left_at, left_in, stage_behind, written_to};

use crate::closing::gave_nothing;
use crate::first_bytes::FirstBytes;
use crate::heard::{Heard, heard_in};
use crate::server::ChainServer;
use log_format::FrameRequest;
use log_transfer::Dial;
use std::io;
use std::io::{ErrorKind, Read, Write};

// How far a server is that was asked.
#[derive(Clone, Copy, Debug, PartialEq, Eq)]
enum Stage {
    // It was asked by the chain's name, and gave nothing yet.
    Waiting,
    // .. and gave something.
    Named,
    // It was asked again, without it.
    Unnamed,
}

// A connection to a server that was asked.
#[derive(Drop)]
struct Connection<S> {
    stream: S,
    request: FrameRequest,
    stage: Stage,
    first: FirstBytes,
}

/// A stream to a server that is asked for the log of one chain. What is written to it is one request of 12 bytes, in one piece: then it
/// connects, and sends the 44 bytes that ask for the same and name the chain. Where the server closes that connection or breaks it
/// off without a byte, as earlier versions do, it connects once more, sends the 12 bytes, and reads on from there. What is heard is
/// noted at the server.
#[derive(Drop)]
pub struct ChainStream<'s, D: Dial> {
    server: &'s ChainServer<D>,
    // None before the request.
    connection: Option<Connection<D::Stream>>,
}

impl<'s, D: Dial> ChainStream<'s, D> {
    /// To this server, which is not connected yet.
    pub(crate) fn to(server: &'s ChainServer<D>) -> ChainStream<'s, D>
        ensures { result.connection ≡ None }
    {
        ChainStream {
            server,
            connection: None,
        }
    }
}

impl<S: Read + Write + Drop> Connection<S> {
    // The server was asked by the chain's name.
    fn named(stream: S, request: FrameRequest) -> Connection<S>
        ensures stream { result.stream ≡ stream }
        ensures stage { result.stage ≡ Stage.Waiting }
    {
        Connection {
            stream,
            request,
            stage: Stage::Waiting,
            first: FirstBytes::new(),
        }
    }

    // Notes what is heard by these bytes, the next that it gave.
    fn note<D>(&mut self, server: &ChainServer<D>, piece: &[u8])
        ensures stream { self.new.stream ≡ self.old.stream }
        ensures stage { self.new.stage ≡ stage_behind self.old.stage (length piece.now) }
    {
        if self.stage == Stage::Unnamed || piece.is_empty() {
            return;
        }
        self.stage = Stage::Named;
        self.first.take(piece);
        server.note(heard_in(self.first.say_no_log()));
    }

    // Asks once more, without the chain's name, and reads.
    fn read_again<D: Dial<Stream = S>>(
        &mut self,
        server: &ChainServer<D>,
        buffer: &mut [u8],
    ) -> io::Result<usize>
        ensures within { IfOk result (λ n. n ≤ length buffer.new) }
        ensures at_end { IfOk result (λ n. n ≡ 0 → 0 < length buffer.new
            → IsAtEnd (S.Read.remaining self.new.stream)) }
        ensures stage { self.new.stage ≡ Stage.Unnamed }
    {
        self.stage = Stage::Unnamed;
        self.stream = server.ask_unnamed(self.request)?;
        server.note(Heard::Unnamed);
        self.stream.read(buffer)
    }

    // Reads, and asks once more if the server closed without a byte.
    fn read<D: Dial<Stream = S>>(
        &mut self,
        server: &ChainServer<D>,
        buffer: &mut [u8],
    ) -> io::Result<usize>
        ensures within { IfOk result (λ n. n ≤ length buffer.new) }

        // What the stream gives is handed on, unless the server is asked once more.
        ensures bytes { HandsOn S.Read.remaining self.old self.new result buffer.new }

        // It is asked once more only where it gave no byte to the request that names the chain, and closed or broke off.
        ensures again { AsksAgain S.Read.remaining self.old self.new (length buffer.old) }

        ensures at_end { IfOk result (λ n. n ≡ 0 → 0 < length buffer.new
            → IsAtEnd (left_at self.new.stage (S.Read.remaining self.new.stream))) }

        ensures stage { self.old.stage ≢ Stage.Waiting → self.new.stage ≡ self.old.stage }

        // A server that is asked by the chain's name alone is never asked again.
        ensures named_only { server.now.falls_back ≡ false → self.new.stage ≡ Stage.Unnamed
            → self.old.stage ≡ Stage.Unnamed }
    {
        let outcome = self.stream.read(buffer);
        let is_silent = self.stage == Stage::Waiting && gave_nothing(&outcome, buffer.len());
        if is_silent && server.falls_back() {
            return self.read_again(server, buffer);
        }
        if let Ok(n) = &outcome {
            self.note(server, &buffer[..*n]);
        }
        outcome
    }
}

impl<'s, D: Dial> Read for ChainStream<'s, D> {
    ghost remaining = { λ c. left_in D.Stream.Read.remaining c.connection };

    fn read(&mut self, buffer: &mut [u8]) -> io::Result<usize> {
        match &mut self.connection {
            Some(connection) => connection.read(self.server, buffer),
            None => Err(io::Error::from(ErrorKind::NotConnected)),
        }
    }
}

impl<'s, D: Dial> Write for ChainStream<'s, D> {
    ghost contents = { λ c. written_to D.tells D.Stream.Write.contents c.server.now.chain c.connection };

    fn write(&mut self, bytes: &[u8]) -> io::Result<usize> {
        if self.connection.is_some() {
            return Err(io::Error::from(ErrorKind::InvalidInput));
        }
        let Some(request) = FrameRequest::from_bytes(bytes) else {
            return Err(io::Error::from(ErrorKind::InvalidInput));
        };
        let stream = self.server.ask_named(request)?;
        self.connection = Some(Connection::named(stream, request));
        Ok(bytes.len())
    }

    fn flush(&mut self) -> io::Result<()> {
        Ok(())
    }
}
