//! Where calls begin and end in what a caller sends.

ghost use Rattle.std.specs.Prelude.{◌≡◌, ◌++◌, ◌↔◌, [], IsFalse, OnOk, false};

use bytes::{Buf, BytesMut};
use http1::{Event, Limits, Server};
use httparse::spans::EMPTY_HEADER_SPAN;
use std::alloc::{AllocError, Global};

/// How many fields a head has at most, as in http_server.
const MOST_FIELDS: usize = 64;

/// What stands in the bytes that came and were not looked at.
#[derive(Clone, Copy, Debug, PartialEq, Eq)]
pub enum Found {
    /// A head, whose body may follow.
    Head,
    /// The end of a call, which has so many bytes in all.
    Call(usize),
    /// What is no call.
    NoCall,
    /// Not enough.
    Nothing,
}

/// Follows the bytes of a connection, to know whether the last of them stand in a call that is not whole: http_server reads them
/// by the same grammar, but does not tell.
#[derive(Drop)]
pub struct CallsRead {
    alloc: Global,
    server: Server,
    /// What was not read yet: a part of a head.
    rest: BytesMut,
    /// Whether a head was read whose body is not whole.
    has_head: bool,
    /// How many bytes were read of a call that is not whole.
    read: usize,
}

impl CallsRead {
    /// Of a connection over which nothing came.
    pub fn new(alloc: Global) -> CallsRead
        ensures rest { result.rest.items ≡ [] }
        ensures head { result.has_head ≡ false }
    {
        CallsRead {
            alloc,
            server: Server::new(Limits::default()),
            rest: BytesMut::new(alloc),
            has_head: false,
            read: 0,
        }
    }

    /// Whether a call has begun that is not whole. What is no call counts as one.
    pub fn is_amid(&self) -> bool
        ensures { IsFalse result ↔ ((self.now.has_head ≡ false) × (self.now.rest.items ≡ [])) }
    {
        self.has_head || !self.rest.is_empty()
    }

    /// These bytes came.
    pub fn put(&mut self, bytes: &[u8]) -> Result<(), AllocError>
        ensures ok { OnOk result (self.new.rest.items ≡ self.old.rest.items ++ bytes.now) }
        ensures head { self.new.has_head ≡ self.old.has_head }
    {
        self.rest.extend_from_slice(bytes)
    }

    /// Follows these bytes. Answers whether a call ended in them.
    pub fn follow(&mut self, bytes: &[u8]) -> Result<bool, AllocError> {
        let mut has_ended = false;
        self.put(bytes)?;
        for _ in 0..u64::MAX {
            match self.find() {
                Found::Head => {}
                Found::Call(_) => has_ended = true,
                Found::NoCall | Found::Nothing => break,
            }
        }
        Ok(has_ended)
    }

    /// Looks for the next head or the next end of a call in what came.
    pub fn find(&mut self) -> Found {
        for _ in 0..u64::MAX {
            let mut spans = [EMPTY_HEADER_SPAN; MOST_FIELDS];
            let Ok(read) = self.server.read(self.rest.as_slice(), &mut spans) else {
                return Found::NoCall;
            };
            self.rest.advance(read.consumed);
            self.read = self.read.saturating_add(read.consumed);
            match read.event {
                Event::Head(_) => {
                    self.has_head = true;
                    return Found::Head;
                }
                Event::End(_) => return self.end(),
                Event::Data(_) => {}
                _ => return Found::Nothing,
            }
        }
        Found::Nothing
    }

    // A call ended. The next one is read before this one is answered.
    fn end(&mut self) -> Found {
        let call = self.read;
        self.has_head = false;
        self.read = 0;
        self.server = Server::new(Limits::default());
        Found::Call(call)
    }
}
