//! A server that is asked for the log of one chain.

ghost use Rattle.std.specs.Prelude.{◌≡◌, false, true, IfOk, IsTrue, OnOk, Some};
ghost use Rattle.log_format.specs.Requests.{request_text};
ghost use Rattle.log_request.specs.ChainRequests.{IsChainRequest, chain_request_text, of_chain};

use crate::ChainRequest;
use crate::heard::Heard;
use blocks::Id;
use log_format::FrameRequest;
use log_transfer::Dial;
use std::io;
use std::io::Write;
use std::sync::atomic::{AtomicU8, Ordering};

/// A server that a dialer reaches, which is asked for the log of one chain, and what was heard of it last.
#[derive(Drop)]
pub struct ChainServer<D> {
    dialer: D,
    chain: Id,
    // Whether it is asked without the chain's name where it closes without a byte.
    falls_back: bool,
    heard: AtomicU8,
}

impl<D> ChainServer<D> {
    /// Of this dialer and this chain. Nothing was heard of it yet.
    pub fn new(dialer: D, chain: Id) -> ChainServer<D>
        ensures dialer { result.dialer ≡ dialer }
        ensures chain { result.chain ≡ chain }
        ensures falls_back { result.falls_back ≡ true }
    {
        ChainServer {
            dialer,
            chain,
            falls_back: true,
            heard: AtomicU8::new(Heard::Nothing.code()),
        }
    }

    /// The same, but it is asked by the chain's name alone: a server that closes without a byte, as earlier versions do, and one that
    /// goes over to another chain just then, gave nothing.
    pub fn named_only(dialer: D, chain: Id) -> ChainServer<D>
        ensures dialer { result.dialer ≡ dialer }
        ensures chain { result.chain ≡ chain }
        ensures falls_back { result.falls_back ≡ false }
    {
        ChainServer {
            dialer,
            chain,
            falls_back: false,
            heard: AtomicU8::new(Heard::Nothing.code()),
        }
    }

    /// Whether it is asked without the chain's name where it closes without a byte.
    pub(crate) fn falls_back(&self) -> bool
        ensures { result ≡ self.now.falls_back }
    {
        self.falls_back
    }

    /// What was heard of it last.
    pub fn heard(&self) -> Heard {
        Heard::of(self.heard.load(Ordering::SeqCst))
    }

    /// Notes what is heard of it.
    pub(crate) fn note(&self, heard: Heard) {
        self.heard.store(heard.code(), Ordering::SeqCst);
    }
}

impl<D: Dial> ChainServer<D> {
    /// Opens a stream, and asks for these payloads of the chain's log by the 44 bytes that name it.
    pub(crate) fn ask_named(&self, request: FrameRequest) -> io::Result<D::Stream>
        ensures sent { IfOk result (λ s. IsTrue D.tells → D.Stream.Write.contents s
            ≡ Some (chain_request_text (of_chain self.now.chain request))) }
        ensures is_request { OnOk result (IsChainRequest (of_chain self.now.chain request)) }
    {
        let named = ChainRequest {
            chain: self.chain,
            first: request.first,
            most: request.most,
        };
        let mut stream = self.dialer.dial()?;
        stream.write_all(&named.to_bytes())?;
        Ok(stream)
    }

    /// Opens a stream, and asks for them by the 12 bytes that name no chain.
    pub(crate) fn ask_unnamed(&self, request: FrameRequest) -> io::Result<D::Stream>
        ensures { IfOk result (λ s. IsTrue D.tells → D.Stream.Write.contents s
            ≡ Some (request_text request)) }
    {
        let mut stream = self.dialer.dial()?;
        stream.write_all(&request.to_bytes())?;
        Ok(stream)
    }
}
