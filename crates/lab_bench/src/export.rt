//! Logs as they are sent, as docs/FORMATS.md lays them out.

use blocks::{Ballot, HEADER_LEN, Header, NamedHeader};
use certificates::{BOUND_VOTE_LEN, SignedVote};
use std::alloc::{AllocError, Global};
use std::io;

/// The length in bytes of an entry with an own vote, but for its certificate.
const ENTRY_LEN: usize = 1 + 2 * HEADER_LEN + BOUND_VOTE_LEN;

/// The first byte of an entry with the replica's own vote.
const VOTED: u8 = 3;

/// The certificate of these votes on a block.
pub(crate) fn certificate(
    alloc: Global,
    block: &NamedHeader,
    votes: &[SignedVote],
) -> Result<Vec<u8>, AllocError> {
    let Ballot { view, id } = Ballot::on(block);
    let mut text = view.to_be_bytes().to_vec(alloc)?;
    text.extend_from_slice(&id)?;
    let count = u16::try_from(votes.len()).unwrap_or(u16::MAX);
    text.extend_from_slice(&count.to_be_bytes())?;
    for vote in votes {
        text.extend_from_slice(&vote.replica.to_be_bytes())?;
        text.push(vote.key)?;
        text.extend_from_slice(&vote.signature)?;
    }
    Ok(text)
}

/// An export of a log, but for its end.
#[derive(Drop)]
pub(crate) struct Export {
    text: Vec<u8>,
    frames: u32,
}

impl Export {
    pub fn new(alloc: Global) -> io::Result<Export> {
        Ok(Export {
            text: b"HSL1".to_vec(alloc)?,
            frames: 0,
        })
    }

    /// Adds the entry of a block with its parent, the own vote for it and a certificate on the parent.
    pub fn put_entry(
        &mut self,
        block: &Header,
        parent: &Header,
        vote: &SignedVote,
        certificate: &[u8],
    ) -> io::Result<()> {
        let Ok(length) = u32::try_from(certificate.len().saturating_add(ENTRY_LEN)) else {
            return Err(io::Error::from(io::ErrorKind::InvalidInput));
        };
        let (block, parent) = (block.to_bytes(), parent.to_bytes());
        let (length, view) = (length.to_be_bytes(), vote.view.to_be_bytes());
        let (voted, key) = ([VOTED], [vote.key]);
        let pieces: [&[u8]; 9] = [
            &length,
            &voted,
            &block,
            &parent,
            &key,
            &view,
            &vote.id,
            &vote.signature,
            certificate,
        ];
        for piece in pieces {
            self.text.extend_from_slice(piece)?;
        }
        self.frames = self.frames.saturating_add(1);
        Ok(())
    }

    /// The whole export.
    pub fn end(self) -> io::Result<Vec<u8>> {
        let Export { text, frames } = self;
        let mut text = text;
        text.extend_from_slice(&[0; 4])?;
        text.extend_from_slice(&frames.to_be_bytes())?;
        Ok(text)
    }
}
