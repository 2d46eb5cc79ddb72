//! Blocks that a replica may be shown.

ghost use Rattle.std.specs.Prelude.{◌≡◌, IfOk};

use crate::failure::Failure;
use crate::keys::Signers;
use blocks::{CommitteeView, Header, Id, NamedHeader};
use certificates::{Certificate, CheckedBlock, LmsVerifier, check_block};
use std::alloc::{AllocError, Global};
use std::io;

/// A block.
#[derive(Drop)]
pub(crate) struct Block {
    pub header: Header,
    pub id: Id,
    /// The number of the block whose id it names as its parent's; its own, if it is genesis.
    parent: usize,
    // the bytes of the certificate of the parent that it names
    certificate: Vec<u8>,
}

/// Blocks by their numbers. Genesis has number 0, and each other block a greater one than its parent.
#[derive(Drop)]
pub(crate) struct BlockTree {
    genesis: Block,
    others: Vec<Block>,
}

impl BlockTree {
    /// Genesis alone.
    pub fn of(alloc: Global, committee: &CommitteeView) -> BlockTree {
        BlockTree {
            genesis: Block {
                header: committee.genesis(),
                id: committee.chain(),
                parent: 0,
                certificate: Vec::new(alloc),
            },
            others: Vec::new(alloc),
        }
    }

    /// How many blocks there are, genesis among them.
    pub fn count(&self) -> usize {
        self.others.len().saturating_add(1)
    }

    /// The block of this number; genesis where there is none.
    pub fn block(&self, number: usize) -> &Block {
        match number.checked_sub(1) {
            Some(place) => self.others.get(place).unwrap_or(&self.genesis),
            None => &self.genesis,
        }
    }

    pub fn view(&self, number: usize) -> u64 {
        self.block(number).header.view
    }

    /// The block whose id this one names as its parent's, unless it is genesis.
    pub fn parent(&self, number: usize) -> Option<usize> {
        if number == 0 {
            return None;
        }
        Some(self.block(number).parent)
    }

    /// Whether a block names its parent's view as well.
    pub fn names_parent_view(&self, number: usize) -> bool {
        let block = self.block(number);
        block.header.parent_view == self.view(block.parent)
    }

    /// The number of the block of this id.
    pub fn number_of(&self, id: &Id) -> Option<usize> {
        for number in 0..self.count() {
            if self.block(number).id == *id {
                return Some(number);
            }
        }
        None
    }

    /// Adds a block that names this one as its parent, by its id and the given view, and answers its number. No two blocks
    /// are alike.
    pub fn add(
        &mut self,
        alloc: Global,
        signers: &Signers,
        parent: usize,
        parent_view: u64,
        view: u64,
    ) -> io::Result<usize> {
        if parent_view >= view {
            return Err(io::Error::from(io::ErrorKind::InvalidInput));
        }
        let number = self.count();
        let id = self.block(parent).id;
        let header = Header {
            view,
            parent_view,
            parent: id,
            payload: payload_of(number),
        };
        let chain = self.genesis.id;
        self.others.push(Block {
            header,
            id: *NamedHeader::of(header).id(),
            parent,
            certificate: signers.certificate(alloc, chain, parent_view, id)?,
        })?;
        Ok(number)
    }

    /// The block, with its certificate checked.
    pub fn checked<'a>(
        &self,
        alloc: Global,
        committee: &CommitteeView<'a>,
        number: usize,
    ) -> Result<CheckedBlock<'a>, Failure>
        ensures { IfOk result (λ b. b.committee ≡ committee.now) }
    {
        let block = self.block(number);
        let Ok(certificate) = Certificate::read(alloc, &block.certificate) else {
            return Err(Failure::Refused("a certificate is read"));
        };
        match check_block(committee, &LmsVerifier, block.header, certificate) {
            Ok(checked) => Ok(checked),
            Err(_) => Err(Failure::Refused("a certificate is good")),
        }
    }
}

// What a block carries.
fn payload_of(number: usize) -> [u8; 32] {
    let mut payload = [0; 32];
    for (to, from) in payload.iter_mut().zip((number as u64).to_be_bytes()) {
        *to = from;
    }
    payload
}
