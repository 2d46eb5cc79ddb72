//! A body that spells blocks behind each other.

ghost use Rattle.std.specs.Prelude.{◌≡◌, IfOk, MatchOption};
ghost use Rattle.signer_calls.specs.BlockLists.{SpellsBlocks, SpellsNoBlocks};

use crate::call::Renewing;
use crate::pair::pair_in;
use bytes::Bytes;
use std::alloc::{AllocError, Global};
use std::marker::Model;

/// How many blocks one body may spell.
pub const MOST_BLOCKS_AT_ONCE: usize = 64;

/// The bytes of blocks, in their order. Nothing is read of any of them here.
#[derive(Drop)]
pub struct BlockList {
    all: Vec<Bytes>,
}

impl Model for BlockList {
    ghost use Rattle.std.specs.Prelude.{ℕ, List};

    ghost Value = { List (List ℕ) };

    ghost view = { λ b. b.all.items };
}

impl BlockList {
    /// The bytes of each.
    pub fn as_slice(&self) -> &[Bytes]
        ensures { result.now ≡ self.now }
    {
        self.all.as_slice()
    }
}

// The blocks that a body spells. Each stands behind its length, as a renewal stands before a file.
pub(crate) fn blocks_in(alloc: Global, body: &Bytes) -> Result<Option<BlockList>, AllocError>
    ensures { IfOk result (λ blocks. MatchOption blocks (SpellsNoBlocks body.now)
        (SpellsBlocks body.now)) }
{
    let mut all = Vec::new(alloc);
    let mut left = body.slice(..)?;
    while left.len() > 0 {
        if all.len() >= MOST_BLOCKS_AT_ONCE {
            return Ok(None);
        }
        let read = pair_in(&left)?;
        match read {
            Some(pair) => {
                let Renewing { renewal, file } = pair;
                all.push(renewal)?;
                left = file;
            }
            None => return Ok(None),
        }
    }
    if all.is_empty() {
        return Ok(None);
    }
    Ok(Some(BlockList { all }))
}
