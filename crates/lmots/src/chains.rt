//! The hash chains of one-time keys.

ghost use Rattle.std.specs.Prelude.{◌≡◌, take, drop};
ghost use Rattle.lmots.specs.Chains.{prefix, chain_step, chain_steps};

use base_wire::{array_at, put};
use sha2::{Digest, Sha256};
use std::marker::Model;

/// The 22 bytes with which all that is hashed begins: the key id at 0, `q` at 16 and `number` at 20.
/// `q` is the number of a one-time key or of a node of a tree, `number` that of a chain or of a use
/// (RFC 8554, sections 4.2 to 4.5 and 5.3).
#[tactic(auto, using(base_wire::proofs::Numbers::filled), unfolding(crate::specs::Chains::prefix))]
pub fn prefix(key_id: &[u8; 16], q: u32, number: u16) -> [u8; 22]
    ensures { result ≡ prefix key_id.now q number }
{
    let mut prefix = [0; 22];
    put(&mut prefix, 0, key_id);
    put(&mut prefix, 16, &q.to_be_bytes());
    put(&mut prefix, 20, &number.to_be_bytes());
    prefix
}

/// A chain at one of its values, in the 55 bytes that a step hashes: the chain's prefix at 0, the
/// number of the step at 22 and the value at 23. A contract sees the prefix and the value.
#[derive(Drop)]
pub(crate) struct Chain {
    block: [u8; 55],
}

impl Model for Chain {
    ghost use Rattle.std.specs.Prelude.{ℕ, List, take, drop};

    ghost Value = { List ℕ × List ℕ };

    ghost view = { λ chain. (take 22 chain.block, drop 23 chain.block) };
}

impl Chain {
    pub(crate) fn new(prefix: &[u8; 22], value: &[u8; 32]) -> Chain
        ensures { result ≡ (prefix.now, value.now) }
    {
        let mut block = [0; 55];
        put(&mut block, 0, prefix);
        put(&mut block, 23, value);
        Chain { block }
    }

    /// Replaces the value by step `j` from it. One block is hashed at once.
    #[tactic(auto, unfolding(base_sha256::specs::Chains::chain_step))]
    pub(crate) fn step(&mut self, j: u8)
        ensures { self.new ≡ (self.old.0, chain_step self.old.0 j self.old.1) }
    {
        self.block[22] = j;
        let mut hasher = Sha256::new();
        hasher.update(self.block.as_slice());
        let value = hasher.finalize();
        put(&mut self.block, 23, &value);
    }

    pub(crate) fn value(&self) -> [u8; 32]
        ensures { result ≡ self.now.1 }
    {
        array_at(&self.block, 23)
    }
}

/// The value of a chain after the steps `from` to `until - 1` from `start`: none where `until` is not above `from`.
pub(crate) fn chain_steps(prefix: &[u8; 22], from: u8, until: u8, start: &[u8; 32]) -> [u8; 32]
    ensures { result ≡ chain_steps prefix.now from until start.now }
{
    let mut chain = Chain::new(prefix, start);
    for j in from..until {
        chain.step(j);
    }
    chain.value()
}
