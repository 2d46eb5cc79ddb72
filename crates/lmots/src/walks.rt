//! The chains of a one-time key, walked together: eight at a time, and what is left of them alone.

ghost use Rattle.std.specs.Prelude.{◌≡◌, ◌<◌, ℕ, [], slice_index, slice_index_or};
ghost use Rattle.lmots.specs.Chains.{prefix};
ghost use Rattle.lmots.specs.Walks.{AreChains, AreFirst, CanGo, HaveGoneOn, steps_left, walked};

use crate::chains::{chain_steps, prefix};
use crate::keys::CHAINS;
use base_sha256::walk_eight;

/// The chains of the one-time key `q` under way: chain `i` is at the value `values[i]` and has the steps `at[i]` to
/// `until[i] - 1` before it.
#[derive(Clone, Copy)]
pub(crate) struct Walks {
    pub(crate) key_id: [u8; 16],
    pub(crate) q: u32,
    pub(crate) at: [u8; 34],
    pub(crate) until: [u8; 34],
    pub(crate) values: [[u8; 32]; 34],
}

impl Walks {
    /// Where the chains lead. Each turn the eight with the most steps left go together until the first of them ends.
    pub(crate) fn ends(self) -> [[u8; 32]; 34]
        ensures { AreFirst 34 (walked self) result }
    {
        let mut walks = self;
        for _ in 0..CHAINS {
            let chains = walks.eight_longest();
            let count = walks.least_left(&chains);
            if count == 0 {
                break;
            }
            walks.walk(&chains, count);
        }
        walks.finish()
    }

    // Walks eight chains by `count` steps. Where a chain is named twice, it goes once.
    fn walk(&mut self, chains: &[u16; 8], count: u8)
        requires chains { AreChains chains.now }
        requires some { 0 < count }
        requires left { (l : ℕ) → l < 8 → CanGo self.old count (slice_index chains.now l) }
        ensures { HaveGoneOn self.old self.new }
    {
        let prefixes = prefixes_of(&self.key_id, self.q, chains);
        let from = numbers_of(&self.at, chains);
        let starts = values_of(&self.values, chains);
        let ends = walk_eight(&prefixes, &from, count, &starts);
        for l in 0..8 {
            let i = chains[l] as usize;
            self.at[i] = from[l] + count;
            self.values[i] = ends[l];
        }
    }

    // Where the chains lead, walked one after another.
    fn finish(&self) -> [[u8; 32]; 34]
        ensures { AreFirst 34 (walked self.now) result }
    {
        let mut ends = [[0; 32]; 34];
        for i in 0..CHAINS {
            ends[i as usize] = self.end(i);
        }
        ends
    }

    // Where one chain leads, walked alone.
    #[tactic(auto, unfolding(crate::specs::Walks::walked))]
    fn end(&self, i: u16) -> [u8; 32]
        requires { i < 34 }
        ensures { result ≡ walked self.now i }
    {
        let k = i as usize;
        chain_steps(
            &prefix(&self.key_id, self.q, i),
            self.at[k],
            self.until[k],
            &self.values[k],
        )
    }

    // How many steps a chain has left.
    fn left(&self, i: u16) -> u8
        requires { i < 34 }
        ensures value { result ≡ steps_left self.now i }
        ensures can { CanGo self.now result i }
    {
        self.until[i as usize].saturating_sub(self.at[i as usize])
    }

    // The fewest steps that one of eight chains has left.
    fn least_left(&self, chains: &[u16; 8]) -> u8
        requires { AreChains chains.now }
        ensures { (l : ℕ) → l < 8 → CanGo self.now result (slice_index chains.now l) }
    {
        let mut least = u8::MAX;
        for chain in chains {
            least = least.min(self.left(*chain));
        }
        least
    }

    // The eight chains with the most steps left. They are named once each, but nothing depends on it.
    fn eight_longest(&self) -> [u16; 8]
        ensures { AreChains result }
    {
        // A key is the number of steps left, times 34, and the number of the chain.
        let mut keys = [0; 34];
        for i in 0..CHAINS {
            keys[i as usize] = u16::from(self.left(i)) * CHAINS + i;
        }
        keys.sort_unstable();
        let [.., a, b, c, d, e, f, g, h] = keys;
        [
            a % CHAINS,
            b % CHAINS,
            c % CHAINS,
            d % CHAINS,
            e % CHAINS,
            f % CHAINS,
            g % CHAINS,
            h % CHAINS,
        ]
    }
}

// ---- what eight chains have

fn prefixes_of(key_id: &[u8; 16], q: u32, chains: &[u16; 8]) -> [[u8; 22]; 8]
    ensures { (l : ℕ) → l < 8
        → slice_index_or result l [] ≡ prefix key_id.now q (slice_index chains.now l) }
{
    let [a, b, c, d, e, f, g, h] = *chains;
    [
        prefix(key_id, q, a),
        prefix(key_id, q, b),
        prefix(key_id, q, c),
        prefix(key_id, q, d),
        prefix(key_id, q, e),
        prefix(key_id, q, f),
        prefix(key_id, q, g),
        prefix(key_id, q, h),
    ]
}

fn numbers_of(numbers: &[u8; 34], chains: &[u16; 8]) -> [u8; 8]
    requires { AreChains chains.now }
    ensures { (l : ℕ) → l < 8
        → slice_index result l ≡ slice_index numbers.now (slice_index chains.now l) }
{
    let [a, b, c, d, e, f, g, h] = *chains;
    [
        numbers[a as usize],
        numbers[b as usize],
        numbers[c as usize],
        numbers[d as usize],
        numbers[e as usize],
        numbers[f as usize],
        numbers[g as usize],
        numbers[h as usize],
    ]
}

fn values_of(values: &[[u8; 32]; 34], chains: &[u16; 8]) -> [[u8; 32]; 8]
    requires { AreChains chains.now }
    ensures { (l : ℕ) → l < 8
        → slice_index_or result l [] ≡ slice_index_or values.now (slice_index chains.now l) [] }
{
    let [a, b, c, d, e, f, g, h] = *chains;
    [
        values[a as usize],
        values[b as usize],
        values[c as usize],
        values[d as usize],
        values[e as usize],
        values[f as usize],
        values[g as usize],
        values[h as usize],
    ]
}
