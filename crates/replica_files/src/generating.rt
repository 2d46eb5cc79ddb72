//! Keys made on all processors. The leaves of a tree need nothing of each other, so threads compute them side by side.
//! Whoever only signs or verifies stands on `lms_tree` alone, which needs no threads.

ghost use Rattle.std.specs.Prelude.{◌≡◌, ◌*◌, ◌<◌, IfOk, length};
ghost use Rattle.lms_tree.specs.Tree.{AreFourLeaves, AreLeaves};
ghost use Rattle.lms_tree.specs.declared.TheConstants.{LEAF_FOURS};

use lmots::{KEYS_AT_ONCE, PrivateSeed};
use lms_tree::{LEAF_FOURS, SigningTree, four_leaves};
use rayon::prelude::*;
use std::alloc::{AllocError, Global};
use std::thread::Threads;

/// The tree of a seed (RFC 8554, section 5.3), as `SigningTree::generate` gives it: some nine million hashes, whose leaves
/// are computed in a thread for each processor, up to 32, and in the calling thread where none can be made. The
/// leaves take 32,768 bytes on the heap until it returns, and the tree 65,536. AllocError comes where these are
/// refused.
pub fn generate_parallel<R: Threads + Sync>(
    rt: &R,
    alloc: Global,
    secret: PrivateSeed,
) -> Result<SigningTree, AllocError>
    ensures { IfOk result (λ tree. tree ≡ secret) }
{
    let mut leaves = vec![in alloc; [[0; 32]; 4]; LEAF_FOURS]?;
    fill_leaves(rt, &secret, &mut leaves);
    SigningTree::from_leaves(alloc, secret, &leaves)
}

// Computes the leaves four by four, each four in their place.
fn fill_leaves<R: Threads + Sync>(rt: &R, secret: &PrivateSeed, leaves: &mut [[[u8; 32]; 4]])
    requires { length leaves.old ≡ LEAF_FOURS }
    ensures { AreLeaves secret.now.key_id secret.now.seed leaves.new }
{
    par_for_each_mut(
        rt,
        leaves,
        |p: usize, four: &mut [[u8; 32]; 4]|
            requires { p < LEAF_FOURS }
            ensures { AreFourLeaves secret.entry.now.key_id secret.entry.now.seed (4 * p) four.new }
        {
            *four = four_leaves(secret, KEYS_AT_ONCE * p as u32);
        },
    );
}
