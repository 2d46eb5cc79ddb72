//! Keys that are computed beside other work.

ghost use Rattle.std.specs.Prelude.{◌≡◌, IfOk, IfSome, IsTrue, length, map};
ghost use Rattle.lms_tree.specs.Tree.{AreLeaves};
ghost use Rattle.lms_tree.specs.declared.TheConstants.{LEAF_FOURS};
ghost use Rattle.replica_files.specs.KeySets.{public_key};

use lmots::{KEYS_AT_ONCE, PrivateSeed};
use lms_tree::{LEAF_FOURS, PUBLIC_KEY_LEN, SigningTree, four_leaves};
use std::alloc::{AllocError, Global};
use std::sync::atomic::{AtomicBool, Ordering};
use std::thread;
use std::time::{Clock, Duration};

/// How a key is computed beside other work.
#[derive(Clone, Copy)]
pub struct Growth<'a, C> {
    /// Time.
    pub clock: &'a C,
    /// How long nothing is computed behind each four of the 1,024 one-time keys.
    pub pause: Duration,
    /// Whether to end early.
    pub ending: &'a AtomicBool,
}

/// The tree of a seed (RFC 8554, section 5.3), as `SigningTree::generate` gives it, computed by this thread alone, with a pause behind
/// each four of its one-time keys; none where it was to end before. The leaves take 32,768 bytes on the heap until it returns, and
/// the tree 65,536. AllocError comes where these are refused.
pub fn grow_gently<C: Clock>(
    growth: &Growth<'_, C>,
    alloc: Global,
    secret: PrivateSeed,
) -> Result<Option<SigningTree>, AllocError>
    ensures { IfOk result (λ grown. IfSome grown (λ tree. tree ≡ secret)) }
{
    let mut leaves = vec![in alloc; [[0; 32]; 4]; LEAF_FOURS]?;
    if !fill_leaves(growth, &secret, &mut leaves) {
        return Ok(None);
    }
    let tree = SigningTree::from_leaves(alloc, secret, &leaves)?;
    Ok(Some(tree))
}

// Computes the leaves four by four. Answers whether all are there.
fn fill_leaves<C: Clock>(
    growth: &Growth<'_, C>,
    secret: &PrivateSeed,
    leaves: &mut [[[u8; 32]; 4]],
) -> bool
    requires { length leaves.old ≡ LEAF_FOURS }
    ensures { IsTrue result → AreLeaves secret.now.key_id secret.now.seed leaves.new }
{
    for p in 0..LEAF_FOURS {
        if growth.ending.load(Ordering::SeqCst) {
            return false;
        }
        leaves[p] = four_leaves(secret, KEYS_AT_ONCE * p as u32);
        thread::sleep(growth.clock, growth.pause);
    }
    true
}

/// The trees of these seeds, one after the other, as `grow_gently` computes them.
pub fn grow_all<C: Clock>(
    growth: &Growth<'_, C>,
    alloc: Global,
    secrets: &[PrivateSeed],
) -> Result<Option<Vec<SigningTree>>, AllocError>
    ensures { IfOk result (λ grown. IfSome grown (λ trees. trees.items ≡ secrets.now)) }
{
    let mut trees = Vec::with_capacity(alloc, secrets.len())?;
    for secret in secrets {
        let Some(tree) = grow_gently(growth, alloc, *secret)? else {
            return Ok(None);
        };
        trees.push(tree)?;
    }
    Ok(Some(trees))
}

// The public keys of these trees, 56 bytes each.
pub(crate) fn keys_of(
    alloc: Global,
    trees: &[SigningTree],
) -> Result<Vec<[u8; PUBLIC_KEY_LEN]>, AllocError>
    ensures { IfOk result (λ keys. keys.items ≡ map public_key trees.now) }
{
    let mut keys = Vec::with_capacity(alloc, trees.len())?;
    for tree in trees {
        keys.push(tree.public_key().to_bytes())?;
    }
    Ok(keys)
}
