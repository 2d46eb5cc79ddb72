//! A seed's tree, from which its owner signs.

ghost use Rattle.std.specs.Prelude.{◌≡◌, ◌+◌, ◌*◌, ◌<◌, ◌≤◌, ℕ, length, IfOk};
ghost use Rattle.base_wire.specs.Pieces.{number_at};
ghost use Rattle.lmots.specs.Chains.{ots_public_key};
ghost use Rattle.lms_tree.specs.Tree.{AreFourLeaves, AreLeaves, HasLeaves, IsFilled, lms_signature, path_node, tree_node, tree_root, Verifies};
ghost use Rattle.lms_tree.specs.declared.TheConstants.{LEAVES, LEAF_FOURS, NODES};

use crate::nodes::{inner_hash, leaf_hash, sibling};
use crate::public_key::PublicKey;
use crate::{
    HEIGHT, LEAF_FOURS, LEAVES, NODES, OTS_AT, PATH_AT, SIGNATURE_LEN, TREE_TYPE, TREE_TYPE_AT,
};
use base_wire::put;
use lmots::{KEYS_AT_ONCE, PrivateSeed, four_ots_public, ots_sign};
use std::alloc::{AllocError, Global};
use std::marker::Model;

/// A private seed with the hashes of all nodes of its tree. A contract sees the seed: the hashes are
/// always those of its tree.
#[derive(Drop)]
pub struct SigningTree {
    secret: PrivateSeed,
    // The hash of node `r` stands at the place `r`. The place 0 is not used.
    nodes: Vec<[u8; 32]>,
}

impl Model for SigningTree {
    ghost use Rattle.lmots.specs.declared.keys.PrivateSeed.{PrivateSeed};
    ghost use Rattle.lms_tree.specs.Tree.{IsTree};

    ghost Value = { PrivateSeed };

    ghost view = { λ tree. tree.secret };

    ghost invariant = { λ tree. IsTree tree.secret.key_id tree.secret.seed tree.nodes.items };
}

impl SigningTree {
    /// The tree of a seed, on the heap in 65,536 bytes. It computes all 1,024 one-time keys, some nine
    /// million hashes. AllocError comes where that memory is refused.
    pub fn generate(alloc: Global, secret: PrivateSeed) -> Result<SigningTree, AllocError>
        ensures { IfOk result (λ tree. tree ≡ secret) }
    {
        let mut nodes = vec![in alloc; [0; 32]; NODES]?;
        fill_leaves(&secret, &mut nodes);
        fill_inner(&secret, &mut nodes);
        Ok(SigningTree { secret, nodes })
    }

    /// The tree of a seed over its 1,024 leaves, four at each of 256 places, as `four_leaves` gives them; so they may be
    /// computed elsewhere, in any order. The tree takes 65,536 bytes on the heap. AllocError comes where that memory is
    /// refused.
    pub fn from_leaves(
        alloc: Global,
        secret: PrivateSeed,
        leaves: &[[[u8; 32]; 4]],
    ) -> Result<SigningTree, AllocError>
        requires { AreLeaves secret.key_id secret.seed leaves.now }
        ensures { IfOk result (λ tree. tree ≡ secret) }
    {
        let mut nodes = vec![in alloc; [0; 32]; NODES]?;
        copy_leaves(&secret, leaves, &mut nodes);
        fill_inner(&secret, &mut nodes);
        Ok(SigningTree { secret, nodes })
    }

    /// The public key of the tree.
    pub fn public_key(&self) -> PublicKey
        ensures key_id { result.key_id ≡ self.now.key_id }
        ensures root { result.root ≡ tree_root self.now.key_id self.now.seed }
    {
        PublicKey {
            key_id: self.secret.key_id,
            root: self.nodes[1],
        }
    }

    // The hash that a signature with leaf `q` shows at a level.
    #[tactic(auto, using(crate::proofs::SignedVerifies::sibling_in_tree), unfolding(crate::specs::Tree::path_node))]
    fn path_node(&self, q: u32, level: usize) -> [u8; 32]
        requires leaf { q < LEAVES }
        requires level { level < 10 }
        ensures { result ≡ path_node self.now.key_id self.now.seed q level }
    {
        self.nodes[sibling((LEAVES + q) as usize >> level)]
    }

    /// The signature of a message with leaf `q`, which must be below 1,024. It has `q` at 0, the
    /// one-time signature at 4, then the tree's type (4 bytes) and the path (RFC 8554, section 5.4.1). A leaf
    /// may sign one message only.
    #[tactic(auto, using(lmots::proofs::ChainLemmas::joined_none, lmots::proofs::ChainLemmas::joined_more))]
    pub fn sign_at(&self, q: u32, message: &[u8]) -> [u8; SIGNATURE_LEN]
        requires { q < LEAVES }
        ensures exact { result ≡ lms_signature self.now.key_id self.now.seed q message.now }
        ensures verifies { Verifies self.now.key_id
            (tree_root self.now.key_id self.now.seed) message.now result }
        ensures index { number_at 4 result 0 ≡ q }
    {
        let mut signature = [0; SIGNATURE_LEN];
        put(&mut signature, 0, &q.to_be_bytes());
        put(&mut signature, OTS_AT, &ots_sign(&self.secret, q, message));
        put(&mut signature, TREE_TYPE_AT, &TREE_TYPE.to_be_bytes());
        for level in 0..HEIGHT {
            put(
                &mut signature,
                PATH_AT + 32 * level,
                &self.path_node(q, level),
            );
        }
        signature
    }
}

/// The hashes of the leaves `q` to `q + 3` of a seed's tree, each over its one-time public key (RFC 8554, section 5.3).
/// The keys are computed together, which takes three quarters of the time that it takes one by one.
pub fn four_leaves(secret: &PrivateSeed, q: u32) -> [[u8; 32]; 4]
    requires { q + 4 ≤ LEAVES }
    ensures { AreFourLeaves secret.now.key_id secret.now.seed q result }
{
    let keys = four_ots_public(secret, q);
    [
        leaf(secret, q, &keys[0]),
        leaf(secret, q + 1, &keys[1]),
        leaf(secret, q + 2, &keys[2]),
        leaf(secret, q + 3, &keys[3]),
    ]
}

// The hash of leaf `q` over its one-time public key.
#[tactic(auto, using(crate::proofs::NodeLemmas::leaf_is_node))]
fn leaf(secret: &PrivateSeed, q: u32, key: &[u8; 32]) -> [u8; 32]
    requires within { q < LEAVES }
    requires key { key.now ≡ ots_public_key secret.now.key_id secret.now.seed q }
    ensures { result ≡ tree_node secret.now.key_id secret.now.seed (LEAVES + q) }
{
    leaf_hash(&secret.key_id, LEAVES + q, key)
}

fn fill_leaves(secret: &PrivateSeed, nodes: &mut [[u8; 32]])
    requires { length nodes.old ≡ NODES }
    ensures { IsFilled secret.now.key_id secret.now.seed LEAVES nodes.new }
{
    for four in 0..LEAF_FOURS as u32 {
        let q = KEYS_AT_ONCE * four;
        put_leaves(secret, q, &four_leaves(secret, q), nodes);
    }
}

// Fills in leaves that are computed already.
fn copy_leaves(secret: &PrivateSeed, leaves: &[[[u8; 32]; 4]], nodes: &mut [[u8; 32]])
    requires long { length nodes.old ≡ NODES }
    requires leaves { AreLeaves secret.now.key_id secret.now.seed leaves.now }
    ensures { IsFilled secret.now.key_id secret.now.seed LEAVES nodes.new }
{
    for four in 0..LEAF_FOURS {
        put_leaves(secret, KEYS_AT_ONCE * four as u32, &leaves[four], nodes);
    }
}

// Fills in the leaves `q` to `q + 3`, behind those below `q`.
fn put_leaves(secret: &PrivateSeed, q: u32, four: &[[u8; 32]; 4], nodes: &mut [[u8; 32]])
    requires within { q + 4 ≤ LEAVES }
    requires four { AreFourLeaves secret.now.key_id secret.now.seed q four.now }
    requires before { HasLeaves secret.now.key_id secret.now.seed q nodes.old }
    ensures { HasLeaves secret.now.key_id secret.now.seed (q + 4) nodes.new }
{
    for k in 0..KEYS_AT_ONCE {
        nodes[(LEAVES + q + k) as usize] = four[k as usize];
    }
}

// Fills in the nodes above the leaves, each after its children.
fn fill_inner(secret: &PrivateSeed, nodes: &mut [[u8; 32]])
    requires long { length nodes.old ≡ NODES }
    requires leaves { IsFilled secret.now.key_id secret.now.seed LEAVES nodes.old }
    ensures { IsFilled secret.now.key_id secret.now.seed 1 nodes.new }
{
    for r in (1..LEAVES).rev() {
        let left = 2 * r as usize;
        nodes[r as usize] = inner_hash(&secret.key_id, r, &nodes[left], &nodes[left + 1]);
    }
}
