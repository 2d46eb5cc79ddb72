//! Drawing an index, and signing under it.

ghost use Rattle.std.specs.Prelude.{◌≡◌, ◌≢◌, ◌+◌, ◌<◌, ◌≤◌, length, true, false, IfOk, IfErr, IfSome, IsErrOf, OnOk};
ghost use Rattle.base_streams.specs.Counting.{HasFailed};
ghost use Rattle.base_wire.specs.declared.limits.TheConstants.{MOST_KEYS};
ghost use Rattle.key_index_store.specs.Indices.{key_of, limit_of};
ghost use Rattle.key_index_store.specs.declared.store.TheConstants.{INDICES};
ghost use Rattle.lms_tree.specs.declared.TheConstants.{LEAVES};
ghost use Rattle.vote_desk.specs.Deliveries.{BoundsIndices, IsSignedWith, signed_in, vote_under};
ghost use Rattle.vote_desk.specs.DeskRefusals.{IsStorageRefusal};
ghost use Rattle.vote_desk.specs.Desks.{index_of, seed_of};
ghost use Rattle.vote_desk.specs.Endorsing.{IsSealedWith, index_shown, seal_under};

use crate::desk_error::DeskError;
use crate::seal::Seal;
use blocks::{Id, NamedHeader};
use certificates::{SignedVote, Statement};
use key_index_store::{IndexStore, key_of, q_of};
use lms_tree::SigningTree;
use stable_log::Disk;

/// An index of a key is a leaf of its tree: a store gives as many indices a key as a tree has leaves. The contract is the law, and
/// nothing is computed.
pub fn indices_are_leaves()
    ensures { INDICES ≡ LEAVES }
{}

// The replica's vote for a block, signed under this index.
fn vote_under(
    trees: &[SigningTree],
    index: u32,
    replica: u16,
    chain: &Id,
    block: &NamedHeader,
) -> SignedVote
    requires most { index < limit_of MOST_KEYS }
    requires has { key_of index < length trees.now }
    ensures value { result ≡ vote_under chain.now replica trees.now index block.now }
    ensures index { index_of (signed_in result) ≡ index }
    ensures verifies { IsSignedWith (seed_of trees.now result.key) chain.now result }
{
    let key = key_of(index);
    let view = block.header().view;
    let id = *block.id();
    let statement = Statement {
        chain: *chain,
        view,
        id,
    };
    SignedVote {
        replica,
        view,
        id,
        key,
        signature: trees[key as usize].sign_at(q_of(index), &statement.to_bytes()),
    }
}

/// Draws an index, and signs the replica's vote for a block under it. No other call gives this index again. After `Device`
/// the store is stopped.
pub(crate) fn draw<D: Disk>(
    trees: &[SigningTree],
    indices: &mut IndexStore<D>,
    replica: u16,
    chain: &Id,
    block: &NamedHeader,
) -> Result<SignedVote, DeskError>
    requires running { indices.old.stopped ≡ false }
    requires left { indices.old.mark < limit_of indices.old.keys }
    requires as_many { length trees.now ≡ indices.old.keys }
    ensures value { IfOk result (λ v.
        v ≡ vote_under chain.now replica trees.now indices.old.mark block.now) }
    ensures index { IfOk result (λ v. index_of (signed_in v) ≡ indices.old.mark) }
    ensures verifies { IfOk result (λ v. IsSignedWith (seed_of trees.now v.key) chain.now v) }
    ensures key { IfOk result (λ v. v.key < length trees.now) }
    ensures drawn { OnOk result (indices.new.mark ≡ indices.old.mark + 1) }
    ensures not_again { IfSome (D.bytes indices.old.disk) (λ _.
        BoundsIndices D.Disk indices.old indices.new) }
    ensures keys { indices.new.keys ≡ indices.old.keys }
    ensures running { OnOk result (indices.new.stopped ≡ false) }
    ensures first_refusal { IfErr result IsStorageRefusal }
    ensures device { IsErrOf result DeskError.Device →
        (indices.new.mark ≡ indices.old.mark) × (indices.new.stopped ≡ true) }
    ensures err { IfErr result (λ e. e ≢ DeskError.Device → indices.new ≡ indices.old) }
    ensures no_failure { OnOk result (D.failed indices.new.disk ≡ D.failed indices.old.disk) }
    ensures cause { IsErrOf result DeskError.Device →
        HasFailed (D.failed indices.old.disk) (D.failed indices.new.disk) }
{
    // For the proof: there are no more than the most keys.
    let _keys = indices.keys();
    let index = indices.next()?;
    Ok(vote_under(trees, index, replica, chain, block))
}

// These bytes, signed under this index.
fn seal_under(trees: &[SigningTree], index: u32, message: &[u8]) -> Seal
    requires most { index < limit_of MOST_KEYS }
    requires has { key_of index < length trees.now }
    ensures value { result ≡ seal_under index trees.now message.now }
    ensures index { index_shown result ≡ index }
    ensures verifies { IsSealedWith (seed_of trees.now result.key) message.now result }
{
    let number = key_of(index);
    Seal {
        key: number,
        signature: trees[number as usize].sign_at(q_of(index), message),
    }
}

/// Draws an index, and signs these bytes under it. No other call gives this index again, and no refusal uses it up. After `Device`
/// the store is stopped.
pub(crate) fn draw_seal<D: Disk>(
    trees: &[SigningTree],
    indices: &mut IndexStore<D>,
    message: &[u8],
) -> Result<Seal, DeskError>
    requires running { indices.old.stopped ≡ false }
    requires left { indices.old.mark < limit_of indices.old.keys }
    requires as_many { length trees.now ≡ indices.old.keys }
    ensures value { IfOk result (λ s. s ≡ seal_under indices.old.mark trees.now message.now) }
    ensures index { IfOk result (λ s. index_shown s ≡ indices.old.mark) }
    ensures verifies { IfOk result (λ s. IsSealedWith (seed_of trees.now s.key) message.now s) }
    ensures key { IfOk result (λ s. s.key < length trees.now) }
    ensures drawn { OnOk result (indices.new.mark ≡ indices.old.mark + 1) }
    ensures not_again { IfSome (D.bytes indices.old.disk) (λ _.
        BoundsIndices D.Disk indices.old indices.new) }
    ensures keys { indices.new.keys ≡ indices.old.keys }
    ensures running { OnOk result (indices.new.stopped ≡ false) }
    ensures first_refusal { IfErr result IsStorageRefusal }
    ensures device { IsErrOf result DeskError.Device →
        (indices.new.mark ≡ indices.old.mark) × (indices.new.stopped ≡ true) }
    ensures err { IfErr result (λ e. e ≢ DeskError.Device → indices.new ≡ indices.old) }
    ensures no_failure { OnOk result (D.failed indices.new.disk ≡ D.failed indices.old.disk) }
    ensures cause { IsErrOf result DeskError.Device →
        HasFailed (D.failed indices.old.disk) (D.failed indices.new.disk) }
{
    // For the proof: there are no more than the most keys.
    let _keys = indices.keys();
    let drawn = indices.next()?;
    Ok(seal_under(trees, drawn, message))
}
