//! Which blocks are not voted for, and what is spared for later by the others.

ghost use Rattle.std.specs.Prelude.{◌≡◌, ◌≤◌, IsFalse, IsTrue, MatchOption, Some};
ghost use Rattle.handover_blocks.specs.Handovers.{IsHandover, handover_mark};
ghost use Rattle.replica_core.specs.Marks.{HasNoMarkedIn, IsFirstMarkedIn};
ghost use Rattle.signer_answers.specs.Approvals.{IsApproved, IsOtherFirst, IsUnapproved, IsWithheld, MayBegin, MayFollow};
ghost use Rattle.signer_answers.specs.Sparings.{last_spare, ordinary_spare, reserve_left, reserve_of};
ghost use Rattle.vote_desk.specs.Desks.{left_of};
ghost use Rattle.vote_desk.specs.Sparing.{has_more};
ghost use Rattle.signer_answers.specs.BlockAnswers.{IsBeside, IsSpareFor, IsWay, SomeOne};

use crate::approver::Approver;
use crate::keeper::Keeper;
use crate::office::Office;
use blocks::Header;
use handover_blocks::{HANDOVER_MARK, is_handover};
use stable_log::Disk;
use std::sync::Wait;
use vote_desk::{DeskNaming, Left};

/// How a block is delivered.
#[derive(Clone, Copy, Debug, PartialEq, Eq)]
pub(crate) enum Way {
    /// It is not voted for.
    Unvoted,
    /// It may be voted for, unless it hands over above another one that does.
    Once,
    /// It may be voted for where more than this is left.
    Sparing(Left),
}

// How a block is delivered: one that hands over to a committee that is not approved is not voted for, nor one that begins the chain and
// is not the one that may; and where a signer spares for later, none for which too little is left.
pub(crate) fn way_of<N: DeskNaming, T: Wait, D: Disk, K: Approver + Keeper>(
    rt: &T,
    office: &Office<'_, N, D, K>,
    block: &Header,
) -> Way
    ensures { IsWay D.Disk N.committee N.replica N.opening (K.tells office.now.keeper.now) block.now
        result }
{
    if is_withheld(rt, office, block) {
        return Way::Unvoted;
    }
    if !office.keeper.spares() {
        return Way::Once;
    }
    if !is_handover(block) {
        return Way::Sparing(spare_for(rt, office, block));
    }
    if is_low(rt, office) {
        return Way::Unvoted;
    }
    Way::Once
}

// Whether no more than the last indices are left, which endorsements and restarts need.
fn is_low<N: DeskNaming, T: Wait, D: Disk, K: Approver + Keeper>(
    rt: &T,
    office: &Office<'_, N, D, K>,
) -> bool
    ensures { IsTrue result → SomeOne D.Disk N.committee N.replica N.opening (λ d.
        (left_of d).indices ≤ last_spare.indices) }
{
    office.desk.left(rt).indices <= last_spare().indices
}

// What is spared by a block that does not hand over. Where enough is left for all it is not looked at its chain.
fn spare_for<N: DeskNaming, T: Wait, D: Disk, K: Approver + Keeper>(
    rt: &T,
    office: &Office<'_, N, D, K>,
    block: &Header,
) -> Left
    ensures { IsSpareFor D.Disk N.committee N.replica N.opening block.now result }
{
    let spare = ordinary_spare();
    let left = office.desk.left(rt);
    if has_more(&left, &spare) {
        return spare;
    }
    if is_beside(rt, office, block) {
        return last_spare();
    }
    spare
}

fn is_beside<N: DeskNaming, T: Wait, D: Disk, K: Approver + Keeper>(
    rt: &T,
    office: &Office<'_, N, D, K>,
    block: &Header,
) -> bool
    ensures { IsTrue result → IsBeside D.Disk N.committee N.replica N.opening block.now }
{
    if block.parent_view == 0 {
        return true;
    }
    match handover_below(rt, office, block) {
        Some(_) => true,
        None => false,
    }
}

// The lowest block that hands over below this one in its chain.
fn handover_below<N: DeskNaming, T: Wait, D: Disk, K: Approver + Keeper>(
    rt: &T,
    office: &Office<'_, N, D, K>,
    block: &Header,
) -> Option<Header>
    ensures { SomeOne D.Disk N.committee N.replica N.opening (λ d. MatchOption result
        (HasNoMarkedIn d.core handover_mark block.now.parent)
        (IsFirstMarkedIn d.core handover_mark block.now.parent)) }
{
    let parent = block.parent;
    office.desk.first_marked(rt, &parent, HANDOVER_MARK)
}

/// For which blocks too little is left.
#[derive(Clone, Copy, Debug, PartialEq, Eq)]
pub enum Reserve {
    /// For none.
    None,
    /// For those that neither hand over, nor stand above one that does, nor on genesis.
    Ordinary,
    /// For all.
    Handover,
}

/// For which blocks too little is left, where a signer spares for later, or does not.
pub fn reserve_of(spares: bool, left: &Left) -> Reserve
    ensures { result ≡ reserve_of spares left.now }
{
    if spares {
        reserve_left(left)
    } else {
        Reserve::None
    }
}

fn reserve_left(left: &Left) -> Reserve
    ensures { result ≡ reserve_left left.now }
{
    if left.indices <= last_spare().indices {
        return Reserve::Handover;
    }
    if has_more(left, &ordinary_spare()) {
        Reserve::None
    } else {
        Reserve::Ordinary
    }
}

// Whether more is left than this.
fn has_more(left: &Left, spare: &Left) -> bool
    ensures { result ≡ has_more left.now spare.now }
{
    spare.indices < left.indices && spare.entries < left.entries
}

/// What a block leaves that neither hands over, nor stands above one that does, nor on genesis.
pub fn ordinary_spare() -> Left
    ensures { result ≡ ordinary_spare }
{
    Left {
        indices: 512,
        entries: 512,
    }
}

/// What any other leaves, for endorsements and restarts.
pub fn last_spare() -> Left
    ensures { result ≡ last_spare }
{
    Left {
        indices: 64,
        entries: 0,
    }
}

// Whether the block hands over to a committee that is not approved, or begins the chain and is not the one that may.
fn is_withheld<N: DeskNaming, T: Wait, D: Disk, K: Approver + Keeper>(
    rt: &T,
    office: &Office<'_, N, D, K>,
    block: &Header,
) -> bool
    ensures withheld { IsTrue result → IsWithheld (K.tells office.now.keeper.now) block.now }
    ensures approved { IsFalse result
        → IsApproved N.committee (K.tells office.now.keeper.now) block.now }
{
    is_other_first(office.keeper, block) || is_unapproved(rt, office, block)
}

fn is_other_first<K: Approver>(keeper: &K, block: &Header) -> bool
    ensures other { IsTrue result → IsOtherFirst (K.tells keeper.now).begins block.now }
    ensures begins { IsFalse result → MayBegin (K.tells keeper.now).begins block.now }
{
    match keeper.begins() {
        Some(payload) => block.parent_view == 0 && block.payload != payload,
        None => false,
    }
}

fn is_unapproved<N: DeskNaming, T: Wait, D: Disk, K: Approver + Keeper>(
    rt: &T,
    office: &Office<'_, N, D, K>,
    block: &Header,
) -> bool
    ensures unapproved { IsTrue result → IsUnapproved (K.tells office.now.keeper.now) block.now }
    ensures told { IsFalse result → IsHandover block.now
        → MayFollow N.committee (K.tells office.now.keeper.now) block.now.payload }
{
    if !is_handover(block) || office.renewed.has(rt, &block.payload) {
        return false;
    }
    match office.keeper.approved() {
        Some(payload) => payload != block.payload,
        None => true,
    }
}
