//! Opening a desk on what is stored.

ghost use Rattle.std.specs.Prelude.{◌≡◌, ◌<◌, ◌≤◌, ◌+◌, [], false, length, vec_len, IfErr, IfOk, IfSome, IsTrue, OnOk, ◌↔◌};
ghost use Rattle.std.specs.List.{All};
ghost use Rattle.blocks.specs.Committees.{n_of, keys_of};
ghost use Rattle.blocks.specs.Genesis.{genesis_of};
ghost use Rattle.blocks.specs.Replay.{IsLegal, replay};
ghost use Rattle.replica_core.specs.Cores.{restarted_with};
ghost use Rattle.replica_core.specs.Restarts.{HoldsLinked};
ghost use Rattle.vote_log.specs.Logs.{AreListed, LeavesEntries};
ghost use Rattle.vote_desk.specs.DeskRefusals.{IsStartRefusal, IsStartable};
ghost use Rattle.vote_desk.specs.Desks.{AreKeysOf, IsKeyOf, IsOpened};
ghost use Rattle.vote_desk.specs.Stays.{IsStay};

use crate::naming::DeskNaming;
use crate::parts::Parts;
use crate::session::Session;
use crate::start_error::StartError;
use crate::state::DeskState;
use blocks::CommitteeView;
use key_index_store::IndexStore;
use lms_tree::SigningTree;
use replica_core::Core;
use stable_log::Disk;
use std::alloc::{AllocError, Global};
use std::sync::ledger::{Blank, Share};
use vote_log::VoteLog;

// Whether a tree is that of key k of a replica.
fn is_key(committee: &CommitteeView, replica: u16, k: u8, tree: &SigningTree) -> bool
    requires known { replica < n_of committee.now }
    requires has { k < keys_of committee.now replica }
    ensures { IsTrue result ↔ IsKeyOf committee.now replica k tree.now }
{
    tree.public_key() == committee.key(replica, k)
}

// Whether the trees are those of the replica's keys, in order, and there are indices of as many keys.
fn are_keys(committee: &CommitteeView, replica: u16, trees: &[SigningTree], keys: u8) -> bool
    requires { replica < n_of committee.now }
    ensures { IsTrue result ↔ AreKeysOf committee.now replica trees.now keys }
{
    let wanted = committee.keys(replica);
    if trees.len() != usize::from(wanted) || keys != wanted {
        return false;
    }
    for k in 0..wanted {
        if !is_key(committee, replica, k, &trees[k as usize]) {
            return false;
        }
    }
    true
}

// The tests of what a desk is to be opened with, in their order.
fn judge<D: Disk>(
    committee: &CommitteeView,
    replica: u16,
    trees: &[SigningTree],
    index: &IndexStore<D>,
    log: &VoteLog<D>,
) -> Result<(), StartError>
    ensures exact { OnOk result (IsStartable committee.now replica trees.now log.now index.now) }
    ensures first_refusal { IfErr result
        (IsStartRefusal committee.now replica trees.now log.now index.now) }
{
    if replica >= committee.n() {
        return Err(StartError::UnknownReplica);
    }
    if !are_keys(committee, replica, trees, index.keys()) {
        return Err(StartError::WrongKey);
    }
    if *log.genesis() != committee.genesis() {
        return Err(StartError::WrongChain);
    }
    if log.stopped() || index.stopped() {
        return Err(StartError::Stopped);
    }
    Ok(())
}

// A session for each part of the ledger.
fn deal<N: DeskNaming>(
    alloc: Global,
    rest: Share<N>,
    sessions: u8,
) -> Result<Vec<Session<N>>, AllocError>
    requires parts { rest.parts ≡ sessions }
    requires amount { rest.amount ≡ 0 }
    ensures count { IfOk result (λ v. vec_len v ≡ sessions) }
    ensures none { IfOk result (λ v. All (λ s. s.receipts.items ≡ []) v.items) }
{
    let mut rest = rest;
    let mut all = Vec::with_capacity(alloc, usize::from(sessions))?;
    for _i in 0..sessions {
        let share = rest.split_off(1, 0);
        all.push(Session::new(alloc, share))?;
    }
    Ok(all)
}

// The core that is restarted from what a log stores, and what the log says of its steps.
fn restart<D: Disk>(
    alloc: Global,
    committee: &CommitteeView,
    log: &VoteLog<D>,
) -> Result<Core, AllocError>
    requires chain { log.now.genesis ≡ genesis_of committee.now }
    requires running { log.now.stopped ≡ false }
    ensures genesis { IfOk result (λ c. c.genesis ≡ genesis_of committee.now) }
    ensures state { IfOk result (λ c.
        c.state ≡ restarted_with (replay (genesis_of committee.now) log.now.steps)) }
    ensures headers { IfOk result (λ c.
        HoldsLinked (genesis_of committee.now) log.now.steps c.headers) }
    ensures legal { IsLegal log.now.genesis log.now.steps }
    ensures listed { IfSome (D.bytes log.now.disk) (λ _. AreListed log.now.entries log.now.steps) }
    ensures durable { IfSome (D.bytes log.now.disk) (λ _.
        LeavesEntries (D.images log.now.disk) log.now.entries) }
{
    // For the proof: a log has at most 4,096 entries.
    let _count = log.count();
    Core::restart(alloc, committee.genesis(), log.steps())
}

impl<N: DeskNaming, D: Disk> DeskState<N, D> {
    /// Opens a desk on what is stored, behind no lock. It is a restart: lock and stored vote view are those that the log
    /// replays to, the vote view is the stored one, whatever timeouts there were, and those headers are held whose
    /// chain lies in the log. Others are delivered again. Answers the desk beside its sessions, 1 to 64, one for each part of
    /// the blank, with no receipts. The name stands for the committee, the replica and the log's steps.
    ///
    /// A refusal drops the blank and hands the parts back. In this order: `Memory`, `UnknownReplica`, `WrongKey`,
    /// `WrongChain`, `Stopped`.
    pub fn open(
        alloc: Global,
        blank: Blank,
        committee: &CommitteeView,
        replica: u16,
        parts: Parts<D>,
        sessions: u8,
    ) -> Result<(DeskState<N, D>, Vec<Session<N>>), (StartError, Parts<D>)>
        requires name { blank.name ≡ N.name }
        requires ledger { (blank.parts ≡ N.parts) × (N.parts ≡ sessions) }
        requires sessions { (1 ≤ sessions) × (sessions ≤ 64) }
        requires committee { committee.now ≡ N.committee }
        requires replica { replica ≡ N.replica }
        requires opening { parts.log.steps ≡ N.opening }

        // A restart from the log's list.
        ensures ok { IfOk result (λ r.
            IsOpened committee.now parts.trees.items parts.index parts.log r.0) }
        ensures exact { OnOk result
            (IsStartable committee.now replica parts.trees.items parts.log parts.index) }

        // It begins a stay of the replica's life.
        ensures stay { IfOk result (λ r.
            IsStay D.bytes D.images (genesis_of N.committee) N.opening r.0) }

        // So many sessions, to which nothing was released.
        ensures sessions { IfOk result (λ r. (vec_len r.1 ≡ sessions)
            × All (λ s. s.receipts.items ≡ []) r.1.items) }
        ensures first_refusal { IfErr result (λ e.
            IsStartRefusal committee.now replica parts.trees.items parts.log parts.index e.0) }
        ensures err { IfErr result (λ e. e.1 ≡ parts) }
    {
        if let Err(refusal) = judge(committee, replica, &parts.trees, &parts.index, &parts.log) {
            return Err((refusal, parts));
        }
        let (book, rest) = blank.open::<N>();
        let Ok(all) = deal(alloc, rest, sessions) else {
            return Err((StartError::Memory, parts));
        };
        let Ok(core) = restart(alloc, committee, &parts.log) else {
            return Err((StartError::Memory, parts));
        };
        Ok((DeskState::of(committee, replica, parts, core, book), all))
    }
}
