//! What a desk is opened with, and what it leaves.

use crate::reply::Receipt;
use key_index_store::IndexStore;
use lms_tree::SigningTree;
use replica_core::{Core, Lock};
use stable_log::Disk;
use vote_log::VoteLog;

/// What a desk is opened with, and gives back.
#[derive(Drop)]
pub struct Parts<D: Disk> {
    /// The replica's keys, in the order of their numbers. They must sign nowhere else.
    pub trees: Vec<SigningTree>,
    /// The indices of the keys.
    pub index: IndexStore<D>,
    /// The replica's log.
    pub log: VoteLog<D>,
}

/// What a desk has left to work with.
#[derive(Clone, Copy, Debug, PartialEq, Eq)]
pub struct Left {
    /// How many votes and statements the replica's keys can still sign, 0 where the index store is stopped. A restart skips some.
    pub indices: u32,
    /// How many entries the log has room for, of 4,096.
    pub entries: usize,
}

/// What a desk tells of itself.
#[derive(Clone, Copy, Debug, PartialEq, Eq)]
pub struct DeskStatus {
    /// The greatest view of a vote, or of a timeout since the desk was opened.
    pub vote_view: u64,
    /// The view of the last vote, which a restart goes back to.
    pub stored_vote_view: u64,
    /// The locked block.
    pub lock: Lock,
    /// How many headers are held, genesis among them, of 65,536.
    pub headers: usize,
    /// How many entries the log has, of 4,096.
    pub entries: usize,
    /// What is left of the indices and of the log's room.
    pub left: Left,
    /// Whether a disk failed in an earlier call: close the desk, and recover log and index store.
    pub stopped: bool,
}

/// What a closed desk leaves.
#[derive(Drop)]
pub struct Closed<D: Disk> {
    /// The keys, their indices and the log, as the desk left them.
    pub parts: Parts<D>,
    /// The receipts of all sessions, by rising numbers: one for each vote that the desk released.
    pub receipts: Vec<Receipt>,
    /// The replica's core, as the desk left it.
    pub core: Core,
}
