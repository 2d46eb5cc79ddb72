//! What outlives a restart.

ghost use Rattle.std.specs.Prelude.{◌≡◌, ◌↔◌, IsTrue};
ghost use Rattle.blocks.specs.Replay.{first_durable, replay_entry, IsLegalEntry};

use crate::stored::Stored;
use blocks::{Id, NamedHeader};
use std::marker::Model;

/// The block that a replica is locked on.
#[derive(Clone, Copy, Debug, PartialEq, Eq)]
pub struct Lock {
    /// Its id.
    pub id: Id,
    /// Its view.
    pub view: u64,
}

/// What outlives a restart: the view of the last vote, and the lock. It is what the stored entries leave,
/// taken one after the other from `first` on. Contracts see the stored vote view and the lock.
#[derive(Clone, Copy, Debug, PartialEq, Eq)]
pub struct Durable {
    stored_vote_view: u64,
    lock_id: Id,
    lock_view: u64,
}

impl Model for Durable {
    ghost use Rattle.blocks.specs.Replay.{Durable as DurableValue};

    ghost Value = { DurableValue };

    ghost view = { λ d. record {
      stored_vote_view = d.stored_vote_view;
      lock_id = d.lock_id;
      lock_view = d.lock_view;
    } };

    ghost inverse = { λ d. record {
      stored_vote_view = d.stored_vote_view;
      lock_id = d.lock_id;
      lock_view = d.lock_view;
    } };
}

impl Durable {
    /// That of a new replica: no vote, locked on genesis.
    pub fn first(genesis: &NamedHeader) -> Durable
        ensures { result ≡ first_durable genesis.now }
    {
        Durable {
            stored_vote_view: 0,
            lock_id: *genesis.id(),
            lock_view: 0,
        }
    }

    /// Whether the entry may follow: a vote for a block above the stored vote view, whose parent is the
    /// lock or younger than it, or a lock raised without a vote, which rises. Nothing else is judged:
    /// whether the block names this parent is not.
    pub fn allows(&self, entry: &Stored) -> bool
        ensures { IsTrue result ↔ IsLegalEntry self.now entry.now.voted entry.now.block
            entry.now.parent }
    {
        if entry.voted {
            self.stored_vote_view < entry.block.view
                && (self.lock_view < entry.block.parent_view
                    || (entry.block.parent == self.lock_id
                        && entry.block.parent_view == self.lock_view))
        } else {
            self.lock_view < entry.parent.parent_view
        }
    }

    /// Goes on by an entry, whether `allows` or not: a vote becomes the stored one, and the lock moves to
    /// the parent's parent where that is younger.
    pub fn take(&mut self, entry: &Stored)
        ensures { self.new ≡ replay_entry self.old entry.now.voted entry.now.block
            entry.now.parent }
    {
        if entry.voted {
            self.stored_vote_view = entry.block.view;
        }
        if self.lock_view < entry.parent.parent_view {
            self.lock_id = entry.parent.parent;
            self.lock_view = entry.parent.parent_view;
        }
    }

    /// The view of the last vote.
    pub fn stored_vote_view(&self) -> u64
        ensures { result ≡ self.now.stored_vote_view }
    {
        self.stored_vote_view
    }

    /// The lock.
    pub fn lock(&self) -> Lock
        ensures id { result.id ≡ self.now.lock_id }
        ensures view { result.view ≡ self.now.lock_view }
    {
        Lock {
            id: self.lock_id,
            view: self.lock_view,
        }
    }
}
