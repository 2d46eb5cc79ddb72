//! What is known of the replica's next keys.

ghost use Rattle.std.specs.Prelude.{◌≡◌};

use blocks::CommitteeView;
use handover_keys::{EndorsementView, NextKeysView};
use lms_tree::SigningTree;
use signer_service::{NextFault, NextKeys};
use std::alloc::Global;

/// What is known of them.
#[derive(Drop)]
pub(crate) enum Keys {
    /// They are looked for, or made.
    Making,
    /// They can't be read or made, or are not the ones that were signed for, by this endorsement, if one was said.
    Stopped(Option<Vec<u8>>),
    /// Whether some were signed for can't be read.
    Unread,
    /// They are there.
    There(Made),
}

/// Keys that are there.
#[derive(Drop)]
pub(crate) struct Made {
    /// The bytes of their statement.
    pub statement: Vec<u8>,
    /// The endorsement of it that was said, if one was.
    pub said: Option<Vec<u8>>,
    /// The keys, once they are computed, until the signer goes on with them.
    pub trees: Option<Vec<SigningTree>>,
}

impl Keys {
    pub fn progress(&self) -> NextKeys {
        match self {
            Keys::Making => NextKeys::Making,
            Keys::Stopped(_) | Keys::Unread => NextKeys::Stopped,
            Keys::There(made) if made.said.is_some() => NextKeys::Endorsed,
            Keys::There(_) => NextKeys::Made,
        }
    }

    /// Whether they were signed for, and are the replica's in this committee. Of keys that are not there it is told so.
    pub fn signed_for(&self, after: &CommitteeView, replica: u16) -> Result<bool, NextFault> {
        match self {
            Keys::Making => Err(NextFault::Making),
            Keys::Unread => Err(NextFault::Stopped),
            Keys::Stopped(None) => Ok(false),
            Keys::Stopped(Some(said)) if endorses(said, after, replica) => Err(NextFault::Stopped),
            Keys::Stopped(Some(_)) => Ok(false),
            Keys::There(made) => match &made.said {
                Some(said) => Ok(endorses(said, after, replica)),
                None => Ok(false),
            },
        }
    }

    /// The endorsement that was said.
    pub fn said(&self, alloc: Global) -> Result<Option<Vec<u8>>, NextFault> {
        match self {
            Keys::Making => Err(NextFault::Making),
            Keys::Stopped(_) | Keys::Unread => Err(NextFault::Stopped),
            Keys::There(made) => match &made.said {
                Some(said) => Ok(Some(said.to_vec(alloc)?)),
                None => Ok(None),
            },
        }
    }

    pub fn statement(&self, alloc: Global) -> Result<Vec<u8>, NextFault> {
        match self {
            Keys::Making => Err(NextFault::Making),
            Keys::Stopped(_) | Keys::Unread => Err(NextFault::Stopped),
            Keys::There(made) => Ok(made.statement.to_vec(alloc)?),
        }
    }

    pub fn set_said(&mut self, said: Vec<u8>) {
        if let Keys::There(made) = self {
            made.said = Some(said);
        }
    }

    pub fn set_trees(&mut self, trees: Vec<SigningTree>) {
        if let Keys::There(made) = self {
            made.trees = Some(trees);
        }
    }

    pub fn take_trees(&mut self) -> Option<Vec<SigningTree>> {
        match self {
            Keys::There(made) => made.trees.take(),
            _ => None,
        }
    }
}

// Whether an endorsement is of the keys that the replica has in this committee.
fn endorses(endorsement: &[u8], after: &CommitteeView, replica: u16) -> bool {
    match EndorsementView::parse(endorsement) {
        Ok(endorsement) => has_keys(&endorsement.statement(), after, replica),
        Err(_) => false,
    }
}

fn has_keys(statement: &NextKeysView, after: &CommitteeView, replica: u16) -> bool {
    if replica >= after.n() || statement.count() != after.keys(replica) {
        return false;
    }
    for k in 0..after.keys(replica) {
        if k >= statement.count() || statement.key(k) != after.key(replica, k) {
            return false;
        }
    }
    true
}
