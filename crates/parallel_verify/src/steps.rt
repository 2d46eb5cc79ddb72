//! Whether the entries of a log are legal steps, one after the other.

ghost use Rattle.std.specs.Prelude.{◌≡◌, ◌++◌, ◌∷◌, [], ℕ, List, Some};
ghost use Rattle.blocks.specs.Headers.{Header as HeaderValue};
ghost use Rattle.audit_evidence.specs.Logs.{SpellsEntry};
ghost use Rattle.parallel_verify.specs.Steps.{AreReplayed, step_in};

use blocks::{HEADER_LEN, Header, NamedHeader};
use replica_core::{Durable, Stored};

/// The first byte of an entry with the replica's own vote.
const VOTED: u8 = 3;

/// Where the parent's header begins in an entry, in bytes.
const PARENT_AT: usize = 1 + HEADER_LEN;

/// Where it ends.
const PARENT_END: usize = PARENT_AT + HEADER_LEN;

/// What the entries so far leave, one after the other, whether each of them was legal after those before it, and whether one of them
/// has a vote of the replica.
#[derive(Clone, Copy, Debug)]
pub(crate) struct Steps {
    pub(crate) left: Durable,
    pub(crate) are_legal: bool,
    pub(crate) has_voted: bool,
}

impl Steps {
    /// No entry so far.
    pub(crate) fn first(genesis: &NamedHeader) -> Steps
        ensures { AreReplayed genesis.now [] result }
    {
        Steps {
            left: Durable::first(genesis),
            are_legal: true,
            has_voted: false,
        }
    }

    /// Goes on by a frame that spells an entry.
    pub(crate) fn take(&mut self, frame: &[u8])
        ensures { (genesis : HeaderValue) (frames : List (List ℕ)) → SpellsEntry frame.now
            → AreReplayed genesis frames self.old
            → AreReplayed genesis (frames ++ frame.now ∷ []) self.new }
    {
        if let Some(step) = step_of(frame) {
            self.are_legal = self.are_legal && self.left.allows(&step);
            self.has_voted = self.has_voted || step.voted;
            self.left.take(&step);
        }
    }
}

// What replay sees of a frame that spells an entry. Its front alone is looked at.
fn step_of(frame: &[u8]) -> Option<Stored>
    ensures { SpellsEntry frame.now → result ≡ Some (step_in frame.now) }
{
    if frame.len() < PARENT_END {
        return None;
    }
    let Ok(block) = Header::from_bytes(&frame[1..PARENT_AT]) else {
        return None;
    };
    let Ok(parent) = Header::from_bytes(&frame[PARENT_AT..PARENT_END]) else {
        return None;
    };
    Some(Stored {
        voted: frame[0] == VOTED,
        block,
        parent,
    })
}
