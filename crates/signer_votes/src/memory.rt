//! The last votes that were found good.

ghost use Rattle.std.specs.Prelude.{◌≡◌, ◌<◌, ◌≤◌, [], IsTrue, OnErr, OnOk};
ghost use Rattle.std.specs.VecDeque.{deque_len};
ghost use Rattle.signer_votes.specs.Claims.{IsGood};
ghost use Rattle.signer_votes.specs.Memories.{after, with_a_place};
ghost use Rattle.signer_votes.specs.declared.memory.TheConstants.{MOST_REMEMBERED};

use crate::claim::{Claim, GoodVote};
use std::alloc::{AllocError, Global};
use std::collections::VecDeque;
use std::marker::Model;
use std::sync::{Mutex, Wait};

/// How many votes are remembered at the most: some 400,000 bytes.
pub const MOST_REMEMBERED: usize = 256;

/// The last votes that were found good, at most `MOST_REMEMBERED`: one value for all who call a desk. Each is good, whoever
/// handed it in, so that one which comes again need not be checked.
#[derive(Drop)]
pub struct GoodVotes {
    last: Mutex<LastVotes>,
}

impl GoodVotes {
    /// None yet. Takes no memory.
    pub fn new(alloc: Global) -> GoodVotes {
        GoodVotes {
            last: Mutex::new(LastVotes::new(alloc)),
        }
    }

    /// Remembers a vote. The oldest is forgotten where there are as many as may be; where memory is refused this one is not
    /// remembered.
    pub fn remember<R: Wait>(&self, rt: &R, vote: GoodVote) {
        let mut last = self.last.lock(rt);
        let last = &mut *last;
        // It is checked again where it comes again.
        let _ = last.remember(vote);
    }

    /// Whether a claim is remembered, byte for byte. Then it is good.
    pub fn remembers<R: Wait>(&self, rt: &R, claim: &Claim) -> bool
        ensures { IsTrue result → IsGood claim.now }
    {
        let last = self.last.lock(rt);
        let last = &*last;
        last.has(claim)
    }
}

// The last votes, the oldest first.
#[derive(Drop)]
struct LastVotes {
    votes: VecDeque<GoodVote>,
    ghost few: { deque_len votes ≤ MOST_REMEMBERED },
}

impl LastVotes {
    fn new(alloc: Global) -> LastVotes
        ensures { result.votes.items ≡ [] }
    {
        LastVotes {
            votes: VecDeque::new(alloc),
        }
    }

    fn remember(&mut self, vote: GoodVote) -> Result<(), AllocError>
        ensures ok { OnOk result (self.new.votes.items ≡ after self.old.votes.items vote) }
        ensures err { OnErr result (self.new.votes.items ≡ with_a_place self.old.votes.items) }
    {
        self.make_place();
        self.votes.push_back(vote)?;
        Ok(())
    }

    // Forgets the oldest, where there are as many as may be.
    fn make_place(&mut self)
        ensures value { self.new.votes.items ≡ with_a_place self.old.votes.items }
        ensures place { deque_len self.new.votes < MOST_REMEMBERED }
    {
        if self.votes.len() >= MOST_REMEMBERED {
            let _oldest = self.votes.pop_front();
        }
    }

    // Whether a claim is one of them.
    fn has(&self, claim: &Claim) -> bool
        ensures { IsTrue result → IsGood claim.now }
    {
        for vote in &self.votes {
            if vote.is_of(&claim.key, &claim.statement, &claim.signature) {
                return true;
            }
        }
        false
    }
}
