//! The locks that a replica's votes show.

ghost use Rattle.std.specs.Prelude.{◌≡◌, ◌≤◌, length, MatchOption};
ghost use Rattle.std.specs.List.{All, AllPairs};
ghost use Rattle.audit_evidence.specs.Evidence.{IsEvidence};
ghost use Rattle.certificates.specs.VoteOrder.{IsLowerVote};
ghost use Rattle.culprit_search.specs.Searches.{AreByOne, FirstHaveNoLockAbove, HasNoLockAbove, IsLockView, LowerHaveNoLockAbove, ShowsNoLock};

use crate::breach::{block_of, parent_of};
use audit_evidence::Evidence;
use base_shared::Shared;
use certificates::SignedVote;

/// What was learned of the locks of a replica's first votes.
#[derive(Clone, Copy)]
pub struct Locks {
    /// How many votes were looked at.
    pub joined: usize,
    /// The greatest of their lock views, and 0 where none has one. That it is no greater is no clause; it only saves
    /// time.
    pub greatest: u64,
}

impl Locks {
    /// No vote was looked at.
    pub fn none() -> Locks
        ensures { result.joined ≡ 0 }
    {
        Locks {
            joined: 0,
            greatest: 0,
        }
    }
}

// The view that a vote shows its replica to be locked on, if the block of the vote and the parent of that block are in
// evidence: the view of the block on which the parent stands.
fn lock_view(evidence: &Evidence, vote: &SignedVote) -> Option<u64>
    ensures lock { MatchOption result (ShowsNoLock evidence.now vote.now)
        (IsLockView evidence.now vote.now) }
    ensures is_evidence { IsEvidence evidence.now }
{
    let block = block_of(evidence, vote)?;
    let parent = parent_of(evidence, block.header())?;
    Some(parent.header().parent_view)
}

// The greater one of a view and the vote's lock view.
fn with_lock(evidence: &Evidence, vote: &SignedVote, view: u64) -> u64
    ensures kept { view ≤ result }
    ensures joined { HasNoLockAbove evidence.now result vote.now }
{
    match lock_view(evidence, vote) {
        Some(lock) if view < lock => lock,
        _ => view,
    }
}

/// Looks at the votes that are below a view and were not looked at. Those of the view itself wait: a vote is no lock
/// violation with one of its own view.
pub fn join_lower(evidence: &Evidence, own: &[Shared<SignedVote>], view: u64, locks: Locks) -> Locks
    requires rising { AllPairs IsLowerVote own.now }
    requires by_one { AreByOne own.now }
    requires joined { FirstHaveNoLockAbove evidence.now own.now locks }
    ensures joined { FirstHaveNoLockAbove evidence.now own.now result }
    ensures lower { LowerHaveNoLockAbove evidence.now own.now view result.greatest }
{
    let Locks {
        mut joined,
        mut greatest,
    } = locks;
    while joined < own.len() && own[joined].get().view < view {
        greatest = with_lock(evidence, own[joined].get(), greatest);
        joined += 1;
    }
    Locks { joined, greatest }
}
