//! A screen before the search for a vote that breaks a rule with another.

ghost use Rattle.std.specs.Prelude.{◌≡◌, ◌<◌, ◌≤◌, ◌↔◌, false, length, IsTrue};
ghost use Rattle.std.specs.List.{AllPairs};
ghost use Rattle.certificates.specs.VoteOrder.{IsLowerVote};
ghost use Rattle.culprit_search.specs.Searches.{AreByOne, BeginsAt, EndsAt, IsOnParentBelow, LowerHaveNoLockAbove, NoneBreaksWith, NoneIsDouble, StandBetween};

use crate::breach::block_of;
use crate::locks::Locks;
use audit_evidence::Evidence;
use base_shared::Shared;
use certificates::SignedVote;

// Whether the votes before this place are below the view, and those from it on are not below it.
fn begins_at(own: &[Shared<SignedVote>], view: u64, place: usize) -> bool
    requires place { place < length own.now }
    requires rising { AllPairs IsLowerVote own.now }
    requires by_one { AreByOne own.now }
    ensures { IsTrue result → BeginsAt own.now view place }
{
    view <= own[place].get().view && (place == 0 || own[place - 1].get().view < view)
}

// Whether the votes before this place are up to the view, and those from it on are above it.
fn ends_at(own: &[Shared<SignedVote>], view: u64, place: usize) -> bool
    requires place { (1 ≤ place) × (place ≤ length own.now) }
    requires rising { AllPairs IsLowerVote own.now }
    requires by_one { AreByOne own.now }
    ensures { IsTrue result → EndsAt own.now view place }
{
    own[place - 1].get().view <= view && (place == own.len() || view < own[place].get().view)
}

// Where the votes of a view stand among those of a replica: from the first place on and before the second. A guess
// where they begin, if it is right and there is one of them, saves the search.
fn places_of(own: &[Shared<SignedVote>], view: u64, guess: usize) -> (usize, usize)
    requires rising { AllPairs IsLowerVote own.now }
    requires by_one { AreByOne own.now }
    ensures { StandBetween own.now view result.0 result.1 }
{
    if guess < own.len() && begins_at(own, view, guess) && ends_at(own, view, guess + 1) {
        return (guess, guess + 1);
    }
    let start = own.partition_point(|v| v.get().view < view);
    let end = own.partition_point(|v| v.get().view <= view);
    (start, end)
}

// Whether a vote of w's view is on another block. The votes of a view stand by rising id, so the first and the last of
// them tell.
fn may_be_double(own: &[Shared<SignedVote>], w: &SignedVote, guess: usize) -> bool
    requires rising { AllPairs IsLowerVote own.now }
    requires by_one { AreByOne own.now }
    ensures { result ≡ false → NoneIsDouble own.now w.now }
{
    let (start, end) = places_of(own, w.view, guess);
    start < end && (own[start].get().id != w.id || own[end - 1].get().id != w.id)
}

// Whether w's block is in evidence and names a parent of a view below this one.
fn is_on_parent_below(evidence: &Evidence, w: &SignedVote, view: u64) -> bool
    ensures { IsTrue result ↔ IsOnParentBelow evidence.now w.now view }
{
    match block_of(evidence, w) {
        Some(block) => block.header().parent_view < view,
        None => false,
    }
}

/// Whether one of a replica's votes may break a rule with w, where the votes below w's view have no lock above the
/// greatest of these locks. That it says no more often is no clause, nor where the looked at votes end; both only save time.
pub fn may_break(
    evidence: &Evidence,
    own: &[Shared<SignedVote>],
    w: &SignedVote,
    locks: Locks,
) -> bool
    requires rising { AllPairs IsLowerVote own.now }
    requires by_one { AreByOne own.now }
    requires locks { LowerHaveNoLockAbove evidence.now own.now w.now.view locks.greatest }
    ensures { result ≡ false → NoneBreaksWith evidence.now own.now w.now }
{
    may_be_double(own, w, locks.joined) || is_on_parent_below(evidence, w, locks.greatest)
}
