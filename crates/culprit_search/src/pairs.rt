//! The pair of a replica's votes that a verdict on it names.

ghost use Rattle.std.specs.Prelude.{◌≡◌, ◌↔◌, MatchOption};
ghost use Rattle.std.specs.List.{AllPairs, Contains};
ghost use Rattle.certificates.specs.declared.vote.SignedVote.{SignedVote as SignedVoteValue};
ghost use Rattle.certificates.specs.VoteOrder.{IsLowerVote};
ghost use Rattle.audit_commits.specs.Culprits.{IsCulprit, IsNamedPair, Shows};
ghost use Rattle.culprit_search.specs.Verdicts.{bound_of, parts_on};
ghost use Rattle.culprit_search.specs.Searches.{AreByOne, AreOwnVotes, IsLeastAgainst, IsLeastPair, NoTwoBreak, NoneBreaksWith};

use crate::breach::{block_of, what_shows};
use crate::locks::{Locks, join_lower};
use crate::screen::may_break;
use audit_evidence::Evidence;
use base_shared::Shared;
use blocks::Id;
use certificates::SignedVote;
use verdict_format::{BoundVote, Shown, VerdictParts};

/// Two votes of one replica that break a rule.
#[derive(Drop)]
pub struct Offence {
    /// The earlier vote of a lock violation, or either vote of a double vote.
    pub earlier: SignedVote,
    /// The other vote.
    pub later: SignedVote,
    /// What shows that they do.
    pub shown: Shown,
}

impl Offence {
    /// What a verdict on it says, by the replica's votes on this chain.
    pub fn parts(&self, chain: Id, replica: u16) -> VerdictParts
        ensures { result ≡ parts_on chain replica self.now }
    {
        VerdictParts {
            chain,
            replica,
            earlier: bound(&self.earlier),
            later: bound(&self.later),
            shown: self.shown,
        }
    }
}

// A vote without its replica.
fn bound(vote: &SignedVote) -> BoundVote
    ensures { result ≡ bound_of vote.now }
{
    BoundVote {
        key: vote.key,
        view: vote.view,
        id: vote.id,
        signature: vote.signature,
    }
}

// The votes of a replica. All votes rise, so they stand together.
fn own_votes<'a>(evidence: &'a Evidence, replica: u16) -> &'a [Shared<SignedVote>]
    ensures { AreOwnVotes evidence.now replica result.now }
{
    let votes = evidence.votes();
    let start = votes.partition_point(|v| v.get().replica < replica);
    let rest = &votes[start..];
    let len = rest.partition_point(|v| v.get().replica <= replica);
    &rest[..len]
}

// The least of a replica's votes that breaks a rule with w.
fn least_against(evidence: &Evidence, own: &[Shared<SignedVote>], w: &SignedVote) -> Option<Offence>
    requires rising { AllPairs IsLowerVote own.now }
    ensures { MatchOption result (NoneBreaksWith evidence.now own.now w.now)
        (IsLeastAgainst evidence.now own.now w.now) }
{
    let later = block_of(evidence, w);
    for v in own {
        let v = v.get();
        if let Some(shown) = what_shows(evidence, v, w, &later) {
            return Some(Offence {
                earlier: *v,
                later: *w,
                shown,
            });
        }
    }
    None
}

// The least pair of a replica's votes that breaks a rule: the later vote is the least, then the earlier. A vote is
// compared with all others only where the screen says that it may break a rule with one.
fn least_pair(evidence: &Evidence, own: &[Shared<SignedVote>]) -> Option<Offence>
    requires rising { AllPairs IsLowerVote own.now }
    requires by_one { AreByOne own.now }
    ensures { MatchOption result (NoTwoBreak evidence.now own.now)
        (IsLeastPair evidence.now own.now) }
{
    let mut locks = Locks::none();
    for w in own {
        let w = w.get();
        locks = join_lower(evidence, own, w.view, locks);
        if may_break(evidence, own, w, locks) {
            if let Some(offence) = least_against(evidence, own, w) {
                return Some(offence);
            }
        }
    }
    None
}

/// The pair of the replica's votes that is named, if the replica is a culprit.
pub fn named_pair(evidence: &Evidence, replica: u16) -> Option<Offence>
    ensures { MatchOption result (IsCulprit evidence.now replica
        → ⊥) (λ o. IsNamedPair evidence.now replica o.earlier o.later
        × Shows evidence.now o.earlier o.later o.shown) }
{
    least_pair(evidence, own_votes(evidence, replica))
}
