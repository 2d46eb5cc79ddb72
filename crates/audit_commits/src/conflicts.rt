//! Commits that conflict.

ghost use Rattle.std.specs.Prelude.{◌≡◌, ◌≤◌, ◌↔◌, length, IsTrue, MatchOption};
ghost use Rattle.std.specs.List.{All, AllPairs, Contains};
ghost use Rattle.blocks.specs.Weights.{committee_of};
ghost use Rattle.audit_commits.specs.Commits.{AreProvedCommits, AreFirstConflict, HasNoConflict, IsLowerBlock};
ghost use Rattle.blocks.specs.Chains.{IsAncestor};
ghost use Rattle.ancestry.specs.Known.{all_of, IsKnown};
ghost use Rattle.audit_commits.specs.Chosen.{AreCertifiedHeaders};
ghost use Rattle.audit_evidence.specs.Evidence.{Evidence as EvidenceValue, IsEvidence};
ghost use Rattle.audit_commits.specs.Pairs.{Agree, AreFirstIn, DoConflict, FirstAreAbove, IsLeastConflictWith, IsNoAncestor, IsTrunk, StandInOneChain};

use crate::same::are_same;
use ancestry::Ancestry;
use blocks::NamedHeader;

/// Two proved commits that conflict, the lower one first.
#[derive(Clone, Copy, Debug, PartialEq, Eq)]
pub struct ConflictingCommits {
    /// The lower commit by view, then by id.
    pub first: NamedHeader,
    /// The commit that conflicts with it.
    pub second: NamedHeader,
}

// Whether two known blocks have chains, and a does not stand in that of b.
fn is_no_ancestor(chains: &Ancestry, a: &NamedHeader, b: &NamedHeader) -> bool
    requires known { IsKnown chains.now }
    requires first { Contains (all_of chains.now) a.now }
    requires second { Contains (all_of chains.now) b.now }
    ensures { IsTrue result ↔ IsNoAncestor chains.now a.now b.now }
{
    match chains.is_ancestor(a.id(), b.id()) {
        Some(is) => !is,
        None => false,
    }
}

// Whether two known blocks conflict: they differ, and neither stands in the chain of the other.
fn do_conflict(chains: &Ancestry, a: &NamedHeader, b: &NamedHeader) -> bool
    requires known { IsKnown chains.now }
    requires first { Contains (all_of chains.now) a.now }
    requires second { Contains (all_of chains.now) b.now }
    ensures { IsTrue result ↔ DoConflict chains.now a.now b.now }
{
    !are_same(a, b) && is_no_ancestor(chains, a, b) && is_no_ancestor(chains, b, a)
}

// Whether a known block stands in the chain of another, after its first place.
fn is_ancestor(chains: &Ancestry, a: &NamedHeader, b: &NamedHeader) -> bool
    requires known { IsKnown chains.now }
    requires first { Contains (all_of chains.now) a.now }
    requires second { Contains (all_of chains.now) b.now }
    ensures { IsTrue result ↔ IsAncestor (all_of chains.now) chains.now.genesis a.now b.now }
{
    match chains.is_ancestor(a.id(), b.id()) {
        Some(is) => is,
        None => false,
    }
}

// How many of these blocks, which stand in one chain, are ancestors of b. They are the first ones, for an ancestor
// of an ancestor is one: so the last of them tells. That none is left out is no clause; it only saves time.
fn ancestors_among(chains: &Ancestry, blocks: &[NamedHeader], b: &NamedHeader) -> usize
    requires known { IsKnown chains.now }
    requires there { All (Contains (all_of chains.now)) blocks.now }
    requires other { Contains (all_of chains.now) b.now }
    requires chain { StandInOneChain chains.now blocks.now }
    ensures at_most { result ≤ length blocks.now }
    ensures ancestors { FirstAreAbove chains.now blocks.now result b.now }
{
    let mut count = blocks.len();
    while count > 0 && !is_ancestor(chains, &blocks[count - 1], b) {
        count -= 1;
    }
    count
}

// How many of the first blocks are ancestors of all that follow them, so that they conflict with none: the trunk
// below the first fork. That it is no longer is no clause; it only saves time.
fn trunk_length(chains: &Ancestry, blocks: &[NamedHeader]) -> usize
    requires known { IsKnown chains.now }
    requires there { All (Contains (all_of chains.now)) blocks.now }
    ensures at_most { result ≤ length blocks.now }
    ensures trunk { IsTrunk chains.now blocks.now result }
{
    let mut trunk = 0;
    for k in 0..blocks.len() {
        let shared = ancestors_among(chains, &blocks[..trunk], &blocks[k]);
        trunk = if shared == k { k + 1 } else { shared };
    }
    trunk
}

// The first of these blocks that conflicts with a.
fn conflict_with(chains: &Ancestry, a: &NamedHeader, blocks: &[NamedHeader]) -> Option<NamedHeader>
    requires known { IsKnown chains.now }
    requires first { Contains (all_of chains.now) a.now }
    requires others { All (Contains (all_of chains.now)) blocks.now }
    requires rising { AllPairs IsLowerBlock blocks.now }
    ensures { MatchOption result (All (Agree chains.now a.now) blocks.now)
        (IsLeastConflictWith chains.now a.now blocks.now) }
{
    for b in blocks {
        if do_conflict(chains, a, b) {
            return Some(*b);
        }
    }
    None
}

// The first two of these blocks that conflict. The trunk conflicts with nothing and is passed over; the block behind
// it is the first that does, so only that one is compared with all later ones.
fn first_pair(chains: &Ancestry, blocks: &[NamedHeader]) -> Option<ConflictingCommits>
    requires known { IsKnown chains.now }
    requires there { All (Contains (all_of chains.now)) blocks.now }
    requires rising { AllPairs IsLowerBlock blocks.now }
    ensures { MatchOption result (AllPairs (Agree chains.now) blocks.now) (λ pair.
        AreFirstIn chains.now blocks.now pair.first pair.second) }
{
    let mut rest = &blocks[trunk_length(chains, blocks)..];
    while let [first, later @ ..] = rest {
        if let Some(second) = conflict_with(chains, first, later) {
            return Some(ConflictingCommits {
                first: *first,
                second,
            });
        }
        rest = later;
    }
    None
}

/// The first two of these commits, the proved ones of evidence by its certified headers, that conflict: of all pairs
/// with the lower commit first that with the least first commit, and of those that with the least second one. None
/// where no two conflict.
pub fn first_conflict(chains: &Ancestry, commits: &[NamedHeader]) -> Option<ConflictingCommits>
    requires there { All (Contains (all_of chains.now)) commits.now }
    requires rising { AllPairs IsLowerBlock commits.now }
    ensures { (e : EvidenceValue) → IsEvidence e → AreCertifiedHeaders e chains.now →
        AreProvedCommits (committee_of e.committee) e commits.now →
        MatchOption result (HasNoConflict (committee_of e.committee) e)
        (λ pair. AreFirstConflict (committee_of e.committee) e pair.first pair.second) }
{
    // For the proof: no two headers of the chains have one id.
    let _known = chains.headers();
    first_pair(chains, commits)
}
