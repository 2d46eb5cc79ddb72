//! The first handover in the chain of a known block.

ghost use Rattle.std.specs.Prelude.{◌≡◌, ◌↔◌, ◌<◌, ◌≤◌, ◌++◌, ◌∷◌, [], List, IfSome, IsTrue, Option, Some, None, false};
ghost use Rattle.std.specs.List.{Contains};
ghost use Rattle.blocks.specs.Chains.{IsAncestor};
ghost use Rattle.blocks.specs.Headers.{Header as HeaderValue};
ghost use Rattle.ancestry.specs.Known.{IsKnown, all_of};
ghost use Rattle.audit_evidence.specs.Evidence.{Evidence as EvidenceValue, IsEvidence};
ghost use Rattle.blocks.specs.Weights.{committee_of};
ghost use Rattle.audit_commits.specs.Commits.{IsProvedCommit};
ghost use Rattle.audit_commits.specs.Chosen.{AreCertifiedHeaders};
ghost use Rattle.handover_blocks.specs.Handovers.{IsFirstCommitted, IsHandover};
ghost use Rattle.handover_search.specs.Searches.{IsBestOf, IsCandidate, IsInChainOf};

use ancestry::Ancestry;
use blocks::NamedHeader;
use handover_blocks::is_handover;

// Whether a known block stands in the chain of another, after its first place.
fn is_ancestor(chains: &Ancestry, a: &NamedHeader, b: &NamedHeader) -> bool
    requires known { IsKnown chains.now }
    requires first { Contains (all_of chains.now) a.now }
    requires second { Contains (all_of chains.now) b.now }
    ensures { IsTrue result ↔ IsAncestor (all_of chains.now) chains.now.genesis a.now b.now }
{
    match chains.is_ancestor(a.id(), b.id()) {
        Some(is) => is,
        None => false,
    }
}

// Whether they are one header.
fn are_same(a: &NamedHeader, b: &NamedHeader) -> bool
    ensures { IsTrue result ↔ (a.now ≡ b.now) }
{
    a == b
}

// Whether a known block is another, or stands in its chain.
fn is_in_chain_of(chains: &Ancestry, a: &NamedHeader, b: &NamedHeader) -> bool
    requires known { IsKnown chains.now }
    requires first { Contains (all_of chains.now) a.now }
    requires second { Contains (all_of chains.now) b.now }
    ensures { IsTrue result ↔ IsInChainOf chains.now a.now b.now }
{
    are_same(a, b) || is_ancestor(chains, a, b)
}

// Whether a known block hands over, in the chain of the tip.
fn is_candidate(chains: &Ancestry, tip: &NamedHeader, h: &NamedHeader) -> bool
    requires known { IsKnown chains.now }
    requires first { Contains (all_of chains.now) h.now }
    requires second { Contains (all_of chains.now) tip.now }
    ensures { IsTrue result ↔ IsCandidate chains.now tip.now h.now }
{
    is_handover(h.header()) && is_in_chain_of(chains, h, tip)
}

// Whether the block is below the best one so far.
fn is_below(h: &NamedHeader, best: &Option<NamedHeader>) -> bool
    ensures below { IsTrue result → IfSome best.now (λ b. h.now.view < b.view) }
    ensures not_below { result ≡ false → IfSome best.now (λ b. b.view ≤ h.now.view) }
    ensures none { best.now ≡ None → IsTrue result }
{
    match best {
        Some(b) => h.header().view < b.header().view,
        None => true,
    }
}

// The best one, one more block looked at.
fn better(
    chains: &Ancestry,
    tip: &NamedHeader,
    best: Option<NamedHeader>,
    h: &NamedHeader,
) -> Option<NamedHeader>
    requires known { IsKnown chains.now }
    requires first { Contains (all_of chains.now) h.now }
    requires second { Contains (all_of chains.now) tip.now }
    ensures { (hs : List HeaderValue) → IsBestOf chains.now tip.now hs best → IsBestOf chains.now tip.now (hs ++ h.now ∷ []) result }
{
    if is_candidate(chains, tip, h) && is_below(h, &best) {
        Some(*h)
    } else {
        best
    }
}

// The least of the known blocks that hands over, in the chain of the tip.
fn best_of(chains: &Ancestry, tip: &NamedHeader) -> Option<NamedHeader>
    requires tip { Contains (all_of chains.now) tip.now }
    ensures { IsBestOf chains.now tip.now chains.now.headers result }
{
    let mut best = None;
    for h in chains.headers() {
        best = better(chains, tip, best, h);
    }
    best
}

/// The first block that hands over in the chain of a proved commit, the commit itself among them, from the index of the
/// certified headers of the evidence. It takes no memory.
pub fn first_in_chain(chains: &Ancestry, commit: &NamedHeader) -> Option<NamedHeader>
    requires tip { Contains (all_of chains.now) commit.now }
    ensures first { (e : EvidenceValue) → IsEvidence e → AreCertifiedHeaders e chains.now →
        IsProvedCommit (committee_of e.committee) e commit.now →
        IfSome result (IsFirstCommitted (committee_of e.committee) e IsHandover) }
    ensures place { (e : EvidenceValue) → IsEvidence e → AreCertifiedHeaders e chains.now →
        (m : IsProvedCommit (committee_of e.committee) e commit.now) →
        IfSome result (Contains (commit.now ∷ m.chain)) }
    ensures none { (e : EvidenceValue) → IsEvidence e → AreCertifiedHeaders e chains.now →
        (m : IsProvedCommit (committee_of e.committee) e commit.now) →
        result ≡ None → (h : HeaderValue) → Contains (commit.now ∷ m.chain) h → IsHandover h → ⊥ }
{
    best_of(chains, commit)
}
