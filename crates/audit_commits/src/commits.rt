//! Commits that evidence proves.

ghost use Rattle.std.specs.Prelude.{◌≡◌, ◌+◌, ◌↔◌, IfOk, IsTrue};
ghost use Rattle.std.specs.List.{All, AllPairs, Contains};
ghost use Rattle.ancestry.specs.Known.{all_of};
ghost use Rattle.blocks.specs.Committees.{IsCommittee};
ghost use Rattle.blocks.specs.Headers.{Header as HeaderValue, HasLowerId};
ghost use Rattle.blocks.specs.Weights.{committee_of};
ghost use Rattle.audit_commits.specs.Commits.{AreProvedCommits, IsLowerBlock};
ghost use Rattle.audit_commits.specs.Chosen.{AreCertifiedHeaders, AreThose};
ghost use Rattle.audit_evidence.specs.Evidence.{Evidence as EvidenceValue, IsEvidence};
ghost use Rattle.audit_commits.specs.Successors.{IsNext, HasNext, HasTwoNext, IsCommitAmong};

use crate::by_parent::ByParent;
use crate::certified::certified_headers;
use crate::same::are_same;
use ancestry::Ancestry;
use audit_evidence::Evidence;
use blocks::NamedHeader;
use std::alloc::{AllocError, Global};

// Whether h is on b, and in the view after.
fn is_next(b: &NamedHeader, h: &NamedHeader) -> bool
    ensures { IsTrue result ↔ IsNext b.now h.now }
{
    let lower = b.header();
    let upper = h.header();
    upper.parent_view == lower.view
        && upper.parent == *b.id()
        && lower.view < upper.view
        && upper.view - lower.view == 1
}

// Whether one of these blocks is on b, in the view after.
#[tactic(auto, unfolding(crate::specs::Successors::HasNext))]
fn has_next(certified: &ByParent, b: &NamedHeader) -> bool
    ensures { IsTrue result ↔ HasNext certified.now b.now }
{
    certified.on(b.id()).iter().any(|h| is_next(b, h))
}

// Whether one of these blocks is next after b, and another is next after that one.
#[tactic(auto, unfolding(crate::specs::Successors::HasTwoNext))]
fn has_two_next(certified: &ByParent, b: &NamedHeader) -> bool
    ensures { IsTrue result ↔ HasTwoNext certified.now b.now }
{
    certified
        .on(b.id())
        .iter()
        .any(|h| is_next(b, h) && has_next(certified, h))
}

// Whether a block is committed by two known blocks, on a chain of them. These are given once more by their parents.
fn is_commit_among(chains: &Ancestry, certified: &ByParent, b: &NamedHeader) -> bool
    requires { (h : HeaderValue) → Contains certified.now h ↔ Contains chains.now.headers h }
    ensures { IsTrue result ↔ IsCommitAmong chains.now b.now }
{
    !are_same(b, &chains.genesis()) && chains.linked(b.id()) && has_two_next(certified, b)
}

// The known blocks that known blocks commit, by rising id.
fn commits_among(alloc: Global, chains: &Ancestry) -> Result<Vec<NamedHeader>, AllocError>
    ensures { IfOk result (λ chosen.
        AreThose (IsCommitAmong chains.now) chains.now.headers chosen.items) }
{
    let certified = ByParent::of(alloc, chains.headers())?;
    let mut chosen = Vec::new(alloc);
    for header in chains.headers() {
        if is_commit_among(chains, &certified, header) {
            chosen.push(*header)?;
        }
    }
    Ok(chosen)
}

// Puts different blocks in order, by view and then by id.
fn sort_blocks(blocks: &mut Vec<NamedHeader>)
    requires { AllPairs HasLowerId blocks.old.items }
    ensures rising { AllPairs IsLowerBlock blocks.new.items }
    ensures same { (b : HeaderValue) → Contains blocks.new.items b ↔ Contains blocks.old.items b }
{
    blocks.sort_unstable_by_key(|b| (b.header().view, *b.id()));
}

/// The certified headers of the evidence, with its genesis, as an index in which chains are followed. Memory is
/// refused where they could not be copied.
pub fn certified_chains(alloc: Global, evidence: &Evidence) -> Result<Ancestry, AllocError>
    ensures chains { IfOk result (AreCertifiedHeaders evidence.now) }
    // What the types of evidence and of its committee keep, for the laws on what the index shows.
    ensures evidence { IsEvidence evidence.now }
    ensures committee { IsCommittee evidence.now.committee }
{
    let genesis = NamedHeader::of(evidence.committee().genesis());
    let certified = certified_headers(alloc, evidence)?;
    let chains = Ancestry::build(alloc, genesis, &certified)?;
    Ok(chains)
}

/// The blocks whose commits evidence proves, from the index of its certified headers, rising by view, then by id:
/// blocks but genesis that are certified with their whole chains, and on which two certified blocks stand in the next
/// two views. Memory is refused where the list of them could not grow.
pub fn proved_commits(alloc: Global, chains: &Ancestry) -> Result<Vec<NamedHeader>, AllocError>
    ensures known { IfOk result (λ commits. All (Contains (all_of chains.now)) commits.items) }
    ensures rising { IfOk result (λ commits. AllPairs IsLowerBlock commits.items) }
    ensures proved { IfOk result (λ commits. (e : EvidenceValue) → IsEvidence e
        → AreCertifiedHeaders e chains.now
        → AreProvedCommits (committee_of e.committee) e commits.items) }
{
    let mut commits = commits_among(alloc, chains)?;
    sort_blocks(&mut commits);
    Ok(commits)
}
