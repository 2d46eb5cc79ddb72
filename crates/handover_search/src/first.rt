//! The first handover that commits prove.

ghost use Rattle.std.specs.Prelude.{◌≡◌, IfSome, None};
ghost use Rattle.std.specs.List.{All, Contains};
ghost use Rattle.blocks.specs.Headers.{Header as HeaderValue};
ghost use Rattle.blocks.specs.Weights.{committee_of};
ghost use Rattle.ancestry.specs.Known.{all_of};
ghost use Rattle.audit_evidence.specs.Evidence.{Evidence as EvidenceValue};
ghost use Rattle.handover_blocks.specs.Handovers.{IsFirstCommitted, IsHandover};
ghost use Rattle.audit_commits.specs.Commits.{HasNoConflict};
ghost use Rattle.handover_search.specs.Searches.{AreCommitsOf, IsOnlyHandover};

use crate::search::first_in_chain;
use ancestry::Ancestry;
use blocks::NamedHeader;
use handover_blocks::a_first_handover_is_alone;

/// The first block that hands over in the chain that evidence proves to be committed, from the index of its certified headers
/// and all of its proved commits, rising. Where no two of the commits conflict it is the only one, and where there is none
/// the evidence proves no handover. It takes no memory.
pub fn first_handover(chains: &Ancestry, commits: &[NamedHeader]) -> Option<NamedHeader>
    requires known { All (Contains (all_of chains.now)) commits.now }
    ensures first { (e : EvidenceValue) → AreCommitsOf e chains.now commits.now
        → IfSome result (IsFirstCommitted (committee_of e.committee) e IsHandover) }
    ensures only { (e : EvidenceValue) → AreCommitsOf e chains.now commits.now
        → HasNoConflict (committee_of e.committee) e → IfSome result (IsOnlyHandover e) }
    ensures none { (e : EvidenceValue) → AreCommitsOf e chains.now commits.now
        → HasNoConflict (committee_of e.committee) e → result ≡ None → (b : HeaderValue)
        → IsFirstCommitted (committee_of e.committee) e IsHandover b → ⊥ }
{
    // For the proof: where no commits conflict there is one first handover, in the chain of the highest.
    a_first_handover_is_alone();
    match commits.last() {
        Some(highest) => first_in_chain(chains, highest),
        None => None,
    }
}
