//! The block by which a committee hands its ledger over.

ghost use Rattle.std.specs.Prelude.{◌≡◌, IfOk, IfSome, None};
ghost use Rattle.std.specs.List.{All, Contains};
ghost use Rattle.ancestry.specs.Known.{all_of};
ghost use Rattle.blocks.specs.Headers.{Header as HeaderValue};
ghost use Rattle.blocks.specs.Weights.{committee_of};
ghost use Rattle.audit_commits.specs.Commits.{HasNoConflict};
ghost use Rattle.culprit_search.specs.Found.{IsSearchOf};
ghost use Rattle.audit_evidence.specs.Evidence.{Evidence as EvidenceValue};
ghost use Rattle.handover_blocks.specs.Handovers.{IsFirstCommitted, IsHandover};

use crate::first_handover;
use audit_evidence::Evidence;
use blocks::NamedHeader;
use culprit_search::{Searched, search_evidence};
use std::alloc::{AllocError, Global};

/// The first block that hands over on a chain that evidence proves to be committed, from what was searched in that evidence; none
/// where there is none and no commits conflict.
pub fn handover_in(searched: &Searched) -> Option<NamedHeader>
    requires { All (Contains (all_of searched.now.chains)) searched.now.commits.items }
    ensures first { (e : EvidenceValue) → IsSearchOf e searched.now
        → IfSome result (IsFirstCommitted (committee_of e.committee) e IsHandover) }
    ensures none { (e : EvidenceValue) → IsSearchOf e searched.now
        → HasNoConflict (committee_of e.committee) e → result ≡ None → (b : HeaderValue)
        → IsFirstCommitted (committee_of e.committee) e IsHandover b → ⊥ }
{
    first_handover(&searched.chains, &searched.commits)
}

/// The same of evidence that was not searched.
pub fn handover_of(alloc: Global, evidence: &Evidence) -> Result<Option<NamedHeader>, AllocError>
    ensures first { IfOk result (λ found. IfSome found
        (IsFirstCommitted (committee_of evidence.now.committee) evidence.now IsHandover)) }
    ensures none { IfOk result (λ found.
        HasNoConflict (committee_of evidence.now.committee) evidence.now → found ≡ None
        → (b : HeaderValue)
        → IsFirstCommitted (committee_of evidence.now.committee) evidence.now IsHandover b → ⊥) }
{
    let searched = search_evidence(alloc, evidence)?;
    Ok(handover_in(&searched))
}
