//! All culprits of the evidence.

ghost use Rattle.std.specs.Prelude.{IfOk, map};
ghost use Rattle.std.specs.List.{All};
ghost use Rattle.audit_commits.specs.Culprits.{AreCulprits};
ghost use Rattle.culprit_search.specs.Verdicts.{AreVerdicts};
ghost use Rattle.verdict_format.specs.Proofs.{IsProof};
ghost use Rattle.verdict_format.specs.Verdicts.{replica_in};

use crate::pairs::named_pair;
use crate::verdict::{Verdict, verdict_on};
use audit_evidence::Evidence;
use std::alloc::{AllocError, Global};

/// A verdict on each culprit of the evidence, by rising replica, and none on another. Each names the pair of the
/// replica's votes whose later one is the least, by view, id, key and signature, and of those the earlier one the
/// least. Memory is refused where the verdicts could not be held.
pub fn verdicts_of(alloc: Global, evidence: &Evidence) -> Result<Vec<Verdict>, AllocError>
    ensures verdicts { IfOk result (λ vs. AreVerdicts evidence.now vs.items) }
    // The checker accepts each.
    ensures accepted { IfOk result (λ vs. All (IsProof evidence.now.committee) vs.items) }
    ensures culprits { IfOk result (λ vs. AreCulprits evidence.now (map replica_in vs.items)) }
{
    let mut verdicts = Vec::new(alloc);
    for replica in 0..evidence.committee().n() {
        if let Some(offence) = named_pair(evidence, replica) {
            verdicts.push(verdict_on(alloc, evidence, replica, &offence)?)?;
        }
    }
    Ok(verdicts)
}
