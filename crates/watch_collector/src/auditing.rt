//! The audit of what came so far.

ghost use Rattle.std.specs.Prelude.{◌≡◌, ℕ, List, IfOk, IsSome};
ghost use Rattle.std.specs.List.{All};
ghost use Rattle.verdict_format.specs.Proofs.{IsProof};
ghost use Rattle.audit_evidence.specs.Logs.{ReceivedLog};
ghost use Rattle.culprit_search.specs.Found.{IsSearchOf};
ghost use Rattle.culprit_search.specs.Reports.{AreMoreThanAThird};
ghost use Rattle.watch_collector.specs.Collectors.{IsCollected};
ghost use Rattle.watch_collector.specs.Audits.{IsAuditOfLogs};

use crate::collector::Collector;
use audit_evidence::Evidence;
use culprit_search::{Report, Searched, audit_searched, search_evidence};
use std::alloc::{AllocError, Global};

/// An audit of what came so far.
#[derive(Drop)]
pub struct AuditSoFar<'a> {
    /// The evidence of what came.
    pub evidence: Evidence<'a>,
    /// What was searched in it.
    pub searched: Searched,
    /// What an audit of it reports.
    pub report: Report,
}

/// The evidence of what came so far, and what an audit reports of it, as if the logs had been read from the start. No vote is
/// checked.
pub fn audit_so_far<'a>(
    alloc: Global,
    collector: &Collector<'a>,
) -> Result<AuditSoFar<'a>, AllocError>
    ensures audit { IfOk result (λ a. (committee : List ℕ) (logs : List ReceivedLog)
        → IsCollected committee logs collector.now
        → IsAuditOfLogs committee logs a.evidence a.report) }
    ensures searched { IfOk result (λ a. IsSearchOf a.evidence a.searched) }
    ensures under { IfOk result (λ a.
        a.evidence.committee ≡ collector.now.gathered.committee) }
    ensures accepted { IfOk result (λ a. All (IsProof a.evidence.committee) a.report.verdicts) }
    ensures more_than_a_third { IfOk result (λ a. IsSome a.report.conflict
        → AreMoreThanAThird a.evidence.committee a.report) }
{
    let evidence = collector.evidence(alloc)?;
    let searched = search_evidence(alloc, &evidence)?;
    let report = audit_searched(alloc, &evidence, &searched)?;
    Ok(AuditSoFar {
        evidence,
        searched,
        report,
    })
}
