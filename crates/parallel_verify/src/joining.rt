//! One list of headers, and one of votes, from those of all sources.

ghost use Rattle.std.specs.Prelude.{◌≡◌, ◌++◌, List, [], ◌∷◌, IfErr, IfOk, OnOk};
ghost use Rattle.std.specs.List.{AllZip, Contains};
ghost use Rattle.audit_evidence.specs.Evidence.{IsEvidenceRefusal, IsHeaderInEvidence, IsReportOf};
ghost use Rattle.audit_evidence.specs.Gathering.{Grows, IsGatheringRefusal, IsUnion};
ghost use Rattle.audit_evidence.specs.Logs.{ReceivedLog};
ghost use Rattle.audit_evidence.specs.NamedVotes.{all_votes};
ghost use Rattle.parallel_verify.specs.Parts.{HasReport, IsJoined, IsPartOn, PartHasHeader};

use crate::part::Part;
use audit_evidence::{EvidenceRefusal, Gathered, Listing, Mark, SourceReport};
use blocks::CommitteeView;
use std::alloc::{AllocError, Global};

// Adds what one source names.
fn merge_part<M: Mark>(
    gathered: &mut Gathered<M>,
    part: &Part<M>,
) -> Result<SourceReport, EvidenceRefusal>
    ensures ok { OnOk result (Grows gathered.old gathered.new (Contains part.now.headers)
        (Contains (all_votes part.now.votes part.now.certificates))) }
    ensures report { IfOk result (λ r. r ≡ part.now.report) }
    ensures err { IfErr result (IsGatheringRefusal gathered.old (Contains part.now.headers)) }
{
    gathered.merge(&part.headers, &part.votes, &part.certificates)?;
    Ok(part.report)
}

// The same, as what its log names.
fn add_part<M: Mark>(
    gathered: &mut Gathered<M>,
    part: &Part<M>,
) -> Result<SourceReport, EvidenceRefusal>
    ensures ok { IfOk result (λ r. (l : ReceivedLog) → IsPartOn gathered.old.committee l part.now
        → IsJoined gathered.old gathered.new l r) }
    ensures report { IfOk result (HasReport part.now) }
    ensures err { IfErr result (λ e. (l : ReceivedLog) → IsPartOn gathered.old.committee l part.now
        → IsGatheringRefusal gathered.old (PartHasHeader gathered.old.committee l) e) }
{
    merge_part(gathered, part)
}

// Adds a report.
fn put(reports: &mut Vec<SourceReport>, report: SourceReport) -> Result<(), AllocError>
    ensures { OnOk result (reports.new.items ≡ reports.old.items ++ report ∷ []) }
{
    reports.push(report)?;
    Ok(())
}

// What all of them name, and the reports.
pub(crate) fn join<'a, M: Mark>(
    alloc: Global,
    committee: &CommitteeView<'a>,
    parts: &[Part<M>],
) -> Result<(Listing<'a>, Vec<SourceReport>), EvidenceRefusal>
    ensures union { IfOk result (λ joined. (logs : List ReceivedLog)
        → AllZip (IsPartOn committee.now) logs parts.now → IsUnion committee.now logs joined.0) }
    ensures told { IfOk result (λ joined. (logs : List ReceivedLog)
        → AllZip (IsPartOn committee.now) logs parts.now
        → AllZip IsReportOf logs joined.1.items) }
    ensures reports { IfOk result (λ joined. AllZip HasReport parts.now joined.1.items) }
    ensures refused { IfErr result (λ e. (logs : List ReceivedLog)
        → AllZip (IsPartOn committee.now) logs parts.now
        → IsEvidenceRefusal (IsHeaderInEvidence committee.now logs) e) }
{
    let mut gathered = Gathered::<M>::new(alloc, committee)?;
    let mut reports = Vec::new(alloc);
    for part in parts {
        put(&mut reports, add_part(&mut gathered, part)?)?;
    }
    Ok((gathered.in_order(alloc)?, reports))
}
