//! A run of the audit, from the sources to the lines.

ghost use Rattle.std.specs.Prelude.{◌≡◌, ◌≢◌, List, IfErr, IfOk, IsErrOf, IsSome, MatchResult, OnOk};
ghost use Rattle.std.specs.List.{All, AllZip};
ghost use Rattle.base_streams.specs.Counting.{one_more};
ghost use Rattle.base_streams.specs.Streams.{Wrote, WrotePart};
ghost use Rattle.blocks.specs.Committees.{IsCommittee};
ghost use Rattle.verdict_format.specs.Proofs.{IsProof};
ghost use Rattle.audit_evidence.specs.Evidence.{Evidence as EvidenceValue, IsEvidence};
ghost use Rattle.audit_evidence.specs.Logs.{ReceivedLog};
ghost use Rattle.parallel_verify.specs.Collections.{MayFail, MayBeTried, MayGive};
ghost use Rattle.parallel_verify.specs.Readings.{IsReadingOf, MayBeTriedIn, sources_of};
ghost use Rattle.culprit_search.specs.Reports.{AreMoreThanAThird, IsAudit, Report as ReportValue};
ghost use Rattle.culprit_search.specs.ReportText.{report_text};
ghost use Rattle.audit_run.specs.Runs.{IsAccounted, IsAuditRun, IsCompleteSource, IsJudgedRun, IsMemoryOrSink, IsRunAnswer, IsRunRefusal, ProveAConflict};
ghost use Rattle.audit_run.specs.declared.run_error.RunError.TheVariants.{Sink as NotWritten};

use crate::run_error::RunError;
use audit_evidence::Evidence;
use base_streams::Sink;
use blocks::CommitteeView;
use certificates::{LmsVerifier, Verifier};
use culprit_search::{Report, audit, write_report};
use log_transfer::{Connector, a_complete_source_gives_its_log};
use parallel_verify::{
    Ending, Judgement, Judging, Observed, Observer, Reading, Source, read_sources, unobserved,
};
use std::alloc::Global;
use std::sync::Wait;
use std::thread::Threads;

/// What an audit found.
#[derive(Drop)]
pub struct Findings<'a> {
    /// What the sources show together.
    pub evidence: Evidence<'a>,
    /// What the evidence proves, and whom it accuses.
    pub report: Report,
    /// What was found of the log of each source, in their order, if they were to be judged; else nothing.
    pub judged: Vec<Judgement>,
    /// How the reading of each ended, in their order.
    pub endings: Vec<Ending>,
}

// What the sources give.
fn read_all<
    'a,
    R: Threads + Wait + Sync,
    C: Connector + Send,
    O: Observer + Send,
    V: Verifier + Sync,
>(
    rt: &R,
    alloc: Global,
    committee: &CommitteeView<'a>,
    verifier: &V,
    sources: Vec<Observed<C, O>>,
    judging: Judging,
) -> Result<Reading<'a, O>, RunError>
    requires tries { All (MayBeTriedIn C.allowed) sources.items }
    ensures ok { IfOk result (λ r. IsReadingOf C.Connector O.told committee.now judging
        sources.items r.evidence r.judged.items r.observers.items) }
    ensures committee { IsCommittee committee.now }
    ensures refused { IfErr result
        (IsRunRefusal (MayGive C.gives) committee.now (sources_of sources.items)) }
    ensures unwritten { IfErr result (λ e. e ≢ NotWritten) }
{
    // For the proof: a view is of a committee.
    let view = committee.again();
    let reading = read_sources(rt, alloc, &view, verifier, sources, judging)?;
    Ok(reading)
}

// Audits evidence, and writes the report.
fn report_on<W: Sink>(alloc: Global, evidence: &Evidence, sink: &mut W) -> Result<Report, RunError>
    ensures sound { IsEvidence evidence.now }
    ensures audit { IfOk result (IsAudit evidence.now) }
    ensures accepted { IfOk result (λ r. All (IsProof evidence.now.committee) r.verdicts) }
    ensures more_than_a_third { IfOk result (λ r. IsSome r.conflict
        → AreMoreThanAThird evidence.now.committee r) }
    ensures wrote { IfOk result (λ r.
        Wrote (W.text sink.old) (W.text sink.new) (report_text evidence.now.sources r)) }
    ensures no_failure { OnOk result (W.failed sink.new ≡ W.failed sink.old) }
    ensures refused { IfErr result IsMemoryOrSink }
    ensures memory { IsErrOf result RunError.Memory → sink.new ≡ sink.old }
    ensures sink { IsErrOf result RunError.Sink → (r : ReportValue) × IsAudit evidence.now r
        × WrotePart (W.text sink.old) (W.text sink.new) (report_text evidence.now.sources r) }
    ensures cause { IsErrOf result RunError.Sink
        → W.failed sink.new ≡ one_more (W.failed sink.old) }
{
    // For the proof: the headers of evidence have different ids, and its votes are good.
    let _headers = evidence.headers();
    let report = audit(alloc, evidence)?;
    write_report(alloc, evidence, &report, sink)?;
    Ok(report)
}

/// Reads the sources as `read_sources` does, each shown to its observer, judges them if it is to, audits what they show together under
/// the committee, and writes the lines of the report, as docs/FORMATS.md, "Report", lays them out. Each source has 1 to 3 tries, and
/// no more than its connector allows. Nothing is written before all else is done. Evidence, judgements and what the observers were shown
/// are of one list of logs; the observers come back, in the order of their sources.
///
/// In this order: `Memory`, `Collision`, `Sink`; a collision among the first sources may be answered before
/// memory that a later one was refused. After `Sink` a first part of the lines was written, and
/// after the others nothing was. A source that fails refuses nothing: its line says so.
///
/// Where each source keeps nothing of its log back, and the logs prove two commits that conflict, with no two different
/// headers of one id, it answers `Memory` or `Sink`, or a source is reported as failed, or the report has verdicts on
/// replicas of more than a third of the weight, each of which the checker accepts.
pub fn audit_judged<
    'a,
    R: Threads + Wait + Sync,
    C: Connector + Send,
    O: Observer + Send,
    V: Verifier + Sync,
    W: Sink,
>(
    rt: &R,
    alloc: Global,
    committee: &CommitteeView<'a>,
    verifier: &V,
    sources: Vec<Observed<C, O>>,
    judging: Judging,
    sink: &mut W,
) -> Result<(Findings<'a>, Vec<O>), RunError>
    requires tries { All (MayBeTriedIn C.allowed) sources.items }
    ensures run { IfOk result (λ a. IsJudgedRun C.Connector O.told committee.now judging
        sources.items a.0 a.1.items) }
    ensures accepted { IfOk result (λ a. All (IsProof committee.now) a.0.report.verdicts) }
    ensures more_than_a_third { IfOk result (λ a. IsSome a.0.report.conflict
        → AreMoreThanAThird committee.now a.0.report) }
    ensures wrote { IfOk result (λ a. Wrote (W.text sink.old) (W.text sink.new)
        (report_text a.0.evidence.sources a.0.report)) }
    ensures no_failure { OnOk result (W.failed sink.new ≡ W.failed sink.old) }
    ensures refused { IfErr result
        (IsRunRefusal (MayGive C.gives) committee.now (sources_of sources.items)) }
    ensures unwritten { IfErr result (λ e. e ≢ NotWritten → sink.new ≡ sink.old) }
    ensures sink { IsErrOf result RunError.Sink → (e : EvidenceValue) × (r : ReportValue)
        × IsAuditRun (MayGive C.gives) (MayFail C.reaches C.failed) committee.now
        (sources_of sources.items) e r
        × WrotePart (W.text sink.old) (W.text sink.new) (report_text e.sources r) }
    ensures cause { IsErrOf result RunError.Sink
        → W.failed sink.new ≡ one_more (W.failed sink.old) }
    ensures is_committee { IsCommittee committee.now }
    ensures accountability { (logs : List ReceivedLog)
        → AllZip (IsCompleteSource C.gives) (sources_of sources.items) logs
        → ProveAConflict committee.now logs
        → MatchResult result (λ a. IsAccounted committee.now a.0.evidence a.0.report)
        IsMemoryOrSink }
{
    a_complete_source_gives_its_log::<C>();
    let reading = read_all(rt, alloc, committee, verifier, sources, judging)?;
    let Reading {
        evidence,
        judged,
        endings,
        observers,
    } = reading;
    match report_on(alloc, &evidence, sink) {
        Ok(report) => {
            let found = Findings {
                evidence,
                report,
                judged,
                endings,
            };
            Ok((found, observers))
        }
        Err(error) => Err(error),
    }
}

/// Reads the sources, each in a thread of its own where one can be made, audits what they show together under the
/// committee, and writes the lines of the report, as docs/FORMATS.md, "Report", lays them out. Each source has 1 to 3
/// tries, and no more than its connector allows. Nothing is written before all else is done.
///
/// In this order: `Memory`, `Committee`, `Collision`, `Sink`; a collision among the first sources may be answered before
/// memory that a later one was refused. After `Sink` a first part of the lines was written, and
/// after the others nothing was. A source that fails refuses nothing: its line says so.
///
/// Where each source keeps nothing of its log back, and the logs prove two commits that conflict, with no two different
/// headers of one id, it answers `Memory` or `Sink`, or a source is reported as failed, or the report has verdicts on
/// replicas of more than a third of the weight, each of which the checker accepts.
pub fn audit_run<R: Threads + Wait + Sync, C: Connector + Send, W: Sink>(
    rt: &R,
    alloc: Global,
    committee: &[u8],
    sources: Vec<Source<C>>,
    sink: &mut W,
) -> Result<Report, RunError>
    requires tries { All (MayBeTried C.allowed) sources.items }
    ensures answer { IsRunAnswer
        (IsAuditRun (MayGive C.gives) (MayFail C.reaches C.failed) committee.now sources.items)
        (IsRunRefusal (MayGive C.gives) committee.now sources.items)
        committee.now W.text W.failed sink.old sink.new result }
    ensures accountability { (logs : List ReceivedLog) → IsCommittee committee.now
        → AllZip (IsCompleteSource C.gives) sources.items logs → ProveAConflict committee.now logs
        → MatchResult result (λ r. (e : EvidenceValue)
        × IsAuditRun (MayGive C.gives) (MayFail C.reaches C.failed) committee.now sources.items e r
        × Wrote (W.text sink.old) (W.text sink.new) (report_text e.sources r)
        × IsAccounted committee.now e r) IsMemoryOrSink }
{
    audit_run_by(rt, alloc, committee, &LmsVerifier, sources, sink)
}

/// The same as `audit_run`, with signatures checked by this verifier, which a caller may watch.
pub fn audit_run_by<R: Threads + Wait + Sync, C: Connector + Send, V: Verifier + Sync, W: Sink>(
    rt: &R,
    alloc: Global,
    committee: &[u8],
    verifier: &V,
    sources: Vec<Source<C>>,
    sink: &mut W,
) -> Result<Report, RunError>
    requires tries { All (MayBeTried C.allowed) sources.items }
    ensures answer { IsRunAnswer
        (IsAuditRun (MayGive C.gives) (MayFail C.reaches C.failed) committee.now sources.items)
        (IsRunRefusal (MayGive C.gives) committee.now sources.items)
        committee.now W.text W.failed sink.old sink.new result }
    ensures accountability { (logs : List ReceivedLog) → IsCommittee committee.now
        → AllZip (IsCompleteSource C.gives) sources.items logs → ProveAConflict committee.now logs
        → MatchResult result (λ r. (e : EvidenceValue)
        × IsAuditRun (MayGive C.gives) (MayFail C.reaches C.failed) committee.now sources.items e r
        × Wrote (W.text sink.old) (W.text sink.new) (report_text e.sources r)
        × IsAccounted committee.now e r) IsMemoryOrSink }
{
    let view = CommitteeView::parse(committee)?;
    audit_run_of(rt, alloc, &view, verifier, sources, sink)
}

/// The same as `audit_run_by`, under a committee that was read, so it is not refused.
pub fn audit_run_of<R: Threads + Wait + Sync, C: Connector + Send, V: Verifier + Sync, W: Sink>(
    rt: &R,
    alloc: Global,
    committee: &CommitteeView,
    verifier: &V,
    sources: Vec<Source<C>>,
    sink: &mut W,
) -> Result<Report, RunError>
    requires tries { All (MayBeTried C.allowed) sources.items }
    ensures answer { IsRunAnswer
        (IsAuditRun (MayGive C.gives) (MayFail C.reaches C.failed) committee.now sources.items)
        (IsRunRefusal (MayGive C.gives) committee.now sources.items)
        committee.now W.text W.failed sink.old sink.new result }
    ensures is_committee { IsCommittee committee.now }
    ensures accountability { (logs : List ReceivedLog)
        → AllZip (IsCompleteSource C.gives) sources.items logs → ProveAConflict committee.now logs
        → MatchResult result (λ r. (e : EvidenceValue)
        × IsAuditRun (MayGive C.gives) (MayFail C.reaches C.failed) committee.now sources.items e r
        × Wrote (W.text sink.old) (W.text sink.new) (report_text e.sources r)
        × IsAccounted committee.now e r) IsMemoryOrSink }
{
    // For the proof: a view is of a committee.
    let _ = committee.again();
    let observed = unobserved(alloc, sources)?;
    match audit_judged(rt, alloc, committee, verifier, observed, Judging::No, sink) {
        Ok((found, _)) => Ok(found.report),
        Err(error) => Err(error),
    }
}
