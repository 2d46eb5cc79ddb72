//! Evidence from logs that came as texts.

ghost use Rattle.std.specs.Prelude.{◌≡◌, ◌++◌, [], ◌∷◌, IfErr, IfOk, OnOk};
ghost use Rattle.std.specs.List.{AllZip};
ghost use Rattle.parallel_verify.specs.Sources.{IsEvidenceOfTexts, IsRefusalOfTexts, IsLogOf};

use crate::SourceText;
use audit_evidence::{Evidence, EvidenceRefusal, SourceLog, evidence_of_logs};
use blocks::CommitteeView;
use log_format::Frames;
use std::alloc::{AllocError, Global};

// What the stream of a source says.
fn log_of<'s>(alloc: Global, source: &'s SourceText) -> Result<SourceLog<'s>, AllocError>
    ensures { IfOk result (IsLogOf source.now) }
{
    Ok(SourceLog {
        replica: source.replica,
        frames: Frames::of(alloc, &source.text)?,
    })
}

// Adds a log.
fn put<'s>(logs: &mut Vec<SourceLog<'s>>, log: SourceLog<'s>) -> Result<(), AllocError>
    ensures { OnOk result (logs.new.items ≡ logs.old.items ++ log.entry ∷ []) }
{
    logs.push(log)?;
    Ok(())
}

// What the streams of all sources say.
fn logs_of<'s>(alloc: Global, sources: &'s [SourceText]) -> Result<Vec<SourceLog<'s>>, AllocError>
    ensures { IfOk result (λ logs. AllZip IsLogOf sources.now logs.items) }
{
    let mut logs = Vec::new(alloc);
    for source in sources {
        put(&mut logs, log_of(alloc, source)?)?;
    }
    Ok(logs)
}

/// The evidence of what these streams say, as `evidence_of_logs` gives it, on one thread. Each stream is read in place,
/// and its frames up to the first that is cut or wrong count. Refused as Memory where memory was refused, and as
/// Collision where two different headers of the evidence have one id.
pub fn evidence_of<'a>(
    alloc: Global,
    committee: &CommitteeView<'a>,
    sources: &[SourceText],
) -> Result<Evidence<'a>, EvidenceRefusal>
    ensures ok { IfOk result (IsEvidenceOfTexts committee.now sources.now) }
    ensures refused { IfErr result (IsRefusalOfTexts committee.now sources.now) }
{
    let logs = logs_of(alloc, sources)?;
    evidence_of_logs(alloc, committee, &logs)
}
