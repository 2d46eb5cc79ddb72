//! The parts of a report.

ghost use Rattle.std.specs.Prelude.{◌≡◌, IfOk, string_bytes};
ghost use Rattle.serde_json.specs.View.{view};
ghost use Rattle.verdict_format.specs.Verdicts.{earlier_in, later_in};
ghost use Rattle.audit_run.specs.Data.{ballot_data, block_data, commit_data, conflict_data, culprit_data, digits_data, id_data, reason_data, source_data, verdict_path, votes_data};

use crate::Reason;
use crate::told::SourceTold;
use blocks::Id;
use culprit_search::{Commit, Conflict, Verdict};
use itoa::Buffer;
use serde_json::{Value, json};
use std::alloc::{AllocError, Global};

pub(crate) fn digits_value(alloc: Global, number: u64) -> Result<Value, AllocError>
    ensures { IfOk result (λ v. view v ≡ digits_data number) }
{
    Value::try_from_str(alloc, Buffer::new().format(number))
}

pub(crate) fn id_value(alloc: Global, id: &Id) -> Result<Value, AllocError>
    ensures { IfOk result (λ v. view v ≡ id_data id.now) }
{
    let digits = hex::encode(alloc, id)?;
    Ok(Value::from(digits))
}

fn block_value(alloc: Global, block_view: u64, id: &Id) -> Result<Value, AllocError>
    ensures { IfOk result (λ v. view v ≡ block_data block_view id.now) }
{
    let id = id_value(alloc, id)?;
    let digits = digits_value(alloc, block_view)?;
    json!(in alloc; {"id": id, "view": digits})
}

pub(crate) fn commit_value(alloc: Global, commit: &Commit) -> Result<Value, AllocError>
    ensures { IfOk result (λ v. view v ≡ commit_data commit.now) }
{
    block_value(alloc, commit.view, &commit.id)
}

pub(crate) fn conflict_value(alloc: Global, conflict: Option<Conflict>) -> Result<Value, AllocError>
    ensures { IfOk result (λ v. view v ≡ conflict_data conflict) }
{
    let Some(conflict) = conflict else {
        return Ok(Value::Null);
    };
    let first = id_value(alloc, &conflict.first)?;
    let second = id_value(alloc, &conflict.second)?;
    json!(in alloc; [first, second])
}

fn reason_value(alloc: Global, reason: Option<Reason>) -> Result<Value, AllocError>
    ensures { IfOk result (λ v. view v ≡ reason_data reason) }
{
    let Some(reason) = reason else {
        return Ok(Value::Null);
    };
    let text = reason.text(alloc)?;
    Ok(Value::from(text))
}

pub(crate) fn source_value(alloc: Global, source: &SourceTold) -> Result<Value, AllocError>
    ensures { IfOk result (λ v. view v ≡ source_data source.now) }
{
    let reason = reason_value(alloc, source.reason)?;
    let judged = &source.judged;
    json!(in alloc; {
        "entries": judged.report.entries,
        "frames": judged.report.frames,
        "good": judged.good,
        "reason": reason,
        "replica": judged.report.replica,
        "status": judged.report.status.name(),
        "votes": judged.votes,
        "word": source.word
    })
}

// Where the verdict on a replica stands.
fn path_of(alloc: Global, folder: &str, replica: u16) -> Result<String, AllocError>
    ensures { IfOk result (λ path. string_bytes path ≡ verdict_path folder.now replica) }
{
    format!(in alloc; "{folder}/verdict-{replica}.hsx")
}

fn earlier_value(alloc: Global, verdict: &Verdict) -> Result<Value, AllocError>
    ensures { IfOk result (λ v. view v ≡ ballot_data (earlier_in verdict.now)) }
{
    let said = verdict.parts();
    block_value(alloc, verdict.earlier_view(), &said.earlier.id)
}

fn later_value(alloc: Global, verdict: &Verdict) -> Result<Value, AllocError>
    ensures { IfOk result (λ v. view v ≡ ballot_data (later_in verdict.now)) }
{
    let said = verdict.parts();
    block_value(alloc, verdict.later_view(), &said.later.id)
}

// The two votes of a verdict.
fn votes_value(alloc: Global, verdict: &Verdict) -> Result<Value, AllocError>
    ensures { IfOk result (λ v. view v ≡ votes_data verdict.now) }
{
    let earlier = earlier_value(alloc, verdict)?;
    let later = later_value(alloc, verdict)?;
    json!(in alloc; [earlier, later])
}

pub(crate) fn culprit_value(
    alloc: Global,
    folder: &str,
    verdict: &Verdict,
) -> Result<Value, AllocError>
    ensures { IfOk result (λ v. view v ≡ culprit_data folder.now verdict.now) }
{
    let path = path_of(alloc, folder, verdict.replica())?;
    let votes = votes_value(alloc, verdict)?;
    json!(in alloc; {
        "path": path,
        "replica": verdict.replica(),
        "rule": verdict.rule().number(),
        "votes": votes
    })
}
