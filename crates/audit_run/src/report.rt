//! The report as a whole.

ghost use Rattle.std.specs.Prelude.{◌≡◌, ◌++◌, ◌∷◌, [], IfOk, Some, string_bytes};
ghost use Rattle.serde_json.specs.Read.{read};
ghost use Rattle.serde_json.specs.View.{view};
ghost use Rattle.serde_json.specs.Written.{compact_text};
ghost use Rattle.audit_run.specs.Data.{report_data};

use crate::lists::{commits_value, culprits_value, sources_value};
use crate::parts::{conflict_value, digits_value, id_value};
use crate::told::{AuditTold, SourceTold};
use culprit_search::Report;
use serde_json::{Value, json};
use std::alloc::{AllocError, Global};

/// What stands in `format`.
const FORMAT: &str = "wezhgula-report-1";

fn report_value(
    alloc: Global,
    told: &AuditTold,
    sources: &[SourceTold],
    report: &Report,
) -> Result<Value, AllocError>
    ensures { IfOk result (λ v. view v
        ≡ report_data told.now sources.now report.now) }
{
    let chain = id_value(alloc, &told.chain)?;
    let commits = commits_value(alloc, report.commits())?;
    let conflict = conflict_value(alloc, report.conflict())?;
    let culprits = culprits_value(alloc, told.folder, report.verdicts())?;
    let sources = sources_value(alloc, sources)?;
    let weight = digits_value(alloc, report.weight())?;
    let total = digits_value(alloc, told.total)?;
    json!(in alloc; {
        "chain": chain,
        "commits": commits,
        "conflict": conflict,
        "culprits": culprits,
        "format": FORMAT,
        "sources": sources,
        "status": told.status,
        "time": told.time,
        "total": total,
        "version": told.version,
        "weight": weight
    })
}

// The text, with no line feed.
fn compact_report(
    alloc: Global,
    told: &AuditTold,
    sources: &[SourceTold],
    report: &Report,
) -> Result<String, AllocError>
    ensures text { IfOk result (λ text. string_bytes text
        ≡ compact_text (report_data told.now sources.now report.now)) }
    ensures reads_back { IfOk result (λ text. read (string_bytes text)
        ≡ Some (report_data told.now sources.now report.now)) }
{
    let value = report_value(alloc, told, sources, report)?;
    value.to_string(alloc)
}

/// The report of an audit, as one object of JSON, with no space, and a line feed: what it tells of itself, and what was found of
/// the sources and the evidence.
/// docs/FORMATS.md, "Report for programs", has its members.
pub fn report_of(
    alloc: Global,
    told: &AuditTold,
    sources: &[SourceTold],
    report: &Report,
) -> Result<String, AllocError>
    ensures text { IfOk result (λ text. string_bytes text
        ≡ compact_text (report_data told.now sources.now report.now) ++ 10 ∷ []) }
    ensures reads_back { IfOk result (λ _.
        read (compact_text (report_data told.now sources.now report.now))
        ≡ Some (report_data told.now sources.now report.now)) }
{
    let mut text = compact_report(alloc, told, sources, report)?;
    text.push_str("\n")?;
    Ok(text)
}
