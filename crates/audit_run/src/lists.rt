//! The lists of a report.

ghost use Rattle.std.specs.Prelude.{◌≡◌, IfOk};
ghost use Rattle.serde_json.specs.View.{view};
ghost use Rattle.audit_run.specs.Data.{commit_data, culprit_data, list_data, source_data};

use crate::parts::{commit_value, culprit_value, source_value};
use crate::told::SourceTold;
use culprit_search::{Commit, Verdict};
use serde_json::{Value, push};
use std::alloc::{AllocError, Global};

pub(crate) fn commits_value(alloc: Global, commits: &[Commit]) -> Result<Value, AllocError>
    ensures { IfOk result (λ v. view v ≡ list_data commit_data commits.now) }
{
    let mut list = Vec::new(alloc);
    for commit in commits {
        push(&mut list, commit_value(alloc, commit)?)?;
    }
    Ok(Value::Array(list))
}

pub(crate) fn culprits_value(
    alloc: Global,
    folder: &str,
    verdicts: &[Verdict],
) -> Result<Value, AllocError>
    ensures { IfOk result (λ v. view v ≡ list_data (culprit_data folder.now) verdicts.now) }
{
    let mut list = Vec::new(alloc);
    for verdict in verdicts {
        push(&mut list, culprit_value(alloc, folder, verdict)?)?;
    }
    Ok(Value::from(list))
}

pub(crate) fn sources_value(alloc: Global, sources: &[SourceTold]) -> Result<Value, AllocError>
    ensures { IfOk result (λ v. view v ≡ list_data source_data sources.now) }
{
    let mut list = Vec::new(alloc);
    for source in sources {
        push(&mut list, source_value(alloc, source)?)?;
    }
    Ok(Value::Array(list))
}
