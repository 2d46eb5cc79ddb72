//! What stands above and below the blocks: what was found, the legend, and the sources.

ghost use Rattle.std.specs.Prelude.{◌≡◌, ◌++◌, OnOk, string_bytes};
ghost use Rattle.log_format.specs.Readings.{status_name};
ghost use Rattle.audit_picture.specs.Findings.{conflict_line, counts_line, counts_text, finding_line, findings_in, findings_text, no_conflict_line, weight_text};
ghost use Rattle.audit_picture.specs.Series.{Adds};
ghost use Rattle.audit_picture.specs.Sources.{AreSourceLines, source_line};

use crate::digits::short;
use crate::layout::{Layout, MARGIN, SMALL_LINE};
use crate::scene::Scene;
use audit_evidence::SourceReport;
use culprit_search::Conflict;
use std::alloc::{AllocError, Global};
use std::fmt::Write;

#[tactic(auto, unfolding(crate::specs::Findings::no_conflict_line))]
fn put_no_conflict(text: &mut String) -> Result<(), AllocError>
    ensures { OnOk result (string_bytes text.new ≡ string_bytes text.old ++ no_conflict_line) }
{
    writeln!(
        text,
        "<text class=\"finding\" x=\"{MARGIN}\" y=\"26\">No conflict</text>"
    )
}

#[tactic(auto, unfolding(crate::specs::Findings::conflict_line))]
fn put_conflict(text: &mut String, first: &str, second: &str) -> Result<(), AllocError>
    ensures { OnOk result (string_bytes text.new
        ≡ string_bytes text.old ++ conflict_line first.now second.now) }
{
    writeln!(
        text,
        "<text class=\"finding alarm\" x=\"{MARGIN}\" y=\"26\">\
        Conflict: {first} and {second} are both committed</text>"
    )
}

// The first line: whether there is a conflict.
fn put_finding(
    text: &mut String,
    alloc: Global,
    conflict: Option<Conflict>,
) -> Result<(), AllocError>
    ensures { OnOk result (string_bytes text.new
        ≡ string_bytes text.old ++ finding_line conflict) }
{
    let Some(conflict) = conflict else {
        return put_no_conflict(text);
    };
    let first = short(alloc, &conflict.first)?;
    let second = short(alloc, &conflict.second)?;
    put_conflict(text, first.as_str(), second.as_str())
}

#[tactic(auto, unfolding(crate::specs::Findings::counts_text))]
fn put_numbers(
    text: &mut String,
    replicas: u16,
    chain: &str,
    commits: usize,
    culprits: usize,
) -> Result<(), AllocError>
    ensures { OnOk result (string_bytes text.new
        ≡ string_bytes text.old ++ counts_text replicas chain.now commits culprits) }
{
    write!(
        text,
        "<text class=\"small\" x=\"{MARGIN}\" y=\"46\">\
        replicas {replicas}, chain {chain}, commits {commits}, culprits {culprits}"
    )
}

// The second line: the committee and the counts.
fn put_counts(text: &mut String, alloc: Global, scene: &Scene) -> Result<(), AllocError>
    ensures { OnOk result (string_bytes text.new
        ≡ string_bytes text.old ++ counts_line (findings_in scene.now)) }
{
    let chain = short(alloc, &scene.chain)?;
    let commits = scene.commits.len();
    let culprits = scene.culprits.len();
    put_numbers(text, scene.replicas, chain.as_str(), commits, culprits)?;
    put_weight(text, scene.weight, scene.total)?;
    text.push_str("</text>\n")
}

fn put_weight(text: &mut String, weight: u64, total: Option<u64>) -> Result<(), AllocError>
    ensures { OnOk result (string_bytes text.new
        ≡ string_bytes text.old ++ weight_text weight total) }
{
    let Some(total) = total else {
        return Ok(());
    };
    write!(text, " of weight {weight} of {total}")
}

/// What was found, in two lines.
pub(crate) fn put_findings(
    text: &mut String,
    alloc: Global,
    scene: &Scene,
) -> Result<(), AllocError>
    ensures { OnOk result (string_bytes text.new
        ≡ string_bytes text.old ++ findings_text (findings_in scene.now)) }
{
    put_finding(text, alloc, scene.conflict)?;
    put_counts(text, alloc, scene)
}

/// The line that says how many blocks are not drawn, if any.
pub(crate) fn put_left_out(text: &mut String, scene: &Scene) -> Result<(), AllocError> {
    if 0 < scene.left_out {
        let drawn = scene.blocks.len();
        let left_out = scene.left_out;
        writeln!(
            text,
            "<text class=\"small\" x=\"{MARGIN}\" y=\"64\">\
            {drawn} blocks are drawn, and {left_out} more of the evidence are not</text>"
        )?;
    }
    Ok(())
}

/// A sample of the legend: the class of its frame, and what it means.
const SAMPLES: [(&str, &str); 4] = [
    (
        "conflict",
        "committed, and in conflict: neither of the two is an ancestor of the other",
    ),
    (
        "committed",
        "committed: on it stand two certified blocks, in the next two views",
    ),
    (
        "certified",
        "certified: replicas of more than two thirds of the weight voted for it",
    ),
    ("uncertified", "not certified"),
];

/// From one line of the legend to the next.
const LEGEND_LINE: u64 = 22;

// What a frame means.
fn put_sample(text: &mut String, class: &str, words: &str, y: u64) -> Result<(), AllocError> {
    let top = y.saturating_sub(12);
    let left = MARGIN.saturating_add(2);
    let behind = MARGIN.saturating_add(40);
    writeln!(
        text,
        "<g class=\"block {class}\"><rect x=\"{left}\" y=\"{top}\" width=\"26\" height=\"14\" rx=\"3\"/></g>"
    )?;
    writeln!(
        text,
        "<text class=\"small\" x=\"{behind}\" y=\"{y}\">{words}</text>"
    )
}

/// The legend.
pub(crate) fn put_legend(text: &mut String, layout: &Layout) -> Result<(), AllocError> {
    let mut y = layout.legend_top().saturating_add(12);
    for (class, words) in &SAMPLES {
        put_sample(text, class, words, y)?;
        y = y.saturating_add(LEGEND_LINE);
    }
    let left = MARGIN.saturating_add(2);
    let end = MARGIN.saturating_add(28);
    let behind = MARGIN.saturating_add(40);
    let line = y.saturating_sub(4);
    writeln!(text, "<path class=\"outside\" d=\"M{left} {line}H{end}\"/>")?;
    writeln!(
        text,
        "<text class=\"small\" x=\"{behind}\" y=\"{y}\">\
        the parent is not drawn; between views, ... stands for views of which no block is drawn</text>"
    )
}

fn put_source(
    text: &mut String,
    index: usize,
    source: &SourceReport,
    y: u64,
) -> Result<(), AllocError>
    ensures { OnOk result (string_bytes text.new
        ≡ string_bytes text.old ++ source_line y index source.now) }
{
    let name = source.status.name();
    put_source_line(text, y, index, name, source)
}

#[tactic(auto, unfolding(crate::specs::Sources::source_line))]
fn put_source_line(
    text: &mut String,
    y: u64,
    index: usize,
    name: &str,
    source: &SourceReport,
) -> Result<(), AllocError>
    requires { name.now ≡ status_name source.now.status }
    ensures { OnOk result (string_bytes text.new
        ≡ string_bytes text.old ++ source_line y index source.now) }
{
    let replica = source.replica;
    let frames = source.frames;
    let entries = source.entries;
    writeln!(
        text,
        "<text class=\"small\" x=\"{MARGIN}\" y=\"{y}\">\
        source {index} replica {replica} {name} frames {frames} entries {entries}</text>"
    )
}

fn put_reports(text: &mut String, top: u64, reports: &[SourceReport]) -> Result<(), AllocError>
    ensures { OnOk result (Adds (string_bytes text.old) (string_bytes text.new)
        (AreSourceLines reports.now)) }
{
    let mut y = top;
    for (index, report) in reports.iter().enumerate() {
        put_source(text, index, report, y)?;
        y = y.saturating_add(SMALL_LINE);
    }
    Ok(())
}

/// The lines of the sources.
pub(crate) fn put_sources(
    text: &mut String,
    layout: &Layout,
    scene: &Scene,
) -> Result<(), AllocError>
    ensures { OnOk result (Adds (string_bytes text.old) (string_bytes text.new)
        (AreSourceLines scene.now.sources.items)) }
{
    put_reports(text, layout.sources_top(), &scene.sources)
}
