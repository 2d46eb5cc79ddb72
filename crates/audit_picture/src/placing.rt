//! Where everything stands: a column for each view, a row for each branch.

ghost use Rattle.std.specs.Prelude.{◌≡◌, IfOk, IsPermutation, length, map, string_bytes};
ghost use Rattle.std.specs.List.{All, AllZip, Contains};
ghost use Rattle.ancestry.specs.Known.{all_of};
ghost use Rattle.culprit_search.specs.Found.{IsSearchOf};
ghost use Rattle.culprit_search.specs.Reports.{Report as ReportValue};
ghost use Rattle.audit_evidence.specs.Evidence.{Evidence as EvidenceValue};
ghost use Rattle.audit_picture.specs.Drawings.{IsDrawn, IsDrawnOf, IsHandoverView, IsJudgedBlock, IsRecent, IsRecentPicture};
ghost use Rattle.audit_picture.specs.Findings.{findings_in, findings_of};
ghost use Rattle.audit_picture.specs.Lanes.{IsCulpritOf, IsMarkOf};
ghost use Rattle.audit_picture.specs.Pictures.{drawn_in};
ghost use Rattle.audit_picture.specs.Standings.{IsJudged};

use crate::choosing::choose;
use crate::drawing::{Purpose, draw};
use crate::recent::choose_recent;
use crate::rows::Rows;
use crate::scene::{Block, Column, Culprit, GridCell, LineEnd, Mark, Scene, Standing, Support};
use crate::standing::standing_of;
use crate::voters::support_of;
use audit_evidence::{Evidence, SourceReport};
use blocks::{Id, NamedHeader};
use culprit_search::{Report, Searched, Verdict};
use handover_search::handover_in;
use std::alloc::{AllocError, Global};
use std::collections::BTreeMap;
use verdict_format::BoundVote;

// A block that was placed.
#[derive(Clone, Copy)]
struct Placed {
    view: u64,
    place: GridCell,
}

fn mark_of(columns: &[Column], vote: &BoundVote) -> Mark
    ensures { IsMarkOf vote.now result }
{
    Mark {
        view: vote.view,
        id: vote.id,
        column: column_of(columns, vote.view),
    }
}

// The culprit of a verdict.
fn culprit_of(columns: &[Column], verdict: &Verdict) -> Culprit
    ensures { IsCulpritOf verdict.now result }
{
    let parts = verdict.parts();
    Culprit {
        replica: parts.replica,
        rule: parts.shown.rule(),
        earlier: mark_of(columns, &parts.earlier),
        later: mark_of(columns, &parts.later),
    }
}

fn culprits_of(
    alloc: Global,
    columns: &[Column],
    verdicts: &[Verdict],
) -> Result<Vec<Culprit>, AllocError>
    ensures each { IfOk result (λ culprits. AllZip IsCulpritOf verdicts.now culprits.items) }
    ensures count { IfOk result (λ culprits. length culprits.items ≡ length verdicts.now) }
{
    let mut culprits = Vec::new(alloc);
    for verdict in verdicts {
        culprits.push(culprit_of(columns, verdict))?;
    }
    Ok(culprits)
}

// The views of these blocks and votes, rising, each once.
fn views_of(
    alloc: Global,
    headers: &[NamedHeader],
    culprits: &[Culprit],
) -> Result<Vec<u64>, AllocError> {
    let mut views = Vec::new(alloc);
    for header in headers {
        views.push(header.header().view)?;
    }
    for culprit in culprits {
        views.push(culprit.earlier.view)?;
        views.push(culprit.later.view)?;
    }
    views.sort_unstable();
    views.dedup();
    Ok(views)
}

fn columns_of(alloc: Global, views: &[u64]) -> Result<Vec<Column>, AllocError> {
    let mut columns = Vec::new(alloc);
    let mut next = 0;
    let mut gaps: usize = 0;
    for view in views {
        let skipped = view.saturating_sub(next);
        if 0 < skipped {
            gaps = gaps.saturating_add(1);
        }
        columns.push(Column {
            view: *view,
            skipped,
            gaps,
        })?;
        next = view.saturating_add(1);
    }
    Ok(columns)
}

fn column_of(columns: &[Column], view: u64) -> usize {
    columns.partition_point(|column| column.view < view)
}

// The place of a block's parent, if that is drawn, in the view that the block says.
fn parent_place(placed: &BTreeMap<Id, Placed>, block: &NamedHeader) -> Option<GridCell> {
    let header = block.header();
    let parent = placed.get(&header.parent)?;
    let is_parent = parent.view == header.parent_view && parent.view < header.view;
    is_parent.then_some(parent.place)
}

// Places a block behind its parent.
fn place_block(
    rows: &mut Rows,
    placed: &mut BTreeMap<Id, Placed>,
    column: usize,
    header: &NamedHeader,
    standing: Standing,
) -> Result<(GridCell, LineEnd), AllocError> {
    let (link, preferred, first) = match parent_place(placed, header) {
        Some(parent) => (
            LineEnd::To(parent),
            parent.row,
            parent.column.saturating_add(1),
        ),
        None if standing == Standing::Genesis => (LineEnd::None, 0, column),
        None => (LineEnd::Outside, 0, column),
    };
    let row = rows.take(preferred, first, column)?;
    let place = GridCell { column, row };
    let view = header.header().view;
    let _ = placed.insert(*header.id(), Placed { view, place })?;
    Ok((place, link))
}

// A block, what is proved of it, and who voted for it.
#[derive(Clone, Copy)]
struct Judged {
    header: NamedHeader,
    standing: Standing,
    support: Support,
}

impl Judged {
    // By view, those that are not certified behind the others, then by id.
    fn rank(&self) -> (u64, bool, Id) {
        let is_weak = self.standing == Standing::Uncertified;
        (self.header.header().view, is_weak, *self.header.id())
    }
}

fn judge(evidence: &Evidence, report: &Report, header: &NamedHeader) -> Judged
    ensures is { IsJudged evidence.now report.now result.header result.standing result.support }
    ensures same { result.header ≡ header.now }
{
    let support = support_of(evidence, header);
    Judged {
        header: *header,
        standing: standing_of(evidence, report, header, support),
        support,
    }
}

// The blocks in the order in which they are placed.
fn in_order(
    alloc: Global,
    evidence: &Evidence,
    report: &Report,
    headers: &[NamedHeader],
) -> Result<Vec<Judged>, AllocError>
    ensures judged { IfOk result (λ order.
        All (λ j. IsJudged evidence.now report.now j.header j.standing j.support) order.items) }
    ensures same { IfOk result (λ order.
        IsPermutation headers.now (map (λ j. j.header) order.items)) }
{
    let mut order = Vec::new(alloc);
    for header in headers {
        order.push(judge(evidence, report, header))?;
    }
    order.sort_unstable_by_key(|block: &Judged| block.rank());
    Ok(order)
}

fn blocks_of(
    alloc: Global,
    columns: &[Column],
    order: &[Judged],
    rows: &mut Rows,
) -> Result<Vec<Block>, AllocError>
    ensures judged { IfOk result (λ blocks. (e : EvidenceValue) → (r : ReportValue)
        → All (λ j. IsJudged e r j.header j.standing j.support) order.now
        → All (IsJudgedBlock e r) blocks.items) }
    ensures same { IfOk result (λ blocks.
        map (λ b. b.header) blocks.items ≡ map (λ j. j.header) order.now) }
{
    let mut placed = BTreeMap::new(alloc);
    let mut blocks = Vec::new(alloc);
    for judged in order {
        let header = &judged.header;
        let column = column_of(columns, header.header().view);
        let (place, link) = place_block(rows, &mut placed, column, header, judged.standing)?;
        blocks.push(Block {
            header: *header,
            standing: judged.standing,
            support: judged.support,
            place,
            link,
        })?;
    }
    Ok(blocks)
}

// The blocks of these headers of the evidence, each with what is proved of it.
fn judged_blocks(
    alloc: Global,
    evidence: &Evidence,
    report: &Report,
    columns: &[Column],
    chosen: &[NamedHeader],
    rows: &mut Rows,
) -> Result<Vec<Block>, AllocError>
    ensures judged { IfOk result (λ blocks.
        All (IsJudgedBlock evidence.now report.now) blocks.items) }
    ensures same { IfOk result (λ blocks.
        IsPermutation chosen.now (map (λ b. b.header) blocks.items)) }
{
    let order = in_order(alloc, evidence, report, chosen)?;
    blocks_of(alloc, columns, &order, rows)
}

// The view in which the ledger was handed over.
fn handover_view(report: &Report, searched: &Searched) -> Option<u64>
    requires { All (Contains (all_of searched.now.chains)) searched.now.commits.items }
    ensures { (e : EvidenceValue) → IsSearchOf e searched.now
        → IsHandoverView e report.now result }
{
    if report.conflict().is_some() {
        return None;
    }
    match handover_in(searched) {
        Some(block) => Some(block.header().view),
        None => None,
    }
}

// The picture in which these blocks are drawn, and lines of these sources.
fn scene_with(
    alloc: Global,
    evidence: &Evidence,
    searched: &Searched,
    report: &Report,
    unplaced: &[Culprit],
    chosen: &[NamedHeader],
    sources: Vec<SourceReport>,
) -> Result<Scene, AllocError>
    requires { IsSearchOf evidence.now searched.now }
    ensures findings { IfOk result (λ scene.
        findings_in scene ≡ findings_of evidence.now.committee report.now) }
    ensures drawn { IfOk result (λ scene.
        IsDrawnOf evidence.now report.now chosen.now (drawn_in scene)) }
    ensures sources { IfOk result (λ scene. scene.sources.items ≡ sources.items) }
{
    let columns = columns_of(alloc, &views_of(alloc, chosen, unplaced)?)?;
    let mut rows = Rows::new(alloc);
    let blocks = judged_blocks(alloc, evidence, report, &columns, chosen, &mut rows)?;
    let committee = evidence.committee();
    let culprits = culprits_of(alloc, &columns, report.verdicts())?;
    Ok(Scene {
        chain: committee.chain(),
        replicas: committee.n(),
        total: report.total(),
        columns,
        rows: rows.len(),
        left_out: evidence.headers().len().saturating_sub(blocks.len()),
        blocks,
        commits: report.commits().to_vec(alloc)?,
        conflict: report.conflict(),
        culprits,
        weight: report.weight(),
        handover: handover_view(report, searched),
        sources,
    })
}

/// The picture of evidence, which was searched so and of which this is the report, as an audit draws it: all its blocks, or
/// `MOST_BLOCKS`, and its sources. AllocError comes where memory is refused.
pub fn scene_of(
    alloc: Global,
    evidence: &Evidence,
    searched: &Searched,
    report: &Report,
) -> Result<Scene, AllocError>
    requires { IsSearchOf evidence.now searched.now }
    ensures findings { IfOk result (λ scene.
        findings_in scene ≡ findings_of evidence.now.committee report.now) }
    ensures drawn { IfOk result (λ scene. IsDrawn evidence.now report.now (drawn_in scene)) }
{
    let unplaced = culprits_of(alloc, &[], report.verdicts())?;
    let chosen = choose(alloc, evidence, report.conflict(), &unplaced)?;
    let sources = evidence.sources().to_vec(alloc)?;
    scene_with(
        alloc, evidence, searched, report, &unplaced, &chosen, sources,
    )
}

/// .. as a watch draws it: blocks that the report names, the latest ones, and those around a conflict or a culprit's vote. The blocks
/// that it does not name have a vote each, and are at most `MOST_OTHERS`. No source is told.
pub fn recent_scene_of(
    alloc: Global,
    evidence: &Evidence,
    searched: &Searched,
    report: &Report,
) -> Result<Scene, AllocError>
    requires { IsSearchOf evidence.now searched.now }
    ensures findings { IfOk result (λ scene.
        findings_in scene ≡ findings_of evidence.now.committee report.now) }
    ensures drawn { IfOk result (λ scene. IsRecent evidence.now report.now (drawn_in scene)) }
{
    let unplaced = culprits_of(alloc, &[], report.verdicts())?;
    let chosen = choose_recent(alloc, evidence, report, &unplaced)?;
    let sources = Vec::new(alloc);
    scene_with(
        alloc, evidence, searched, report, &unplaced, &chosen, sources,
    )
}

/// The text of that picture, for light and for dark. AllocError comes where memory is refused.
pub fn recent_picture(
    alloc: Global,
    evidence: &Evidence,
    searched: &Searched,
    report: &Report,
) -> Result<String, AllocError>
    requires { IsSearchOf evidence.now searched.now }
    ensures { IfOk result (λ text.
        IsRecentPicture evidence.now report.now (string_bytes text)) }
{
    let scene = recent_scene_of(alloc, evidence, searched, report)?;
    draw(alloc, &scene, Purpose::Watch)
}
