//! Which blocks the picture of a watch draws. Headers are unsigned, so one that nobody voted for is anybody's invention, and none
//! of these.

ghost use Rattle.std.specs.Prelude.{◌↔◌, ◌≡◌, IfOk, IsTrue};
ghost use Rattle.std.specs.List.{AllZip};
ghost use Rattle.audit_commits.specs.Chosen.{AreThose};
ghost use Rattle.audit_picture.specs.Choices.{AreChosen, AreRecent, AreSome, IsNamed, IsNamedId, IsOfCulprit, IsOther, last_commits, names_in, names_of};
ghost use Rattle.audit_picture.specs.Lanes.{IsCulpritOf};

use crate::scene::Culprit;
use crate::standing::{is_committed, is_in_conflict};
use crate::voters::support_of;
use audit_evidence::Evidence;
use blocks::{Id, NamedHeader};
use culprit_search::{Commit, Conflict, Report};
use std::alloc::{AllocError, Global};

/// How many of the last commits are drawn.
pub const LAST_COMMITS: usize = 40;

/// How many blocks are drawn at most that the report does not name.
pub const MOST_OTHERS: usize = 120;

// Of the views in which replicas voted the blocks of so many of the latest are drawn.
const LATEST_VIEWS: usize = 40;

// The blocks are drawn of so many views before and behind the view of a block in conflict, or of a culprit's vote.
const AROUND: u64 = 3;

// Where a block stands when not all can be drawn: first those around a conflict or a culprit's vote, then those of later views.
// Blocks alike go by id.
type Rank = (u8, u64, Id);

// What the report names.
#[derive(Drop)]
struct Named<'r> {
    chain: Id,
    conflict: Option<Conflict>,
    culprits: &'r [Culprit],
    commits: &'r [Commit],
}

// Whether a culprit voted for the block.
fn is_of_culprit(culprits: &[Culprit], id: &Id) -> bool
    ensures { IsTrue result ↔ IsOfCulprit culprits.now id.now }
{
    culprits.iter().any(|culprit| culprit.earlier.id == *id || culprit.later.id == *id)
}

impl Named<'_> {
    fn has_id(&self, id: &Id) -> bool
        ensures { IsTrue result ↔ IsNamedId (names_in self.now) id.now }
    {
        *id == self.chain
            || is_in_conflict(self.conflict, id)
            || is_of_culprit(self.culprits, id)
            || is_committed(self.commits, id)
    }

    fn has(&self, header: &NamedHeader) -> bool
        ensures { IsTrue result ↔ IsNamed (names_in self.now) header.now }
    {
        self.has_id(header.id())
    }
}

// The last of the commits.
fn last_of(commits: &[Commit]) -> &[Commit]
    ensures { result.now ≡ last_commits commits.now }
{
    &commits[commits.len().saturating_sub(LAST_COMMITS)..]
}

// The blocks of the evidence that the report names, by rising id.
fn named_blocks(
    alloc: Global,
    evidence: &Evidence,
    named: &Named,
) -> Result<Vec<NamedHeader>, AllocError>
    ensures { IfOk result (λ chosen.
        AreThose (IsNamed (names_in named.now)) evidence.now.headers chosen.items) }
{
    let mut chosen = Vec::new(alloc);
    for header in evidence.headers() {
        if named.has(header) {
            chosen.push(*header)?;
        }
    }
    Ok(chosen)
}

// The views of which blocks are drawn that the report does not name, and the votes in them.
#[derive(Drop)]
struct Window {
    // The first of the latest views.
    first: u64,
    // The views of the blocks in conflict and of the culprits' votes.
    marked: Vec<u64>,
    // The blocks that were voted for in these views, by rising view and id, each once.
    voted: Vec<(u64, Id)>,
    // Where the last of the blocks stands that are drawn, if not all are.
    last: Option<Rank>,
}

// The first of the latest views in which replicas voted.
fn first_latest(alloc: Global, evidence: &Evidence) -> Result<u64, AllocError> {
    let mut views = Vec::with_capacity(alloc, evidence.votes().len())?;
    for vote in evidence.votes() {
        views.push(vote.get().view)?;
    }
    views.sort_unstable();
    views.dedup();
    let before = views.len().saturating_sub(LATEST_VIEWS);
    Ok(views.get(before).copied().unwrap_or(0))
}

fn push_view_of(views: &mut Vec<u64>, evidence: &Evidence, id: &Id) -> Result<(), AllocError> {
    if let Some(header) = evidence.header(id) {
        views.push(header.header().view)?;
    }
    Ok(())
}

// The views of the blocks in conflict and of the culprits' votes.
fn marked_views(alloc: Global, evidence: &Evidence, named: &Named) -> Result<Vec<u64>, AllocError> {
    let mut views = Vec::new(alloc);
    if let Some(conflict) = named.conflict {
        push_view_of(&mut views, evidence, &conflict.first)?;
        push_view_of(&mut views, evidence, &conflict.second)?;
    }
    for culprit in named.culprits {
        views.push(culprit.earlier.view)?;
        views.push(culprit.later.view)?;
    }
    Ok(views)
}

impl Window {
    fn of(alloc: Global, evidence: &Evidence, named: &Named) -> Result<Window, AllocError> {
        let mut window = Window {
            first: first_latest(alloc, evidence)?,
            marked: marked_views(alloc, evidence, named)?,
            voted: Vec::new(alloc),
            last: None,
        };
        for vote in evidence.votes() {
            let vote = vote.get();
            if window.shows(vote.view) {
                window.voted.push((vote.view, vote.id))?;
            }
        }
        window.voted.sort_unstable();
        window.voted.dedup();
        window.last = window.rank_of_last(alloc, evidence, named)?;
        Ok(window)
    }

    // Where the last block stands that is drawn of those that were voted for and the report does not name, if there are more. So
    // nobody asks who voted for each of thousands of blocks that are not drawn.
    fn rank_of_last(
        &self,
        alloc: Global,
        evidence: &Evidence,
        named: &Named,
    ) -> Result<Option<Rank>, AllocError> {
        let mut ranks = Vec::new(alloc);
        for header in evidence.headers() {
            if self.has(header) && !named.has(header) {
                ranks.push(self.rank(header))?;
            }
        }
        ranks.sort_unstable();
        Ok(ranks.get(MOST_OTHERS.saturating_sub(1)).copied())
    }

    // How far a view is from the nearest one that is marked.
    fn distance(&self, view: u64) -> u64 {
        let mut least = u64::MAX;
        for marked in &self.marked {
            least = least.min(view.abs_diff(*marked));
        }
        least
    }

    // Whether the blocks of this view are drawn.
    fn shows(&self, view: u64) -> bool {
        self.first <= view || self.distance(view) <= AROUND
    }

    // Whether the block was voted for in a view whose blocks are drawn, and stands early enough to be one of them.
    fn has(&self, header: &NamedHeader) -> bool {
        let ballot = (header.header().view, *header.id());
        self.voted.binary_search(&ballot).is_ok()
            && self.last.is_none_or(|last| self.rank(header) <= last)
    }

    fn rank(&self, header: &NamedHeader) -> Rank {
        let view = header.header().view;
        let distance = self.distance(view);
        if distance <= AROUND {
            (0, distance, *header.id())
        } else {
            (1, u64::MAX - view, *header.id())
        }
    }
}

// Whether the report does not name the block, and a replica voted for it.
fn is_other(evidence: &Evidence, named: &Named, header: &NamedHeader) -> bool
    ensures { IsTrue result → IsOther evidence.now (names_in named.now) header.now }
{
    !named.has(header) && 0 < support_of(evidence, header).votes
}

// The blocks of these views that the report does not name, and for which a replica voted, by rising id.
fn other_blocks(
    alloc: Global,
    evidence: &Evidence,
    named: &Named,
    window: &Window,
) -> Result<Vec<NamedHeader>, AllocError>
    ensures { IfOk result (λ others. AreSome (IsOther evidence.now (names_in named.now))
        evidence.now.headers others.items) }
{
    let mut others = Vec::new(alloc);
    for header in evidence.headers() {
        if window.has(header) && is_other(evidence, named, header) {
            others.push(*header)?;
        }
    }
    Ok(others)
}

// So many of these blocks as are drawn at most.
fn at_most(mut others: Vec<NamedHeader>) -> Vec<NamedHeader>
    ensures { AreChosen MOST_OTHERS others.items result.items }
{
    others.truncate(MOST_OTHERS);
    others
}

/// The blocks that are drawn of the evidence, of which these are the report and its culprits: all that the report names, which are
/// genesis, the blocks in conflict, those of the culprits' votes and the last commits; and of those for which a replica voted in the
/// latest views, or around a conflict or a culprit's vote, `MOST_OTHERS` at most. In no order that means something.
pub(crate) fn choose_recent(
    alloc: Global,
    evidence: &Evidence,
    report: &Report,
    culprits: &[Culprit],
) -> Result<Vec<NamedHeader>, AllocError>
    requires { AllZip IsCulpritOf report.now.verdicts culprits.now }
    ensures { IfOk result (λ chosen. AreRecent evidence.now report.now chosen.items) }
{
    let named = Named {
        chain: evidence.committee().chain(),
        conflict: report.conflict(),
        culprits,
        commits: last_of(report.commits()),
    };
    let window = Window::of(alloc, evidence, &named)?;
    let mut chosen = named_blocks(alloc, evidence, &named)?;
    let others = other_blocks(alloc, evidence, &named, &window)?;
    chosen.extend_from_slice(&at_most(others))?;
    Ok(chosen)
}
