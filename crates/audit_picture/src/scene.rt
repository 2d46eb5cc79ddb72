//! What is drawn, and where: blocks in columns and rows, the links between them, and the votes of the culprits.

use audit_evidence::SourceReport;
use blocks::{Id, NamedHeader};
use culprit_search::{Commit, Conflict};
use verdict_format::Rule;

/// A picture before it is text.
#[derive(Drop)]
pub struct Scene {
    /// The chain's id.
    pub chain: Id,
    /// How many replicas the committee has.
    pub replicas: u16,
    /// How much they count together, where the committee's format has weights.
    pub total: Option<u64>,
    /// The views that are drawn, rising, each once.
    pub columns: Vec<Column>,
    /// How many rows there are.
    pub rows: usize,
    /// The blocks that are drawn, by rising view.
    pub blocks: Vec<Block>,
    /// How many blocks of the evidence are not drawn.
    pub left_out: usize,
    /// The commits that are proved, by rising view.
    pub commits: Vec<Commit>,
    /// The first two commits that conflict.
    pub conflict: Option<Conflict>,
    /// The culprits, by rising replica.
    pub culprits: Vec<Culprit>,
    /// How much the culprits count together.
    pub weight: u64,
    /// The view of the first block that hands over on a chain that is proved to be committed, if no commits conflict.
    pub handover: Option<u64>,
    /// What came of each source.
    pub sources: Vec<SourceReport>,
}

/// A view that is drawn.
#[derive(Clone, Copy, Debug)]
pub struct Column {
    pub view: u64,
    /// How many views were left out between this one and the one before.
    pub skipped: u64,
    /// How many gaps there are up to this column, one before it included.
    pub gaps: usize,
}

/// Where a block stands, both counted from 0: from the left, and from the top.
#[derive(Clone, Copy, Debug)]
pub struct GridCell {
    pub column: usize,
    pub row: usize,
}

/// A block that is drawn.
#[derive(Clone, Copy, Debug)]
pub struct Block {
    pub header: NamedHeader,
    pub standing: Standing,
    pub support: Support,
    pub place: GridCell,
    pub link: LineEnd,
}

/// What the evidence proves of a block.
#[derive(Clone, Copy, Debug, PartialEq, Eq)]
pub enum Standing {
    /// It is the chain's genesis.
    Genesis,
    /// Replicas of too little weight voted for it.
    Uncertified,
    /// A quorum voted for it.
    Certified,
    /// Its commit is proved.
    Committed,
    /// Its commit is proved, and is one of the first two that conflict.
    Conflicting,
}

/// Who voted for a block.
#[derive(Clone, Copy, Debug)]
pub struct Support {
    /// How many replicas.
    pub votes: u16,
    /// How much they count together.
    pub weight: u64,
}

/// Where the line from a block to its parent ends.
#[derive(Clone, Copy, Debug)]
pub enum LineEnd {
    /// Genesis has no parent.
    None,
    /// At a block that is drawn.
    To(GridCell),
    /// At none that is drawn.
    Outside,
}

/// A replica that broke a rule, by two of its votes.
#[derive(Clone, Copy, Debug)]
pub struct Culprit {
    pub replica: u16,
    pub rule: Rule,
    pub earlier: Mark,
    pub later: Mark,
}

/// A vote of a culprit.
#[derive(Clone, Copy, Debug)]
pub struct Mark {
    pub view: u64,
    pub id: Id,
    /// The column of its view.
    pub column: usize,
}
