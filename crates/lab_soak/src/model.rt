//! A replica as docs/DEFINITIONS.md describes it: "Replicas", "Lives", "Cores". Blocks go by their numbers.

use crate::tree::BlockTree;
use std::alloc::{AllocError, Global};

/// What a replica does with a block.
#[derive(Clone, Copy)]
pub(crate) enum Act {
    Vote,
    Raise,
    Pass,
}

/// An entry of the stored list.
#[derive(Clone, Copy)]
pub(crate) struct Kept {
    pub voted: bool,
    pub block: usize,
}

/// The state of a replica, its stored list, and the blocks that it holds.
#[derive(Drop)]
pub(crate) struct Model {
    pub vote_view: u64,
    pub stored_vote_view: u64,
    /// The block that the replica is locked on.
    pub lock: usize,
    pub stored: Vec<Kept>,
    // by number
    held: Vec<bool>,
}

// Whether a block stands in the chain of another, behind the first place.
fn is_ancestor(tree: &BlockTree, ancestor: usize, block: usize) -> bool {
    let mut next = tree.parent(block);
    for _ in 0..tree.count() {
        match next {
            None => return false,
            Some(above) if above == ancestor => return true,
            Some(above) => next = tree.parent(above),
        }
    }
    false
}

fn mark(marks: &mut Vec<bool>, block: usize) -> Result<(), AllocError> {
    if marks.len() <= block {
        marks.resize(block.saturating_add(1), false)?;
    }
    if let Some(place) = marks.get_mut(block) {
        *place = true;
    }
    Ok(())
}

pub(crate) fn is_marked(marks: &[bool], block: usize) -> bool {
    matches!(marks.get(block), Some(true))
}

/// Genesis, and of each entry the block and its parent.
pub(crate) fn known_blocks(
    alloc: Global,
    tree: &BlockTree,
    stored: &[Kept],
) -> Result<Vec<bool>, AllocError> {
    let mut known = Vec::new(alloc);
    mark(&mut known, 0)?;
    for entry in stored {
        mark(&mut known, entry.block)?;
        mark(&mut known, tree.parent(entry.block).unwrap_or(0))?;
    }
    Ok(known)
}

/// Those of the marked blocks whose whole chains are marked. A block has a greater number than its parent.
pub(crate) fn linked(
    alloc: Global,
    tree: &BlockTree,
    marks: &[bool],
) -> Result<Vec<bool>, AllocError> {
    let mut linked = Vec::new(alloc);
    mark(&mut linked, 0)?;
    for block in 1..tree.count() {
        if is_marked(marks, block) && is_marked(&linked, tree.parent(block).unwrap_or(0)) {
            mark(&mut linked, block)?;
        }
    }
    Ok(linked)
}

/// The third block down the chain, where these three have successive views and the third is not genesis.
pub(crate) fn committed_by(tree: &BlockTree, block: usize) -> Option<usize> {
    let last = tree.parent(block)?;
    let middle = tree.parent(last)?;
    let first = tree.parent(middle)?;
    let view = tree.view(first);
    let follow = view.checked_add(1) == Some(tree.view(middle))
        && view.checked_add(2) == Some(tree.view(last));
    (follow && first != 0).then_some(first)
}

impl Model {
    /// A new replica.
    pub fn new(alloc: Global) -> Result<Model, AllocError> {
        let mut held = Vec::new(alloc);
        mark(&mut held, 0)?;
        Ok(Model {
            vote_view: 0,
            stored_vote_view: 0,
            lock: 0,
            stored: Vec::new(alloc),
            held,
        })
    }

    pub fn holds(&self, block: usize) -> bool {
        is_marked(&self.held, block)
    }

    // The block's view is above the vote view, and the lock is an ancestor of the block or the block's parent is younger
    // than the lock.
    fn may_vote(&self, tree: &BlockTree, block: usize) -> bool {
        let parent_view = tree.block(block).header.parent_view;
        tree.view(block) > self.vote_view
            && (is_ancestor(tree, self.lock, block) || parent_view > tree.view(self.lock))
    }

    // The parent of the block's parent, where that is younger than the lock.
    fn younger_lock(&self, tree: &BlockTree, block: usize) -> Option<usize> {
        let lock = tree.parent(tree.parent(block)?)?;
        (tree.view(lock) > tree.view(self.lock)).then_some(lock)
    }

    /// A vote exactly where the replica may vote, else a raised lock exactly where it may raise it, else nothing.
    pub fn act(&self, tree: &BlockTree, block: usize) -> Act {
        if self.may_vote(tree, block) {
            Act::Vote
        } else if self.younger_lock(tree, block).is_some() {
            Act::Raise
        } else {
            Act::Pass
        }
    }

    /// Does it, and holds the block.
    pub fn take(&mut self, tree: &BlockTree, act: Act, block: usize) -> Result<(), AllocError> {
        mark(&mut self.held, block)?;
        let voted = match act {
            Act::Vote => true,
            Act::Raise => false,
            Act::Pass => return Ok(()),
        };
        self.stored.push(Kept { voted, block })?;
        if voted {
            self.vote_view = tree.view(block);
            self.stored_vote_view = self.vote_view;
        }
        if let Some(lock) = self.younger_lock(tree, block) {
            self.lock = lock;
        }
        Ok(())
    }

    /// Timeouts are forgotten, and blocks whose chain is not known from the stored list.
    pub fn restart(&mut self, alloc: Global, tree: &BlockTree) -> Result<(), AllocError> {
        self.vote_view = self.stored_vote_view;
        let known = known_blocks(alloc, tree, &self.stored)?;
        self.held = linked(alloc, tree, &known)?;
        Ok(())
    }
}
