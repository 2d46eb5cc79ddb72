//! What happens next.

use crate::keys::Signers;
use crate::random::Random;
use crate::round::{Round, Run};
use crate::tree::BlockTree;
use std::alloc::Global;
use std::io;

/// How many of the youngest blocks are taken more often than others.
const YOUNG: u64 = 12;

/// What is done with a desk.
#[derive(Clone, Copy)]
pub(crate) enum Operation {
    /// The block of this number is delivered.
    Deliver(usize),
    /// The views up to this one are given up.
    TimeOut(u64),
    /// The desk is closed, and its disks are read again or crash.
    Leave,
}

// One of the youngest blocks, in so many of a hundred cases, or any.
fn young_or_any(random: &mut Random, tree: &BlockTree, percent: u64) -> usize {
    let count = tree.count() as u64;
    let least = if random.percent(percent) {
        count.saturating_sub(YOUNG)
    } else {
        0
    };
    least.saturating_add(random.below(count.saturating_sub(least))) as usize
}

// The held block of the greatest view, the first of these.
fn top(round: &Round) -> usize {
    let mut top = 0;
    for block in 1..round.tree.count() {
        if round.desk.replica.holds(block) && round.tree.view(block) > round.tree.view(top) {
            top = block;
        }
    }
    top
}

// A view above this one, mostly the next.
fn above(random: &mut Random, view: u64, most: u64) -> u64 {
    let gap = if random.percent(70) {
        0
    } else {
        random.below(most)
    };
    view.saturating_add(1).saturating_add(gap)
}

// A block that is to be made.
#[derive(Clone, Copy)]
struct New {
    parent: usize,
    parent_view: u64,
    view: u64,
}

// A view for a block on this one, above its view, or in half of the cases also above those that may not be voted for.
fn view_on(round: &Round, random: &mut Random, parent: usize, most: u64) -> u64 {
    let mut view = round.tree.view(parent);
    if random.percent(50) {
        view = view.max(round.desk.replica.vote_view);
    }
    above(random, view, most)
}

// A block on the highest held one, mostly of the next view, or of the first that may be voted for.
fn grown(round: &Round, random: &mut Random) -> New {
    let parent = top(round);
    New {
        parent,
        parent_view: round.tree.view(parent),
        view: view_on(round, random, parent, 3),
    }
}

// A block on a young one, or on any, in half of the cases of a view that may be voted for, so that it may be against the
// lock.
fn forked(round: &Round, random: &mut Random) -> New {
    let parent = young_or_any(random, &round.tree, 70);
    New {
        parent,
        parent_view: round.tree.view(parent),
        view: view_on(round, random, parent, 5),
    }
}

// A block on this one, which was never delivered.
fn orphan(round: &Round, random: &mut Random, parent: usize) -> New {
    let parent_view = round.tree.view(parent);
    New {
        parent,
        parent_view,
        view: above(random, parent_view, 3),
    }
}

// A block that names a view that its parent does not have, with a certificate on it.
fn misnamed(round: &Round, random: &mut Random) -> New {
    let parent = young_or_any(random, &round.tree, 90);
    let parent_view = above(random, round.tree.view(parent), 3);
    New {
        parent,
        parent_view,
        view: above(random, parent_view, 3),
    }
}

fn add(alloc: Global, signers: &Signers, round: &mut Round, new: New) -> io::Result<usize> {
    let New {
        parent,
        parent_view,
        view,
    } = new;
    round.tree.add(alloc, signers, parent, parent_view, view)
}

// The block that is delivered: a new one; or one that may have been delivered before, mostly a young one, and a new one in the
// place of genesis, which is none to deliver.
fn block(alloc: Global, signers: &Signers, round: &mut Round, run: &mut Run) -> io::Result<usize> {
    let new = match run.random.below(100) {
        0..45 => grown(round, &mut run.random),
        45..70 => forked(round, &mut run.random),
        70..74 => {
            let parent = grown(round, &mut run.random);
            let parent = add(alloc, signers, round, parent)?;
            orphan(round, &mut run.random, parent)
        }
        74..78 => misnamed(round, &mut run.random),
        _ => match young_or_any(&mut run.random, &round.tree, 80) {
            0 => grown(round, &mut run.random),
            number => return Ok(number),
        },
    };
    add(alloc, signers, round, new)
}

// The view up to which all are given up: a few above the vote view, or one below it.
fn given_up(round: &Round, random: &mut Random) -> u64 {
    let view = round.desk.replica.vote_view;
    if random.percent(80) {
        view.saturating_add(random.below(10))
    } else {
        random.below(view)
    }
}

/// The next operation. A stopped desk is left soon.
pub(crate) fn choose(
    alloc: Global,
    signers: &Signers,
    round: &mut Round,
    run: &mut Run,
) -> io::Result<Operation> {
    let leaving = if round.desk.stopped { 40 } else { 7 };
    if run.random.percent(leaving) {
        return Ok(Operation::Leave);
    }
    if run.random.percent(8) {
        return Ok(Operation::TimeOut(given_up(round, &mut run.random)));
    }
    let block = block(alloc, signers, round, run)?;
    Ok(Operation::Deliver(block))
}
