//! Which blocks the picture of an audit draws.

ghost use Rattle.std.specs.Prelude.{◌<◌, IfOk, length};
ghost use Rattle.audit_picture.specs.Choices.{AreChosen, AreOfAudit};

use crate::scene::Culprit;
use audit_evidence::Evidence;
use blocks::{Id, NamedHeader};
use culprit_search::Conflict;
use std::alloc::{AllocError, Global};

/// How many blocks are drawn at most.
pub const MOST_BLOCKS: usize = 1_000;

// Where a block stands when not all can be drawn: what the report names first, then the others by their distance from
// it, later views before earlier ones. Blocks alike go by id.
type Rank = (u8, u64, Id);

// The blocks that the report names.
#[derive(Drop)]
struct Named<'r> {
    genesis: Id,
    conflict: Option<Conflict>,
    culprits: &'r [Culprit],
}

impl Named<'_> {
    fn has(&self, id: &Id) -> bool {
        let in_conflict = match self.conflict {
            Some(conflict) => conflict.first == *id || conflict.second == *id,
            None => false,
        };
        let voted = |culprit: &Culprit| culprit.earlier.id == *id || culprit.later.id == *id;
        in_conflict || *id == self.genesis || self.culprits.iter().any(voted)
    }

    // The lowest view above genesis that is named, or the greatest view where none is.
    fn lowest_view(&self, headers: &[NamedHeader]) -> u64 {
        let mut lowest = u64::MAX;
        for header in headers {
            let view = header.header().view;
            if 0 < view && view < lowest && self.has(header.id()) {
                lowest = view;
            }
        }
        lowest
    }
}

fn rank(named: &Named, lowest: u64, header: &NamedHeader) -> Rank {
    let view = header.header().view;
    let id = *header.id();
    if named.has(&id) {
        (0, 0, id)
    } else if lowest <= view {
        (1, view.saturating_sub(lowest), id)
    } else {
        (2, lowest.saturating_sub(view), id)
    }
}

// The first of these blocks, in this order.
fn first_of(named: &Named, mut headers: Vec<NamedHeader>) -> Vec<NamedHeader>
    requires { MOST_BLOCKS < length headers.items }
    ensures { AreChosen MOST_BLOCKS headers.items result.items }
{
    let lowest = named.lowest_view(&headers);
    headers.sort_unstable_by_key(|header| rank(named, lowest, header));
    headers.truncate(MOST_BLOCKS);
    headers
}

/// The blocks that are drawn: all of the evidence, or so many of them as may be. Genesis, the conflict and the blocks
/// for which culprits voted go first, then the views from the lowest of these on, then the views below it, the
/// nearest first. With no conflict and no culprit the latest views are drawn. In no order that means something.
pub(crate) fn choose(
    alloc: Global,
    evidence: &Evidence,
    conflict: Option<Conflict>,
    culprits: &[Culprit],
) -> Result<Vec<NamedHeader>, AllocError>
    ensures { IfOk result (λ chosen. AreOfAudit evidence.now chosen.items) }
{
    let all = evidence.headers().to_vec(alloc)?;
    if all.len() <= MOST_BLOCKS {
        return Ok(all);
    }
    let named = Named {
        genesis: evidence.committee().chain(),
        conflict,
        culprits,
    };
    Ok(first_of(&named, all))
}
