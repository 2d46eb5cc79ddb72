//! Links between known headers, by which chains are followed.

ghost use Rattle.std.specs.Prelude.{◌≡◌, ◌<◌, ◌≤◌, ◌↔◌, IsTrue, IfOk, length};
ghost use Rattle.std.specs.List.{All};
ghost use Rattle.ancestry.specs.Known.{IsKnown};
ghost use Rattle.ancestry.specs.Links.{IsParentAt, IsIndex};

use crate::positions::{header_at, position_of};
use blocks::{Header, NamedHeader};
use std::alloc::{AllocError, Global};

/// How the chain of a header goes on. Both are the header's own position where its parent is not known.
#[derive(Clone, Copy)]
pub(crate) struct ChainLink {
    /// The position of its parent.
    pub(crate) parent: usize,
    /// The position of its parent or of a header farther down its chain.
    pub(crate) jump: usize,
}

// Whether p has the view that b names for its parent, and is older than b.
fn has_parent_view(b: &Header, p: &Header) -> bool
    ensures { IsTrue result ↔ ((b.now.parent_view ≡ p.now.view) × (p.now.view < b.now.view)) }
{
    b.parent_view == p.view && p.view < b.view
}

// The position of the known parent that the header at this position names, by id and view, and which is older;
// its own where there is none.
fn parent_of(genesis: &NamedHeader, headers: &[NamedHeader], at: usize) -> usize
    requires known { IsKnown (record { genesis = genesis.now; headers = headers.now }) }
    requires at_in { at ≤ length headers.now }
    ensures parent_in { result ≤ length headers.now }
    ensures parent { IsParentAt (record {
      genesis = genesis.now;
      headers = headers.now;
    }) at result }
{
    let b = header_at(genesis, headers, at).header();
    let Some(p) = position_of(genesis, headers, &b.parent) else {
        return at;
    };
    if has_parent_view(b, header_at(genesis, headers, p).header()) {
        p
    } else {
        at
    }
}

/// The links of all positions: to the parents, with no jump yet.
pub(crate) fn links_of(
    alloc: Global,
    genesis: &NamedHeader,
    headers: &[NamedHeader],
) -> Result<Vec<ChainLink>, AllocError>
    requires { IsKnown (record { genesis = genesis.now; headers = headers.now }) }
    ensures { IfOk result (λ links.
        IsIndex (record { genesis = genesis.now; headers = headers.now }) links.items) }
{
    let mut links = Vec::with_capacity(alloc, headers.len() + 1)?;
    for at in 0..headers.len() + 1 {
        let parent = parent_of(genesis, headers, at);
        links.push(ChainLink { parent, jump: at })?;
    }
    Ok(links)
}

/// The views of the headers, with their positions: lower views first.
pub(crate) fn by_view(
    alloc: Global,
    headers: &[NamedHeader],
) -> Result<Vec<(u64, usize)>, AllocError>
    ensures { IfOk result (λ order. All (λ x. x.1 < length headers.now) order.items) }
{
    let mut order = Vec::with_capacity(alloc, headers.len())?;
    for (at, h) in headers.iter().enumerate() {
        order.push((h.header().view, at))?;
    }
    order.sort_unstable();
    Ok(order)
}
