//! What a core is made of again from stored entries.

ghost use Rattle.std.specs.Prelude.{◌≡◌, ◌⊎◌, ◌↔◌, ◌<◌, ◌≤◌, ◌+◌, ◌*◌, length, IsTrue, IfOk, OnOk};
ghost use Rattle.std.specs.List.{Contains};
ghost use Rattle.std.specs.List.Sorted.{IsNonDecreasingBy, IsPermutation};
ghost use Rattle.base_wire.specs.declared.limits.TheConstants.{MOST_ENTRIES};
ghost use Rattle.blocks.specs.Chains.{NoCollision};
ghost use Rattle.blocks.specs.Headers.{Header as HeaderValue, IsGenesis};
ghost use Rattle.blocks.specs.Replay.{replay};
ghost use Rattle.replica_core.specs.Cores.{IsHeaderTree};
ghost use Rattle.replica_core.specs.Restarts.{AreAllLinked, HoldsLinked, IsFirstOfId, known_headers};
ghost use Rattle.replica_core.specs.Tables.{AddsEntry, HasParentIn};

use crate::durable::Durable;
use crate::stored::Stored;
use crate::table::HeaderTable;
use blocks::{Header, NamedHeader};
use std::alloc::{AllocError, Global};

/// What the entries leave, one after the other.
#[tactic(auto, using(crate::proofs::Known::replay_more))]
pub fn replay(genesis: &NamedHeader, entries: &[Stored]) -> Durable
    ensures { result ≡ replay genesis.now entries.now }
{
    let mut durable = Durable::first(genesis);
    for entry in entries {
        durable.take(entry);
    }
    durable
}

// Adds the block of an entry, and then its parent, unless a header of the same id is there.
fn add_entry(known: &mut HeaderTable, entry: &Stored) -> Result<(), AllocError>
    ensures ok { OnOk result (AddsEntry known.old.headers known.new.headers entry.now) }
{
    known.add_first(&NamedHeader::of(entry.block))?;
    known.add_first(&NamedHeader::of(entry.parent))?;
    Ok(())
}

// Genesis, and of each entry the block and then its parent: of two headers of one id the first.
fn known_headers(
    alloc: Global,
    genesis: &NamedHeader,
    entries: &[Stored],
) -> Result<HeaderTable, AllocError>
    ensures firsts { IfOk result (λ t. (h : HeaderValue) → Contains t.headers h
        ↔ IsFirstOfId (known_headers genesis.now entries.now) h) }
    ensures most { IfOk result (λ t. length t.headers ≤ 2 * length entries.now + 1) }
{
    let mut known = HeaderTable::new(alloc);
    known.add_first(genesis)?;
    for entry in entries {
        add_entry(&mut known, entry)?;
    }
    Ok(known)
}

// The headers of a table by rising view.
fn by_view(table: HeaderTable) -> Vec<Header>
    ensures same { IsPermutation table.headers result.items }
    ensures sorted { IsNonDecreasingBy (λ h. h.view) result.items }
    ensures apart { NoCollision result.items }
{
    let mut headers = table.into_headers();
    headers.sort_unstable_by_key(|h| h.view);
    headers
}

// Whether the header is genesis, or its parent is there.
#[tactic(auto, using(crate::proofs::Trees::one_of_id))]
fn has_parent(held: &HeaderTable, genesis: &NamedHeader, header: &Header) -> bool
    ensures { IsTrue result ↔ ((header.now ≡ genesis.now)
        ⊎ HasParentIn held.now.headers header.now) }
{
    if *header == *genesis.header() {
        return true;
    }
    match held.get(&header.parent) {
        Some(parent) => parent.view == header.parent_view && parent.view < header.view,
        None => false,
    }
}

// Of headers by rising view those that have a chain down to genesis.
fn linked_headers(
    alloc: Global,
    genesis: &NamedHeader,
    headers: &[Header],
) -> Result<HeaderTable, AllocError>
    requires sorted { IsNonDecreasingBy (λ h. h.view) headers.now }
    requires apart { NoCollision headers.now }
    requires root { Contains headers.now genesis.now }
    ensures { IfOk result (λ t. AreAllLinked headers.now t.headers genesis.now) }
{
    let mut held = HeaderTable::new(alloc);
    for header in headers {
        if has_parent(&held, genesis, header) {
            held.add_first(&NamedHeader::of(*header))?;
        }
    }
    Ok(held)
}

/// The headers that a core holds after a restart, each once.
pub fn restored_headers(
    alloc: Global,
    genesis: &NamedHeader,
    entries: &[Stored],
) -> Result<HeaderTable, AllocError>
    requires genesis { IsGenesis genesis.now }
    requires few { length entries.now ≤ MOST_ENTRIES }
    ensures headers { IfOk result (λ t. HoldsLinked genesis.now entries.now t.headers) }
    ensures tree { IfOk result (λ t. IsHeaderTree genesis.now t.headers) }
{
    let known = known_headers(alloc, genesis, entries)?;
    let headers = by_view(known);
    linked_headers(alloc, genesis, &headers)
}
