//! Ancestors in a stored fork. Headers and ids are those of an independent program.

ghost use Rattle.std.specs.Prelude.{IsTrue};
ghost use Rattle.std.specs.List.{AllPairs};
ghost use Rattle.blocks.specs.Headers.{HasLowerId, IsGenesis};
ghost use Rattle.ancestry.specs.Known.{IsAloneAmong};

use ancestry::Ancestry;
use blocks::{Header, Id, NamedHeader};
use std::alloc::Global;
use std::cmp::Ordering;
use std::test::Fail;
use test_fixtures::fork_headers as fork;

fn stored(text: &[u8]) -> Result<NamedHeader, Fail> {
    let header = Header::from_bytes(text).ok();
    Ok(NamedHeader::of(header.ok_or("the header is refused")?))
}

fn is_genesis(h: &NamedHeader) -> bool
    ensures { IsTrue result → IsGenesis h.now }
{
    h.header().view == 0 && h.header().parent_view == 0
}

fn is_lower(a: &NamedHeader, b: &NamedHeader) -> bool
    ensures { IsTrue result → HasLowerId a.now b.now }
{
    match a.id().cmp(b.id()) {
        Ordering::Less => true,
        _ => false,
    }
}

// Whether ids rise.
fn rise(headers: &[NamedHeader]) -> bool
    ensures { IsTrue result → AllPairs HasLowerId headers.now }
{
    for k in 1..headers.len() {
        if !is_lower(&headers[k - 1], &headers[k]) {
            return false;
        }
    }
    true
}

// Whether none has the id of genesis.
fn are_others(genesis: &NamedHeader, headers: &[NamedHeader]) -> bool
    ensures { IsTrue result → IsAloneAmong genesis.now headers.now }
{
    for h in headers {
        if h.id() == genesis.id() {
            return false;
        }
    }
    true
}

// The headers that the texts spell.
fn headers(alloc: Global, texts: &[&'static [u8]]) -> Result<Vec<NamedHeader>, Fail> {
    let mut headers = Vec::new(alloc);
    for text in texts {
        headers.push(stored(text)?)?;
    }
    Ok(headers)
}

// The index of genesis and of these headers.
fn index(alloc: Global, mut headers: Vec<NamedHeader>) -> Result<Ancestry, Fail> {
    let genesis = stored(fork::genesis())?;
    headers.sort_unstable_by_key(|h| *h.id());
    if is_genesis(&genesis) && rise(&headers) && are_others(&genesis, &headers) {
        Ok(Ancestry::build(alloc, genesis, &headers)?)
    } else {
        Err("no index".into())
    }
}

// The index of both branches.
fn fork_index(alloc: Global) -> Result<Ancestry, Fail> {
    let texts = [
        fork::a1(),
        fork::a2(),
        fork::a3(),
        fork::a7(),
        fork::b4(),
        fork::b5(),
        fork::b6(),
        fork::b8(),
    ];
    index(alloc, headers(alloc, &texts)?)
}

// Whether the block of the first header is an ancestor of that of the second.
fn is_ancestor(known: &Ancestry, first: &[u8], second: &[u8]) -> Result<Option<bool>, Fail> {
    let first = stored(first)?;
    let second = stored(second)?;
    Ok(known.is_ancestor(first.id(), second.id()))
}

// Whether the block of this header has a chain.
fn is_linked(known: &Ancestry, text: &[u8]) -> Result<bool, Fail> {
    Ok(known.linked(stored(text)?.id()))
}

// An id that no block has.
const STRANGE: Id = [7; 32];

// Each block is an ancestor of those on it, on its side alone.
#[test]
fn ancestors_of_a_fork(rt: HostRuntime) -> Result<(), Fail> {
    let known = fork_index(rt.alloc())?;
    for (case, first, second, want) in [
        ("A1 of A3", fork::a1(), fork::a3(), true),
        ("A3 of A3", fork::a3(), fork::a3(), false),
        ("A1 of B4", fork::a1(), fork::b4(), false),
        ("A3 of A1", fork::a3(), fork::a1(), false),
        ("A1 of A7", fork::a1(), fork::a7(), true),
        ("B4 of B8", fork::b4(), fork::b8(), true),
        ("genesis of B8", fork::genesis(), fork::b8(), true),
        ("B8 of genesis", fork::b8(), fork::genesis(), false),
    ] {
        let found = is_ancestor(&known, first, second)?;
        assert!(rt; found == Some(want), "{case}");
    }
    Ok(())
}

// Whether the strange id has no chain, and it and this block have no place to one another.
fn has_no_place(known: &Ancestry, block: &NamedHeader) -> bool {
    known.is_ancestor(block.id(), &STRANGE) == None
        && known.is_ancestor(&STRANGE, block.id()) == None
        && !known.linked(&STRANGE)
}

#[test]
fn a_strange_id_has_no_place(rt: HostRuntime) -> Result<(), Fail> {
    let a1 = stored(fork::a1())?;
    let known = fork_index(rt.alloc())?;
    assert!(rt; has_no_place(&known, &a1));
    Ok(())
}

// The stored ids are those of an independent program.
#[test]
fn a_block_is_found_by_its_id(rt: HostRuntime) -> Result<(), Fail> {
    let a3 = fork::id_of_a3().as_array().ok_or("no id")?;
    let b8 = stored(fork::b8())?;
    let known = fork_index(rt.alloc())?;
    assert!(rt; known.linked(a3) && known.linked(b8.id()));
    Ok(())
}

// Genesis is linked though it is not among the headers, and without its parent a block is not.
#[test]
fn a_missing_parent_ends_the_chain(rt: HostRuntime) -> Result<(), Fail> {
    let headers = headers(rt.alloc(), &[fork::a1(), fork::a3(), fork::a7()])?;
    let known = index(rt.alloc(), headers)?;
    for (case, text, want) in [
        ("genesis", fork::genesis(), true),
        ("A1", fork::a1(), true),
        ("A3", fork::a3(), false),
        ("A7", fork::a7(), false),
    ] {
        let linked = is_linked(&known, text)?;
        assert!(rt; linked == want, "{case}");
    }
    let found = is_ancestor(&known, fork::a3(), fork::a7())?;
    assert!(rt; found == None);
    Ok(())
}

// A header on this parent, which it says has the view 2.
fn lying_on(parent: &NamedHeader) -> NamedHeader {
    NamedHeader::of(Header {
        view: 9,
        parent_view: 2,
        parent: *parent.id(),
        payload: [0; 32],
    })
}

// A header on this parent, which has the view 9.
fn above(parent: &NamedHeader) -> NamedHeader {
    NamedHeader::of(Header {
        view: 10,
        parent_view: 9,
        parent: *parent.id(),
        payload: [0; 32],
    })
}

// The index of A1, A2 and A3, a header that lies, and one on that.
fn index_with(alloc: Global, lying: NamedHeader) -> Result<Ancestry, Fail> {
    let mut headers = headers(alloc, &[fork::a1(), fork::a2(), fork::a3()])?;
    headers.push(lying)?;
    headers.push(above(&lying))?;
    index(alloc, headers)
}

// Whether neither a header that lies nor one on that has a chain.
fn is_cut_at(known: &Ancestry, lying: &NamedHeader) -> bool {
    !known.linked(lying.id()) && !known.linked(above(lying).id())
}

// A header whose parent's view is not that of its parent has no chain, and nothing that stands on it has one.
#[test]
fn lying_parent_view(rt: HostRuntime) -> Result<(), Fail> {
    let a1 = stored(fork::a1())?;
    let a3 = stored(fork::a3())?;
    let lying = lying_on(&a3);
    let known = index_with(rt.alloc(), lying)?;
    assert!(rt; known.linked(a3.id()));
    assert!(rt; is_cut_at(&known, &lying));
    assert!(rt; known.is_ancestor(a1.id(), lying.id()) == None);
    Ok(())
}

// A block of two chains: on the first, or on that which leaves it; and how high it stands above genesis.
#[derive(Clone, Copy)]
struct Placed {
    block: NamedHeader,
    aside: bool,
    height: u64,
}

// How high the last block stands that both chains have.
const FORK: u64 = 150;

// Whether the first block stands in the chain of the second, after the second itself, as the chains were built.
fn stands_above(first: &Placed, second: &Placed) -> bool {
    if first.aside == second.aside {
        first.height < second.height
    } else {
        second.aside && first.height <= FORK
    }
}

// The next block on this one. On either chain views rise by 3.
fn next_on(parent: &Placed, aside: bool) -> Result<Placed, Fail> {
    let height = parent.height.saturating_add(1);
    let view = height.saturating_mul(3).saturating_add(u64::from(aside));
    let parent_view = parent.block.header().view;
    if view <= parent_view {
        return Err("views do not rise".into());
    }
    let block = NamedHeader::of(Header {
        view,
        parent_view,
        parent: *parent.block.id(),
        payload: [u8::from(aside); 32],
    });
    Ok(Placed {
        block,
        aside,
        height,
    })
}

// Adds so many blocks on this one.
fn grow(blocks: &mut Vec<Placed>, parent: Placed, count: usize, aside: bool) -> Result<(), Fail> {
    let mut last = parent;
    for _ in 0..count {
        last = next_on(&last, aside)?;
        blocks.push(last)?;
    }
    Ok(())
}

// Genesis with 300 blocks on it, and 100 on the block in their middle.
fn two_chains(alloc: Global) -> Result<Vec<Placed>, Fail> {
    let genesis = Placed {
        block: stored(fork::genesis())?,
        aside: false,
        height: 0,
    };
    let mut blocks = Vec::new(alloc);
    blocks.push(genesis)?;
    grow(&mut blocks, genesis, 300, false)?;
    let middle = *blocks.get(150).ok_or("the chain is short")?;
    grow(&mut blocks, middle, 100, true)?;
    Ok(blocks)
}

// The index of these blocks.
fn index_of(alloc: Global, blocks: &[Placed]) -> Result<Ancestry, Fail> {
    let mut headers = Vec::new(alloc);
    for placed in blocks {
        if placed.height > 0 {
            headers.push(placed.block)?;
        }
    }
    index(alloc, headers)
}

// Whether each block is told to be an ancestor of this one where it stands above it, and of no other.
fn has_its_ancestors(known: &Ancestry, blocks: &[Placed], second: &Placed) -> bool {
    for first in blocks {
        let found = known.is_ancestor(first.block.id(), second.block.id());
        if found != Some(stands_above(first, second)) {
            return false;
        }
    }
    true
}

// Of each two blocks of long chains that fork.
#[test]
fn ancestors_on_long_chains(rt: HostRuntime) -> Result<(), Fail> {
    let blocks = two_chains(rt.alloc())?;
    let known = index_of(rt.alloc(), &blocks)?;
    assert!(rt; blocks.len() == 401);
    for second in &blocks {
        assert!(rt; has_its_ancestors(&known, &blocks, second));
    }
    Ok(())
}
