//! An index of headers.

ghost use Rattle.std.specs.Prelude.{◌≡◌, ◌≢◌, ◌<◌, ◌≤◌, ◌+◌, ◌↔◌, ◌∷◌, IsTrue, IsSome, IfOk, IfSome, MatchOption, length};
ghost use Rattle.std.specs.List.{All, AllPairs, Contains};
ghost use Rattle.blocks.specs.Headers.{Header as HeaderValue, header_id};
ghost use Rattle.blocks.specs.Chains.{IsLinked, IsAncestor};
ghost use Rattle.blocks.specs.Headers.{HasLowerId};
ghost use Rattle.ancestry.specs.Known.{all_of, IsAloneAmong, IsKnown, IsLinkedId, IsAncestorId};
ghost use Rattle.ancestry.specs.Links.{header_at, LeadsTo, IsLink, IsStep, IsEnd};

use crate::links::{ChainLink, by_view, links_of};
use crate::positions::{header_at, place_of, position_of};
use blocks::{Id, NamedHeader};
use std::alloc::{AllocError, Global};
use std::marker::Model;

/// Headers in which chains to genesis are followed. Contracts see genesis and the headers. An answer costs a
/// search of the sorted ids, and a number of steps that grows with the logarithm of the chain; it takes no memory.
#[derive(Drop)]
pub struct Ancestry {
    genesis: NamedHeader,
    headers: Vec<NamedHeader>,
    links: Vec<ChainLink>,
}

impl Model for Ancestry {
    ghost use Rattle.ancestry.specs.Known.{Known};
    ghost use Rattle.ancestry.specs.Links.{IsIndex};

    ghost Value = { Known };

    ghost view = { λ a. record { genesis = a.genesis; headers = a.headers.items } };

    ghost invariant = { λ a. IsIndex (record {
      genesis = a.genesis;
      headers = a.headers.items;
    }) a.links.items };
}

/// The header of this id, among headers whose ids rise strictly, byte by byte from the first; None where none
/// of them has it. A binary search.
pub fn header_of(headers: &[NamedHeader], id: &Id) -> Option<NamedHeader>
    requires { AllPairs HasLowerId headers.now }
    ensures { MatchOption result (All (λ h. header_id h ≢ id.now) headers.now)
        (λ h. Contains headers.now h × (header_id h ≡ id.now)) }
{
    let k = place_of(headers, id)?;
    Some(headers[k])
}

// Whether two blocks have one id.
fn same_id(a: &NamedHeader, b: &NamedHeader) -> bool
    ensures { IsTrue result ↔ (header_id a.now ≡ header_id b.now) }
{
    a.id() == b.id()
}

impl Ancestry {
    /// The index of `genesis` and these headers, whose ids rise strictly, byte by byte from the first. Genesis
    /// may stand among them; no other header may have its id. Memory is refused where it could not have 128 bytes
    /// for each header, and 24 more for each while it runs.
    pub fn build(
        alloc: Global,
        genesis: NamedHeader,
        headers: &[NamedHeader],
    ) -> Result<Ancestry, AllocError>
        requires rising { AllPairs HasLowerId headers.now }
        requires alone { IsAloneAmong genesis headers.now }
        ensures ok { IfOk result (λ a. a ≡ record { genesis = genesis; headers = headers.now }) }
    {
        let links = links_of(alloc, &genesis, headers)?;
        let mut index = Ancestry {
            genesis,
            headers: headers.to_vec(alloc)?,
            links,
        };
        index.set_jumps(alloc)?;
        Ok(index)
    }

    // Gives each header a jump, parents first. That the steps of an answer are few then is no clause; it only
    // saves time, and answers are right whatever the order and the jumps.
    fn set_jumps(&mut self, alloc: Global) -> Result<(), AllocError>
        ensures { self.new ≡ self.old }
    {
        let order = by_view(alloc, &self.headers)?;
        let mut lengths = vec![in alloc; 0; self.links.len()]?;
        for (_, at) in &order {
            self.set_jump(&mut lengths, *at);
        }
        Ok(())
    }

    // Gives the header at this position a jump, and notes how many blocks down it is.
    fn set_jump(&mut self, lengths: &mut [u64], at: usize)
        requires at_in { at ≤ length self.old.headers }
        requires lengths { length lengths.old ≡ length self.old.headers + 1 }
        ensures { self.new ≡ self.old }
    {
        let (jump, length) = self.jump_of(lengths, at);
        self.links[at].jump = jump;
        lengths[at] = length;
    }

    // Where the jump of the header at this position ends, and its length: over the next two jumps where they are
    // of one length, and else at the parent (Myers, "An applicative random-access stack", 1983).
    fn jump_of(&self, lengths: &[u64], at: usize) -> (usize, u64)
        requires at_in { at ≤ length self.now.headers }
        requires lengths { length lengths.now ≡ length self.now.headers + 1 }
        ensures jump_in { result.0 ≤ length self.now.headers }
        ensures jump { LeadsTo self.now (header_at self.now at) (header_at self.now result.0) }
    {
        let parent = self.link(at).parent;
        if self.view_at(at) <= self.view_at(parent) {
            return (at, 0);
        }
        let middle = self.link(parent).jump;
        if lengths[parent] != lengths[middle] {
            return (parent, 1);
        }
        let length = lengths[parent].saturating_mul(2).saturating_add(1);
        (self.link(middle).jump, length)
    }

    /// The genesis of the chains.
    pub fn genesis(&self) -> NamedHeader
        ensures { result ≡ self.now.genesis }
    {
        self.genesis
    }

    /// The headers that it was built of, by rising id.
    pub fn headers(&self) -> &[NamedHeader]
        ensures value { result.now ≡ self.now.headers }
        ensures known { IsKnown self.now }
    {
        &self.headers
    }

    // The position of the known header of this id.
    fn position(&self, id: &Id) -> Option<usize>
        ensures position { MatchOption result ((h : HeaderValue) → Contains (all_of self.now) h
            → header_id h ≢ id.now) (λ k. (k ≤ length self.now.headers)
            × (header_id (header_at self.now k) ≡ id.now)) }
        ensures known { IsKnown self.now }
    {
        position_of(&self.genesis, &self.headers, id)
    }

    fn header(&self, at: usize) -> &NamedHeader
        ensures header { result.now ≡ header_at self.now at }
        ensures known { IsKnown self.now }
    {
        header_at(&self.genesis, &self.headers, at)
    }

    // The view of the header at this position.
    fn view_at(&self, at: usize) -> u64
        ensures { result ≡ (header_at self.now at).view }
    {
        self.header(at).header().view
    }

    // The link of the header at this position.
    fn link(&self, at: usize) -> ChainLink
        requires { at ≤ length self.now.headers }
        ensures link { IsLink self.now at result }
        ensures known { IsKnown self.now }
    {
        self.links[at]
    }

    // The next position on the way down to a block of this view: where the jump ends, if it does not pass the
    // view, and else that of the parent. None where the view is reached, or the parent is not known.
    fn step(&self, at: usize, view: u64) -> Option<usize>
        requires { at ≤ length self.now.headers }
        ensures { MatchOption result (IsEnd self.now at view) (IsStep self.now at view) }
    {
        let here = self.view_at(at);
        if view < here {
            let link = self.link(at);
            let far = self.view_at(link.jump);
            if view <= far && far < here {
                return Some(link.jump);
            }
            if self.view_at(link.parent) < here {
                return Some(link.parent);
            }
        }
        None
    }

    // Whether the chain of the header at this position leads to the header a. Each leads to itself.
    fn leads_to(&self, from: usize, a: &NamedHeader) -> bool
        requires from_in { from ≤ length self.now.headers }
        requires there { Contains (all_of self.now) a.now }
        ensures { IsTrue result ↔ LeadsTo self.now (header_at self.now from) a.now }
    {
        let view = a.header().view;
        let mut at = from;
        while let Some(next) = self.step(at, view) {
            at = next;
        }
        same_id(self.header(at), a)
    }

    // Whether the header at this position has a chain to genesis.
    fn has_chain(&self, at: usize) -> bool
        requires { at ≤ length self.now.headers }
        ensures { IsTrue result ↔ IsLinked (all_of self.now) self.now.genesis
            (header_at self.now at) }
    {
        self.leads_to(at, &self.genesis)
    }

    /// Whether a header of this id is known and has a chain to genesis: each block names the next as its parent,
    /// by id and view, and views fall. Genesis is linked.
    pub fn linked(&self, id: &Id) -> bool
        ensures { IsTrue result ↔ IsLinkedId self.now id.now }
    {
        match self.position(id) {
            Some(at) => self.has_chain(at),
            None => false,
        }
    }

    // Whether the block a stands above the block b in its chain.
    fn stands_above(&self, a: usize, b: usize) -> bool
        requires a_in { a ≤ length self.now.headers }
        requires b_in { b ≤ length self.now.headers }
        requires linked { IsLinked (all_of self.now) self.now.genesis (header_at self.now a) }
        ensures { IsTrue result ↔ IsAncestor (all_of self.now) self.now.genesis
            (header_at self.now a) (header_at self.now b) }
    {
        let above = self.header(a);
        if same_id(above, self.header(b)) {
            return false;
        }
        self.leads_to(b, above)
    }

    /// Whether the block a stands in the chain of the block b, after b itself; no block is its own ancestor.
    /// None where a or b is not linked.
    pub fn is_ancestor(&self, a: &Id, b: &Id) -> Option<bool>
        ensures linked { IsSome result ↔ (IsLinkedId self.now a.now × IsLinkedId self.now b.now) }
        ensures ancestor { IfSome result (λ is. IsTrue is ↔ IsAncestorId self.now a.now b.now) }
    {
        let first = self.position(a)?;
        let second = self.position(b)?;
        if !self.has_chain(first) || !self.has_chain(second) {
            return None;
        }
        Some(self.stands_above(first, second))
    }
}
