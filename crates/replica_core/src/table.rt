//! Headers, each found by its id.

ghost use Rattle.std.specs.Prelude.{◌≡◌, ◌++◌, ◌<◌, ◌↔◌, [], ◌∷◌, length, IsOk, IsTrue, OnOk, MatchOption};
ghost use Rattle.std.specs.List.{Contains};
ghost use Rattle.blocks.specs.Chains.{NoCollision};
ghost use Rattle.blocks.specs.Headers.{header_id};
ghost use Rattle.blocks.specs.Chains.{HasNone};
ghost use Rattle.replica_core.specs.Tables.{AddsFirst, AllDiffer, HasId, HasIdAlone};

use blocks::{Header, Id, NamedHeader};
use std::alloc::{AllocError, Global};
use std::collections::HashMap;
use std::marker::Model;

/// Headers in the order in which they came, no two with one id. Contracts see the list, and how many more
/// headers there is room for.
#[derive(Drop)]
pub struct HeaderTable {
    headers: Vec<Header>,
    places: HashMap<Id, usize>,
}

impl Model for HeaderTable {
    ghost use Rattle.std.specs.Prelude.{◌-◌, min, vec_len, vec_capacity};
    ghost use Rattle.std.specs.Str.{bytes_eq};
    ghost use Rattle.std.specs.HashMap.{get, spare};
    ghost use Rattle.replica_core.specs.Tables.{HeaderTable as HeaderTableValue, ArePlacesById};

    ghost Value = { HeaderTableValue };

    ghost view = { λ t. record {
      headers = t.headers.items;
      room = min (spare t.places) (vec_capacity t.headers - vec_len t.headers);
    } };

    ghost invariant = { λ t. ArePlacesById t.headers.items (get bytes_eq t.places) };
}

impl HeaderTable {
    /// An empty table, which takes no memory.
    pub fn new(alloc: Global) -> HeaderTable
        ensures { result.headers ≡ [] }
    {
        HeaderTable {
            headers: Vec::new(alloc),
            places: HashMap::new(alloc),
        }
    }

    /// How many headers there are.
    pub fn len(&self) -> usize
        ensures { result ≡ length self.now.headers }
    {
        self.headers.len()
    }

    /// The header of this id.
    pub fn get(&self, id: &Id) -> Option<&Header>
        ensures found { MatchOption result (HasNone self.now.headers id.now) (λ h.
            HasId self.now.headers id.now h.now) }
        ensures apart { NoCollision self.now.headers }
        ensures once { AllDiffer self.now.headers }
    {
        let place = *self.places.get(id)?;
        Some(&self.headers[place])
    }

    /// Whether the header is there.
    pub fn holds(&self, header: &NamedHeader) -> bool
        ensures { IsTrue result ↔ Contains self.now.headers header.now }
    {
        match self.get(header.id()) {
            Some(held) => *held == *header.header(),
            None => false,
        }
    }

    /// Whether no other header has the header's id.
    pub fn has_own_id(&self, header: &NamedHeader) -> bool
        ensures { IsTrue result ↔ HasIdAlone self.now.headers header.now }
    {
        match self.get(header.id()) {
            Some(held) => *held == *header.header(),
            None => true,
        }
    }

    /// Makes room for one more header. The headers stay, also where memory is refused.
    pub fn reserve(&mut self) -> Result<(), AllocError>
        ensures same { self.new.headers ≡ self.old.headers }
        ensures ok { OnOk result (0 < self.new.room) }
        ensures succeeds { 0 < self.old.room → IsOk result }
    {
        self.headers.reserve(1)?;
        self.places.reserve(1)?;
        Ok(())
    }

    /// Puts a header of a new id at the end.
    pub fn push_reserved(&mut self, header: &NamedHeader)
        requires room { 0 < self.old.room }
        requires new_id { HasNone self.old.headers (header_id header.now) }
        ensures headers { self.new.headers ≡ self.old.headers ++ header.now ∷ [] }
        ensures apart { NoCollision self.new.headers }
        ensures once { AllDiffer self.new.headers }
    {
        let _ = self.places.insert(*header.id(), self.headers.len());
        self.headers.push_reserved(*header.header());
    }

    /// Puts a header at the end, unless one of its id is there.
    pub fn add_first(&mut self, header: &NamedHeader) -> Result<(), AllocError>
        ensures ok { OnOk result (AddsFirst self.old.headers self.new.headers header.now) }
        ensures apart { OnOk result (NoCollision self.new.headers) }
        ensures once { OnOk result (AllDiffer self.new.headers) }
    {
        if self.get(header.id()).is_some() {
            return Ok(());
        }
        self.reserve()?;
        self.push_reserved(header);
        Ok(())
    }

    /// The headers alone.
    pub fn into_headers(self) -> Vec<Header>
        ensures headers { result.items ≡ self.headers }
        ensures apart { NoCollision self.headers }
    {
        let HeaderTable { headers, places } = self;
        drop(places);
        headers
    }
}
