//! Headers in the order of their ids, each once.

ghost use Rattle.std.specs.Prelude.{◌≡◌, [], IfOk, OnOk, OnErr, MatchOption};
ghost use Rattle.std.specs.List.{All, AllPairs, Contains};
ghost use Rattle.blocks.specs.Headers.{HasLowerId, header_id};
ghost use Rattle.blocks.specs.Chains.{HasNone};
ghost use Rattle.audit_evidence.specs.Evidence.{IsNotBelowParent};
ghost use Rattle.audit_evidence.specs.Gathering.{Gains};

use base_shared::Shared;
use blocks::{Id, NamedHeader};
use std::alloc::{AllocError, Global};
use std::collections::BTreeMap;
use std::marker::Model;

/// Headers whose ids rise, so that no two have one id. Contracts see the list.
#[derive(Drop)]
pub struct HeaderSet {
    headers: BTreeMap<Id, Shared<NamedHeader>>,
}

impl Model for HeaderSet {
    ghost use Rattle.std.specs.Prelude.{List};
    ghost use Rattle.std.specs.BTreeMap.{values};
    ghost use Rattle.blocks.specs.Headers.{Header as HeaderValue};
    ghost use Rattle.audit_evidence.specs.Keyed.{AreById};

    ghost Value = { List HeaderValue };

    ghost view = { λ s. values s.headers };

    ghost invariant = { λ s. AreById s.headers.entries };
}

impl HeaderSet {
    /// No headers.
    pub fn new(alloc: Global) -> HeaderSet
        ensures { result ≡ [] }
    {
        HeaderSet {
            headers: BTreeMap::new(alloc),
        }
    }

    /// The header of this id.
    pub fn get(&self, id: &Id) -> Option<&Shared<NamedHeader>>
        ensures { MatchOption result (HasNone self.now id.now) (λ h. Contains self.now h.now
            × (header_id h.now ≡ id.now)) }
    {
        self.headers.get(id)
    }

    /// Adds a header of a new id. Where memory is refused nothing changes.
    pub fn insert(&mut self, header: Shared<NamedHeader>) -> Result<(), AllocError>
        requires { HasNone self.old (header_id header) }
        ensures ok { OnOk result (Gains self.old self.new (λ h. h ≡ header)) }
        ensures err { OnErr result (self.new ≡ self.old) }
    {
        let block = header.get().header();
        prove!(block.parent_view <= block.view);
        let _ = self.headers.insert(*header.get().id(), header)?;
        Ok(())
    }

    /// The headers themselves, by rising id.
    pub fn copies(&self, alloc: Global) -> Result<Vec<NamedHeader>, AllocError>
        ensures headers { IfOk result (λ headers. headers.items ≡ self.now) }
        ensures rising { OnOk result (AllPairs HasLowerId self.now) }
        ensures falling { OnOk result (All IsNotBelowParent self.now) }
    {
        let mut copies = Vec::new(alloc);
        for header in self.headers.values() {
            copies.push(*header.get())?;
        }
        Ok(copies)
    }

    /// The headers by rising id.
    pub fn into_vec(self, alloc: Global) -> Result<Vec<Shared<NamedHeader>>, AllocError>
        ensures headers { IfOk result (λ headers. headers.items ≡ self) }
        ensures rising { AllPairs HasLowerId self }
        ensures falling { All IsNotBelowParent self }
    {
        self.headers.into_values().collect(alloc)
    }
}
