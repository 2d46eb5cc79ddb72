//! Headers by the parent that they name.

ghost use Rattle.std.specs.Prelude.{◌≡◌, ◌↔◌, IfOk};
ghost use Rattle.std.specs.List.{Contains};
ghost use Rattle.blocks.specs.Headers.{Header as HeaderValue};

use blocks::{Id, NamedHeader};
use std::alloc::{AllocError, Global};
use std::marker::Model;

/// Headers in the order of the ids of the parents that they name, so that those on one block stand together.
/// Contracts see the headers.
#[derive(Drop)]
pub struct ByParent {
    headers: Vec<NamedHeader>,
}

impl Model for ByParent {
    ghost use Rattle.std.specs.Prelude.{List};
    ghost use Rattle.blocks.specs.Headers.{Header as HeaderValue};
    ghost use Rattle.audit_commits.specs.Successors.{ParentsRise};

    ghost Value = { List HeaderValue };

    ghost view = { λ b. b.headers.items };

    ghost invariant = { λ b. ParentsRise b.headers.items };
}

// The id of the parent that a header names.
fn parent_id(h: &NamedHeader) -> Id
    ensures { result ≡ h.now.parent }
{
    h.header().parent
}

impl ByParent {
    /// These headers. Memory is refused where they could not be copied.
    pub fn of(alloc: Global, headers: &[NamedHeader]) -> Result<ByParent, AllocError>
        ensures { IfOk result (λ sorted. (h : HeaderValue) → Contains sorted h
            ↔ Contains headers.now h) }
    {
        let mut sorted = headers.to_vec(alloc)?;
        sorted.sort_unstable_by_key(
            |h: &NamedHeader| -> Id
                ensures { result ≡ h.now.parent }
            { parent_id(h) },
        );
        Ok(ByParent { headers: sorted })
    }

    /// Those that name this id for their parent. Two binary searches.
    pub fn on(&self, id: &Id) -> &[NamedHeader]
        ensures { (h : HeaderValue) → Contains result.now h
            ↔ (Contains self.now h × (h.parent ≡ id.now)) }
    {
        let start = self
            .headers
            .partition_point(|h| parent_id(h).cmp(id).is_lt());
        let rest = &self.headers[start..];
        let len = rest.partition_point(|h| parent_id(h).cmp(id).is_le());
        &rest[..len]
    }
}
