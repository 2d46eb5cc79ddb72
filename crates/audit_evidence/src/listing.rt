//! What logs name, in order.

ghost use Rattle.std.specs.Prelude.{◌≡◌, IfOk};
ghost use Rattle.audit_evidence.specs.Gathering.{IsInOrder};

use base_shared::Shared;
use blocks::{CommitteeView, NamedHeader};
use certificates::SignedVote;
use std::alloc::{AllocError, Global};
use std::marker::Model;

/// What logs name under a committee: headers by rising id, and votes that rise, none of which was checked. Made by
/// `Gathered::in_order` alone.
#[derive(Drop)]
pub struct Listing<'a> {
    pub(crate) committee: CommitteeView<'a>,
    pub(crate) headers: Vec<NamedHeader>,
    pub(crate) votes: Vec<Shared<SignedVote>>,
}

impl<'a> Model for Listing<'a> {
    ghost use Rattle.audit_evidence.specs.Gathering.{Gathered as GatheredValue, IsInOrder};

    ghost Value = { GatheredValue };

    ghost view = { λ l. record {
      committee = l.committee;
      headers = l.headers.items;
      votes = l.votes.items;
    } };

    ghost invariant = { λ l. IsInOrder (record {
      committee = l.committee;
      headers = l.headers.items;
      votes = l.votes.items;
    }) };
}

impl<'a> Listing<'a> {
    /// The headers by rising id.
    pub fn headers(&self) -> &[NamedHeader]
        ensures { result.now ≡ self.now.headers }
    {
        &self.headers
    }

    /// The votes by rising replica, view, id, key and signature.
    pub fn votes(&self) -> &[Shared<SignedVote>]
        ensures value { result.now ≡ self.now.votes }
        ensures in_order { IsInOrder self.now }
    {
        &self.votes
    }
}

// The headers themselves.
pub(crate) fn copies(
    alloc: Global,
    headers: &[Shared<NamedHeader>],
) -> Result<Vec<NamedHeader>, AllocError>
    ensures { IfOk result (λ copies. copies.items ≡ headers.now) }
{
    let mut copies = Vec::new(alloc);
    for header in headers {
        copies.push(*header.get())?;
    }
    Ok(copies)
}
