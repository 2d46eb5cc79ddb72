//! Votes by the block that they are for.

ghost use Rattle.std.specs.Prelude.{◌≡◌, ◌↔◌, IfOk, map};
ghost use Rattle.std.specs.List.{Contains};
ghost use Rattle.blocks.specs.Headers.{header_id};
ghost use Rattle.audit_commits.specs.Casts.{AreCasts, cast_of};
ghost use Rattle.audit_commits.specs.declared.by_ballot.Cast.{Cast as CastValue};

use base_shared::Shared;
use blocks::{Id, NamedHeader};
use certificates::SignedVote;
use std::alloc::{AllocError, Global};
use std::marker::Model;

/// Who voted for what: a vote without its key and its signature.
#[derive(Clone, Copy)]
pub struct Cast {
    /// The view of the block.
    pub view: u64,
    /// The block's id.
    pub id: Id,
    /// Who voted.
    pub replica: u16,
}

// What a vote is for, and whose it is.
fn cast_of(vote: &Shared<SignedVote>) -> Cast
    ensures { result ≡ cast_of vote.now }
{
    let vote = vote.get();
    Cast {
        view: vote.view,
        id: vote.id,
        replica: vote.replica,
    }
}

// The same of each vote.
fn casts_of(alloc: Global, votes: &[Shared<SignedVote>]) -> Result<Vec<Cast>, AllocError>
    ensures { IfOk result (λ casts. casts.items ≡ map cast_of votes.now) }
{
    votes.iter().map(cast_of).collect(alloc)
}

/// Votes in the order of the views and the ids of their blocks, so that those for one block stand together. Contracts see
/// who voted for what.
#[derive(Drop)]
pub struct ByBallot {
    casts: Vec<Cast>,
}

impl Model for ByBallot {
    ghost use Rattle.std.specs.Prelude.{List};
    ghost use Rattle.audit_commits.specs.Casts.{CastsRise};
    ghost use Rattle.audit_commits.specs.declared.by_ballot.Cast.{Cast as CastValue};

    ghost Value = { List CastValue };

    ghost view = { λ b. b.casts.items };

    ghost invariant = { λ b. CastsRise b.casts.items };
}

impl ByBallot {
    /// These votes. Memory is refused where what they are for could not be copied.
    pub fn of(alloc: Global, votes: &[Shared<SignedVote>]) -> Result<ByBallot, AllocError>
        ensures { IfOk result (AreCasts votes.now) }
    {
        let mut casts = casts_of(alloc, votes)?;
        casts.sort_unstable_by_key(
            |cast: &Cast| -> (u64, Id)
                ensures { result ≡ (cast.now.view, cast.now.id) }
            { (cast.view, cast.id) },
        );
        Ok(ByBallot { casts })
    }

    /// Those for this block. Two binary searches.
    pub fn on(&self, block: &NamedHeader) -> &[Cast]
        ensures { (c : CastValue) → Contains result.now c
            ↔ (Contains self.now c × (c.view ≡ block.now.view) × (c.id ≡ header_id block.now)) }
    {
        let wanted = (block.header().view, *block.id());
        let start = self
            .casts
            .partition_point(|cast| (cast.view, cast.id).cmp(&wanted).is_lt());
        let rest = &self.casts[start..];
        let len = rest.partition_point(|cast| (cast.view, cast.id).cmp(&wanted).is_le());
        &rest[..len]
    }
}
