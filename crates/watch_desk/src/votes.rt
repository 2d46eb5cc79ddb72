//! Votes of a source that are not good, each once.

ghost use Rattle.std.specs.Prelude.{◌≡◌, ◌↔◌, IfOk, IsTrue, OnOk};
ghost use Rattle.std.specs.List.{Contains};
ghost use Rattle.certificates.specs.declared.vote.SignedVote.{SignedVote as SignedVoteValue};
ghost use Rattle.watch_desk.specs.Sources.{AreTheBad, GainsOnce, larger, top_from};

use base_shared::Shared;
use certificates::SignedVote;
use std::alloc::{AllocError, Global};
use watch_collector::Collector;

// Whether the vote is one of these.
fn has_vote(votes: &[Shared<SignedVote>], vote: &Shared<SignedVote>) -> bool
    ensures { IsTrue result ↔ Contains votes.now vote.now }
{
    votes.contains(vote)
}

/// Adds votes to a list, each once.
pub(crate) fn add_each(
    list: &mut Vec<Shared<SignedVote>>,
    votes: &[Shared<SignedVote>],
) -> Result<(), AllocError>
    ensures { OnOk result (GainsOnce list.old.items list.new.items (Contains votes.now)) }
{
    for vote in votes {
        if !has_vote(list, vote) {
            list.push(vote.again()?)?;
        }
    }
    Ok(())
}

/// The votes again, with one more owner each.
pub(crate) fn copies(
    alloc: Global,
    votes: &[Shared<SignedVote>],
) -> Result<Vec<Shared<SignedVote>>, AllocError>
    ensures { IfOk result (λ all. all.items ≡ votes.now) }
{
    let mut all = Vec::new(alloc);
    for vote in votes {
        all.push(vote.again()?)?;
    }
    Ok(all)
}

/// Those of some votes, which came, that are not good.
pub(crate) fn bad_votes(
    alloc: Global,
    collector: &Collector,
    votes: &[Shared<SignedVote>],
) -> Result<Vec<Shared<SignedVote>>, AllocError>
    requires { (v : SignedVoteValue) → Contains votes.now v
        → Contains collector.now.gathered.votes v }
    ensures { IfOk result (λ bad.
        AreTheBad collector.now.gathered.committee votes.now bad.items) }
{
    let mut bad = Vec::new(alloc);
    for vote in votes {
        if collector.is_bad(vote) {
            bad.push(vote.again()?)?;
        }
    }
    Ok(bad)
}

/// The larger one.
pub(crate) fn larger(a: u64, b: u64) -> u64
    ensures { result ≡ larger a b }
{
    if a < b { b } else { a }
}

/// The greatest view of some votes, or one that is greater.
pub(crate) fn top_from(from: u64, votes: &[Shared<SignedVote>]) -> u64
    ensures { result ≡ top_from from votes.now }
{
    let mut top = from;
    for vote in votes {
        top = larger(top, vote.get().view);
    }
    top
}
