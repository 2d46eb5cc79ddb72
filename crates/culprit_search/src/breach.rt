//! Whether two votes break a rule.

ghost use Rattle.std.specs.Prelude.{◌≡◌, ◌↔◌, IsTrue, MatchOption};
ghost use Rattle.blocks.specs.Rules.{IsDoubleVote};
ghost use Rattle.audit_evidence.specs.Evidence.{IsEvidence};
ghost use Rattle.certificates.specs.Votes.{ballot_of};
ghost use Rattle.audit_commits.specs.Culprits.{BreakARule, Shows};
ghost use Rattle.culprit_search.specs.Searches.{IsBlockOf, IsFoundAt, IsNoViolation, NoneIsAt, ShowsViolation};

use audit_evidence::Evidence;
use blocks::{Header, Id, NamedHeader};
use certificates::SignedVote;
use verdict_format::{Shown, VotedHeaders};

// The header of this id and view, if it is in evidence.
fn header_at(evidence: &Evidence, id: &Id, view: u64) -> Option<NamedHeader>
    ensures header { MatchOption result (NoneIsAt evidence.now.headers id.now view)
        (IsFoundAt evidence.now.headers id.now view) }
    ensures is_evidence { IsEvidence evidence.now }
{
    let found = evidence.header(id)?;
    if found.header().view == view {
        Some(found)
    } else {
        None
    }
}

/// The header of a vote's block, if it is in evidence.
pub fn block_of(evidence: &Evidence, vote: &SignedVote) -> Option<NamedHeader>
    ensures block { IsBlockOf evidence.now.headers vote.now result }
    ensures is_evidence { IsEvidence evidence.now }
{
    header_at(evidence, &vote.id, vote.view)
}

/// The header of the parent that a block names, if it is in evidence.
pub fn parent_of(evidence: &Evidence, block: &Header) -> Option<NamedHeader>
    ensures { MatchOption result
        (NoneIsAt evidence.now.headers block.now.parent block.now.parent_view)
        (IsFoundAt evidence.now.headers block.now.parent block.now.parent_view) }
{
    header_at(evidence, &block.parent, block.parent_view)
}

// Whether two votes of one replica are a double vote.
fn is_double_vote(v: &SignedVote, w: &SignedVote) -> bool
    ensures { IsTrue result ↔ IsDoubleVote (ballot_of v.now) (ballot_of w.now) }
{
    v.view == w.view && v.id != w.id
}

// The headers that show a lock violation, if they are in evidence. The block of the later vote is given.
fn lock_violation(
    evidence: &Evidence,
    v: &SignedVote,
    w: &SignedVote,
    later: &Header,
) -> Option<VotedHeaders>
    requires is_evidence { IsEvidence evidence.now }
    requires later { IsFoundAt evidence.now.headers w.now.id w.now.view later.now }
    ensures { MatchOption result (IsNoViolation evidence.now v.now w.now)
        (ShowsViolation evidence.now v.now w.now) }
{
    if v.view >= w.view {
        return None;
    }
    // Views fall towards genesis, so the lock of such a vote is not above the later block's parent.
    if v.view <= later.parent_view {
        return None;
    }
    let earlier = block_of(evidence, v)?;
    let parent = parent_of(evidence, earlier.header())?;
    if later.parent_view < parent.header().parent_view {
        Some(VotedHeaders {
            earlier: *earlier.header(),
            parent: *parent.header(),
            later: *later,
        })
    } else {
        None
    }
}

/// What shows that two votes of one replica break a rule, if they do by what is in evidence. The block of
/// the later vote is given, if it is in evidence.
pub fn what_shows(
    evidence: &Evidence,
    v: &SignedVote,
    w: &SignedVote,
    later: &Option<NamedHeader>,
) -> Option<Shown>
    requires is_evidence { IsEvidence evidence.now }
    requires later { IsBlockOf evidence.now.headers w.now later.now }
    ensures { MatchOption result (BreakARule evidence.now v.now w.now
        → ⊥) (Shows evidence.now v.now w.now) }
{
    if is_double_vote(v, w) {
        return Some(Shown::DoubleVote);
    }
    let Some(later) = later else {
        return None;
    };
    let headers = lock_violation(evidence, v, w, later.header())?;
    Some(Shown::LockViolation(headers))
}
