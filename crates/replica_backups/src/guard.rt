//! Votes of a replica that are none of those that its log has.

ghost use Rattle.std.specs.Prelude.{◌≡◌, ◌↔◌, IsTrue, MatchOption, false};
ghost use Rattle.std.specs.List.{All};
ghost use Rattle.replica_backups.specs.OwnVotes.{IsFamiliar, IsFirstForeign, IsForeign, ShowsForeignVote};

use certificates::{Certificate, CheckedBlock, SignedVote};

// Whether the vote is another replica's, or one of these.
pub(crate) fn is_familiar(replica: u16, own: &[SignedVote], vote: &SignedVote) -> bool
    ensures yes { IsTrue result → IsFamiliar replica own.now vote.now }
    ensures no { result ≡ false → IsForeign replica own.now vote.now }
{
    vote.replica != replica || own.contains(vote)
}

/// Whether the certificate, which need not be good, has a vote of this replica that is not one of these.
pub fn has_foreign_vote(replica: u16, own: &[SignedVote], certificate: &Certificate) -> bool
    ensures { IsTrue result ↔ ShowsForeignVote replica own.now certificate.now }
{
    for k in 0..certificate.count() {
        let vote = certificate.vote(k);
        if !is_familiar(replica, own, &vote) {
            return true;
        }
    }
    false
}

/// Whether the block's certificate has a vote of this replica that is not one of these, its own votes as its log has them. Votes
/// are compared whole, key and signature too: a replica that was put back and votes again on what it voted on before signs under
/// another one-time key. It must not vote any more: its log was put back, or its key signs elsewhere.
pub fn shows_foreign_vote(replica: u16, own: &[SignedVote], block: &CheckedBlock) -> bool
    ensures { IsTrue result ↔ ShowsForeignVote replica own.now block.now.certificate }
{
    has_foreign_vote(replica, own, block.certificate())
}

/// The first of the votes that is this replica's and not one of its own votes as its log has them, compared whole.
pub fn first_foreign_vote(
    replica: u16,
    own: &[SignedVote],
    votes: &[SignedVote],
) -> Option<SignedVote>
    ensures { MatchOption result (All (IsFamiliar replica own.now) votes.now)
        (IsFirstForeign replica own.now votes.now) }
{
    for (k, vote) in votes.iter().enumerate() {
        if !is_familiar(replica, own, vote) {
            return Some(votes[k]);
        }
    }
    None
}
