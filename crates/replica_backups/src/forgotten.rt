//! Votes of a replica that are good, and none of those that its log has.

ghost use Rattle.std.specs.Prelude.{◌≡◌, ◌↔◌, IsTrue, MatchOption};
ghost use Rattle.std.specs.List.{All};
ghost use Rattle.certificates.specs.Certificates.{vote_of};
ghost use Rattle.replica_backups.specs.Forgotten.{IsFirstForgotten, IsForgottenVote};

use crate::guard::is_familiar;
use blocks::CommitteeView;
use certificates::{Certificate, SignedVote, check_vote};

/// Whether the vote is this replica's and good, and none of its own votes as its log has them. Its signature is checked only where
/// it is none of them.
pub fn is_forgotten_vote(
    committee: &CommitteeView,
    replica: u16,
    own: &[SignedVote],
    vote: &SignedVote,
) -> bool
    ensures { IsTrue result ↔ IsForgottenVote committee.now replica own.now vote.now }
{
    !is_familiar(replica, own, vote) && check_vote(committee, vote).is_ok()
}

/// The first vote of the certificate that is this replica's, good, and none of its own votes as its log has them, compared
/// whole. The certificate need not be good: votes of others are not checked, nor is a vote that the log has.
pub fn first_forgotten_vote(
    committee: &CommitteeView,
    replica: u16,
    own: &[SignedVote],
    certificate: &Certificate,
) -> Option<SignedVote>
    ensures { MatchOption result
        (All (λ d. IsForgottenVote committee.now replica own.now (vote_of certificate.now d) → ⊥)
        certificate.now.entries)
        (IsFirstForgotten committee.now replica own.now certificate.now) }
{
    for k in 0..certificate.count() {
        let vote = certificate.vote(k);
        if is_forgotten_vote(committee, replica, own, &vote) {
            return Some(vote);
        }
    }
    None
}
