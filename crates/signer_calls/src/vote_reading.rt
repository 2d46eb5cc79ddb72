//! A vote that the bytes of a call spell.

ghost use Rattle.std.specs.Prelude.{◌≡◌, ◌≢◌, MatchOption, length};
ghost use Rattle.certificates.specs.declared.vote.TheConstants.{VOTE_LEN as LENGTH_OF_A_VOTE};
ghost use Rattle.signer_calls.specs.SpelledVotes.{SpellsVote};

use base_wire::{array_at, u16_at, u64_at};
use certificates::{SignedVote, VOTE_LEN};

// The vote that the bytes spell: each 1,495 bytes spell one.
pub(crate) fn vote_in(bytes: &[u8]) -> Option<SignedVote>
    ensures { MatchOption result (length bytes.now ≢ LENGTH_OF_A_VOTE) (SpellsVote bytes.now) }
{
    if bytes.len() != VOTE_LEN {
        return None;
    }
    Some(vote_of(bytes))
}

#[tactic(auto, using(crate::proofs::VoteReading::vote_again), unfolding(certificates::specs::Votes::vote_text))]
fn vote_of(bytes: &[u8]) -> SignedVote
    requires { length bytes.now ≡ LENGTH_OF_A_VOTE }
    ensures { SpellsVote bytes.now result }
{
    SignedVote {
        replica: u16_at(bytes, 0),
        key: bytes[2],
        view: u64_at(bytes, 3),
        id: array_at(bytes, 11),
        signature: array_at(bytes, 43),
    }
}
