//! Judging what a step of a lineage is made of: a vote, an endorsement, and the digests that name blocks and files.

ghost use Rattle.std.specs.Prelude.{◌≡◌, ◌≢◌, ◌↔◌, pos, length};
ghost use Rattle.sha2.specs.Sha256.{sha256};
ghost use Rattle.blocks.specs.Committees.{IsCommittee};
ghost use Rattle.certificates.specs.Votes.{IsGoodVote, vote_text};
ghost use Rattle.certificates.specs.declared.vote.TheConstants.{VOTE_LEN as LENGTH_OF_A_VOTE};
ghost use Rattle.handover_keys.specs.Endorsements.{IsGoodEndorsement};
ghost use Rattle.program_answers.specs.Judging.{IsCommitteeRefusedAs};
ghost use Rattle.program_answers.specs.Voting.{IsEndorsementJudged, IsEndorsementRefusedAs, IsGoodVoteIn, IsVoteJudged, IsVoteRefusedAs, vote_in};

use base_wire::{array_at, u16_at, u64_at};
use certificates::{CommitteeView, SignedVote, VOTE_LEN, check_vote};
use handover_keys::check_endorsement;
use sha2::{Digest, Sha256};

/// What is answered where the vote or the endorsement is good.
const GOOD: i32 = 0;

/// What is answered of bytes that are no vote. No `VoteRefusal` has this number.
const NO_VOTE: i32 = 4;

/// A SHA-256 digest.
#[repr(C)]
#[derive(Clone, Copy)]
pub struct HsDigest {
    pub bytes: [u8; 32],
}

// The vote that the bytes spell.
#[tactic(auto, using(crate::proofs::VoteReading::vote_again), unfolding(certificates::specs::Votes::vote_text))]
fn vote_in(bytes: &[u8]) -> SignedVote
    requires { length bytes.now ≡ LENGTH_OF_A_VOTE }
    ensures value { result ≡ vote_in bytes.now }
    ensures spelled { vote_text (vote_in bytes.now) ≡ bytes.now }
{
    SignedVote {
        replica: u16_at(bytes, 0),
        key: bytes[2],
        view: u64_at(bytes, 3),
        id: array_at(bytes, 11),
        signature: array_at(bytes, 43),
    }
}

/// Judges the bytes of a vote under the bytes of a committee. Answers 0 where the vote is good; 4 where there are not 1,495 bytes; else the
/// number of `VoteRefusal`; and minus the number of `CommitteeRefusal` where the committee is refused, whatever the vote. It costs one
/// signature check at the most.
pub fn judge_vote(committee: &[u8], vote: &[u8]) -> i32
    ensures { IsVoteJudged committee.now vote.now result }
{
    answer_on_vote(committee, vote)
}

// The same, each fact of its own.
fn answer_on_vote(committee: &[u8], vote: &[u8]) -> i32
    ensures exact { (result ≡ pos 0)
        ↔ (IsCommittee committee.now × IsGoodVoteIn committee.now vote.now) }
    ensures spelled { result ≡ pos 0 → vote_text (vote_in vote.now) ≡ vote.now }
    ensures first_refusal { IsCommittee committee.now → length vote.now ≡ LENGTH_OF_A_VOTE
        → (IsGoodVote committee.now (vote_in vote.now) → ⊥)
        → IsVoteRefusedAs committee.now vote.now result }
    ensures no_vote { IsCommittee committee.now → length vote.now ≢ LENGTH_OF_A_VOTE
        → result ≡ pos 4 }
    ensures committee_refused { (IsCommittee committee.now → ⊥)
        → IsCommitteeRefusedAs committee.now result }
{
    let committee = match CommitteeView::parse(committee) {
        Ok(committee) => committee,
        Err(refusal) => return -i32::from(refusal.number()),
    };
    if vote.len() != VOTE_LEN {
        return NO_VOTE;
    }
    match check_vote(&committee, &vote_in(vote)) {
        Ok(()) => GOOD,
        Err(refusal) => i32::from(refusal.number()),
    }
}

/// Judges the bytes of an endorsement under the bytes of a committee. Answers 0 where it is good; else the number of `EndorsementRefusal`;
/// and minus the number of `CommitteeRefusal` where the committee is refused, whatever the endorsement. It costs one signature check at the
/// most.
pub fn judge_endorsement(committee: &[u8], endorsement: &[u8]) -> i32
    ensures { IsEndorsementJudged committee.now endorsement.now result }
{
    answer_on_endorsement(committee, endorsement)
}

// The same, each fact of its own.
fn answer_on_endorsement(committee: &[u8], endorsement: &[u8]) -> i32
    ensures exact { (result ≡ pos 0)
        ↔ (IsCommittee committee.now × IsGoodEndorsement committee.now endorsement.now) }
    ensures first_refusal { IsCommittee committee.now
        → (IsGoodEndorsement committee.now endorsement.now → ⊥)
        → IsEndorsementRefusedAs committee.now endorsement.now result }
    ensures committee_refused { (IsCommittee committee.now → ⊥)
        → IsCommitteeRefusedAs committee.now result }
{
    let committee = match CommitteeView::parse(committee) {
        Ok(committee) => committee,
        Err(refusal) => return -i32::from(refusal.number()),
    };
    match check_endorsement(&committee, endorsement) {
        Ok(_) => GOOD,
        Err(refusal) => i32::from(refusal.number()),
    }
}

/// Shows the SHA-256 digest of the bytes: of a header it is the block's id.
pub fn show_digest(bytes: &[u8], shown: &mut HsDigest)
    ensures { shown.new.bytes ≡ sha256 bytes.now }
{
    let mut hasher = Sha256::new();
    hasher.update(bytes);
    *shown = HsDigest {
        bytes: hasher.finalize(),
    };
}
