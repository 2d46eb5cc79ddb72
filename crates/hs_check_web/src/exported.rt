//! The exported calls.

ghost use Rattle.std.specs.Prelude.{◌≡◌};
ghost use Rattle.sha2.specs.Sha256.{sha256};
ghost use Rattle.program_answers.specs.Judging.{IsJudged, ShowsGuilt};
ghost use Rattle.program_answers.specs.Showing.{AreHeadersShown, IsCommitteeShown, IsKeyShown, IsVerdictShown};
ghost use Rattle.program_answers.specs.Voting.{IsEndorsementJudged, IsVoteJudged};

use program_answers::{
    HsCommittee, HsDigest, HsFinding, HsHeaders, HsKey, HsVerdict, judge, judge_endorsement,
    judge_vote, show_committee, show_digest, show_headers, show_key, show_verdict,
};

/// Judges the bytes of a verdict under the bytes of a committee, as the library's call of this name does.
#[unsafe(no_mangle)]
pub extern "C" fn hs_check(committee: &[u8], verdict: &[u8], finding: &mut HsFinding) -> i32
    ensures judged { IsJudged committee.now verdict.now finding.old finding.new result }
    ensures guilt { ShowsGuilt committee.now verdict.now result }
{
    judge(committee, verdict, finding)
}

/// Shows a committee. Answers 0, or minus the number of `CommitteeRefusal`, and then `shown` is left as it was.
#[unsafe(no_mangle)]
pub extern "C" fn hs_committee(committee: &[u8], shown: &mut HsCommittee) -> i32
    ensures { IsCommitteeShown committee.now shown.old shown.new result }
{
    show_committee(committee, shown)
}

/// Shows key `key` of replica `replica`, both counted from 0. Answers 0; 1 where the committee has none such; and minus the
/// number of `CommitteeRefusal` where it is refused. In each case but the first `shown` is left as it was.
#[unsafe(no_mangle)]
pub extern "C" fn hs_key(committee: &[u8], replica: u32, key: u32, shown: &mut HsKey) -> i32
    ensures { IsKeyShown committee.now replica key shown.old shown.new result }
{
    show_key(committee, replica, key, shown)
}

/// Shows a verdict, whether or not it proves anything. Answers 0, or the number of `VerdictRefusal`, and then `shown` is
/// left as it was.
#[unsafe(no_mangle)]
pub extern "C" fn hs_verdict(verdict: &[u8], shown: &mut HsVerdict) -> i32
    ensures { IsVerdictShown verdict.now shown.old shown.new result }
{
    show_verdict(verdict, shown)
}

/// Shows the headers of a verdict. Answers 0; and 1 where there are none, as in a double vote, where one of them can't be read,
/// and where the verdict can't; then `shown` is left as it was.
#[unsafe(no_mangle)]
pub extern "C" fn hs_headers(verdict: &[u8], shown: &mut HsHeaders) -> i32
    ensures { AreHeadersShown verdict.now shown.old shown.new result }
{
    show_headers(verdict, shown)
}

/// Judges the bytes of a vote under the bytes of a committee. Answers 0 where the vote is good; 4 where there are not 1,495 bytes; else the
/// number of `VoteRefusal`; and minus the number of `CommitteeRefusal` where the committee is refused.
#[unsafe(no_mangle)]
pub extern "C" fn hs_check_vote(committee: &[u8], vote: &[u8]) -> i32
    ensures { IsVoteJudged committee.now vote.now result }
{
    judge_vote(committee, vote)
}

/// Judges the bytes of an endorsement under the bytes of a committee. Answers 0 where it is good; else the number of `EndorsementRefusal`;
/// and minus the number of `CommitteeRefusal` where the committee is refused.
#[unsafe(no_mangle)]
pub extern "C" fn hs_check_endorsement(committee: &[u8], endorsement: &[u8]) -> i32
    ensures { IsEndorsementJudged committee.now endorsement.now result }
{
    judge_endorsement(committee, endorsement)
}

/// Shows the SHA-256 digest of the bytes: of a header it is the block's id.
#[unsafe(no_mangle)]
pub extern "C" fn hs_digest(bytes: &[u8], shown: &mut HsDigest)
    ensures { shown.new.bytes ≡ sha256 bytes.now }
{
    show_digest(bytes, shown)
}
