//! Judging a verdict.

ghost use Rattle.std.specs.Prelude.{◌≡◌, ◌↔◌, pos};
ghost use Rattle.blocks.specs.Committees.{IsCommittee};
ghost use Rattle.verdict_format.specs.Proofs.{IsProof};
ghost use Rattle.program_answers.specs.Judging.{IsCommitteeRefusedAs, IsJudged, IsRefusedAs, IsWrittenFindingOf, SaysTheSame, ShowsGuilt};

use verdict_checker::{CommitteeView, Finding, check};

/// What is answered where the verdict is accepted.
const ACCEPTED: i32 = 0;

/// What an accepted verdict proves: `struct hs_finding`.
#[repr(C)]
#[derive(Clone, Copy)]
pub struct HsFinding {
    /// The view of the later vote.
    pub view: u64,
    /// The number of the replica that broke a rule.
    pub replica: u32,
    /// The rule that it broke: 1, a double vote; 2, a lock violation.
    pub rule: u32,
}

impl From<Finding> for HsFinding {
    ghost from_gives = { λ finding written. SaysTheSame finding written };

    fn from(finding: Finding) -> HsFinding {
        HsFinding {
            view: finding.view,
            replica: u32::from(finding.replica),
            rule: u32::from(finding.rule.number()),
        }
    }
}

/// Judges the bytes of a verdict under the bytes of a committee. Answers 0 where the verdict is accepted, and then `finding`
/// says what it proves; the number of `Refusal` where it is refused; and minus the number of `CommitteeRefusal` where the
/// committee is, whatever the verdict. In each case but the first `finding` is left as it was. It costs two signature checks
/// at the most.
pub fn judge(committee: &[u8], verdict: &[u8], finding: &mut HsFinding) -> i32
    ensures judged { IsJudged committee.now verdict.now finding.old finding.new result }
    ensures guilt { ShowsGuilt committee.now verdict.now result }
{
    answer_of(committee, verdict, finding)
}

// The same, each fact of its own.
fn answer_of(committee: &[u8], verdict: &[u8], finding: &mut HsFinding) -> i32
    ensures accepted { (result ≡ pos 0)
        ↔ (IsCommittee committee.now × IsProof committee.now verdict.now) }
    ensures finding { result ≡ pos 0 → IsWrittenFindingOf verdict.now finding.new }
    ensures first_refusal { IsCommittee committee.now → (IsProof committee.now verdict.now → ⊥)
        → IsRefusedAs committee.now verdict.now result }
    ensures committee_refused { (IsCommittee committee.now → ⊥)
        → IsCommitteeRefusedAs committee.now result }
    ensures untouched { (result ≡ pos 0 → ⊥) → finding.new ≡ finding.old }
    ensures guilt { ShowsGuilt committee.now verdict.now result }
{
    let committee = match CommitteeView::parse(committee) {
        Ok(committee) => committee,
        Err(refusal) => return -i32::from(refusal.number()),
    };
    match check(&committee, verdict) {
        Ok(found) => {
            *finding = HsFinding::from(found);
            ACCEPTED
        }
        Err(refusal) => i32::from(refusal.number()),
    }
}
