//! The exported calls.

ghost use Rattle.program_answers.specs.Judging.{IsJudged, ShowsGuilt};
ghost use Rattle.program_answers.specs.Naming.{IsNamed, IsWritten, version_text};
ghost use Rattle.program_answers.specs.Showing.{IsCommitteeShown};

use program_answers::{HsCommittee, HsFinding, judge, show_committee, write_name, write_version};

/// Judges the bytes of a verdict under the bytes of a committee. Answers 0 where the verdict is accepted, and then `finding`
/// says what it proves; the number of `Refusal` where it is refused; and minus the number of `CommitteeRefusal` where the
/// committee is, whatever the verdict. In each case but the first `finding` is left as it was. It takes no memory, and costs
/// two signature checks at the most.
#[unsafe(no_mangle)]
pub extern "C" fn hs_check(committee: &[u8], verdict: &[u8], finding: &mut HsFinding) -> i32
    ensures judged { IsJudged committee.now verdict.now finding.old finding.new result }
    ensures guilt { ShowsGuilt committee.now verdict.now result }
{
    judge(committee, verdict, finding)
}

/// Shows a committee: its size, its weights and the name of its chain. Answers 0, or minus the number of `CommitteeRefusal`,
/// and then `shown` is left as it was. It takes no memory.
#[unsafe(no_mangle)]
pub extern "C" fn hs_committee(committee: &[u8], shown: &mut HsCommittee) -> i32
    ensures { IsCommitteeShown committee.now shown.old shown.new result }
{
    show_committee(committee, shown)
}

/// Writes the name of what `hs_check` or `hs_committee` answered to the front of `name`, as docs/REFUSALS.md has it, and answers
/// its length, 14 at the most. Answers 0, and then `name` is left as it was, for a number that has no name, and where there is no
/// room. It takes no memory.
#[unsafe(no_mangle)]
pub extern "C" fn hs_check_name(answer: i32, name: &mut [u8]) -> usize
    ensures { IsNamed answer name.old name.new result }
{
    write_name(answer, name)
}

/// Writes the version of the library to the front of `version`, and answers its length. Answers 0, and then `version` is left as it
/// was, where there is no room. It takes no memory.
#[unsafe(no_mangle)]
pub extern "C" fn hs_check_version(version: &mut [u8]) -> usize
    ensures { IsWritten version_text version.old version.new result }
{
    write_version(version)
}
