//! The judgement of a verdict, as the program prints it.

ghost use Rattle.std.specs.Prelude.{◌≡◌};
ghost use Rattle.blocks.specs.Committees.{IsCommittee};
ghost use Rattle.verdict_format.specs.Proofs.{IsProof};
ghost use Rattle.verdict_format.specs.RuleNumbers.{rule_number};
ghost use Rattle.verdict_checker.specs.Checks.{IsRefused};
ghost use Rattle.verdict_checker.specs.declared.refusal.Refusal.{Refusal as RefusalValue};
ghost use Rattle.program_check.specs.Answers.{Answers};
ghost use Rattle.program_check.specs.Judgements.{IsJudgement};
ghost use Rattle.program_check.specs.Texts.{accepted_text, accepted_line, refused_line};

use base_streams::{Sink, write_all};
use base_text::Line;
use itoa::Buffer;
use program_parts::FAULT;
use verdict_checker::{CommitteeView, Finding, Refusal, check};

/// The verdict was accepted.
pub const ACCEPTED: u8 = 0;

/// The verdict was refused.
pub const REFUSED: u8 = 1;

/// Judges a verdict under a committee, both as bytes, and writes one line. Answers `ACCEPTED` or
/// `REFUSED` after the whole line. Answers 2 where the committee is unreadable, and nothing is
/// written then, or where a write failed behind a first part of the line. It takes no memory.
pub fn run_check<W: Sink>(committee: &[u8], verdict: &[u8], out: &mut W) -> u8
    ensures accepts { IsCommittee committee.now → IsProof committee.now verdict.now
        → Answers (W.text out.old) (W.text out.new) (W.failed out.old) (W.failed out.new)
        (accepted_line verdict.now) 0 result }
    ensures refuses { IsCommittee committee.now → (IsProof committee.now verdict.now → ⊥)
        → (r : RefusalValue) × IsRefused committee.now verdict.now r
        × Answers (W.text out.old) (W.text out.new) (W.failed out.old) (W.failed out.new)
        (refused_line r) 1 result }
    ensures unreadable { (IsCommittee committee.now → ⊥) → (result ≡ 2) × (out.new ≡ out.old) }
{
    let Ok(committee) = CommitteeView::parse(committee) else {
        return FAULT;
    };
    print(out, &judge_verdict(&committee, verdict))
}

// Writes the line, and answers the status or a fault.
fn print<W: Sink>(out: &mut W, judgement: &Judgement) -> u8
    ensures { Answers (W.text out.old) (W.text out.new) (W.failed out.old) (W.failed out.new)
        judgement.now.line judgement.now.status result }
{
    match write_all(out, judgement.line.as_bytes()) {
        Ok(()) => judgement.status,
        Err(_) => FAULT,
    }
}

/// What is printed and answered of a verdict.
#[derive(Drop)]
pub(crate) struct Judgement {
    pub line: Line,
    pub status: u8,
}

/// Judges a verdict under a committee that was read. It takes no memory.
pub(crate) fn judge_verdict(committee: &CommitteeView, verdict: &[u8]) -> Judgement
    ensures judged { IsJudgement committee.now verdict.now result.status result.line }
{
    match check(committee, verdict) {
        Ok(finding) => Judgement {
            line: accepted(&finding),
            status: ACCEPTED,
        },
        Err(refusal) => Judgement {
            line: refused(refusal),
            status: REFUSED,
        },
    }
}

fn accepted(finding: &Finding) -> Line
    ensures { result ≡ accepted_text finding.now.replica
        (rule_number finding.now.rule) finding.now.view }
{
    let mut line = Line::new();
    line.push(b"accepted replica ");
    line.push(Buffer::new().format(finding.replica).as_bytes());
    line.push(b" rule ");
    line.push(Buffer::new().format(finding.rule.number()).as_bytes());
    line.push(b" view ");
    line.push(Buffer::new().format(finding.view).as_bytes());
    line.push(b"\n");
    line
}

fn refused(refusal: Refusal) -> Line
    ensures { result ≡ refused_line refusal }
{
    let mut line = Line::new();
    line.push(b"refused ");
    line.push(Buffer::new().format(refusal.number()).as_bytes());
    line.push(b" ");
    line.push(refusal.name().as_bytes());
    line.push(b"\n");
    line
}
