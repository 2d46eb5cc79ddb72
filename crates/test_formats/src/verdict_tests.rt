//! Verdicts, read and written: bytes of an independent program.

use std::alloc::Global;
use std::process::Abort;
use std::test::Fail;
use test_fixtures::verdicts;
use verdict_format::{BoundVote, Rule, Shown, VerdictParts, VerdictView, VoteView, write_verdict};

fn parsed(bytes: &[u8]) -> Result<VerdictView<'_>, Fail> {
    let verdict = VerdictView::parse(bytes).ok();
    Ok(verdict.ok_or("the verdict is refused")?)
}

fn bound(vote: &VoteView) -> Result<BoundVote, Fail> {
    let mut signature = [0; 1452];
    if vote.signature.len() != 1452 {
        return Err("a signature of another length".into());
    }
    signature.copy_from_slice(vote.signature);
    Ok(BoundVote {
        key: vote.key,
        view: vote.view,
        id: vote.id,
        signature,
    })
}

fn parts_of(verdict: &VerdictView) -> Result<VerdictParts, Fail> {
    Ok(VerdictParts {
        chain: verdict.chain(),
        replica: verdict.replica(),
        earlier: bound(&verdict.earlier())?,
        later: bound(&verdict.later())?,
        shown: verdict.shown().ok_or("a header is unreadable")?,
    })
}

fn is_written_again<R: Abort>(
    rt: &R,
    alloc: Global,
    verdict: &VerdictView,
    bytes: &[u8],
) -> Result<(), Fail> {
    let text = write_verdict(alloc, &parts_of(verdict)?)?;
    assert!(rt; text.as_slice() == bytes);
    Ok(())
}

#[test]
fn lock_violation_written_again(rt: HostRuntime) -> Result<(), Fail> {
    let verdict = parsed(verdicts::lock_violation())?;
    let Some(Shown::LockViolation(headers)) = &verdict.shown() else {
        return Err("no readable headers".into());
    };
    assert!(rt; headers.earlier.view == 3);
    assert!(rt; headers.parent.parent_view == 1);
    assert!(rt; headers.later.parent_view == 0);
    is_written_again(&rt, rt.alloc(), &verdict, verdicts::lock_violation())
}

#[test]
fn double_vote_written_again(rt: HostRuntime) -> Result<(), Fail> {
    let verdict = parsed(verdicts::double_vote())?;
    assert!(rt; verdict.rule() == Rule::DoubleVote);
    assert!(rt; verdict.replica() == 2);
    assert!(rt; verdict.earlier().view == 7);
    assert!(rt; verdict.later().view == 7);
    assert!(rt; matches!(&verdict.shown(), Some(Shown::DoubleVote)));
    is_written_again(&rt, rt.alloc(), &verdict, verdicts::double_vote())
}
