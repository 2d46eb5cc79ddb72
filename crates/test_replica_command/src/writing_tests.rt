//! The line that answers each outcome. The expected lines follow from docs/FORMATS.md and docs/REFUSALS.md.

use crate::stored::voted_line;
use base_streams::MemorySink;
use base_wire::{array_at, u16_at, u64_at};
use blocks::HeaderRefusal;
use certificates::{BlockRefusal, CertificateRefusal, SignedVote};
use replica_core::CoreRefusal;
use replica_requests::{LineOutcome, Outcome, write_outcome};
use std::alloc::Global;
use std::test::Fail;
use vote_desk::{Answer, DeskError, Receipt, Reply};

fn writes(alloc: Global, outcome: &LineOutcome, want: &str) -> bool {
    let mut out = MemorySink::new(alloc);
    write_outcome(&mut out, outcome) == Ok(()) && out.bytes() == want.as_bytes()
}

#[test]
fn short_lines_are_these(rt: HostRuntime) {
    for (outcome, want) in [
        (Outcome::TimedOut(9), "timeout 9\n"),
        (
            Outcome::RefusedHeader(HeaderRefusal::ViewOrder),
            "refused header 3\n",
        ),
        (
            Outcome::RefusedCertificate(CertificateRefusal::Count),
            "refused certificate 4\n",
        ),
        (
            Outcome::RefusedBlock(BlockRefusal::Signature(2)),
            "refused block 4\n",
        ),
        (
            Outcome::RefusedByDesk(DeskError::Core(CoreRefusal::UnknownParent)),
            "refused core 2\n",
        ),
        (Outcome::RefusedByDesk(DeskError::KeySpent), "desk 3\n"),
        (Outcome::RefusedByDesk(DeskError::Stopped), "desk 6\n"),
    ] {
        assert!(rt;
            writes(rt.alloc(), &LineOutcome::Came(outcome), want),
            "{want}"
        );
    }
    assert!(rt; writes(rt.alloc(), &LineOutcome::BadLine, "bad line\n"));
}

#[test]
fn replies_without_a_vote_are_these(rt: HostRuntime) {
    let id = [0xab; 32];
    for (act, committed, want) in [
        (Answer::Raised, None, "raised\n"),
        (Answer::Held, None, "held\n"),
        (
            Answer::Held,
            Some(id),
            "held committed abababababababababababababababababababababababababababababababab\n",
        ),
    ] {
        let outcome = LineOutcome::Came(Outcome::Replied(Reply { act, committed }));
        assert!(rt; writes(rt.alloc(), &outcome, want), "{want}");
    }
}

#[test]
fn a_vote_is_written_with_all_its_bytes(rt: HostRuntime) -> Result<(), Fail> {
    let line = voted_line();
    let digits = line.get(8..2998).ok_or("the vote")?;
    let vote = hex::decode(rt.alloc(), digits)?;
    let digits = line.get(3009..3073).ok_or("the id")?;
    let id = hex::decode(rt.alloc(), digits)?;
    assert!(rt; vote.len() == 1495 && id.len() == 32);
    let outcome = LineOutcome::Came(Outcome::Replied(Reply {
        act: Answer::Voted(Receipt {
            number: 3,
            vote: SignedVote {
                replica: u16_at(&vote, 0),
                view: u64_at(&vote, 3),
                id: array_at(&vote, 11),
                key: vote[2],
                signature: array_at(&vote, 43),
            },
        }),
        committed: Some(array_at(&id, 0)),
    }));
    assert!(rt; writes(rt.alloc(), &outcome, line));
    Ok(())
}
