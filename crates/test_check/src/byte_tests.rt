//! Each byte of a verdict counts. The committee and the verdicts are stored bytes of an independent program, and the
//! expected refusals follow from docs/FORMATS.md and docs/REFUSALS.md.

use base_streams::MemorySink;
use program_check::{REFUSED, run_check};
use std::process::Abort;
use std::test::Fail;
use test_fixtures::verdicts;

// Each byte of a verdict at these places, turned.
fn turned_bytes_are_refused<R: AllocGlobal + Abort>(
    rt: &R,
    verdict: &[u8],
    from: usize,
    until: usize,
    want: &str,
) -> Result<(), Fail> {
    let mut verdict = verdict.to_vec(rt.alloc())?;
    assert!(rt; until <= verdict.len());
    for at in from..until {
        verdict[at] ^= 1;
        let mut out = MemorySink::new(rt.alloc());
        let status = run_check(verdicts::committee(), &verdict, &mut out);
        let is_refused = status == REFUSED && out.bytes() == want.as_bytes();
        assert!(rt; is_refused, "byte {at}");
        verdict[at] ^= 1;
    }
    Ok(())
}

#[test]
fn every_signature_byte_counts_of_the_first_vote(rt: HostRuntime) -> Result<(), Fail> {
    let verdict = verdicts::double_vote();
    turned_bytes_are_refused(&rt, verdict, 80, 1532, "refused 9 SignatureE\n")
}

#[test]
fn every_signature_byte_counts_of_the_second_vote(rt: HostRuntime) -> Result<(), Fail> {
    let verdict = verdicts::double_vote();
    turned_bytes_are_refused(&rt, verdict, 1573, 3025, "refused 10 SignatureW\n")
}

#[test]
fn every_byte_of_a_lock_violation_counts_but_for_signatures(rt: HostRuntime) -> Result<(), Fail> {
    for (from, until, want) in [
        (0, 4, "refused 2 Magic\n"),
        (4, 36, "refused 5 Chain\n"),
        (36, 37, "refused 6 Replica\n"),
        // Replica 0, which signed neither vote.
        (37, 38, "refused 9 SignatureE\n"),
        // Kind 3.
        (38, 39, "refused 3 Kind\n"),
        // The keys of the earlier vote and of the later: number 1, where the replica has number 0 alone.
        (39, 40, "refused 11 KeyNumber\n"),
        (1532, 1533, "refused 11 KeyNumber\n"),
        // The view and the id of the earlier vote, and of the later.
        (40, 80, "refused 7 HeaderMismatch\n"),
        (1533, 1573, "refused 7 HeaderMismatch\n"),
        // The three headers.
        (3025, 3277, "refused 7 HeaderMismatch\n"),
    ] {
        turned_bytes_are_refused(&rt, verdicts::lock_violation(), from, until, want)?;
    }
    Ok(())
}

#[test]
fn every_signature_byte_counts_of_the_earlier_vote(rt: HostRuntime) -> Result<(), Fail> {
    let verdict = verdicts::lock_violation();
    turned_bytes_are_refused(&rt, verdict, 80, 1532, "refused 9 SignatureE\n")
}

#[test]
fn every_signature_byte_counts_of_the_later_vote(rt: HostRuntime) -> Result<(), Fail> {
    let verdict = verdicts::lock_violation();
    turned_bytes_are_refused(&rt, verdict, 1573, 3025, "refused 10 SignatureW\n")
}
