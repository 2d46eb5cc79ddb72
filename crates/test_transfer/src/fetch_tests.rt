//! Sources that break off. The stored export and the requests are an independent program's.

use crate::sources::{IN_THE_FIFTH, cut_in_the_fifth, cut_source, gives, rest_from, source_of};
use log_format::Status;
use log_transfer::Connector;
use std::process::Abort;
use test_fixtures::exports::nine_entries;

// The request for the whole log, and one frame more than a log may have.
const ALL: &[u8; 12] = b"HSL1\0\0\0\0\0\0\x10\x01";

#[test]
fn transfer_resumes(rt: HostRuntime) {
    let mut source = cut_source(&rt, IN_THE_FIFTH, false);
    assert!(rt; gives(rt.alloc(), &mut source, 3, 9, Status::Whole));
    assert!(rt; source.requests() == [*ALL, *b"HSL1\0\0\0\x04\0\0\x0f\xfd"].as_slice());
    assert!(rt; source.failures() == 0);
}

#[test]
fn later_connections_fail(rt: HostRuntime) {
    let cut = nine_entries()
        .get(..IN_THE_FIFTH)
        .expect(&rt, "7,540 bytes");
    // the third connect fails, as there is no third stream
    let mut source = source_of(&rt, &[(cut_in_the_fifth(), false), (b"HSL1\0\0", true)]);
    assert!(rt; gives(rt.alloc(), &mut source, 3, 4, Status::Failed));
    assert!(rt; source.requests().len() == 2 && source.failures() == 2);
}

// How many connections are made, and how the last one ends.
const TRIES: [(u8, Status); 3] = [(1, Status::Cut), (2, Status::Cut), (3, Status::Whole)];

#[test]
fn no_more_connections_than_tries(rt: HostRuntime) {
    let cut = nine_entries()
        .get(..IN_THE_FIFTH)
        .expect(&rt, "7,540 bytes");
    let rest = rest_from(rt.alloc(), 4).expect(&rt, "memory");
    for (tries, status) in TRIES {
        let mut source = source_of(
            &rt,
            &[(cut_in_the_fifth(), false), (b"", false), (&rest, false)],
        );
        let count = if status == Status::Whole { 9 } else { 4 };
        assert!(rt; (1..=3).contains(&tries));
        assert!(rt;
            gives(rt.alloc(), &mut source, tries, count, status),
            "{tries}"
        );
        assert!(rt; source.requests().len() == tries as usize, "{tries}");
    }
}

// Whether a source cut after each of these numbers of bytes gives all nine frames.
fn outlasts_each_cut<R: Abort + AllocGlobal>(rt: &R, fails: bool) {
    for cut in 0..nine_entries().len() {
        let mut source = cut_source(rt, cut, fails);
        assert!(rt;
            gives(rt.alloc(), &mut source, 3, 9, Status::Whole),
            "after {cut} bytes"
        );
        assert!(rt; source.requests().len() == 2, "after {cut} bytes");
    }
}

#[test]
fn cut_at_every_byte(rt: HostRuntime) {
    outlasts_each_cut(&rt, false);
}

#[test]
fn failed_at_every_byte(rt: HostRuntime) {
    outlasts_each_cut(&rt, true);
}

#[test]
fn all_frames_are_held_and_the_end_is_not(rt: HostRuntime) {
    let mut source = cut_source(&rt, 15_383, true);
    assert!(rt; gives(rt.alloc(), &mut source, 2, 9, Status::Whole));
    assert!(rt; source.requests() == [*ALL, *b"HSL1\0\0\0\x09\0\0\x0f\xf8"].as_slice());
}
