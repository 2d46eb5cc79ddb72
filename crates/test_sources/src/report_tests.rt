//! What audits write: the lines that an independent program wrote for the same sources.

ghost use Rattle.std.specs.Prelude.{IfOk};
ghost use Rattle.std.specs.List.{All};
ghost use Rattle.log_transfer.specs.declared.reader_state.TheConstants.{MOST_TRIES};
ghost use Rattle.parallel_verify.specs.Collections.{MayBeTried};

use crate::sources::{put, source, sources};
use audit_run::audit_run;
use base_streams::MemorySink;
use log_transfer::MemoryConnector;
use parallel_verify::Source;
use std::alloc::{AllocError, Global};
use std::sync::Wait;
use std::thread::Threads;
use test_fixtures::{fork_logs, log_entries, lying_log, verdicts};

pub(crate) const FORK: &[u8] = b"source 0 replica 0 Whole frames 4 entries 4
source 1 replica 3 Whole frames 4 entries 4
commit 1 5b526f8ffa3d66249b11ba8431f9d960b08aad60e33b288aeef2d11f58c1c938
commit 4 e9da71d9a0da008bd06e99108c6d37a7d88a4037dfd52ab94e68e14b0fbc4a5b
conflict 5b526f8ffa3d66249b11ba8431f9d960b08aad60e33b288aeef2d11f58c1c938 e9da71d9a0da008bd06e99108c6d37a7d88a4037dfd52ab94e68e14b0fbc4a5b
culprit 1 rule 2 views 3 4
culprit 2 rule 2 views 3 4
culprits 2
";

const HOSTILE: &[u8] = b"source 0 replica 0 Whole frames 4 entries 4
source 1 replica 3 Whole frames 4 entries 4
source 2 replica 1 TooLong frames 4096 entries 0
source 3 replica 2 Cut frames 0 entries 0
source 4 replica 1 Broken frames 0 entries 0
commit 1 5b526f8ffa3d66249b11ba8431f9d960b08aad60e33b288aeef2d11f58c1c938
commit 4 e9da71d9a0da008bd06e99108c6d37a7d88a4037dfd52ab94e68e14b0fbc4a5b
conflict 5b526f8ffa3d66249b11ba8431f9d960b08aad60e33b288aeef2d11f58c1c938 e9da71d9a0da008bd06e99108c6d37a7d88a4037dfd52ab94e68e14b0fbc4a5b
culprit 1 rule 2 views 3 4
culprit 2 rule 2 views 3 4
culprits 2
";

const LYING: &[u8] = b"source 0 replica 0 Whole frames 4 entries 4
source 1 replica 3 Whole frames 3 entries 3
commit 1 5b526f8ffa3d66249b11ba8431f9d960b08aad60e33b288aeef2d11f58c1c938
no conflict
culprits 0
";

const WRONG_PARENT: &[u8] = b"source 0 replica 0 Whole frames 1 entries 0
no conflict
culprits 0
";

const NO_SOURCES: &[u8] = b"no conflict
culprits 0
";

// Whether an audit of these sources writes this text.
fn writes<R: Threads + Wait + Sync + AllocGlobal>(
    rt: &R,
    sources: Result<Vec<Source<MemoryConnector>>, AllocError>,
    text: &[u8],
) -> bool
    requires { IfOk sources (λ ss. All (MayBeTried (λ c. MOST_TRIES)) ss.items) }
{
    let Ok(sources) = sources else {
        return false;
    };
    let mut sink = MemorySink::new(rt.alloc());
    match audit_run(rt, rt.alloc(), verdicts::committee(), sources, &mut sink) {
        Ok(_) => sink.bytes() == text,
        Err(_) => false,
    }
}

#[test]
fn forked_committee_names_two(rt: HostRuntime) {
    let logs: [(u16, &[u8]); 2] = [(0, fork_logs::log_0()), (3, fork_logs::log_3())];
    assert!(rt; writes(&rt, sources(rt.alloc(), &logs), FORK));
}

#[test]
fn lying_parent_view(rt: HostRuntime) {
    let logs: [(u16, &[u8]); 2] = [(0, fork_logs::log_0()), (3, lying_log::log_3())];
    assert!(rt; writes(&rt, sources(rt.alloc(), &logs), LYING));
}

#[test]
fn no_sources(rt: HostRuntime) {
    assert!(rt; writes(&rt, sources(rt.alloc(), &[]), NO_SOURCES));
}

// A stream of one frame.
fn one_frame(alloc: Global, payload: &[u8]) -> Result<Vec<u8>, AllocError> {
    let mut text = b"HSL1".to_vec(alloc)?;
    text.extend_from_slice(&u32::try_from(payload.len()).unwrap_or(0).to_be_bytes())?;
    text.extend_from_slice(payload)?;
    text.extend_from_slice(b"\0\0\0\0\0\0\0\x01")?;
    Ok(text)
}

#[test]
fn an_entry_with_a_wrong_parent_shows_nothing(rt: HostRuntime) {
    let entry = log_entries::c5_of_wrong_parent_view();
    let log = one_frame(rt.alloc(), entry).expect(&rt, "memory");
    assert!(rt; writes(&rt, sources(rt.alloc(), &[(0, &log)]), WRONG_PARENT));
}

// 4,097 frames of one byte.
fn too_long(alloc: Global) -> Result<Vec<u8>, AllocError> {
    let mut text = b"HSL1".to_vec(alloc)?;
    for _ in 0..4097 {
        text.extend_from_slice(b"\0\0\0\x01\0")?;
    }
    text.extend_from_slice(b"\0\0\0\0\0\0\x10\x01")?;
    Ok(text)
}

// The fork, and three sources that send no log.
fn hostile(alloc: Global) -> Result<Vec<Source<MemoryConnector>>, AllocError>
    ensures { IfOk result (λ ss. All (MayBeTried (λ c. MOST_TRIES)) ss.items) }
{
    let logs: [(u16, &[u8]); 2] = [(0, fork_logs::log_0()), (3, fork_logs::log_3())];
    let mut sources = sources(alloc, &logs)?;
    put(&mut sources, source(alloc, 1, &too_long(alloc)?)?)?;
    put(&mut sources, source(alloc, 2, b"")?)?;
    put(&mut sources, source(alloc, 1, b"HSL1\0\x01\0\x01")?)?;
    Ok(sources)
}

#[test]
fn hostile_sources_change_nothing(rt: HostRuntime) {
    assert!(rt; writes(&rt, hostile(rt.alloc()), HOSTILE));
}
