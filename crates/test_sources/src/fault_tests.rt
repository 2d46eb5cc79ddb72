//! Reads and writes that fail in turn.

ghost use Rattle.std.specs.Prelude.{IfOk};
ghost use Rattle.std.specs.List.{All};
ghost use Rattle.log_transfer.specs.declared.reader_state.TheConstants.{MOST_TRIES};
ghost use Rattle.parallel_verify.specs.Collections.{MayBeTried};

use crate::report_tests::FORK;
use crate::sources::{put, source, sources};
use audit_run::{RunError, audit_run};
use base_streams::MemorySink;
use blocks::CommitteeView;
use log_format::Status;
use log_transfer::MemoryConnector;
use parallel_verify::{Source, SourceReport, collect};
use std::alloc::{AllocError, Global};
use std::sync::Wait;
use std::thread::Threads;
use test_fixtures::{fork_logs, verdicts};

// The log of replica 0, from a source whose call behind so many fails.
fn failing(alloc: Global, pass: u32) -> Result<Vec<Source<MemoryConnector>>, AllocError>
    ensures { IfOk result (λ ss. All (MayBeTried (λ c. MOST_TRIES)) ss.items) }
{
    let mut sources = sources(alloc, &[])?;
    let mut failing = source(alloc, 0, fork_logs::log_0())?;
    failing.connector.fuse(pass, false);
    put(&mut sources, failing)?;
    Ok(sources)
}

// How the source does.
fn came<R: Threads + Wait + Sync + AllocGlobal>(rt: &R, pass: u32) -> Option<SourceReport> {
    let committee = CommitteeView::parse(verdicts::committee()).ok()?;
    let sources = failing(rt.alloc(), pass).ok()?;
    let evidence = collect(rt, rt.alloc(), &committee, sources).ok()?;
    evidence.sources().first().copied()
}

// Of four frames: one connect, the magic, a length and a payload of each, and the two halves of the end mark.
const CALLS: u32 = 12;

#[test]
fn each_read_fails(rt: HostRuntime) {
    for pass in 0..=CALLS {
        let frames = ((pass as usize).saturating_sub(2) / 2).min(4);
        let status = if pass < CALLS {
            Status::Failed
        } else {
            Status::Whole
        };
        let wanted = SourceReport {
            replica: 0,
            status,
            frames,
            entries: frames,
        };
        assert!(rt; came(&rt, pass) == Some(wanted), "after {pass} calls");
    }
}

// Whether an audit of the fork, whose sink fails at the write behind so many, writes a first part of the lines and says
// so, or where no write failed all of them.
fn writes_a_part<R: Threads + Wait + Sync + AllocGlobal>(rt: &R, pass: u32, fails: bool) -> bool {
    let logs: [(u16, &[u8]); 2] = [(0, fork_logs::log_0()), (3, fork_logs::log_3())];
    let Ok(sources) = sources(rt.alloc(), &logs) else {
        return false;
    };
    let mut sink = MemorySink::new(rt.alloc());
    sink.fuse(pass, false);
    match audit_run(rt, rt.alloc(), verdicts::committee(), sources, &mut sink) {
        Ok(_) => !fails && sink.bytes() == FORK,
        Err(RunError::Sink) => {
            fails && FORK.starts_with(sink.bytes()) && sink.bytes().len() < FORK.len()
        }
        Err(_) => false,
    }
}

#[test]
fn each_write_fails(rt: HostRuntime) {
    for (pass, fails) in [(0, true), (1, false)] {
        assert!(rt; writes_a_part(&rt, pass, fails), "after {pass} writes");
    }
}
