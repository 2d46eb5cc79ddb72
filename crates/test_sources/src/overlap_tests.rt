//! Two sources, of which one is held until the other has given its last byte.

ghost use Rattle.std.specs.Prelude.{⊤, IfOk};
ghost use Rattle.std.specs.List.{All};
ghost use Rattle.log_transfer.specs.Connections.{ended};
ghost use Rattle.log_transfer.specs.declared.reader_state.TheConstants.{MOST_TRIES};
ghost use Rattle.parallel_verify.specs.Collections.{MayBeTried};

use crate::sources::put;
use blocks::CommitteeView;
use log_format::Status;
use log_transfer::{Connector, Fault};
use parallel_verify::{Source, collect};
use std::alloc::{AllocError, Global};
use std::sync::Wait;
use std::sync::atomic::{AtomicBool, Ordering};
use std::thread;
use std::thread::Threads;
use test_fixtures::{double_vote_logs, verdicts};

// Waits for a flag, and gives up after ten million turns.
fn is_set(flag: &AtomicBool) -> bool {
    for _ in 0..10_000_000u32 {
        if flag.load(Ordering::SeqCst) {
            return true;
        }
        thread::yield_now();
    }
    false
}

// Gives a stream. One that waits connects once the flag is set, or fails; the other sets it behind its last byte.
#[derive(Drop)]
struct InTurn<'a> {
    text: &'static [u8],
    given: usize,
    // How many of them since the last connect.
    taken: usize,
    waits: bool,
    flag: &'a AtomicBool,
    failures: u64,
}

impl<'a> Connector for InTurn<'a> {
    ghost gives = { λ s k first most c. ⊤ };

    ghost left = { λ s c. ⊤ };

    ghost asked = { λ s t first most. ⊤ };

    ghost taken = { λ s. s.taken };

    ghost failed = { λ s. s.failures };

    ghost reaches = { λ s t. ⊤ };

    ghost allowed = { λ s. MOST_TRIES };

    fn connect(&mut self, _first: u32, _most: u32) -> Result<(), Fault> {
        self.taken = 0;
        if self.waits && !is_set(self.flag) {
            self.failures = self.failures.saturating_add(1);
            return Err(Fault);
        }
        Ok(())
    }

    fn read(&mut self, buffer: &mut [u8]) -> Result<usize, Fault> {
        let rest = self.text.get(self.given..).unwrap_or(b"");
        let n = buffer.len().min(rest.len());
        buffer[..n].copy_from_slice(&rest[..n]);
        self.given = self.given.saturating_add(n);
        self.taken += n;
        if !self.waits && n == rest.len() {
            self.flag.store(true, Ordering::SeqCst);
        }
        Ok(n)
    }

    fn most_tries(&self) -> u8 {
        3
    }

    fn failures(&self) -> u64 {
        self.failures
    }

    ghost some = { λ s. (ended, tt) };

    ghost stays = { λ s. tt };
}

// A log of one entry.
fn source_of<'a>(text: &'static [u8], flag: &'a AtomicBool, waits: bool) -> Source<InTurn<'a>>
    ensures { MayBeTried (λ c. MOST_TRIES) result }
{
    Source {
        replica: 2,
        connector: InTurn {
            text,
            given: 0,
            taken: 0,
            waits,
            flag,
            failures: 0,
        },
        tries: 1,
    }
}

// Two of them, of which the first waits, or the second.
fn in_turn<'a>(
    alloc: Global,
    flag: &'a AtomicBool,
    first_waits: bool,
) -> Result<Vec<Source<InTurn<'a>>>, AllocError>
    ensures { IfOk result (λ ss. All (MayBeTried (λ c. MOST_TRIES)) ss.items) }
{
    let mut sources = Vec::new(alloc);
    let first = source_of(double_vote_logs::log_of_a1(), flag, first_waits);
    put(&mut sources, first)?;
    let second = source_of(double_vote_logs::log_of_b1(), flag, !first_waits);
    put(&mut sources, second)?;
    Ok(sources)
}

// Whether both logs come whole.
fn come_whole<R: Threads + Wait + Sync + AllocGlobal>(rt: &R, first_waits: bool) -> bool {
    let flag = AtomicBool::new(false);
    let Ok(committee) = CommitteeView::parse(verdicts::committee()) else {
        return false;
    };
    let Ok(sources) = in_turn(rt.alloc(), &flag, first_waits) else {
        return false;
    };
    match collect(rt, rt.alloc(), &committee, sources) {
        Ok(evidence) => {
            evidence.sources().len() == 2
                && evidence
                    .sources()
                    .iter()
                    .all(|s| s.status == Status::Whole && s.frames == 1)
        }
        Err(_) => false,
    }
}

#[test]
fn a_held_source_lets_the_other_be_read(rt: HostRuntime) {
    assert!(rt; come_whole(&rt, true));
    assert!(rt; come_whole(&rt, false));
}
