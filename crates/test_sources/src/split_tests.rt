//! Votes are checked by several threads at once, where there are two processors.

use crate::sources::sources;
use blocks::CommitteeView;
use certificates::{LmsVerifier, Verifier};
use lms_tree::PublicKey;
use parallel_verify::collect_by;
use std::process::Abort;
use std::sync::Wait;
use std::sync::atomic::{AtomicBool, AtomicU64, Ordering};
use std::thread;
use std::thread::Threads;
use test_fixtures::{fork_logs, verdicts};

// Checks signatures. The first check is held until another has begun, or ten million turns have passed.
#[derive(Drop)]
struct Meeting {
    begun: AtomicU64,
    met: AtomicBool,
}

impl Meeting {
    fn wait_for_another(&self) {
        for _ in 0..10_000_000u32 {
            if 1 < self.begun.load(Ordering::SeqCst) {
                self.met.store(true, Ordering::SeqCst);
                return;
            }
            thread::yield_now();
        }
    }
}

impl Verifier for Meeting {
    fn verify(&self, key: &PublicKey, message: &[u8], signature: &[u8]) -> bool {
        if self.begun.fetch_add(1, Ordering::SeqCst) == 0 {
            self.wait_for_another();
        }
        LmsVerifier.verify(key, message, signature)
    }
}

// Whether a check began while another ran.
fn checks_meet<R: Threads + Wait + Sync + AllocGlobal>(rt: &R) -> Option<bool> {
    let committee = CommitteeView::parse(verdicts::committee()).ok()?;
    let verifier = Meeting {
        begun: AtomicU64::new(0),
        met: AtomicBool::new(false),
    };
    let sources = sources(rt.alloc(), &[(0, fork_logs::log_0())]);
    collect_by(rt, rt.alloc(), &committee, &verifier, sources.ok()?).ok()?;
    Some(verifier.met.load(Ordering::SeqCst))
}

#[test]
fn checks_are_split_among_threads(rt: HostRuntime) {
    let processors = match thread::available_parallelism(&rt) {
        Ok(processors) => processors.get(),
        Err(_) => 1,
    };
    assert!(rt; checks_meet(&rt) == Some(true) || processors < 2);
}
