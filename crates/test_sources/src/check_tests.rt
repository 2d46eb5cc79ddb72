//! Each different vote is checked once, good or bad, however many sources name it.

ghost use Rattle.std.specs.Prelude.{IfOk};
ghost use Rattle.std.specs.List.{All};
ghost use Rattle.log_transfer.specs.declared.reader_state.TheConstants.{MOST_TRIES};
ghost use Rattle.parallel_verify.specs.Collections.{MayBeTried};

use crate::sources::sources;
use blocks::CommitteeView;
use certificates::{LmsVerifier, Verifier};
use lms_tree::PublicKey;
use log_transfer::MemoryConnector;
use parallel_verify::{Source, collect_by};
use std::alloc::AllocError;
use std::sync::Wait;
use std::sync::atomic::{AtomicU64, Ordering};
use std::thread::Threads;
use test_fixtures::{fork_logs, verdicts};

// Checks signatures, and counts how often it is asked.
#[derive(Drop)]
struct Counting {
    asked: AtomicU64,
}

impl Verifier for Counting {
    fn verify(&self, key: &PublicKey, message: &[u8], signature: &[u8]) -> bool {
        let _ = self.asked.fetch_add(1, Ordering::SeqCst);
        LmsVerifier.verify(key, message, signature)
    }
}

// How many signatures were checked, and how many votes are in evidence.
fn checked<R: Threads + Wait + Sync + AllocGlobal>(
    rt: &R,
    sources: Result<Vec<Source<MemoryConnector>>, AllocError>,
) -> Option<(u64, usize)>
    requires { IfOk sources (λ ss. All (MayBeTried (λ c. MOST_TRIES)) ss.items) }
{
    let committee = CommitteeView::parse(verdicts::committee()).ok()?;
    let verifier = Counting {
        asked: AtomicU64::new(0),
    };
    let evidence = collect_by(rt, rt.alloc(), &committee, &verifier, sources.ok()?).ok()?;
    Some((
        verifier.asked.load(Ordering::SeqCst),
        evidence.votes().len(),
    ))
}

// The two logs of the fork name 20 votes, all good.
#[test]
fn shared_votes_are_checked_once(rt: HostRuntime) {
    let logs = [
        (0, fork_logs::log_0()),
        (3, fork_logs::log_3()),
        (0, fork_logs::log_0()),
    ];
    assert!(rt; checked(&rt, sources(rt.alloc(), &logs)) == Some((20, 20)));
}

// Said to be replica 1's, the log of replica 0 has four own votes that replica 1 did not sign.
#[test]
fn bad_votes_are_checked_once(rt: HostRuntime) {
    let logs = [
        (0, fork_logs::log_0()),
        (1, fork_logs::log_0()),
        (3, fork_logs::log_3()),
        (1, fork_logs::log_0()),
    ];
    assert!(rt; checked(&rt, sources(rt.alloc(), &logs)) == Some((24, 20)));
}
