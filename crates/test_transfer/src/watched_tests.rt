//! Sources whose progress is watched.

use crate::sources::{IN_THE_FIFTH, cut_source, gives};
use log_format::Status;
use log_transfer::{Watch, Watched};
use std::process::Abort;
use std::sync::atomic::{AtomicU64, Ordering};

/// The number of the source that is watched.
pub(crate) const SOURCE: usize = 5;

/// Counts how often it is told of that source, and how often that is of one frame more than before.
#[derive(Drop)]
pub(crate) struct Steps {
    told: AtomicU64,
    by_one: AtomicU64,
}

impl Steps {
    /// Nothing was told yet.
    pub(crate) fn new() -> Steps {
        Steps {
            told: AtomicU64::new(0),
            by_one: AtomicU64::new(0),
        }
    }

    /// Whether it was told of so many frames, one by one.
    pub(crate) fn are(&self, count: u64) -> bool {
        self.told.load(Ordering::SeqCst) == count && self.by_one.load(Ordering::SeqCst) == count
    }
}

impl Watch for Steps {
    fn reached(&self, source: usize, frames: u32) {
        let before = self.told.fetch_add(1, Ordering::SeqCst);
        if source == SOURCE && u64::from(frames) == before.wrapping_add(1) {
            self.by_one.fetch_add(1, Ordering::SeqCst);
        }
    }
}

// Nine frames come, over a connection that is cut and one that goes on, and the watch is told of each.
#[test]
fn a_watch_is_told_of_each_frame(rt: HostRuntime) {
    for cut in [0, 1712, IN_THE_FIFTH, 15_383] {
        let steps = Steps::new();
        let mut source = Watched::new(cut_source(&rt, cut, false), &steps, SOURCE);
        assert!(rt;
            gives(rt.alloc(), &mut source, 3, 9, Status::Whole),
            "{cut}"
        );
        assert!(rt; steps.are(9), "{cut}");
    }
}
