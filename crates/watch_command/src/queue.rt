//! Lines that wait to be printed.

use base_streams::{Fault, Sink, write_all};
use std::alloc::Global;
use std::sync::atomic::{AtomicU64, Ordering};
use std::sync::{Condvar, Mutex, Wait};
use std::time::{Clock, Duration};

/// From how many lines on that wait those that may be dropped are, and counted.
const MOST_LINES: usize = 1_000;

/// How long one look for lines waits, in milliseconds.
const LOOK_MILLISECONDS: u64 = 500;

/// A line that is to be printed.
#[derive(Drop)]
pub(crate) enum Line {
    /// What it says comes once: it waits however many do.
    Lasting(Vec<u8>),
    /// What it says may come again: it is dropped where too many wait.
    Passing(Vec<u8>),
}

#[derive(Drop)]
struct Waiting {
    lines: Vec<Vec<u8>>,
    /// How many were dropped since that was told.
    lost: u64,
    /// No more come.
    closed: bool,
}

/// Lines that one thread prints, so that a reader that stops never stops the others.
#[derive(Drop)]
pub(crate) struct Queue {
    waiting: Mutex<Waiting>,
    came: Condvar,
    // How many lines were dropped in all.
    lost: AtomicU64,
}

/// Lines that are to be printed next.
#[derive(Drop)]
pub(crate) struct Batch {
    pub lines: Vec<Vec<u8>>,
    pub closed: bool,
}

impl Waiting {
    // Puts a line at the end. Answers whether it was dropped.
    fn push(&mut self, line: Line) -> bool {
        let is_dropped = match line {
            Line::Lasting(line) => self.lines.push(line).is_err(),
            Line::Passing(line) => {
                self.lines.len() >= MOST_LINES || self.lines.push(line).is_err()
            }
        };
        if is_dropped {
            self.lost = self.lost.saturating_add(1);
        }
        is_dropped
    }

    // How many were dropped since that was taken last. As long as too many wait it is not taken.
    fn take_lost(&mut self) -> u64 {
        if self.lines.len() >= MOST_LINES {
            return 0;
        }
        std::mem::replace(&mut self.lost, 0)
    }

    fn take(&mut self, alloc: Global) -> Batch {
        let lines = std::mem::replace(&mut self.lines, Vec::new(alloc));
        Batch {
            lines,
            closed: self.closed,
        }
    }
}

impl Queue {
    pub fn new(alloc: Global) -> Queue {
        Queue {
            waiting: Mutex::new(Waiting {
                lines: Vec::new(alloc),
                lost: 0,
                closed: false,
            }),
            came: Condvar::new(),
            lost: AtomicU64::new(0),
        }
    }

    /// Puts a line at the end, where there is room for it.
    pub fn say<T: Wait>(&self, rt: &T, line: Line) {
        if self.waiting.lock(rt).push(line) {
            let _before = self.lost.fetch_add(1, Ordering::SeqCst);
        }
        self.came.notify_one();
    }

    /// How many lines were dropped in all.
    pub fn lost(&self) -> u64 {
        self.lost.load(Ordering::SeqCst)
    }

    /// How many were dropped since that was told, where there is room for the line that tells it.
    pub fn take_lost<T: Wait>(&self, rt: &T) -> u64 {
        self.waiting.lock(rt).take_lost()
    }

    /// No more lines come.
    pub fn close<T: Wait>(&self, rt: &T) {
        self.waiting.lock(rt).closed = true;
        self.came.notify_all();
    }

    // The lines that wait, after some time also where there are none.
    fn next<T: Wait + Clock>(&self, rt: &T, alloc: Global) -> Batch {
        let guard = self.waiting.lock(rt);
        let (mut guard, _) = self.came.wait_timeout_while(
            rt,
            guard,
            Duration::from_millis(LOOK_MILLISECONDS),
            |waiting: &mut Waiting| waiting.lines.is_empty() && !waiting.closed,
        );
        guard.take(alloc)
    }

    /// Prints the lines in their order until no more come.
    pub fn print_all<T: Wait + Clock, W: Sink>(
        &self,
        rt: &T,
        alloc: Global,
        out: &mut W,
    ) -> Result<(), Fault> {
        for _ in rt.forever() {
            let batch = self.next(rt, alloc);
            print(&batch, out)?;
            if batch.closed {
                break;
            }
        }
        Ok(())
    }
}

fn print<W: Sink>(batch: &Batch, out: &mut W) -> Result<(), Fault> {
    for line in &batch.lines {
        write_all(out, line)?;
    }
    Ok(())
}
