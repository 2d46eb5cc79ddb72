//! What the program works with.

use std::alloc::Global;

/// What the program works with.
#[derive(Clone, Copy)]
pub(crate) struct FollowHost<'a, F, T> {
    /// Files.
    pub files: &'a F,
    /// Threads, locks, a clock and sockets.
    pub rt: &'a T,
    /// Memory.
    pub alloc: Global,
}
