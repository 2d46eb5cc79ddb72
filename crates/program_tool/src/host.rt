//! What the commands are lent.

use std::alloc::Global;
use std::io::Stderr;

/// What the commands work with.
#[derive(Clone, Copy)]
pub struct ToolHost<'a, F, T> {
    /// Files.
    pub files: &'a F,
    /// Threads, locks, a clock and sockets.
    pub rt: &'a T,
    /// Memory.
    pub alloc: Global,
    /// Where an audit shows how far it has come, if someone looks.
    pub console: Option<Stderr>,
    /// Whether someone types the standard input.
    pub is_typed: bool,
}
