//! What answers a request.

/// What answers a request of either kind.
#[derive(Clone, Copy, Debug, PartialEq, Eq)]
pub enum Reply {
    /// An export with so many frames.
    Frames(u32),
    /// That this log is not one of the chain that was named.
    NoLog,
}
