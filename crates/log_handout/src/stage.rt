//! How far an export has gone out.

/// What comes next of an export.
#[derive(Clone, Copy, Debug, PartialEq, Eq)]
pub enum Stage {
    /// Its first four bytes.
    Front,
    /// Frames, or its end.
    Frames,
    /// Nothing.
    Over,
}
