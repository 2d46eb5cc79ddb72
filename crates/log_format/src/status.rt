//! How a stream ends.

ghost use Rattle.std.specs.Prelude.{◌≡◌};

/// How a stream ends, for a reader that takes its whole frames. Frames that came before are kept, whatever
/// the status.
#[derive(Clone, Copy, Debug, PartialEq, Eq)]
pub enum Status {
    /// The end mark came, and names the number of frames of this stream.
    Whole,
    /// The stream ended before that, or before anything else could be told.
    Cut,
    /// The stream has another magic, a length over 65,536, or an end mark that names another number of frames.
    Broken,
    /// One more frame than 4,096 began.
    TooLong,
    /// A read or a connect failed before anything else could be told.
    Failed,
}

impl Status {
    ghost use Rattle.log_format.specs.Readings.{status_name};

    /// The word that is printed: `Whole`, `Cut`, `Broken`, `TooLong` or `Failed`.
    pub fn name(self) -> &'static str
        ensures { result.now ≡ status_name self }
    {
        match self {
            Status::Whole => "Whole",
            Status::Cut => "Cut",
            Status::Broken => "Broken",
            Status::TooLong => "TooLong",
            Status::Failed => "Failed",
        }
    }
}
