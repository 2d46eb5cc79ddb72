//! Why a request is not answered.

ghost use Rattle.std.specs.Prelude.{◌≡◌};
ghost use Rattle.log_server.specs.Serving.{serve_error_number};

/// Why a request is not answered. The numbers are fixed.
#[derive(Clone, Copy, Debug, PartialEq, Eq)]
pub enum ServeError {
    /// Memory for a frame was refused.
    Memory = 1,
    /// The log's disk failed in this call.
    Device = 2,
    /// The sink failed in this call.
    Sink = 3,
    /// The feed failed in this call.
    Source = 4,
    /// The feed ended before 12 bytes came, or they are no request.
    BadRequest = 5,
    /// The log's disk failed in an earlier `append`: take it out and recover it.
    Stopped = 6,
}

impl ServeError {
    /// The number of the refusal, which never changes.
    pub fn number(self) -> u8
        ensures { result ≡ serve_error_number self }
    {
        self as u8
    }
}
