//! Why a desk is not opened.

ghost use Rattle.std.specs.Prelude.{◌≡◌};
ghost use Rattle.vote_desk.specs.DeskRefusals.{start_error_number};

/// Why a desk is not opened. The numbers are fixed, and the tests come in their order, but that memory is asked for last.
#[derive(Clone, Copy, Debug, PartialEq, Eq)]
pub enum StartError {
    /// A growth was refused.
    Memory = 1,
    /// The committee has no such replica.
    UnknownReplica = 2,
    /// The trees are not those of the replica's keys in the committee, in their order, or the index store is of another
    /// number of keys.
    WrongKey = 3,
    /// The log's genesis is not the committee's.
    WrongChain = 4,
    /// The log or the index store is stopped: take its disk out and recover it.
    Stopped = 5,
}

impl StartError {
    /// The number of the refusal, which never changes.
    pub fn number(self) -> u8
        ensures { result ≡ start_error_number self }
    {
        self as u8
    }
}
