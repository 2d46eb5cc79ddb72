//! The part of the log that a query asks for.

ghost use Rattle.std.specs.Prelude.{◌≡◌};
ghost use Rattle.signer_calls.specs.LogParts.{part_of};

use crate::query::Query;

/// How many entries one call copies at the most.
pub const MOST_ENTRIES_AT_ONCE: u32 = 64;

/// The entries from `first` on, counted from 0, `most` at the most.
#[derive(Clone, Copy, Debug, PartialEq, Eq)]
pub struct LogPart {
    pub first: u32,
    pub most: u32,
}

// The part that a query asks for: what is left out is 0 and 64.
pub(crate) fn part_of(query: &Query) -> LogPart
    ensures { result ≡ part_of query.now }
{
    LogPart {
        first: query.first.unwrap_or(0),
        most: query.most.unwrap_or(MOST_ENTRIES_AT_ONCE),
    }
}
