//! A verdict that proves what it says.

ghost use Rattle.std.specs.Prelude.{◌≡◌, IfOk};
ghost use Rattle.verdict_format.specs.Verdicts.{replica_in};
ghost use Rattle.watch_report.specs.Proved.{IsProved, pair_in};

use blocks::Ballot;
use std::alloc::{AllocError, Global};
use std::marker::Model;

/// By which two votes a replica broke a rule.
#[derive(Clone, Copy, Debug, PartialEq, Eq)]
pub struct Pair {
    /// The number of the rule, 1 or 2.
    pub rule: u8,
    /// For which block it voted first.
    pub earlier: Ballot,
    /// For which it voted then.
    pub later: Ballot,
}

/// A verdict that proves, under the file of some committee whose chain it names, that a replica broke a voting rule. Contracts see
/// its bytes.
#[derive(Drop)]
pub struct ProvedVerdict {
    replica: u16,
    pair: Pair,
    bytes: Vec<u8>,
}

impl Model for ProvedVerdict {
    ghost use Rattle.std.specs.Prelude.{◌≡◌, ℕ, List};
    ghost use Rattle.verdict_format.specs.Verdicts.{replica_in};
    ghost use Rattle.watch_report.specs.Proved.{IsProved, pair_in};

    ghost Value = { List ℕ };

    ghost view = { λ v. v.bytes.items };

    ghost invariant = { λ v. (v.replica ≡ replica_in v.bytes.items)
        × (v.pair ≡ pair_in v.bytes.items) × IsProved v.bytes.items };
}

impl ProvedVerdict {
    /// The verdict of these bytes, which must be a proof under the file of some committee, on this replica and of these votes. An
    /// error where memory is refused.
    pub fn copy_of(
        alloc: Global,
        replica: u16,
        pair: Pair,
        bytes: &[u8],
    ) -> Result<ProvedVerdict, AllocError>
        requires replica { replica ≡ replica_in bytes.now }
        requires pair { pair ≡ pair_in bytes.now }
        requires proved { IsProved bytes.now }
        ensures { IfOk result (λ v. v ≡ bytes.now) }
    {
        Ok(ProvedVerdict {
            replica,
            pair,
            bytes: bytes.to_vec(alloc)?,
        })
    }

    /// The number of the accused replica.
    pub fn replica(&self) -> u16
        ensures { result ≡ replica_in self.now }
    {
        self.replica
    }

    /// Which rule it broke, and by which votes.
    pub fn pair(&self) -> Pair
        ensures { result ≡ pair_in self.now }
    {
        self.pair
    }

    /// The bytes.
    pub fn as_bytes(&self) -> &[u8]
        ensures value { result.now ≡ self.now }
        ensures proved { IsProved self.now }
    {
        self.bytes.as_slice()
    }
}
