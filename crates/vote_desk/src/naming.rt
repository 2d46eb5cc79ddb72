//! What one desk is named by.

ghost use Rattle.std.specs.Prelude.{ℕ, List, []};
ghost use Rattle.blocks.specs.Replica.{Stored};

use std::marker::Brand;
use std::sync::ledger::Ledger;

/// Names one desk in contracts, and its ledger of released votes. Code is generic over a name, and is called with `Brand`
/// for it once for each desk: that call's proof says which committee, replica and list it stands for.
pub trait DeskNaming: Ledger {
    // the bytes of the committee
    ghost committee: { List ℕ };

    // the number of the replica
    ghost replica: { ℕ };

    // the steps that its log had when the desk was opened
    ghost opening: { List Stored };
}

impl DeskNaming for Brand {
    ghost committee = { [] };

    ghost replica = { 0 };

    ghost opening = { [] };
}
