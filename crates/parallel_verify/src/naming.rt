//! What a board is named by.

ghost use Rattle.std.specs.Prelude.{ℕ, List, []};

use std::marker::Brand;

/// Names the committee of a board in contracts, so that the type of what stands under its lock says which committee the
/// answers are under. Code is generic over a name, and is called with `Brand` for it: that call's proof says which
/// committee it stands for.
pub trait BoardNaming {
    // the bytes of the committee
    ghost committee: { List ℕ };
}

impl BoardNaming for Brand {
    ghost committee = { [] };
}
