//! Whose next keys are made.

ghost use Rattle.std.specs.Prelude.{◌≤◌};
ghost use Rattle.base_wire.specs.declared.limits.TheConstants.{MOST_KEYS};

use blocks::Id;

/// Whose next keys these are, and how many: those of a replica behind the committee of a chain.
#[derive(Clone, Copy, Debug)]
pub struct Behind {
    /// The chain id of the committee that they come behind.
    pub chain: Id,
    /// The replica's number.
    pub replica: u16,
    /// At most 4.
    pub count: u8,
    pub ghost most: { count ≤ MOST_KEYS },
}
