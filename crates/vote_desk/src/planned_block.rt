//! A block beside the plan for it.

ghost use Rattle.std.specs.Prelude.{◌≡◌};

use certificates::CheckedBlock;
use replica_core::Plan;

/// A checked block and the plan that the core made of it. A plan of another block cannot stand here, so that what is
/// stored, signed and applied is always of one block.
#[derive(Drop)]
pub(crate) struct PlannedBlock<'a> {
    pub(crate) block: CheckedBlock<'a>,
    pub(crate) plan: Plan,
    pub(crate) ghost of_block: { plan.block ≡ block.header },
}
