//! Why a core refuses a block.

ghost use Rattle.std.specs.Prelude.{◌≡◌};
ghost use Rattle.replica_core.specs.Admission.{core_refusal_number};
ghost use Rattle.replica_core.specs.declared.refusal.CoreRefusal.TheVariants.{Memory};

use std::alloc::AllocError;

/// Why a core refuses a block. Memory is asked for last; the others are tested in this order.
#[derive(Clone, Copy, Debug, PartialEq, Eq)]
pub enum CoreRefusal {
    /// Memory for one more header was refused.
    Memory = 1,
    /// No header is held that has the id that the block names as its parent.
    UnknownParent = 2,
    /// The held parent's view is not the one that the block names.
    ParentView = 3,
    /// 65,536 headers are held, genesis among them, and this one is not.
    TreeFull = 4,
    /// Another header is held under the block's id.
    SameId = 5,
}

impl CoreRefusal {
    /// The number of the refusal, which never changes.
    pub fn number(self) -> u8
        ensures { result ≡ core_refusal_number self }
    {
        self as u8
    }
}

impl From<AllocError> for CoreRefusal {
    ghost from_gives = { λ _ refusal. refusal ≡ Memory };

    fn from(_refused: AllocError) -> CoreRefusal {
        CoreRefusal::Memory
    }
}
