//! The order of parts.

ghost use Rattle.std.specs.List.Sorted.{IsSorted};
ghost use Rattle.std.specs.Prelude.{IsPermutation};

use crate::name::PartFile;

/// Puts the parts in the order of their names: by replica, source, log and place. None is lost.
pub fn put_in_order(parts: &mut Vec<PartFile>)
    ensures same { IsPermutation parts.old.items parts.new.items }
    ensures sorted { IsSorted ⟦<PartFile as Ord>⟧.cmp parts.new.items }
{
    parts.sort_unstable();
}
