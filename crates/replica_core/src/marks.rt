//! Blocks whose payload begins with a mark.

ghost use Rattle.std.specs.Prelude.{◌↔◌, IsTrue};
ghost use Rattle.replica_core.specs.Marks.{IsMarked};

use blocks::Header;

/// How long a mark is, in bytes.
pub const MARK_LEN: usize = 4;

/// Whether the block is above genesis' view, and its payload begins with this mark.
pub fn is_marked(block: &Header, mark: &[u8; MARK_LEN]) -> bool
    ensures { IsTrue result ↔ IsMarked mark.now block.now }
{
    0 < block.view && block.payload[..MARK_LEN] == mark[..]
}
