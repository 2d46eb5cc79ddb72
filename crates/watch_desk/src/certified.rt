//! How far the certified blocks go.

ghost use Rattle.std.specs.Prelude.{◌≡◌};
ghost use Rattle.watch_desk.specs.Hearing.{highest};

use crate::votes::larger;
use blocks::NamedHeader;

fn view_of(block: &NamedHeader) -> u64
    ensures { result ≡ block.now.view }
{
    block.header().view
}

/// The greatest view of these blocks, or 0.
pub(crate) fn highest(blocks: &[NamedHeader]) -> u64
    ensures { result ≡ highest 0 blocks.now }
{
    let mut top = 0;
    for block in blocks {
        top = larger(top, view_of(block));
    }
    top
}
