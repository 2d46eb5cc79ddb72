//! What is committed behind a handover.

ghost use Rattle.std.specs.Prelude.{◌≡◌};
ghost use Rattle.handover_search.specs.HandoverLines.{commits_after};

use blocks::NamedHeader;
use culprit_search::Commit;

/// How many of the commits are above a block.
pub fn commits_after(block: &NamedHeader, commits: &[Commit]) -> usize
    ensures { result ≡ commits_after block.now commits.now }
{
    let view = block.header().view;
    commits.iter().filter(|commit| view < commit.view).count()
}
