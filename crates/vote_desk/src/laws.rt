//! What is found through the lock, where each call finds the desk as the call before it left it. Nothing is computed.

ghost use Rattle.vote_desk.specs.Later.{AFoundVoteWasReleased, AReleasedVoteIsFound};

use crate::naming::DeskNaming;
use stable_log::Disk;

/// Over any calls of a desk, by whichever sessions: a vote that one of them released is found behind them, under its number, and
/// with its view and id; and a vote that is found behind them stood in the list before them, or one of them released it. The
/// contract is the law, and nothing is computed.
pub fn what_is_found_was_released<N: DeskNaming, D: Disk>()
    ensures found { AReleasedVoteIsFound D.Disk N.committee N.replica N.opening }
    ensures none_else { AFoundVoteWasReleased D.Disk N.committee N.replica }
{}
