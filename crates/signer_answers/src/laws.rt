//! What a forgotten vote is. Nothing is computed.

ghost use Rattle.signer_answers.specs.Guards.{AForgottenVoteIsNotTheCallers};

use stable_log::Disk;
use vote_desk::DeskNaming;

/// A certificate that stops a caller has a vote of this replica that is none of those that the caller was told itself. The
/// contract is the law, and nothing is computed.
pub fn a_forgotten_vote_is_not_the_callers<N: DeskNaming, D: Disk>()
    ensures { AForgottenVoteIsNotTheCallers D.Disk N.committee N.replica N.opening }
{}
