//! Deliveries that leave something for later.

ghost use Rattle.std.specs.Prelude.{◌≡◌, ◌≢◌, IfErr, IfOk, IfSome, MatchResult};
ghost use Rattle.vote_desk.specs.Deliveries.{IsGoodReply, IsLike, IsTold, SurvivesCrash, act_of};
ghost use Rattle.vote_desk.specs.DeskRefusals.{IsRunning, MayDo};
ghost use Rattle.vote_desk.specs.Receipts.{StandsIn};
ghost use Rattle.vote_desk.specs.Sparing.{RefusesSparing, RepliesSparing, has_more, met_sparing};

use crate::delivery::{deliver_on, deliver_unvoted_on};
use crate::desk_error::DeskError;
use crate::naming::DeskNaming;
use crate::parts::Left;
use crate::reply::{Answer, Reply};
use crate::session::Session;
use crate::state::DeskState;
use certificates::CheckedBlock;
use stable_log::Disk;

// Whether more is left than is to be spared, of the indices and of the log's room.
fn has_more(left: &Left, spare: &Left) -> bool
    ensures { result ≡ has_more left.now spare.now }
{
    spare.indices < left.indices && spare.entries < left.entries
}

/// Delivers a block to a replica that stands behind no lock as `deliver_on` does, where more indices and more entries are left than
/// are to be spared; else as `deliver_unvoted_on` does, so that no index is drawn: then the block is raised or held, and never
/// voted for. A raised lock is stored even so. The block must have been checked with the committee that the desk was opened
/// with. Refused as these two refuse, and left so.
pub fn deliver_sparing_on<N: DeskNaming, D: Disk>(
    state: &mut DeskState<N, D>,
    session: &mut Session<N>,
    block: CheckedBlock,
    spare: &Left,
) -> Result<Reply, DeskError>
    requires { block.committee ≡ N.committee }
    ensures ok { IfOk result (λ reply. RepliesSparing D.Disk N.committee N.replica spare.now
        block.entry reply state.old state.new) }
    ensures exact { IfOk result (λ reply.
        MayDo state.old block.entry.header (act_of reply.act)) }
    ensures reply { IfOk result (IsGoodReply N.committee N.replica block.entry.header) }
    ensures session { MatchResult result (λ reply.
        IsTold session.old.receipts.items session.new.receipts.items session.old.share.amount
        session.new.share.amount reply.act) (λ _. IsTold session.old.receipts.items
        session.new.receipts.items session.old.share.amount session.new.share.amount Answer.Held) }
    ensures stands { IfOk result (λ reply. StandsIn state.new.log.steps reply.act) }

    // A crash at any moment of the call leaves the list from before it, or that with the entry of the planned event.
    ensures any_moment { let met = met_sparing state.old spare.now block.entry.header.view in
        IsRunning state.old → IfSome (D.bytes state.old.log.disk) (λ _.
        SurvivesCrash D.Disk N.committee N.replica N.opening met state.new block.entry) }
    ensures like { IsLike D.bytes state.old state.new }
    ensures refused { IfErr result (λ e.
        RefusesSparing D.Disk spare.now block.entry.header e state.old state.new) }
    ensures undrawn { IfErr result (λ e. e ≢ DeskError.Memory → e ≢ DeskError.Device →
        state.new.indices ≡ state.old.indices) }
{
    if has_more(&state.left(), spare) {
        deliver_on(state, session, block)
    } else {
        deliver_unvoted_on(state, session, block)
    }
}
