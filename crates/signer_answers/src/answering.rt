//! What comes of a request.

ghost use Rattle.std.specs.Prelude.{◌≡◌, IfErr, IfOk, None};
ghost use Rattle.vote_desk.specs.Deliveries.{with_receipt};
ghost use Rattle.vote_desk.specs.declared.reply.Answer.TheVariants.{Held};
ghost use Rattle.signer_answers.specs.BlockAnswers.{IsBlockTold, IsFull, IsRefusalWithin, IsReplyWithin, IsSignerAnswer, IsSpared, IsUnspared, IsUnvoted};
ghost use Rattle.signer_answers.specs.Guards.{IsRemembered};
ghost use Rattle.signer_answers.specs.Tellings.{IsShownBy, receipts_behind};
ghost use Rattle.replica_requests.specs.declared.request.Request.TheVariants.{Block};

use crate::approver::Approver;
use crate::caller::Caller;
use crate::guard::{forgets, refusal_of, stop, vote_for};
use crate::keeper::Keeper;
use crate::office::Office;
use crate::sparing::{Way, way_of};
use crate::told::Told;
use blocks::Header;
use certificates::{Certificate, CheckedBlock, Verifier, check_block};
use handover_blocks::HANDOVER_MARK;
use replica_requests::{Outcome, Request, time_out};
use stable_log::Disk;
use std::sync::Wait;
use vote_desk::{Answer, DeskError, DeskNaming, Left, Receipt, Reply, Session};

/// What comes of a request. What asks for nothing of the desk is answered by what is wrong with it. Only a block may need
/// memory: where it is refused, the desk's refusal says so. The keeper is asked of each block that hands over, once its
/// certificate was found good: if another payload is approved, or none, the block is raised or held, and never voted for; and so is a
/// block on genesis, where the keeper says another payload of the one that begins the chain.
/// A good certificate that has a vote of this replica, other than the one in the log, stops the callers of the desk: the block
/// is not delivered, and `PutBack` is answered, behind what the keeper does where it is the first. The caller then has what shows
/// it, and must not ask any more. That callers which come later are stopped is up to who calls this. If the one in the log is
/// not good, on whatever block it is, bytes of it changed on the disk: nobody is stopped, and `Unread` is told. Where the desk holds a block
/// for which the log has this replica's vote, that vote is told `Again`; the desk's refusal, where the log can't be read then for
/// want of memory or since another call stopped it; and that the block is held, where it can't be read otherwise. Where the log is
/// full a block is held and no more, so that what it commits is told.
pub fn answer<'a, N: DeskNaming, T: Wait, D: Disk, V: Verifier, K: Approver + Keeper>(
    rt: &T,
    office: &Office<'a, N, D, K>,
    verifier: &V,
    caller: &mut Caller<'a, N, D, K>,
    request: Request,
) -> Told
    requires unshown { caller.old.shown ≡ None }
    ensures answer { IsSignerAnswer D.Disk N.committee N.replica N.opening
        (K.tells office.now.keeper.now) caller.old.session.receipts.items request result }
    ensures receipts { caller.new.session.receipts.items
        ≡ receipts_behind caller.old.session.receipts.items result }
    ensures shown { IsShownBy office.now.put_back.now.cell.id result caller.new.shown }
{
    match request {
        Request::Block(header, certificate) => {
            judge(rt, office, verifier, caller, header, certificate)
        }
        Request::Timeout(view) => Told::Came(time_out(rt, office.desk, view)),
        Request::RefusedHeader(refusal) => Told::Came(Outcome::RefusedHeader(refusal)),
        Request::RefusedCertificate(refusal) => Told::Came(Outcome::RefusedCertificate(refusal)),
    }
}

// Checks a block, before the desk's lock is taken, and delivers it, unless the log was put back.
fn judge<'a, N: DeskNaming, T: Wait, D: Disk, V: Verifier, K: Approver + Keeper>(
    rt: &T,
    office: &Office<'a, N, D, K>,
    verifier: &V,
    caller: &mut Caller<'a, N, D, K>,
    header: Header,
    certificate: Certificate,
) -> Told
    requires unshown { caller.old.shown ≡ None }
    ensures answer { IsSignerAnswer D.Disk N.committee N.replica N.opening
        (K.tells office.now.keeper.now) caller.old.session.receipts.items (Block header certificate) result }
    ensures receipts { caller.new.session.receipts.items
        ≡ receipts_behind caller.old.session.receipts.items result }
    ensures shown { IsShownBy office.now.put_back.now.cell.id result caller.new.shown }
{
    let block = match check_block(office.committee, verifier, header, certificate) {
        Ok(block) => block,
        Err(refusal) => return Told::Came(Outcome::RefusedBlock(refusal)),
    };
    match forgets(rt, office, caller.session.receipts(), &block) {
        Ok(false) => hand_in(rt, office, &mut caller.session, block),
        Ok(true) => {
            let (ballot, shown) = stop(rt, office, caller.session.receipts(), &block);
            caller.shown = Some(shown);
            Told::PutBack(ballot)
        }
        Err(error) => {
            match refusal_of(error) {
                Some(refusal) => Told::Came(Outcome::RefusedByDesk(refusal)),
                None => Told::Unread(error),
            }
        }
    }
}

// Delivers a block whose certificate is remembered. Where it is held, the log's vote for it is told; where the log can't be read for
// want of memory, or since another call stopped it, the desk's refusal.
fn hand_in<N: DeskNaming, T: Wait, D: Disk, K: Approver + Keeper>(
    rt: &T,
    office: &Office<'_, N, D, K>,
    session: &mut Session<N>,
    block: CheckedBlock,
) -> Told
    requires committee { block.committee ≡ N.committee }
    requires remembered { IsRemembered D.Disk N.committee N.replica N.opening
        session.old.receipts.items block.certificate }
    ensures told { IsBlockTold D.Disk N.committee N.replica N.opening (K.tells office.now.keeper.now)
        session.old.receipts.items block.entry.header block.entry.certificate result }
    ensures receipts { session.new.receipts.items
        ≡ receipts_behind session.old.receipts.items result }
{
    let named = *block.named();
    let reply = match deliver(rt, office, session, block) {
        Ok(reply) => reply,
        Err(refusal) => return Told::Came(Outcome::RefusedByDesk(refusal)),
    };
    if reply.act != Answer::Held {
        return Told::Came(Outcome::Replied(reply));
    }
    match vote_for(rt, office, session.receipts(), &named) {
        Ok(Some(receipt)) => Told::Again(receipt, reply.committed),
        Ok(None) => Told::Came(Outcome::Replied(reply)),
        Err(refusal) => Told::Came(Outcome::RefusedByDesk(refusal)),
    }
}

// Delivers a block. Where the log is full, it is held and no more, so that what it commits is told.
fn deliver<N: DeskNaming, T: Wait, D: Disk, K: Approver + Keeper>(
    rt: &T,
    office: &Office<'_, N, D, K>,
    session: &mut Session<N>,
    block: CheckedBlock,
) -> Result<Reply, DeskError>
    requires committee { block.committee ≡ N.committee }
    requires remembered { IsRemembered D.Disk N.committee N.replica N.opening
        session.old.receipts.items block.certificate }
    ensures reply { IfOk result (IsReplyWithin D.Disk N.committee N.replica N.opening
        (K.tells office.now.keeper.now) session.old.receipts.items block.entry.header block.entry.certificate) }
    ensures refused { IfErr result (IsRefusalWithin D.Disk N.committee N.replica N.opening
        (K.tells office.now.keeper.now) session.old.receipts.items block.entry.header block.entry.certificate) }
    ensures receipt { IfOk result (λ reply.
        session.new.receipts.items ≡ with_receipt session.old.receipts.items reply.act) }
    ensures err { IfErr result (λ e. session.new.receipts.items ≡ session.old.receipts.items) }
{
    if office.desk.left(rt).entries == 0 {
        return hold(rt, office, session.receipts(), block);
    }
    deliver_in_room(rt, office, session, block)
}

// Holds a block, and no more: the log is full.
fn hold<N: DeskNaming, T: Wait, D: Disk, K: Approver + Keeper>(
    rt: &T,
    office: &Office<'_, N, D, K>,
    receipts: &[Receipt],
    block: CheckedBlock,
) -> Result<Reply, DeskError>
    requires full { IsFull D.Disk N.committee N.replica N.opening }
    requires committee { block.committee ≡ N.committee }
    requires remembered { IsRemembered D.Disk N.committee N.replica N.opening
        receipts.now block.certificate }
    ensures held { IfOk result (λ reply. reply.act ≡ Held) }
    ensures reply { IfOk result (IsReplyWithin D.Disk N.committee N.replica N.opening
        (K.tells office.now.keeper.now) receipts.now block.entry.header block.entry.certificate) }
    ensures refused { IfErr result (IsRefusalWithin D.Disk N.committee N.replica N.opening
        (K.tells office.now.keeper.now) receipts.now block.entry.header block.entry.certificate) }
{
    // For the proof: the block's certificate is good.
    let _header = block.header();
    match office.desk.hold(rt, block) {
        Ok(reply) => Ok(reply),
        Err(refusal) => Err(refusal),
    }
}

// Delivers a block, to be voted for only if it may be: no handover that is not approved, or above another in its chain, and none where
// too little is left.
fn deliver_in_room<N: DeskNaming, T: Wait, D: Disk, K: Approver + Keeper>(
    rt: &T,
    office: &Office<'_, N, D, K>,
    session: &mut Session<N>,
    block: CheckedBlock,
) -> Result<Reply, DeskError>
    requires committee { block.committee ≡ N.committee }
    requires remembered { IsRemembered D.Disk N.committee N.replica N.opening
        session.old.receipts.items block.certificate }
    ensures reply { IfOk result (IsReplyWithin D.Disk N.committee N.replica N.opening
        (K.tells office.now.keeper.now) session.old.receipts.items block.entry.header block.entry.certificate) }
    ensures refused { IfErr result (IsRefusalWithin D.Disk N.committee N.replica N.opening
        (K.tells office.now.keeper.now) session.old.receipts.items block.entry.header block.entry.certificate) }
    ensures receipt { IfOk result (λ reply.
        session.new.receipts.items ≡ with_receipt session.old.receipts.items reply.act) }
    ensures err { IfErr result (λ e. session.new.receipts.items ≡ session.old.receipts.items) }
{
    match way_of(rt, office, block.header()) {
        Way::Unvoted => deliver_unvoted(rt, office, session, block),
        Way::Once => deliver_once(rt, office, session, block),
        Way::Sparing(spare) => deliver_sparing(rt, office, session, block, &spare),
    }
}

// Delivers a block that is not voted for.
#[tactic(auto, using(crate::proofs::Unvoted::unvoted_adds_none))]
fn deliver_unvoted<N: DeskNaming, T: Wait, D: Disk, K: Approver + Keeper>(
    rt: &T,
    office: &Office<'_, N, D, K>,
    session: &mut Session<N>,
    block: CheckedBlock,
) -> Result<Reply, DeskError>
    requires committee { block.committee ≡ N.committee }
    requires remembered { IsRemembered D.Disk N.committee N.replica N.opening
        session.old.receipts.items block.certificate }
    requires unvoted { IsUnvoted D.Disk N.committee N.replica N.opening
        (K.tells office.now.keeper.now) block.header }
    ensures reply { IfOk result (IsReplyWithin D.Disk N.committee N.replica N.opening
        (K.tells office.now.keeper.now) session.old.receipts.items block.entry.header block.entry.certificate) }
    ensures refused { IfErr result (IsRefusalWithin D.Disk N.committee N.replica N.opening
        (K.tells office.now.keeper.now) session.old.receipts.items block.entry.header block.entry.certificate) }
    ensures receipt { IfOk result (λ reply.
        session.new.receipts.items ≡ with_receipt session.old.receipts.items reply.act) }
    ensures err { IfErr result (λ e. session.new.receipts.items ≡ session.old.receipts.items) }
{
    // For the proof: the block's certificate is good.
    let _header = block.header();
    match office.desk.deliver_unvoted(rt, session, block) {
        Ok(reply) => Ok(reply),
        Err(refusal) => Err(refusal),
    }
}

// Delivers a block that may be voted for where more is left than is to be spared.
fn deliver_sparing<N: DeskNaming, T: Wait, D: Disk, K: Approver + Keeper>(
    rt: &T,
    office: &Office<'_, N, D, K>,
    session: &mut Session<N>,
    block: CheckedBlock,
    spare: &Left,
) -> Result<Reply, DeskError>
    requires committee { block.committee ≡ N.committee }
    requires remembered { IsRemembered D.Disk N.committee N.replica N.opening
        session.old.receipts.items block.certificate }
    requires spared { IsSpared D.Disk N.committee N.replica N.opening
        (K.tells office.now.keeper.now) block.header spare.now }
    ensures reply { IfOk result (IsReplyWithin D.Disk N.committee N.replica N.opening
        (K.tells office.now.keeper.now) session.old.receipts.items block.entry.header block.entry.certificate) }
    ensures refused { IfErr result (IsRefusalWithin D.Disk N.committee N.replica N.opening
        (K.tells office.now.keeper.now) session.old.receipts.items block.entry.header block.entry.certificate) }
    ensures receipt { IfOk result (λ reply.
        session.new.receipts.items ≡ with_receipt session.old.receipts.items reply.act) }
    ensures err { IfErr result (λ e. session.new.receipts.items ≡ session.old.receipts.items) }
{
    // For the proof: the block's certificate is good.
    let _header = block.header();
    match office.desk.deliver_sparing(rt, session, block, spare) {
        Ok(reply) => Ok(reply),
        Err(refusal) => Err(refusal),
    }
}

// Delivers a block that may be voted for, unless it hands over above another one that does.
fn deliver_once<N: DeskNaming, T: Wait, D: Disk, K: Approver + Keeper>(
    rt: &T,
    office: &Office<'_, N, D, K>,
    session: &mut Session<N>,
    block: CheckedBlock,
) -> Result<Reply, DeskError>
    requires committee { block.committee ≡ N.committee }
    requires remembered { IsRemembered D.Disk N.committee N.replica N.opening
        session.old.receipts.items block.certificate }
    requires unspared { IsUnspared D.Disk N.committee N.replica N.opening
        (K.tells office.now.keeper.now) block.header }
    ensures reply { IfOk result (IsReplyWithin D.Disk N.committee N.replica N.opening
        (K.tells office.now.keeper.now) session.old.receipts.items block.entry.header block.entry.certificate) }
    ensures refused { IfErr result (IsRefusalWithin D.Disk N.committee N.replica N.opening
        (K.tells office.now.keeper.now) session.old.receipts.items block.entry.header block.entry.certificate) }
    ensures receipt { IfOk result (λ reply.
        session.new.receipts.items ≡ with_receipt session.old.receipts.items reply.act) }
    ensures err { IfErr result (λ e. session.new.receipts.items ≡ session.old.receipts.items) }
{
    // For the proof: the block's certificate is good.
    let _header = block.header();
    match office
        .desk
        .deliver_marked_once(rt, session, block, HANDOVER_MARK)
    {
        Ok(reply) => Ok(reply),
        Err(refusal) => Err(refusal),
    }
}
