//! The desk behind its lock.

ghost use Rattle.std.specs.Prelude.{List, ℕ, ◌≡◌, ◌≢◌, ◌≤◌, ◌+◌, ◌++◌, ◌<◌, ◌⊎◌, ◌↔◌, [], length, drop, map, min, vec_len, IfErr, IfOk, IfSome, IsTrue, MatchOption, OnErr, OnOk, Some};
ghost use Rattle.std.specs.List.{All, Contains};
ghost use Rattle.std.specs.List.Sorted.{IsPermutation};
ghost use Rattle.blocks.specs.Genesis.{genesis_of};
ghost use Rattle.blocks.specs.Replay.{ballots_in};
ghost use Rattle.base_wire.specs.declared.limits.TheConstants.{MOST_ENTRIES, MOST_KEYS};
ghost use Rattle.key_index_store.specs.Indices.{limit_of};
ghost use Rattle.replica_core.specs.Marks.{HasNoMarkedIn, IsFirstMarkedIn};
ghost use Rattle.vote_desk.specs.Deliveries.{CommitsIn, IsGoodAnswer, IsGoodReply, act_of, released_by, with_receipt};
ghost use Rattle.vote_desk.specs.DeskRefusals.{IsStartRefusal, IsStartable, IsStopped};
ghost use Rattle.vote_desk.specs.Desks.{HoldsId, KeepsDesk, desk_of, left_of, status_of, vote_count};
ghost use Rattle.handover_keys.specs.Endorsements.{IsSigned};
ghost use Rattle.vote_desk.specs.Endorsing.{Endorses, IsNoVote, RefusesToEndorse};
ghost use Rattle.vote_desk.specs.Exports.{IsOut, RefusesExport};
ghost use Rattle.vote_desk.specs.Firsts.{IsMarkedAgain, IsMarkedOnce, RefusesOnce, RepliesOnce};
ghost use Rattle.vote_desk.specs.Holding.{IsHeldOnly, RefusesHold};
ghost use Rattle.vote_desk.specs.Receipts.{AreRisingByNumber, AreReceipts, KeepsReceipts, receipt_ballot, receipts_of};
ghost use Rattle.vote_desk.specs.Released.{RefusesVoteWith};
ghost use Rattle.vote_desk.specs.SomeDesk.{IsDeskOf, Refuses, RefusesUnvoted, Replies, RepliesUnvoted, SomeDesk, SomeDeskMoves, TimesOut};
ghost use Rattle.vote_desk.specs.Sparing.{RefusesSparing, RepliesSparing};
ghost use Rattle.vote_desk.specs.Stays.{AreLeftByStay, IsStay};
ghost use Rattle.vote_desk.specs.Votes.{AreFound, IsFoundAsOpened, IsNoneFoundBelow, IsVoteFound, RefusesVoteIn};

use crate::closing::close_on;
use crate::delivery::{deliver_on, deliver_unvoted_on, timeout_on};
use crate::desk_error::DeskError;
use crate::endorsing::endorse_on;
use crate::holding::hold_on;
use crate::naming::DeskNaming;
use crate::parts::{Closed, DeskStatus, Left, Parts};
use crate::reply::{Answer, Receipt, Reply};
use crate::seal::Seal;
use crate::session::Session;
use crate::sparing::deliver_sparing_on;
use crate::start_error::StartError;
use crate::state::DeskState;
use crate::votes::number_not_found;
use base_streams::MemorySink;
use blocks::{CommitteeView, Header, Id};
use certificates::CheckedBlock;
use handover_keys::NextKeysView;
use replica_core::{Act, MARK_LEN};
use stable_log::Disk;
use std::alloc::Global;
use std::sync::ledger::Blank;
use std::sync::{Mutex, Wait};
use vote_log::{ExportError, LogError};

/// How many frames one `export` copies under the lock at the most.
pub const MOST_FRAMES_AT_ONCE: u32 = 64;

// Delivers a block to a desk of which no more is known than what each desk keeps.
fn deliver_to<N: DeskNaming, D: Disk>(
    state: &mut DeskState<N, D>,
    session: &mut Session<N>,
    block: CheckedBlock,
) -> Result<Reply, DeskError>
    requires { block.committee ≡ N.committee }
    ensures receipt { IfOk result (λ reply.
        session.new.receipts.items ≡ with_receipt session.old.receipts.items reply.act) }
    ensures share { IfOk result (λ reply.
        session.new.share.amount ≡ session.old.share.amount + released_by reply.act) }
    ensures answer { IfOk result (λ reply.
        IsGoodAnswer N.committee N.replica block.entry.header reply.act) }
    ensures committed { IfOk result (λ reply. IfSome reply.committed
        (CommitsIn (genesis_of N.committee) block.entry.header)) }
    ensures err { OnErr result ((session.new.receipts.items ≡ session.old.receipts.items)
        × (session.new.share.amount ≡ session.old.share.amount)) }
    ensures event { IfOk result (λ reply.
        SomeDeskMoves (IsDeskOf D.Disk N.committee N.replica N.opening)
        (Replies D.Disk N.committee N.replica block.entry reply)) }
    ensures refused { IfErr result (λ e.
        SomeDeskMoves (IsDeskOf D.Disk N.committee N.replica N.opening)
        (Refuses D.Disk block.entry.header e)) }
{
    // For the proof: what each desk keeps, before and after.
    let _core = state.core();
    let answer = deliver_on(state, session, block);
    let _core = state.core();
    answer
}

// Delivers a block unvoted to a desk of which no more is known than what each desk keeps.
fn deliver_unvoted_to<N: DeskNaming, D: Disk>(
    state: &mut DeskState<N, D>,
    session: &mut Session<N>,
    block: CheckedBlock,
) -> Result<Reply, DeskError>
    requires { block.committee ≡ N.committee }
    ensures unvoted { IfOk result (λ reply. act_of reply.act ≢ Act.Vote) }
    ensures reply { IfOk result (IsGoodReply N.committee N.replica block.entry.header) }
    ensures session { (session.new.receipts.items ≡ session.old.receipts.items)
        × (session.new.share.amount ≡ session.old.share.amount) }
    ensures event { IfOk result (λ reply.
        SomeDeskMoves (IsDeskOf D.Disk N.committee N.replica N.opening)
        (RepliesUnvoted D.Disk N.committee N.replica block.entry reply)) }
    ensures refused { IfErr result (λ e.
        SomeDeskMoves (IsDeskOf D.Disk N.committee N.replica N.opening)
        (RefusesUnvoted D.Disk block.entry.header e)) }
{
    // For the proof: what each desk keeps, before and after.
    let _core = state.core();
    let answer = deliver_unvoted_on(state, session, block);
    let _core = state.core();
    answer
}

// Delivers a block sparingly to a desk of which no more is known than what each desk keeps.
fn deliver_sparing_to<N: DeskNaming, D: Disk>(
    state: &mut DeskState<N, D>,
    session: &mut Session<N>,
    block: CheckedBlock,
    spare: &Left,
) -> Result<Reply, DeskError>
    requires { block.committee ≡ N.committee }
    ensures receipt { IfOk result (λ reply.
        session.new.receipts.items ≡ with_receipt session.old.receipts.items reply.act) }
    ensures share { IfOk result (λ reply.
        session.new.share.amount ≡ session.old.share.amount + released_by reply.act) }
    ensures reply { IfOk result (IsGoodReply N.committee N.replica block.entry.header) }
    ensures err { OnErr result ((session.new.receipts.items ≡ session.old.receipts.items)
        × (session.new.share.amount ≡ session.old.share.amount)) }
    ensures event { IfOk result (λ reply.
        SomeDeskMoves (IsDeskOf D.Disk N.committee N.replica N.opening)
        (RepliesSparing D.Disk N.committee N.replica spare.now block.entry reply)) }
    ensures refused { IfErr result (λ e.
        SomeDeskMoves (IsDeskOf D.Disk N.committee N.replica N.opening)
        (RefusesSparing D.Disk spare.now block.entry.header e)) }
{
    // For the proof: what each desk keeps, before and after.
    let _core = state.core();
    let answer = deliver_sparing_on(state, session, block, spare);
    let _core = state.core();
    answer
}

// Holds a block at a desk of which no more is known than what each desk keeps.
fn hold_to<N: DeskNaming, D: Disk>(
    state: &mut DeskState<N, D>,
    block: CheckedBlock,
) -> Result<Reply, DeskError>
    requires { block.committee ≡ N.committee }
    ensures held { IfOk result (λ reply. reply.act ≡ Answer.Held) }
    ensures reply { IfOk result (IsGoodReply N.committee N.replica block.entry.header) }
    ensures event { IfOk result (λ reply.
        SomeDeskMoves (IsDeskOf D.Disk N.committee N.replica N.opening)
        (IsHeldOnly block.entry.header reply)) }
    ensures refused { IfErr result (λ e.
        SomeDeskMoves (IsDeskOf D.Disk N.committee N.replica N.opening)
        (RefusesHold block.entry.header e)) }
{
    // For the proof: what each desk keeps, before and after.
    let _core = state.core();
    let answer = hold_on(state, block);
    let _core = state.core();
    answer
}

// Signs a statement at a desk of which no more is known than what each desk keeps.
fn endorse_to<N: DeskNaming, D: Disk>(
    state: &mut DeskState<N, D>,
    statement: &NextKeysView,
) -> Result<Seal, DeskError>
    ensures signed { IfOk result (λ seal.
        IsSigned N.committee N.replica seal.key statement.now seal.signature) }
    ensures no_vote { IsNoVote statement.now }
    ensures event { IfOk result (λ seal.
        SomeDeskMoves (IsDeskOf D.Disk N.committee N.replica N.opening)
        (Endorses D.Disk N.committee N.replica statement.now seal)) }
    ensures refused { IfErr result (λ e.
        SomeDeskMoves (IsDeskOf D.Disk N.committee N.replica N.opening)
        (RefusesToEndorse D.Disk e)) }
{
    // For the proof: what each desk keeps, before and after.
    let _core = state.core();
    let answer = endorse_on(state, statement);
    let _core = state.core();
    answer
}

// Delivers a block that is not marked again, as `deliver_to` does.
fn deliver_first_to<N: DeskNaming, D: Disk>(
    state: &mut DeskState<N, D>,
    session: &mut Session<N>,
    block: CheckedBlock,
    mark: &[u8; MARK_LEN],
) -> Result<Reply, DeskError>
    requires committee { block.committee ≡ N.committee }
    requires once { IsMarkedOnce state.old mark.now block.header }
    ensures receipt { IfOk result (λ reply.
        session.new.receipts.items ≡ with_receipt session.old.receipts.items reply.act) }
    ensures share { IfOk result (λ reply.
        session.new.share.amount ≡ session.old.share.amount + released_by reply.act) }
    ensures reply { IfOk result (IsGoodReply N.committee N.replica block.entry.header) }
    ensures err { OnErr result ((session.new.receipts.items ≡ session.old.receipts.items)
        × (session.new.share.amount ≡ session.old.share.amount)) }
    ensures event { IfOk result (λ reply.
        SomeDeskMoves (IsDeskOf D.Disk N.committee N.replica N.opening)
        (RepliesOnce D.Disk N.committee N.replica mark.now block.entry reply)) }
    ensures refused { IfErr result (λ e.
        SomeDeskMoves (IsDeskOf D.Disk N.committee N.replica N.opening)
        (RefusesOnce D.Disk mark.now block.entry.header e)) }
{
    // For the proof: what each desk keeps, before and after.
    let _core = state.core();
    let answer = deliver_on(state, session, block);
    let _core = state.core();
    answer
}

// Delivers a block that is marked again, as `deliver_unvoted_to` does.
fn deliver_again_to<N: DeskNaming, D: Disk>(
    state: &mut DeskState<N, D>,
    session: &mut Session<N>,
    block: CheckedBlock,
    mark: &[u8; MARK_LEN],
) -> Result<Reply, DeskError>
    requires committee { block.committee ≡ N.committee }
    requires again { IsMarkedAgain state.old mark.now block.header }
    ensures receipt { IfOk result (λ reply.
        session.new.receipts.items ≡ with_receipt session.old.receipts.items reply.act) }
    ensures share { IfOk result (λ reply.
        session.new.share.amount ≡ session.old.share.amount + released_by reply.act) }
    ensures reply { IfOk result (IsGoodReply N.committee N.replica block.entry.header) }
    ensures err { OnErr result ((session.new.receipts.items ≡ session.old.receipts.items)
        × (session.new.share.amount ≡ session.old.share.amount)) }
    ensures event { IfOk result (λ reply.
        SomeDeskMoves (IsDeskOf D.Disk N.committee N.replica N.opening)
        (RepliesOnce D.Disk N.committee N.replica mark.now block.entry reply)) }
    ensures refused { IfErr result (λ e.
        SomeDeskMoves (IsDeskOf D.Disk N.committee N.replica N.opening)
        (RefusesOnce D.Disk mark.now block.entry.header e)) }
{
    // For the proof: what each desk keeps, before and after.
    let _core = state.core();
    let answer = deliver_unvoted_on(state, session, block);
    let _core = state.core();
    answer
}

// Delivers a block, to be voted for only if it is not marked again.
fn deliver_once_to<N: DeskNaming, D: Disk>(
    state: &mut DeskState<N, D>,
    session: &mut Session<N>,
    block: CheckedBlock,
    mark: &[u8; MARK_LEN],
) -> Result<Reply, DeskError>
    requires { block.committee ≡ N.committee }
    ensures receipt { IfOk result (λ reply.
        session.new.receipts.items ≡ with_receipt session.old.receipts.items reply.act) }
    ensures share { IfOk result (λ reply.
        session.new.share.amount ≡ session.old.share.amount + released_by reply.act) }
    ensures reply { IfOk result (IsGoodReply N.committee N.replica block.entry.header) }
    ensures err { OnErr result ((session.new.receipts.items ≡ session.old.receipts.items)
        × (session.new.share.amount ≡ session.old.share.amount)) }
    ensures event { IfOk result (λ reply.
        SomeDeskMoves (IsDeskOf D.Disk N.committee N.replica N.opening)
        (RepliesOnce D.Disk N.committee N.replica mark.now block.entry reply)) }
    ensures refused { IfErr result (λ e.
        SomeDeskMoves (IsDeskOf D.Disk N.committee N.replica N.opening)
        (RefusesOnce D.Disk mark.now block.entry.header e)) }
{
    if state.is_marked_again(block.header(), mark) {
        deliver_again_to(state, session, block, mark)
    } else {
        deliver_first_to(state, session, block, mark)
    }
}

// Gives up on views at a desk of which no more is known than what each desk keeps.
fn timeout_to<N: DeskNaming, D: Disk>(
    state: &mut DeskState<N, D>,
    view: u64,
) -> Result<(), DeskError>
    ensures event { OnOk result (SomeDeskMoves
        (IsDeskOf D.Disk N.committee N.replica N.opening) (TimesOut view)) }
    ensures refused { IfErr result (λ e. (e ≡ DeskError.Stopped)
        × SomeDesk (IsDeskOf D.Disk N.committee N.replica N.opening) (λ d. IsStopped d)) }
{
    // For the proof: what each desk keeps, before and after.
    let _core = state.core();
    let answer = timeout_on(state, view);
    let _core = state.core();
    answer
}

// Finds the vote in a view at a desk of which no more is known than what each desk keeps.
fn vote_in_from<N: DeskNaming, D: Disk>(
    state: &mut DeskState<N, D>,
    view: u64,
) -> Result<Option<Receipt>, LogError>
    ensures ok { IfOk result (λ found. SomeDesk (IsDeskOf D.Disk N.committee N.replica N.opening)
        (λ d. IsVoteFound D.bytes N.replica d.log view found)) }
    ensures opened { IfOk result (IsFoundAsOpened N.opening view) }
    ensures none_below { IfOk result (IsNoneFoundBelow (genesis_of N.committee) N.opening view) }
    ensures refused { IfErr result (λ e.
        SomeDeskMoves (IsDeskOf D.Disk N.committee N.replica N.opening)
        (RefusesVoteIn D.Disk view e)) }
{
    // For the proof: what each desk keeps, before and after.
    let _core = state.core();
    let found = state.vote_in(view);
    let _core = state.core();
    found
}

// Copies a part of the log of a desk of which no more is known than what each desk keeps.
fn export_from<N: DeskNaming, D: Disk>(
    state: &mut DeskState<N, D>,
    first: u32,
    most: u32,
    copy: &mut MemorySink,
) -> Result<u32, ExportError>
    ensures ok { IfOk result (λ frames. SomeDesk (IsDeskOf D.Disk N.committee N.replica N.opening)
        (λ d. IsOut D.bytes d.log first most (Some copy.old.bytes) (Some copy.new.bytes) frames)) }
    ensures refused { IfErr result (λ e.
        SomeDeskMoves (IsDeskOf D.Disk N.committee N.replica N.opening)
        (RefusesExport D.Disk first most e)) }
    ensures unwritten { IfErr result (λ e. e ≢ ExportError.Device → e ≢ ExportError.Sink →
        copy.new ≡ copy.old) }
{
    // For the proof: what each desk keeps, before and after.
    let _core = state.core();
    let frames = state.export(first, most, copy);
    let _core = state.core();
    frames
}

/// A replica's desk, for many sessions in many threads. Each call holds the lock for as long as it works, so calls come
/// one after the other, in any order. Certificates are checked before: see `certificates::check_block`.
#[derive(Drop)]
pub struct Desk<N: DeskNaming, D: Disk> {
    state: Mutex<DeskState<N, D>>,
}

impl<N: DeskNaming, D: Disk> Desk<N, D> {
    /// Opens a desk on what is stored, as `DeskState::open` does, and puts it behind a lock. Answers it beside its
    /// sessions, 1 to 64, one for each part of the blank. A refusal drops the blank and hands the parts back. In this
    /// order: `Memory`, `UnknownReplica`, `WrongKey`, `WrongChain`, `Stopped`.
    pub fn start(
        alloc: Global,
        blank: Blank,
        committee: &CommitteeView,
        replica: u16,
        parts: Parts<D>,
        sessions: u8,
    ) -> Result<(Desk<N, D>, Vec<Session<N>>), (StartError, Parts<D>)>
        requires name { blank.name ≡ N.name }
        requires ledger { (blank.parts ≡ N.parts) × (N.parts ≡ sessions) }
        requires sessions { (1 ≤ sessions) × (sessions ≤ 64) }
        requires committee { committee.now ≡ N.committee }
        requires replica { replica ≡ N.replica }
        requires opening { parts.log.steps ≡ N.opening }

        ensures exact { OnOk result
            (IsStartable committee.now replica parts.trees.items parts.log parts.index) }
        ensures sessions { IfOk result (λ r. vec_len r.1 ≡ sessions) }
        ensures none_released { IfOk result (λ r. All (λ s. s.receipts.items ≡ []) r.1.items) }
        ensures first_refusal { IfErr result (λ e.
            IsStartRefusal committee.now replica parts.trees.items parts.log parts.index e.0) }
        ensures err { IfErr result (λ e. e.1 ≡ parts) }
    {
        let (state, sessions) = DeskState::<N, D>::open(
            alloc, blank, committee, replica, parts, sessions,
        )?;
        Ok((
            Desk {
                state: Mutex::new(state),
            },
            sessions,
        ))
    }

    /// Takes the lock, which may wait, and delivers a block as `deliver_on` does: that call says what is done to the
    /// replica, and which refusal comes when. The block must have been checked with the committee that the desk was
    /// opened with. A vote's receipt is added to the session; any other answer leaves the session as it was.
    pub fn deliver<R: Wait>(
        &self,
        rt: &R,
        session: &mut Session<N>,
        block: CheckedBlock,
    ) -> Result<Reply, DeskError>
        requires { block.committee ≡ N.committee }

        ensures receipt { IfOk result (λ reply.
            session.new.receipts.items ≡ with_receipt session.old.receipts.items reply.act) }
        ensures share { IfOk result (λ reply.
            session.new.share.amount ≡ session.old.share.amount + released_by reply.act) }
        ensures answer { IfOk result (λ reply.
            IsGoodAnswer N.committee N.replica block.entry.header reply.act) }
        ensures committed { IfOk result (λ reply. IfSome reply.committed
            (CommitsIn (genesis_of N.committee) block.entry.header)) }
        ensures err { OnErr result ((session.new.receipts.items ≡ session.old.receipts.items)
            × (session.new.share.amount ≡ session.old.share.amount)) }

        // Some desk of this name moved by this one event, or refused so.
        ensures event { IfOk result (λ reply.
            SomeDeskMoves (IsDeskOf D.Disk N.committee N.replica N.opening)
            (Replies D.Disk N.committee N.replica block.entry reply)) }
        ensures refused { IfErr result (λ e.
            SomeDeskMoves (IsDeskOf D.Disk N.committee N.replica N.opening)
            (Refuses D.Disk block.entry.header e)) }
    {
        let mut state = self.state.lock(rt);
        deliver_to(&mut *state, session, block)
    }

    /// Takes the lock, which may wait, gives up on all views up to the block's, and delivers the block, under one holding
    /// of the lock, as `deliver_unvoted_on` does: it is raised or held, and never voted for, and the session stays as it
    /// was. The block must have been checked with the committee that the desk was opened with.
    pub fn deliver_unvoted<R: Wait>(
        &self,
        rt: &R,
        session: &mut Session<N>,
        block: CheckedBlock,
    ) -> Result<Reply, DeskError>
        requires { block.committee ≡ N.committee }

        ensures unvoted { IfOk result (λ reply. act_of reply.act ≢ Act.Vote) }
        ensures reply { IfOk result (IsGoodReply N.committee N.replica block.entry.header) }
        ensures session { (session.new.receipts.items ≡ session.old.receipts.items)
            × (session.new.share.amount ≡ session.old.share.amount) }
        ensures event { IfOk result (λ reply.
            SomeDeskMoves (IsDeskOf D.Disk N.committee N.replica N.opening)
            (RepliesUnvoted D.Disk N.committee N.replica block.entry reply)) }
        ensures refused { IfErr result (λ e.
            SomeDeskMoves (IsDeskOf D.Disk N.committee N.replica N.opening)
            (RefusesUnvoted D.Disk block.entry.header e)) }
    {
        let mut state = self.state.lock(rt);
        deliver_unvoted_to(&mut *state, session, block)
    }

    /// Takes the lock, which may wait, and delivers a block as `deliver_sparing_on` does, under one holding of the lock: as `deliver`
    /// does where more indices and more entries are left than are to be spared, else as `deliver_unvoted` does. The block must have
    /// been checked with the committee that the desk was opened with.
    pub fn deliver_sparing<R: Wait>(
        &self,
        rt: &R,
        session: &mut Session<N>,
        block: CheckedBlock,
        spare: &Left,
    ) -> Result<Reply, DeskError>
        requires { block.committee ≡ N.committee }
        ensures receipt { IfOk result (λ reply.
            session.new.receipts.items ≡ with_receipt session.old.receipts.items reply.act) }
        ensures share { IfOk result (λ reply.
            session.new.share.amount ≡ session.old.share.amount + released_by reply.act) }
        ensures reply { IfOk result (IsGoodReply N.committee N.replica block.entry.header) }
        ensures err { OnErr result ((session.new.receipts.items ≡ session.old.receipts.items)
            × (session.new.share.amount ≡ session.old.share.amount)) }
        ensures event { IfOk result (λ reply.
            SomeDeskMoves (IsDeskOf D.Disk N.committee N.replica N.opening)
            (RepliesSparing D.Disk N.committee N.replica spare.now block.entry reply)) }
        ensures refused { IfErr result (λ e.
            SomeDeskMoves (IsDeskOf D.Disk N.committee N.replica N.opening)
            (RefusesSparing D.Disk spare.now block.entry.header e)) }
    {
        let mut state = self.state.lock(rt);
        deliver_sparing_to(&mut *state, session, block, spare)
    }

    /// Takes the lock, which may wait, and holds a block as `hold_on` does: it is neither voted for nor is the lock raised on it,
    /// nothing is stored, and the answer is `Held`, with what the block commits. The block must have been checked with the
    /// committee that the desk was opened with.
    pub fn hold<R: Wait>(&self, rt: &R, block: CheckedBlock) -> Result<Reply, DeskError>
        requires { block.committee ≡ N.committee }
        ensures held { IfOk result (λ reply. reply.act ≡ Answer.Held) }
        ensures reply { IfOk result (IsGoodReply N.committee N.replica block.entry.header) }

        // Some desk of this name held it so, or refused so.
        ensures event { IfOk result (λ reply.
            SomeDeskMoves (IsDeskOf D.Disk N.committee N.replica N.opening)
            (IsHeldOnly block.entry.header reply)) }
        ensures refused { IfErr result (λ e.
            SomeDeskMoves (IsDeskOf D.Disk N.committee N.replica N.opening)
            (RefusesHold block.entry.header e)) }
    {
        let mut state = self.state.lock(rt);
        hold_to(&mut *state, block)
    }

    /// Takes the lock, which may wait, and delivers a block as `deliver` does; but one that is marked, above a marked one in its
    /// chain, as `deliver_unvoted` does: so of one chain one marked block at the most is voted for. The block must have been
    /// checked with the committee that the desk was opened with.
    pub fn deliver_marked_once<R: Wait>(
        &self,
        rt: &R,
        session: &mut Session<N>,
        block: CheckedBlock,
        mark: &[u8; MARK_LEN],
    ) -> Result<Reply, DeskError>
        requires { block.committee ≡ N.committee }
        ensures receipt { IfOk result (λ reply.
            session.new.receipts.items ≡ with_receipt session.old.receipts.items reply.act) }
        ensures share { IfOk result (λ reply.
            session.new.share.amount ≡ session.old.share.amount + released_by reply.act) }
        ensures reply { IfOk result (IsGoodReply N.committee N.replica block.entry.header) }
        ensures err { OnErr result ((session.new.receipts.items ≡ session.old.receipts.items)
            × (session.new.share.amount ≡ session.old.share.amount)) }
        ensures event { IfOk result (λ reply.
            SomeDeskMoves (IsDeskOf D.Disk N.committee N.replica N.opening)
            (RepliesOnce D.Disk N.committee N.replica mark.now block.entry reply)) }
        ensures refused { IfErr result (λ e.
            SomeDeskMoves (IsDeskOf D.Disk N.committee N.replica N.opening)
            (RefusesOnce D.Disk mark.now block.entry.header e)) }
    {
        let mut state = self.state.lock(rt);
        deliver_once_to(&mut *state, session, block, mark)
    }

    /// Takes the lock, which may wait, and signs a statement of next keys, as `endorse_on` does: under an index that no other call
    /// gives again, and with nothing added to the log.
    pub fn endorse<R: Wait>(&self, rt: &R, statement: &NextKeysView) -> Result<Seal, DeskError>
        ensures signed { IfOk result (λ seal.
            IsSigned N.committee N.replica seal.key statement.now seal.signature) }
        ensures no_vote { IsNoVote statement.now }

        // Some desk of this name signed it so, or refused so.
        ensures event { IfOk result (λ seal.
            SomeDeskMoves (IsDeskOf D.Disk N.committee N.replica N.opening)
            (Endorses D.Disk N.committee N.replica statement.now seal)) }
        ensures refused { IfErr result (λ e.
            SomeDeskMoves (IsDeskOf D.Disk N.committee N.replica N.opening)
            (RefusesToEndorse D.Disk e)) }
    {
        let mut state = self.state.lock(rt);
        endorse_to(&mut *state, statement)
    }

    /// Takes the lock, which may wait, and gives up on all views up to this one, as `timeout_on` does. Refused only by
    /// `Stopped`.
    pub fn timeout<R: Wait>(&self, rt: &R, view: u64) -> Result<(), DeskError>
        ensures event { OnOk result (SomeDeskMoves
            (IsDeskOf D.Disk N.committee N.replica N.opening) (TimesOut view)) }
        ensures refused { IfErr result (λ e. (e ≡ DeskError.Stopped)
            × SomeDesk (IsDeskOf D.Disk N.committee N.replica N.opening) (λ d. IsStopped d)) }
    {
        let mut state = self.state.lock(rt);
        timeout_to(&mut *state, view)
    }

    /// Takes the lock, which may wait, and says what is left of the indices and of the log's room: plan a new committee
    /// before either ends, since the replica then votes no more.
    pub fn left<R: Wait>(&self, rt: &R) -> Left
        ensures kept { SomeDesk (IsDeskOf D.Disk N.committee N.replica N.opening)
            (λ d. result ≡ left_of d) }
        ensures indices { result.indices ≤ limit_of MOST_KEYS }
        ensures entries { result.entries ≤ MOST_ENTRIES }
    {
        let state = self.state.lock(rt);
        let state = &*state;
        // For the proof: what each desk keeps.
        let _core = state.core();
        state.left()
    }

    /// Takes the lock, which may wait, and says what the desk is at.
    pub fn status<R: Wait>(&self, rt: &R) -> DeskStatus
        ensures { SomeDesk (IsDeskOf D.Disk N.committee N.replica N.opening)
            (λ d. result ≡ status_of d) }
    {
        let state = self.state.lock(rt);
        let state = &*state;
        // For the proof: what each desk keeps.
        let _core = state.core();
        state.status()
    }

    /// Takes the lock, which may wait, and says whether the desk holds the header of this id: then a block on it can be
    /// delivered.
    pub fn holds<R: Wait>(&self, rt: &R, id: &Id) -> bool
        ensures { SomeDesk (IsDeskOf D.Disk N.committee N.replica N.opening)
            (λ d. IsTrue result ↔ HoldsId d id.now) }
    {
        let state = self.state.lock(rt);
        let state = &*state;
        // For the proof: what each desk keeps.
        let _core = state.core();
        state.holds(id)
    }

    /// Takes the lock, which may wait, and looks for the lowest marked block in the chain of the held header of this id, that one among
    /// them. None where none is marked, or no header of this id is held.
    pub fn first_marked<R: Wait>(&self, rt: &R, id: &Id, mark: &[u8; MARK_LEN]) -> Option<Header>
        ensures { SomeDesk (IsDeskOf D.Disk N.committee N.replica N.opening)
            (λ d. MatchOption result (HasNoMarkedIn d.core mark.now id.now)
            (IsFirstMarkedIn d.core mark.now id.now)) }
    {
        let state = self.state.lock(rt);
        let state = &*state;
        // For the proof: what each desk keeps.
        let _core = state.core();
        state.first_marked(id, mark)
    }

    /// Takes the lock, which may wait, and reads the log's vote in a view from its disk, with the number of its entry, if
    /// there is one: also one from before the desk was opened. No refusal stops the desk. In this order: `Stopped`, where
    /// the log is stopped, and where there is a vote `Memory`, `Device`, and `BadEntry` with its number, where the disk
    /// gives other bytes than were written.
    pub fn vote_in<R: Wait>(&self, rt: &R, view: u64) -> Result<Option<Receipt>, LogError>
        ensures ok { IfOk result (λ found.
            SomeDesk (IsDeskOf D.Disk N.committee N.replica N.opening)
            (λ d. IsVoteFound D.bytes N.replica d.log view found)) }

        // Which desk answers, no clause can name; but whichever it is, the opening list's vote in the view is found, and up to
        // its stored vote view no other.
        ensures opened { IfOk result (IsFoundAsOpened N.opening view) }
        ensures none_below { IfOk result
            (IsNoneFoundBelow (genesis_of N.committee) N.opening view) }
        ensures refused { IfErr result (λ e.
            SomeDeskMoves (IsDeskOf D.Disk N.committee N.replica N.opening)
            (RefusesVoteIn D.Disk view e)) }
    {
        let mut state = self.state.lock(rt);
        vote_in_from(&mut *state, view)
    }

    /// Finds the vote in a view as `vote_in` does, for a caller who has receipts of votes that the desk released, as
    /// `Session::receipts` tells them: where one of them is in this view, just that vote is found, with its number and its
    /// signature, whatever the log's disk tells. Refused as `vote_in` is, and last by `BadEntry` with the receipt's number,
    /// where the log gives another vote than was released, or none.
    pub fn vote_in_with<R: Wait>(
        &self,
        rt: &R,
        released: &[Receipt],
        view: u64,
    ) -> Result<Option<Receipt>, LogError>
        ensures released { IfOk result (AreFound view released.now) }
        ensures ok { IfOk result (λ found.
            SomeDesk (IsDeskOf D.Disk N.committee N.replica N.opening)
            (λ d. IsVoteFound D.bytes N.replica d.log view found)) }
        ensures opened { IfOk result (IsFoundAsOpened N.opening view) }
        ensures none_below { IfOk result
            (IsNoneFoundBelow (genesis_of N.committee) N.opening view) }
        ensures refused { IfErr result
            (RefusesVoteWith D.Disk (IsDeskOf D.Disk N.committee N.replica N.opening) N.replica
            view released.now) }
    {
        let found = self.vote_in(rt, view)?;
        match number_not_found(released, view, &found) {
            None => Ok(found),
            Some(number) => Err(LogError::BadEntry(number)),
        }
    }

    /// Takes the lock, which may wait, and copies the stream of the log's entries from `first` on, counted from 0, at most
    /// `most` and at most 64 of them, behind what the copy holds, as `VoteLog::export` writes it: the export of a list
    /// that the desk had at one moment. Answers how many frames it has. Send the copy after the call, when the lock is free.
    /// No refusal stops the desk. In this order: `Memory`, `Stopped`, where the log is stopped, `Device`, and `Sink`, where
    /// memory for the copy was refused; the first two copy nothing, and after the others the copy is to be dropped.
    pub fn export<R: Wait>(
        &self,
        rt: &R,
        first: u32,
        most: u32,
        copy: &mut MemorySink,
    ) -> Result<u32, ExportError>
        ensures ok { IfOk result (λ frames.
            SomeDesk (IsDeskOf D.Disk N.committee N.replica N.opening)
            (λ d. IsOut D.bytes d.log first (min most MOST_FRAMES_AT_ONCE)
            (Some copy.old.bytes) (Some copy.new.bytes) frames)) }
        ensures refused { IfErr result (λ e.
            SomeDeskMoves (IsDeskOf D.Disk N.committee N.replica N.opening)
            (RefusesExport D.Disk first (min most MOST_FRAMES_AT_ONCE) e)) }
        ensures unwritten { IfErr result (λ e. e ≢ ExportError.Device → e ≢ ExportError.Sink →
            copy.new ≡ copy.old) }
    {
        let mut state = self.state.lock(rt);
        export_from(&mut *state, first, most.min(MOST_FRAMES_AT_ONCE), copy)
    }

    /// Ends the desk, as `close_on` does. Hand in all sessions that `start` gave. A stopped desk can be closed. A refusal
    /// hands the parts back. In this order: `Memory`, `ReceiptMismatch`.
    pub fn close(
        self,
        alloc: Global,
        sessions: Vec<Session<N>>,
    ) -> Result<Closed<D>, (DeskError, Parts<D>)>
        ensures receipts { IfOk result (λ c.
            IsPermutation (receipts_of (map (λ s. s.receipts.items) sessions.items))
            c.receipts.items) }
        ensures ok { IfOk result (λ c.
            AreReceipts (length N.opening) c.parts.log.steps c.receipts.items) }
        ensures order { IfOk result (λ c. AreRisingByNumber c.receipts.items) }
        ensures keeps { IfOk result (λ c. KeepsDesk D.bytes D.images N.committee N.replica N.opening
            (desk_of c.core c.parts.trees.items c.parts.index c.parts.log (vec_len c.receipts))) }
        ensures images { IfOk result (λ c. IfSome (D.bytes c.parts.log.disk) (λ _. (image : List ℕ)
            → D.images c.parts.log.disk image
            → KeepsReceipts c.core.headers c.parts.log.genesis N.opening c.parts.log.entries
            c.receipts.items image)) }
        ensures stay { IfOk result (λ c. IsStay D.bytes D.images (genesis_of N.committee) N.opening
            (desk_of c.core c.parts.trees.items c.parts.index c.parts.log (vec_len c.receipts))) }
        ensures released { IfOk result (λ c.
            All (λ r. Contains (ballots_in c.parts.log.steps) (receipt_ballot r))
            c.receipts.items) }
        ensures refused { IfErr result (λ e. (e.0 ≡ DeskError.Memory)
            ⊎ (e.0 ≡ DeskError.ReceiptMismatch)) }
        ensures mismatch { IfErr result (λ e. e.0 ≡ DeskError.ReceiptMismatch
            → AreReceipts (length N.opening) e.1.log.steps
            (receipts_of (map (λ s. s.receipts.items) sessions.items)) → ⊥) }
        ensures counts { IfErr result (λ e. e.0 ≡ DeskError.ReceiptMismatch
            → vec_len sessions ≡ N.parts → 0 < N.parts
            → length (receipts_of (map (λ s. s.receipts.items) sessions.items))
            ≡ vote_count (drop (length N.opening) e.1.log.steps)) }
        ensures left { IfErr result (λ e.
            AreLeftByStay D.bytes D.images (genesis_of N.committee) N.opening e.1.trees.items
            e.1.index e.1.log) }
    {
        let Desk { state } = self;
        close_on(alloc, state.into_inner(), sessions)
    }
}
