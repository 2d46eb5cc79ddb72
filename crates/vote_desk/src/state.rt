//! What stands under a desk's lock.

ghost use Rattle.stable_log.specs.Devices.{AtAnyMoment};
ghost use Rattle.std.specs.Prelude.{◌≡◌, ◌≢◌, ◌<◌, ◌≤◌, ◌+◌, ◌⊎◌, ◌++◌, ◌∷◌, [], ℕ, List, true, false, length, None, Some, IfErr, IfOk, IfSome, IsErrOf, IsFalse, IsSome, IsTrue, MatchOption, ◌↔◌, OnErr, OnOk};
ghost use Rattle.blocks.specs.Genesis.{chain_id_of, genesis_of};
ghost use Rattle.blocks.specs.Replay.{IsLegal, replay};
ghost use Rattle.blocks.specs.Replica.{timed_out};
ghost use Rattle.certificates.specs.Votes.{IsGoodVote};
ghost use Rattle.replica_core.specs.Admission.{IsAdmissible};
ghost use Rattle.replica_core.specs.Cores.{IsSameCore, restarted_with};
ghost use Rattle.replica_core.specs.Marks.{HasNoMarkedIn, IsFirstMarkedIn};
ghost use Rattle.replica_core.specs.Plans.{HoldsAlso, IsPlan, TakesEvent};
ghost use Rattle.stable_log.specs.Crash.{LeavesOnly};
ghost use Rattle.log_format.specs.EntryText.{IsEntry};
ghost use Rattle.vote_log.specs.Logs.{AreListed, IsLogBeforeOrAfter, LeavesEntries, StandsForEntries};
ghost use Rattle.base_wire.specs.declared.limits.TheConstants.{MOST_ENTRIES, MOST_KEYS};
ghost use Rattle.key_index_store.specs.Indices.{limit_of};
ghost use Rattle.vote_desk.specs.Deliveries.{BoundsIndices, DrawsAtMostOne, FailsLog, FailsNone, FailsOne, IsKept, IsLeftBy, IsLeftWith, IsLegalPlan, IsStored, entry_of, signed_in, vote_under};
ghost use Rattle.vote_desk.specs.DeskRefusals.{HasRoom, HasRoomTo, IsPlanRefusal, IsRunning, IsStopped, IsStorageRefusal};
ghost use Rattle.vote_desk.specs.Desks.{AreKeysOf, HoldsId, KeepsDesk, desk_of, index_of, left_of, status_of};
ghost use Rattle.vote_desk.specs.Endorsing.{IsCoreAndLog, IsEndorseRefusal, IsEndorsed, IsLeftUnsigned, MayEndorse};
ghost use Rattle.vote_desk.specs.Exports.{IsOnlyRead, IsOut};
ghost use Rattle.vote_desk.specs.Firsts.{IsMarkedAgain, IsMarkedOnce};
ghost use Rattle.vote_desk.specs.Holding.{IsHoldRefusal, IsStill, LeavesListOnly, MayHold};
ghost use Rattle.vote_desk.specs.Votes.{IsFoundSince, IsVoteFound, IsVoteInRefusal};
ghost use Rattle.vote_log.specs.LogExport.{Blames, IsExportRefusal, export_of};
ghost use Rattle.base_streams.specs.Streams.{WrotePart};
ghost use Rattle.vote_desk.specs.Stays.{IsImageAfter, IsStay, stay_in};

use crate::desk_error::DeskError;
use crate::naming::DeskNaming;
use crate::parts::{DeskStatus, Left, Parts};
use crate::planned_block::PlannedBlock;
use crate::reply::Receipt;
use crate::seal::Seal;
use crate::session::Session;
use crate::signing::{draw, draw_seal};
use crate::storing::{check_room, store};
use crate::votes::vote_in;
use base_streams::Sink;
use blocks::{CommitteeView, Header, Id};
use certificates::CheckedBlock;
use key_index_store::IndexStore;
use lms_tree::SigningTree;
use replica_core::{Act, Core, CoreRefusal, MARK_LEN, Plan, is_marked};
use stable_log::Disk;
use std::marker::Model;
use std::sync::ledger::Book;
use vote_log::{ExportError, LogError, MOST_ENTRIES, VoteLog};

/// What stands under a desk's lock: the core of a replica, its keys, their indices, its log, and the book of the votes
/// that were released. Vote, raised lock and timeout are each one call on it: `deliver_on` and `timeout_on`.
///
/// Contracts see the core, the seeds of the keys, the indices, the log, and how many votes were released since it was
/// opened. What is kept between the calls is `KeepsDesk`, which README.md says in words.
#[derive(Drop)]
pub struct DeskState<N: DeskNaming, D: Disk> {
    core: Core,
    trees: Vec<SigningTree>,
    indices: IndexStore<D>,
    log: VoteLog<D>,
    replica: u16,
    // the id of the chain, which each vote is signed with
    chain: Id,
    // how many entries the log had when the desk was opened
    opened: usize,
    // its total is how many votes were released; it only grows
    book: Book<N>,
}

impl<N: DeskNaming, D: Disk> Model for DeskState<N, D> {
    ghost use Rattle.vote_desk.specs.Desks.{DeskView, KeepsDesk, KeepsState, desk_of};

    ghost Value = { DeskView D };

    ghost view = { λ s. desk_of s.core s.trees.items s.indices s.log s.book.total };

    ghost invariant = { λ s. KeepsState
        (KeepsDesk D.bytes D.images N.committee N.replica N.opening) N.committee N.replica N.opening
        (desk_of s.core s.trees.items s.indices s.log s.book.total)
        (record { replica = s.replica; chain = s.chain; opened = s.opened }) };
}

impl<N: DeskNaming, D: Disk> DeskState<N, D> {
    // The desk over a core that was restarted from a log.
    pub(crate) fn of(
        committee: &CommitteeView,
        replica: u16,
        parts: Parts<D>,
        core: Core,
        book: Book<N>,
    ) -> DeskState<N, D>
        requires committee { committee.now ≡ N.committee }
        requires replica { replica ≡ N.replica }
        requires opening { parts.log.steps ≡ N.opening }
        requires keys { AreKeysOf committee.now replica parts.trees.items parts.index.keys }
        requires chain { parts.log.genesis ≡ genesis_of committee.now }
        requires legal { IsLegal parts.log.genesis parts.log.steps }
        requires listed { IfSome (D.bytes parts.log.disk) (λ _.
            AreListed parts.log.entries parts.log.steps) }
        requires durable { IfSome (D.bytes parts.log.disk) (λ _.
            LeavesEntries (D.images parts.log.disk) parts.log.entries) }
        requires genesis { core.genesis ≡ genesis_of committee.now }
        requires state { core.state
            ≡ restarted_with (replay (genesis_of committee.now) parts.log.steps) }
        requires none { book.total ≡ 0 }
        ensures value { result ≡ desk_of core parts.trees.items parts.index parts.log 0 }
        ensures stay { IsStay D.bytes D.images (genesis_of N.committee) N.opening result }
    {
        let opened = parts.log.count();
        let Parts { trees, index, log } = parts;
        DeskState {
            core,
            trees,
            indices: index,
            log,
            replica,
            chain: committee.chain(),
            opened,
            book,
        }
    }

    /// The replica's core.
    pub fn core(&self) -> &Core
        ensures value { result.now ≡ self.now.core }

        // What the desk keeps holds whenever it is looked at, and it is a stay of the replica's life.
        ensures keeps { KeepsDesk D.bytes D.images N.committee N.replica N.opening self.now }
        ensures stay { IsStay D.bytes D.images (genesis_of N.committee) N.opening self.now }
    {
        &self.core
    }

    /// What is left of the indices and of the log's room.
    pub fn left(&self) -> Left
        ensures value { result ≡ left_of self.now }
        ensures few { result.indices ≤ limit_of MOST_KEYS }
        ensures room { result.entries ≤ MOST_ENTRIES }
    {
        // For the proof: there are no more than the most keys.
        let _keys = self.indices.keys();
        Left {
            indices: self.indices.left(),
            entries: MOST_ENTRIES - self.log.count(),
        }
    }

    /// What the desk tells of itself.
    pub fn status(&self) -> DeskStatus
        ensures { result ≡ status_of self.now }
    {
        DeskStatus {
            vote_view: self.core.vote_view(),
            stored_vote_view: self.core.stored_vote_view(),
            lock: self.core.lock(),
            headers: self.core.header_count(),
            entries: self.log.count(),
            left: self.left(),
            stopped: self.stopped(),
        }
    }

    /// Whether a header of this id is held.
    pub fn holds(&self, id: &Id) -> bool
        ensures { IsTrue result ↔ HoldsId self.now id.now }
    {
        self.core.holds(id)
    }

    /// The lowest marked block in the chain of the held header of this id, that one among them; none where none is marked, or no header
    /// of this id is held.
    pub fn first_marked(&self, id: &Id, mark: &[u8; MARK_LEN]) -> Option<Header>
        ensures { MatchOption result (HasNoMarkedIn self.now.core mark.now id.now)
            (IsFirstMarkedIn self.now.core mark.now id.now) }
    {
        match self.core().first_in_chain(id, mark) {
            Some(first) => Some(first),
            None => None,
        }
    }

    /// Whether the block is marked, and a block in the chain below it is.
    pub fn is_marked_again(&self, block: &Header, mark: &[u8; MARK_LEN]) -> bool
        ensures again { IsTrue result → IsMarkedAgain self.now mark.now block.now }
        ensures once { IsFalse result → IsMarkedOnce self.now mark.now block.now }
    {
        if !is_marked(block, mark) {
            return false;
        }
        match self.core.first_in_chain(&block.parent, mark) {
            Some(_) => true,
            None => false,
        }
    }

    /// The log's vote in a view, and the number of its entry, if there is one: read from the log's disk, whenever it was
    /// stored. The desk stays as it is, and no refusal stops it. In this order: `Stopped`, where the log is stopped, and
    /// where there is a vote `Memory`, `Device`, and `BadEntry` with its number, where the disk gives other bytes than
    /// were written.
    pub fn vote_in(&mut self, view: u64) -> Result<Option<Receipt>, LogError>
        ensures ok { IfOk result (IsVoteFound D.bytes N.replica self.old.log view) }

        // The list only grows: what it had at any moment before is found.
        ensures since { IfOk result (IsFoundSince self.old.log.steps view) }
        ensures exact { OnOk result (self.old.log.stopped ≡ false) }
        ensures same { IsOnlyRead D.Disk self.old self.new }
        ensures first_refusal { IfErr result
            (IsVoteInRefusal (D.bytes self.old.log.disk) self.old.log view) }
        ensures no_failure { OnOk result (FailsNone D.failed self.old self.new) }
        ensures cause { IsErrOf result LogError.Device → FailsLog D.failed self.old self.new }
        ensures kept { IfErr result (λ e. e ≢ LogError.Device →
            FailsNone D.failed self.old self.new) }
    {
        vote_in(&mut self.log, self.replica, view)
    }

    /// Writes the stream of the log's entries from `first` on, counted from 0, at most `most` of them, to the sink, as
    /// `VoteLog::export` does, and answers how many frames it has. The desk stays as it is, and no refusal stops it. In
    /// this order: `Memory`, `Stopped`, where the log is stopped, `Device`, `Sink`; the first two write nothing, and after
    /// the others a first part of the stream was written.
    pub fn export<W: Sink>(
        &mut self,
        first: u32,
        most: u32,
        sink: &mut W,
    ) -> Result<u32, ExportError>
        ensures ok { IfOk result
            (IsOut D.bytes self.old.log first most (W.text sink.old) (W.text sink.new)) }
        ensures same { IsOnlyRead D.Disk self.old self.new }
        ensures first_refusal { IfErr result (IsExportRefusal self.old.log first most) }
        ensures part { OnErr result (IfSome (D.bytes self.old.log.disk) (λ _.
            WrotePart (W.text sink.old) (W.text sink.new)
            (export_of self.old.log.entries first most))) }
        ensures unwritten { IfErr result (λ e. e ≢ ExportError.Device → e ≢ ExportError.Sink →
            sink.new ≡ sink.old) }
        ensures cause { Blames (D.failed self.old.log.disk) (D.failed self.new.log.disk)
            (W.failed sink.old) (W.failed sink.new) result }
    {
        self.log.export(first, most, sink)
    }

    /// The replica's log.
    pub fn log(&self) -> &VoteLog<D>
        ensures value { result.now ≡ self.now.log }
    {
        &self.log
    }

    // In each image that a crash during a delivery leaves one reads what is found after the stay. Nothing is computed.
    pub(crate) fn crash_is_found(&self, block: &CheckedBlock)
        ensures { IfSome (D.bytes self.now.log.disk) (λ _.
            (image : List ℕ) → IsLeftBy N.committee N.replica self.now block.now image →
            IsImageAfter (genesis_of N.committee) (stay_in N.opening self.now) image) }
    {
        // For the proof: what the desk keeps is a stay of its replica's life.
        let _core = self.core();
    }

    // While nothing is called a crash leaves the list, and what one reads in it is found after the stay. Nothing is computed.
    pub(crate) fn list_is_found(&self)
        ensures { IfSome (D.bytes self.now.log.disk) (λ _.
            LeavesListOnly D.Disk N.committee N.opening self.now self.now) }
    {
        // For the proof: what the desk keeps.
        let _log = &self.log;
    }

    // While nothing is called a crash leaves a boundary of the indices that is at least their mark. Nothing is computed.
    pub(crate) fn indices_are_bounded(&self)
        ensures { IfSome (D.bytes self.now.indices.disk) (λ _.
            BoundsIndices D.Disk self.now.indices self.now.indices) }
    {
        // For the proof: whatever a crash leaves of the index store has such a boundary.
        let _stopped = self.indices.stopped();
    }

    // Whether a disk failed in an earlier call.
    pub(crate) fn stopped(&self) -> bool
        ensures { IsTrue result ↔ IsStopped self.now }
    {
        self.log.stopped() || self.indices.stopped()
    }

    // What the core plans for a block, where the desk runs, whatever room there is. Core and log stay as they are.
    pub(crate) fn admit<'a>(
        &mut self,
        block: CheckedBlock<'a>,
    ) -> Result<PlannedBlock<'a>, DeskError>
        ensures plan { IfOk result (λ planned. IsPlan self.new.core planned.plan) }
        ensures durable { OnOk result (IfSome (D.bytes self.old.log.disk) (λ _.
            LeavesEntries (D.images self.old.log.disk) self.old.log.entries)) }
        ensures chain { OnOk result (self.old.core.genesis ≡ genesis_of N.committee) }
        ensures block { IfOk result (λ planned. planned.block ≡ block.entry) }
        ensures legal { IfOk result (λ planned.
            IsLegalPlan self.old.core.genesis self.old.log.steps planned.plan) }
        ensures may { OnOk result (MayHold self.old block.entry.header) }
        ensures core { IsSameCore self.old.core self.new.core }
        ensures same { IsStill self.old self.new }
        ensures first_refusal { IfErr result (IsHoldRefusal self.old block.entry.header) }

        // While nothing is called a crash leaves the list.
        ensures unmoved { IsRunning self.old → IfSome (D.bytes self.old.log.disk) (λ _.
            AtAnyMoment D.Disk self.old.log.disk self.new.log.disk
            (λ image. StandsForEntries image self.old.log.entries)) }
    {
        if self.stopped() {
            return Err(DeskError::Stopped);
        }
        let plan = match self.core.admit(&block) {
            Ok(plan) => plan,
            Err(CoreRefusal::Memory) => return Err(DeskError::Memory),
            Err(refusal) => return Err(DeskError::Core(refusal)),
        };
        Ok(PlannedBlock { block, plan })
    }

    // What to do with a block, where the desk runs and there is room for it. Core and log stay as they are.
    pub(crate) fn plan<'a>(
        &mut self,
        block: CheckedBlock<'a>,
    ) -> Result<PlannedBlock<'a>, DeskError>
        ensures plan { IfOk result (λ planned. IsPlan self.new.core planned.plan) }
        ensures durable { OnOk result (IfSome (D.bytes self.old.log.disk) (λ _.
            LeavesEntries (D.images self.old.log.disk) self.old.log.entries)) }
        ensures chain { OnOk result (self.old.core.genesis ≡ genesis_of N.committee) }
        ensures block { IfOk result (λ planned. planned.block ≡ block.entry) }
        ensures legal { IfOk result (λ planned.
            IsLegalPlan self.old.core.genesis self.old.log.steps planned.plan) }
        ensures passes { OnOk result (IsAdmissible self.old.core block.entry.header) }
        ensures running { OnOk result (IsRunning self.old) }
        ensures room { IfOk result (λ planned.
            HasRoomTo self.old.log self.old.indices planned.plan.act) }
        ensures core { IsSameCore self.old.core self.new.core }
        ensures same { (self.new.seeds ≡ self.old.seeds) × (self.new.indices ≡ self.old.indices)
            × (self.new.log ≡ self.old.log) × (self.new.released ≡ self.old.released) }
        ensures first_refusal { IfErr result (IsPlanRefusal self.old block.entry.header) }

        // While nothing is called a crash leaves the list.
        ensures unmoved { IsRunning self.old → IfSome (D.bytes self.old.log.disk) (λ _.
            AtAnyMoment D.Disk self.old.log.disk self.new.log.disk
            (λ image. StandsForEntries image self.old.log.entries)) }
    {
        let planned = self.admit(block)?;
        check_room(&self.log, &self.indices, planned.plan.act)?;
        Ok(planned)
    }

    // Holds the block of a plan, whatever the act, and does no more.
    pub(crate) fn hold(&mut self, plan: &Plan)
        requires { IsPlan self.old.core plan.now }
        ensures headers { HoldsAlso self.old.core.headers self.new.core.headers plan.now.block }
        ensures genesis { self.new.core.genesis ≡ self.old.core.genesis }
        ensures state { self.new.core.state ≡ self.old.core.state }
        ensures still { IsStill self.old self.new }
    {
        self.core.hold_only(plan);
    }

    // Holds the block of a plan to do nothing.
    pub(crate) fn pass(&mut self, plan: Plan)
        requires plan { IsPlan self.old.core plan }
        requires act { plan.act ≡ Act.Pass }
        ensures headers { HoldsAlso self.old.core.headers self.new.core.headers plan.block }
        ensures genesis { self.new.core.genesis ≡ self.old.core.genesis }
        ensures state { TakesEvent self.old.core plan self.new.core.state }
        ensures same { (self.new.seeds ≡ self.old.seeds) × (self.new.indices ≡ self.old.indices)
            × (self.new.log ≡ self.old.log) × (self.new.released ≡ self.old.released) }
    {
        self.core.apply(plan);
    }

    // Stores the entry of a plan to raise the lock, and raises it. After `Device` the log is stopped.
    pub(crate) fn raise(&mut self, planned: PlannedBlock) -> Result<(), DeskError>
        requires plan { IsPlan self.old.core planned.plan }
        requires act { planned.plan.act ≡ Act.Raise }
        requires running { self.old.log.stopped ≡ false }
        requires room { HasRoom self.old.log }
        ensures stored { OnOk result (IsStored D.bytes D.images self.old self.new
            planned.entry.plan (entry_of planned.entry None)) }
        ensures same { (self.new.indices ≡ self.old.indices)
            × (self.new.released ≡ self.old.released) }
        ensures tells { IsSome (D.bytes self.new.log.disk) ↔ IsSome (D.bytes self.old.log.disk) }
        ensures kept { OnErr result (IsKept self.old self.new) }
        ensures err { IfErr result (λ e. e ≢ DeskError.Device → self.new ≡ self.old) }
        ensures device { IsErrOf result DeskError.Device → self.new.log.stopped ≡ true }
        ensures no_failure { OnOk result (FailsNone D.failed self.old self.new) }
        ensures cause { IsErrOf result DeskError.Device → FailsLog D.failed self.old self.new }
        ensures first_refusal { IfErr result IsStorageRefusal }
        ensures any_moment { IfSome (D.bytes self.old.log.disk) (λ _.
            AtAnyMoment D.Disk self.old.log.disk self.new.log.disk
            (IsLogBeforeOrAfter self.old.log.entries (entry_of planned.entry None))) }
        ensures is_entry { IsEntry (entry_of planned.entry None) }
    {
        store(&mut self.core, &mut self.log, planned, None)?;
        Ok(())
    }

    // Does a plan to vote: draws an index, signs, stores the entry, and only then releases the vote to the session. After
    // `Device` the log or the index store is stopped; after `Memory` an index may be lost.
    pub(crate) fn vote(
        &mut self,
        session: &mut Session<N>,
        planned: PlannedBlock,
    ) -> Result<Receipt, DeskError>
        requires plan { IsPlan self.old.core planned.plan }
        requires act { planned.plan.act ≡ Act.Vote }
        requires running { IsRunning self.old }
        requires room { HasRoomTo self.old.log self.old.indices Act.Vote }
        ensures number { IfOk result (λ r. r.number ≡ length self.old.log.steps) }
        ensures vote { IfOk result (λ r.
            r.vote ≡ vote_under (chain_id_of N.committee) N.replica self.old.seeds
            self.old.indices.mark planned.entry.plan.block) }
        ensures index { IfOk result (λ r. index_of (signed_in r.vote) ≡ self.old.indices.mark) }
        ensures good { IfOk result (λ r. IsGoodVote N.committee r.vote) }
        ensures stored { IfOk result (λ r. IsStored D.bytes D.images self.old self.new
            planned.entry.plan (entry_of planned.entry (Some (signed_in r.vote)))) }
        ensures drawn { OnOk result (self.new.indices.mark ≡ self.old.indices.mark + 1) }
        ensures not_again { IfSome (D.bytes self.old.indices.disk) (λ _.
            BoundsIndices D.Disk self.old.indices self.new.indices) }
        ensures keys { self.new.indices.keys ≡ self.old.indices.keys }
        ensures undisturbed { IfErr result (λ e. e ≢ DeskError.Device
            → self.new.indices.stopped ≡ false) }
        ensures tells { IsSome (D.bytes self.new.log.disk) ↔ IsSome (D.bytes self.old.log.disk) }
        ensures released { OnOk result (self.new.released ≡ self.old.released + 1) }
        ensures running { OnOk result (self.new.indices.stopped ≡ false) }
        ensures receipts { IfOk result (λ r. session.new.receipts.items ≡ session.old.receipts.items
            ++ r ∷ []) }
        ensures share { OnOk result (session.new.share.amount ≡ session.old.share.amount + 1) }
        ensures kept { OnErr result (IsKept self.old self.new) }
        ensures at_most_one { OnErr result (DrawsAtMostOne self.old self.new) }
        ensures session { OnErr result ((session.new.receipts.items ≡ session.old.receipts.items)
            × (session.new.share.amount ≡ session.old.share.amount)) }
        ensures log { IfErr result (λ e. e ≢ DeskError.Device → self.new.log ≡ self.old.log) }
        ensures device { IsErrOf result DeskError.Device → IsStopped self.new }
        ensures no_failure { OnOk result (FailsNone D.failed self.old self.new) }
        ensures quiet { IfErr result (λ e. e ≢ DeskError.Device
            → FailsNone D.failed self.old self.new) }
        ensures cause { IsErrOf result DeskError.Device → FailsOne D.failed self.old self.new }
        ensures first_refusal { IfErr result IsStorageRefusal }
        ensures any_moment { IfSome (D.bytes self.old.log.disk) (λ _.
            AtAnyMoment D.Disk self.old.log.disk self.new.log.disk
            (IsLeftWith self.old.log.entries
            (entry_of planned.entry
            (Some (signed_in (vote_under (chain_id_of N.committee) N.replica self.old.seeds
            self.old.indices.mark planned.entry.plan.block)))))) }
    {
        // For the proof: as long as no index is drawn none can come twice.
        self.indices_are_bounded();
        let number = self.log.count() as u32;
        session.reserve()?;
        let vote = draw(
            &self.trees,
            &mut self.indices,
            self.replica,
            &self.chain,
            &planned.plan.block,
        )?;
        store(&mut self.core, &mut self.log, planned, Some(vote))?;
        let receipt = Receipt { number, vote };
        session.release(&mut self.book, &receipt);
        Ok(receipt)
    }

    // Signs these bytes under the next index. After `Device` the index store is stopped; any other refusal changes nothing.
    pub(crate) fn endorse(&mut self, message: &[u8]) -> Result<Seal, DeskError>
        ensures ok { IfOk result (λ seal.
            IsEndorsed N.committee N.replica message.now seal self.old self.new) }
        ensures may { OnOk result (MayEndorse self.old) }
        ensures running { OnOk result (IsRunning self.new) }
        ensures same { IsCoreAndLog self.old self.new }
        ensures first_refusal { IfErr result (IsEndorseRefusal self.old) }
        ensures err { IfErr result (IsLeftUnsigned D.failed self.old self.new) }
        ensures no_failure { OnOk result (FailsNone D.failed self.old self.new) }
        ensures not_again { IfSome (D.bytes self.old.indices.disk) (λ _.
            BoundsIndices D.Disk self.old.indices self.new.indices) }
    {
        // For the proof: as long as no index is drawn none can come twice.
        self.indices_are_bounded();
        if self.stopped() {
            return Err(DeskError::Stopped);
        }
        if self.indices.left() == 0 {
            return Err(DeskError::KeySpent);
        }
        let seal = draw_seal(&self.trees, &mut self.indices, message)?;
        Ok(seal)
    }

    // Raises the vote view where it is lower.
    pub(crate) fn time_out(&mut self, view: u64)
        ensures core { self.new.core
            ≡ record self.old.core { state = timed_out self.old.core.state view } }
        ensures same { (self.new.seeds ≡ self.old.seeds) × (self.new.indices ≡ self.old.indices)
            × (self.new.log ≡ self.old.log) × (self.new.released ≡ self.old.released) }
    {
        self.core.timeout(view);
    }

    // The core, the parts, the book, and how many entries the log had when the desk was opened.
    pub(crate) fn into_parts(self) -> (Core, Parts<D>, Book<N>, usize)
        ensures keeps { KeepsDesk D.bytes D.images N.committee N.replica N.opening
            (desk_of result.0 result.1.trees.items result.1.index result.1.log result.2.total) }
        ensures opened { result.3 ≡ length N.opening }
        ensures same { (result.0 ≡ self.core) × (result.1.trees.items ≡ self.seeds)
            × (result.1.index ≡ self.indices) × (result.1.log ≡ self.log)
            × (result.2.total ≡ self.released) }
    {
        let DeskState {
            core,
            trees,
            indices: index,
            log,
            replica: _,
            chain: _,
            opened,
            book,
        } = self;
        (core, Parts { trees, index, log }, book, opened)
    }
}
