//! Replica 0 of the stored committee, from one stay at its desk to the next.

ghost use Rattle.std.specs.Prelude.{◌≡◌, ◌<◌, IfSome};

use crate::endorsements::endorses;
use crate::live_calls::{exports, holds_unvoted, is_locked_on_a1, only_holds, tells_of_a1};
use blocks::{CommitteeView, Header, Id};
use certificates::{Certificate, CheckedBlock, LmsVerifier, Verifier, check_block};
use key_index_store::IndexStore;
use lmots::PrivateSeed;
use lms_tree::SigningTree;
use sha2::{Digest, Sha256};
use stable_log::MemoryDisk;
use std::alloc::{AllocError, Global};
use std::marker::Brand;
use std::process::Abort;
use std::sync::Wait;
use std::sync::ledger::Blank;
use test_fixtures::{certificates as texts, core_blocks, verdicts};
use vote_desk::{Answer, Closed, Desk, DeskError, DeskNaming, Left, Parts, Reply, Session};
use vote_log::VoteLog;

/// A block that the replica is shown. All but the last three are stored.
#[derive(Clone, Copy)]
pub(crate) enum Block {
    A1,
    A2,
    A3,
    A3OnA1,
    A4,
    F5,
    W4,
    X5,
    X6,
    Z4,
    /// The block X of the view 8 on A1.
    X8,
    /// The same of the view 9.
    X9,
    /// The block of this view on genesis.
    OnGenesis(u64),
}

/// What happens to a replica.
#[derive(Clone, Copy)]
pub(crate) enum Step {
    /// The block is voted for, in the entry of this number, and commits nothing.
    Votes(Block, u32),
    /// The block is voted for, in the entry of this number, and commits A1.
    VotesAndCommitsA1(Block, u32),
    /// The block raises the lock, and commits nothing.
    Raises(Block),
    /// The block is held, and commits nothing.
    Holds(Block),
    /// The block is refused so.
    Refuses(Block, DeskError),
    /// The blocks of the views from 1 to this one, all on genesis, are voted for one after the other, by a new replica.
    VotesForAll(u32),
    /// The same blocks are held.
    HoldsAll(u32),
    /// The block is delivered unvoted, and held.
    HoldsUnvoted(Block),
    /// The block is held only, and commits nothing.
    OnlyHolds(Block),
    /// The block is held only, and commits A1.
    OnlyHoldsAndCommitsA1(Block),
    /// A statement of next keys is signed under this index of the first key.
    Endorses(u32),
    /// The views up to this one are given up.
    TimesOut(u64),
    /// The desk is at the view 2, and locked on A1.
    IsLockedOnA1,
    /// It tells of one vote, for A1, and of the view 2 that it gave up.
    TellsOfA1,
    /// An export from this entry on has so many frames.
    Exports(u32, u32),
    /// A timeout is refused, since the desk is stopped.
    IsStopped,
}

/// The stored committee.
pub(crate) fn committee<R: Abort>(rt: &R) -> CommitteeView<'static> {
    let committee = CommitteeView::parse(verdicts::committee()).ok();
    committee.expect(rt, "a committee")
}

// The stored header of a block, if there is one.
fn stored_header(block: Block) -> Option<Header> {
    let text = match block {
        Block::A1 => core_blocks::a1(),
        Block::A2 => texts::header_a2(),
        Block::A3 => core_blocks::a3(),
        Block::A3OnA1 => core_blocks::a3_on_a1(),
        Block::A4 => core_blocks::a4(),
        Block::F5 => core_blocks::f5(),
        Block::W4 => core_blocks::w4(),
        Block::X5 => core_blocks::x5(),
        Block::X6 => core_blocks::x6(),
        Block::Z4 => core_blocks::z4(),
        Block::X8 | Block::X9 | Block::OnGenesis(_) => return None,
    };
    Header::from_bytes(text).ok()
}

fn stored_certificate(block: Block) -> &'static [u8] {
    match block {
        Block::A1 | Block::W4 | Block::Z4 | Block::OnGenesis(_) => texts::of_genesis(),
        Block::A2 | Block::A3OnA1 | Block::F5 | Block::X8 | Block::X9 => {
            core_blocks::certificate_of_a1()
        }
        Block::A3 => core_blocks::certificate_of_a2(),
        Block::A4 => core_blocks::certificate_of_a3(),
        Block::X5 => core_blocks::certificate_of_w4(),
        Block::X6 => core_blocks::certificate_of_x5(),
    }
}

// The certificate with no votes on a committee's genesis.
fn certificate_of_genesis(alloc: Global, committee: &CommitteeView) -> Result<Vec<u8>, AllocError> {
    let mut text = [0; 8].to_vec(alloc)?;
    text.extend_from_slice(&committee.chain())?;
    text.extend_from_slice(&[0; 2])?;
    Ok(text)
}

// The certificate of a block's parent. Blocks on genesis are of any committee, the others of the stored one.
fn certificate_of(alloc: Global, committee: &CommitteeView, block: Block) -> Option<Certificate> {
    match block {
        Block::OnGenesis(_) => {
            let text = certificate_of_genesis(alloc, committee).ok()?;
            Certificate::read(alloc, &text).ok()
        }
        _ => Certificate::read(alloc, stored_certificate(block)).ok(),
    }
}

/// The id of A1, as A2 names it.
pub(crate) fn id_of_a1() -> Option<Id> {
    Some(stored_header(Block::A2)?.parent)
}

/// The block of this view on genesis.
pub(crate) fn on_genesis(committee: &CommitteeView, view: u64) -> Header {
    Header {
        view,
        parent_view: 0,
        parent: committee.chain(),
        payload: [0; 32],
    }
}

fn x_on_a1(view: u8) -> Option<Header>
    requires { 1 < view }
{
    let mut payload = [0; 32];
    payload[0] = b'X';
    payload[1] = view;
    Some(Header {
        view: u64::from(view),
        parent_view: 1,
        parent: id_of_a1()?,
        payload,
    })
}

/// The header of a block, if its bytes are one.
// The header of a block, if its bytes are one.
fn header_of(committee: &CommitteeView, block: Block) -> Option<Header> {
    match block {
        Block::X8 => x_on_a1(8),
        Block::X9 => x_on_a1(9),
        Block::OnGenesis(view) => Some(on_genesis(committee, view)),
        _ => stored_header(block),
    }
}

/// The block, checked by this verifier, if it passes.
pub(crate) fn checked_by<'a, V: Verifier>(
    alloc: Global,
    verifier: &V,
    committee: &CommitteeView<'a>,
    block: Block,
) -> Option<CheckedBlock<'a>>
    ensures { IfSome result (λ b. b.committee ≡ committee.now) }
{
    let header = header_of(committee, block)?;
    let certificate = certificate_of(alloc, committee, block)?;
    check_block(committee, verifier, header, certificate).ok()
}

/// A disk that holds nothing.
pub(crate) fn new_disk<R: Abort + AllocGlobal>(rt: &R) -> MemoryDisk {
    MemoryDisk::new(rt.alloc(), Vec::new(rt.alloc())).expect(rt, "memory")
}

// A key of replica 0. The first is that of the stored committee.
fn tree_of<R: Abort + AllocGlobal>(rt: &R, number: u8) -> SigningTree {
    let name = number.wrapping_mul(4);
    let secret = PrivateSeed {
        key_id: [name; 16],
        seed: [name.wrapping_add(16); 32],
    };
    SigningTree::generate(rt.alloc(), secret).expect(rt, "memory")
}

/// So many keys of replica 0.
pub(crate) fn trees_of<R: Abort + AllocGlobal>(rt: &R, count: u8) -> Vec<SigningTree> {
    let mut trees = Vec::new(rt.alloc());
    for number in 0..count {
        let pushed = trees.push(tree_of(rt, number)).ok();
        pushed.expect(rt, "memory");
    }
    trees
}

/// The key of replica 0.
pub(crate) fn new_keys<R: Abort + AllocGlobal>(rt: &R) -> Vec<SigningTree> {
    trees_of(rt, 1)
}

/// The log of a committee's chain that has no entries.
pub(crate) fn new_log_of<R: Abort + AllocGlobal>(
    rt: &R,
    committee: &CommitteeView,
    disk: MemoryDisk,
) -> VoteLog<MemoryDisk> {
    let log = VoteLog::create(rt.alloc(), disk, committee.genesis()).ok();
    log.expect(rt, "a log")
}

pub(crate) fn new_log<R: Abort + AllocGlobal>(rt: &R, disk: MemoryDisk) -> VoteLog<MemoryDisk> {
    new_log_of(rt, &committee(rt), disk)
}

pub(crate) fn new_store<R: Abort + AllocGlobal>(
    rt: &R,
    disk: MemoryDisk,
) -> IndexStore<MemoryDisk> {
    let store = IndexStore::create(rt.alloc(), disk, 1).ok();
    store.expect(rt, "an index store")
}

/// The parts of a replica that has done nothing, on these disks, which hold nothing.
pub(crate) fn parts_on<R: Abort + AllocGlobal>(
    rt: &R,
    trees: Vec<SigningTree>,
    index: MemoryDisk,
    log: MemoryDisk,
) -> Parts<MemoryDisk> {
    let index = new_store(rt, index);
    let log = new_log(rt, log);
    Parts { trees, index, log }
}

/// The parts of a replica that has done nothing.
pub(crate) fn new_parts<R: Abort + AllocGlobal>(rt: &R) -> Parts<MemoryDisk> {
    parts_on(rt, new_keys(rt), new_disk(rt), new_disk(rt))
}

// The log that a disk holds.
fn recovered_log<R: Abort + AllocGlobal>(rt: &R, disk: MemoryDisk) -> VoteLog<MemoryDisk> {
    let log = VoteLog::recover(rt.alloc(), disk, committee(rt).genesis()).ok();
    log.expect(rt, "a log that is found again")
}

/// The parts of a replica that is found on its disks.
pub(crate) fn found_on<R: Abort + AllocGlobal>(
    rt: &R,
    trees: Vec<SigningTree>,
    index: MemoryDisk,
    log: MemoryDisk,
) -> Parts<MemoryDisk> {
    let index = IndexStore::recover(rt.alloc(), index, 1).ok();
    let index = index.expect(rt, "an index store that is found again");
    let log = recovered_log(rt, log);
    Parts { trees, index, log }
}

// Whether the bytes have this digest.
fn has_digest(bytes: &[u8], digest: &[u8; 32]) -> bool {
    let mut hasher = Sha256::new();
    hasher.update(bytes);
    hasher.finalize() == *digest
}

/// The parts after a restart, where the log's disk holds the bytes of this digest.
pub(crate) fn restarted<R: Abort + AllocGlobal>(
    rt: &R,
    parts: Parts<MemoryDisk>,
    log_digest: &[u8; 32],
) -> Parts<MemoryDisk> {
    let Parts { trees, index, log } = parts;
    let disk = log.into_disk();
    assert!(rt; has_digest(disk.bytes(), log_digest));
    found_on(rt, trees, index.into_disk(), disk)
}

// What a desk answers to a block.
#[derive(Clone, Copy, PartialEq, Eq)]
enum Outcome {
    // a vote, in the entry of this number
    Voted(u32),
    Raised,
    Held,
    Refused(DeskError),
}

fn outcome_of(act: &Answer) -> Outcome {
    match act {
        Answer::Voted(receipt) => Outcome::Voted(receipt.number),
        Answer::Raised => Outcome::Raised,
        Answer::Held => Outcome::Held,
    }
}

// A block that is delivered, and what that is to come to.
#[derive(Clone, Copy)]
struct Delivery {
    block: Block,
    want: Outcome,
    committed: Option<Id>,
}

// The delivery of a step, if it is that of one block.
fn delivery_of(step: Step) -> Option<Delivery> {
    let (block, want, committed) = match step {
        Step::Votes(block, number) => (block, Outcome::Voted(number), None),
        Step::VotesAndCommitsA1(block, number) => (block, Outcome::Voted(number), id_of_a1()),
        Step::Raises(block) => (block, Outcome::Raised, None),
        Step::Holds(block) => (block, Outcome::Held, None),
        Step::Refuses(block, why) => (block, Outcome::Refused(why), None),
        _ => return None,
    };
    Some(Delivery {
        block,
        want,
        committed,
    })
}

// Whether a delivery is answered as it is to be.
fn is_answered(reply: &Result<Reply, DeskError>, delivery: &Delivery) -> bool {
    match reply {
        Ok(reply) => {
            outcome_of(&reply.act) == delivery.want && reply.committed == delivery.committed
        }
        Err(e) => delivery.want == Outcome::Refused(*e),
    }
}

// Delivers a block, and answers whether that comes to what it is to.
fn comes_to<N: DeskNaming, R: Wait + AllocGlobal>(
    rt: &R,
    desk: &Desk<N, MemoryDisk>,
    session: &mut Session<N>,
    committee: &CommitteeView,
    delivery: &Delivery,
) -> bool
    requires { committee.now ≡ N.committee }
{
    match checked_by(rt.alloc(), &LmsVerifier, committee, delivery.block) {
        Some(block) => is_answered(&desk.deliver(rt, session, block), delivery),
        None => false,
    }
}

// Delivers the blocks of the views from 1 to this one on genesis, each of which is to be voted for, or each held.
fn all_come_to<N: DeskNaming, R: Wait + AllocGlobal>(
    rt: &R,
    desk: &Desk<N, MemoryDisk>,
    session: &mut Session<N>,
    committee: &CommitteeView,
    count: u32,
    are_votes: bool,
) -> bool
    requires { committee.now ≡ N.committee }
{
    for k in 0..count {
        let want = if are_votes {
            Outcome::Voted(k)
        } else {
            Outcome::Held
        };
        let delivery = Delivery {
            block: Block::OnGenesis(u64::from(k) + 1),
            want,
            committed: None,
        };
        if !comes_to(rt, desk, session, committee, &delivery) {
            return false;
        }
    }
    true
}

// Takes a step, and answers whether it comes to what it says.
fn takes<N: DeskNaming, R: Wait + AllocGlobal>(
    rt: &R,
    desk: &Desk<N, MemoryDisk>,
    session: &mut Session<N>,
    committee: &CommitteeView,
    step: Step,
) -> bool
    requires { committee.now ≡ N.committee }
{
    match step {
        Step::VotesForAll(count) => all_come_to(rt, desk, session, committee, count, true),
        Step::HoldsAll(count) => all_come_to(rt, desk, session, committee, count, false),
        Step::HoldsUnvoted(block) => holds_unvoted(rt, desk, session, committee, block),
        Step::OnlyHolds(block) => only_holds(rt, desk, committee, block, None),
        Step::OnlyHoldsAndCommitsA1(block) => only_holds(rt, desk, committee, block, id_of_a1()),
        Step::Endorses(index) => endorses(rt, desk, committee, index),
        Step::TimesOut(view) => desk.timeout(rt, view).is_ok(),
        Step::IsStopped => desk.timeout(rt, 1).is_err(),
        Step::IsLockedOnA1 => is_locked_on_a1(&desk.status(rt)),
        Step::TellsOfA1 => tells_of_a1(rt, desk, session, committee),
        Step::Exports(first, count) => exports(rt, desk, first, count),
        _ => match delivery_of(step) {
            Some(delivery) => comes_to(rt, desk, session, committee, &delivery),
            None => false,
        },
    }
}

fn take_all<N: DeskNaming, R: Wait + Abort + AllocGlobal>(
    rt: &R,
    desk: &Desk<N, MemoryDisk>,
    session: &mut Session<N>,
    committee: &CommitteeView,
    steps: &[Step],
)
    requires { committee.now ≡ N.committee }
{
    for (k, step) in steps.iter().enumerate() {
        let is_so = takes(rt, desk, session, committee, *step);
        assert!(rt; is_so, "step {k}");
    }
}

// A desk is opened with one session, takes the steps, and is closed.
fn stays<N: DeskNaming, R: Wait + Abort + AllocGlobal>(
    rt: &R,
    blank: Blank,
    committee: &CommitteeView,
    parts: Parts<MemoryDisk>,
    steps: &[Step],
) -> Option<Closed<MemoryDisk>>
    requires name { blank.name ≡ N.name }
    requires ledger { (blank.parts ≡ N.parts) × (N.parts ≡ 1) }
    requires committee { committee.now ≡ N.committee }
    requires replica { 0 ≡ N.replica }
    requires opening { parts.log.steps ≡ N.opening }
{
    let started = Desk::<N, MemoryDisk>::start(rt.alloc(), blank, committee, 0, parts, 1);
    let (desk, mut sessions) = started.ok()?;
    take_all(rt, &desk, &mut sessions[0], committee, steps);
    let left = desk.left(rt);
    let closed = desk.close(rt.alloc(), sessions).ok()?;
    assert!(rt; left == left_of(&closed.parts));
    Some(closed)
}

// What the index store and the log have left.
fn left_of(parts: &Parts<MemoryDisk>) -> Left {
    Left {
        indices: parts.index.left(),
        entries: 4096_usize.saturating_sub(parts.log.count()),
    }
}

/// One stay of replica 0 of this committee at a desk of its own.
pub(crate) fn stay_in<R: Wait + Abort + AllocGlobal>(
    rt: &R,
    committee: &CommitteeView,
    parts: Parts<MemoryDisk>,
    steps: &[Step],
) -> Closed<MemoryDisk> {
    let closed = stays::<Brand, R>(rt, Blank::new(1), committee, parts, steps);
    closed.expect(rt, "a desk that is opened and closed")
}

/// The same of the stored committee.
pub(crate) fn stay<R: Wait + Abort + AllocGlobal>(
    rt: &R,
    parts: Parts<MemoryDisk>,
    steps: &[Step],
) -> Closed<MemoryDisk> {
    stay_in(rt, &committee(rt), parts, steps)
}
