//! Replica 0 of the stored committee: its key, its stores, and the blocks that it is shown.

ghost use Rattle.std.specs.Prelude.{◌≡◌, IfOk};

use crate::outcome::Outcome;
use blocks::{CommitteeView, Header};
use certificates::{Certificate, CertificateRefusal, CheckedBlock, LmsVerifier, check_block};
use key_index_store::{IndexError, IndexStore};
use lmots::PrivateSeed;
use replica_core::Stored;
use replica_files::generate_parallel;
use sha2::{Digest, Sha256};
use stable_log::MemoryDisk;
use std::alloc::Global;
use std::thread::Threads;
use test_fixtures::{certificates as texts, core_blocks, verdicts};
use vote_desk::{Parts, Receipt};
use vote_log::{LogError, VoteLog};

/// A block that the replica is shown.
#[derive(Clone, Copy)]
pub(crate) enum Block {
    A1,
    A2,
    A3,
    W4,
    X5,
    X6,
    /// The block of this view on genesis.
    OnGenesis(u64),
}

/// The stored committee. `None` never comes.
pub(crate) fn committee() -> Option<CommitteeView<'static>> {
    CommitteeView::parse(verdicts::committee()).ok()
}

/// The header of a block. `None` never comes.
pub(crate) fn header_of(committee: &CommitteeView, block: Block) -> Option<Header> {
    let text = match block {
        Block::A1 => core_blocks::a1(),
        Block::A2 => texts::header_a2(),
        Block::A3 => core_blocks::a3(),
        Block::W4 => core_blocks::w4(),
        Block::X5 => core_blocks::x5(),
        Block::X6 => core_blocks::x6(),
        Block::OnGenesis(view) => {
            return Some(Header {
                view,
                parent_view: 0,
                parent: committee.chain(),
                payload: [0; 32],
            });
        }
    };
    Header::from_bytes(text).ok()
}

fn certificate_of(block: Block) -> &'static [u8] {
    match block {
        Block::A1 | Block::W4 | Block::OnGenesis(_) => texts::of_genesis(),
        Block::A2 => core_blocks::certificate_of_a1(),
        Block::A3 => core_blocks::certificate_of_a2(),
        Block::X5 => core_blocks::certificate_of_w4(),
        Block::X6 => core_blocks::certificate_of_x5(),
    }
}

/// The block with the certificate of its parent, checked; or that memory was refused.
pub(crate) fn checked<'a>(
    alloc: Global,
    committee: &CommitteeView<'a>,
    block: Block,
) -> Result<CheckedBlock<'a>, Outcome>
    ensures { IfOk result (λ b. b.committee ≡ committee.now) }
{
    let Some(header) = header_of(committee, block) else {
        return Err(Outcome::Wrong);
    };
    let certificate = match Certificate::read(alloc, certificate_of(block)) {
        Ok(certificate) => certificate,
        Err(CertificateRefusal::Memory) => return Err(Outcome::Memory),
        Err(_) => return Err(Outcome::Wrong),
    };
    match check_block(committee, &LmsVerifier, header, certificate) {
        Ok(block) => Ok(block),
        Err(_) => Err(Outcome::Wrong),
    }
}

/// The parts of a replica that has done nothing, over disks in memory.
pub(crate) fn new_parts<R: Threads + Sync + AllocGlobal>(rt: &R) -> Option<Parts<MemoryDisk>> {
    let alloc = rt.alloc();
    let secret = PrivateSeed {
        key_id: [0; 16],
        seed: [16; 32],
    };
    let tree = generate_parallel(rt, alloc, secret).ok()?;
    let disk = MemoryDisk::new(alloc, Vec::new(alloc)).ok()?;
    let index = IndexStore::create(alloc, disk, 1).ok()?;
    let disk = MemoryDisk::new(alloc, Vec::new(alloc)).ok()?;
    let log = VoteLog::create(alloc, disk, committee()?.genesis()).ok()?;
    let trees = vec![in alloc; tree].ok()?;
    Some(Parts { trees, index, log })
}

/// The log on this disk, which is tried twice; and what came of it.
pub(crate) fn recovered_log(
    alloc: Global,
    disk: MemoryDisk,
) -> Option<(VoteLog<MemoryDisk>, Outcome)> {
    let genesis = committee()?.genesis();
    match VoteLog::recover(alloc, disk, genesis) {
        Ok(log) => Some((log, Outcome::Ample)),
        Err((refusal, disk)) => {
            let outcome = match refusal {
                LogError::Memory => Outcome::Memory,
                LogError::Device => Outcome::Device,
                _ => Outcome::Wrong,
            };
            Some((VoteLog::recover(alloc, disk, genesis).ok()?, outcome))
        }
    }
}

// The same of the index store.
fn recovered_index(alloc: Global, disk: MemoryDisk) -> Option<(IndexStore<MemoryDisk>, Outcome)> {
    match IndexStore::recover(alloc, disk, 1) {
        Ok(index) => Some((index, Outcome::Ample)),
        Err((refusal, disk)) => {
            let outcome = match refusal {
                IndexError::Memory => Outcome::Memory,
                IndexError::Device => Outcome::Device,
                _ => Outcome::Wrong,
            };
            Some((IndexStore::recover(alloc, disk, 1).ok()?, outcome))
        }
    }
}

/// The parts as they are found on their disks after a restart, and what came of it.
pub(crate) fn restarted(
    alloc: Global,
    parts: Parts<MemoryDisk>,
) -> Option<(Parts<MemoryDisk>, Outcome)> {
    let Parts { trees, index, log } = parts;
    let (index, first) = recovered_index(alloc, index.into_disk())?;
    let (log, second) = recovered_log(alloc, log.into_disk())?;
    Some((Parts { trees, index, log }, first.and(second)))
}

/// Whether the steps are the first of those that the run stores: votes for A1, A2 and A3, and the lock that X6 raises.
pub(crate) fn are_of_the_run(committee: &CommitteeView, steps: &[Stored]) -> bool {
    let run = [Block::A1, Block::A2, Block::A3, Block::X6];
    for ((step, block), number) in steps.iter().zip(&run).zip(0u8..) {
        if Some(step.block) != header_of(committee, *block) || step.voted != (number < 3) {
            return false;
        }
    }
    steps.len() <= run.len()
}

/// Whether the receipts are of the first entries, in order.
pub(crate) fn are_numbered(receipts: &[Receipt]) -> bool {
    for (number, receipt) in (0u32..).zip(receipts) {
        if receipt.number != number {
            return false;
        }
    }
    true
}

/// Whether the bytes have this digest.
pub(crate) fn has_digest(bytes: &[u8], digest: &[u8; 32]) -> bool {
    let mut hasher = Sha256::new();
    hasher.update(bytes);
    hasher.finalize() == *digest
}
