//! The light proof of a step, of what the log of the chain that is left has.

ghost use Rattle.std.specs.Prelude.{◌≡◌, IfSome};
ghost use Rattle.blocks.specs.Genesis.{genesis_of};
ghost use Rattle.handover_folder.specs.LightProofs.{ProvesStep};

use crate::folder::LineageFolder;
use crate::names::LOG;
use blocks::{CommitteeView, Header, Id};
use certificates::Certificate;
use handover_blocks::is_handover;
use handover_light::{LightProof, check_light_proof};
use replica_core::Stored;
use stable_log::{Disk, FileDisk};
use std::alloc::{AllocError, Global};
use std::fs::{File, Files};
use vote_log::VoteLog;

// Where an entry of a log leads from its block's parent, which its certificate is on, down to the handover block.
#[derive(Clone, Copy)]
enum Way {
    // The parent is the handover block.
    There,
    // The entry of this number is of the parent, and leads there.
    Over(usize),
    // Nowhere.
    Off,
}

// The numbers of the entries whose certificates are on three blocks in views in a row, each on the one before.
#[derive(Clone, Copy)]
struct Row {
    committed: usize,
    second: usize,
    third: usize,
}

/// The light proof that the block of this id hands over and is committed in the chain of this committee, of what its log has: an entry of
/// each block from the one on the handover block up to the one on the third of three in views in a row. None where the log lacks
/// one of them, where what it has is not good, or where memory is refused.
pub fn light_proof_in<D: Disk>(
    alloc: Global,
    committee: &CommitteeView,
    log: &mut VoteLog<D>,
    handover: &Id,
) -> Option<LightProof>
    ensures { IfSome result (ProvesStep committee.now handover.now) }
{
    let proof = gathered(alloc, log, handover)?;
    match check_light_proof(committee, &proof) {
        Ok(block) if block.id() == *handover => Some(proof),
        _ => None,
    }
}

impl<F: Files<File = File>> LineageFolder<'_, F> {
    /// The same of the log of the committee's chain, as far as it is written. The log may be open elsewhere.
    pub fn light_proof(&self, committee: &CommitteeView, handover: &Id) -> Option<LightProof>
        ensures { IfSome result (ProvesStep committee.now handover.now) }
    {
        let place = self.chain_folder(&committee.chain()).ok()?;
        let path = self.within(&place, LOG).ok()?;
        let disk = FileDisk::new(File::open(self.files, &path).ok()?);
        match VoteLog::recover(self.alloc, disk, committee.genesis()) {
            Ok(mut log) => light_proof_in(self.alloc, committee, &mut log, handover),
            Err(_) => None,
        }
    }
}

// What the log has of it, which nobody looked at.
fn gathered<D: Disk>(alloc: Global, log: &mut VoteLog<D>, handover: &Id) -> Option<LightProof> {
    let ways = ways_to(alloc, log.steps(), handover).ok()?;
    let row = row_in(log.steps(), &ways)?;
    let headers = headers_to(alloc, log.steps(), &ways, row.third)?;
    let committed = certificate_in(alloc, log, row.committed)?;
    let second = certificate_in(alloc, log, row.second)?;
    let third = certificate_in(alloc, log, row.third)?;
    LightProof::of(headers, committed, second, third)
}

// The way of each entry.
fn ways_to(alloc: Global, steps: &[Stored], handover: &Id) -> Result<Vec<Way>, AllocError> {
    let mut ways = Vec::new(alloc);
    for step in steps {
        let way = way_of(steps, &ways, &step.parent, handover);
        ways.push(way)?;
    }
    Ok(ways)
}

// The way of an entry of a block with this parent: a parent comes before its children, so the ways of the entries before suffice.
fn way_of(steps: &[Stored], ways: &[Way], parent: &Header, handover: &Id) -> Way {
    if is_handover(parent) && parent.id() == *handover {
        return Way::There;
    }
    match entry_of(steps, ways, parent) {
        Some(number) => Way::Over(number),
        None => Way::Off,
    }
}

// The first entry of this block that leads there.
fn entry_of(steps: &[Stored], ways: &[Way], block: &Header) -> Option<usize> {
    for (number, way) in ways.iter().enumerate() {
        if matches!(way, Way::Off) {
            continue;
        }
        if let Some(step) = steps.get(number)
            && step.block == *block
        {
            return Some(number);
        }
    }
    None
}

// The first three such entries.
fn row_in(steps: &[Stored], ways: &[Way]) -> Option<Row> {
    for number in 0..ways.len() {
        if let Some(row) = row_below(ways, number)
            && is_in_views(steps, &row)
        {
            return Some(row);
        }
    }
    None
}

// Those that end with this entry, in whatever views.
fn row_below(ways: &[Way], third: usize) -> Option<Row> {
    let second = below(ways, third)?;
    let committed = below(ways, second)?;
    Some(Row {
        committed,
        second,
        third,
    })
}

// The entry of the block that the certificate of this one is on.
fn below(ways: &[Way], number: usize) -> Option<usize> {
    match ways.get(number) {
        Some(Way::Over(below)) => Some(*below),
        _ => None,
    }
}

// Whether the blocks that the certificates are on are in views in a row.
fn is_in_views(steps: &[Stored], row: &Row) -> bool {
    let (Some(committed), Some(second), Some(third)) = (
        steps.get(row.committed),
        steps.get(row.second),
        steps.get(row.third),
    ) else {
        return false;
    };
    let view = committed.parent.view;
    second.parent.view == view.saturating_add(1) && third.parent.view == view.saturating_add(2)
}

// The headers from the handover block up to the one that this entry's certificate is on.
fn headers_to(alloc: Global, steps: &[Stored], ways: &[Way], last: usize) -> Option<Vec<Header>> {
    let mut headers = Vec::new(alloc);
    let mut at = last;
    for _ in ways {
        let step = steps.get(at)?;
        headers.push(step.parent).ok()?;
        match ways.get(at) {
            Some(Way::Over(below)) => at = *below,
            Some(Way::There) => {
                headers.reverse();
                return Some(headers);
            }
            _ => return None,
        }
    }
    None
}

// The certificate of an entry, once more.
fn certificate_in<D: Disk>(
    alloc: Global,
    log: &mut VoteLog<D>,
    number: usize,
) -> Option<Certificate> {
    let entry = log.entry(number).ok()?;
    let bytes = entry.certificate().write(alloc).ok()?;
    Certificate::read(alloc, &bytes).ok()
}
