//! The chains that a signer goes over through, and what it stands on in each.

ghost use Rattle.std.specs.Prelude.{◌≡◌, ◌≢◌, IfErr, IfOk};
ghost use Rattle.blocks.specs.Committees.{IsCommittee};
ghost use Rattle.signer_command.specs.Ends.{IsLate};

use crate::fault::{Fault, SignerFault, in_folder, of_lineage};
use crate::fitness::Means;
use crate::notes::{Leftover, Notes};
use crate::outrunning::{boundary_of, endorsement_outruns};
use crate::program::{SignerHost, disk_fault};
use crate::words::Words;
use base_streams::Sink;
use blocks::{CommitteeView, Id};
use handover_folder::{KeySet, LineageFault, LineageFolder, Standing};
use key_index_store::{IndexError, IndexStore};
use replica_command::{ReplicaFault, ReplicaFile, ReplicaFolder};
use replica_files::KeyFile;
use stable_log::FileDisk;
use std::alloc::Global;
use std::fs::{File, Files};
use std::sync::Wait;
use std::thread::Threads;
use vote_desk::Parts;
use vote_log::VoteLog;

/// What a signer stands on in the chain that it is in.
#[derive(Drop)]
pub(crate) struct Stand {
    pub at: Standing,
    pub parts: Parts<FileDisk>,
    /// The lock of the folder of its keys, where that is not DIR itself.
    pub lock: Option<File>,
}

/// What it goes on with behind its word.
#[derive(Drop)]
pub(crate) enum Goods {
    /// Keys of their own, and the lock of their folder.
    New(Parts<FileDisk>, File),
    /// The keys that it has, and the log of the next chain.
    Kept(VoteLog<FileDisk>),
}

/// What is ready in the chain of the next committee.
#[derive(Drop)]
pub(crate) struct Next {
    pub chain: Id,
    pub file: Vec<u8>,
    pub goods: Goods,
    /// The block by which it was said to be gone over to, once it was.
    pub handover: Option<Id>,
}

/// The folder of the chains, where the words ask for a signer that goes over.
pub(crate) fn folder_of<'a, T: Files<File = File>>(
    files: &'a T,
    alloc: Global,
    words: &Words<'a>,
) -> LineageFolder<'a, T> {
    LineageFolder {
        files,
        alloc,
        path: words.folder,
    }
}

/// What a signer stands on whose folder began with the committee of this file, of which the folder's lock is held.
pub(crate) fn stand_in<'a, T: Files<File = File> + Threads + Wait + Sync, S: Sink>(
    host: &SignerHost<'_, T>,
    words: &Words<'a>,
    notes: &Notes<'_, T, S>,
    first: Vec<u8>,
) -> Result<Stand, Fault<'a>>
    requires { IsCommittee first.items }
    ensures at { IfOk result (λ stand. IsCommittee stand.at.committee.items) }
    ensures refused { IfErr result IsLate }
{
    let at = if words.renew {
        standing(host, words, notes, first)?
    } else {
        Standing::first(host.alloc, first)
    };
    let (parts, lock) = opened_at(host, words, notes, &at)?;
    clear_behind(host, words, notes, &at);
    Ok(Stand { at, parts, lock })
}

/// Removes what no chain needs any more where a signer stands that goes over: seeds, and, if the words say so, logs; nothing while the
/// lineage is still to be compared. A later removal makes up for one that fails or is cut short.
pub(crate) fn clear_behind<T: Files<File = File> + Wait, S: Sink>(
    host: &SignerHost<'_, T>,
    words: &Words<'_>,
    notes: &Notes<'_, T, S>,
    at: &Standing,
) {
    if !words.renew {
        return;
    }
    let folder = folder_of(host.rt, host.alloc, words);
    match folder.is_compared(at, &words.compared) {
        Ok(true) => clear(&folder, words, notes, at),
        Ok(false) => notes.tell_left(Leftover::Uncompared),
        Err(_) => notes.tell_left(Leftover::Seeds),
    }
}

// The same, once no step of the lineage is still to be compared.
fn clear<T: Files<File = File> + Wait, S: Sink>(
    folder: &LineageFolder<'_, T>,
    words: &Words<'_>,
    notes: &Notes<'_, T, S>,
    at: &Standing,
) {
    if folder.forget_left(at).is_err() || folder.remove_old_seeds(at, words.replica).is_err() {
        notes.tell_left(Leftover::Seeds);
    }
    if let Some(keep) = words.keep
        && folder.remove_old_logs(at, usize::from(keep)).is_err()
    {
        notes.tell_left(Leftover::Logs);
    }
}

// Which chain it stands in. Where words could not be read since a disk failed that is written down, as under a desk.
fn standing<'a, T: Files<File = File> + Wait, S: Sink>(
    host: &SignerHost<'_, T>,
    words: &Words<'a>,
    notes: &Notes<'_, T, S>,
    first: Vec<u8>,
) -> Result<Standing, Fault<'a>>
    requires { IsCommittee first.items }
    ensures at { IfOk result (λ at. IsCommittee at.committee.items) }
    ensures refused { IfErr result IsLate }
{
    let means = Means {
        folder: LineageFolder {
            files: host.rt,
            alloc: host.alloc,
            path: words.folder,
        },
        replica: words.replica,
        sources: &words.sources,
    };
    if let Ok(committee) = CommitteeView::parse(&first) {
        // A log is moved once: not by a slip of the committee's file.
        if !means.may_begin(&committee) {
            return Err(Fault::Own(SignerFault::Lineage(committee.chain())));
        }
        if let Err(fault) = means.folder.begin(&committee.chain()) {
            return Err(of_lineage(words.folder, fault));
        }
    }
    match means.folder.stand(first, words.replica) {
        Ok(at) => Ok(at),
        Err(LineageFault::Device) => Err(disk_fault(words, notes.put_down_failure())),
        Err(fault) => Err(of_lineage(words.folder, fault)),
    }
}

// The keys, their indices and the log of the chain where it stands, and the lock of the keys' folder.
fn opened_at<'a, T: Files<File = File> + Threads + Wait + Sync, S: Sink>(
    host: &SignerHost<'_, T>,
    words: &Words<'a>,
    notes: &Notes<'_, T, S>,
    at: &Standing,
) -> Result<(Parts<FileDisk>, Option<File>), Fault<'a>>
    requires { IsCommittee at.now.committee.items }
    ensures { IfErr result IsLate }
{
    let Ok(committee) = CommitteeView::parse(&at.committee) else {
        return Err(Fault::Own(SignerFault::Endless));
    };
    match try_open(host, words, &committee, at) {
        Ok(opened) => Ok(opened),
        Err(ReplicaFault::Memory) => Err(Fault::Memory),
        Err(ReplicaFault::Device) => Err(disk_fault(words, notes.put_down_failure())),
        Err(ReplicaFault::File(_)) if words.renew => {
            Err(Fault::Own(SignerFault::Lineage(committee.chain())))
        }
        Err(ReplicaFault::Output) => Err(Fault::Memory),
        Err(fault) => Err(in_folder(words.folder, fault)),
    }
}

fn try_open<T: Files<File = File> + Threads + Wait + Sync>(
    host: &SignerHost<'_, T>,
    words: &Words<'_>,
    committee: &CommitteeView<'_>,
    at: &Standing,
) -> Result<(Parts<FileDisk>, Option<File>), ReplicaFault> {
    let folder = LineageFolder {
        files: host.rt,
        alloc: host.alloc,
        path: words.folder,
    };
    let place = folder.keys_at(at.keys)?;
    let keys = ReplicaFolder {
        files: host.rt,
        alloc: host.alloc,
        path: &place,
    };
    if !words.renew {
        let parts = keys.open_parts(host.rt, committee, words.replica)?;
        return Ok((parts, None));
    }
    let lock = match at.keys {
        KeySet::First => None,
        KeySet::Behind(_) => Some(keys.lock()?),
    };
    let logs = folder.chain_folder(&committee.chain())?;
    let parts = keys.open_parts_with(host.rt, committee, words.replica, &logs)?;
    see_signed(&folder, committee, at, words.replica, &parts.index)?;
    Ok((parts, lock))
}

// Refuses an index store that is older than the endorsement of this chain, or than the log or the endorsement of an earlier one in which
// the replica had the same keys.
fn see_signed<T: Files<File = File>>(
    folder: &LineageFolder<'_, T>,
    committee: &CommitteeView,
    at: &Standing,
    replica: u16,
    index: &IndexStore<FileDisk>,
) -> Result<(), ReplicaFault> {
    see_endorsement(folder, committee, index)?;
    let alike = usize::try_from(at.alike).unwrap_or(usize::MAX);
    let from = at.earlier.len().saturating_sub(alike);
    for file in at.earlier.get(from..).unwrap_or(&[]) {
        let Ok(committee) = CommitteeView::parse(file) else {
            continue;
        };
        see_endorsement(folder, &committee, index)?;
        let place = folder.chain_folder(&committee.chain())?;
        let logs = ReplicaFolder {
            files: folder.files,
            alloc: folder.alloc,
            path: &place,
        };
        let _log = logs.open_log(index, &committee, replica)?;
    }
    Ok(())
}

// Refuses an index store that is older than the endorsement that was said in the chain of this committee.
fn see_endorsement<T: Files<File = File>>(
    folder: &LineageFolder<'_, T>,
    committee: &CommitteeView,
    index: &IndexStore<FileDisk>,
) -> Result<(), ReplicaFault> {
    let words = match folder.words_of(&committee.chain()) {
        Ok(words) => words,
        Err(LineageFault::Memory) => return Err(ReplicaFault::Memory),
        Err(LineageFault::Device) => return Err(ReplicaFault::Device),
        Err(_) => return Err(ReplicaFault::File(ReplicaFile::Key(KeyFile::Log))),
    };
    match words.endorsed() {
        Some(bytes) if endorsement_outruns(committee, bytes, boundary_of(index)) => {
            Err(ReplicaFault::Store(IndexError::BadEntry.number()))
        }
        _ => Ok(()),
    }
}
