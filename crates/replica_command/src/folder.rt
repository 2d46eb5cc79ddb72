//! What a replica's folder stores.

ghost use Rattle.std.specs.Prelude.{◌≡◌, ◌≢◌, ◌≤◌, IfErr, IfSome, OnOk, false, length};
ghost use Rattle.blocks.specs.Headers.{IsGenesis};
ghost use Rattle.base_wire.specs.declared.limits.TheConstants.{MOST_KEYS};
ghost use Rattle.replica_command.specs.Outrunning.{NoneOutruns};

use crate::fault::{ReplicaFault, ReplicaFile, fault_of_indices, fault_of_log};
use crate::outrunning::log_outruns;
use base_wire::KeyNumber;
use blocks::{CommitteeView, Header};
use key_index_store::{INDICES, IndexError, IndexStore};
use lmots::{PRIVATE_SEED_LEN, PrivateSeed};
use lms_tree::SigningTree;
use program_parts::{InputFault, is_nothing_at, read_at_most};
use replica_files::{KeyFile, generate_parallel};
use stable_log::{Disk, FileDisk};
use std::alloc::Global;
use std::fs::{File, Files, OpenOptions, Permissions};
use std::io;
use std::io::ErrorKind;
use std::os::unix::fs::{OpenOptionsExt, PermissionsExt};
use std::thread::Threads;
use vote_desk::Parts;
use vote_log::VoteLog;

/// The mode of a file that its owner alone may read and write.
const OWNER_ALONE: u32 = 0o600;

/// What a replica is run on, of which the keys are not computed yet.
#[derive(Drop)]
pub struct Stores {
    /// In the order of the keys' numbers.
    pub seeds: Vec<PrivateSeed>,
    pub index: IndexStore<FileDisk>,
    pub log: VoteLog<FileDisk>,
}

/// A replica's folder: the files of its keys, its index store, its log, and a file that who runs it holds a lock on.
#[derive(Drop)]
pub struct ReplicaFolder<'a, F: Files<File = File>> {
    pub files: &'a F,
    pub alloc: Global,
    pub path: &'a str,
}

impl<F: Files<File = File>> ReplicaFolder<'_, F> {
    /// Asks for the folder's lock, and makes its file where there is none, for its owner alone. The lock is given up when the
    /// file that is answered is dropped, or the process ends. A folder whose log was found to be put back is refused for good,
    /// and one under whose desk a disk failed until an operator says that it is sound again.
    pub fn lock(&self) -> Result<File, ReplicaFault>
        ensures { IfErr result (λ fault. fault ≢ ReplicaFault.Output) }
    {
        let mut how = OpenOptions::new();
        how.read(true).write(true).create(true).mode(OWNER_ALONE);
        let file = self.open(&how, ReplicaFile::Lock)?;
        // Who else could open it could hold its lock. Where this may not be set it stays as it is.
        let _ = file.set_permissions(Permissions::from_mode(OWNER_ALONE));
        match file.try_lock() {
            Ok(()) => {
                self.see_none(ReplicaFile::PutBack)?;
                self.see_none(ReplicaFile::DiskFailed)?;
                Ok(file)
            }
            Err(_) => Err(ReplicaFault::File(ReplicaFile::Lock)),
        }
    }

    // Refuses the folder where it has this file, or where that can't be told.
    fn see_none(&self, file: ReplicaFile) -> Result<(), ReplicaFault>
        ensures { IfErr result (λ fault. fault ≢ ReplicaFault.Output) }
    {
        let (folder, name) = (self.path, file.name());
        let path = format!(in self.alloc; "{folder}/{name}")?;
        match is_nothing_at(self.files, &path) {
            Ok(true) => Ok(()),
            _ => Err(ReplicaFault::File(file)),
        }
    }

    /// Opens what replica `replica` of the committee is run on: the seeds of its keys first, in the order of their numbers,
    /// then the index store and the log, each recovered as soon as it is opened. The keys are computed last, in as many
    /// threads as there are processors, which takes some seconds of theirs each. Where the committee has no such replica it is
    /// one key, and the desk refuses. An index store that is older than the log is refused as `IndexError::BadEntry`: it would
    /// give out one-time keys that signed already. `Device` where a disk failed: opened once more it may seem sound, and lack what
    /// was not synced.
    pub fn open_parts<T: Threads + Sync>(
        &self,
        rt: &T,
        committee: &CommitteeView,
        replica: u16,
    ) -> Result<Parts<FileDisk>, ReplicaFault>
        ensures { IfErr result (λ fault. fault ≢ ReplicaFault.Output) }
    {
        self.open_parts_with(rt, committee, replica, self.path)
    }

    /// The same, where the log lies in the folder at this path.
    pub fn open_parts_with<T: Threads + Sync>(
        &self,
        rt: &T,
        committee: &CommitteeView,
        replica: u16,
        logs: &str,
    ) -> Result<Parts<FileDisk>, ReplicaFault>
        ensures { IfErr result (λ fault. fault ≢ ReplicaFault.Output) }
    {
        let stores = self.open_stores(committee, replica, logs)?;
        let Stores { seeds, index, log } = stores;
        Ok(Parts {
            trees: self.grow(rt, &seeds)?,
            index,
            log,
        })
    }

    /// The same, but the keys are not computed.
    pub fn open_stores(
        &self,
        committee: &CommitteeView,
        replica: u16,
        logs: &str,
    ) -> Result<Stores, ReplicaFault>
        ensures { IfErr result (λ fault. fault ≢ ReplicaFault.Output) }
    {
        let keys = if replica < committee.n() {
            committee.keys(replica)
        } else {
            1
        };
        let seeds = self.read_seeds(keys)?;
        let index = self.recover_indices(keys)?;
        let logs = ReplicaFolder {
            files: self.files,
            alloc: self.alloc,
            path: logs,
        };
        let log = logs.open_log(&index, committee, replica)?;
        Ok(Stores { seeds, index, log })
    }

    /// The log of the folder, recovered, of a replica whose keys have this index store. One that the store is older than is refused as
    /// `IndexError::BadEntry`.
    pub fn open_log(
        &self,
        index: &IndexStore<FileDisk>,
        committee: &CommitteeView,
        replica: u16,
    ) -> Result<VoteLog<FileDisk>, ReplicaFault>
        ensures { IfErr result (λ fault. fault ≢ ReplicaFault.Output) }
    {
        let mut log = self.recover_log(committee.genesis())?;
        refuse_older(index, &mut log, committee, replica)?;
        Ok(log)
    }

    fn read_seeds(&self, keys: u8) -> Result<Vec<PrivateSeed>, ReplicaFault>
        requires { keys ≤ MOST_KEYS }
        ensures { IfErr result (λ fault. fault ≢ ReplicaFault.Output) }
    {
        let mut seeds = Vec::new(self.alloc);
        for k in 0..keys {
            seeds.push(self.read_seed(KeyNumber::of(k))?)?;
        }
        Ok(seeds)
    }

    // The keys of these seeds.
    fn grow<T: Threads + Sync>(
        &self,
        rt: &T,
        seeds: &[PrivateSeed],
    ) -> Result<Vec<SigningTree>, ReplicaFault>
        ensures { IfErr result (λ fault. fault ≢ ReplicaFault.Output) }
    {
        let mut trees = Vec::new(self.alloc);
        for seed in seeds {
            trees.push(generate_parallel(rt, self.alloc, *seed)?)?;
        }
        Ok(trees)
    }

    // The seed of a key. One byte more than it has is read, to see that the file ends there.
    fn read_seed(&self, number: KeyNumber) -> Result<PrivateSeed, ReplicaFault>
        ensures { IfErr result (λ fault. fault ≢ ReplicaFault.Output) }
    {
        let mut how = OpenOptions::new();
        how.read(true);
        let file = ReplicaFile::Key(KeyFile::Seed(number));
        let most = PRIVATE_SEED_LEN as u64 + 1;
        let bytes = match read_at_most(self.alloc, self.open(&how, file)?, most) {
            Ok(bytes) => bytes,
            Err(InputFault::Memory) => return Err(ReplicaFault::Memory),
            Err(InputFault::Unreadable) => return Err(ReplicaFault::File(file)),
        };
        match bytes.as_slice().as_array() {
            Some(bytes) => Ok(PrivateSeed::from_bytes(bytes)),
            None => Err(ReplicaFault::File(file)),
        }
    }

    fn recover_indices(&self, keys: u8) -> Result<IndexStore<FileDisk>, ReplicaFault>
        requires { (1 ≤ keys) × (keys ≤ MOST_KEYS) }
        ensures { IfErr result (λ fault. fault ≢ ReplicaFault.Output) }
    {
        match IndexStore::recover(self.alloc, self.open_disk(KeyFile::Indices)?, keys) {
            Ok(store) => Ok(store),
            Err((refusal, _)) => Err(fault_of_indices(refusal)),
        }
    }

    /// The log of the folder, recovered.
    pub fn recover_log(&self, genesis: Header) -> Result<VoteLog<FileDisk>, ReplicaFault>
        requires { IsGenesis genesis }
        ensures { IfErr result (λ fault. fault ≢ ReplicaFault.Output) }
    {
        match VoteLog::recover(self.alloc, self.open_disk(KeyFile::Log)?, genesis) {
            Ok(log) => Ok(log),
            Err((refusal, _)) => Err(fault_of_log(refusal)),
        }
    }

    // A file of the folder that is there, as a disk.
    fn open_disk(&self, file: KeyFile) -> Result<FileDisk, ReplicaFault>
        ensures { IfErr result (λ fault. fault ≢ ReplicaFault.Output) }
    {
        let mut how = OpenOptions::new();
        how.read(true).write(true);
        Ok(FileDisk::new(self.open(&how, ReplicaFile::Key(file))?))
    }

    fn open(&self, how: &OpenOptions, file: ReplicaFile) -> Result<File, ReplicaFault>
        ensures { IfErr result (λ fault. fault ≢ ReplicaFault.Output) }
    {
        match self.try_open(how, file) {
            Ok(opened) => Ok(opened),
            Err(error) if error.kind() == ErrorKind::OutOfMemory => Err(ReplicaFault::Memory),
            Err(_) => Err(ReplicaFault::File(file)),
        }
    }

    fn try_open(&self, how: &OpenOptions, file: ReplicaFile) -> io::Result<File> {
        let folder = self.path;
        let name = file.name();
        let path = format!(in self.alloc; "{folder}/{name}")?;
        how.open(self.files, &path)
    }
}

// Refuses an index store that has not reserved the index of each good vote of the log.
fn refuse_older<D: Disk>(
    index: &IndexStore<D>,
    log: &mut VoteLog<D>,
    committee: &CommitteeView,
    replica: u16,
) -> Result<(), ReplicaFault>
    ensures none { index.now.stopped ≡ false → OnOk result (IfSome (D.bytes log.old.disk) (λ _.
        NoneOutruns committee.now replica index.now.mark log.old.entries (length log.old.steps))) }
    ensures refused { IfErr result (λ fault. fault ≢ ReplicaFault.Output) }
{
    let boundary = INDICES * u32::from(index.keys()) - index.left();
    match log_outruns(log, committee, replica, boundary) {
        Ok(false) => Ok(()),
        Ok(true) => Err(ReplicaFault::Store(IndexError::BadEntry.number())),
        Err(refusal) => Err(fault_of_log(refusal)),
    }
}
