//! Why a replica is not run to its end.

ghost use Rattle.std.specs.Prelude.{◌≡◌, ◌≤◌, length};
ghost use Rattle.replica_command.specs.Folders.{name_in_folder};
ghost use Rattle.replica_command.specs.StoreFaults.{fault_of_indices, fault_of_log};

use key_index_store::IndexError;
use replica_files::{DISK_FAILED, KeyFile, PUT_BACK};
use std::alloc::{AllocError, AllocFailed};
use vote_log::LogError;

/// A file of a replica's folder.
#[derive(Clone, Copy, Debug, PartialEq, Eq)]
pub enum ReplicaFile {
    /// The file that a running replica holds a lock on.
    Lock,
    /// A file of its key.
    Key(KeyFile),
    /// The file that says that its log was put back to a backup. That it is there is the fault.
    PutBack,
    /// The file that says that a disk failed under its desk. That it is there is the fault, until an operator removes it.
    DiskFailed,
}

impl ReplicaFile {
    /// Its name in the folder.
    pub fn name(self) -> &'static str
        ensures name { result.now ≡ name_in_folder self }
        ensures short { length result.now ≤ 11 }
    {
        match self {
            ReplicaFile::Lock => "lock",
            ReplicaFile::Key(file) => file.name(),
            ReplicaFile::PutBack => PUT_BACK,
            ReplicaFile::DiskFailed => DISK_FAILED,
        }
    }
}

/// Why a replica was not run to its end.
#[derive(Clone, Copy, Debug, PartialEq, Eq)]
pub enum ReplicaFault {
    /// Memory was refused.
    Memory,
    /// This file of the folder can't be opened, locked or read, or is no seed of a key.
    File(ReplicaFile),
    /// The index store, the log or the desk is refused, under this number of its own table.
    Store(u8),
    /// A disk failed while the index store or the log was opened.
    Device,
    /// The receipts are not those of the log, or an answer is missing.
    Receipts,
    /// The lines could not be written, or not all.
    Output,
}

impl From<AllocError> for ReplicaFault {
    ghost use Rattle.replica_command.specs.declared.fault.ReplicaFault.TheVariants.{Memory};

    ghost from_gives = { λ _ fault. fault ≡ Memory };

    fn from(_error: AllocError) -> Self {
        ReplicaFault::Memory
    }
}

impl<T: Drop> From<AllocFailed<T>> for ReplicaFault {
    ghost use Rattle.replica_command.specs.declared.fault.ReplicaFault.TheVariants.{Memory};

    ghost from_gives = { λ _ fault. fault ≡ Memory };

    fn from(_error: AllocFailed<T>) -> Self {
        ReplicaFault::Memory
    }
}

// What a refusal of the index store is of a start.
pub(crate) fn fault_of_indices(refusal: IndexError) -> ReplicaFault
    ensures { result ≡ fault_of_indices refusal }
{
    match refusal {
        IndexError::Memory => ReplicaFault::Memory,
        IndexError::Device => ReplicaFault::Device,
        _ => ReplicaFault::Store(refusal.number()),
    }
}

// .. of the log.
pub(crate) fn fault_of_log(refusal: LogError) -> ReplicaFault
    ensures { result ≡ fault_of_log refusal }
{
    match refusal {
        LogError::Memory => ReplicaFault::Memory,
        LogError::Device => ReplicaFault::Device,
        _ => ReplicaFault::Store(refusal.number()),
    }
}
