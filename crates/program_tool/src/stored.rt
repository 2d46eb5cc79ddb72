//! Where an audit stores its files.

ghost use Rattle.std.specs.Prelude.{◌∷◌, [], List, None, Option, OnErr, OnOk};
ghost use Rattle.program_tool.specs.StoredFiles.{Stored, StoredFile, file_at};

use program_parts::{is_nothing_at, replace_file};
use std::alloc::Global;
use std::fs::{File, Files};
use std::io::{Error, ErrorKind};

/// Why a file was not stored.
#[derive(Clone, Copy, Debug, PartialEq, Eq)]
pub enum StoreFault {
    /// Memory was refused.
    Memory,
    /// `PATH.new` is there already, of another run.
    Occupied,
    /// The file can't be made, written, synced or named.
    Failed,
}

/// Stores whole files, each under its path. A contract names those that it was given, if it tells them.
pub trait StoreFiles: Drop {
    ghost stored: { Self → Option (List StoredFile) };

    /// Stores a file of these bytes under the path, in place of one that is there. After a fault it was not given.
    fn store(&mut self, path: &str, bytes: &[u8]) -> Result<(), StoreFault>
        ensures ok { OnOk result (Stored (stored self.old) (stored self.new)
            (file_at path.now bytes.now ∷ [])) }
        ensures err { OnErr result (Stored (stored self.old) (stored self.new) []) };
}

/// Files of the system, as `replace_file` puts them. No contract speaks of a file, so it tells nothing of what it was given.
#[derive(Drop)]
pub struct SystemFiles<'f, F: Files<File = File>> {
    files: &'f F,
    alloc: Global,
}

impl<'f, F: Files<File = File>> SystemFiles<'f, F> {
    /// In these files.
    pub fn of(files: &'f F, alloc: Global) -> SystemFiles<'f, F> {
        SystemFiles { files, alloc }
    }

    fn fault_at(&self, path: &str, error: &Error) -> StoreFault {
        match error.kind() {
            ErrorKind::OutOfMemory => StoreFault::Memory,
            ErrorKind::AlreadyExists => self.fault_beside(path),
            _ => StoreFault::Failed,
        }
    }

    // Of what is there already.
    fn fault_beside(&self, path: &str) -> StoreFault {
        let Ok(beside) = format!(in self.alloc; "{path}.new") else {
            return StoreFault::Memory;
        };
        match is_nothing_at(self.files, &beside) {
            Ok(false) => StoreFault::Occupied,
            _ => StoreFault::Failed,
        }
    }
}

impl<F: Files<File = File>> StoreFiles for SystemFiles<'_, F> {
    ghost stored = { λ _. None };

    fn store(&mut self, path: &str, bytes: &[u8]) -> Result<(), StoreFault> {
        match replace_file(self.files, self.alloc, path, bytes) {
            Ok(()) => Ok(()),
            Err(error) => Err(self.fault_at(path, &error)),
        }
    }
}

/// What an audit gives besides its report.
#[derive(Drop)]
pub struct Extras<Y, D> {
    /// Takes what is told of a handover and of servers, and what `--why` tells.
    pub whys: Y,
    /// Takes the verdicts, and the report for programs.
    pub files: D,
}
