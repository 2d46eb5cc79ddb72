//! A folder of the system.

ghost use Rattle.std.specs.Prelude.{None};
ghost use Rattle.base_streams.specs.Counting.{Counts};

use crate::folder::{FolderFault, MakeFolder, Readers, Store};
use key_index_store::IndexStore;
use program_parts::sync_folder;
use stable_log::{FileDisk, Journal};
use std::alloc::{AllocError, Global};
use std::fs::{File, Files, OpenOptions};
use std::io;
use std::io::{ErrorKind, Write};
use std::os::unix::fs::OpenOptionsExt;

/// A folder of the system. It tells nothing of its files.
#[derive(Drop)]
pub struct SystemFolder<'a, F: Files<File = File>> {
    rt: &'a F,
    alloc: Global,
    path: &'a str,
    failed: u64,
}

impl<'a, F: Files<File = File>> SystemFolder<'a, F> {
    /// The folder at this path, with no failures. It need not be there yet.
    pub fn new(rt: &'a F, alloc: Global, path: &'a str) -> SystemFolder<'a, F> {
        SystemFolder {
            rt,
            alloc,
            path,
            failed: 0,
        }
    }

    fn path_of(&self, name: &str) -> Result<String, AllocError> {
        let folder = self.path;
        format!(in self.alloc; "{folder}/{name}")
    }

    // A link that leads nowhere is there too: no new file can have its name.
    fn find(&self, name: &str) -> io::Result<bool> {
        match self.rt.symlink_metadata(&self.path_of(name)?) {
            Ok(_) => Ok(true),
            Err(error) if error.kind() == ErrorKind::NotFound => Ok(false),
            Err(error) => Err(error),
        }
    }

    // A new file for reading and writing, with these permission bits.
    fn create_new(&self, name: &str, mode: u32) -> io::Result<File> {
        let path = self.path_of(name)?;
        OpenOptions::new()
            .read(true)
            .write(true)
            .create_new(true)
            .mode(mode)
            .open(self.rt, &path)
    }

    // A new file of these bytes, synced, and so is the folder.
    fn create_file(&self, name: &str, bytes: &[u8], mode: u32) -> io::Result<()> {
        let mut file = self.create_new(name, mode)?;
        file.write_all(bytes)?;
        file.sync_all()?;
        sync_folder(self.rt, self.path);
        Ok(())
    }

    // A new file that is an empty journal, synced, and so is the folder.
    fn create_journal(&self, name: &str, store: Store) -> io::Result<()> {
        let disk = FileDisk::new(self.create_new(name, 0o644)?);
        let made = match store {
            Store::Indices => IndexStore::create(self.alloc, disk, 1).is_ok(),
            Store::Log => Journal::create(self.alloc, disk).is_ok(),
        };
        if made {
            sync_folder(self.rt, self.path);
            Ok(())
        } else {
            Err(io::Error::from(ErrorKind::Other))
        }
    }

    // Counts a call that failed.
    fn counted<T: Drop>(&mut self, outcome: io::Result<T>) -> Result<T, FolderFault>
        ensures { Counts self.old.failed self.new.failed result }
    {
        let error = match outcome {
            Ok(value) => return Ok(value),
            Err(error) => error,
        };
        self.failed = self.failed.saturating_add(1);
        match error.kind() {
            ErrorKind::OutOfMemory => Err(FolderFault::Memory),
            _ => Err(FolderFault::Failed),
        }
    }
}

impl<F: Files<File = File>> MakeFolder for SystemFolder<'_, F> {
    ghost files = { λ _. None };

    ghost failed = { λ f. f.failed };

    fn has(&mut self, name: &str) -> Result<bool, FolderFault> {
        let found = self.find(name);
        self.counted(found)
    }

    fn create(&mut self, name: &str, bytes: &[u8], readers: Readers) -> Result<(), FolderFault> {
        let mode = match readers {
            Readers::Owner => 0o600,
            Readers::All => 0o644,
        };
        let made = self.create_file(name, bytes, mode);
        self.counted(made)
    }

    fn create_store(&mut self, name: &str, store: Store) -> Result<(), FolderFault> {
        let made = self.create_journal(name, store);
        self.counted(made)
    }

    fn failures(&self) -> u64 {
        self.failed
    }
}
