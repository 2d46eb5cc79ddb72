//! A folder in memory.

ghost use Rattle.std.specs.Prelude.{◌≡◌, ◌↔◌, [], None, Some, IfOk, IsTrue};
ghost use Rattle.replica_files.specs.KeyFiles.{IsThere};
ghost use Rattle.replica_files.specs.MemoryFiles.{MemoryFiles};

use crate::folder::{FolderFault, MakeFolder, Readers, Store};
use base_streams::Fuse;
use std::alloc::{AllocError, Global};
use std::marker::Model;

/// A journal with no entry.
const EMPTY_JOURNAL: &[u8] = b"HSJ1\0\0\0\0\0";

/// A file that a folder in memory holds. A contract sees its name, its bytes and its readers.
#[derive(Drop)]
pub struct HeldFile {
    name: Vec<u8>,
    bytes: Vec<u8>,
    readers: Readers,
}

impl Model for HeldFile {
    ghost use Rattle.replica_files.specs.KeyFiles.{FolderFile};

    ghost Value = { FolderFile };

    ghost view = { λ f. record {
      name = f.name.items;
      bytes = f.bytes.items;
      readers = f.readers;
    } };
}

impl HeldFile {
    /// Its name.
    pub fn name(&self) -> &[u8]
        ensures { result.now ≡ self.now.name }
    {
        &self.name
    }

    fn is(&self, name: &[u8]) -> bool
        ensures { IsTrue result ↔ (self.now.name ≡ name.now) }
    {
        self.name.as_slice() == name
    }

    /// Its bytes.
    pub fn bytes(&self) -> &[u8]
        ensures { result.now ≡ self.now.bytes }
    {
        &self.bytes
    }
}

/// Keeps the files that it is asked to make, and fails where it is told to, or is to make one that it has. Want of memory
/// is a failure too. A contract sees the files and the failures.
#[derive(Drop)]
pub struct MemoryFolder {
    alloc: Global,
    held: Vec<HeldFile>,
    fuse: Fuse,
    failed: u64,
}

impl Model for MemoryFolder {
    ghost Value = { MemoryFiles };

    ghost view = { λ f. record { files = f.held.items; failures = f.failed; fuse = f.fuse } };
}

impl MemoryFolder {
    /// An empty folder, with no failures.
    pub fn new(alloc: Global) -> MemoryFolder
        ensures files { result.files ≡ [] }
        ensures failures { result.failures ≡ 0 }
        ensures fuse { result.fuse ≡ None }
    {
        MemoryFolder {
            alloc,
            held: Vec::new(alloc),
            fuse: Fuse::none(),
            failed: 0,
        }
    }

    /// The files that it holds, in the order in which they were made.
    pub fn files(&self) -> &[HeldFile]
        ensures { result.now ≡ self.now.files }
    {
        &self.held
    }

    /// The next `pass` calls succeed, the one behind them fails, and with `forever` all later ones too.
    pub fn fuse(&mut self, pass: u32, forever: bool)
        ensures fuse { self.new.fuse ≡ Some (pass, forever) }
        ensures files { self.new.files ≡ self.old.files }
        ensures failures { self.new.failures ≡ self.old.failures }
    {
        self.fuse = Fuse::set(pass, forever);
    }

    fn holds(&self, name: &str) -> bool
        ensures { IsTrue result ↔ IsThere name.now self.now.files }
    {
        self.held.iter().any(|file| file.is(name.as_bytes()))
    }
}

// A file of these bytes.
fn held(alloc: Global, name: &str, bytes: &[u8], readers: Readers) -> Result<HeldFile, AllocError>
    ensures { IfOk result (λ file. file ≡ record {
      name = name.now;
      bytes = bytes.now;
      readers = readers;
    }) }
{
    Ok(HeldFile {
        name: name.as_bytes().to_vec(alloc)?,
        bytes: bytes.to_vec(alloc)?,
        readers,
    })
}

impl MakeFolder for MemoryFolder {
    ghost files = { λ f. Some f.files };

    ghost failed = { λ f. f.failures };

    fn has(&mut self, name: &str) -> Result<bool, FolderFault> {
        if self.fuse.burns() {
            self.failed = self.failed.saturating_add(1);
            return Err(FolderFault::Failed);
        }
        Ok(self.holds(name))
    }

    fn create(&mut self, name: &str, bytes: &[u8], readers: Readers) -> Result<(), FolderFault> {
        if self.fuse.burns() || self.holds(name) {
            self.failed = self.failed.saturating_add(1);
            return Err(FolderFault::Failed);
        }
        let is_kept = match held(self.alloc, name, bytes, readers) {
            Ok(file) => self.held.push(file).is_ok(),
            Err(_) => false,
        };
        if !is_kept {
            self.failed = self.failed.saturating_add(1);
            return Err(FolderFault::Memory);
        }
        Ok(())
    }

    fn create_store(&mut self, name: &str, _store: Store) -> Result<(), FolderFault> {
        self.create(name, EMPTY_JOURNAL, Readers::All)
    }

    fn failures(&self) -> u64 {
        self.failed
    }
}
