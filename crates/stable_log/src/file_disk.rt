//! A file as a disk.
ghost use Rattle.std.specs.Prelude.{◌≡◌, None};
ghost use Rattle.base_streams.specs.Counting.{Counts};

use crate::Disk;
use base_streams::Fault;
use std::fs::File;
use std::io;
use std::io::{Read, Seek, SeekFrom, Write};

/// One file, open for reading and writing. Of what it holds nothing is told, since no contract speaks of a file.
///
/// A read of a range that the file does not hold is a fault, and so is a read, write or sync that the system refuses.
#[derive(Drop)]
pub struct FileDisk {
    file: File,
    failures: u64,
}

fn read_whole(file: &mut File, at: u64, out: &mut [u8]) -> io::Result<()> {
    file.seek(SeekFrom::Start(at))?;
    file.read_exact(out)
}

fn write_whole(file: &mut File, at: u64, piece: &[u8]) -> io::Result<()> {
    file.seek(SeekFrom::Start(at))?;
    file.write_all(piece)
}

impl FileDisk {
    /// The file as a disk, with no failure so far.
    pub fn new(file: File) -> FileDisk
        ensures { ⟦<FileDisk as Disk>⟧.failed result ≡ 0 }
    {
        FileDisk { file, failures: 0 }
    }

    fn counted<T: Drop>(&mut self, outcome: io::Result<T>) -> Result<T, Fault>
        ensures { Counts self.old.failures self.new.failures result }
    {
        match outcome {
            Ok(value) => Ok(value),
            Err(_) => {
                self.failures = self.failures.saturating_add(1);
                Err(Fault)
            }
        }
    }
}

impl Disk for FileDisk {
    ghost bytes = { λ _. None };

    ghost images = { λ _ _. ⊥ };

    ghost moment = { λ _. 0 };

    ghost images_since = { λ _ _ _. ⊥ };

    ghost failed = { λ d. d.failures };

    ghost counts_now = { λ d t c le now. now };

    ghost only_now = { λ d c left. left };

    ghost as_read = { λ d. tt };

    fn len(&mut self) -> Result<u64, Fault> {
        let outcome = self.file.metadata().map(|m| m.len());
        self.counted(outcome)
    }

    fn read_at(&mut self, at: u64, out: &mut [u8]) -> Result<(), Fault> {
        let outcome = read_whole(&mut self.file, at, out);
        self.counted(outcome)
    }

    fn write_at(&mut self, at: u64, piece: &[u8]) -> Result<(), Fault> {
        let outcome = write_whole(&mut self.file, at, piece);
        self.counted(outcome)
    }

    fn sync(&mut self) -> Result<(), Fault> {
        let outcome = self.file.sync_all();
        self.counted(outcome)
    }

    fn failures(&self) -> u64 {
        self.failures
    }
}
