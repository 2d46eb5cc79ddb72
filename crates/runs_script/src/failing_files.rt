//! Files that fail on demand.

use std::alloc::Allocator;
use std::fs::{File, Files, Metadata, OpenOptions};
use std::io;
use std::io::ErrorKind;

/// How opening a file fails.
#[derive(Clone, Copy, Debug)]
pub enum Failure {
    /// Memory is refused.
    Memory,
    /// A file that is opened to be written is on a disk that is full.
    FullDisk,
}

/// The files of `rt`, but that opening one fails.
#[derive(Drop)]
pub struct FailingFiles<'a, R: Files<File = File>> {
    pub rt: &'a R,
    pub failure: Failure,
}

impl<R: Files<File = File>> Files for FailingFiles<'_, R> {
    type File = File;

    type Dir = R::Dir;

    fn open_file(&self, how: &OpenOptions, path: &str) -> io::Result<File> {
        match self.failure {
            Failure::Memory => Err(io::Error::from(ErrorKind::OutOfMemory)),
            Failure::FullDisk if how.asks_write() => {
                OpenOptions::new().write(true).open(self.rt, "/dev/full")
            }
            Failure::FullDisk => self.rt.open_file(how, path),
        }
    }

    fn open_dir(&self, path: &str) -> io::Result<R::Dir> {
        self.rt.open_dir(path)
    }

    fn metadata(&self, path: &str) -> io::Result<Metadata> {
        self.rt.metadata(path)
    }

    fn symlink_metadata(&self, path: &str) -> io::Result<Metadata> {
        self.rt.symlink_metadata(path)
    }

    fn copy(&self, from: &str, to: &str) -> io::Result<u64> {
        self.rt.copy(from, to)
    }

    fn rename(&self, from: &str, to: &str) -> io::Result<()> {
        self.rt.rename(from, to)
    }

    fn remove_file(&self, path: &str) -> io::Result<()> {
        self.rt.remove_file(path)
    }

    fn create_dir(&self, path: &str) -> io::Result<()> {
        self.rt.create_dir(path)
    }

    fn remove_dir(&self, path: &str) -> io::Result<()> {
        self.rt.remove_dir(path)
    }

    fn remove_dir_all<B: Allocator>(&self, alloc: B, path: &str) -> io::Result<()> {
        self.rt.remove_dir_all(alloc, path)
    }
}
