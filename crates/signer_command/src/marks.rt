//! Files that say to a later start what happened: it finds them, and is refused.

use program_parts::{is_nothing_at, sync_folder_of};
use replica_files::DISK_FAILED;
use std::alloc::Global;
use std::fs::{File, Files, OpenOptions};
use std::io;
use std::io::{ErrorKind, Write};
use std::os::unix::fs::OpenOptionsExt;

/// The mode of a file that its owner alone may read and write.
const OWNER_ALONE: u32 = 0o600;

/// What stands in the file that says that a disk failed, for the operator who finds it.
const DISK_FAILED_TEXT: &[u8] = b"A disk failed. See to it, then remove this file.\n";

/// Writes a file, for its owner alone, and syncs it. One that is there stays as it is: that it is there says all. Its folder is synced
/// in each case, since an empty file is enough.
pub(crate) fn put_down<F: Files<File = File>>(
    files: &F,
    path: &str,
    text: &[u8],
) -> io::Result<()> {
    let written = write_new(files, path, text);
    sync_folder_of(files, path);
    written
}

fn write_new<F: Files<File = File>>(files: &F, path: &str, text: &[u8]) -> io::Result<()> {
    let mut how = OpenOptions::new();
    how.write(true).create_new(true).mode(OWNER_ALONE);
    let mut file = match how.open(files, path) {
        Ok(file) => file,
        Err(error) if error.kind() == ErrorKind::AlreadyExists => return Ok(()),
        Err(error) => return Err(error),
    };
    file.write_all(text)?;
    file.sync_all()
}

/// At which of the places it stands.
#[derive(Clone, Copy, Debug, PartialEq, Eq)]
pub(crate) enum MarkAt {
    /// In the replica's folder.
    Folder,
    /// Beside the socket.
    Socket,
}

/// Where it is written down that a disk failed: in the replica's folder, which may lie on that disk, and beside the socket of the
/// calls, where that has a path of its own.
#[derive(Clone, Copy, Debug)]
pub(crate) struct DiskFailedPlaces<'a> {
    pub folder: &'a str,
    pub socket: Option<&'a str>,
}

impl DiskFailedPlaces<'_> {
    /// Writes it down at both, and answers at which of them a later start finds it first, if it stands at one. The one beside the
    /// socket is written first, since a disk that failed may let nobody write for long.
    pub fn put_down<F: Files<File = File>>(&self, files: &F, alloc: Global) -> Option<MarkAt> {
        let beside = self.put_beside(files, alloc);
        if self.put_inside(files, alloc).is_ok() {
            return Some(MarkAt::Folder);
        }
        if matches!(beside, Ok(true)) {
            return Some(MarkAt::Socket);
        }
        None
    }

    fn put_inside<F: Files<File = File>>(&self, files: &F, alloc: Global) -> io::Result<()> {
        let folder = self.folder;
        let path = format!(in alloc; "{folder}/{DISK_FAILED}")?;
        put_down(files, &path, DISK_FAILED_TEXT)
    }

    // Answers whether there is such a place at all.
    fn put_beside<F: Files<File = File>>(&self, files: &F, alloc: Global) -> io::Result<bool> {
        let Some(socket) = self.socket else {
            return Ok(false);
        };
        let path = format!(in alloc; "{socket}.{DISK_FAILED}")?;
        put_down(files, &path, DISK_FAILED_TEXT)?;
        Ok(true)
    }

    /// Whether nothing stands beside the socket. An error where that can't be said.
    pub fn is_nothing_beside<F: Files<File = File>>(
        &self,
        files: &F,
        alloc: Global,
    ) -> io::Result<bool> {
        let Some(socket) = self.socket else {
            return Ok(true);
        };
        let path = format!(in alloc; "{socket}.{DISK_FAILED}")?;
        is_nothing_at(files, &path)
    }
}
