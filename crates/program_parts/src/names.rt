//! Files that take their names once they are whole.

use crate::folders::{is_nothing_at, sync_folder_of};
use std::alloc::Global;
use std::fs::{File, Files, OpenOptions};
use std::io::{ErrorKind, Write};
use std::os::unix::fs::OpenOptionsExt;
use std::{fs, io};

/// Who may read a file that is made: everyone.
const MODE: u32 = 0o644;

/// The name that a file takes once it is whole. Until then its bytes stand at `PATH.new`, so that a crash leaves no part of
/// it at PATH.
#[derive(Drop)]
pub struct NewName<'f, F> {
    files: &'f F,
    path: String,
    beside: String,
}

impl<'f, F: Files<File = File>> NewName<'f, F> {
    /// A new file for reading and writing, at `PATH.new`, and the name that it is to take. Fails where `PATH.new` is there
    /// already, which then stays.
    pub fn begin(files: &'f F, alloc: Global, path: &str) -> io::Result<(NewName<'f, F>, File)> {
        NewName::begin_with(files, alloc, path, MODE)
    }

    // .. of this mode.
    fn begin_with(
        files: &'f F,
        alloc: Global,
        path: &str,
        mode: u32,
    ) -> io::Result<(NewName<'f, F>, File)> {
        let beside = format!(in alloc; "{path}.new")?;
        let path = path.to_string(alloc)?;
        let mut how = OpenOptions::new();
        how.read(true).write(true).create_new(true).mode(mode);
        let file = how.open(files, &beside)?;
        Ok((
            NewName {
                files,
                path,
                beside,
            },
            file,
        ))
    }

    /// The file takes its name, in place of a file of that name. It has to be synced before. After a failure `PATH.new` is
    /// gone, and PATH as it was.
    pub fn take(self) -> io::Result<()> {
        let taken = fs::rename(self.files, self.beside.as_str(), self.path.as_str());
        if taken.is_err() {
            self.remove();
        }
        sync_folder_of(self.files, &self.path);
        taken
    }

    /// The file takes its name, where nothing else has it. What took it meanwhile stays, and that is a failure; `PATH.new` is
    /// gone then, too.
    pub fn take_new(self) -> io::Result<()> {
        let taken = fs::hard_link(self.files, self.beside.as_str(), self.path.as_str());
        self.remove();
        sync_folder_of(self.files, &self.path);
        taken
    }

    /// Gives the name up: `PATH.new` goes.
    pub fn give_up(self) {
        self.remove();
        sync_folder_of(self.files, &self.path);
    }

    fn remove(&self) {
        // What can't be removed stays, and the next try says so.
        let _ = fs::remove_file(self.files, self.beside.as_str());
    }
}

/// Puts these bytes at `path`, in place of a file that is there. They are written to a new file `PATH.new`, which is synced
/// and then takes the name; after a failure what was at `path` is still there, and the new file is gone. Fails where
/// something other than a file is at `path`, a link also, or where `PATH.new` is there already, which then stays.
pub fn replace_file<F: Files<File = File>>(
    files: &F,
    alloc: Global,
    path: &str,
    bytes: &[u8],
) -> io::Result<()> {
    see_place(files, path)?;
    let (name, file) = NewName::begin(files, alloc, path)?;
    match fill(file, bytes) {
        Ok(()) => name.take(),
        Err(error) => {
            name.give_up();
            Err(error)
        }
    }
}

// Sees that there is a file at `path`, or nothing.
fn see_place<F: Files<File = File>>(files: &F, path: &str) -> io::Result<()> {
    if is_nothing_at(files, path)? || files.symlink_metadata(path)?.is_file() {
        return Ok(());
    }
    Err(io::Error::from(ErrorKind::AlreadyExists))
}

/// Puts these bytes at `path`, where nothing stands, in a file of this mode: whole and synced, or not at all. What took the name
/// meanwhile stays, and that is a failure. Fails where `PATH.new` is there already, which then stays.
pub fn store_new<F: Files<File = File>>(
    files: &F,
    alloc: Global,
    path: &str,
    mode: u32,
    bytes: &[u8],
) -> io::Result<()> {
    if !is_nothing_at(files, path)? {
        return Err(io::Error::from(ErrorKind::AlreadyExists));
    }
    let (name, file) = NewName::begin_with(files, alloc, path, mode)?;
    match fill(file, bytes) {
        Ok(()) => name.take_new(),
        Err(error) => {
            name.give_up();
            Err(error)
        }
    }
}

fn fill(mut file: File, bytes: &[u8]) -> io::Result<()> {
    file.write_all(bytes)?;
    file.sync_all()
}
