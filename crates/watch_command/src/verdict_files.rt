//! The verdicts' files of a folder.

ghost use Rattle.std.specs.Prelude.{◌≢◌, IfErr};

use crate::fault::{Fault, FolderFile, WatchFault};
use program_parts::{InputFault, MOST_OF_A_SHORT_FILE, ProgramFault, read_file, store_new};
use std::alloc::{AllocError, Global};
use std::fs::{File, Files, OpenOptions};
use std::io::ErrorKind;
use std::os::unix::fs::OpenOptionsExt;
use std::{fs, io};
use watch_desk::KeptVerdicts;

/// The mode of a new verdict's file: everyone may read it.
const VERDICT_MODE: u32 = 0o644;

/// The mode of a new lock's file.
const LOCK_MODE: u32 = 0o600;

/// What stands under the name of a replica's verdict.
#[derive(Clone, Copy, Debug, PartialEq, Eq)]
pub(crate) enum Kept {
    /// Nothing.
    Free,
    /// A verdict on it that the checker accepts: under the first name, or under the second one where something else stands under
    /// the first.
    Verdict(bool),
    /// Something else, which stays.
    Other,
}

/// The folder of the verdicts.
#[derive(Drop)]
pub(crate) struct VerdictFolder<'f, 'a, F> {
    pub files: &'f F,
    pub alloc: Global,
    pub path: &'a str,
    /// The number of the committee: verdicts of all but the first, which has 0, have it in their names.
    pub committee: u64,
}

impl<'a, F: Files<File = File>> VerdictFolder<'_, 'a, F> {
    /// Sees that it is a folder, and asks for its lock, which is given up when the file that is answered is dropped.
    pub fn lock(&self) -> Result<File, Fault<'a>>
        ensures { IfErr result (λ fault. fault ≢ ProgramFault.Output) }
    {
        match fs::metadata(self.files, self.path) {
            Ok(found) if found.is_dir() => {}
            Ok(_) => return Err(Fault::File(self.path)),
            Err(error) => return Err(Fault::unless_memory(&error, Fault::File(self.path))),
        }
        let fault = Fault::Own(WatchFault::FileIn(self.path, FolderFile::Lock));
        let folder = self.path;
        let path = format!(in self.alloc; "{folder}/lock")?;
        let opened = OpenOptions::new()
            .read(true)
            .write(true)
            .create(true)
            .mode(LOCK_MODE)
            .open(self.files, &path);
        match opened {
            Ok(file) => match file.try_lock() {
                Ok(()) => Ok(file),
                Err(_) => Err(fault),
            },
            Err(error) => Err(Fault::unless_memory(&error, fault)),
        }
    }

    /// The path of the verdict on a replica, the second one where something else stands under the first.
    pub fn path_of(&self, replica: u16, second: bool) -> Result<String, AllocError> {
        let (folder, committee) = (self.path, self.committee);
        let end = if second { "-2" } else { "" };
        if committee == 0 {
            return format!(in self.alloc; "{folder}/verdict-{replica}{end}.hsx");
        }
        format!(in self.alloc; "{folder}/verdict-{committee}-{replica}{end}.hsx")
    }

    /// What stands under the name of a replica's verdict, which becomes one of these where it is one. A file that a watch began
    /// there and did not finish is removed.
    pub fn kept(&self, verdicts: &mut KeptVerdicts, replica: u16) -> Result<Kept, AllocError> {
        for second in [false, true] {
            let path = self.path_of(replica, second)?;
            self.remove_unfinished(&path)?;
        }
        match self.kept_at(verdicts, replica, false)? {
            Kept::Other => match self.kept_at(verdicts, replica, true)? {
                Kept::Verdict(second) => Ok(Kept::Verdict(second)),
                _ => Ok(Kept::Other),
            },
            kept => Ok(kept),
        }
    }

    // What stands under one of the names.
    fn kept_at(
        &self,
        verdicts: &mut KeptVerdicts,
        replica: u16,
        second: bool,
    ) -> Result<Kept, AllocError> {
        let path = self.path_of(replica, second)?;
        match fs::symlink_metadata(self.files, &path) {
            Err(error) if error.kind() == ErrorKind::NotFound => Ok(Kept::Free),
            Ok(found) if found.is_file() => {
                if let Some(bytes) = self.bytes_of(&path)?
                    && verdicts.judge(replica, bytes)?
                {
                    return Ok(Kept::Verdict(second));
                }
                Ok(Kept::Other)
            }
            _ => Ok(Kept::Other),
        }
    }

    // The bytes of the file at this path, where it can be read.
    fn bytes_of(&self, path: &str) -> Result<Option<Vec<u8>>, AllocError> {
        match read_file(self.files, self.alloc, path, MOST_OF_A_SHORT_FILE) {
            Ok(bytes) => Ok(Some(bytes)),
            Err(InputFault::Memory) => Err(AllocError),
            Err(InputFault::Unreadable) => Ok(None),
        }
    }

    fn remove_unfinished(&self, path: &str) -> Result<(), AllocError> {
        let beside = format!(in self.alloc; "{path}.new")?;
        if let Ok(found) = fs::symlink_metadata(self.files, &beside)
            && found.is_file()
        {
            // What can't be removed stays, and then the verdict can't be stored: that is told.
            let _ = fs::remove_file(self.files, &beside);
        }
        Ok(())
    }

    /// Stores a verdict at the path, where nothing stands: whole and synced, or not at all. What took the name meanwhile stays.
    pub fn store(&self, path: &str, bytes: &[u8]) -> io::Result<()> {
        store_new(self.files, self.alloc, path, VERDICT_MODE, bytes)
    }
}
