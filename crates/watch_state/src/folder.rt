//! The folder in which a watch keeps what it read.

use crate::digest::chain_text;
use crate::listing::names_in;
use crate::name::{PartFile, PartName};
use crate::order::put_in_order;
use crate::runs::MOST_OF_A_PART;
use blocks::Id;
use program_parts::{InputFault, MOST_OF_A_SHORT_FILE, read_file, store_new, sync_folder_of};
use std::alloc::{AllocError, Global};
use std::fs::{DirBuilder, File, Files, OpenOptions};
use std::io::ErrorKind;
use std::os::unix::fs::{DirBuilderExt, OpenOptionsExt};
use std::str::from_utf8;
use std::sync::atomic::{AtomicU64, Ordering};
use std::{fs, io};

/// The mode of a new folder.
const FOLDER_MODE: u32 = 0o700;

/// The mode of the files in it.
pub(crate) const FILE_MODE: u32 = 0o600;

/// Why a folder can't be used.
#[derive(Clone, Copy, Debug, PartialEq, Eq)]
pub enum StateFault {
    /// Memory was refused.
    Memory,
    /// It is no folder, or can't be made or read.
    Folder,
    /// Another watch works in it.
    Lock,
    /// The file that says of which chain the logs are can't be read or written.
    Chain,
    /// It has the logs of another chain, or logs and no such file.
    OtherChain,
}

impl From<AllocError> for StateFault {
    fn from(_error: AllocError) -> StateFault {
        StateFault::Memory
    }
}

/// A folder with the parts of logs.
#[derive(Drop)]
pub struct StateFolder<'f, 'a, F> {
    pub(crate) files: &'f F,
    pub(crate) alloc: Global,
    path: &'a str,
    // How many bytes it may have in all.
    most: u64,
    // How many it has.
    held: AtomicU64,
    // The parts that were there at the start, in their order.
    parts: Vec<PartFile>,
}

/// Opens a folder for the logs of this chain, which may have so many bytes in all; it is made where it is not there. What a kill
/// left unfinished is removed. Until the file that is answered beside it is dropped it is locked.
pub fn open_state<'f, 'a, F: Files<File = File> + AllocGlobal + Clone + Drop>(
    files: &'f F,
    alloc: Global,
    path: &'a str,
    chain: &Id,
    most: u64,
) -> Result<(StateFolder<'f, 'a, F>, File), StateFault> {
    make_folder(files, path)?;
    let lock = lock_of(files, alloc, path)?;
    let is_ours = has_chain(files, alloc, path, chain)?;
    let folder = with_parts(files, alloc, path, most)?;
    if !is_ours {
        folder.begin(chain)?;
    }
    Ok((folder, lock))
}

/// Opens a folder that is there, of whatever chain, to read its parts: it may get no more. What a kill left unfinished is
/// removed. Until the file that is answered beside it is dropped it is locked.
pub fn open_kept<'f, 'a, F: Files<File = File> + AllocGlobal + Clone + Drop>(
    files: &'f F,
    alloc: Global,
    path: &'a str,
) -> Result<(StateFolder<'f, 'a, F>, File), StateFault> {
    match fs::metadata(files, path) {
        Ok(found) if found.is_dir() => {}
        Ok(_) => return Err(StateFault::Folder),
        Err(error) => return Err(fault_of(&error, StateFault::Folder)),
    }
    let lock = lock_of(files, alloc, path)?;
    Ok((with_parts(files, alloc, path, 0)?, lock))
}

// A folder and the parts that are there.
fn with_parts<'f, 'a, F: Files<File = File> + AllocGlobal + Clone + Drop>(
    files: &'f F,
    alloc: Global,
    path: &'a str,
    most: u64,
) -> Result<StateFolder<'f, 'a, F>, StateFault> {
    let mut folder = StateFolder {
        files,
        alloc,
        path,
        most,
        held: AtomicU64::new(0),
        parts: Vec::new(alloc),
    };
    folder.find_parts()?;
    Ok(folder)
}

// What a failed call of the system is.
fn fault_of(error: &io::Error, fault: StateFault) -> StateFault {
    match error.kind() {
        ErrorKind::OutOfMemory => StateFault::Memory,
        _ => fault,
    }
}

fn make_folder<F: Files<File = File>>(files: &F, path: &str) -> Result<(), StateFault> {
    match fs::metadata(files, path) {
        Ok(found) if found.is_dir() => Ok(()),
        Err(error) if error.kind() == ErrorKind::NotFound => {
            let mut builder = DirBuilder::new();
            builder.mode(FOLDER_MODE);
            if let Err(error) = builder.create(files, path) {
                return Err(fault_of(&error, StateFault::Folder));
            }
            sync_folder_of(files, path);
            Ok(())
        }
        Ok(_) => Err(StateFault::Folder),
        Err(error) => Err(fault_of(&error, StateFault::Folder)),
    }
}

fn lock_of<F: Files<File = File>>(
    files: &F,
    alloc: Global,
    folder: &str,
) -> Result<File, StateFault> {
    let path = format!(in alloc; "{folder}/lock")?;
    let opened = OpenOptions::new()
        .read(true)
        .write(true)
        .create(true)
        .mode(FILE_MODE)
        .open(files, &path);
    match opened {
        Ok(file) => match file.try_lock() {
            Ok(()) => Ok(file),
            Err(_) => Err(StateFault::Lock),
        },
        Err(error) => Err(fault_of(&error, StateFault::Lock)),
    }
}

// Whether the folder says that it is of this chain; not where it says nothing yet.
fn has_chain<F: Files<File = File>>(
    files: &F,
    alloc: Global,
    folder: &str,
    chain: &Id,
) -> Result<bool, StateFault> {
    let path = format!(in alloc; "{folder}/chain")?;
    match fs::symlink_metadata(files, &path) {
        Err(error) if error.kind() == ErrorKind::NotFound => return Ok(false),
        Ok(found) if found.is_file() => {}
        _ => return Err(StateFault::Chain),
    }
    let text = match read_file(files, alloc, &path, MOST_OF_A_SHORT_FILE) {
        Ok(text) => text,
        Err(InputFault::Memory) => return Err(StateFault::Memory),
        Err(InputFault::Unreadable) => return Err(StateFault::Chain),
    };
    if text.as_slice() != chain_text(alloc, chain)?.as_slice() {
        return Err(StateFault::OtherChain);
    }
    Ok(true)
}

impl<F: Files<File = File>> StateFolder<'_, '_, F> {
    // Says of which chain it is. There is no part yet.
    fn begin(&self, chain: &Id) -> Result<(), StateFault> {
        if !self.parts.is_empty() {
            return Err(StateFault::OtherChain);
        }
        let folder = self.path;
        let path = format!(in self.alloc; "{folder}/chain")?;
        let text = chain_text(self.alloc, chain)?;
        let _before = self.held.fetch_add(text.len() as u64, Ordering::SeqCst);
        match store_new(self.files, self.alloc, &path, FILE_MODE, &text) {
            Ok(()) => Ok(()),
            Err(error) => Err(fault_of(&error, StateFault::Chain)),
        }
    }

    // Finds the parts that are there, and how many bytes all files have.
    fn find_parts(&mut self) -> Result<(), StateFault>
    where
        F: AllocGlobal + Clone + Drop,
    {
        let names = match names_in(self.files, self.alloc, self.path) {
            Ok(names) => names,
            Err(error) => return Err(fault_of(&error, StateFault::Folder)),
        };
        for name in &names {
            self.find(name)?;
        }
        put_in_order(&mut self.parts);
        Ok(())
    }

    fn find(&mut self, name: &str) -> Result<(), AllocError> {
        let path = self.path_behind(name)?;
        if let Some(whole) = name.strip_suffix(".new")
            && (whole == "chain" || PartName::of(self.alloc, whole.as_bytes())?.is_some())
        {
            // What can't be removed stays, and then that part can't be stored: that is told.
            let _ = fs::remove_file(self.files, path.as_str());
            return Ok(());
        }
        let Ok(found) = fs::symlink_metadata(self.files, &path) else {
            return Ok(());
        };
        if found.is_file() {
            let _before = self.held.fetch_add(found.len(), Ordering::SeqCst);
            if let Some(part) = PartName::of(self.alloc, name.as_bytes())? {
                self.parts.push(PartFile {
                    name: part,
                    bytes: found.len(),
                })?;
            }
        }
        Ok(())
    }

    fn path_behind(&self, name: &str) -> Result<String, AllocError> {
        let folder = self.path;
        format!(in self.alloc; "{folder}/{name}")
    }

    /// The parts that were there at the start, in their order.
    pub fn parts(&self) -> &[PartFile] {
        &self.parts
    }

    /// How many bytes its files have, as far as this watch knows.
    pub fn held(&self) -> u64 {
        self.held.load(Ordering::SeqCst)
    }

    /// The path of a part.
    pub fn path_of(&self, name: &PartName) -> Result<String, AllocError> {
        let text = name.text(self.alloc)?;
        match from_utf8(&text) {
            Ok(text) => self.path_behind(text),
            Err(_) => self.path_behind(""),
        }
    }

    /// The bytes of a part; none where it can't be read.
    pub fn text_of(&self, name: &PartName) -> Result<Option<Vec<u8>>, AllocError> {
        let path = self.path_of(name)?;
        match read_file(self.files, self.alloc, &path, MOST_OF_A_PART) {
            Ok(text) => Ok(Some(text)),
            Err(InputFault::Memory) => Err(AllocError),
            Err(InputFault::Unreadable) => Ok(None),
        }
    }

    /// Stores a part: whole and synced, or not at all. Not where the folder would have more bytes than it may.
    pub fn store(&self, name: &PartName, text: &[u8]) -> io::Result<()> {
        let path = self.path_of(name)?;
        let length = text.len() as u64;
        self.take_room(length)?;
        let stored = store_new(self.files, self.alloc, &path, FILE_MODE, text);
        if stored.is_err() {
            self.give_room(length);
        }
        stored
    }

    // So many bytes more are to be there. An error where the folder may not have them.
    pub(crate) fn take_room(&self, bytes: u64) -> io::Result<()> {
        let before = self.held.fetch_add(bytes, Ordering::SeqCst);
        if before.saturating_add(bytes) > self.most {
            self.give_room(bytes);
            return Err(io::Error::from(ErrorKind::StorageFull));
        }
        Ok(())
    }

    // So many bytes are there no more.
    pub(crate) fn give_room(&self, bytes: u64) {
        let _before = self.held.fetch_sub(bytes, Ordering::SeqCst);
    }

    // The names of its files are on the disk then.
    pub(crate) fn sync(&self) -> io::Result<()> {
        File::open(self.files, self.path)?.sync_all()
    }

    // Removes a part. Answers whether it is gone.
    pub(crate) fn remove(&self, part: &PartFile) -> Result<bool, AllocError> {
        let path = self.path_of(&part.name)?;
        match fs::remove_file(self.files, path.as_str()) {
            Ok(()) => {}
            Err(error) if error.kind() == ErrorKind::NotFound => {}
            Err(_) => return Ok(false),
        }
        self.give_room(part.bytes);
        Ok(true)
    }
}
