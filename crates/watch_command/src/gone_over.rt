//! The committees to which a watch went over, in the folder of what is kept: of committee N its file, `N.hsc`, its renewal, if it has one,
//! `N.hsr`, and what is kept of its chain, in the folder `N`.

use crate::fault::{Fault, FolderFile, WatchFault};
use crate::next::{NextFiles, NextRefusal};
use crate::program::WatchHost;
use blocks::CommitteeView;
use handover_blocks::handover_payload;
use handover_steps::{MOST_OF_A_RENEWAL, MOST_STEPS};
use program_parts::{
    InputFault, MOST_OF_A_SHORT_FILE, is_nothing_at, parse_committee, read_file, store_new,
};
use std::alloc::{AllocError, Global};
use std::fs::{File, Files};
use std::{fs, io};

/// The mode of the files of a committee.
const FILE_MODE: u32 = 0o600;

/// The committee with which a watch goes on.
#[derive(Drop)]
pub(crate) struct Standing {
    /// Its number: the first has 0.
    pub number: u64,
    /// How many culprits the committees before have, as far as this watch knows.
    pub earlier_culprits: u64,
    pub file: Vec<u8>,
}

impl Standing {
    /// The same.
    pub fn again(&self) -> Result<Standing, AllocError> {
        Ok(Standing {
            number: self.number,
            earlier_culprits: self.earlier_culprits,
            file: self.file.clone()?,
        })
    }

    /// The committee that comes next, where this one has so many culprits.
    pub fn next(&self, culprits: u64, file: Vec<u8>) -> Standing {
        Standing {
            number: self.number.saturating_add(1),
            earlier_culprits: self.earlier_culprits.saturating_add(culprits),
            file,
        }
    }
}

/// The folder of what is kept of the chain of this committee.
pub(crate) fn stay_path(alloc: Global, dir: &str, number: u64) -> Result<String, AllocError> {
    format!(in alloc; "{dir}/{number}")
}

// The bytes of a file of a committee, if it is there.
fn kept_file<'a, T: Files<File = File>>(
    host: &WatchHost<'_, T>,
    dir: &'a str,
    file: FolderFile,
    most: u64,
) -> Result<Option<Vec<u8>>, Fault<'a>> {
    let fault = Fault::Own(WatchFault::FileIn(dir, file));
    let path = path_in(host.alloc, dir, file)?;
    match is_nothing_at(host.rt, &path) {
        Ok(true) => return Ok(None),
        Ok(false) => {}
        Err(error) => return Err(Fault::unless_memory(&error, fault)),
    }
    match read_file(host.rt, host.alloc, &path, most) {
        Ok(bytes) => Ok(Some(bytes)),
        Err(InputFault::Memory) => Err(Fault::Memory),
        Err(InputFault::Unreadable) => Err(fault),
    }
}

// The path of a file of a committee.
fn path_in(alloc: Global, dir: &str, file: FolderFile) -> Result<String, AllocError> {
    match file {
        FolderFile::Renewal(number) => format!(in alloc; "{dir}/{number}.hsr"),
        FolderFile::Committee(number) => format!(in alloc; "{dir}/{number}.hsc"),
        _ => String::from_str(alloc, dir),
    }
}

// The committee that the folder has behind this one.
fn kept_next<'a, T: Files<File = File>>(
    host: &WatchHost<'_, T>,
    dir: &'a str,
    standing: &Standing,
) -> Result<Option<NextFiles>, Fault<'a>> {
    let number = standing.number.saturating_add(1);
    let (of_file, of_renewal) = (FolderFile::Committee(number), FolderFile::Renewal(number));
    let Some(file) = kept_file(host, dir, of_file, MOST_OF_A_SHORT_FILE)? else {
        return Ok(None);
    };
    let renewal = kept_file(host, dir, of_renewal, MOST_OF_A_RENEWAL)?;
    let old = parse_committee(&standing.file)?;
    let payload = handover_payload(&file);
    match NextFiles::judged(host.alloc, &old, &payload, file, renewal) {
        Ok(next) => Ok(Some(next)),
        Err(NextRefusal::Memory) => Err(Fault::Memory),
        Err(NextRefusal::File) => Err(Fault::Own(WatchFault::FileIn(dir, of_file))),
        Err(NextRefusal::Renewal) => Err(Fault::Own(WatchFault::FileIn(dir, of_renewal))),
    }
}

/// The last committee that the folder has behind the first one, whose file this is: each is judged anew.
pub(crate) fn last_kept<'a, T: Files<File = File>>(
    host: &WatchHost<'_, T>,
    dir: &'a str,
    first: Vec<u8>,
) -> Result<Standing, Fault<'a>> {
    let mut standing = Standing {
        number: 0,
        earlier_culprits: 0,
        file: first,
    };
    for _ in 0..MOST_STEPS {
        match kept_next(host, dir, &standing)? {
            Some(next) => standing = standing.next(0, next.file),
            None => break,
        }
    }
    Ok(standing)
}

// Stores these bytes, where nothing of that name is there. What a kill left unfinished is removed.
fn store<F: Files<File = File>>(
    files: &F,
    alloc: Global,
    path: &str,
    bytes: &[u8],
) -> io::Result<()> {
    if !is_nothing_at(files, path)? {
        return Ok(());
    }
    let beside = format!(in alloc; "{path}.new")?;
    if !is_nothing_at(files, &beside)? {
        fs::remove_file(files, &beside)?;
    }
    store_new(files, alloc, path, FILE_MODE, bytes)
}

/// Stores the files of the committee of this number, each synced and then named, its own last: so it is there with its renewal or not at
/// all. A file that is there was judged by the same handover, and stays.
pub(crate) fn store_next<F: Files<File = File>>(
    files: &F,
    alloc: Global,
    dir: &str,
    number: u64,
    next: &NextFiles,
) -> io::Result<()> {
    if let Some(renewal) = &next.renewal {
        let path = path_in(alloc, dir, FolderFile::Renewal(number))?;
        store(files, alloc, &path, renewal)?;
    }
    let path = path_in(alloc, dir, FolderFile::Committee(number))?;
    store(files, alloc, &path, &next.file)
}
